//! A packet is metered.

ghost use Rattle.std.specs.Prelude.{◌≡◌, ◌≢◌, ◌+◌, ◌-◌, ◌*◌, ◌<◌, ◌≤◌, ◌^◌, None};
ghost use Rattle.flow_key.specs.Key.{set_number};
ghost use Rattle.cache_face.specs.Keeping.{packet_count};
ghost use Rattle.cache_face.specs.Meaning.{IsAnswer};
ghost use Rattle.cache_face.specs.Notes.{first_note, note_with};
ghost use Rattle.cache_face.specs.Tries.{HasLost};
ghost use Rattle.pebr_core.specs.Frames.{fresh_count, retired_count};
ghost use Rattle.pebr_roots.specs.Orders.{HasMade};
ghost use Rattle.pebr_roots.specs.Passes.{shape_at, known_by_pass, number_by, note_by, past_by, operations_by, IsOf};
ghost use Rattle.pebr_roots.specs.Passes.{IsSame};
ghost use Rattle.flow_cache.specs.Collecting.{HasCollected, HasBegun, HasSpared, CollectsFrom};
ghost use Rattle.flow_cache.specs.Outcome.{HaveLost, IsOutcome};
ghost use Rattle.flow_cache.specs.Shown as shown;
ghost use Rattle.flow_cache.specs.Shown.{means_of, shown_of, past_of, tries_of, retired_of, ejections_of, slots_of};
ghost use Rattle.flow_cache.specs.Shown.{IsTryOf, seat_of, shape_of_roots, number_of, operations_of};
ghost use Rattle.flow_cache.specs.Trying.{IsOwn, IsResting};

use crate::cache::{PebrCache, PebrPass};
use crate::protocol::CacheRule;
use crate::stop::Stop;
use cache_face::{How, Metered};
use flow_parts::Fragment;
use pebr_roots::RootPass;

/// From this many retired slots on a pass collects.
const BATCH: usize = 32;

/// After this many lost tries a packet is passed by.
const TRIES: u64 = 3;

impl PebrCache {
    /// Collects without force from 32 retired slots on.
    fn collect_batch(&self, pass: &mut RootPass<CacheRule>)
        requires of { IsOf self.now.roots pass.old }
        requires resting { IsResting (known_by_pass pass.old) }
        ensures same { IsSame self.now.roots pass.old pass.new }
        ensures resting { IsResting (known_by_pass pass.new) }
        ensures note { note_by first_note pass.new ≡ note_by first_note pass.old }
        ensures lost { (past_by pass.new).lost ≡ (past_by pass.old).lost }
        ensures ejections { (past_by pass.new).ejections ≡ (past_by pass.old).ejections }
        ensures many { 32 ≤ retired_count (known_by_pass pass.old)
            → HasCollected 1 (past_by pass.old) (past_by pass.new) }
        ensures none { retired_count (known_by_pass pass.old) < 32
            → HasCollected 0 (past_by pass.old) (past_by pass.new)
            × (operations_by pass.new ≡ operations_by pass.old) }
        ensures batch { 32 ≤ retired_count (known_by_pass pass.old) → HasBegun (shape_at self.now.roots)
            (number_by pass.old) (known_by_pass pass.old) (past_by pass.old) (operations_by pass.old)
            (operations_by pass.new) }
        ensures few { HasMade (6 * ((shape_at self.now.roots).seats - 1) + 4) (operations_by pass.old)
            (operations_by pass.new) }
        ensures fresh { fresh_count (known_by_pass pass.old) ≤ fresh_count (known_by_pass pass.new) }
    {
        if pass.retired() >= BATCH {
            self.roots.collect(pass, false);
        }
    }

    /// Collects with force where no fresh slot is left.
    fn collect_if_none(&self, pass: &mut RootPass<CacheRule>)
        requires of { IsOf self.now.roots pass.old }
        requires resting { IsResting (known_by_pass pass.old) }
        ensures same { IsSame self.now.roots pass.old pass.new }
        ensures resting { IsResting (known_by_pass pass.new) }
        ensures note { note_by first_note pass.new ≡ note_by first_note pass.old }
        ensures lost { (past_by pass.new).lost ≡ (past_by pass.old).lost }
        ensures ejections { 0 < fresh_count (known_by_pass pass.old)
            → (past_by pass.new).ejections ≡ (past_by pass.old).ejections }
        ensures none { fresh_count (known_by_pass pass.old) ≡ 0 → HasCollected 1 (past_by pass.old) (past_by pass.new) }
        ensures some { 0 < fresh_count (known_by_pass pass.old) → HasCollected 0 (past_by pass.old) (past_by pass.new)
            × (operations_by pass.new ≡ operations_by pass.old) }
        ensures few { HasMade (6 * ((shape_at self.now.roots).seats - 1) + 4) (operations_by pass.old)
            (operations_by pass.new) }
        ensures fresh { 0 < fresh_count (known_by_pass pass.new) }
    {
        if pass.fresh() == 0 {
            self.roots.collect(pass, true);
        }
    }

    /// Makes sure that there is a fresh slot.
    fn make_room(&self, pass: &mut RootPass<CacheRule>)
        requires of { IsOf self.now.roots pass.old }
        requires resting { IsResting (known_by_pass pass.old) }
        ensures same { IsSame self.now.roots pass.old pass.new }
        ensures resting { IsResting (known_by_pass pass.new) }
        ensures note { note_by first_note pass.new ≡ note_by first_note pass.old }
        ensures lost { (past_by pass.new).lost ≡ (past_by pass.old).lost }
        ensures ejections { retired_count (known_by_pass pass.old) ≢ 32 + 4 * (shape_at self.now.roots).seats
            → (past_by pass.new).ejections ≡ (past_by pass.old).ejections }
        ensures collects { CollectsFrom (shape_at self.now.roots) (number_by pass.old) (known_by_pass pass.old)
            (past_by pass.old) (past_by pass.new) (operations_by pass.old) (operations_by pass.new) }
        ensures few { HasMade (12 * ((shape_at self.now.roots).seats - 1) + 8) (operations_by pass.old)
            (operations_by pass.new) }
        ensures fresh { 0 < fresh_count (known_by_pass pass.new) }
    {
        self.collect_batch(pass);
        self.collect_if_none(pass);
    }

    /// Tries to put the packet's fragment into its set, and passes the packet by after the third lost try. Answers
    /// how many tries were lost; what became of the packet goes into `metered`.
    fn put_in<T: Stop>(
        &self,
        pass: &mut RootPass<CacheRule>,
        set: u64,
        own: &Fragment,
        contents: &mut [[u64; 10]; 4],
        metered: &mut Metered,
        stop: &mut T,
    ) -> u64
        requires of { IsOf self.now.roots pass.old }
        requires set { set < self.now.sets }
        requires resting { IsResting (known_by_pass pass.old) }
        requires fresh { 0 < fresh_count (known_by_pass pass.old) }
        requires own { IsOwn self.now.sets set (note_by first_note pass.old) own.now }
        requires none { metered.old.out ≡ None }
        ensures same { IsSame self.now.roots pass.old pass.new }
        ensures resting { IsResting (known_by_pass pass.new) }
        ensures ejections { (past_by pass.new).ejections ≡ (past_by pass.old).ejections }
        ensures note { note_by first_note pass.new
            ≡ note_with (note_by first_note pass.old) own.now metered.new.out }
        ensures lost { HaveLost set result (past_by pass.old) (past_by pass.new) }
        ensures spared { HasCollected 0 (past_by pass.old) (past_by pass.new) }
        ensures outcome { IsOutcome self.now.timeouts (shape_at self.now.roots).seats set
            (past_by pass.new) own.now result metered.new.how metered.new.out }
        ensures few { HasSpared (shape_at self.now.roots) (number_by pass.old) 201 (operations_by pass.old)
            (operations_by pass.new) }
    {
        for lost in 0..TRIES {
            let last = lost + 1 == TRIES;
            if self.attempt(pass, set, own, last, contents, metered, stop) {
                return lost;
            }
        }
        *metered = Metered {
            how: How::PassedBy,
            out: Some(*own),
        };
        TRIES
    }

    /// Puts a fragment in, as [`meter_part`](cache_face::FlowCache::meter_part) does. It waits for nobody and takes no
    /// memory. At the points of each try it calls `stop`; that it does is tested, and no clause says where.
    ///
    /// From 32 retired slots on it begins with a collection without force, and with fewer it doesn't collect. Another
    /// seat is ejected only where the pass had all its slots retired when the call began. It makes at most 209
    /// operations on words, and 12 for each other seat besides.
    pub fn meter_stopping<T: Stop>(
        &self,
        pass: &mut PebrPass,
        part: &Fragment,
        stop: &mut T,
    ) -> Metered
        requires own { shown.IsOf self.now pass.old }
        requires single { (shown_of pass.old).note.seats ≡ 1 }
        requires octets { part.now.octets < part.now.packets * 2 ^ 24 }
        requires room { packet_count (shown_of pass.old).note.taken + part.now.packets ≤ 2 ^ 32 }
        ensures own { shown.IsOf self.now pass.new }
        ensures note { (shown_of pass.new).note ≡ note_with (shown_of pass.old).note part.now result.out }
        ensures answer { IsAnswer (means_of self.now) (shown_of pass.new) part.now result.how result.out }
        ensures lost { HasLost (IsTryOf (set_number part.now.key (means_of self.now).sets)) result.how
            (tries_of pass.old) (tries_of pass.new) }
        ensures retired { retired_of pass.new ≤ slots_of self.now }
        ensures ejections { retired_of pass.old ≢ slots_of self.now → ejections_of pass.new ≡ ejections_of pass.old }
        ensures collects { CollectsFrom (shape_of_roots self.now) (number_of pass.old)
            (known_by_pass (seat_of pass.old)) (past_of pass.old) (past_of pass.new) (operations_of pass.old)
            (operations_of pass.new) }
        ensures few { HasMade (12 * ((means_of self.now).seats - 1) + 209) (operations_of pass.old)
            (operations_of pass.new) }
    {
        let set = part.key.set_of(self.sets);
        self.make_room(&mut pass.inner);
        let mut metered = Metered {
            how: How::PassedBy,
            out: None,
        };
        let lost = self.put_in(
            &mut pass.inner,
            set,
            part,
            &mut pass.contents,
            &mut metered,
            stop,
        );
        pass.lost = pass.lost.saturating_add(lost);
        pass.book.put(part, &metered.out);
        metered
    }
}
