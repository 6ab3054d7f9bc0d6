//! What a watcher is asked to do.

ghost use Rattle.std.specs.Prelude.{◌≡◌, ◌≢◌, ◌<◌, ◌∷◌, IsNone, IfSome, Some, None};
ghost use Rattle.flow_cache.specs.declared.cache.PebrCache.{PebrCache};
ghost use Rattle.flow_cache.specs.Shown as shown;
ghost use Rattle.flow_cache.specs.Shown.{means_of, shown_of, tries_of};
ghost use Rattle.flow_key.specs.Key.{set_number};
ghost use Rattle.pebr_words.specs.Pasts.{was_ejected};
ghost use Rattle.pebr_roots.specs.Orders.{HasMade};
ghost use Rattle.cache_watch.specs.Watching.{IsOf, IsWatched, HasRead, held_by, slot_held_by, note_of, past_of};
ghost use Rattle.cache_watch.specs.Watching.{lost_of};
ghost use Rattle.cache_watch.specs.Watching.{operations_of};
ghost use Rattle.cache_watch.specs.Holding.{note_seen};

use crate::hold::{Tried, attempt};
use crate::watcher::{Watch, Watcher};
use flow_cache::{PebrCache, PebrPass};
use flow_key::FlowKey;
use flow_parts::Fragment;

/// After this many lost tries a call of `hold` answers `Lost`.
const TRIES: u32 = 3;

impl Watcher {
    /// A watcher at the seat of a pass. It holds nothing yet.
    pub fn open(pass: PebrPass) -> Watcher
        requires single { (shown_of pass).note.seats ≡ 1 }
        ensures idle { held_by result ≡ None }
        ensures of { (cache : PebrCache) → shown.IsOf cache pass → IsOf cache result }
        ensures note { note_of result ≡ (shown_of pass).note }
        ensures lost { lost_of result ≡ tries_of pass }
    {
        let lost = pass.lost();
        let (seat, book) = pass.into_seat();
        Watcher {
            seat,
            lost,
            held: None,
            book,
        }
    }

    /// One try. `None` where the watcher was ejected.
    fn ask(&mut self, cache: &PebrCache, set: u64, key: &FlowKey) -> Option<Watch>
        requires of { IsOf cache.now self.old }
        requires set { set ≡ set_number key.now (means_of cache.now).sets }
        requires within { set < (means_of cache.now).sets }
        requires idle { held_by self.old ≡ None }
        ensures of { IsOf cache.now self.new }
        ensures note { note_of self.new ≡ note_seen (held_by self.new) (note_of self.old) }
        ensures some { IfSome result (λ watch. IsWatched (means_of cache.now) key.now watch self.old self.new
            × (watch ≢ Watch.Lost)) }
        ensures pins { (past_of self.old).pins < (past_of self.new).pins }
        ensures few { HasMade 56 (operations_of self.old) (operations_of self.new) }
        ensures none { IsNone result → (held_by self.new ≡ None) × (lost_of self.new ≡ was_ejected ∷ lost_of self.old)
            × ((means_of cache.now).seats ≢ 1) }
    {
        match attempt(cache, &mut self.seat, set, key) {
            Tried::Held(hold) => {
                self.held = Some(hold);
                Some(Watch::Held)
            }
            Tried::Absent => Some(Watch::Absent),
            Tried::Ejected => {
                self.lost = self.lost.saturating_add(1);
                None
            }
        }
    }

    /// Holds the flow of a key: the lowest of the four entries of its set that has the key, as it was read in this
    /// call. The watcher's note lists it as seen, so that what was put into the cache bears it out.
    ///
    /// `Absent`: none of the four entries that were read has the key. `Lost`: in this call the watcher was ejected
    /// three times before its shields were valid; it never comes where the cache has one seat. The call waits for
    /// nobody, takes no memory, and makes at most 168 operations on words.
    pub fn hold(&mut self, cache: &PebrCache, key: &FlowKey) -> Watch
        requires of { IsOf cache.now self.old }
        requires idle { held_by self.old ≡ None }
        ensures of { IsOf cache.now self.new }
        ensures note { note_of self.new ≡ note_seen (held_by self.new) (note_of self.old) }
        ensures answer { IsWatched (means_of cache.now) key.now result self.old self.new }
        ensures few { HasMade 168 (operations_of self.old) (operations_of self.new) }
    {
        let set = key.set_of(cache.sets());
        for _turn in 0..TRIES {
            if let Some(watch) = self.ask(cache, set, key) {
                return watch;
            }
        }
        Watch::Lost
    }

    /// The flow that is held, read anew from its slot: ten words, the same at each call until it is released, whatever
    /// other seats do meanwhile.
    pub fn read(&mut self, cache: &PebrCache) -> Fragment
        requires of { IsOf cache.now self.old }
        requires holding { held_by self.old ≢ None }
        ensures of { IsOf cache.now self.new }
        ensures note { note_of self.new ≡ note_of self.old }
        ensures held { held_by self.new ≡ held_by self.old }
        ensures read { Some result ≡ held_by self.old }
        ensures slot { slot_held_by self.new ≡ slot_held_by self.old }
        ensures ten { HasRead result self.old self.new }
        ensures few { HasMade 10 (operations_of self.old) (operations_of self.new) }
    {
        let Some(hold) = self.held else {
            unreachable!()
        };
        match cache.read_entry(&mut self.seat, hold.place) {
            Some(fragment) => fragment,
            None => unreachable!(),
        }
    }

    /// Releases the flow that is held: the shields are taken down.
    pub fn release(&mut self, cache: &PebrCache)
        requires of { IsOf cache.now self.old }
        requires holding { held_by self.old ≢ None }
        ensures of { IsOf cache.now self.new }
        ensures note { note_of self.new ≡ note_of self.old }
        ensures idle { held_by self.new ≡ None }
        ensures lost { lost_of self.new ≡ lost_of self.old }
        ensures few { HasMade 4 (operations_of self.old) (operations_of self.new) }
    {
        cache.roots().clear(&mut self.seat);
        self.held = None;
    }

    /// The pass of the watcher's seat.
    pub fn close(self) -> PebrPass
        requires idle { held_by self ≡ None }
        ensures of { (cache : PebrCache) → IsOf cache self → shown.IsOf cache result }
        ensures note { (shown_of result).note ≡ note_of self }
        ensures lost { tries_of result ≡ lost_of self }
    {
        let Watcher {
            seat,
            lost,
            held: _,
            book,
        } = self;
        PebrPass::from_seat(seat, lost, book)
    }
}
