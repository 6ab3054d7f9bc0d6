//! A shared cache, and what opens and closes caches.

ghost use Rattle.std.specs.Prelude.{◌≡◌, ◌+◌, ◌*◌, ◌<◌, ◌≤◌, ◌^◌, ◌++◌, ℕ, List, [], length, All, IfOk, OnOk, OnErr};
ghost use Rattle.std.specs.Prelude.{IsPermutation, Some};
ghost use Rattle.flow_key.specs.Key.{set_number};
ghost use Rattle.packet_accept.specs.declared.packet.Packet.{Packet};
ghost use Rattle.flow_parts.specs.declared.fragment.Fragment.{Fragment};
ghost use Rattle.flow_parts.specs.Reaching.{Reaches};
ghost use Rattle.flow_parts.specs.Sharing.{SharesOut};
ghost use Rattle.cache_face.specs.Keeping.{packet_count, IsBorne};
ghost use Rattle.cache_face.specs.Meaning.{CacheMeans, PassMeans, IsFresh, IsAnswer, IsMetered, IsUnited};
ghost use Rattle.cache_face.specs.Notes.{note_with};
ghost use Rattle.cache_face.specs.Openings.{opened_with};
ghost use Rattle.cache_face.specs.Tries.{HasLost};
ghost use Rattle.cache_face.specs.declared.opened.Opened.{Opened};

use crate::metered::Metered;
use flow_parts::{Fragment, PartList, Timeouts};
use no_memory::NoMemory;
use packet_accept::Packet;
use std::alloc::Global;

/// A cache that threads share, each with passes of its own.
pub trait FlowCache: Sync + Drop {
    /// What a thread meters through. Between calls it is in the middle of no packet.
    type Pass: Send + Drop;

    ghost means: { Self → CacheMeans };

    ghost shown: { Self.Pass → PassMeans };

    // The pass is of this cache.
    ghost is_of: { Self → Self.Pass → Type 0 };

    // What a lost try is: a step of a pass that found what another seat had done.
    ghost lost_try: { Type 0 };

    // The lost try is one at the set.
    ghost is_try_of: { ℕ → lost_try → Type 0 };

    // The tries that the pass lost, newest first.
    ghost lost: { Self.Pass → List lost_try };

    /// Puts a fragment in, of one packet or of several. It waits for nobody and takes no memory. The fragment has fewer
    /// than 2^24 octets for each of its packets, and at most 2^32 packets together with all fragments that were put in
    /// through the pass before.
    ///
    /// The choice over the four entries of the set of the fragment's key decides what becomes of it; where other seats
    /// were in the way three times, it is passed by. The pass lists each lost try, and each is one of this set.
    fn meter_part(&self, pass: &mut Self::Pass, part: &Fragment) -> Metered
        requires own { is_of self.now pass.old }
        requires single { (shown pass.old).note.seats ≡ 1 }
        requires octets { part.now.octets < part.now.packets * 2 ^ 24 }
        requires room { packet_count (shown pass.old).note.taken + part.now.packets ≤ 2 ^ 32 }
        ensures own { is_of self.now pass.new }
        ensures note { (shown pass.new).note ≡ note_with (shown pass.old).note part.now result.out }
        ensures answer { IsAnswer (means self.now) (shown pass.new) part.now result.how result.out }
        ensures lost { HasLost (is_try_of (set_number part.now.key (means self.now).sets)) result.how (lost pass.old)
            (lost pass.new) };

    /// Meters a packet: puts the fragment of it alone in. It has fewer than 2^24 octets, and the fragments that were
    /// put in through the pass before have fewer than 2^32 packets together.
    fn meter(&self, pass: &mut Self::Pass, packet: &Packet) -> Metered
        requires own { is_of self.now pass.old }
        requires single { (shown pass.old).note.seats ≡ 1 }
        requires octets { packet.now.octets < 2 ^ 24 }
        requires room { packet_count (shown pass.old).note.taken < 2 ^ 32 }
        ensures own { is_of self.now pass.new }
        ensures metered { IsMetered (means self.now) (shown pass.old) (shown pass.new) packet.now
            result.how result.out }
        ensures lost { HasLost (is_try_of (set_number packet.now.key (means self.now).sets)) result.how (lost pass.old)
            (lost pass.new) }
    {
        self.meter_part(pass, &Fragment::of(packet))
    }

    /// Lets a fragment of one packet go by: it is put in, and handed out as it is, and no entry takes it in. What is
    /// known of lost tries stays. It reads and writes nothing that threads share, and takes no memory. The caller hands
    /// the fragment on.
    fn bypass(&self, pass: &mut Self::Pass, fragment: &Fragment)
        requires own { is_of self.now pass.old }
        requires single { (shown pass.old).note.seats ≡ 1 }
        requires alone { fragment.now.packets ≡ 1 }
        requires octets { fragment.now.octets < 2 ^ 24 }
        requires room { packet_count (shown pass.old).note.taken < 2 ^ 32 }
        ensures own { is_of self.now pass.new }
        ensures note { (shown pass.new).note ≡ note_with (shown pass.old).note fragment.now (Some fragment.now) }
        ensures lost { lost pass.new ≡ lost pass.old };

    /// One pass that stands for the seats of both. Only `unite` and `close` take a pass that stands for more than one
    /// seat.
    fn unite(&self, first: Self::Pass, second: Self::Pass) -> Self::Pass
        requires first { is_of self.now first }
        requires second { is_of self.now second }
        ensures own { is_of self.now result }
        ensures united { IsUnited (shown first) (shown second) (shown result) }
        ensures lost { lost result ≡ lost first ++ lost second };

    /// Ends the cache, and gives the entries that aren't empty. With the fragments that the pass was handed they are
    /// reached from those that were put in through it: they share out whatever packets these share out. And what the
    /// pass saw is borne out by what was put in.
    ///
    /// # Errors
    ///
    /// `NoMemory` where no memory was left; the entries are given up.
    fn close(self, alloc: Global, pass: Self::Pass) -> Result<Vec<Fragment>, NoMemory>
        requires own { is_of self pass }
        requires all { (shown pass).note.seats ≡ (means self).seats }
        ensures reached { IfOk result
            (λ entries. Reaches (means self).limits (shown pass).note.taken
            (entries.items ++ (shown pass).note.handed)) }
        ensures shared { IfOk result
            (λ entries. (packets : List Packet) → SharesOut (means self).limits packets (shown pass).note.taken
            → SharesOut (means self).limits packets (entries.items ++ (shown pass).note.handed)) }
        ensures seen { OnOk result (All (IsBorne (means self).limits (shown pass).note.taken) (shown pass).note.seen) };
}

/// What opens and closes caches of one kind.
pub trait Caches {
    type Cache: FlowCache;

    // The fragments of the last cache that was closed: those that were handed out, and its entries.
    ghost metered: { Self → List Fragment };

    // Which caches were opened.
    ghost opened: { Self → Opened };

    /// A cache of so many sets, 1 to 65,536, and a pass for each of 1 to 64 seats. What is
    /// known of the cache that was closed last stays. At an `Ok` one more cache was opened, at an `Err` none.
    ///
    /// # Errors
    ///
    /// `NoMemory` where no memory was left.
    fn open(
        &mut self,
        alloc: Global,
        sets: u64,
        seats: usize,
        timeouts: Timeouts,
    ) -> Result<(Self::Cache, Vec<<Self::Cache as FlowCache>::Pass>), NoMemory>
        requires sets { (1 ≤ sets) × (sets ≤ 65536) }
        requires seats { (1 ≤ seats) × (seats ≤ 64) }
        ensures cache { IfOk result (λ r. ((Self.Cache.means r.0).sets ≡ sets) × ((Self.Cache.means r.0).seats ≡ seats)
            × ((Self.Cache.means r.0).limits ≡ timeouts)) }
        ensures passes { IfOk result (λ r. (length r.1.items ≡ seats)
            × All (λ pass. Self.Cache.is_of r.0 pass × IsFresh (Self.Cache.shown pass)) r.1.items) }
        ensures unlost { IfOk result (λ r. All (λ pass. Self.Cache.lost pass ≡ []) r.1.items) }
        ensures kept { metered self.new ≡ metered self.old }
        ensures opened { OnOk result (opened self.new ≡ opened_with (opened self.old) sets seats) }
        ensures unopened { OnErr result (opened self.new ≡ opened self.old) };

    /// Closes a cache with the pass for all its seats and the fragments that this was handed, and gives its fragments
    /// away: those that were handed out, and its entries behind them. Nothing is copied.
    ///
    /// # Errors
    ///
    /// `NoMemory` where no memory was left; the fragments are given up.
    fn close(
        &mut self,
        alloc: Global,
        cache: Self::Cache,
        pass: <Self::Cache as FlowCache>::Pass,
        handed: PartList,
    ) -> Result<PartList, NoMemory>
        requires own { Self.Cache.is_of cache pass }
        requires all { (Self.Cache.shown pass).note.seats ≡ (Self.Cache.means cache).seats }
        requires handed { IsPermutation handed (Self.Cache.shown pass).note.handed }
        ensures entries { OnOk result ((entries : List Fragment)
            × IsPermutation (metered self.new) (handed ++ entries)
            × Reaches (Self.Cache.means cache).limits (Self.Cache.shown pass).note.taken
            (entries ++ (Self.Cache.shown pass).note.handed)) }
        ensures reached { OnOk result
            (Reaches (Self.Cache.means cache).limits (Self.Cache.shown pass).note.taken (metered self.new)) }
        ensures shared { OnOk result ((packets : List Packet)
            → SharesOut (Self.Cache.means cache).limits packets (Self.Cache.shown pass).note.taken
            → SharesOut (Self.Cache.means cache).limits packets (metered self.new)) }
        ensures seen { OnOk result (All
            (IsBorne (Self.Cache.means cache).limits (Self.Cache.shown pass).note.taken)
            (Self.Cache.shown pass).note.seen) }
        ensures given { IfOk result (λ parts. parts ≡ metered self.new) }
        ensures kept { OnErr result (metered self.new ≡ metered self.old) }
        ensures unopened { opened self.new ≡ opened self.old };
}
