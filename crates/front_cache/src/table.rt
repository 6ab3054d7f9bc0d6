//! The front.

ghost use Rattle.std.specs.Prelude.{◌≡◌, ◌+◌, ◌*◌, ◌<◌, ◌≤◌, ◌^◌, ℕ, [], ◌∷◌, ◌++◌, length, map, All, Option, Some};
ghost use Rattle.std.specs.Prelude.{List};
ghost use Rattle.std.specs.Prelude.{None, IsNone, IsSome, IfSome, IfOk, option_to_list, slice_set, slice_index_or};
ghost use Rattle.flow_key.specs.Key.{words_of};
ghost use Rattle.packet_accept.specs.declared.packet.Packet.{Packet};
ghost use Rattle.flow_parts.specs.Parts.{IsAlone, part_words};
ghost use Rattle.flow_parts.specs.Reaching.{Reaches};
ghost use Rattle.flow_parts.specs.declared.fragment.Fragment.{Fragment};
ghost use Rattle.flow_parts.specs.declared.timeouts.Timeouts.{Timeouts};
ghost use Rattle.cache_face.specs.Keeping.{IsBounded, IsEmptyContent, IsSmall, IsWhole, entry_of, packet_count};
ghost use Rattle.cache_face.specs.declared.metered.How.{How};
ghost use Rattle.front_cache.specs.Fronts.{IsTakenIn, entries_of, open_in, parts_in, place_of};
ghost use Rattle.front_cache.specs.Kept.{IsKept, IsNextOpen};

use crate::contents::put_into;
use cache_choice::put_out;
use cache_face::How;
use flow_parts::{Fragment, Timeouts};
use no_memory::NoMemory;
use packet_accept::Packet;
use std::alloc::Global;
use std::marker::Model;

/// How many places a front has.
const PLACES: u64 = 2048;

/// How many entries it has: two for each place.
const ENTRIES: usize = 4096;

/// A private table of open fragments.
///
/// Contracts see its time-outs and its entries, each a fragment or empty.
#[derive(Drop)]
pub struct Front {
    timeouts: Timeouts,
    /// Ten words for each entry.
    contents: Vec<[u64; 10]>,
    /// The entries below this one are empty.
    next: usize,
}

impl Model for Front {
    ghost use Rattle.std.specs.Prelude.{map};
    ghost use Rattle.cache_face.specs.Keeping.{entry_of};
    ghost use Rattle.front_cache.specs.Fronts.{FrontMeans};
    ghost use Rattle.front_cache.specs.Kept.{IsKept};

    ghost Value = { FrontMeans };

    ghost view = { λ f. record { limits = f.timeouts; entries = map entry_of f.contents.items } };

    ghost invariant = { λ f. IsKept f.contents.items f.next };
}

/// So many empty contents.
fn empty_contents(alloc: Global, count: usize) -> Result<Vec<[u64; 10]>, NoMemory>
    ensures { IfOk result (λ contents. (length contents.items ≡ count) × All IsEmptyContent contents.items) }
{
    Ok(vec![in alloc; [0u64; 10]; count]?)
}

/// The lowest content from `next` on that isn't empty, or their number.
fn next_open(contents: &[[u64; 10]], next: usize) -> usize
    requires { next ≤ length contents.now }
    ensures { IsNextOpen contents.now next result }
{
    for place in next..contents.len() {
        if contents[place][5] != 0 {
            return place;
        }
    }
    contents.len()
}

/// What a content shows, which is empty afterwards.
fn take_content(contents: &mut [[u64; 10]], place: usize) -> Option<Fragment>
    requires place { place < length contents.old }
    requires whole { All IsWhole contents.old }
    ensures shown { result ≡ entry_of (slice_index_or contents.old place []) }
    ensures emptied { (content : List ℕ) × IsEmptyContent content
        × (contents.new ≡ slice_set contents.old place content) }
{
    let out = put_out(How::Replaced, &contents[place]);
    contents[place] = [0; 10];
    out
}

impl Front {
    /// A front where nothing is open. All its memory is taken here.
    ///
    /// # Errors
    ///
    /// `NoMemory` where no memory was left.
    pub fn open(alloc: Global, timeouts: Timeouts) -> Result<Front, NoMemory>
        ensures limits { IfOk result (λ front. front.limits ≡ timeouts) }
        ensures entries { IfOk result (λ front. length front.entries ≡ 4096) }
        ensures empty { IfOk result (λ front. open_in front ≡ []) }
    {
        let contents = empty_contents(alloc, ENTRIES)?;
        Ok(Front {
            timeouts,
            contents,
            next: 0,
        })
    }

    /// Takes a packet in, and gives the fragment that leaves for it, if one does.
    ///
    /// Of the two entries of the place of the packet's key, the lowest that the packet's own fragment is joinable with
    /// takes it in; else the lowest entry of the key leaves, and is opened anew; else the lowest empty one is opened;
    /// else the one with the least last time, the lowest among equals, leaves and is opened anew.
    #[inline]
    pub fn take_in(&mut self, packet: &Packet) -> Option<Fragment>
        requires octets { packet.now.octets < 2 ^ 24 }
        requires room { packet_count (open_in self.old) + 1 ≤ 2 ^ 32 }
        ensures limits { self.new.limits ≡ self.old.limits }
        ensures taken { IsTakenIn self.old self.new packet.now result }
        ensures reached { (own : Fragment) × IsAlone packet.now own
            × Reaches self.old.limits (own ∷ open_in self.old) (option_to_list result ++ open_in self.new) }
        ensures bounded { IfSome result IsBounded }
    {
        let own = Fragment::of(packet);
        let words = own.key.to_words();
        let first = 2 * own.key.set_of(PLACES) as usize;
        let contents = self.contents.as_mut_slice();
        let (place, out) = put_into(&self.timeouts, contents, first, &words, &own);
        self.next = self.next.min(place);
        out
    }

    /// Takes the next open fragment out: place by place, the first entry before the second. `None` where nothing is
    /// open.
    pub fn take_out(&mut self) -> Option<Fragment>
        ensures limits { self.new.limits ≡ self.old.limits }
        ensures taken { open_in self.old ≡ option_to_list result ++ open_in self.new }
        ensures none { IsNone result → open_in self.new ≡ [] }
        ensures others { IsSome result → (place : ℕ) × (self.new.entries ≡ slice_set self.old.entries place None) }
        ensures bounded { IfSome result IsBounded }
    {
        let found = next_open(self.contents.as_slice(), self.next);
        self.next = found;
        if found == ENTRIES {
            return None;
        }
        take_content(self.contents.as_mut_slice(), found)
    }
}
