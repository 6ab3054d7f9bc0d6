//! A front as a table.

ghost use Rattle.std.specs.Prelude.{◌≡◌, ◌+◌, ◌≤◌, ◌^◌, IfOk};
ghost use Rattle.cache_face.specs.Keeping.{packet_count};
ghost use Rattle.front_cache.specs.Fronts.{open_in};

use flow_parts::laws::reaching_shares_out;
use flow_parts::{Fragment, Timeouts};
use front_cache::{Front, NoMemory};
use packet_accept::Packet;
use std::alloc::Global;
use trial_samples::udp_key;

/// Five flows by their source ports. The first three have the same place, and the others have the first and the last
/// place of all.
const ONE: u16 = 1733;

const TWO: u16 = 3226;

const THREE: u16 = 4719;

const FIRST: u16 = 13_637;

const LAST: u16 = 1131;

/// A front, and how many packets it may still take in.
#[derive(Drop)]
struct Counted {
    front: Front,
    left: u32,
    ghost few: { packet_count (open_in front) + left ≤ 2 ^ 32 },
}

/// A front where nothing is open, with time-outs of 300 and 1800 s.
fn new_front(alloc: Global) -> Result<Counted, NoMemory> {
    let front = Front::open(alloc, Timeouts::new(300, 1800))?;
    Ok(Counted { front, left: 1000 })
}

impl Counted {
    /// Takes in a packet of 40 octets of a flow, at this second.
    fn take_in(&mut self, flow: u16, second: u32) -> Option<Fragment> {
        if self.left == 0 {
            return None;
        }
        self.left -= 1;
        reaching_shares_out();
        self.front.take_in(&Packet {
            number: 0,
            key: udp_key(flow),
            time: 1000 * second as u64,
            octets: 40,
            flags: 0,
        })
    }

    /// Takes the next open fragment out.
    fn take_out(&mut self) -> Option<Fragment> {
        self.front.take_out()
    }
}

/// The fragment of `packets` packets of 40 octets of a flow, from the second `first` to the second `last`.
fn part(flow: u16, packets: u32, first: u32, last: u32) -> Option<Fragment>
    requires packets { 1 ≤ packets }
    requires seconds { first ≤ last }
{
    Some(Fragment {
        key: udp_key(flow),
        packets: packets as u64,
        octets: 40 * packets as u64,
        first: 1000 * first as u64,
        last: 1000 * last as u64,
        flags: 0,
    })
}

/// What leaves for each packet. The second entry of a place is opened where the first is of another flow. Each entry
/// takes in packets of its own flow. Where both are of other flows, the one with the least last time leaves, or the
/// first where the times are equal. An entry of the packet's own flow that the packet doesn't fit leaves, in either
/// entry, and also where the other entry is empty, which stays so. At the end each open fragment comes once, place by
/// place.
#[test]
fn two_entries_of_a_place(rt: HostRuntime) -> Result<(), NoMemory> {
    let mut front = new_front(rt.alloc())?;
    let rows = [
        (LAST, 50, None),
        (ONE, 100, None),
        (TWO, 101, None),
        (ONE, 102, None),
        (TWO, 90, None),
        (THREE, 103, part(TWO, 2, 90, 101)),
        (THREE, 104, None),
        (ONE, 500, part(ONE, 2, 100, 102)),
        (TWO, 500, part(THREE, 2, 103, 104)),
        (THREE, 600, part(ONE, 1, 500, 500)),
        (TWO, 801, part(TWO, 1, 500, 500)),
        (THREE, 601, None),
        (FIRST, 60, None),
        (LAST, 350, None),
        (LAST, 651, part(LAST, 2, 50, 350)),
    ];
    for (flow, second, left) in rows {
        assert!(rt; front.take_in(flow, second) == left);
    }
    let open = [
        part(FIRST, 1, 60, 60),
        part(THREE, 2, 600, 601),
        part(TWO, 1, 801, 801),
        part(LAST, 1, 651, 651),
        None,
        None,
    ];
    for next in open {
        assert!(rt; front.take_out() == next);
    }
    Ok(())
}

/// A front takes packets in while it is being emptied, and again once it is empty.
#[test]
fn packets_while_emptying(rt: HostRuntime) -> Result<(), NoMemory> {
    let mut front = new_front(rt.alloc())?;
    assert!(rt; front.take_out().is_none());
    assert!(rt; front.take_in(LAST, 1).is_none());
    assert!(rt; front.take_in(ONE, 2).is_none());
    assert!(rt; front.take_in(TWO, 3).is_none());
    assert!(rt; front.take_out() == part(ONE, 1, 2, 2));
    assert!(rt; front.take_in(FIRST, 60).is_none());
    assert!(rt; front.take_out() == part(FIRST, 1, 60, 60));
    assert!(rt; front.take_in(ONE, 5).is_none());
    for next in [part(ONE, 1, 5, 5), part(TWO, 1, 3, 3), part(LAST, 1, 1, 1)] {
        assert!(rt; front.take_out() == next);
    }
    assert!(rt; front.take_out().is_none());
    assert!(rt; front.take_in(TWO, 6).is_none());
    assert!(rt; front.take_out() == part(TWO, 1, 6, 6));
    assert!(rt; front.take_out().is_none());
    Ok(())
}
