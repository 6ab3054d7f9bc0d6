//! Tables of packets, for any cache: one set and one seat, and one set and two seats.

ghost use Rattle.std.specs.Prelude.{◌≡◌, ◌+◌, ◌<◌, ◌≤◌, ◌^◌, ◌++◌, OnOk, option_to_list};
ghost use Rattle.cache_face.specs.Keeping.{packet_count};

use cache_face::{Caches, FlowCache, How, Metered};
use flow_cache::PebrCaches;
use flow_parts::{Fragment, PartList, Timeouts};
use packet_accept::Packet;
use std::alloc::Global;
use std::process::Abort;
use std::test::Fail;
use trial_samples::udp_key;
use turn_cache::TurnCaches;

/// A packet of 40 octets of a flow, at this second.
fn packet(number: u32, flow: u16, second: u32) -> Packet
    ensures { (result.number ≡ number) × (result.octets ≡ 40) }
{
    Packet {
        number: number as u64,
        key: udp_key(flow),
        time: 1000 * second as u64,
        octets: 40,
        flags: 0,
    }
}

/// Meters a packet.
fn meter<C: FlowCache>(
    cache: &C,
    pass: &mut C::Pass,
    number: u32,
    flow: u16,
    second: u32,
) -> Metered
    requires own { C.is_of cache.now pass.old }
    requires single { (C.shown pass.old).note.seats ≡ 1 }
    requires few { packet_count (C.shown pass.old).note.taken ≤ number }
    ensures own { C.is_of cache.now pass.new }
    ensures single { (C.shown pass.new).note.seats ≡ 1 }
    ensures few { packet_count (C.shown pass.new).note.taken ≤ number + 1 }
    ensures handed { (C.shown pass.new).note.handed ≡ (C.shown pass.old).note.handed ++ option_to_list result.out }
{
    cache.meter(pass, &packet(number, flow, second))
}

/// Meters a packet, and keeps the fragment that is handed out.
fn keep<C: FlowCache>(
    cache: &C,
    pass: &mut C::Pass,
    handed: &mut Vec<Fragment>,
    number: u32,
    flow: u16,
    second: u32,
) -> Result<How, Fail>
    requires own { C.is_of cache.now pass.old }
    requires single { (C.shown pass.old).note.seats ≡ 1 }
    requires few { packet_count (C.shown pass.old).note.taken ≤ number }
    requires handed { handed.old.items ≡ (C.shown pass.old).note.handed }
    ensures own { C.is_of cache.now pass.new }
    ensures single { (C.shown pass.new).note.seats ≡ 1 }
    ensures few { packet_count (C.shown pass.new).note.taken ≤ number + 1 }
    ensures handed { OnOk result (handed.new.items ≡ (C.shown pass.new).note.handed) }
{
    let metered = meter(cache, pass, number, flow, second);
    if let Some(part) = metered.out {
        handed.push(part)?;
    }
    Ok(metered.how)
}

/// Whether a fragment of this flow with this number of packets was handed out.
fn is_out(metered: &Metered, flow: u16, packets: u64) -> bool {
    match metered.out {
        Some(part) => part.key.source_port == flow && part.packets == packets,
        None => false,
    }
}

/// How many packets a flow's only fragment has, and 0 where it has none.
fn packets_of(parts: &[Fragment], flow: u16) -> u64 {
    let mut packets = 0;
    for part in parts {
        if part.key.source_port == flow {
            packets = part.packets;
        }
    }
    packets
}

/// Flows 1 to 5 at 5, 1, 3, 4 and 9 s fill four entries, and the fifth puts the oldest out.
fn puts_the_oldest_out<C: Caches + Drop>(rt: &impl Abort, alloc: Global, mut caches: C) {
    let timeouts = Timeouts::new(300, 1800);
    let (cache, mut passes) = caches.open(alloc, 1, 1, timeouts).expect(rt, "memory");
    let mut pass = passes.pop().expect(rt, "a pass");
    assert!(rt; meter(&cache, &mut pass, 0, 1, 5).how == How::Opened);
    assert!(rt; meter(&cache, &mut pass, 1, 2, 1).how == How::Opened);
    assert!(rt; meter(&cache, &mut pass, 2, 3, 3).how == How::Opened);
    assert!(rt; meter(&cache, &mut pass, 3, 4, 4).how == How::Opened);
    let fifth = meter(&cache, &mut pass, 4, 5, 9);
    assert!(rt; fifth.how == How::Replaced && is_out(&fifth, 2, 1));
    let sixth = meter(&cache, &mut pass, 5, 2, 10);
    assert!(rt; sixth.how == How::Replaced && is_out(&sixth, 3, 1));
    let seventh = meter(&cache, &mut pass, 6, 1, 11);
    assert!(rt; seventh.how == How::Joined && seventh.out.is_none());
    let parts = cache.close(alloc, pass).expect(rt, "memory");
    assert!(rt; parts.len() == 4 && packets_of(&parts, 1) == 2 && packets_of(&parts, 2) == 1);
    assert!(rt; packets_of(&parts, 4) == 1 && packets_of(&parts, 5) == 1);
}

/// Lets a packet's own fragment go by.
fn let_by<C: FlowCache>(cache: &C, pass: &mut C::Pass, number: u32, flow: u16, second: u32)
    requires own { C.is_of cache.now pass.old }
    requires single { (C.shown pass.old).note.seats ≡ 1 }
    requires few { packet_count (C.shown pass.old).note.taken ≤ number }
    ensures own { C.is_of cache.now pass.new }
    ensures single { (C.shown pass.new).note.seats ≡ 1 }
    ensures few { packet_count (C.shown pass.new).note.taken ≤ number + 1 }
{
    cache.bypass(pass, &Fragment::of(&packet(number, flow, second)));
}

/// A packet of flow 1 opens an entry, the next one goes by, and the third joins the entry, which has two packets then.
fn lets_one_packet_by<C: Caches + Drop>(rt: &impl Abort, alloc: Global, mut caches: C) {
    let timeouts = Timeouts::new(300, 1800);
    let (cache, mut passes) = caches.open(alloc, 1, 1, timeouts).expect(rt, "memory");
    let mut pass = passes.pop().expect(rt, "a pass");
    assert!(rt; meter(&cache, &mut pass, 0, 1, 5).how == How::Opened);
    let_by(&cache, &mut pass, 1, 1, 6);
    assert!(rt; meter(&cache, &mut pass, 2, 1, 7).how == How::Joined);
    let parts = cache.close(alloc, pass).expect(rt, "memory");
    assert!(rt; parts.len() == 1 && packets_of(&parts, 1) == 2);
}

/// The octets of all fragments.
fn octets_of(parts: &[Fragment]) -> u64 {
    let mut octets: u64 = 0;
    for part in parts {
        octets = octets.wrapping_add(part.octets);
    }
    octets
}

/// The fragments of a list, copied into one piece.
fn in_one(alloc: Global, parts: PartList) -> Result<Vec<Fragment>, Fail> {
    let pieces = parts.into_pieces()?;
    let mut all = Vec::new(alloc);
    for piece in pieces.as_slice() {
        all.extend_from_slice(piece.as_slice())?;
    }
    Ok(all)
}

/// Flows 1 to 4 through one pass, and flow 5 through another, which is handed flow 2's fragment and finds flow 1's
/// entry. The fragments at the end have the six packets of 40 octets.
fn keeps_what_two_passes_metered<C: Caches + Drop>(
    rt: &impl Abort,
    alloc: Global,
    mut caches: C,
) -> Result<(), Fail> {
    let timeouts = Timeouts::new(300, 1800);
    let (cache, mut passes) = caches.open(alloc, 1, 2, timeouts).expect(rt, "memory");
    let mut one = passes.pop().expect(rt, "a pass");
    let mut other = passes.pop().expect(rt, "a pass");
    let mut handed = Vec::new(alloc);
    let mut others = Vec::new(alloc);
    assert!(rt; keep(&cache, &mut one, &mut handed, 0, 1, 5)? == How::Opened);
    assert!(rt; keep(&cache, &mut one, &mut handed, 1, 2, 1)? == How::Opened);
    assert!(rt; keep(&cache, &mut one, &mut handed, 2, 3, 3)? == How::Opened);
    assert!(rt; keep(&cache, &mut one, &mut handed, 3, 4, 4)? == How::Opened);
    assert!(rt; keep(&cache, &mut other, &mut others, 4, 5, 9)? == How::Replaced);
    assert!(rt; keep(&cache, &mut other, &mut others, 5, 1, 11)? == How::Joined);
    assert!(rt; handed.is_empty() && others.len() == 1 && packets_of(&others, 2) == 1);
    let mut list = PartList::new(alloc);
    list.add_piece(handed)?;
    list.add_piece(others)?;
    let pass = cache.unite(one, other);
    let parts = in_one(alloc, caches.close(alloc, cache, pass, list)?)?;
    assert!(rt; parts.len() == 5 && octets_of(&parts) == 240 && packets_of(&parts, 1) == 2);
    assert!(rt; packets_of(&parts, 2) == 1 && packets_of(&parts, 3) == 1);
    assert!(rt; packets_of(&parts, 4) == 1 && packets_of(&parts, 5) == 1);
    Ok(())
}

#[test]
fn one_set_and_one_seat(rt: HostRuntime) {
    puts_the_oldest_out(&rt, rt.alloc(), TurnCaches::new());
    lets_one_packet_by(&rt, rt.alloc(), TurnCaches::new());
}

#[test]
fn one_set_and_two_seats(rt: HostRuntime) -> Result<(), Fail> {
    keeps_what_two_passes_metered(&rt, rt.alloc(), TurnCaches::new())
}

#[test]
fn one_set_and_one_seat_without_turns(rt: HostRuntime) {
    puts_the_oldest_out(&rt, rt.alloc(), PebrCaches::new());
    lets_one_packet_by(&rt, rt.alloc(), PebrCaches::new());
}

#[test]
fn one_set_and_two_seats_without_turns(rt: HostRuntime) -> Result<(), Fail> {
    keeps_what_two_passes_metered(&rt, rt.alloc(), PebrCaches::new())
}
