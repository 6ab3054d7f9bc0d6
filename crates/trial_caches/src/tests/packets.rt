//! Flows 1 to 5 through one pass, in one set.

ghost use Rattle.std.specs.Prelude.{◌≡◌, ◌+◌, ◌<◌, ◌≤◌, ◌^◌, length, All, IfSome};
ghost use Rattle.cache_face.specs.Keeping.{packet_count};
ghost use Rattle.cache_face.specs.Meaning.{IsFresh};
ghost use Rattle.flow_cache.specs.Shown.{shown_of, IsOf};

use cache_face::{Caches, FlowCache, How, Metered};
use flow_cache::{PebrCache, PebrCaches, PebrPass};
use flow_parts::{Fragment, Timeouts};
use packet_accept::Packet;
use trial_samples::udp_key;

/// A packet of 40 octets of a flow, at this second.
pub fn packet(number: u64, flow: u16, second: u32) -> Packet
    ensures { (result.number ≡ number) × (result.octets ≡ 40) }
{
    Packet {
        number,
        key: udp_key(flow),
        time: 1000 * second as u64,
        octets: 40,
        flags: 0,
    }
}

/// The last of the passes that were opened.
pub fn take_pass(_cache: &PebrCache, passes: &mut Vec<PebrPass>) -> Option<PebrPass>
    requires { All (λ pass. IsOf _cache.now pass × IsFresh (shown_of pass)) passes.old.items }
    ensures last { IfSome result (λ pass. IsOf _cache.now pass × IsFresh (shown_of pass)) }
    ensures others { All (λ pass. IsOf _cache.now pass × IsFresh (shown_of pass)) passes.new.items }
{
    passes.pop()
}

/// Meters the packet of this number.
pub fn meter_next(
    cache: &PebrCache,
    pass: &mut PebrPass,
    number: u64,
    flow: u16,
    second: u32,
) -> Metered
    requires own { IsOf cache.now pass.old }
    requires single { (shown_of pass.old).note.seats ≡ 1 }
    requires below { number < 2 ^ 32 }
    requires few { packet_count (shown_of pass.old).note.taken ≤ number }
    ensures own { IsOf cache.now pass.new }
    ensures single { (shown_of pass.new).note.seats ≡ 1 }
    ensures few { packet_count (shown_of pass.new).note.taken ≤ number + 1 }
{
    cache.meter(pass, &packet(number, flow, second))
}

/// A packet's flow and second, what becomes of the packet, and the flow whose fragment is put out, or 0.
type Row = (u16, u32, How, u16);

/// The flow of the fragment that is handed out, or 0.
fn flow_out(metered: &Metered) -> u16 {
    match metered.out {
        Some(part) => part.key.source_port,
        None => 0,
    }
}

/// Meters the packets, and counts those whose answer is that of its row.
fn count_right(cache: &PebrCache, pass: &mut PebrPass, rows: &[Row]) -> u64
    requires own { IsOf cache.now pass.old }
    requires single { (shown_of pass.old).note.seats ≡ 1 }
    requires none { packet_count (shown_of pass.old).note.taken ≡ 0 }
    requires few { length rows.now < 2 ^ 16 }
    ensures own { IsOf cache.now pass.new }
    ensures single { (shown_of pass.new).note.seats ≡ 1 }
{
    let mut right = 0;
    for number in 0..rows.len() {
        let (flow, second, how, out) = rows[number];
        let metered = meter_next(cache, pass, number as u64, flow, second);
        if metered.how == how && flow_out(&metered) == out {
            right += 1;
        }
    }
    right
}

/// How many packets a flow's only fragment has, and 0 where it has none.
fn packets_of(parts: &[Fragment], flow: u16) -> u64 {
    let mut packets = 0;
    for part in parts {
        if part.key.source_port == flow {
            packets = part.packets;
        }
    }
    packets
}

/// Four flows fill the set. The fifth puts the oldest out, and so does the second flow when it comes again; the packet
/// of the first flow joins its entry.
#[test]
fn one_set_and_one_seat(rt: HostRuntime) {
    let rows = [
        (1, 5, How::Opened, 0),
        (2, 1, How::Opened, 0),
        (3, 3, How::Opened, 0),
        (4, 4, How::Opened, 0),
        (5, 9, How::Replaced, 2),
        (2, 10, How::Replaced, 3),
        (1, 11, How::Joined, 0),
    ];
    let alloc = rt.alloc();
    let mut caches = PebrCaches::new();
    let (cache, mut passes) = caches
        .open(alloc, 1, 1, Timeouts::new(300, 1800))
        .expect(&rt, "memory");
    let mut pass = take_pass(&cache, &mut passes).expect(&rt, "a pass");
    assert_eq!(rt; count_right(&cache, &mut pass, &rows), 7);
    assert_eq!(rt; (pass.lost(), pass.retired()), (0, 7));
    let parts = cache.close(alloc, pass).expect(&rt, "memory");
    assert!(rt; parts.len() == 4 && packets_of(&parts, 1) == 2 && packets_of(&parts, 2) == 1);
    assert!(rt; packets_of(&parts, 4) == 1 && packets_of(&parts, 5) == 1);
}
