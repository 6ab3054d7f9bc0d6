//! A flow that is held while another pass puts it out.

ghost use Rattle.std.specs.Prelude.{◌≡◌, ◌+◌, ◌<◌, ◌≤◌, ◌^◌, All, IfSome};
ghost use Rattle.cache_face.specs.Keeping.{packet_count};
ghost use Rattle.cache_face.specs.Meaning.{IsFresh};
ghost use Rattle.flow_cache.specs.Shown.{shown_of, IsOf};

use cache_face::FlowCache;
use cache_watch::{Watch, Watcher};
use flow_cache::{PebrCache, PebrPass};
use flow_parts::{Fragment, Timeouts};
use packet_accept::Packet;
use trial_samples::udp_key;

/// A packet of 28 octets of a flow, at this second.
fn packet(number: u64, flow: u16, second: u32) -> Packet
    ensures { (result.number ≡ number) × (result.octets ≡ 28) }
{
    Packet {
        number,
        key: udp_key(flow),
        time: 1000 * second as u64,
        octets: 28,
        flags: 0,
    }
}

/// One of the passes that were opened.
fn take(_cache: &PebrCache, passes: &mut Vec<PebrPass>) -> Option<PebrPass>
    requires { All (λ pass. IsOf _cache.now pass × IsFresh (shown_of pass)) passes.old.items }
    ensures last { IfSome result (λ pass. IsOf _cache.now pass × IsFresh (shown_of pass)) }
    ensures others { All (λ pass. IsOf _cache.now pass × IsFresh (shown_of pass)) passes.new.items }
{
    passes.pop()
}

/// Meters the packet of this number.
fn meter_next(cache: &PebrCache, pass: &mut PebrPass, number: u64, flow: u16, second: u32)
    requires own { IsOf cache.now pass.old }
    requires single { (shown_of pass.old).note.seats ≡ 1 }
    requires below { number < 2 ^ 32 }
    requires few { packet_count (shown_of pass.old).note.taken ≤ number }
    ensures own { IsOf cache.now pass.new }
    ensures single { (shown_of pass.new).note.seats ≡ 1 }
    ensures few { packet_count (shown_of pass.new).note.taken ≤ number + 1 }
{
    cache.meter(pass, &packet(number, flow, second));
}

/// Meters 200 packets of 200 other flows at 2 s, and gives the most slots that were retired after one of them.
fn meter_crowd(cache: &PebrCache, pass: &mut PebrPass) -> usize
    requires own { IsOf cache.now pass.old }
    requires single { (shown_of pass.old).note.seats ≡ 1 }
    requires few { packet_count (shown_of pass.old).note.taken ≤ 1 }
    ensures own { IsOf cache.now pass.new }
    ensures single { (shown_of pass.new).note.seats ≡ 1 }
{
    let mut most = 0;
    for number in 1..201 {
        meter_next(cache, pass, number, 1000 + number as u16, 2);
        most = most.max(pass.retired());
    }
    most
}

/// What came of holding a flow: the answers before and after the crowd, the most slots that the crowd had retired, and
/// the flow as it was read after the crowd.
#[derive(Drop)]
struct Came {
    before: Watch,
    behind: Watch,
    most: usize,
    read: Option<Fragment>,
}

/// Meters a packet of flow 1 at 1 s, holds the flow, lets the crowd put it out, reads it, and asks for it again.
fn watch_flow(cache: &PebrCache, mut pass: PebrPass, other: PebrPass) -> Came
    requires first { IsOf cache.now pass × IsFresh (shown_of pass) }
    requires second { IsOf cache.now other × IsFresh (shown_of other) }
{
    meter_next(cache, &mut pass, 0, 1, 1);
    let mut watcher = Watcher::open(other);
    let before = watcher.hold(cache, &udp_key(1));
    let most = meter_crowd(cache, &mut pass);
    if before != Watch::Held {
        return Came {
            before,
            behind: before,
            most,
            read: None,
        };
    }
    let read = watcher.read(cache);
    watcher.release(cache);
    let behind = watcher.hold(cache, &udp_key(1));
    Came {
        before,
        behind,
        most,
        read: Some(read),
    }
}

/// The flow is read as it was when it was held, and asked for again it is absent. The other pass collects past the
/// watcher, which has no pin, so that pass never has more than 32 slots retired.
#[test]
fn held_while_it_is_put_out(rt: HostRuntime) {
    let (cache, mut passes) = PebrCache::open(rt.alloc(), 1, 2, Timeouts::new(300, 1800)).expect(
        &rt, "memory",
    );
    let first = take(&cache, &mut passes).expect(&rt, "a pass");
    let second = take(&cache, &mut passes).expect(&rt, "a pass");
    let came = watch_flow(&cache, first, second);
    assert!(rt; came.before == Watch::Held && came.behind == Watch::Absent);
    assert_eq!(rt; came.most, 32);
    let read = came.read.expect(&rt, "the flow that is held");
    assert!(rt; read.key == udp_key(1) && read.packets == 1 && read.octets == 28);
    assert!(rt; read.first == 1000 && read.last == 1000);
}

/// With one seat, the watcher's pass meters again once the watcher is closed.
#[test]
fn one_seat_watches_and_meters(rt: HostRuntime) {
    let (cache, mut passes) = PebrCache::open(rt.alloc(), 1, 1, Timeouts::new(300, 1800)).expect(
        &rt, "memory",
    );
    let pass = take(&cache, &mut passes).expect(&rt, "a pass");
    let mut watcher = Watcher::open(pass);
    assert!(rt; watcher.hold(&cache, &udp_key(1)) == Watch::Absent);
    if watcher.hold(&cache, &udp_key(2)) == Watch::Absent {
        let mut pass = watcher.close();
        cache.meter(&mut pass, &packet(0, 2, 1));
        assert_eq!(rt; (pass.retired(), pass.lost()), (1, 0));
    }
}
