//! Worked examples of gathering, as tables.

ghost use Rattle.std.specs.Prelude.{◌+◌, ◌<◌, ◌≤◌, ◌^◌, IsTrue, sum_by};
ghost use Rattle.flow_parts.specs.declared.fragment.Fragment.{Fragment};
ghost use Rattle.flow_parts.specs.Joining.{TakesIn};

use flow_key::FlowKey;
use flow_parts::{Fragment, Timeouts};
use packet_accept::Packet;
use record_ledger::gather;
use std::alloc::Global;
use std::process::Abort;
use std::test::Fail;
use std::thread::Threads;
use trial_flows::{are_few, in_pieces};
use trial_samples::udp_key;

/// The fragment of one packet of 28 octets from this port at this time.
fn one_packet(source_port: u16, time: u64) -> Fragment {
    Fragment::of(&Packet {
        number: 0,
        key: udp_key(source_port),
        time,
        octets: 28,
        flags: 0,
    })
}

/// What a record must have: port, packets, first time, last time and end reason.
type Wanted = (u16, u64, u64, u64, u8);

/// Gathers packets of these ports and times on one thread and on four, and compares each record.
fn expect(
    rt: &(impl Abort + Threads + Sync),
    alloc: Global,
    packets: &[(u16, u64)],
    records: &[Wanted],
) -> Result<(), Fail> {
    let mut parts = Vec::new(alloc);
    for (port, time) in packets {
        parts.push(one_packet(*port, *time))?;
    }
    let clock = packets.iter().map(|packet| packet.1).max();
    assert!(rt; are_few(&parts));
    expect_on(rt, alloc, &parts, clock, records, 1)?;
    expect_on(rt, alloc, &parts, clock, records, 4)
}

/// Gathers fragments on this number of threads, and compares each record.
fn expect_on(
    rt: &(impl Abort + Threads + Sync),
    alloc: Global,
    parts: &[Fragment],
    clock: Option<u64>,
    records: &[Wanted],
    threads: usize,
) -> Result<(), Fail>
    requires threads { 0 < threads }
    requires packets { sum_by (λ (f : Fragment). f.packets) parts.now < 2 ^ 64 }
    requires octets { sum_by (λ (f : Fragment). f.octets) parts.now < 2 ^ 64 }
{
    let list = in_pieces(alloc, parts)?;
    let gathered = gather(rt, alloc, list, Timeouts::new(300, 1800), clock, threads)?;
    assert!(rt; gathered.len() == records.len());
    for (place, wanted) in records.iter().enumerate() {
        assert!(rt; place < gathered.len());
        let found = gathered.get(place);
        assert!(rt; found.part.key.source_port == wanted.0);
        assert!(rt; found.part.packets == wanted.1);
        assert!(rt; found.part.first == wanted.2 && found.part.last == wanted.3);
        assert!(rt; found.reason == wanted.4);
    }
    Ok(())
}

#[test]
fn gaps_and_spans(rt: HostRuntime) -> Result<(), Fail> {
    // Two packets a second apart, in either order.
    let pair = [(4000, 2, 1_000_000, 1_001_000, 4)];
    expect(
        &rt,
        rt.alloc(),
        &[(4000, 1_000_000), (4000, 1_001_000)],
        &pair,
    )?;
    expect(
        &rt,
        rt.alloc(),
        &[(4000, 1_001_000), (4000, 1_000_000)],
        &pair,
    )?;
    // A gap of exactly the idle time-out, and one of a millisecond more.
    let joined = [(4000, 2, 1_000_000, 1_300_000, 4)];
    expect(
        &rt,
        rt.alloc(),
        &[(4000, 1_000_000), (4000, 1_300_000)],
        &joined,
    )?;
    let apart = [
        (4000, 1, 1_000_000, 1_000_000, 1),
        (4000, 1, 1_300_001, 1_300_001, 4),
    ];
    expect(
        &rt,
        rt.alloc(),
        &[(4000, 1_000_000), (4000, 1_300_001)],
        &apart,
    )?;
    // Two ports: the first is idle for a millisecond too long when the capture ends.
    let ports = [
        (4000, 1, 1_000_000, 1_000_000, 1),
        (4001, 1, 1_301_000, 1_301_000, 4),
    ];
    expect(
        &rt,
        rt.alloc(),
        &[(4000, 1_000_000), (4001, 1_301_000)],
        &ports,
    )?;
    // Two ports with the same last time are ordered by key.
    let tied = [
        (4000, 1, 1_000_000, 1_000_000, 4),
        (4001, 1, 1_000_000, 1_000_000, 4),
    ];
    expect(
        &rt,
        rt.alloc(),
        &[(4001, 1_000_000), (4000, 1_000_000)],
        &tied,
    )?;
    // No packet.
    expect(&rt, rt.alloc(), &[], &[])
}

/// 10,000 ports, two packets each: enough fragments for several threads, all in buckets, and one record a port, in their
/// order.
#[test]
fn many_keys(rt: HostRuntime) -> Result<(), Fail> {
    let alloc = rt.alloc();
    let mut parts = Vec::new(alloc);
    for time in [1_000_000, 1_001_000] {
        for port in 0..10_000u16 {
            parts.push(one_packet(9999 - port, time))?;
        }
    }
    assert!(rt; are_few(&parts));
    for threads in [1, 4] {
        assert!(rt; threads > 0);
        let list = in_pieces(alloc, &parts)?;
        let gathered = gather(
            &rt,
            alloc,
            list,
            Timeouts::new(300, 1800),
            Some(1_001_000),
            threads,
        )?;
        assert!(rt; gathered.len() == 10_000);
        for place in 0..gathered.len() {
            let found = gathered.get(place);
            assert!(rt; found.part.key.source_port as usize == place && found.part.packets == 2);
        }
    }
    Ok(())
}

#[test]
fn active_time_out(rt: HostRuntime) -> Result<(), Fail> {
    // A packet every 200 seconds, ten of them over exactly the active time-out.
    let mut packets = [
        (4000, 1_000_000),
        (4000, 1_200_000),
        (4000, 1_400_000),
        (4000, 1_600_000),
        (4000, 1_800_000),
        (4000, 2_000_000),
        (4000, 2_200_000),
        (4000, 2_400_000),
        (4000, 2_600_000),
        (4000, 2_800_000),
    ];
    expect(
        &rt,
        rt.alloc(),
        &packets,
        &[(4000, 10, 1_000_000, 2_800_000, 4)],
    )?;
    // The last one a millisecond later.
    packets[9] = (4000, 2_800_001);
    let cut = [
        (4000, 9, 1_000_000, 2_600_000, 2),
        (4000, 1, 2_800_001, 2_800_001, 4),
    ];
    expect(&rt, rt.alloc(), &packets, &cut)
}

#[test]
fn joins_again_below(rt: HostRuntime) -> Result<(), Fail> {
    // The last fragment spans both others, which alone are too far apart.
    let timeouts = Timeouts::new(300, 1800);
    let parts = [
        wide_fragment(4000, 0, 100),
        wide_fragment(4000, 300_101, 400_000),
        wide_fragment(4000, 50, 500_000),
    ];
    assert!(rt; !timeouts.joinable(&parts[0], &parts[1]));
    assert!(rt; are_few(&parts));
    let list = in_pieces(rt.alloc(), &parts)?;
    let gathered = gather(&rt, rt.alloc(), list, timeouts, Some(800_001), 4)?;
    assert!(rt; gathered.len() == 1);
    let found = gathered.get(0);
    assert!(rt;
        found.part
            == Fragment {
                key: udp_key(4000),
                packets: 6,
                octets: 300,
                first: 0,
                last: 500_000,
                flags: 2
            }
    );
    assert!(rt; found.reason == 1);
    Ok(())
}

/// Two fragments that end at the same time, each longer than the active time-out, aren't joined. They are ordered by
/// their first times, in whatever order they come.
#[test]
fn ties_stand_by_first_time(rt: HostRuntime) -> Result<(), Fail> {
    let one = wide_fragment(4000, 0, 2_000_000);
    let other = wide_fragment(4000, 100_000, 2_000_000);
    let wanted = [(4000, 2, 0, 2_000_000, 2), (4000, 2, 100_000, 2_000_000, 4)];
    let parts = [one, other];
    assert!(rt; are_few(&parts));
    expect_on(&rt, rt.alloc(), &parts, Some(2_000_000), &wanted, 1)?;
    let turned = [other, one];
    assert!(rt; are_few(&turned));
    expect_on(&rt, rt.alloc(), &turned, Some(2_000_000), &wanted, 1)
}

#[test]
fn web_exchange(rt: HostRuntime) -> Result<(), Fail> {
    let start = 1_700_000_000_000;
    let parts = [
        sent_fragment(query(), start + 10, 60, 0),
        sent_fragment(reply(), start + 25, 76, 0),
        sent_fragment(request(), start + 30, 60, 0x002),
        sent_fragment(response(), start + 50, 60, 0x012),
        sent_fragment(request(), start + 51, 52, 0x010),
        sent_fragment(request(), start + 52, 152, 0x018),
        sent_fragment(response(), start + 72, 52, 0x010),
        sent_fragment(response(), start + 80, 1500, 0x018),
        sent_fragment(request(), start + 90, 40, 0x004),
    ];
    assert!(rt; are_few(&parts));
    let list = in_pieces(rt.alloc(), &parts)?;
    let records = gather(
        &rt,
        rt.alloc(),
        list,
        Timeouts::new(300, 1800),
        Some(start + 90),
        4,
    )?;
    assert!(rt; records.len() == 4);
    let wanted = [
        (query(), 1, 60, 0, start + 10, start + 10, 4),
        (reply(), 1, 76, 0, start + 25, start + 25, 4),
        (response(), 3, 1612, 0x01A, start + 50, start + 80, 4),
        (request(), 4, 304, 0x01E, start + 30, start + 90, 3),
    ];
    for (place, (key, packets, octets, flags, first, last, reason)) in wanted
        .into_iter()
        .enumerate()
    {
        assert!(rt; place < records.len());
        let found = records.get(place);
        assert!(rt;
            found.part.key == key && found.part.packets == packets && found.part.octets == octets
        );
        assert!(rt; found.part.flags == flags && found.reason == reason);
        assert!(rt; found.part.first == first && found.part.last == last);
    }
    Ok(())
}

/// Takes packets of these times and flags of one key in file order, each into the latest fragment where it fits,
/// gathers them, and compares packets, first, last and reason of each record.
fn check_ends(
    rt: &(impl Abort + Threads + Sync),
    alloc: Global,
    key: FlowKey,
    packets: &[(u64, u16)],
    records: &[(u64, u64, u64, u8)],
) -> Result<(), Fail> {
    let timeouts = Timeouts::new(300, 1800);
    let mut parts = Vec::new(alloc);
    for (time, flags) in packets {
        let packet = Packet {
            number: 0,
            key,
            time: *time,
            octets: 40,
            flags: *flags,
        };
        match parts.pop() {
            Some(part) => {
                if takes_in(&timeouts, &part, &packet) {
                    parts.push(timeouts.absorb(part, &packet))?;
                } else {
                    parts.push(part)?;
                    parts.push(Fragment::of(&packet))?;
                }
            }
            None => parts.push(Fragment::of(&packet))?,
        }
    }
    let clock = packets.iter().map(|packet| packet.0).max();
    assert!(rt; are_few(&parts));
    let list = in_pieces(alloc, &parts)?;
    let gathered = gather(rt, alloc, list, timeouts, clock, 4)?;
    assert!(rt; gathered.len() == records.len());
    for (place, wanted) in records.iter().enumerate() {
        assert!(rt; place < gathered.len());
        let found = gathered.get(place);
        assert!(rt; found.part.packets == wanted.0);
        assert!(rt; found.part.first == wanted.1 && found.part.last == wanted.2);
        assert!(rt; found.reason == wanted.3);
    }
    Ok(())
}

/// Whether the packet fits and the fragment has room for it.
fn takes_in(timeouts: &Timeouts, part: &Fragment, packet: &Packet) -> bool
    ensures fits { IsTrue result → TakesIn timeouts.now part.now packet.now }
    ensures packets { IsTrue result → part.now.packets + 1 < 2 ^ 64 }
    ensures octets { IsTrue result → part.now.octets + packet.now.octets < 2 ^ 64 }
{
    has_room(part, packet) && timeouts.fits(part, packet)
}

/// Whether both are so small that a sum of theirs fits.
fn has_room(part: &Fragment, packet: &Packet) -> bool
    ensures packets { IsTrue result → part.now.packets + 1 < 2 ^ 64 }
    ensures octets { IsTrue result → part.now.octets + packet.now.octets < 2 ^ 64 }
{
    part.packets < 1000 && part.octets < 1_000_000 && packet.octets < 100
}

#[test]
fn end_of_flow(rt: HostRuntime) -> Result<(), Fail> {
    // FIN ends the flow: the packet after it begins a record of its own.
    let cut = [(2, 1000, 2000, 3), (1, 3000, 3000, 4)];
    let late = [(1000, 0x002), (2000, 0x011), (3000, 0x010)];
    check_ends(&rt, rt.alloc(), request(), &late, &cut)?;
    // So does RST.
    let reset = [(1000, 0x002), (2000, 0x014), (3000, 0x010)];
    check_ends(&rt, rt.alloc(), request(), &reset, &cut)?;
    // An earlier packet that comes after it in the file is taken in.
    let early = [(2000, 0x011), (1000, 0x010)];
    check_ends(&rt, rt.alloc(), request(), &early, &[(2, 1000, 2000, 3)])?;
    // A packet that ends the flow before the last time that is known stands alone.
    let between = [(1000, 0x010), (3000, 0x010), (2000, 0x011)];
    check_ends(
        &rt,
        rt.alloc(),
        request(),
        &between,
        &[(1, 2000, 2000, 3), (2, 1000, 3000, 4)],
    )?;
    // The same flags of UDP end nothing.
    check_ends(&rt, rt.alloc(), query(), &late, &[(3, 1000, 3000, 4)])
}

/// A fragment of two packets of 50 octets each over this span.
fn wide_fragment(source_port: u16, first: u64, last: u64) -> Fragment
    requires { first ≤ last }
{
    Fragment {
        key: udp_key(source_port),
        packets: 2,
        octets: 100,
        first,
        last,
        flags: 2,
    }
}

/// The fragment of one packet with these values.
fn sent_fragment(key: FlowKey, time: u64, octets: u32, flags: u16) -> Fragment {
    Fragment::of(&Packet {
        number: 0,
        key,
        time,
        octets,
        flags,
    })
}

/// From 10.0.0.5:50000 to the name server 10.0.0.1:53.
fn query() -> FlowKey {
    between(0x0A00_0005, 0x0A00_0001, 17, 50000, 53)
}

/// From the name server back.
fn reply() -> FlowKey {
    between(0x0A00_0001, 0x0A00_0005, 17, 53, 50000)
}

/// From 10.0.0.5:40000 to the web server 198.51.100.7:80.
fn request() -> FlowKey {
    between(0x0A00_0005, 0xC633_6407, 6, 40000, 80)
}

/// From the web server back.
fn response() -> FlowKey {
    between(0xC633_6407, 0x0A00_0005, 6, 80, 40000)
}

/// A key over IPv4.
fn between(
    source: u32,
    destination: u32,
    protocol: u8,
    source_port: u16,
    destination_port: u16,
) -> FlowKey {
    FlowKey {
        version: 4,
        source: source as u128,
        destination: destination as u128,
        protocol,
        source_port,
        destination_port,
    }
}
