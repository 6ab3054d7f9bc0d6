//! Tallies of a few answers.

ghost use Rattle.std.specs.Prelude.{◌≡◌};
ghost use Rattle.capture_tally.specs.Tallies.{HasRoom};

use capture_tally::Tally;
use flow_key::FlowKey;
use packet_accept::{Ignored, Packet};
use std::test::Fail;

/// A packet at this time, with this number of octets.
fn packet(time: u64, octets: u32) -> Packet
    ensures { result.time ≡ time }
{
    Packet {
        number: 0,
        key: FlowKey {
            version: 4,
            source: 1,
            destination: 2,
            protocol: 17,
            source_port: 3,
            destination_port: 4,
        },
        time,
        octets,
        flags: 0,
    }
}

#[test]
fn one_more_record_is_counted(rt: HostRuntime) -> Result<(), Fail> {
    let causes: [(Ignored, [u64; 5]); 5] = [
        (Ignored::NotIp, [1, 0, 0, 0, 0]),
        (Ignored::Short, [0, 1, 0, 0, 0]),
        (Ignored::BadHeader, [0, 0, 1, 0, 0]),
        (Ignored::ShortTransport, [0, 0, 0, 1, 0]),
        (Ignored::BadTime, [0, 0, 0, 0, 1]),
    ];
    for (cause, ignored) in causes {
        let mut tally = Tally::new();
        tally.add(&Err(cause));
        assert_eq!(rt; tally.captured, 1);
        assert_eq!(rt; tally.accepted, 0);
        assert_eq!(rt; tally.ignored, ignored);
        assert_eq!(rt; tally.octets, 0);
        assert_eq!(rt; tally.clock, None);
    }
    let mut tally = Tally::new();
    tally.add(&Ok(packet(7, 28)));
    assert_eq!(rt; tally.captured, 1);
    assert_eq!(rt; tally.accepted, 1);
    assert_eq!(rt; tally.ignored, [0; 5]);
    assert_eq!(rt; tally.octets, 28);
    assert_eq!(rt; tally.clock, Some(7));
    Ok(())
}

/// The tally of a packet of 28 octets at the time 60.
fn of_a_packet() -> Tally
    ensures { HasRoom result }
{
    Tally {
        captured: 1,
        accepted: 1,
        ignored: [0; 5],
        octets: 28,
        clock: Some(60),
    }
}

/// The tally of an ignored record of each cause.
fn of_all_causes() -> Tally
    ensures { HasRoom result }
{
    Tally {
        captured: 5,
        accepted: 0,
        ignored: [1; 5],
        octets: 0,
        clock: None,
    }
}

/// The tally of all six records.
fn of_both() -> Tally {
    Tally {
        captured: 6,
        accepted: 1,
        ignored: [1; 5],
        octets: 28,
        clock: Some(60),
    }
}

#[test]
fn two_tallies_are_added_up(rt: HostRuntime) -> Result<(), Fail> {
    let mut added = Tally::new();
    added.add(&Ok(packet(60, 28)));
    let one = of_a_packet();
    assert_eq!(rt; added, one);
    let other = of_all_causes();
    let both = one.sum_with(&other);
    assert_eq!(rt; both, of_both());
    assert_eq!(rt; other.sum_with(&one), both);
    let none = Tally::new();
    assert_eq!(rt; none.sum_with(&one), one);
    Ok(())
}
