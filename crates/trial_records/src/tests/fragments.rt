//! Worked examples of fragments: words, bounds of the time-outs, ends of flows, sums.

ghost use Rattle.std.specs.Prelude.{◌+◌, ◌<◌, ◌^◌};

use flow_key::FlowKey;
use flow_parts::{Fragment, Timeouts};
use packet_accept::Packet;
use trial_samples::udp_key;

/// A packet of 28 octets from this port at this time.
fn packet(source_port: u16, time: u64) -> Packet {
    Packet {
        number: 7,
        key: udp_key(source_port),
        time,
        octets: 28,
        flags: 0x10,
    }
}

/// A fragment of three packets from this port, over `length` milliseconds from `first` on.
fn fragment(source_port: u16, first: u64, length: u32) -> Fragment
    requires { first + length < 2 ^ 64 }
{
    Fragment {
        key: udp_key(source_port),
        packets: 3,
        octets: 100,
        first,
        last: first + length as u64,
        flags: 0x02,
    }
}

/// The first eight words of a fragment of one packet of UDP: its key, and what is counted; behind them the last time
/// and the flags.
macro_rules! words_with {
    ($head:expr, $packets:expr, $first:expr, $flags:expr) => {
        [
            $head,
            0,
            0xC000_0201,
            0,
            0xC000_0202,
            $packets,
            28,
            $first,
            1_000_000,
            $flags,
        ]
    };
}

/// The words of [`packet`] at 1000 s as a fragment.
static WORDS: [u64; 10] = words_with!(0x411_0FA0_0035, 1, 1_000_000, 16);

/// Words that aren't a fragment: without a version, without a packet, with a first time after the last, with a flag
/// above the twelve bits, and of version 5.
static WRONG_WORDS: [[u64; 10]; 5] = [
    [0; 10],
    words_with!(0x411_0FA0_0035, 0, 1_000_000, 16),
    words_with!(0x411_0FA0_0035, 1, 1_000_001, 16),
    words_with!(0x411_0FA0_0035, 1, 1_000_000, 65536),
    words_with!(0x511_0FA0_0035, 1, 1_000_000, 16),
];

#[test]
fn words_of_fragments(rt: HostRuntime) {
    let one = Fragment::of(&packet(4000, 1_000_000));
    assert!(rt; one.to_words() == WORDS);
    assert!(rt; Fragment::of_words(&WORDS) == Some(one));
    for wrong in WRONG_WORDS.iter() {
        assert!(rt; Fragment::of_words(wrong).is_none());
    }
}

#[test]
fn bounds_of_both_time_outs(rt: HostRuntime) {
    let timeouts = Timeouts::new(300, 1800);
    assert!(rt; timeouts.idle() == 300_000 && timeouts.active() == 1_800_000);
    let short = fragment(4000, 1_000_000, 200_000);
    let long = fragment(4000, 1_000_000, 1_600_000);
    for (part, port, time, fits) in [
        (short, 4000, 1_500_000, true),
        (short, 4000, 1_500_001, false),
        (short, 4000, 700_000, true),
        (short, 4000, 699_999, false),
        (short, 4000, 1_100_000, true),
        (short, 4001, 1_100_000, false),
        (long, 4000, 2_800_000, true),
        (long, 4000, 2_800_001, false),
    ] {
        assert!(rt; timeouts.fits(&part, &packet(port, time)) == fits);
        assert!(rt; timeouts.joinable(&part, &Fragment::of(&packet(port, time))) == fits);
        assert!(rt; timeouts.joinable(&Fragment::of(&packet(port, time)), &part) == fits);
    }
}

#[test]
fn sums_and_spans(rt: HostRuntime) {
    let timeouts = Timeouts::new(300, 1800);
    let part = fragment(4000, 1_000_000, 200_000);
    let late = packet(4000, 1_300_000);
    assert!(rt; part.packets == 3 && part.octets == 100 && late.octets == 28);
    assert!(rt; timeouts.fits(&part, &late));
    let more = timeouts.absorb(part, &late);
    assert!(rt; more.packets == 4 && more.octets == 128 && more.flags == 0x12);
    assert!(rt; more.first == 1_000_000 && more.last == 1_300_000 && more.key == udp_key(4000));
    assert!(rt; timeouts.joinable(&more, &part));
    let both = timeouts.join(more, part);
    assert!(rt; both.packets == 7 && both.octets == 228 && both.flags == 0x12);
    assert!(rt; both.first == 1_000_000 && both.last == 1_300_000 && both.key == udp_key(4000));
}

/// TCP or UDP from 192.0.2.1:40000 to 192.0.2.2:80, by the protocol number.
fn web(protocol: u8) -> FlowKey {
    FlowKey {
        version: 4,
        source: 0xC000_0201,
        destination: 0xC000_0202,
        protocol,
        source_port: 40000,
        destination_port: 80,
    }
}

/// A fragment of two packets from 1 s to 2 s.
fn two_packets(protocol: u8, flags: u16) -> Fragment {
    Fragment {
        key: web(protocol),
        packets: 2,
        octets: 80,
        first: 1000,
        last: 2000,
        flags,
    }
}

#[test]
fn ends_of_flows(rt: HostRuntime) {
    let timeouts = Timeouts::new(300, 1800);
    // Protocol and flags of a fragment from 1 s to 2 s, whether it is closed, time and flags of a packet, and whether
    // that fits.
    for (protocol, flags, closed, time, more, fits) in [
        // A closed fragment takes no later packet, by FIN or by RST.
        (6, 0x011, true, 2001, 0x010, false),
        (6, 0x011, true, 2000, 0x010, true),
        (6, 0x011, true, 999, 0x010, true),
        (6, 0x014, true, 3000, 0x010, false),
        // Nor does a packet that ends the flow go before the last time that is known.
        (6, 0x012, false, 1999, 0x011, false),
        (6, 0x012, false, 1999, 0x004, false),
        (6, 0x012, false, 2000, 0x011, true),
        (6, 0x012, false, 3000, 0x011, true),
        (6, 0x012, false, 3000, 0x010, true),
        // Two ends at one time are one end.
        (6, 0x011, true, 2000, 0x011, true),
        (6, 0x011, true, 2001, 0x011, false),
        // The same flags of UDP end nothing.
        (17, 0x015, false, 3000, 0x010, true),
        (17, 0x010, false, 1500, 0x015, true),
    ] {
        let part = two_packets(protocol, flags);
        let packet = Packet {
            number: 3,
            key: web(protocol),
            time,
            octets: 40,
            flags: more,
        };
        assert!(rt; part.closed() == closed);
        assert!(rt; packet.ends() == Fragment::of(&packet).closed());
        assert!(rt; timeouts.fits(&part, &packet) == fits);
        assert!(rt; timeouts.joinable(&part, &Fragment::of(&packet)) == fits);
        assert!(rt; timeouts.joinable(&Fragment::of(&packet), &part) == fits);
    }
}
