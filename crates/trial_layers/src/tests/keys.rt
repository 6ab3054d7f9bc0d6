//! Keys of flows: words, sets and order.

use flow_key::FlowKey;
use std::cmp::Ordering;
use trial_samples::{tcp_over_ipv6, udp_key};

#[test]
fn words_and_sets(rt: HostRuntime) {
    let udp_words = [0x411_0FA0_0035, 0, 0xC000_0201, 0, 0xC000_0202];
    let tcp_words = [
        0x606_0401_01BB,
        0x2001_0DB8_0000_0000,
        1,
        0x2001_0DB8_0000_0000,
        2,
    ];
    for (key, words, sets) in [
        (udp_key(4000), udp_words, [0, 1, 1308, 62748]),
        (tcp_over_ipv6(1025, 443), tcp_words, [0, 2, 2193, 59537]),
    ] {
        assert!(rt; key.to_words() == words);
        assert!(rt; FlowKey::of_words(&words) == Some(key));
        assert!(rt; key.set_of(1) == sets[0]);
        assert!(rt; key.set_of(7) == sets[1]);
        assert!(rt; key.set_of(4096) == sets[2]);
        assert!(rt; key.set_of(65536) == sets[3]);
    }
}

#[test]
fn words_of_no_key(rt: HostRuntime) {
    for words in [
        [0, 0, 0, 0, 0],
        [0x511_0FA0_0035, 0, 0xC000_0201, 0, 0xC000_0202],
        [0x411_0FA0_0035, 0, 0x1_0000_0000, 0, 0xC000_0202],
        [0x411_0FA0_0035, 0, 0xC000_0201, 1, 0xC000_0202],
        [0x104_110F_A000_0035, 0, 0xC000_0201, 0, 0xC000_0202],
    ] {
        assert!(rt; FlowKey::of_words(&words).is_none());
    }
}

#[test]
fn order_by_fields(rt: HostRuntime) {
    let key = udp_key(4000);
    let mut later = key;
    later.destination_port = 54;
    assert!(rt; key.order(&tcp_over_ipv6(1025, 443)) == Ordering::Less);
    assert!(rt; key.order(&later) == Ordering::Less);
    assert!(rt; key.order(&key) == Ordering::Equal);
    assert!(rt; key != later);
}
