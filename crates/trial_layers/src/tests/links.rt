//! The numbers of link types in the registry.

use link_types::LinkType;

#[test]
fn three_numbers_are_known(rt: HostRuntime) {
    for (number, link) in [
        (0, None),
        (1, Some(LinkType::Ethernet)),
        (2, None),
        (12, None),
        (101, Some(LinkType::RawIp)),
        (113, Some(LinkType::LinuxCooked)),
        (276, None),
        (65_537, None),
        (4_294_967_295, None),
    ] {
        assert_eq!(rt; LinkType::of(number), link);
        if let Some(known) = link {
            assert_eq!(rt; known.number(), number);
        }
    }
}
