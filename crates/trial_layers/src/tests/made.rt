//! Captures that are made from a seed.

use capture_maker::capture;
use std::test::Fail;

/// The capture of one packet of one key that is made from seed 1.
static ONE: [u8; 68] = [
    0xd4, 0xc3, 0xb2, 0xa1, 2, 0, 4, 0, 0, 0, 0, 0, 0, 0, 0, 0, 0xff, 0xff, 0, 0, 0x65, 0, 0, 0,
    0xe8, 3, 0, 0, 0, 0, 0, 0, 0x1c, 0, 0, 0, 0x22, 3, 0, 0, 0x45, 0, 3, 0x22, 0, 0, 0, 0, 0x40,
    0x11, 0, 0, 10, 0, 0, 0, 192, 0, 2, 1, 4, 0, 0, 53, 3, 14, 0, 0,
];

#[test]
fn one_packet(rt: HostRuntime) -> Result<(), Fail> {
    let bytes = capture(rt.alloc(), 1, 1, 1)?;
    assert_eq!(rt; bytes.as_slice(), ONE.as_slice());
    Ok(())
}

#[test]
fn no_packet(rt: HostRuntime) -> Result<(), Fail> {
    let bytes = capture(rt.alloc(), 1, 0, 64)?;
    assert_eq!(rt; bytes.as_slice(), &ONE[..24]);
    Ok(())
}

#[test]
fn many_packets(rt: HostRuntime) -> Result<(), Fail> {
    let bytes = capture(rt.alloc(), 1, 20_000, 64)?;
    assert_eq!(rt; bytes.len(), 880_024);
    let most = capture(rt.alloc(), 18_446_744_073_709_551_615, 1000, 4096)?;
    assert_eq!(rt; most.len(), 44_024);
    Ok(())
}
