//! Numbers read and appended, in both byte orders.

use octets::{
    Endianness, append_u8, append_u16, append_u32, append_u64, append_u128, u16_at, u32_at,
    u128_at, uint_at,
};

/// The octets from 1 to 20.
static OCTETS: [u8; 20] = [
    1, 2, 3, 4, 5, 6, 7, 8, 9, 10, 11, 12, 13, 14, 15, 16, 17, 18, 19, 20,
];

#[test]
fn numbers_at_a_place(rt: HostRuntime) {
    let octets = OCTETS.as_slice();
    assert!(rt; u16_at(octets, 0) == 0x0102 && u16_at(octets, 18) == 0x1314);
    assert!(rt; u32_at(octets, 16) == 0x1112_1314);
    assert!(rt; u128_at(octets, 4) == 0x0506_0708_090a_0b0c_0d0e_0f10_1112_1314);
    assert!(rt; uint_at(octets, 9, 3) == 0x0a0b0c && uint_at(octets, 19, 1) == 0x14);
    for (order, two, four, eight) in [
        (
            Endianness::Little,
            0x0403,
            0x0605_0403,
            0x0a09_0807_0605_0403,
        ),
        (Endianness::Big, 0x0304, 0x0304_0506, 0x0304_0506_0708_090a),
    ] {
        assert!(rt; order.u16_at(octets, 2) == two && order.u32_at(octets, 2) == four);
        assert!(rt; order.u64_at(octets, 2) == eight);
    }
}

#[test]
fn numbers_at_the_end(rt: HostRuntime) -> Result<(), std::test::Fail> {
    let mut network = Vec::with_capacity(rt.alloc(), 31)?;
    append_u8(&mut network, 0x01);
    append_u16(&mut network, 0x0203);
    append_u32(&mut network, 0x0405_0607);
    append_u64(&mut network, 0x0809_0a0b_0c0d_0e0f);
    append_u128(&mut network, 0x0010_0000_0000_0000_0000_0000_0000_0011);
    assert_eq!(rt;
        network.as_slice(),
        [
            1, 2, 3, 4, 5, 6, 7, 8, 9, 10, 11, 12, 13, 14, 15, 0, 16, 0, 0, 0, 0, 0, 0, 0, 0, 0, 0,
            0, 0, 0, 17
        ]
        .as_slice()
    );
    let mut both = Vec::with_capacity(rt.alloc(), 12)?;
    Endianness::Little.append_u16(&mut both, 0x0102);
    Endianness::Big.append_u16(&mut both, 0x0102);
    Endianness::Little.append_u32(&mut both, 0x0304_0506);
    Endianness::Big.append_u32(&mut both, 0x0304_0506);
    assert_eq!(rt;
        both.as_slice(),
        [2, 1, 1, 2, 6, 5, 4, 3, 3, 4, 5, 6].as_slice()
    );
    Ok(())
}
