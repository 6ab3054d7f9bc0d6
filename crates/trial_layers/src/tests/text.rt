//! Pieces, numbers and octets as text.

use plain_text::{append, append_decimal, append_hexadecimal, append_numbered};
use std::test::Fail;

#[test]
fn numbers_and_octets_are_written(rt: HostRuntime) -> Result<(), Fail> {
    let mut text = Vec::new(rt.alloc());
    append(&mut text, b"at ")?;
    append_decimal(&mut text, 0)?;
    append_numbered(&mut text, b" to ", 18_446_744_073_709_551_615)?;
    append(&mut text, b": ")?;
    append_hexadecimal(&mut text, &[0, 9, 10, 159, 255])?;
    append_hexadecimal(&mut text, &[])?;
    assert_eq!(rt;
        text.as_slice(),
        b"at 0 to 18446744073709551615: 00090a9fff".as_slice()
    );
    Ok(())
}
