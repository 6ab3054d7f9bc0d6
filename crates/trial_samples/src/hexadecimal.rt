//! Octets written in hexadecimal.

use hex::decode;
use std::alloc::Global;
use std::test::Fail;

/// The octets that hexadecimal digits in several pieces stand for; spaces are skipped.
///
/// A failure where the rest isn't pairs of hexadecimal digits, or memory runs out.
pub fn octets_of(alloc: Global, pieces: &[&str]) -> Result<Vec<u8>, Fail> {
    let mut digits = Vec::new(alloc);
    for piece in pieces {
        for byte in piece.as_bytes() {
            if *byte != b' ' {
                digits.push(*byte)?;
            }
        }
    }
    decode(alloc, digits.as_slice()).map_err(|_| Fail::from("no hexadecimal digits"))
}
