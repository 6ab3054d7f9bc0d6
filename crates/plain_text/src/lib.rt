//! Text in memory: pieces, numbers in decimal and octets in hexadecimal, each appended to what is there.
//!
//! Numbers are written by `itoa` and octets by `hex`, from arrays of fixed size. Each contract says which bytes the
//! text gained. A call answers `NoMemory` where the text can't grow; no clause says what the text is then.
#![tactic(auto)]

ghost use Rattle.std.specs.Prelude.{◌≡◌, ◌++◌, ◌∷◌, [], decimal, OnOk};
ghost use Rattle.hex.specs.Hex.{encode_lower};

use hex::encode_to_slice;
use itoa::Buffer;
use no_memory::NoMemory;

/// Appends a piece of text.
#[inline]
pub fn append(text: &mut Vec<u8>, piece: &[u8]) -> Result<(), NoMemory>
    ensures { OnOk result (text.new.items ≡ text.old.items ++ piece.now) }
{
    text.extend_from_slice(piece)?;
    Ok(())
}

/// Appends a number in decimal, without leading zeros.
pub fn append_decimal(text: &mut Vec<u8>, number: u64) -> Result<(), NoMemory>
    ensures { OnOk result (text.new.items ≡ text.old.items ++ decimal number) }
{
    let mut digits = Buffer::new();
    append(text, digits.format(number).as_bytes())
}

/// Appends a piece and then a number in decimal.
pub fn append_numbered(text: &mut Vec<u8>, piece: &[u8], number: u64) -> Result<(), NoMemory>
    ensures { OnOk result (text.new.items ≡ text.old.items ++ (piece.now ++ decimal number)) }
{
    append(text, piece)?;
    append_decimal(text, number)
}

/// Appends one octet in hexadecimal: two digits, in lower case.
fn append_octet(text: &mut Vec<u8>, octet: u8) -> Result<(), NoMemory>
    ensures { OnOk result (text.new.items ≡ text.old.items ++ encode_lower (octet ∷ [])) }
{
    let mut digits = [0u8; 2];
    match encode_to_slice([octet], &mut digits) {
        Ok(()) => append(text, &digits),
        Err(_) => unreachable!(),
    }
}

/// Appends octets in hexadecimal, two digits each, in lower case.
pub fn append_hexadecimal(text: &mut Vec<u8>, octets: &[u8]) -> Result<(), NoMemory>
    ensures { OnOk result (text.new.items ≡ text.old.items ++ encode_lower octets.now) }
{
    for octet in octets {
        append_octet(text, *octet)?;
    }
    Ok(())
}
