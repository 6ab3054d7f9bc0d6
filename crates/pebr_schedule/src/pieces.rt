//! Pieces of a text, and numbers.

ghost use Rattle.std.specs.Prelude.{◌≡◌, ℕ, ◌+◌, ◌-◌, ◌*◌, ◌^◌, ◌<◌, ◌≤◌, ◌∷◌, ◌++◌, [], OnOk, IfOk, IfSome};
ghost use Rattle.std.specs.Prelude.{MatchOption, option_copied, option_map, length};
ghost use Rattle.pebr_schedule.specs.Numbers.{is_digit, is_numeral, number_of, numbers_of, pieces_of};
ghost use Rattle.pebr_schedule.specs.Rest.{pieces_after};

use pebr_core::NoMemory;
use std::alloc::Global;

/// Cuts a text at the first place of a byte: what stands before it, and what after it; `None` for the
/// latter where the byte doesn't occur.
pub fn cut(text: &[u8], at: u8) -> (&[u8], Option<&[u8]>)
    ensures pieces { pieces_of at text.now ≡ result.0.now ∷ pieces_after at (option_copied result.1) }
    ensures shorter { IfSome result.1 (λ rest. length rest.now < length text.now) }
{
    for (place, byte) in text.iter().enumerate() {
        if *byte == at {
            return (&text[..place], Some(&text[place + 1..]));
        }
    }
    (text, None)
}

/// Whether an octet is a decimal digit.
fn is_digit(byte: u8) -> bool
    ensures { result ≡ is_digit byte }
{
    b'0' <= byte && byte <= b'9'
}

/// Whether a piece is decimal digits alone, at least one, without a leading zero.
fn is_numeral(piece: &[u8]) -> bool
    ensures { result ≡ is_numeral piece.now }
{
    for byte in piece {
        if !is_digit(*byte) {
            return false;
        }
    }
    !piece.is_empty() && (piece.len() == 1 || piece[0] != b'0')
}

/// The number that a piece stands for: decimal digits without a leading zero, below 2^64. Else none.
pub fn number(piece: &[u8]) -> Option<u64>
    ensures { result ≡ number_of piece.now }
{
    if !is_numeral(piece) {
        return None;
    }
    let mut number = 0u64;
    for byte in piece {
        match number_with_digit(number, *byte) {
            Some(more) => number = more,
            None => return None,
        }
    }
    Some(number)
}

/// A number with one more decimal digit behind it, where the result fits 64 bits.
fn number_with_digit(number: u64, digit: u8) -> Option<u64>
    requires { 48 ≤ digit }
    ensures { MatchOption result (2 ^ 64 ≤ number * 10 + (digit - 48)) (λ more. more ≡ number * 10 + (digit - 48)) }
{
    let tens = number.checked_mul(10)?;
    tens.checked_add(u64::from(digit - b'0'))
}

/// The numbers that the pieces of a text stand for, with one space between them; none where one of the
/// pieces isn't a number.
pub fn numbers(alloc: Global, text: Option<&[u8]>) -> Result<Option<Vec<u64>>, NoMemory>
    ensures { IfOk result (λ found. option_map (λ numbers. numbers.items) found
        ≡ numbers_of (pieces_after 32 (option_copied text.entry))) }
{
    let mut numbers = Vec::new(alloc);
    let mut rest = text;
    while let Some(left) = rest {
        let (piece, after) = cut(left, b' ');
        let Some(value) = number(piece) else {
            return Ok(None);
        };
        push(&mut numbers, value)?;
        rest = after;
    }
    Ok(Some(numbers))
}

/// Appends a number to the others.
fn push(numbers: &mut Vec<u64>, value: u64) -> Result<(), NoMemory>
    ensures { OnOk result (numbers.new.items ≡ numbers.old.items ++ value ∷ []) }
{
    numbers.push(value)?;
    Ok(())
}
