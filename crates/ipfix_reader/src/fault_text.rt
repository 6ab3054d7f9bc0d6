//! The text of a fault of a stream.

ghost use Rattle.std.specs.Prelude.{◌≡◌, ◌+◌, ◌≤◌, ◌++◌, length, decimal};
ghost use Rattle.arrayvec.specs.ArrayString.{array_string_len};

use crate::fault::StreamFault;
use arrayvec::ArrayString;
use itoa::Buffer;

/// The room of a text.
const ROOM: usize = 64;

/// What is said of a fault, in an array of fixed size, so that no memory is taken.
pub type FaultText = ArrayString<ROOM>;

/// Appends words and the number behind them.
fn append_numbered(text: &mut FaultText, words: &str, number: u64)
    requires { array_string_len text.old + (length words.now + 20) ≤ 64 }
    ensures bytes { text.new.bytes ≡ text.old.bytes ++ (words.now ++ decimal number) }
    ensures room { array_string_len text.new ≤ array_string_len text.old + (length words.now + 20) }
{
    text.push_str(words);
    let mut digits = Buffer::new();
    text.push_str(digits.format(number));
}

impl StreamFault {
    ghost use Rattle.ipfix_reader.specs.FaultTexts.{stream_fault_text};

    /// What is said of the fault: its kind and its offset, as `cut at 16`; at most 60 octets.
    pub fn text(&self) -> FaultText
        ensures bytes { result.bytes ≡ stream_fault_text self.now }
        ensures short { array_string_len result ≤ 60 }
    {
        let mut text = FaultText::new();
        match self {
            StreamFault::Cut { at } => append_numbered(&mut text, "cut at ", *at),
            StreamFault::BadVersion { at } => append_numbered(&mut text, "version at ", *at),
            StreamFault::BadLength { at } => append_numbered(&mut text, "length at ", *at),
            StreamFault::NoTemplate { at, id } => {
                append_numbered(&mut text, "template ", *id as u64);
                append_numbered(&mut text, " at ", *at);
            }
            StreamFault::BadTemplate { at } => append_numbered(&mut text, "bad template at ", *at),
            StreamFault::BadPadding { at } => append_numbered(&mut text, "padding at ", *at),
            StreamFault::BadSequence { at } => append_numbered(&mut text, "sequence at ", *at),
            StreamFault::Withdrawal { at } => append_numbered(&mut text, "withdrawal at ", *at),
        }
        text
    }
}
