//! A stream that is read in pieces.

ghost use Rattle.std.specs.Prelude.{◌≡◌, ◌+◌, ◌<◌, ◌≤◌, ◌^◌, [], ◌++◌, IfOk, IfErr, OnOk, Ok, List, ℕ, length, take};
ghost use Rattle.ipfix_model.specs.declared.values.DataRecord.{DataRecord};
ghost use Rattle.ipfix_reader.specs.Outcome.{IsFaultOf};
ghost use Rattle.ipfix_reader.specs.Messages.{decode};
ghost use Rattle.ipfix_reader.specs.Pieces.{HasRead, IsFront};

use crate::cursor::Cursor;
use crate::fault::StreamError;
use crate::known::{SequenceTable, TemplateTable};
use crate::messages::read_messages;
use crate::taking::RecordTaker;
use ipfix_model::MESSAGE_HEADER;
use std::alloc::Global;
use std::marker::Model;

/// The walk over the messages of a stream that comes in pieces. It holds what is known behind the messages that were
/// read, and no bytes: what is left of a piece behind its last whole message is for the caller to keep, in front of the
/// next piece.
///
/// `HasRead` in the contracts says which bytes of the stream were read, and which data records they have.
#[derive(Drop)]
pub struct StreamWalk {
    table: TemplateTable,
    sequences: SequenceTable,
    at: u64,
}

impl Model for StreamWalk {
    ghost use Rattle.ipfix_reader.specs.Pieces.{WalkState};

    ghost Value = { WalkState };

    ghost view = { λ walk. record { templates = walk.table; sequences = walk.sequences; at = walk.at } };
}

/// The size of the whole message at the front of some bytes, or of its header where its length field claims less than a
/// header; 0 where there is neither.
fn front_size(bytes: &[u8]) -> usize
    ensures front { 0 < result → IsFront result bytes.now }
    ensures none { result ≡ 0 → length bytes.now < 65535 }
{
    if bytes.len() < MESSAGE_HEADER {
        return 0;
    }
    let size = usize::from(octets::u16_at(bytes, 2)).max(MESSAGE_HEADER);
    if bytes.len() < size {
        return 0;
    }
    size
}

impl StreamWalk {
    /// Nothing was read yet.
    pub fn new(alloc: Global) -> Self
        ensures { HasRead [] [] result }
    {
        StreamWalk {
            table: TemplateTable::new(alloc),
            sequences: SequenceTable::new(alloc),
            at: 0,
        }
    }

    /// Reads the message at the front of some bytes, which has this size.
    fn read_front<T: RecordTaker>(
        &mut self,
        alloc: Global,
        bytes: &[u8],
        size: usize,
        taker: &mut T,
    ) -> Result<(), StreamError>
        requires front { IsFront size bytes.now }
        requires countable { self.old.at + length bytes.now < 2 ^ 64 }
        ensures taken { OnOk result ((front : List ℕ) (before : List DataRecord) → HasRead front before self.old
            → T.has_taken taker.old before → (after : List DataRecord) × T.has_taken taker.new after
            × HasRead (front ++ take size bytes.now) after self.new) }
        ensures place { OnOk result (self.new.at ≡ self.old.at + size) }
        ensures fault { IfErr result (λ error. (front : List ℕ) (before : List DataRecord)
            → HasRead front before self.old
            → T.has_taken taker.old before → (more : List ℕ)
            → IsFaultOf (decode (front ++ (bytes.now ++ more))) error) }
    {
        let (message, _) = bytes.split_at(size);
        let at = self.at;
        let part = Cursor { at, bytes: message };
        match read_messages(alloc, &mut self.table, taker, &mut self.sequences, part) {
            Ok(()) => {
                self.at = at + size as u64;
                Ok(())
            }
            Err(error) => Err(error),
        }
    }

    /// Reads the whole messages at the front of some bytes, which follow those that were read, and gives how many bytes
    /// these messages have. What is left is less than the longest message.
    ///
    /// A fault is the stream's first one, whatever follows; no clause says where the walk then stands.
    pub fn read_whole<T: RecordTaker>(
        &mut self,
        alloc: Global,
        bytes: &[u8],
        taker: &mut T,
    ) -> Result<usize, StreamError>
        requires countable { self.old.at + length bytes.now < 2 ^ 64 }
        ensures taken { IfOk result (λ count. (front : List ℕ) (before : List DataRecord)
            → HasRead front before self.old
            → T.has_taken taker.old before → (after : List DataRecord) × T.has_taken taker.new after
            × HasRead (front ++ take count bytes.now) after self.new) }
        ensures place { IfOk result (λ count. self.new.at ≡ self.old.at + count) }
        ensures within { IfOk result (λ count. count ≤ length bytes.now) }
        ensures left { IfOk result (λ count. length bytes.now < count + 65535) }
        ensures fault { IfErr result (λ error. (front : List ℕ) (before : List DataRecord)
            → HasRead front before self.old
            → T.has_taken taker.old before → (more : List ℕ)
            → IsFaultOf (decode (front ++ (bytes.now ++ more))) error) }
    {
        let mut rest = bytes;
        let mut size = front_size(rest);
        'messages: while size > 0 {
            match self.read_front(alloc, rest, size, taker) {
                Ok(()) => {}
                Err(error) => return Err(error),
            }
            let (_, behind) = rest.split_at(size);
            rest = behind;
            size = front_size(rest);
        }
        Ok(bytes.len() - rest.len())
    }

    /// Reads the last bytes of the stream, which follow those that were read: bytes that aren't whole messages are a
    /// fault.
    pub fn read_last<T: RecordTaker>(
        &mut self,
        alloc: Global,
        bytes: &[u8],
        taker: &mut T,
    ) -> Result<(), StreamError>
        requires countable { self.old.at + length bytes.now < 2 ^ 64 }
        ensures taken { OnOk result ((front : List ℕ) (before : List DataRecord) → HasRead front before self.old
            → T.has_taken taker.old before → (after : List DataRecord) × T.has_taken taker.new after
            × (decode (front ++ bytes.now) ≡ Ok after)) }
        ensures fault { IfErr result (λ error. (front : List ℕ) (before : List DataRecord)
            → HasRead front before self.old
            → T.has_taken taker.old before → IsFaultOf (decode (front ++ bytes.now)) error) }
    {
        let at = self.at;
        let part = Cursor { at, bytes };
        read_messages(alloc, &mut self.table, taker, &mut self.sequences, part)
    }
}
