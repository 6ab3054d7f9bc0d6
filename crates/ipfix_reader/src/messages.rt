//! The messages of a stream.

ghost use Rattle.std.specs.Prelude.{◌≡◌, ◌+◌, ◌<◌, ◌≤◌, ◌^◌, ◌%◌, [], IfOk, IfErr, OnOk, Ok, List, length};
ghost use Rattle.ipfix_model.specs.declared.values.DataRecord.{DataRecord};
ghost use Rattle.ipfix_reader.specs.Outcome.{IsFaultOf};
ghost use Rattle.ipfix_reader.specs.Messages.{checked_length, is_next, message_sequence, message_domain};
ghost use Rattle.ipfix_reader.specs.Messages.{message_length, stream_messages, decode};
ghost use Rattle.ipfix_reader.specs.Cursors.{part_of};
ghost use Rattle.ipfix_reader.specs.Taking.{progress_of};

use crate::cursor::Cursor;
use crate::fault::{StreamError, StreamFault};
use crate::known::{SequenceTable, TemplateTable};
use crate::sets::read_sets;
use crate::taking::{RecordList, RecordTaker};
use ipfix_model::{DataRecord, MESSAGE_HEADER, VERSION};
use std::alloc::{AllocError, Global};

/// The most octets of a stream that a program reads: 64 MiB.
pub const STREAM_LIMIT: u64 = 1 << 26;

/// The data records of a stream of messages (RFC 7011, sections 3.1 to 3.4 and 7), in their order.
///
/// Templates are known from the set that has them on, in the observation domain of its message; a later one takes the
/// place of an earlier one with its number. Records of options templates are given too. Sets numbered 0, 1 and 4 to
/// 255 are skipped.
///
/// `Fault` has the stream's first fault and where it stands; then no records are given. Any error but out of memory
/// is one.
pub fn read_stream(alloc: Global, bytes: &[u8]) -> Result<Vec<DataRecord>, StreamError>
    ensures records { IfOk result (λ records. decode bytes.now ≡ Ok records.items) }
    ensures fault { IfErr result (IsFaultOf (decode bytes.now)) }
{
    let mut list = RecordList {
        records: Vec::new(alloc),
    };
    match read_into(alloc, bytes, &mut list) {
        Ok(()) => {
            let RecordList { records } = list;
            Ok(records)
        }
        Err(error) => Err(error),
    }
}

/// Reads a stream as [`read_stream`] does, but keeps none of its data records: each is taken as soon as it is read,
/// even where a fault follows it.
///
/// The errors are those of [`read_stream`]; no clause says what the taker then has.
pub fn read_into<T: RecordTaker>(
    alloc: Global,
    bytes: &[u8],
    taker: &mut T,
) -> Result<(), StreamError>
    ensures taken { OnOk result (T.has_taken taker.old [] → (records : List DataRecord) × T.has_taken taker.new records
        × (decode bytes.now ≡ Ok records)) }
    ensures fault { IfErr result (λ error. T.has_taken taker.old [] → IsFaultOf (decode bytes.now) error) }
{
    let mut table = TemplateTable::new(alloc);
    let mut sequences = SequenceTable::new(alloc);
    let stream = Cursor { at: 0, bytes };
    read_messages(alloc, &mut table, taker, &mut sequences, stream)
}

/// Reads the messages of a stream.
pub(crate) fn read_messages<T: RecordTaker>(
    alloc: Global,
    table: &mut TemplateTable,
    taker: &mut T,
    sequences: &mut SequenceTable,
    stream: Cursor<'_>,
) -> Result<(), StreamError>
    ensures ok { OnOk result ((before : List DataRecord) → T.has_taken taker.old before
        → (after : List DataRecord) × T.has_taken taker.new after
        × (stream_messages (progress_of table.old before sequences.old) (part_of stream.entry)
        ≡ Ok (progress_of table.new after sequences.new))) }
    ensures fault { IfErr result (λ error. (before : List DataRecord) → T.has_taken taker.old before
        → IsFaultOf (stream_messages (progress_of table.old before sequences.old) (part_of stream.entry)) error) }
{
    let mut rest = stream;
    'messages: while rest.len() > 0 {
        match read_message(alloc, table, taker, sequences, rest) {
            Ok(behind) => rest = behind,
            Err(error) => return Err(error),
        }
    }
    Ok(())
}

/// Reads one message, and gives what lies behind it.
fn read_message<'a, T: RecordTaker>(
    alloc: Global,
    table: &mut TemplateTable,
    taker: &mut T,
    sequences: &mut SequenceTable,
    part: Cursor<'a>,
) -> Result<Cursor<'a>, StreamError>
    requires { 0 < length part.bytes.now }
    ensures ok { IfOk result (λ rest. (before : List DataRecord) → T.has_taken taker.old before
        → (after : List DataRecord) × T.has_taken taker.new after
        × (stream_messages (progress_of table.old before sequences.old) (part_of part.entry)
        ≡ stream_messages (progress_of table.new after sequences.new) (part_of rest))) }
    ensures shorter { IfOk result (λ rest. length rest.bytes.now < length part.entry.bytes.now) }
    ensures fault { IfErr result (λ error. (before : List DataRecord) → T.has_taken taker.old before
        → IsFaultOf (stream_messages (progress_of table.old before sequences.old) (part_of part.entry)) error) }
{
    let size = match checked_length(sequences, part) {
        Ok(size) => size,
        Err(fault) => return Err(StreamError::Fault(fault)),
    };
    let domain = part.u32_at(12);
    let sets = part.first_part(size).behind(MESSAGE_HEADER);
    let count = match read_sets(alloc, domain, table, taker, sets) {
        Ok(count) => count,
        Err(error) => return Err(error),
    };
    let number = next_number(part.u32_at(8), count);
    match sequences.insert(domain, number) {
        Ok(()) => Ok(part.behind(size)),
        Err(AllocError) => Err(StreamError::NoMemory),
    }
}

/// The sequence number behind `count` more data records, modulo 2^32.
fn next_number(sequence: u32, count: usize) -> u32
    requires { count < 2 ^ 63 }
    ensures { result ≡ (sequence + count) % 2 ^ 32 }
{
    ((u64::from(sequence) + count as u64) % (1 << 32)) as u32
}

/// The length of the message at the front, where its header has no fault.
#[tactic(auto, unfolding(crate::specs::Messages::checked_length))]
fn checked_length(sequences: &SequenceTable, part: Cursor<'_>) -> Result<usize, StreamFault>
    ensures value { result ≡ checked_length sequences.now (part_of part.entry) }
    ensures header { IfOk result (λ size. 16 ≤ size) }
    ensures inside { IfOk result (λ size. size ≤ length part.entry.bytes.now) }
    ensures small { IfOk result (λ size. size < 2 ^ 16) }
{
    let at = part.at;
    if part.len() < MESSAGE_HEADER {
        return Err(StreamFault::Cut { at });
    }
    if part.u16_at(0) != VERSION {
        return Err(StreamFault::BadVersion { at });
    }
    let size = usize::from(part.u16_at(2));
    if size < MESSAGE_HEADER {
        return Err(StreamFault::BadLength { at });
    }
    if part.len() < size {
        return Err(StreamFault::Cut { at });
    }
    if !is_next(part.u32_at(8), sequences.get(part.u32_at(12))) {
        return Err(StreamFault::BadSequence { at });
    }
    Ok(size)
}

/// Whether the number is the expected one, where one is.
fn is_next(number: u32, expected: Option<u32>) -> bool
    ensures { result ≡ is_next number expected }
{
    match expected {
        Some(expected) => number == expected,
        None => true,
    }
}
