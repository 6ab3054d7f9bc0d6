//! Messages of a whole list, each filled with as many records as fit.

ghost use Rattle.std.specs.Prelude.{◌≡◌, ◌+◌, ◌≤◌, ◌<◌, ◌^◌, ◌++◌, [], ◌∷◌, ℕ, List, IfOk, OnOk, OnErr, length, take};
ghost use Rattle.std.specs.Io.KnownBytes.{Appends};
ghost use Rattle.std.specs.Vec.{vec_capacity};
ghost use Rattle.meter_io.specs.Causes.{HasCause};
ghost use Rattle.sink_buffer.specs.Passing.{IsPassed};
ghost use Rattle.ipfix_writer.specs.Encoding.{message};
ghost use Rattle.ipfix_writer.specs.Layout.{IsStream, body_in, length_in};
ghost use Rattle.ipfix_writer.specs.Emitting.{FillsMessage};

use crate::emitter::header_length;
use crate::encode::Encode;
use crate::message::encode_message;
use ipfix_model::MESSAGE_HEADER;
use meter_io::{Failed, Sink};
use no_memory::NoMemory;
use sink_buffer::SinkBuffer;
use std::alloc::Global;

/// What all data messages of a stream have.
#[derive(Clone, Copy, Debug)]
pub struct MessageForm {
    /// The most octets that a message has.
    pub size: usize,
    /// Their export time, in seconds since 1970-01-01T00:00:00Z.
    pub export_time: u32,
}

/// The longest beginning of some records whose message is at most `size` octets long: how many records it has, and the
/// length of the message.
fn first_message<R: Encode>(records: &[R], size: usize) -> (usize, usize)
    requires some { 0 < length records.now }
    requires small { size < 2 ^ 16 }
    requires alone { (one : R) → length_in R.encode (one ∷ []) ≤ size }
    ensures some { 0 < result.0 }
    ensures within { result.0 ≤ length records.now }
    ensures length { result.1 ≡ length_in R.encode (take result.0 records.now) }
    ensures fits { result.1 ≤ size }
    ensures full { result.0 < length records.now → size < length_in R.encode (take (result.0 + 1) records.now) }
{
    let mut count = 0;
    let mut filled = MESSAGE_HEADER;
    let mut last: Option<u16> = None;
    while count < records.len() {
        let one = records[count];
        let longer = filled + header_length(last, one.template()) + one.size();
        if longer > size {
            return (count, filled);
        }
        last = Some(one.template());
        filled = longer;
        count += 1;
    }
    (count, filled)
}

/// Appends one message of the first records to a stream, and tells how many records it has.
fn append_message<R: Encode>(
    stream: &mut Vec<u8>,
    buffer: &mut Vec<u8>,
    records: &[R],
    form: MessageForm,
    sequence: u32,
) -> Result<usize, NoMemory>
    requires some { 0 < length records.now }
    requires small { form.size < 2 ^ 16 }
    requires room { form.size ≤ vec_capacity buffer.old }
    requires alone { (one : R) → length_in R.encode (one ∷ []) ≤ form.size }
    ensures some { IfOk result (λ count. (0 < count) × (count ≤ length records.now)) }
    ensures fits { IfOk result (λ count. length_in R.encode (take count records.now) ≤ form.size) }
    ensures full { IfOk result (λ count. count < length records.now
        → form.size < length_in R.encode (take (count + 1) records.now)) }
    ensures items { IfOk result (λ count. stream.new.items ≡ stream.old.items
        ++ message form.export_time sequence (body_in R.encode (take count records.now))) }
    ensures room { vec_capacity buffer.old ≤ vec_capacity buffer.new }
{
    let (count, filled) = first_message(records, form.size);
    encode_message(
        buffer,
        &records[..count],
        filled,
        form.export_time,
        sequence,
    );
    stream.extend_from_slice(buffer.as_slice())?;
    Ok(count)
}

/// Appends the data messages of some records, each of this form, to a stream that has its first message. A message of
/// any one record fits `form.size`.
///
/// `NoMemory` where there is no memory for them; no clause says what the stream is then.
pub fn append_messages<R: Encode>(
    alloc: Global,
    stream: &mut Vec<u8>,
    records: &[R],
    form: MessageForm,
) -> Result<(), NoMemory>
    requires small { form.size < 2 ^ 16 }
    requires alone { (one : R) → length_in R.encode (one ∷ []) ≤ form.size }
    ensures { OnOk result (IsStream R.encode form.size form.export_time stream.old.items records.now stream.new.items) }
{
    let mut buffer = Vec::with_capacity(alloc, form.size)?;
    let mut done = 0;
    while done < records.len() {
        let (_, rest) = records.split_at(done);
        done += append_message(
            stream,
            &mut buffer,
            rest,
            form,
            (done as u64 % (1 << 32)) as u32,
        )?;
    }
    Ok(())
}

/// Puts one message of the first records into a buffer in front of a sink, and tells how many records it has.
fn put_message<R: Encode, K: Sink>(
    room: &mut Vec<u8>,
    out: &mut SinkBuffer,
    records: &[R],
    form: MessageForm,
    sequence: u32,
    sink: &mut K,
) -> Result<usize, Failed>
    requires some { 0 < length records.now }
    requires small { form.size < 2 ^ 16 }
    requires room { form.size ≤ vec_capacity room.old }
    requires alone { (one : R) → length_in R.encode (one ∷ []) ≤ form.size }
    ensures passed { IfOk result (λ count. FillsMessage R.encode form.size records.now count
        × IsPassed (K.held sink.old) (K.held sink.new) out.old out.new
        (message form.export_time sequence (body_in R.encode (take count records.now)))) }
    ensures cut { OnErr result ((count : ℕ) × (left : List ℕ) × FillsMessage R.encode form.size records.now count
        × IsPassed (K.held sink.old) (K.held sink.new) out.old left
        (message form.export_time sequence (body_in R.encode (take count records.now)))) }
    ensures room { vec_capacity room.old ≤ vec_capacity room.new }
    ensures cause { HasCause (K.faults sink.old) (K.faults sink.new) result }
{
    let (count, filled) = first_message(records, form.size);
    encode_message(room, &records[..count], filled, form.export_time, sequence);
    match out.put(sink, room.as_slice()) {
        Ok(()) => Ok(count),
        Err(Failed) => Err(Failed),
    }
}

/// Writes a stream to a sink: its first message, and then the data messages of some records, each of this form. A
/// message of any one record fits `form.size`. The stream goes out through `out`, which is empty, in whole messages;
/// `room` has room for one of them.
///
/// `Failed` comes only where the sink's count of faults rose; the sink then took a beginning of the stream.
pub fn write_messages<R: Encode, K: Sink>(
    room: Vec<u8>,
    out: SinkBuffer,
    first: &[u8],
    records: &[R],
    form: MessageForm,
    sink: &mut K,
) -> Result<(), Failed>
    requires empty { out ≡ [] }
    requires room { form.size ≤ vec_capacity room }
    requires short { length first.now < 2 ^ 16 }
    requires small { form.size < 2 ^ 16 }
    requires alone { (one : R) → length_in R.encode (one ∷ []) ≤ form.size }
    ensures written { OnOk result ((bytes : List ℕ) × Appends (K.held sink.old) (K.held sink.new) bytes
        × IsStream R.encode form.size form.export_time first.now records.now bytes) }
    ensures begun { OnErr result ((bytes : List ℕ) × (count : ℕ)
        × Appends (K.held sink.old) (K.held sink.new) (take count bytes)
        × IsStream R.encode form.size form.export_time first.now records.now bytes) }
    ensures cause { HasCause (K.faults sink.old) (K.faults sink.new) result }
{
    let mut room = room;
    let mut out = out;
    match out.put(sink, first) {
        Ok(()) => {}
        Err(Failed) => return Err(Failed),
    }
    let mut done = 0;
    while done < records.len() {
        let (_, rest) = records.split_at(done);
        let sequence = (done as u64 % (1 << 32)) as u32;
        match put_message(&mut room, &mut out, rest, form, sequence, sink) {
            Ok(count) => done += count,
            Err(Failed) => return Err(Failed),
        }
    }
    out.write_out(sink)
}
