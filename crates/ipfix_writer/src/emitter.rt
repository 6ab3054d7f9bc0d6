//! The emitter, which writes messages as the records come.

ghost use Rattle.std.specs.Prelude.{◌≡◌, ◌≢◌, ◌+◌, ◌-◌, ◌≤◌, ◌<◌, ◌^◌, ◌%◌, ◌*◌, ◌/◌, min, [], ◌∷◌, ◌++◌, List, ℕ};
ghost use Rattle.std.specs.Prelude.{length, take, IfOk, OnOk, OnErr};
ghost use Rattle.std.specs.Io.KnownBytes.{Appends};
ghost use Rattle.std.specs.Vec.{vec_capacity};
ghost use Rattle.meter_io.specs.Causes.{HasCause};
ghost use Rattle.sink_buffer.specs.Passing.{IsPassed};
ghost use Rattle.ipfix_writer.specs.Emitting.{header_before};
ghost use Rattle.ipfix_model.specs.Sizes.{template_message_length};

use crate::encode::Encode;
use crate::message::{encode_message, encode_template_message};
use ipfix_model::{MESSAGE_HEADER, SET_HEADER, V4_RECORD_LENGTH};
use meter_io::{Failed, Sink};
use no_memory::NoMemory;
use record_ledger::FlowRecord;
use sink_buffer::SinkBuffer;
use std::alloc::Global;
use std::marker::Model;

/// The length of the set header in front of a record of this template, where the record before has template `last`.
pub fn header_length(last: Option<u16>, template: u16) -> usize
    ensures { result ≡ header_before last template }
{
    match last {
        Some(last) if last == template => 0,
        _ => SET_HEADER,
    }
}

/// How far an emitter has come.
#[derive(Clone, Copy, PartialEq, Eq, Debug)]
pub enum Phase {
    /// Nothing was written yet.
    Fresh,
    /// The message with the templates was written.
    Started,
    /// A write failed: the emitter can only be dropped.
    Broken,
}

/// Writes records of flows to a sink as a stream of IPFIX messages.
///
/// It keeps the records of one message, and puts their message into a buffer when the next record doesn't fit. The
/// buffer goes out, in whole messages and by one call of [`write_all`](meter_io::write_all), when it has no room for
/// the next message, and at the end. All memory is taken when the emitter is made.
#[derive(Drop)]
pub struct Emitter {
    size: usize,
    export_time: u32,
    phase: Phase,
    waiting: Vec<FlowRecord>,
    sequence: u32,
    messages: u64,
    // The bytes of the last message, and room for one of the message size.
    buffer: Vec<u8>,
    // The messages that the sink has not taken yet.
    out: SinkBuffer,
    // The length of the message of the records that wait, and the template of the last of them.
    length: usize,
    template: Option<u16>,
}

impl Model for Emitter {
    ghost use Rattle.std.specs.Vec.{vec_capacity};
    ghost use Rattle.ipfix_writer.specs.Emitting.{EmitterState, EmitterKeeps};

    ghost Value = { EmitterState };

    ghost view = { λ e. record {
      size = e.size;
      export_time = e.export_time;
      phase = e.phase;
      waiting = e.waiting.items;
      sequence = e.sequence;
      messages = e.messages;
      held = e.out;
    } };

    ghost invariant = { λ e. EmitterKeeps e.size e.phase e.waiting.items e.sequence e.messages e.length e.template
        (vec_capacity e.buffer) (vec_capacity e.waiting) e.out };
}

impl Emitter {
    ghost use Rattle.ipfix_writer.specs.Encoding.{message, template_message};
    ghost use Rattle.ipfix_writer.specs.Layout.{body_of, message_length, IsLayoutOf, BeginsLayout};
    ghost use Rattle.ipfix_writer.specs.Emitting.{IsUnderWay};
    ghost use Rattle.record_ledger.specs.declared.record.FlowRecord.{FlowRecord};

    /// An emitter of messages of at most `size` octets, from 116 to 65,535, with this export time in seconds since
    /// 1970.
    ///
    /// `NoMemory` where there is no memory for one message, its records and the buffer in front of the sink.
    pub fn open(alloc: Global, size: usize, export_time: u32) -> Result<Emitter, NoMemory>
        requires { (template_message_length ≤ size) × (size < 2 ^ 16) }
        ensures { IfOk result (λ emitter. emitter ≡ record {
          size = size;
          export_time = export_time;
          phase = Phase.Fresh;
          waiting = [];
          sequence = 0;
          messages = 0;
          held = [];
        }) }
    {
        let buffer = Vec::with_capacity(alloc, size)?;
        let waiting = Vec::with_capacity(alloc, size / V4_RECORD_LENGTH)?;
        let out = SinkBuffer::open(alloc)?;
        Ok(Emitter {
            size,
            export_time,
            phase: Phase::Fresh,
            waiting,
            sequence: 0,
            messages: 0,
            buffer,
            out,
            length: MESSAGE_HEADER,
            template: None,
        })
    }

    /// Begins the stream with the message that has the templates. Nothing was written before.
    ///
    /// `Failed` comes only where the sink's count of faults rose. The sink then took a beginning of the stream, and the
    /// emitter can only be dropped.
    pub fn start<K: Sink>(&mut self, sink: &mut K) -> Result<(), Failed>
        requires { self.old.phase ≡ Phase.Fresh }
        ensures started { OnOk result ((bytes : List ℕ) × Appends (K.held sink.old) (K.held sink.new) bytes
            × IsUnderWay self.new [] bytes) }
        ensures broken { OnErr result ((bytes : List ℕ) × Appends (K.held sink.old) (K.held sink.new) bytes
            × ((flows : List FlowRecord) → BeginsLayout self.old.size self.old.export_time flows bytes)) }
        ensures settings { (self.new.size ≡ self.old.size) × (self.new.export_time ≡ self.old.export_time) }
        ensures phase { OnErr result (self.new.phase ≡ Phase.Broken) }
        ensures cause { HasCause (K.faults sink.old) (K.faults sink.new) result }
    {
        encode_template_message(&mut self.buffer, self.export_time);
        match self.out.put(sink, self.buffer.as_slice()) {
            Ok(()) => {
                self.phase = Phase::Started;
                self.messages = 1;
                Ok(())
            }
            Err(Failed) => {
                self.phase = Phase::Broken;
                Err(Failed)
            }
        }
    }

    /// The length of the message with one more record.
    fn length_with(&self, flow: &FlowRecord) -> usize
        ensures { result ≡ message_length (self.now.waiting ++ flow.now ∷ []) }
    {
        self.length + header_length(self.template, flow.template()) + flow.size()
    }

    /// Keeps one more record, with which the message has this length.
    fn keep(&mut self, flow: &FlowRecord, length: usize)
        requires started { self.old.phase ≡ Phase.Started }
        requires exact { length ≡ message_length (self.old.waiting ++ flow.now ∷ []) }
        requires fits { length ≤ self.old.size }
        ensures { self.new ≡ record self.old { waiting = self.old.waiting ++ flow.now ∷ [] } }
    {
        self.waiting.push(*flow).unwrap();
        self.length = length;
        self.template = Some(flow.template());
    }

    /// Writes the message of the records that wait, behind the messages that the sink has not taken yet.
    fn flush<K: Sink>(&mut self, sink: &mut K) -> Result<(), Failed>
        requires { self.old.phase ≡ Phase.Started }
        ensures written { OnOk result (IsPassed (K.held sink.old) (K.held sink.new) self.old.held self.new.held
            (message self.old.export_time self.old.sequence (body_of self.old.waiting))) }
        ensures after { OnOk result (self.new ≡ record self.old {
          waiting = [];
          sequence = (self.old.sequence + length self.old.waiting) % 2 ^ 32;
          messages = min (self.old.messages + 1) (2 ^ 64 - 1);
          held = self.new.held;
        }) }
        ensures cut { OnErr result ((left : List ℕ)
            × IsPassed (K.held sink.old) (K.held sink.new) self.old.held left
            (message self.old.export_time self.old.sequence (body_of self.old.waiting))) }
        ensures broken { OnErr result (self.new ≡ record self.old { phase = Phase.Broken }) }
        ensures cause { HasCause (K.faults sink.old) (K.faults sink.new) result }
    {
        let count = self.waiting.len() as u32;
        encode_message(
            &mut self.buffer,
            self.waiting.as_slice(),
            self.length,
            self.export_time,
            self.sequence,
        );
        match self.out.put(sink, self.buffer.as_slice()) {
            Ok(()) => {
                self.sequence = self.sequence.wrapping_add(count);
                self.messages = self.messages.saturating_add(1);
                self.waiting.clear();
                self.length = MESSAGE_HEADER;
                self.template = None;
                Ok(())
            }
            Err(Failed) => {
                self.phase = Phase::Broken;
                Err(Failed)
            }
        }
    }

    /// Takes in one more record. Where it doesn't fit the message of the records that wait, that message is written
    /// first.
    ///
    /// `Failed` comes only where the sink's count of faults rose. The sink then took a beginning of the stream, and the
    /// emitter can only be dropped.
    pub fn record<K: Sink>(&mut self, flow: &FlowRecord, sink: &mut K) -> Result<(), Failed>
        requires { self.old.phase ≡ Phase.Started }
        ensures taken { OnOk result ((flows : List FlowRecord) (written : List ℕ) → IsUnderWay self.old flows written
            → (bytes : List ℕ) × Appends (K.held sink.old) (K.held sink.new) bytes
            × IsUnderWay self.new (flows ++ flow.now ∷ []) (written ++ bytes)) }
        ensures broken { OnErr result ((flows : List FlowRecord) (written : List ℕ) → IsUnderWay self.old flows written
            → (bytes : List ℕ) × Appends (K.held sink.old) (K.held sink.new) bytes
            × ((rest : List FlowRecord) → BeginsLayout self.old.size self.old.export_time (flows ++ flow.now ∷ rest)
            (written ++ bytes))) }
        ensures settings { (self.new.size ≡ self.old.size) × (self.new.export_time ≡ self.old.export_time) }
        ensures started { OnOk result (self.new.phase ≡ Phase.Started) }
        ensures phase { OnErr result (self.new.phase ≡ Phase.Broken) }
        ensures cause { HasCause (K.faults sink.old) (K.faults sink.new) result }
    {
        let longer = self.length_with(flow);
        if longer <= self.size {
            self.keep(flow, longer);
            return Ok(());
        }
        match self.flush(sink) {
            Ok(()) => {
                let alone = self.length_with(flow);
                self.keep(flow, alone);
                Ok(())
            }
            Err(Failed) => Err(Failed),
        }
    }

    /// Writes the messages that the sink has not taken yet, and tells how many there were in all.
    fn drain<K: Sink>(&mut self, sink: &mut K) -> Result<u64, Failed>
        ensures whole { IfOk result (λ messages. Appends (K.held sink.old) (K.held sink.new) self.old.held
            × (messages ≡ self.old.messages)) }
        ensures prefix { OnErr result ((count : ℕ) × Appends (K.held sink.old) (K.held sink.new)
            (take count self.old.held)) }
        ensures cause { HasCause (K.faults sink.old) (K.faults sink.new) result }
    {
        match self.out.write_out(sink) {
            Ok(()) => Ok(self.messages),
            Err(Failed) => Err(Failed),
        }
    }

    /// Writes the records that wait and all that the sink has not taken yet, and tells how many messages were written,
    /// the one with the templates among them.
    ///
    /// `Failed` comes only where the sink's count of faults rose. The sink then took a beginning of the stream.
    pub fn finish<K: Sink>(mut self, sink: &mut K) -> Result<u64, Failed>
        requires { self.phase ≡ Phase.Started }
        ensures finished { IfOk result (λ messages. (flows : List FlowRecord) (written : List ℕ)
            → IsUnderWay self flows written
            → (bytes : List ℕ) × Appends (K.held sink.old) (K.held sink.new) bytes
            × IsLayoutOf self.size self.export_time flows (written ++ bytes) messages) }
        ensures broken { OnErr result ((flows : List FlowRecord) (written : List ℕ) → IsUnderWay self flows written
            → (bytes : List ℕ) × Appends (K.held sink.old) (K.held sink.new) bytes
            × BeginsLayout self.size self.export_time flows (written ++ bytes)) }
        ensures cause { HasCause (K.faults sink.old) (K.faults sink.new) result }
    {
        if self.waiting.is_empty() {
            return self.drain(sink);
        }
        match self.flush(sink) {
            Ok(()) => self.drain(sink),
            Err(Failed) => Err(Failed),
        }
    }
}
