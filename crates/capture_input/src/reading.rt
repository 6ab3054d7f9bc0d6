//! A capture that is read part by part.

ghost use Rattle.std.specs.Prelude.{◌≡◌, ◌↔◌, ◌+◌, ◌++◌, ◌^◌, ◌<◌, ◌≤◌, List, ℕ, IfOk, IfErr, IsTrue, length};
ghost use Rattle.std.specs.declared.option.Option.{Option};
ghost use Rattle.meter_io.specs.Sides.{side};
ghost use Rattle.pcap_reader.specs.Index.{IsIndexOf};
ghost use Rattle.pcap_reader.specs.Views.{file_of, part_of};
ghost use Rattle.capture_input.specs.Refusals.{IsRefused, HasFaults};
ghost use Rattle.capture_input.specs.Inputs.{side_from};
ghost use Rattle.capture_input.specs.Parts.{Answer, answers_from};
ghost use Rattle.capture_input.specs.Giving.{HasGiven, HasFilled, IsReadWhole, IsLast, part_in, base_in, head_in};
ghost use Rattle.capture_input.specs.Giving.{size_in, left_in};

use crate::fault::MeterFault;
use crate::input::CaptureInput;
use crate::part::Part;
use crate::window::Window;
use meter_io::Source;
use packet_accept::packets_law;
use pcap_reader::{Capture, FILE_HEADER, Head, RecordIndex, parts_law};
use std::alloc::Global;

/// A capture that is read part by part: its input, what its file header tells, and how far it was read.
#[derive(Drop)]
pub struct Reading {
    pub(crate) input: CaptureInput,
    pub(crate) head: Head,
    /// How many records stand before the part.
    pub(crate) base: u64,
    /// How many records the part has.
    pub(crate) count: u64,
    /// Where in the window the next part begins.
    pub(crate) next: usize,
}

impl Reading {
    /// Reads the first part of a capture, in a window of `size` bytes (262,184 to 2^27), and its index. At most `limit`
    /// bytes may come, and at most 2^30.
    ///
    /// Refusals come in the order of [`MeterFault`]: where the input is no capture, of an unknown link type or damaged,
    /// it is read to its end first, so that `Failed` and `TooLarge` still come first. `NoMemory` may come at any time.
    pub fn begin<S: Source>(
        alloc: Global,
        source: &mut S,
        size: usize,
        limit: u64,
    ) -> Result<(Reading, RecordIndex), MeterFault>
        requires size { (262184 ≤ size) × (size ≤ 2 ^ 27) }
        requires limit { limit ≤ 2 ^ 30 }
        ensures part { IfOk result (λ r. IsIndexOf r.1 (part_in r.0)) }
        ensures few { IfOk result (λ r. base_in r.0 + length r.1.offsets < 2 ^ 32) }
        ensures first { IfOk result (λ r. (base_in r.0 ≡ 0) × (size_in r.0 ≡ size)) }
        ensures given { IfOk result (λ r. HasGiven (S.left source.old) (S.left source.new) limit r.0
            (answers_from 0 (part_in r.0))) }
        ensures refused { IfErr result (λ fault. IsRefused (side S.left S.faults source.old source.new) limit fault) }
        ensures faults { HasFaults (side S.left S.faults source.old source.new) result }
    {
        parts_law();
        let Ok(index) = RecordIndex::with_room(alloc, size) else {
            return Err(MeterFault::NoMemory);
        };
        let Ok(input) = CaptureInput::open(alloc, size, limit) else {
            return Err(MeterFault::NoMemory);
        };
        let (mut input, head) = input.begin(source)?;
        input.window.keep(FILE_HEADER);
        let reading = Reading {
            input,
            head,
            base: 0,
            count: 0,
            next: 0,
        };
        reading.index_part(source, index)
    }

    /// The part that the window was filled with, and its index.
    fn index_part<S: Source>(
        self,
        source: &mut S,
        index: RecordIndex,
    ) -> Result<(Reading, RecordIndex), MeterFault>
        requires filled { (before : Option (List ℕ)) × (limit : ℕ) × (answers : List Answer)
            × HasFilled before (S.left source.old) limit self answers }
        ensures part { IfOk result (λ r. IsIndexOf r.1 (part_in r.0)) }
        ensures few { IfOk result (λ r. base_in r.0 + length r.1.offsets < 2 ^ 32) }
        ensures same { IfOk result (λ r. (r.0.input ≡ self.input) × (r.0.base ≡ self.base + self.count)) }
        ensures given { (before : Option (List ℕ)) (limit : ℕ) (answers : List Answer)
            → HasFilled before (S.left source.old) limit self answers
            → IfOk result (λ r. (base_in r.0 ≡ length answers) × HasGiven before (S.left source.new) limit r.0
            (answers ++ answers_from (base_in r.0) (part_in r.0))) }
        ensures refused { (before : Option (List ℕ)) (limit : ℕ) (answers : List Answer)
            → HasFilled before (S.left source.old) limit self answers
            → IfErr result (λ fault. IsRefused (side_from before (side S.left S.faults source.old source.new))
            limit fault) }
        ensures faults { HasFaults (side S.left S.faults source.old source.new) result }
    {
        parts_law();
        packets_law();
        let Reading {
            input,
            head,
            base,
            count,
            ..
        } = self;
        let bytes = input.window.bytes();
        let length = bytes.len();
        let part = Capture::part(head, bytes);
        let index = match part.index_into(index) {
            Ok(index) => index,
            Err(error) => return Err(input.refusal(source, length, error)),
        };
        let reading = Reading {
            input,
            head,
            base: base + count,
            count: index.count(),
            next: length - index.tail() as usize,
        };
        Ok((reading, index))
    }

    /// Reads the next part and makes its index, in the memory of the index that is passed in. The part before must not
    /// be the last.
    ///
    /// It refuses as [`Reading::begin`] does.
    pub fn next<S: Source>(
        self,
        source: &mut S,
        index: RecordIndex,
    ) -> Result<(Reading, RecordIndex), MeterFault>
        requires given { (before : Option (List ℕ)) × (limit : ℕ) × (answers : List Answer)
            × HasGiven before (S.left source.old) limit self answers }
        requires more { ¬ IsLast self }
        ensures part { IfOk result (λ r. IsIndexOf r.1 (part_in r.0)) }
        ensures few { IfOk result (λ r. base_in r.0 + length r.1.offsets < 2 ^ 32) }
        ensures same { IfOk result (λ r. size_in r.0 ≡ size_in self) }
        ensures less { IfOk result (λ r. left_in r.0 < left_in self) }
        ensures given { (before : Option (List ℕ)) (limit : ℕ) (answers : List Answer)
            → HasGiven before (S.left source.old) limit self answers
            → IfOk result (λ r. (base_in r.0 ≡ length answers) × HasGiven before (S.left source.new) limit r.0
            (answers ++ answers_from (base_in r.0) (part_in r.0))) }
        ensures refused { (before : Option (List ℕ)) (limit : ℕ) (answers : List Answer)
            → HasGiven before (S.left source.old) limit self answers
            → IfErr result (λ fault. IsRefused (side_from before (side S.left S.faults source.old source.new))
            limit fault) }
        ensures faults { HasFaults (side S.left S.faults source.old source.new) result }
    {
        let mut reading = self;
        reading.input.window.keep(reading.next);
        match reading.input.fill(source) {
            Ok(()) => {}
            Err(broken) => return Err(broken),
        }
        reading.index_part(source, index)
    }

    /// The part that was read last, with its index.
    pub fn part<'a>(&'a self, index: &'a RecordIndex) -> Part<'a>
        requires part { IsIndexOf index.now (part_in self.now) }
        requires few { base_in self.now + length index.now.offsets < 2 ^ 32 }
        ensures base { result.base ≡ base_in self.now }
        ensures index { result.index.now ≡ index.now }
        ensures file { file_of result.capture ≡ part_in self.now }
    {
        Part {
            capture: Capture::part(self.head, self.input.window.bytes()),
            index,
            base: self.base,
        }
    }

    /// What the file header tells.
    pub fn head(&self) -> Head
        ensures { result ≡ head_in self.now }
    {
        self.head
    }

    /// How many records stand before the part.
    pub fn base(&self) -> u64
        ensures { result ≡ base_in self.now }
    {
        self.base
    }

    /// Whether the part is the last one.
    pub fn is_last(&self) -> bool
        ensures { IsTrue result ↔ IsLast self.now }
    {
        self.input.ended
    }

    /// How many bytes are left behind the last record of the part. Where this part is the last, the whole capture was
    /// read.
    pub fn tail(&self) -> u64
        requires given { (before left : Option (List ℕ)) × (limit : ℕ) × (answers : List Answer)
            × HasGiven before left limit self.now answers }
        ensures { (before left : Option (List ℕ)) (limit : ℕ) (answers : List Answer)
            → HasGiven before left limit self.now answers → IsLast self.now
            → IsReadWhole before left limit answers result }
    {
        (self.input.window.bytes().len() - self.next) as u64
    }

    /// Hands over the bytes of the part, in the memory of the window. What is left behind the part's last record is
    /// copied into `buffer`, which must be as long as the window, and is the window from now on.
    pub fn take_bytes(self, buffer: Vec<u8>) -> (Vec<u8>, Reading)
        requires given { (before left : Option (List ℕ)) × (limit : ℕ) × (answers : List Answer)
            × HasGiven before left limit self answers }
        requires size { (length buffer.items ≡ size_in self) × (size_in self ≤ 2 ^ 27) }
        ensures part { part_of (head_in self) result.0.items ≡ part_in self }
        ensures same { (size_in result.1 ≡ size_in self) × (left_in result.1 ≡ left_in self)
            × (IsLast result.1 ↔ IsLast self) }
        ensures given { (before left : Option (List ℕ)) (limit : ℕ) (answers : List Answer)
            → HasGiven before left limit self answers → HasGiven before left limit result.1 answers }
    {
        let Reading {
            input,
            head,
            base,
            count,
            next,
        } = self;
        let CaptureInput {
            window,
            taken,
            limit,
            ended,
        } = input;
        let bytes = window.bytes();
        let length = bytes.len();
        let following = Window::over(buffer, &bytes[next..]);
        let input = CaptureInput {
            window: following,
            taken,
            limit,
            ended,
        };
        let reading = Reading {
            input,
            head,
            base,
            count,
            next: 0,
        };
        (window.into_front(length), reading)
    }
}
