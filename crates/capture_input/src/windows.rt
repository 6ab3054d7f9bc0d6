//! How an input is read.

ghost use Rattle.std.specs.Prelude.{◌≡◌, ◌^◌, ◌<◌, ◌≤◌, ℕ, [], IfOk, IfErr, IsTrue};
ghost use Rattle.std.specs.Io.KnownBytes.{IsAtEnd};
ghost use Rattle.meter_io.specs.Sides.{side};
ghost use Rattle.capture_input.specs.Refusals.{IsRefused, HasFaults};
ghost use Rattle.capture_input.specs.Inputs.{TookMore, ReadsOn, EndsFor, HasBegun, fault_for};

use crate::fault::MeterFault;
use crate::fill_end::FillEnd;
use crate::input::CaptureInput;
use crate::window::Window;
use meter_io::{Failed, Source};
use no_memory::NoMemory;
use pcap_reader::{CaptureError, Head, IndexError, parts_law};
use std::alloc::Global;

/// The fault for bytes that are not a capture that can be read.
fn fault_of(error: CaptureError) -> MeterFault
    ensures { result ≡ fault_for error }
{
    match error {
        CaptureError::NotCapture => MeterFault::NotCapture,
        CaptureError::LinkUnknown(link) => MeterFault::LinkUnknown(link),
    }
}

/// Reads the source to its end and drops what it reads. The answer is this fault, unless reading has a fault of its
/// own.
fn read_on<S: Source>(source: &mut S, input: CaptureInput, fault: MeterFault) -> MeterFault
    requires within { (input.taken ≤ input.limit) × (input.limit ≤ 2 ^ 30) }
    requires size { 0 < input.window.size }
    requires ended { IsTrue input.ended → IsAtEnd (S.left source.old) }
    ensures { ReadsOn (side S.left S.faults source.old source.new) input fault result }
{
    let mut input = input;
    while !input.ended {
        let had = input.window.bytes().len();
        input.window.keep(had);
        match input.fill(source) {
            Ok(()) => {}
            Err(broken) => return broken,
        }
    }
    fault
}

impl CaptureInput {
    /// An input of which nothing was read, with a window of `window` bytes (262,184 to 2^27), whose memory is taken
    /// here. At most `limit` bytes may come.
    pub fn open(alloc: Global, window: usize, limit: u64) -> Result<CaptureInput, NoMemory>
        requires window { (262184 ≤ window) × (window ≤ 2 ^ 27) }
        ensures empty { IfOk result (λ input. (input.window.bytes ≡ []) × (input.taken ≡ 0)) }
        ensures size { IfOk result (λ input. (input.window.size ≡ window) × (input.limit ≡ limit)) }
    {
        let window = Window::open(alloc, window)?;
        Ok(CaptureInput {
            window,
            taken: 0,
            limit,
            ended: false,
        })
    }

    /// Fills the window from the source, behind the bytes that it has, until it is full or the source is at its end.
    ///
    /// `Failed`: the source failed, and counted it. `TooLarge`: one byte more came than the limit. The bytes read
    /// before are in the window.
    pub fn fill<S: Source>(&mut self, source: &mut S) -> Result<(), MeterFault>
        requires within { (self.old.taken ≤ self.old.limit) × (self.old.limit ≤ 2 ^ 30) }
        ensures { TookMore (side S.left S.faults source.old source.new) self.old self.new result }
    {
        let most = self.limit - self.taken + 1;
        let had = self.window.bytes().len();
        match self.window.fill(source, most) {
            Err(Failed) => Err(MeterFault::Failed),
            Ok(FillEnd::Spent) => Err(MeterFault::TooLarge),
            Ok(FillEnd::Full) => {
                self.taken += (self.window.bytes().len() - had) as u64;
                self.ended = false;
                Ok(())
            }
            Ok(FillEnd::Ended) => {
                self.taken += (self.window.bytes().len() - had) as u64;
                self.ended = true;
                Ok(())
            }
        }
    }

    /// Reads the first window, and the file header that it begins with. The window keeps the header.
    ///
    /// `NotCapture`, `LinkUnknown`: the source was read to its end then, and has neither failed nor given too much;
    /// else `Failed` or `TooLarge`.
    pub fn begin<S: Source>(self, source: &mut S) -> Result<(CaptureInput, Head), MeterFault>
        requires empty { (self.window.bytes ≡ []) × (self.taken ≡ 0) }
        requires size { 24 ≤ self.window.size }
        requires limit { self.limit ≤ 2 ^ 30 }
        ensures begun { IfOk result (λ r. HasBegun (side S.left S.faults source.old source.new) self r.0 r.1) }
        ensures refused { IfErr result
            (λ fault. IsRefused (side S.left S.faults source.old source.new) self.limit fault) }
        ensures faults { HasFaults (side S.left S.faults source.old source.new) result }
    {
        parts_law();
        let mut input = self;
        input.fill(source)?;
        match Head::of(input.window.bytes()) {
            Ok(head) => Ok((input, head)),
            Err(error) => Err(read_on(source, input, fault_of(error))),
        }
    }

    /// Why an input is refused whose last part, of `count` bytes, could not be indexed: memory ran out, or the part is
    /// damaged. Where it is damaged, the source is read to its end first, and the place counts from the beginning of
    /// the input; reading may have a fault of its own.
    pub fn refusal<S: Source>(self, source: &mut S, count: usize, error: IndexError) -> MeterFault
        requires within { (count ≤ self.taken) × (self.taken ≤ self.limit) × (self.limit ≤ 2 ^ 30) }
        requires bounded { (at : ℕ) → error ≡ IndexError.Damaged at → at ≤ count }
        requires size { 0 < self.window.size }
        requires ended { IsTrue self.ended → IsAtEnd (S.left source.old) }
        ensures { EndsFor (side S.left S.faults source.old source.new) self count error result }
    {
        match error {
            IndexError::NoMemory => MeterFault::NoMemory,
            IndexError::Damaged(at) => {
                let place = self.taken - count as u64 + at;
                read_on(source, self, MeterFault::Damaged(place))
            }
        }
    }
}
