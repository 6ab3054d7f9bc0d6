//! A batch as a part of its capture.

ghost use Rattle.std.specs.Prelude.{◌≡◌};
ghost use Rattle.pcap_reader.specs.Views.{file_of, part_of};

use crate::batch::Batch;
use capture_input::Part;
use pcap_reader::Capture;

impl Batch {
    /// The batch as a part of its capture.
    pub fn part(&self) -> Part<'_>
        ensures base { result.base ≡ self.now.base }
        ensures index { result.index.now ≡ self.now.index }
        ensures file { file_of result.capture ≡ part_of self.now.head self.now.bytes.items }
    {
        Part {
            capture: Capture::part(self.head, self.bytes.as_slice()),
            index: &self.index,
            base: self.base,
        }
    }
}
