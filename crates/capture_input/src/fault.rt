//! Why a capture that is read in windows is refused.

ghost use Rattle.std.specs.Prelude.{◌≡◌};

use no_memory::NoMemory;

/// Why an input could not be metered. The first that applies is the answer, in this order; but `NoMemory` may come at
/// any time.
#[derive(Clone, Copy, Debug, PartialEq, Eq)]
pub enum MeterFault {
    /// A read failed, and the source counted it.
    Failed,
    /// More bytes came than the limit allows.
    TooLarge,
    /// The input doesn't begin with the file header of a classic capture.
    NotCapture,
    /// It does, and its link type is this number, which is none of 1, 101 and 113.
    LinkUnknown(u32),
    /// The record header at this offset, counted from the beginning of the input, claims more than 262,144 captured
    /// bytes.
    Damaged(u64),
    /// Out of memory.
    NoMemory,
}

impl From<NoMemory> for MeterFault {
    fn from(_none: NoMemory) -> MeterFault
        ensures { result ≡ MeterFault.NoMemory }
    {
        MeterFault::NoMemory
    }
}
