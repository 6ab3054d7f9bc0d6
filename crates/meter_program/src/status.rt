//! How a run ends.

ghost use Rattle.std.specs.Prelude.{◌≡◌, IsTrue};
ghost use Rattle.meter_program.specs.declared.status.Status.TheVariants.{NoMemory};
ghost use Rattle.meter_program.specs.Metering.{status_for};
ghost use Rattle.meter_program.specs.Statuses.{exit_status, is_refusal};

use ipfix_reader::StreamFault;
use meter_workers::MeterFault;
use no_memory::NoMemory;

/// How a run ends. [`Status::code`] is the exit status of the program.
#[derive(Clone, Copy, Debug, PartialEq, Eq)]
pub enum Status {
    /// All was done.
    Done,
    /// The input failed.
    ReadFault,
    /// The words aren't a command line.
    Usage,
    /// A write failed.
    WriteFault,
    /// The input isn't a classic capture.
    NotCapture,
    /// The capture has this link type, which isn't read.
    LinkUnknown(u32),
    /// The record header at this offset, in octets from the beginning of the input, claims more than 262,144 captured
    /// octets.
    Damaged(u64),
    /// The input is larger than the command's limit.
    TooLarge,
    /// Out of memory.
    NoMemory,
    /// The stream has this fault.
    NotStream(StreamFault),
    /// This line is the first bad one of the schedule, counted from 1.
    BadSchedule(u64),
}

impl From<NoMemory> for Status {
    ghost from_gives = { λ _ status. status ≡ NoMemory };

    fn from(_error: NoMemory) -> Status {
        Status::NoMemory
    }
}

/// The status of a run whose input couldn't be metered.
impl From<MeterFault> for Status {
    ghost from_gives = { λ fault status. status ≡ status_for fault };

    fn from(fault: MeterFault) -> Status {
        match fault {
            MeterFault::Failed => Status::ReadFault,
            MeterFault::TooLarge => Status::TooLarge,
            MeterFault::NotCapture => Status::NotCapture,
            MeterFault::LinkUnknown(link) => Status::LinkUnknown(link),
            MeterFault::Damaged(at) => Status::Damaged(at),
            MeterFault::NoMemory => Status::NoMemory,
        }
    }
}

impl Status {
    /// Whether the run refused, so that standard error has a line for it.
    pub fn is_refusal(&self) -> bool
        ensures { result ≡ is_refusal self.now }
    {
        !matches!(self, Status::Done | Status::WriteFault)
    }

    /// The exit status of the program.
    pub fn code(self) -> u8
        ensures { result ≡ exit_status self }
    {
        match self {
            Status::Done => 0,
            Status::ReadFault => 1,
            Status::Usage => 2,
            Status::WriteFault => 3,
            Status::NotCapture => 4,
            Status::LinkUnknown(_) => 5,
            Status::Damaged(_) => 6,
            Status::TooLarge => 7,
            Status::NoMemory => 8,
            Status::NotStream(_) => 9,
            Status::BadSchedule(_) => 10,
        }
    }
}
