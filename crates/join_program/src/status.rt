//! How a run ends.

ghost use Rattle.std.specs.Prelude.{◌≡◌};
ghost use Rattle.join_program.specs.Statuses.{fault_status, exit_status};

use ipfix_reader::StreamFault;

/// What is wrong with a file.
#[derive(Clone, Copy, Debug, PartialEq, Eq)]
pub enum FileFault {
    /// It couldn't be opened, or a read failed.
    ReadFault,
    /// It has more bytes than the limit, 2^32.
    TooLarge,
    /// It isn't a valid IPFIX stream: it has this fault.
    NotStream(StreamFault),
    /// Its data record at this place, counted from 0, is the first that isn't a flow record.
    NotFlows(u64),
    /// With its records there are more packets or octets than a record can count, which is 2^64 - 1.
    TooMany,
}

impl FileFault {
    /// The exit status of the program.
    pub fn code(self) -> u8
        ensures { result ≡ fault_status self }
    {
        match self {
            FileFault::ReadFault => 1,
            FileFault::TooLarge => 7,
            FileFault::NotStream(_) => 9,
            FileFault::NotFlows(_) => 12,
            FileFault::TooMany => 13,
        }
    }
}

/// How a run ends. [`JoinStatus::code`] is the exit status of the program.
#[derive(Clone, Copy, Debug, PartialEq, Eq)]
pub enum JoinStatus {
    /// All was done.
    Done,
    /// The words of the command line aren't a valid command.
    Usage,
    /// A write failed.
    WriteFault,
    /// Out of memory.
    NoMemory,
    /// The file at this place, counted from 0, has this fault, and no file before it has any.
    Refused { place: u64, fault: FileFault },
}

impl JoinStatus {
    /// The exit status of the program.
    pub fn code(self) -> u8
        ensures { result ≡ exit_status self }
    {
        match self {
            JoinStatus::Done => 0,
            JoinStatus::Usage => 2,
            JoinStatus::WriteFault => 3,
            JoinStatus::NoMemory => 8,
            JoinStatus::Refused { fault, .. } => fault.code(),
        }
    }
}
