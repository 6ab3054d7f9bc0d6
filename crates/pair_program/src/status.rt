//! How a run ends.

ghost use Rattle.std.specs.Prelude.{◌≡◌};
ghost use Rattle.pair_program.specs.Statuses.{exit_status};

use ipfix_reader::StreamFault;

/// How a run ends. [`PairStatus::code`] is the exit status of the program.
#[derive(Clone, Copy, Debug, PartialEq, Eq)]
pub enum PairStatus {
    /// All was done.
    Done,
    /// A read of the input failed.
    ReadFault,
    /// The words of the command line aren't a valid command.
    Usage,
    /// A write failed.
    WriteFault,
    /// The input is larger than the limit, 2^26 bytes.
    TooLarge,
    /// Out of memory.
    NoMemory,
    /// The input isn't a valid IPFIX stream: it has this fault.
    NotStream(StreamFault),
    /// The data record at this place, counted from 0, is the first that isn't a flow record.
    NotFlows(u64),
}

impl PairStatus {
    /// The exit status of the program.
    pub fn code(self) -> u8
        ensures { result ≡ exit_status self }
    {
        match self {
            PairStatus::Done => 0,
            PairStatus::ReadFault => 1,
            PairStatus::Usage => 2,
            PairStatus::WriteFault => 3,
            PairStatus::TooLarge => 7,
            PairStatus::NoMemory => 8,
            PairStatus::NotStream(_) => 9,
            PairStatus::NotFlows(_) => 12,
        }
    }
}
