//! How a run ends.

ghost use Rattle.std.specs.Prelude.{◌≡◌};
ghost use Rattle.watch_program.specs.Statuses.{exit_status};

/// How a run ends. [`WatchStatus::code`] is the exit status of the program.
#[derive(Clone, Copy, Debug, PartialEq, Eq)]
pub enum WatchStatus {
    /// All was done.
    Done,
    /// A read of the input failed.
    ReadFault,
    /// The words of the command line aren't a valid command.
    Usage,
    /// A write failed.
    WriteFault,
    /// The input isn't a classic pcap capture.
    NotCapture,
    /// The capture has this link type, which isn't read.
    LinkUnknown(u32),
    /// The record header at this offset, in octets from the beginning of the input, claims more than 262,144 captured
    /// octets.
    Damaged(u64),
    /// The input is larger than the limit, 2^30 bytes.
    TooLarge,
    /// Out of memory.
    NoMemory,
}

impl WatchStatus {
    /// The exit status of the program.
    pub fn code(self) -> u8
        ensures { result ≡ exit_status self }
    {
        match self {
            WatchStatus::Done => 0,
            WatchStatus::ReadFault => 1,
            WatchStatus::Usage => 2,
            WatchStatus::WriteFault => 3,
            WatchStatus::NotCapture => 4,
            WatchStatus::LinkUnknown(_) => 5,
            WatchStatus::Damaged(_) => 6,
            WatchStatus::TooLarge => 7,
            WatchStatus::NoMemory => 8,
        }
    }
}
