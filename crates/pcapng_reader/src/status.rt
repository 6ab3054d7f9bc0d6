//! How a run ends.

ghost use Rattle.std.specs.Prelude.{◌≡◌};
ghost use Rattle.pcapng_reader.specs.Statuses.{exit_status};

/// How a run ends. [`PngStatus::code`] is the exit status of the program.
#[derive(Clone, Copy, Debug, PartialEq, Eq)]
pub enum PngStatus {
    /// All was done.
    Done,
    /// A read failed.
    ReadFault,
    /// The words are not the one word of the command, `pcapng`.
    Usage,
    /// A write failed.
    WriteFault,
    /// The input is no pcapng file.
    NotPcapng,
    /// The block at this offset of the input is malformed or bad.
    BadBlock(u64),
    /// The input is larger than the limit.
    TooLarge,
    /// Out of memory.
    NoMemory,
}

impl PngStatus {
    /// The exit status of the program.
    pub fn code(self) -> u8
        ensures { result ≡ exit_status self }
    {
        match self {
            PngStatus::Done => 0,
            PngStatus::ReadFault => 1,
            PngStatus::Usage => 2,
            PngStatus::WriteFault => 3,
            PngStatus::NotPcapng => 4,
            PngStatus::BadBlock(_) => 6,
            PngStatus::TooLarge => 7,
            PngStatus::NoMemory => 8,
        }
    }
}
