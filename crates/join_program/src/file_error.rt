//! Why a file isn't taken.

ghost use Rattle.std.specs.Prelude.{◌≡◌};
ghost use Rattle.join_program.specs.Filed.{error_for};

use crate::status::FileFault;
use stream_input::StreamInputError;

/// Why a file isn't taken.
#[derive(Clone, Copy, Debug, PartialEq, Eq)]
pub(crate) enum FileError {
    /// Something is wrong with it.
    Fault(FileFault),
    /// Out of memory.
    NoMemory,
}

/// Why a file isn't taken that wasn't read as a stream.
impl From<StreamInputError> for FileError {
    ghost from_gives = { λ unread error. error ≡ error_for unread };

    fn from(unread: StreamInputError) -> FileError {
        match unread {
            StreamInputError::ReadFault => FileError::Fault(FileFault::ReadFault),
            StreamInputError::TooLarge => FileError::Fault(FileFault::TooLarge),
            StreamInputError::NotStream(fault) => FileError::Fault(FileFault::NotStream(fault)),
            StreamInputError::NoMemory => FileError::NoMemory,
        }
    }
}
