//! What can be wrong with a stream.

ghost use Rattle.std.specs.Prelude.{◌≡◌};
ghost use Rattle.ipfix_reader.specs.declared.fault.StreamError.TheVariants.{NoMemory as OutOfMemory};

use no_memory::NoMemory;
use std::alloc::{AllocError, AllocFailed};

/// The first fault of a stream of messages, in their order. `at` is an offset in the stream: that of the message, the
/// set or the record at fault, or of the padding.
#[derive(Clone, Copy, Debug, PartialEq, Eq)]
pub enum StreamFault {
    /// The message's header or the message goes beyond the stream's end.
    Cut { at: u64 },
    /// The message's version isn't 10 (RFC 7011, section 3.1).
    BadVersion { at: u64 },
    /// The length of the message or of the set isn't possible, or the data record goes beyond its set's end.
    BadLength { at: u64 },
    /// The data set's template isn't known in its observation domain; `id` is its number.
    NoTemplate { at: u64, id: u16 },
    /// The template record isn't valid: it goes beyond its set's end, its number is below 256, a data record of it
    /// would take no byte, or its number of scope fields isn't from 1 to the number of all its fields.
    BadTemplate { at: u64 },
    /// The padding at the end of a set has a byte that isn't 0 (RFC 7011, section 3.3.1).
    BadPadding { at: u64 },
    /// The message's sequence number isn't the one expected in its observation domain (RFC 7011, section 3.1).
    BadSequence { at: u64 },
    /// The template record has no fields, so it withdraws a template (RFC 7011, section 8.1). This reader takes no
    /// withdrawals.
    Withdrawal { at: u64 },
}

/// Why a stream wasn't read.
#[derive(Clone, Copy, Debug, PartialEq, Eq)]
pub enum StreamError {
    /// The stream's first fault.
    Fault(StreamFault),
    /// Out of memory.
    NoMemory,
}

impl From<AllocError> for StreamError {
    ghost from_gives = { λ _ error. error ≡ OutOfMemory };

    fn from(_error: AllocError) -> StreamError {
        StreamError::NoMemory
    }
}

impl<T: Drop> From<AllocFailed<T>> for StreamError {
    ghost from_gives = { λ _ error. error ≡ OutOfMemory };

    fn from(_error: AllocFailed<T>) -> StreamError {
        StreamError::NoMemory
    }
}

impl From<NoMemory> for StreamError {
    ghost from_gives = { λ _ error. error ≡ OutOfMemory };

    fn from(_error: NoMemory) -> StreamError {
        StreamError::NoMemory
    }
}
