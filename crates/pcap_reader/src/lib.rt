//! A classic capture file ("pcap"), read in place: draft-ietf-opsawg-pcap, sections 4 and 5.
//!
//! `Capture::open` reads the file header, `Capture::index` finds where each packet record begins, and
//! `Capture::record` reads one of them. Nothing is copied: `Record::captured` is a part of the file.
//!
//! A capture that is too long for the memory is read in parts: `Head::of` reads the file header from its first bytes,
//! and `Capture::part` reads the records of some bytes behind it. What is left behind them is the beginning of the next
//! part. `parts_law` says that the records of the parts are those of the file.
//!
//! Contracts see a capture as a `CaptureFile` (its bytes, byte order, unit of the fraction, link type) and an
//! index as the offsets of the records and the length of the tail. `specs/Records.antt` says which records a
//! file has: it is cut into a file header, records, and a rest that begins with no whole record.
#![tactic(auto)]

mod capture;
mod front;
mod head;
mod header;
mod index;
mod laws;
mod record;

pub use capture::{CAPTURE_LIMIT, Capture};
pub use front::MOST_CAPTURED;
pub use head::{CaptureError, Head};
pub use header::FILE_HEADER;
pub use index::{IndexError, RecordIndex};
pub use laws::parts_law;
pub use no_memory::NoMemory;
pub use octets::Endianness;
pub use record::Record;
