//! A capture file of the next generation ("pcapng"), read in place: draft-ietf-opsawg-pcapng, sections 3 and 4.
//!
//! `PngCapture::open` checks the first section header, `PngCapture::index` goes over all blocks and finds the packets,
//! and `PngCapture::record` reads one of them, with the link type and the clock of its interface. Nothing is copied:
//! the captured octets of a record are a part of the file.
//!
//! `specs/Blocks.antt` says which blocks a file has, `specs/Options.antt` which options a block has, and
//! `specs/Reading.antt` what they tell: the interfaces of a section, and the records of the packets.
//! [`run_tallied`] is the whole run; its [`PngTally`] says what was written and what was left out, by cause.
#![tactic(auto)]

mod capture;
mod content;
mod front;
mod index;
mod interface;
mod laws;
mod options;
mod record;
mod running;
mod status;
mod tally;
mod time;
mod writing;

pub use capture::{NotPcapng, PngCapture, PngFault};
pub use index::PngIndex;
pub use laws::blocks_law;
pub use record::PngRecord;
pub use running::{run_png, run_tallied};
pub use status::PngStatus;
pub use tally::PngTally;
