//! What the file header of a capture tells.

ghost use Rattle.std.specs.Prelude.{◌≡◌, ◌≤◌, ◌↔◌, ℕ, None, Some, Err, IfOk, OnOk, IsSomeAnd, length};
ghost use Rattle.link_types.specs.Links.{IsKnownLink};
ghost use Rattle.pcap_reader.specs.File.{capture_file};
ghost use Rattle.pcap_reader.specs.Views.{headed_by};

use crate::header::{FileHeader, read_header};
use link_types::LinkType;
use octets::Endianness;

/// Why some bytes are not a capture that can be read.
#[derive(Clone, Copy, Debug, PartialEq, Eq)]
pub enum CaptureError {
    /// They do not begin with the file header of a classic capture.
    NotCapture,
    /// They do, and the link type is this one, which is none of Ethernet (1), raw IP (101) and Linux cooked
    /// version 1 (113).
    LinkUnknown(u32),
}

/// What a file header tells of the records behind it: the order of the bytes in their fields, whether fractions of a
/// second are nanoseconds, and the link type.
#[derive(Clone, Copy, Debug)]
pub struct Head {
    pub(crate) order: Endianness,
    pub(crate) nanos: bool,
    pub(crate) link: LinkType,
}

impl Head {
    /// The file header at the beginning of the bytes, 24 of them. Its magic number is one of four, its version is 2.4,
    /// and its link type is the whole last field, so that one with a nonzero upper half is unknown.
    ///
    /// `NotCapture`: exactly where the bytes don't begin with such a header. `LinkUnknown`: exactly where they do and
    /// the link type is none of 1, 101 and 113.
    pub fn of(bytes: &[u8]) -> Result<Head, CaptureError>
        ensures head { IfOk result (λ head. capture_file bytes.now ≡ Some (headed_by head bytes.now)) }
        ensures known { IfOk result (λ head. IsKnownLink (headed_by head bytes.now).link) }
        ensures whole { OnOk result (24 ≤ length bytes.now) }
        ensures not_capture { (result ≡ Err CaptureError.NotCapture) ↔ (capture_file bytes.now ≡ None) }
        ensures link_unknown { (n : ℕ) → (result ≡ Err (CaptureError.LinkUnknown n))
            ↔ IsSomeAnd (capture_file bytes.now) (λ file. (file.link ≡ n) × ¬ IsKnownLink n) }
    {
        let Some(header) = read_header(bytes) else {
            return Err(CaptureError::NotCapture);
        };
        let FileHeader { order, nanos, link } = header;
        match LinkType::of(link) {
            Some(link) => Ok(Head { order, nanos, link }),
            None => Err(CaptureError::LinkUnknown(link)),
        }
    }
}
