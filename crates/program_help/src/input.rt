//! What an input is, by its first octets.

ghost use Rattle.std.specs.Prelude.{◌≡◌};
ghost use Rattle.program_help.specs.Inputs.{kind_of, begins_with};

/// What the first octets of an input say that it is.
#[derive(Clone, Copy, Debug, PartialEq, Eq)]
pub enum InputKind {
    /// It has no octets.
    Nothing,
    /// A classic pcap file.
    Capture,
    /// A pcapng file.
    Pcapng,
    /// An IPFIX stream.
    Stream,
    /// A file that gzip compressed.
    Gzip,
    /// A file that zstd compressed.
    Zstd,
    /// A file that xz compressed.
    Xz,
    /// A file that bzip2 compressed.
    Bzip2,
    /// None of these.
    Unknown,
}

/// Whether octets begin with others.
fn begins_with(octets: &[u8], front: &[u8]) -> bool
    ensures { result ≡ begins_with octets.now front.now }
{
    octets.starts_with(front)
}

/// Whether these are the first octets of a classic pcap file, in either order and of either fraction.
fn begins_capture(first: &[u8]) -> bool
    ensures { result ≡ Rattle.program_help.specs.Inputs.begins_capture first.now }
{
    begins_with(first, &[0xd4, 0xc3, 0xb2, 0xa1])
        || begins_with(first, &[0xa1, 0xb2, 0xc3, 0xd4])
        || begins_with(first, &[0x4d, 0x3c, 0xb2, 0xa1])
        || begins_with(first, &[0xa1, 0xb2, 0x3c, 0x4d])
}

/// What an input is, by its first octets: 6 tell each kind, and fewer are all of a short input.
pub fn kind_of(first: &[u8]) -> InputKind
    ensures { result ≡ kind_of first.now }
{
    if first.is_empty() {
        InputKind::Nothing
    } else if begins_capture(first) {
        InputKind::Capture
    } else if begins_with(first, &[0x0a, 0x0d, 0x0d, 0x0a]) {
        InputKind::Pcapng
    } else if begins_with(first, &[0x00, 0x0a]) {
        InputKind::Stream
    } else if begins_with(first, &[0x1f, 0x8b]) {
        InputKind::Gzip
    } else if begins_with(first, &[0x28, 0xb5, 0x2f, 0xfd]) {
        InputKind::Zstd
    } else if begins_with(first, &[0xfd, 0x37, 0x7a, 0x58, 0x5a, 0x00]) {
        InputKind::Xz
    } else if begins_with(first, &[0x42, 0x5a, 0x68]) {
        InputKind::Bzip2
    } else {
        InputKind::Unknown
    }
}
