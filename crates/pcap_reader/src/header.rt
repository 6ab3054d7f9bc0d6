//! The file header.

ghost use Rattle.std.specs.Prelude.{◌≡◌, ◌≤◌, IfSome, length};
ghost use Rattle.std.specs.Option.{option_map};
ghost use Rattle.pcap_reader.specs.File.{capture_file, told_by_magic, is_version_2_4};
ghost use Rattle.pcap_reader.specs.Views.{file_with};

use octets::Endianness;

/// The length of the file header, in octets.
pub const FILE_HEADER: usize = 24;

/// What a file header tells.
#[derive(Clone, Copy)]
pub(crate) struct FileHeader {
    pub(crate) order: Endianness,
    pub(crate) nanos: bool,
    pub(crate) link: u32,
}

/// What a magic number tells: the order of the bytes in all other fields, and whether fractions are nanoseconds.
fn told_by(magic: u32) -> Option<(Endianness, bool)>
    ensures { result ≡ told_by_magic magic }
{
    match magic {
        0xd4c3_b2a1 => Some((Endianness::Little, false)),
        0xa1b2_c3d4 => Some((Endianness::Big, false)),
        0x4d3c_b2a1 => Some((Endianness::Little, true)),
        0xa1b2_3c4d => Some((Endianness::Big, true)),
        _ => None,
    }
}

/// Whether the version is 2.4.
fn has_version_2_4(order: Endianness, bytes: &[u8]) -> bool
    requires { 24 ≤ length bytes.now }
    ensures { result ≡ is_version_2_4 order bytes.now }
{
    order.u16_at(bytes, 4) == 2 && order.u16_at(bytes, 6) == 4
}

/// The file header at the beginning of the bytes, if there is one.
#[tactic(auto, unfolding(crate::specs::File::capture_file))]
pub(crate) fn read_header(bytes: &[u8]) -> Option<FileHeader>
    ensures file { option_map (file_with bytes.now) result ≡ capture_file bytes.now }
    ensures whole { IfSome result (λ _. 24 ≤ length bytes.now) }
{
    if bytes.len() < FILE_HEADER {
        return None;
    }
    let (order, nanos) = told_by(Endianness::Big.u32_at(bytes, 0))?;
    if !has_version_2_4(order, bytes) {
        return None;
    }
    let link = order.u32_at(bytes, 20);
    Some(FileHeader { order, nanos, link })
}
