//! A part of a stream, and where it stands.

ghost use Rattle.std.specs.Prelude.{◌≡◌, ◌+◌, ◌<◌, ◌≤◌, ◌^◌, length};

/// Bytes of a stream, and the offset in it of the first of them.
#[derive(Clone, Copy)]
pub struct Cursor<'a> {
    pub at: u64,
    pub bytes: &'a [u8],
    pub ghost countable: { at + length bytes.now < 2 ^ 64 },
}

impl<'a> Cursor<'a> {
    ghost use Rattle.ipfix_reader.specs.Part.{behind, first_part, are_zeros};
    ghost use Rattle.octets.specs.Numbers.{number_at};
    ghost use Rattle.ipfix_reader.specs.Cursors.{part_of};

    /// How many bytes there are.
    #[inline]
    pub fn len(self) -> usize
        ensures { result ≡ length self.entry.bytes.now }
    {
        self.bytes.len()
    }

    /// What lies behind the first `size` bytes.
    #[inline]
    pub fn behind(self, size: usize) -> Cursor<'a>
        requires { size ≤ length self.bytes.now }
        ensures { part_of result ≡ behind size (part_of self.entry) }
    {
        let (_, bytes) = self.bytes.split_at(size);
        Cursor {
            at: self.at + size as u64,
            bytes,
        }
    }

    /// The first `size` bytes.
    #[inline]
    pub fn first_part(self, size: usize) -> Cursor<'a>
        requires { size ≤ length self.bytes.now }
        ensures { part_of result ≡ first_part size (part_of self.entry) }
    {
        let (bytes, _) = self.bytes.split_at(size);
        Cursor { at: self.at, bytes }
    }

    /// The big-endian number in the two bytes from `place` on.
    #[inline]
    pub fn u16_at(self, place: usize) -> u16
        requires { place + 2 ≤ length self.bytes.now }
        ensures { result ≡ number_at place 2 self.entry.bytes.now }
    {
        octets::u16_at(self.bytes, place)
    }

    /// The big-endian number in the four bytes from `place` on.
    #[inline]
    pub fn u32_at(self, place: usize) -> u32
        requires { place + 4 ≤ length self.bytes.now }
        ensures { result ≡ number_at place 4 self.entry.bytes.now }
    {
        octets::u32_at(self.bytes, place)
    }

    /// Whether all bytes are 0.
    pub fn is_zeros(self) -> bool
        ensures { result ≡ are_zeros self.entry.bytes.now }
    {
        self.bytes.iter().all(|byte| *byte == 0)
    }
}
