//! A flow's key, its words, its set and its order.

ghost use Rattle.std.specs.Prelude.{◌≡◌, ◌≢◌, ℕ, ◌+◌, ◌<◌, ◌≤◌, ◌^◌, ◌*◌, ◌/◌, ◌%◌, Some, IfSome, IsNone};

use std::cmp::Ordering;

/// The key of a flow (RFC 7011, section 2: the properties that define a flow).
///
/// Addresses are numbers: the octets of the address field read in network order. The ports are 0 where a
/// packet has none. The addresses stand first, so that no padding lies between the fields.
#[derive(Clone, Copy, PartialEq, Eq, Hash, Debug)]
pub struct FlowKey {
    /// The source address; below 2^32 for version 4.
    pub source: u128,
    /// The destination address; below 2^32 for version 4.
    pub destination: u128,
    /// The IP version, 4 or 6.
    pub version: u8,
    /// The protocol number of the IANA registry.
    pub protocol: u8,
    /// The source port, or 0.
    pub source_port: u16,
    /// The destination port, or 0.
    pub destination_port: u16,
    pub ghost known: { version ≢ 4 → version ≡ 6 },
    pub ghost narrow: { version ≡ 4 → (source < 2 ^ 32) × (destination < 2 ^ 32) },
    // The widths of the fields, for clauses, in which a number has no width.
    pub ghost sized: { (source < 2 ^ 128) × (destination < 2 ^ 128)
        × (protocol < 2 ^ 8) × (source_port < 2 ^ 16) × (destination_port < 2 ^ 16) },
}

/// The multiplier that [`FlowKey::set_of`] mixes each word with: 2^64 divided by the golden ratio, rounded down.
const MULTIPLIER: u64 = 0x9E37_79B9_7F4A_7C15;

/// The remainder of a division by `sets`: by a mask where that is a power of two.
#[inline]
fn remainder(number: u64, sets: u64) -> u64
    requires { 1 ≤ sets }
    ensures { result ≡ number % sets }
{
    let power = 1u64 << sets.trailing_zeros().min(63);
    if power == sets {
        number & (power - 1)
    } else {
        number % sets
    }
}

impl FlowKey {
    ghost use Rattle.flow_key.specs.Key.{words_of, set_number, key_order};
    ghost use Rattle.flow_key.specs.Fields.{fields_in, IsKeyOf};
    ghost use Rattle.flow_key.specs.KeyWith.{key_with};

    /// The key as five words of 64 bits. The first has, from its upper end down, the version, the protocol, the source
    /// port and the destination port. Then come the upper and the lower half of the source address, and those of the
    /// destination address.
    pub fn to_words(&self) -> [u64; 5]
        ensures { result ≡ words_of self.now }
    {
        let ports = (self.source_port as u64) << 16 | self.destination_port as u64;
        let transport = (self.protocol as u64) << 32 | ports;
        [
            (self.version as u64) << 40 | transport,
            upper_half(self.source),
            lower_half(self.source),
            upper_half(self.destination),
            lower_half(self.destination),
        ]
    }

    /// The key that has these words, as [`FlowKey::to_words`] gives them; `None` where no key has them.
    pub fn of_words(words: &[u64; 5]) -> Option<FlowKey>
        ensures fields { IsKeyOf (fields_in words.now) result }
        ensures some { IfSome result (λ key. words_of key ≡ words.now) }
        ensures none { IsNone result → (key : FlowKey) → words_of key ≢ words.now }
        ensures round_trip { (key : FlowKey) → words_of key ≡ words.now → result ≡ Some key }
    {
        let [
            first,
            source_high,
            source_low,
            destination_high,
            destination_low,
        ] = *words;
        let version = first >> 40;
        let source = address_of(source_high, source_low);
        let destination = address_of(destination_high, destination_low);
        let narrow = source >> 32 == 0 && destination >> 32 == 0;
        if version == 6 || version == 4 && narrow {
            Some(FlowKey {
                version: version as u8,
                source,
                destination,
                protocol: (first >> 32 & 0xFF) as u8,
                source_port: (first >> 16 & 0xFFFF) as u16,
                destination_port: (first & 0xFFFF) as u16,
            })
        } else {
            None
        }
    }

    /// The number of the set that the key belongs to, counted from 0, in a table of `sets` sets.
    ///
    /// Each word of the key is taken into a hash by `xor` and a product modulo 2^64; the upper half of the
    /// hash, modulo `sets`, is the answer: without a division where `sets` is a power of two.
    #[inline]
    pub fn set_of(&self, sets: u64) -> u64
        requires { 1 ≤ sets }
        ensures number { result ≡ set_number self.now sets }
        ensures below { result < sets }
    {
        let mut hash = 0u64;
        for word in self.to_words() {
            hash = (hash ^ word).wrapping_mul(MULTIPLIER);
        }
        remainder(hash >> 32, sets)
    }

    /// How this key and another stand in the order of keys: by version, source address, destination address, protocol,
    /// source port and destination port, the first that differs.
    pub fn order(&self, other: &FlowKey) -> Ordering
        ensures { result ≡ key_order self.now other.now }
    {
        let addresses = self
            .version
            .cmp(&other.version)
            .then(self.source.cmp(&other.source))
            .then(self.destination.cmp(&other.destination));
        if addresses != Ordering::Equal {
            return addresses;
        }
        self.protocol
            .cmp(&other.protocol)
            .then(self.source_port.cmp(&other.source_port))
            .then(self.destination_port.cmp(&other.destination_port))
    }
}

/// The upper half of an address.
fn upper_half(address: u128) -> u64
    ensures { result ≡ address / 2 ^ 64 }
{
    (address >> 64) as u64
}

/// The lower half of an address.
fn lower_half(address: u128) -> u64
    ensures { result ≡ address % 2 ^ 64 }
{
    (address & u64::MAX as u128) as u64
}

/// The address with these two halves.
fn address_of(high: u64, low: u64) -> u128
    ensures { result ≡ high * 2 ^ 64 + low }
{
    (high as u128) << 64 | low as u128
}
