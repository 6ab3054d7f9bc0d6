//! A tally.

ghost use Rattle.std.specs.Prelude.{◌*◌, ◌<◌, ◌^◌};
ghost use Rattle.std.specs.Option.{ForSome};

/// What some records of a capture held, in numbers.
#[derive(Clone, Copy, Debug, PartialEq, Eq)]
pub struct Tally {
    /// How many records there were.
    pub captured: u64,
    /// How many of them gave a packet.
    pub accepted: u64,
    /// How many were ignored, by cause, in the order of [`Ignored`]: no IP packet, too short, a bad header, a short
    /// transport header, a bad time.
    pub ignored: [u64; 5],
    /// The octets of the packets together.
    pub octets: u64,
    /// The latest time of a packet, in milliseconds since 1970; `None` without a packet. Its whole seconds fit 32 bits.
    pub clock: Option<u64>,
    pub ghost early: { ForSome clock (λ time. time < 1000 * 2 ^ 32) },
}
