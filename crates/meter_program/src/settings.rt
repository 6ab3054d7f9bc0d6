//! The settings of commands.

ghost use Rattle.std.specs.Prelude.{◌≤◌};
ghost use Rattle.ipfix_model.specs.Sizes.{template_message_length};

/// The settings of the command `meter`.
#[derive(Clone, Copy, Debug, PartialEq, Eq)]
pub struct Settings {
    /// The idle time-out in seconds, from 1 to 86,400.
    pub idle: u32,
    /// The active time-out in seconds, from 1 to 86,400.
    pub active: u32,
    /// How many workers there are, from 1 to 64.
    pub workers: usize,
    /// How many sets the cache has, from 1 to 65,536.
    pub sets: u64,
    /// How many records a piece has, from 1 to 65,536.
    pub piece: u64,
    /// The most octets of a message, from 116 to 65,535.
    pub size: u32,
    pub ghost idle_bounds: { (1 ≤ idle) × (idle ≤ 86400) },
    pub ghost active_bounds: { (1 ≤ active) × (active ≤ 86400) },
    pub ghost workers_bounds: { (1 ≤ workers) × (workers ≤ 64) },
    pub ghost sets_bounds: { (1 ≤ sets) × (sets ≤ 65536) },
    pub ghost piece_bounds: { (1 ≤ piece) × (piece ≤ 65536) },
    pub ghost size_bounds: { (template_message_length ≤ size) × (size ≤ 65535) },
}

/// The settings of the commands `make` and `selftest`.
#[derive(Clone, Copy, Debug, PartialEq, Eq)]
pub struct Making {
    /// The seed of the capture.
    pub seed: u64,
    /// How many packets it has, from 1 to 1,000,000.
    pub packets: u32,
    /// How many keys its packets may have, from 1 to 4096.
    pub keys: u16,
    pub ghost packets_bounds: { (1 ≤ packets) × (packets ≤ 1000000) },
    pub ghost keys_bounds: { (1 ≤ keys) × (keys ≤ 4096) },
}
