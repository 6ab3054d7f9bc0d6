//! The settings of a run.

ghost use Rattle.std.specs.Prelude.{◌≤◌};
ghost use Rattle.ipfix_model.specs.Sizes.{template_message_length};

/// One share of several. Each key falls to one share, by its hash.
#[derive(Clone, Copy, Debug, PartialEq, Eq)]
pub struct Share {
    /// Its number, counted from 1.
    pub number: u64,
    /// How many there are, at most 4,096.
    pub count: u64,
    pub ghost bounds: { (1 ≤ number) × (number ≤ count) × (count ≤ 4096) },
}

/// What the words of the command line ask for, besides the files.
#[derive(Clone, Copy, Debug, PartialEq, Eq)]
pub struct JoinSettings {
    /// The idle time-out in seconds, from 1 to 86,400.
    pub idle: u32,
    /// The active time-out in seconds, from 1 to 86,400.
    pub active: u32,
    /// The most octets of a message, from 116 to 65,535.
    pub size: u32,
    /// The share whose records are kept; `None` keeps all records.
    pub share: Option<Share>,
    pub ghost idle_bounds: { (1 ≤ idle) × (idle ≤ 86400) },
    pub ghost active_bounds: { (1 ≤ active) × (active ≤ 86400) },
    pub ghost size_bounds: { (template_message_length ≤ size) × (size ≤ 65535) },
}
