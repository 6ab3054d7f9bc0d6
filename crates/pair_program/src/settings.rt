//! The settings of a run.

ghost use Rattle.std.specs.Prelude.{◌≤◌};
ghost use Rattle.ipfix_model.specs.Sizes.{bi_template_message_length};

/// What the words of the command line ask for.
#[derive(Clone, Copy, Debug, PartialEq, Eq)]
pub struct PairSettings {
    /// The idle time-out in seconds, from 1 to 86,400.
    pub idle: u32,
    /// The most octets of a message, from 308 to 65,535.
    pub size: u32,
    pub ghost idle_bounds: { (1 ≤ idle) × (idle ≤ 86400) },
    pub ghost size_bounds: { (bi_template_message_length ≤ size) × (size ≤ 65535) },
}
