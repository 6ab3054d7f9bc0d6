//! The settings of a run.

ghost use Rattle.std.specs.Prelude.{◌≤◌};
ghost use Rattle.ipfix_model.specs.Sizes.{template_message_length};

/// The settings that the words of a command line give.
#[derive(Clone, Copy, Debug, PartialEq, Eq)]
pub struct PipeSettings {
    /// The idle time-out in seconds, from 1 to 86,400.
    pub idle: u32,
    /// The active time-out in seconds, from 1 to 86,400.
    pub active: u32,
    /// How many workers there are, from 1 to 62.
    pub workers: usize,
    /// How many sets the cache has, from 1 to 65,536.
    pub sets: u64,
    /// How many batches the queue holds, from 1 to 64.
    pub queue: usize,
    /// The most bytes of a batch, from 262,184 to 4,194,304.
    pub batch: usize,
    /// The most octets of a message, from 116 to 65,535.
    pub size: u32,
    pub ghost idle_bounds: { (1 ≤ idle) × (idle ≤ 86400) },
    pub ghost active_bounds: { (1 ≤ active) × (active ≤ 86400) },
    pub ghost workers_bounds: { (1 ≤ workers) × (workers ≤ 62) },
    pub ghost sets_bounds: { (1 ≤ sets) × (sets ≤ 65536) },
    pub ghost queue_bounds: { (1 ≤ queue) × (queue ≤ 64) },
    pub ghost batch_bounds: { (262184 ≤ batch) × (batch ≤ 4194304) },
    pub ghost size_bounds: { (template_message_length ≤ size) × (size ≤ 65535) },
}
