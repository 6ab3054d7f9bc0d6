//! What a call of `meter_part` or `meter` answers.

use flow_parts::Fragment;

/// What became of a fragment that was put in.
#[derive(Clone, Copy, PartialEq, Eq, Debug)]
pub enum How {
    /// An entry of its flow took it in.
    Joined,
    /// It opened an empty entry.
    Opened,
    /// An entry's fragment was put out, and it opened that entry anew.
    Replaced,
    /// Other seats were in the way three times: the fragment itself is handed out, and no entry changed.
    PassedBy,
}

/// The answer of `meter_part` and `meter`: what became of the fragment, and the fragment that is handed out.
#[derive(Clone, Copy, Debug)]
pub struct Metered {
    pub how: How,
    pub out: Option<Fragment>,
}
