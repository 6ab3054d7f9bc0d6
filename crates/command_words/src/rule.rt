//! The options of a command.

/// One option of a command: `--name value` or `--name=value`.
#[derive(Clone, Copy, Debug)]
pub struct OptionRule<'a> {
    /// The name, without the two hyphens.
    pub name: &'a str,
    /// The least value that is allowed.
    pub low: u64,
    /// The greatest value that is allowed.
    pub high: u64,
    /// The value where the option isn't given; `None` where it must be given.
    pub default: Option<u64>,
}
