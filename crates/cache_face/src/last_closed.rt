//! What is known of the last cache that was closed.

ghost use Rattle.std.specs.Prelude.{◌≡◌, [], ◌++◌, IfOk, OnOk, OnErr};

use flow_parts::{Fragment, PartList};
use no_memory::NoMemory;
use std::marker::Model;
use std::snapshot::Snapshot;

/// The fragments of the last cache that was closed, none at first, as contracts see them: whoever closes a cache is
/// given them, and nothing is held here.
#[derive(Drop)]
pub struct LastClosed {
    parts: Option<Snapshot<PartList>>,
}

impl Model for LastClosed {
    ghost use Rattle.std.specs.Prelude.{List, [], unwrap_or, option_map};
    ghost use Rattle.flow_parts.specs.declared.fragment.Fragment as declared;

    ghost Value = { List declared.Fragment };

    ghost view = { λ s. unwrap_or (option_map (λ parts. parts.value) s.parts) [] };
}

impl LastClosed {
    /// No cache was closed yet.
    pub fn new() -> LastClosed
        ensures { result ≡ [] }
    {
        LastClosed { parts: None }
    }

    /// The fragments of a cache that is closed: those that were handed out, and its entries behind them. From now on it
    /// is the last one.
    ///
    /// # Errors
    ///
    /// `NoMemory` where no memory was left: the fragments are given up, and the cache before stays the last.
    pub fn closed_with(
        &mut self,
        handed: PartList,
        entries: Vec<Fragment>,
    ) -> Result<PartList, NoMemory>
        ensures closed { OnOk result (self.new ≡ handed ++ entries.items) }
        ensures given { IfOk result (λ parts. parts ≡ self.new) }
        ensures stays { OnErr result (self.new ≡ self.old) }
    {
        let mut parts = handed;
        parts.add_piece(entries)?;
        self.parts = Some(Snapshot::of(&parts));
        Ok(parts)
    }
}
