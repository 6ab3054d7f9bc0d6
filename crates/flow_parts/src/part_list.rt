//! Fragments in pieces of one size, so that none is copied as their list grows.

ghost use Rattle.std.specs.Prelude.{◌≡◌, [], ◌∷◌, ◌++◌, IfOk, OnOk};
ghost use Rattle.flow_parts.specs.Pieces.{items_of};

use crate::fragment::Fragment;
use no_memory::NoMemory;
use std::alloc::Global;
use std::marker::Model;
use std::mem::replace;

/// How many fragments a piece has room for. That is over 32 MiB, which the C library maps by itself: room that isn't
/// filled takes no memory, and room that is freed goes back to the system.
const PIECE: usize = 350_000;

/// A list of fragments, in pieces: those before the last, and the last, which grows. Contracts see it as the list.
#[derive(Drop)]
pub struct PartList {
    full: Vec<Vec<Fragment>>,
    last: Vec<Fragment>,
}

impl Model for PartList {
    ghost use Rattle.std.specs.Prelude.{List, ◌++◌};
    ghost use Rattle.flow_parts.specs.declared.fragment.Fragment as declared;
    ghost use Rattle.flow_parts.specs.Pieces.{items_of};

    ghost Value = { List declared.Fragment };

    ghost view = { λ s. items_of s.full.items ++ s.last.items };
}

impl PartList {
    /// No fragments. Nothing is allocated.
    pub fn new(alloc: Global) -> PartList
        ensures { result ≡ [] }
    {
        PartList {
            full: Vec::new(alloc),
            last: Vec::new(alloc),
        }
    }

    /// The allocator that the list takes its memory from.
    pub fn allocator(&self) -> &Global {
        self.last.allocator()
    }

    /// Adds a fragment at the end. No fragment is copied; one call in 350,000 allocates. `NoMemory`: out of memory.
    pub fn push(&mut self, alloc: Global, part: Fragment) -> Result<(), NoMemory>
        ensures { OnOk result (self.new ≡ self.old ++ (part ∷ [])) }
    {
        if self.last.len() == self.last.capacity() {
            let next = Vec::with_capacity(alloc, PIECE)?;
            let piece = replace(&mut self.last, next);
            self.full.push(piece)?;
        }
        self.last.push(part)?;
        Ok(())
    }

    /// Adds the fragments of another list behind those of this one. None is copied. `NoMemory`: out of memory.
    pub fn append(&mut self, other: PartList) -> Result<(), NoMemory>
        ensures { OnOk result (self.new ≡ self.old ++ other) }
    {
        let PartList { full, last } = other;
        let mut full = full;
        let piece = replace(&mut self.last, last);
        self.full.push(piece)?;
        self.full.append(&mut full)?;
        Ok(())
    }

    /// Adds fragments in a piece of their own. None is copied. `NoMemory`: out of memory.
    pub fn add_piece(&mut self, piece: Vec<Fragment>) -> Result<(), NoMemory>
        ensures { OnOk result (self.new ≡ self.old ++ piece.items) }
    {
        let before = replace(&mut self.last, piece);
        self.full.push(before)?;
        Ok(())
    }

    /// The pieces of the list, in its order, so that a caller can drop one by one. `NoMemory`: out of memory.
    pub fn into_pieces(self) -> Result<Vec<Vec<Fragment>>, NoMemory>
        ensures { IfOk result (λ pieces. items_of pieces.items ≡ self) }
    {
        let PartList { full, last } = self;
        let mut full = full;
        full.push(last)?;
        Ok(full)
    }
}
