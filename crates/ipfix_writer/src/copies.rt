//! Room for records that threads copy out of a list, beside the one that writes them.

ghost use Rattle.std.specs.Prelude.{◌≡◌, ◌<◌, ◌≤◌, ◌-◌, ◌↔◌, min, length, All, IfOk, IsTrue};
ghost use Rattle.ipfix_writer.specs.Copies.{IsWhole};

use no_memory::NoMemory;
use record_ledger::{RUN, Run};
use std::alloc::Global;
use std::marker::Model;

/// How many runs a part has.
const PART: usize = 256;

/// How many records a part has room for.
pub const PART_RECORDS: usize = PART * RUN;

/// The most threads that copy beside the one that writes.
const MOST_COPIERS: usize = 3;

/// Where there are fewer records than so many, one thread does all.
const FEW_RECORDS: usize = 16_384;

/// Room for copies of records: a part for each thread that copies, of those that are written now, and another, of those
/// that it copies meanwhile. Contracts see it as the number of these threads: none, where one thread does all.
#[derive(Drop)]
pub struct CopyRoom {
    pub(crate) current: Vec<Vec<Run>>,
    pub(crate) next: Vec<Vec<Run>>,
}

impl Model for CopyRoom {
    ghost use Rattle.std.specs.Prelude.{◌≡◌, ℕ, length, All};
    ghost use Rattle.ipfix_writer.specs.Copies.{IsWhole};

    ghost Value = { ℕ };

    ghost view = { λ r. length r.current.items };

    ghost invariant = { λ r. All IsWhole r.current.items × All IsWhole r.next.items
        × (length r.next.items ≡ length r.current.items) };
}

impl CopyRoom {
    /// Room for so many threads, the one that writes among them, where so many records are to be written: for each
    /// other thread, at most three, two parts of 4,096 records; and none for fewer than 16,384 records. That is all
    /// memory that copying takes.
    ///
    /// `NoMemory` where it can't be had.
    pub fn open(alloc: Global, threads: usize, records: usize) -> Result<CopyRoom, NoMemory>
        ensures few { records < 16384 → IfOk result (λ room. room ≡ 0) }
        ensures many { 16384 ≤ records → IfOk result (λ room. room ≡ min (threads - 1) 3) }
    {
        let copiers = if records < FEW_RECORDS {
            0
        } else {
            threads.saturating_sub(1).min(MOST_COPIERS)
        };
        Ok(CopyRoom {
            current: empty_parts(alloc, copiers)?,
            next: empty_parts(alloc, copiers)?,
        })
    }

    /// Whether one thread does all.
    pub(crate) fn is_empty(&self) -> bool
        ensures { IsTrue result ↔ (self.now ≡ 0) }
    {
        self.current.is_empty()
    }
}

/// So many parts, without records yet.
fn empty_parts(alloc: Global, count: usize) -> Result<Vec<Vec<Run>>, NoMemory>
    ensures many { IfOk result (λ parts. length parts.items ≡ count) }
    ensures whole { IfOk result (λ parts. All IsWhole parts.items) }
{
    let mut parts = Vec::with_capacity(alloc, count)?;
    for _made in 0..count {
        parts.push(empty_part(alloc)?)?;
    }
    Ok(parts)
}

/// A part without records yet.
fn empty_part(alloc: Global) -> Result<Vec<Run>, NoMemory>
    ensures { IfOk result IsWhole }
{
    let mut part = Vec::with_capacity(alloc, PART)?;
    for _made in 0..PART {
        part.push(Run::empty())?;
    }
    Ok(part)
}
