//! The end of the words.

ghost use Rattle.std.specs.Prelude.{◌≡◌, ◌<◌, ◌≤◌, ◌++◌, ◌+◌, ◌*◌, ℕ, IfOk, OnOk, IsTrue, length, map, replicate};
ghost use Rattle.std.specs.Prelude.{slice_index, slice_set};
ghost use Rattle.std.specs.List.{range_with_len};
ghost use Rattle.std.specs.Slots.{slots_items, slots_len, IsFull};
ghost use Rattle.pebr_core.specs.State.{is_out, slot_count};
ghost use Rattle.pebr_core.specs.Kept.{IsWithinLimits};
ghost use Rattle.pebr_words.specs.Places.{word_count, roots_from, slots_from};
ghost use Rattle.pebr_words.specs.Opening.{rows_of};
ghost use Rattle.pebr_words.specs.Closing.{row_at, contents_of_roots};
ghost use Rattle.pebr_words.specs.Seats.{IsAt, IsUnited, shape_of, fixed_of, known_of, number_of, count_of, note_of};

use crate::open::{put, roots_from};
use crate::protocol::RootProtocol;
use crate::words::{Seat, Words};
use no_memory::NoMemory;
use pebr_core::Shape;
use pebr_table::Closed;
use std::alloc::Global;

/// Appends `count` words, from the word `from` on.
fn put_words(
    contents: &mut Vec<u64>,
    closed: &Closed<(), Global>,
    from: usize,
    count: usize,
) -> Result<(), NoMemory>
    requires whole { IsFull closed.now.words }
    requires within { from + count ≤ slots_len closed.now.words }
    ensures { OnOk result (contents.new.items ≡ contents.old.items
        ++ map (λ word. slice_index (slots_items closed.now.words) (from + word)) (range_with_len 0 count)) }
{
    for word in 0..count {
        let value = closed.word(from + word);
        put(contents, value)?;
    }
    Ok(())
}

/// Where the words of a root's slot begin.
fn slot_place(closed: &Closed<(), Global>, shape: Shape, root: usize) -> usize
    requires limits { IsWithinLimits shape × (root < shape.roots) }
    requires whole { IsFull closed.now.words × (slots_len closed.now.words ≡ word_count shape) }
    requires below { slice_index (slots_items closed.now.words) (roots_from shape + root) < slot_count shape }
    ensures place { result ≡ slots_from shape + slice_index (slots_items closed.now.words) (roots_from shape + root)
        * shape.width }
    ensures within { result + shape.width ≤ word_count shape }
{
    let roots_from = roots_from(shape);
    let slot = closed.word(roots_from + root) as usize;
    roots_from + shape.roots + slot * shape.width
}

/// Appends the content of a root.
fn put_root(
    contents: &mut Vec<u64>,
    closed: &Closed<(), Global>,
    shape: Shape,
    root: usize,
) -> Result<(), NoMemory>
    requires limits { IsWithinLimits shape × (root < shape.roots) }
    requires whole { IsFull closed.now.words × (slots_len closed.now.words ≡ word_count shape) }
    requires below { slice_index (slots_items closed.now.words) (roots_from shape + root) < slot_count shape }
    ensures { OnOk result (contents.new.items ≡ contents.old.items
        ++ row_at shape (slots_items closed.now.words) root) }
{
    let from = slot_place(closed, shape, root);
    put_words(contents, closed, from, shape.width)
}

/// The contents of the roots, one after another.
fn root_contents(
    alloc: Global,
    closed: &Closed<(), Global>,
    shape: Shape,
) -> Result<Vec<u64>, NoMemory>
    requires limits { IsWithinLimits shape }
    requires whole { IsFull closed.now.words × (slots_len closed.now.words ≡ word_count shape) }
    requires below { (root : ℕ) → root < shape.roots
        → slice_index (slots_items closed.now.words) (roots_from shape + root) < slot_count shape }
    ensures { IfOk result (λ contents. contents.items ≡ contents_of_roots shape (slots_items closed.now.words)) }
{
    let mut contents = Vec::with_capacity(alloc, shape.roots.saturating_mul(shape.width))?;
    for root in 0..shape.roots {
        put_root(&mut contents, closed, shape, root)?;
    }
    Ok(contents)
}

impl<P: RootProtocol> Words<P> {
    /// Ends the words, and gives the contents of the roots, one after another. The protocol keeps with these contents,
    /// with the seat's note at the number that it acts as, and with the empty note at every other.
    ///
    /// # Errors
    ///
    /// `NoMemory` where no memory was left; the contents are given up.
    pub fn close(self, alloc: Global, seat: Seat<P>) -> Result<Vec<u64>, NoMemory>
        requires at { IsAt self seat }
        requires out { IsTrue (is_out (known_of seat).status) }
        requires whole { count_of seat ≡ (shape_of self).seats }
        requires united { IsUnited P.empty seat }
        ensures length { IfOk result (λ contents. length contents.items
            ≡ (shape_of self).roots * (shape_of self).width) }
        ensures keeps { IfOk result (λ contents. P.keeps (fixed_of self) (rows_of (shape_of self) contents.items)
            (slice_set (replicate (shape_of self).seats P.empty) (number_of seat) (note_of P.first seat))) }
    {
        let Words {
            table,
            shape,
            contents: _,
        } = self;
        let Seat {
            inner,
            number: _,
            noted: _,
            slots,
            found,
        } = seat;
        drop(slots);
        drop(found);
        let closed = table.close(inner);
        let contents = root_contents(alloc, &closed, shape);
        closed.free();
        contents
    }
}
