//! The text of a replay.

ghost use Rattle.std.specs.Prelude.{◌≡◌, ℕ, ◌<◌, ◌++◌, decimal, flat_map, codes, IfOk, OnOk, [], if◌then◌else◌};
ghost use Rattle.std.specs.List.{range_with_len};
ghost use Rattle.pebr_core.specs.State.{slot_count, seat_at};
ghost use Rattle.pebr_schedule.specs.Printed.{answer_text, line, status_text, fresh_item, retired_item, shield_item};
ghost use Rattle.pebr_schedule.specs.Printed.{fresh_list, retired_list, shield_list, root_line, seat_line, state_text};
ghost use Rattle.pebr_schedule.specs.Printed.{printed_text};

use pebr_core::{Answer, Core, NoMemory, Replayed, Retired, ShieldAt, Stance};
use plain_text::{append, append_numbered};
use std::alloc::Global;

/// Adds what is printed of an answer.
fn put_answer(out: &mut Vec<u8>, answer: Answer) -> Result<(), NoMemory>
    ensures { OnOk result (out.new.items ≡ out.old.items ++ answer_text answer) }
{
    match answer {
        Answer::Epoch(epoch) => append_numbered(out, b"epoch ", epoch),
        Answer::In(epoch) => append_numbered(out, b"in ", epoch),
        Answer::Out => append(out, b"out"),
        Answer::Lost => append(out, b"lost"),
        Answer::Passed => append(out, b"passed"),
        Answer::Ejected => append(out, b"ejected"),
        Answer::Slot(slot) => append_numbered(out, b"slot ", slot as u64),
        Answer::Set => append(out, b"set"),
        Answer::Valid => append(out, b"valid"),
        Answer::Cleared => append(out, b"cleared"),
        Answer::Word(word) => append_numbered(out, b"word ", word),
        Answer::Written => append(out, b"written"),
        Answer::Replaced => append(out, b"replaced"),
        Answer::Other => append(out, b"other"),
        Answer::Empty => append(out, b"empty"),
        Answer::Holds(slot) => append_numbered(out, b"holds ", slot as u64),
        Answer::Given(given, left) => {
            append_numbered(out, b"given ", given as u64)?;
            append_numbered(out, b" left ", left as u64)
        }
    }
}

/// Adds the status of a seat.
fn put_status(out: &mut Vec<u8>, status: Stance) -> Result<(), NoMemory>
    ensures { OnOk result (out.new.items ≡ out.old.items ++ status_text status) }
{
    match status {
        Stance::Out => append(out, b"out"),
        Stance::In(epoch) => append_numbered(out, b"in ", epoch),
        Stance::Ejected(epoch) => append_numbered(out, b"ejected ", epoch),
    }
}

/// Adds a slot, if it is retired, and its tag.
fn put_retired(out: &mut Vec<u8>, slot: usize, retired: Retired) -> Result<(), NoMemory>
    ensures { OnOk result (out.new.items ≡ out.old.items ++ retired_item slot retired) }
{
    match retired {
        Retired::No => Ok(()),
        Retired::Untagged => append_numbered(out, b" ", slot as u64),
        Retired::Tagged(tag) => {
            append_numbered(out, b" ", slot as u64)?;
            append_numbered(out, b"@", tag)
        }
    }
}

/// Adds a shield.
fn put_shield(out: &mut Vec<u8>, shield: ShieldAt) -> Result<(), NoMemory>
    ensures { OnOk result (out.new.items ≡ out.old.items ++ shield_item shield) }
{
    match shield {
        ShieldAt::Down => append(out, b" -"),
        ShieldAt::Set(slot) => append_numbered(out, b" s", slot as u64),
        ShieldAt::Valid(slot) => append_numbered(out, b" v", slot as u64),
    }
}

/// Adds a line for each answer.
fn put_answers(out: &mut Vec<u8>, answers: &[Answer]) -> Result<(), NoMemory>
    ensures { OnOk result (out.new.items ≡ out.old.items
        ++ flat_map (λ answer. line (answer_text answer)) answers.now) }
{
    for answer in answers {
        put_answer(out, *answer)?;
        append(out, b"\n")?;
    }
    Ok(())
}

/// Adds a slot, if it is fresh.
fn put_fresh_item(out: &mut Vec<u8>, slot: usize, is_fresh: bool) -> Result<(), NoMemory>
    ensures { OnOk result (out.new.items ≡ out.old.items ++ (if is_fresh then codes " " ++ decimal slot else [])) }
{
    if is_fresh {
        append_numbered(out, b" ", slot as u64)
    } else {
        Ok(())
    }
}

/// Adds the fresh slots of a seat.
fn put_fresh(out: &mut Vec<u8>, core: &Core, seat: usize) -> Result<(), NoMemory>
    requires { seat < core.now.shape.seats }
    ensures { OnOk result (out.new.items ≡ out.old.items
        ++ fresh_list (slot_count core.now.shape) (seat_at core.now seat)) }
{
    for slot in 0..core.slot_count() {
        put_fresh_item(out, slot, core.is_fresh(seat, slot))?;
    }
    Ok(())
}

/// Adds the retired slots of a seat.
fn put_retired_list(out: &mut Vec<u8>, core: &Core, seat: usize) -> Result<(), NoMemory>
    requires { seat < core.now.shape.seats }
    ensures { OnOk result (out.new.items ≡ out.old.items
        ++ retired_list (slot_count core.now.shape) (seat_at core.now seat)) }
{
    for slot in 0..core.slot_count() {
        put_retired(out, slot, core.retired(seat, slot))?;
    }
    Ok(())
}

/// Adds the shields of a seat.
fn put_shields(out: &mut Vec<u8>, core: &Core, seat: usize) -> Result<(), NoMemory>
    requires { seat < core.now.shape.seats }
    ensures { OnOk result (out.new.items ≡ out.old.items
        ++ shield_list core.now.shape.shields (seat_at core.now seat)) }
{
    for place in 0..core.shape().shields {
        put_shield(out, core.shield(seat, place))?;
    }
    Ok(())
}

/// Adds the line of a seat.
fn put_seat(out: &mut Vec<u8>, core: &Core, seat: usize) -> Result<(), NoMemory>
    requires { seat < core.now.shape.seats }
    ensures { OnOk result (out.new.items ≡ out.old.items ++ seat_line core.now seat) }
{
    append_numbered(out, b"seat ", seat as u64)?;
    append(out, b" ")?;
    put_status(out, core.status(seat))?;
    append_numbered(out, b" noted ", core.noted(seat))?;
    append(out, b" fresh")?;
    put_fresh(out, core, seat)?;
    append(out, b" retired")?;
    put_retired_list(out, core, seat)?;
    append(out, b" shields")?;
    put_shields(out, core, seat)?;
    append(out, b"\n")
}

/// Adds the line of a root.
fn put_root(out: &mut Vec<u8>, core: &Core, root: usize) -> Result<(), NoMemory>
    requires { root < core.now.shape.roots }
    ensures { OnOk result (out.new.items ≡ out.old.items ++ root_line core.now root) }
{
    append_numbered(out, b"root ", root as u64)?;
    append_numbered(out, b" slot ", core.root(root) as u64)?;
    append(out, b"\n")
}

/// Adds the lines of all roots.
fn put_roots(out: &mut Vec<u8>, core: &Core) -> Result<(), NoMemory>
    ensures { OnOk result (out.new.items ≡ out.old.items
        ++ flat_map (root_line core.now) (range_with_len 0 core.now.shape.roots)) }
{
    for root in 0..core.shape().roots {
        put_root(out, core, root)?;
    }
    Ok(())
}

/// Adds the lines of all seats.
fn put_seats(out: &mut Vec<u8>, core: &Core) -> Result<(), NoMemory>
    ensures { OnOk result (out.new.items ≡ out.old.items
        ++ flat_map (seat_line core.now) (range_with_len 0 core.now.shape.seats)) }
{
    for seat in 0..core.shape().seats {
        put_seat(out, core, seat)?;
    }
    Ok(())
}

/// Adds what is printed of a state.
fn put_state(out: &mut Vec<u8>, core: &Core) -> Result<(), NoMemory>
    ensures { OnOk result (out.new.items ≡ out.old.items ++ state_text core.now) }
{
    append_numbered(out, b"epoch ", core.epoch())?;
    append(out, b"\n")?;
    put_roots(out, core)?;
    put_seats(out, core)
}

/// The text of a replay: a line for each answer; then a line for the epoch, a line for each root, and
/// a line for each seat with its status, its noted epoch, its fresh and retired slots and its shields.
///
/// # Errors
///
/// `NoMemory` where memory runs out.
pub fn print(alloc: Global, replayed: &Replayed) -> Result<Vec<u8>, NoMemory>
    ensures { IfOk result (λ text. text.items ≡ printed_text replayed.now.answers.items replayed.now.core) }
{
    let mut out = Vec::new(alloc);
    put_answers(&mut out, &replayed.answers)?;
    put_state(&mut out, &replayed.core)?;
    Ok(out)
}
