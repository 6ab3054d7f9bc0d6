//! The text that a run writes.

ghost use Rattle.std.specs.Prelude.{◌≡◌, ◌++◌, flat_map, OnOk, IfOk};
ghost use Rattle.watch_program.specs.Lines.{number_text, line_of, total_line, text_of};

use crate::answer::Answer;
use flow_parts::Fragment;
use no_memory::NoMemory;
use plain_text::{append, append_numbered};
use std::alloc::Global;

/// Appends a space and a number.
fn append_number(text: &mut Vec<u8>, number: u64) -> Result<(), NoMemory>
    ensures { OnOk result (text.new.items ≡ text.old.items ++ number_text number) }
{
    append_numbered(text, b" ", number)
}

/// Appends the line of a flow that was held: its packets and octets, and its first and last time in milliseconds.
#[tactic(auto, unfolding(crate::specs::Lines::line_of))]
fn append_held(text: &mut Vec<u8>, flow: &Fragment) -> Result<(), NoMemory>
    ensures { OnOk result (text.new.items ≡ text.old.items ++ line_of (Answer.Held flow.now)) }
{
    append(text, b"held")?;
    append_number(text, flow.packets)?;
    append_number(text, flow.octets)?;
    append_number(text, flow.first)?;
    append_number(text, flow.last)?;
    append(text, b"\n")
}

/// Appends the line of an ask.
#[tactic(auto, unfolding(crate::specs::Lines::line_of))]
fn append_line(text: &mut Vec<u8>, answer: &Answer) -> Result<(), NoMemory>
    ensures { OnOk result (text.new.items ≡ text.old.items ++ line_of answer.now) }
{
    match answer {
        Answer::Held(flow) => append_held(text, flow),
        Answer::Absent => append(text, b"absent\n"),
        Answer::Lost => append(text, b"lost\n"),
    }
}

/// Appends the line of the total.
#[tactic(auto, unfolding(crate::specs::Lines::total_line))]
fn append_total(text: &mut Vec<u8>, packets: u64, octets: u64) -> Result<(), NoMemory>
    ensures { OnOk result (text.new.items ≡ text.old.items ++ total_line packets octets) }
{
    append(text, b"total")?;
    append_number(text, packets)?;
    append_number(text, octets)?;
    append(text, b"\n")
}

/// Appends a line for each ask.
fn append_lines(text: &mut Vec<u8>, answers: &[Answer]) -> Result<(), NoMemory>
    ensures { OnOk result (text.new.items ≡ text.old.items ++ flat_map line_of answers.now) }
{
    for answer in answers {
        append_line(text, answer)?;
    }
    Ok(())
}

/// The text: a line for each ask, and the line of the total.
///
/// `NoMemory`: out of memory.
pub(crate) fn text_of(
    alloc: Global,
    answers: &[Answer],
    packets: u64,
    octets: u64,
) -> Result<Vec<u8>, NoMemory>
    ensures { IfOk result (λ text. text.items ≡ text_of answers.now packets octets) }
{
    let mut text = Vec::new(alloc);
    append_lines(&mut text, answers)?;
    append_total(&mut text, packets, octets)?;
    Ok(text)
}
