//! Whole schedules.

ghost use Rattle.std.specs.Prelude.{◌≡◌, ℕ, ◌++◌, ◌∷◌, [], Ok, Err, List, IfOk, OnOk, MatchResult};
ghost use Rattle.pebr_core.specs.Kept.{IsWithinLimits};
ghost use Rattle.pebr_core.specs.declared.kinds.Shape.{Shape};
ghost use Rattle.pebr_core.specs.declared.kinds.Step.{Step};
ghost use Rattle.pebr_schedule.specs.Spelled.{IsPrintable, AreWritable, spelled_text};
ghost use Rattle.pebr_schedule.specs.Numbers.{pieces_of};
ghost use Rattle.pebr_schedule.specs.Grammar.{steps_of, schedule_of};

use crate::grammar::{shape_of, step_of};
use crate::pieces::cut;
use pebr_core::{NoMemory, Shape, Step};
use std::alloc::Global;

/// A schedule: the shape of a core, and steps.
#[derive(Debug, Drop)]
pub struct Schedule {
    /// The shape of the core that the steps begin with.
    pub shape: Shape,
    /// The steps, in order.
    pub steps: Vec<Step>,
}

/// Why a text isn't read.
#[derive(Clone, Copy, PartialEq, Eq, Debug)]
pub enum ScheduleError {
    /// The number of the first line that isn't of the grammar, counted from 1.
    BadLine(u64),
    /// Out of memory.
    NoMemory,
}

/// Reads a schedule. Each schedule has exactly one text: a line `core R N H B W`, and a line for each
/// step, of its name and its numbers, in decimal and with one space between them; each line ends with
/// a line feed. The numbers of a step are at most 65,535, but a value to write is any number below
/// 2^64. The shape has 1 to 64 roots, 1 to 16 seats, 1 to 8 shields of a seat, a batch of 1 to 64 and
/// 1 to 10 words of a slot. Whether the steps are enabled isn't looked at.
///
/// # Errors
///
/// `BadLine(n)` where line n, counted from 1, is the first that isn't such a line; an empty text lacks
/// line 1, and a rest without a line feed isn't a line. `NoMemory` where memory runs out.
pub fn read_schedule(alloc: Global, text: &[u8]) -> Result<Schedule, ScheduleError>
    ensures read { IfOk result (λ schedule. schedule_of text.now ≡ Ok (schedule.shape, schedule.steps.items)) }
    ensures bad { (number : ℕ) → result ≡ Err (ScheduleError.BadLine number) → schedule_of text.now ≡ Err number }

    // What is read has the spelling of `spelled_text`, and what has this spelling is read.
    ensures spelled { IfOk result (λ schedule. text.now ≡ spelled_text schedule.shape schedule.steps.items) }
    ensures printable { IfOk result (λ schedule. IsPrintable schedule.shape) }
    ensures writable { IfOk result (λ schedule. AreWritable schedule.steps.items) }
    ensures only { (shape : Shape) (steps : List Step) → IsPrintable shape → AreWritable steps
        → text.now ≡ spelled_text shape steps
        → MatchResult result (λ schedule. (schedule.shape ≡ shape) × (schedule.steps.items ≡ steps))
        (λ error. error ≡ ScheduleError.NoMemory) }
    ensures limits { IfOk result (λ schedule. IsWithinLimits schedule.shape) }
{
    read_lines(alloc, text)
}

/// Reads the lines of a text, counted from 1, up to the first bad one.
fn read_lines(alloc: Global, text: &[u8]) -> Result<Schedule, ScheduleError>
    ensures read { IfOk result (λ schedule. schedule_of text.now ≡ Ok (schedule.shape, schedule.steps.items)) }
    ensures bad { (number : ℕ) → result ≡ Err (ScheduleError.BadLine number) → schedule_of text.now ≡ Err number }
    ensures limits { IfOk result (λ schedule. IsWithinLimits schedule.shape) }
{
    let (line, rest) = cut(text, b'\n');
    let Some(rest) = rest else {
        return Err(ScheduleError::BadLine(1));
    };
    match shape_of(alloc, line) {
        Err(NoMemory) => Err(ScheduleError::NoMemory),
        Ok(None) => Err(ScheduleError::BadLine(1)),
        Ok(Some(shape)) => match read_steps(alloc, rest) {
            Ok(steps) => Ok(Schedule { shape, steps }),
            Err(error) => Err(error),
        },
    }
}

/// Reads the lines of steps, which begin with line 2.
fn read_steps(alloc: Global, text: &[u8]) -> Result<Vec<Step>, ScheduleError>
    ensures read { IfOk result (λ steps. steps_of 2 (pieces_of 10 text.now) ≡ Ok steps.items) }
    ensures bad { (number : ℕ) → result ≡ Err (ScheduleError.BadLine number)
        → steps_of 2 (pieces_of 10 text.now) ≡ Err number }
{
    let mut steps = Vec::new(alloc);
    let mut number = 2u64;
    let mut rest = text;
    loop {
        let (line, after) = cut(rest, b'\n');
        let Some(after) = after else {
            return if line.is_empty() {
                Ok(steps)
            } else {
                Err(ScheduleError::BadLine(number))
            };
        };
        match step_of(alloc, line) {
            Err(NoMemory) => return Err(ScheduleError::NoMemory),
            Ok(None) => return Err(ScheduleError::BadLine(number)),
            Ok(Some(step)) => match push(&mut steps, step) {
                Err(NoMemory) => return Err(ScheduleError::NoMemory),
                Ok(()) => {}
            },
        }
        rest = after;
        number += 1;
    }
}

/// Appends a step to the others.
fn push(steps: &mut Vec<Step>, step: Step) -> Result<(), NoMemory>
    ensures { OnOk result (steps.new.items ≡ steps.old.items ++ step ∷ []) }
{
    steps.push(step)?;
    Ok(())
}
