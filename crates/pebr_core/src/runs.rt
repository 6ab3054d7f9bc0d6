//! One step, and whole lists of steps.

ghost use Rattle.std.specs.Prelude.{◌≡◌, ℕ, ◌+◌, ◌↔◌, [], ◌∷◌, ◌++◌, Ok, Err, Some, None, IsTrue, IsOk, IsOkAnd, IfOk};
ghost use Rattle.std.specs.Prelude.{IfErr, OnOk};
ghost use Rattle.pebr_core.specs.State.{State};
ghost use Rattle.pebr_core.specs.Steps.{is_enabled, after, answer_of, next};
ghost use Rattle.pebr_core.specs.Kept.{IsSound};
ghost use Rattle.pebr_core.specs.Runs.{state_after, answers_of, first_refused, GivesNoUsed, KeepsUsedWords, IsSafeRun};

use crate::kinds::{Answer, NotEnabled, Step};
use crate::machine::Core;
use no_memory::NoMemory;
use std::alloc::Global;

/// A core after a list of steps, with an answer to each.
#[derive(Debug, Drop)]
pub struct Replayed {
    /// The core after the steps.
    pub core: Core,
    /// One answer for each step.
    pub answers: Vec<Answer>,
}

/// Why a list of steps isn't replayed.
#[derive(Clone, Copy, PartialEq, Eq, Debug)]
pub enum ReplayError {
    /// The step at this place, counted from 0, isn't enabled.
    NotEnabled(usize),
    /// No memory was left.
    NoMemory,
}

impl From<NoMemory> for ReplayError {
    ghost use Rattle.pebr_core.specs.declared.runs.ReplayError.TheVariants as error;

    ghost from_gives = { λ _ e. e ≡ error.NoMemory };

    fn from(_error: NoMemory) -> ReplayError {
        ReplayError::NoMemory
    }
}

impl Core {
    /// Makes the step in place, where it is enabled.
    fn make(&mut self, step: Step) -> Option<Answer>
        ensures answer { result ≡ (next self.old step).0 }
        ensures state { self.new ≡ (next self.old step).1 }
        ensures sound { IsSound self.old }
    {
        // This read is for the proof alone, which learns from it that the core is sound.
        let _ = &self.shape;
        match step {
            Step::Note(seat) => self.note(seat),
            Step::Pin(seat) => self.pin(seat),
            Step::Leave(seat) => self.leave(seat),
            Step::Advance(seat) => self.advance(seat),
            Step::Look(seat, other) => self.look(seat, other),
            Step::Eject(seat, other) => self.eject(seat, other),
            Step::Load(seat, root) => self.load(seat, root),
            Step::Shield(seat, place, slot) => self.set_shield(seat, place, slot),
            Step::Check(seat) => self.check(seat),
            Step::Unshield(seat, place) => self.unshield(seat, place),
            Step::Read(seat, slot, word) => self.read(seat, slot, word),
            Step::Write(seat, slot, word, value) => self.write(seat, slot, word, value),
            Step::Replace(seat, root, old, new) => self.replace(seat, root, old, new),
            Step::Scan(seat, other, place) => self.scan(seat, other, place),
            Step::Give(seat) => self.give(seat),
        }
    }

    /// Makes one step. It takes no memory.
    ///
    /// # Errors
    ///
    /// `NotEnabled` exactly where the step's condition doesn't hold, a number out of range included.
    /// The core is handed back unchanged.
    pub fn step(self, step: Step) -> Result<(Core, Answer), (Core, NotEnabled)>
        ensures enabled { IsTrue (is_enabled self step) ↔ IsOk result }
        ensures made { IfOk result (λ done. done.0 ≡ after self step) }
        ensures answer { IfOk result (λ done. done.1 ≡ answer_of self step) }
        ensures refused { IfErr result (λ back. back.0 ≡ self) }
        // The core was sound, and still is.
        ensures sound { IsSound self × IfOk result (λ done. IsSound done.0) }
        // No slot that a seat uses becomes fresh, and no word of one is changed.
        ensures unused { IfOk result (λ done. GivesNoUsed self done.0) }
        ensures words { IfOk result (λ done. KeepsUsedWords self done.0) }
    {
        let mut core = self;
        match core.make(step) {
            Some(answer) => Ok((core, answer)),
            None => Err((core, NotEnabled)),
        }
    }
}

/// Makes the steps in order, and gives the core after them with one answer for each.
///
/// # Errors
///
/// `NotEnabled(place)` where a step isn't enabled: `place` is that of the first such step, counted
/// from 0. `NoMemory` where no memory was left. The core is dropped in both cases.
pub fn replay(alloc: Global, core: Core, steps: &[Step]) -> Result<Replayed, ReplayError>
    ensures whole { IsOk result → first_refused core steps.now ≡ None }
    ensures refused { (place : ℕ) → result ≡ Err (ReplayError.NotEnabled place)
        → first_refused core steps.now ≡ Some place }
    ensures state { IfOk result (λ replayed. replayed.core ≡ state_after core steps.now) }
    ensures answers { IfOk result (λ replayed. replayed.answers.items ≡ answers_of core steps.now) }
    // Each state on the way is sound, no step makes a used slot fresh, and none changes a word of one.
    ensures safe { IsOk result → IsSafeRun core steps.now }
{
    // This read is for the proof alone, which learns from it that the core is sound.
    let _ = &core.shape;
    let mut core = core;
    let mut answers = Vec::new(alloc);
    for (place, step) in steps.iter().enumerate() {
        let Some(answer) = core.make(*step) else {
            return Err(ReplayError::NotEnabled(place));
        };
        push_answer(&mut answers, answer)?;
    }
    Ok(Replayed { core, answers })
}

/// Appends an answer.
fn push_answer(answers: &mut Vec<Answer>, answer: Answer) -> Result<(), NoMemory>
    ensures { OnOk result (answers.new.items ≡ answers.old.items ++ answer ∷ []) }
{
    answers.push(answer)?;
    Ok(())
}
