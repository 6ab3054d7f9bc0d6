//! The asker: it asks for open flows while workers meter.

ghost use Rattle.std.specs.Prelude.{◌≡◌, None, All, IfOk, length};
ghost use Rattle.cache_face.specs.Notes.{first_note};
ghost use Rattle.flow_cache.specs.Shown.{shown_of};
ghost use Rattle.flow_cache.specs.Shown as shown;
ghost use Rattle.cache_watch.specs.Watching.{IsOf, held_by, note_of};
ghost use Rattle.watch_program.specs.Answers.{IsSound, IsOfKey, AreInTurn, IsAsker, note_answered, held_in, count_of};
ghost use Rattle.watch_program.specs.Answers.{HasAsked};

use crate::answer::Answer;
use cache_watch::{Watch, Watcher};
use flow_cache::{PebrCache, PebrPass};
use flow_key::FlowKey;
use meter_workers::Gate;
use no_memory::NoMemory;
use std::alloc::Global;

/// What asking runs on: the allocator, the gate, and the worker's number under which the gate is told of each ask.
#[derive(Drop)]
pub(crate) struct Asker<'a, G: Gate> {
    pub(crate) alloc: Global,
    pub(crate) gate: &'a G,
    pub(crate) number: usize,
}

/// What came of asking, and the asker's pass.
#[derive(Drop)]
pub(crate) struct Asking {
    pub(crate) pass: PebrPass,
    pub(crate) answers: Result<Vec<Answer>, NoMemory>,
}

/// Asks for the flow of a key: holds it, reads it and releases it.
fn ask(cache: &PebrCache, watcher: &mut Watcher, key: &FlowKey) -> Answer
    requires of { IsOf cache.now watcher.old }
    requires idle { held_by watcher.old ≡ None }
    ensures of { IsOf cache.now watcher.new }
    ensures idle { held_by watcher.new ≡ None }
    ensures note { note_of watcher.new ≡ note_answered result (note_of watcher.old) }
    ensures sound { IsSound result }
    ensures key { IsOfKey key.now result }
{
    match watcher.hold(cache, key) {
        Watch::Held => {
            let flow = watcher.read(cache);
            watcher.release(cache);
            Answer::Held(flow)
        }
        Watch::Absent => Answer::Absent,
        Watch::Lost => Answer::Lost,
    }
}

/// Asks `asks` times, for the keys in turn, or never where there is no key. Before ask k, counted from 0, the gate is
/// told that the worker with the asker's number is at piece k.
fn ask_in_turn<G: Gate>(
    asker: &Asker<'_, G>,
    cache: &PebrCache,
    watcher: &mut Watcher,
    keys: &[FlowKey],
    asks: usize,
) -> Result<Vec<Answer>, NoMemory>
    requires of { IsOf cache.now watcher.old }
    requires idle { held_by watcher.old ≡ None }
    requires fresh { note_of watcher.old ≡ first_note }
    ensures of { IsOf cache.now watcher.new }
    ensures idle { held_by watcher.new ≡ None }
    ensures asker { IsAsker (note_of watcher.new) }
    ensures seen { IfOk result (λ answers. (note_of watcher.new).seen ≡ held_in answers.items) }
    ensures many { IfOk result (λ answers. length answers.items ≡ count_of asks keys.now) }
    ensures sound { IfOk result (λ answers. All IsSound answers.items) }
    ensures in_turn { IfOk result (λ answers. AreInTurn keys.now answers.items) }
{
    let mut answers = Vec::new(asker.alloc);
    if keys.is_empty() {
        return Ok(answers);
    }
    for k in 0..asks {
        asker.gate.reach(asker.number, k as u64);
        let answer = ask(cache, watcher, &keys[k % keys.len()]);
        answers.push(answer)?;
    }
    Ok(answers)
}

/// Asks `asks` times, for the keys in turn, or never where there is no key, by a watcher at the seat of a pass that has
/// done nothing yet, and closes the watcher. The pass still has put nothing in and was handed nothing; it saw the flows
/// that were held.
///
/// The answers are `NoMemory` where there is no room for them.
pub(crate) fn ask_all<G: Gate>(
    asker: &Asker<'_, G>,
    cache: &PebrCache,
    pass: PebrPass,
    keys: &[FlowKey],
    asks: usize,
) -> Asking
    requires own { shown.IsOf cache.now pass }
    requires fresh { (shown_of pass).note ≡ first_note }
    ensures { HasAsked cache.now keys.now asks result }
{
    let mut watcher = Watcher::open(pass);
    let answers = ask_in_turn(asker, cache, &mut watcher, keys, asks);
    Asking {
        pass: watcher.close(),
        answers,
    }
}
