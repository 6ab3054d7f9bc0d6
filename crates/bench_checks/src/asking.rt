//! A watcher that asks for open flows while workers meter.

ghost use Rattle.std.specs.Prelude.{◌≡◌, ◌≢◌, None};
ghost use Rattle.flow_cache.specs.Shown.{shown_of};
ghost use Rattle.flow_cache.specs.Shown as shown;
ghost use Rattle.cache_watch.specs.Watching.{IsOf, held_by, note_of};

use cache_watch::{Watch, Watcher};
use flow_cache::{PebrCache, PebrPass};
use flow_key::FlowKey;

/// How many times at most an ask tries to hold its flow, which may come into the set meanwhile.
const TRIES: u32 = 1000;

/// How many times a flow that is held is read, so that workers put it out meanwhile.
const READS: u32 = 100;

/// The watcher's pass, how many asks held a flow, and the most slots that the pass had retired after any of them.
#[derive(Drop)]
pub(crate) struct Asked {
    pub(crate) pass: PebrPass,
    pub(crate) held: u64,
    pub(crate) most: usize,
}

/// Reads the flow that is held `READS` times.
fn read_some(cache: &PebrCache, watcher: &mut Watcher)
    requires of { IsOf cache.now watcher.old }
    requires holding { held_by watcher.old ≢ None }
    ensures of { IsOf cache.now watcher.new }
    ensures holding { held_by watcher.new ≡ held_by watcher.old }
    ensures seats { (note_of watcher.new).seats ≡ (note_of watcher.old).seats }
{
    for _turn in 0..READS {
        watcher.read(cache);
    }
}

/// Tries to hold the flow of a key, reads it and releases it. Tells whether it was held.
fn try_once(cache: &PebrCache, watcher: &mut Watcher, key: &FlowKey) -> bool
    requires of { IsOf cache.now watcher.old }
    requires idle { held_by watcher.old ≡ None }
    ensures of { IsOf cache.now watcher.new }
    ensures idle { held_by watcher.new ≡ None }
    ensures seats { (note_of watcher.new).seats ≡ (note_of watcher.old).seats }
{
    match watcher.hold(cache, key) {
        Watch::Held => {
            read_some(cache, watcher);
            watcher.release(cache);
            true
        }
        Watch::Absent => false,
        Watch::Lost => false,
    }
}

/// Asks for the flow of a key. Tells whether it was held.
fn ask(cache: &PebrCache, watcher: &mut Watcher, key: &FlowKey) -> bool
    requires of { IsOf cache.now watcher.old }
    requires idle { held_by watcher.old ≡ None }
    ensures of { IsOf cache.now watcher.new }
    ensures idle { held_by watcher.new ≡ None }
    ensures seats { (note_of watcher.new).seats ≡ (note_of watcher.old).seats }
{
    for _turn in 0..TRIES {
        if try_once(cache, watcher, key) {
            return true;
        }
    }
    false
}

/// Asks for the flow of a key by a watcher at the seat of a pass, and then looks at how many slots the pass has
/// retired.
fn ask_by(cache: &PebrCache, asked: Asked, key: &FlowKey) -> Asked
    requires own { shown.IsOf cache.now asked.pass }
    requires single { (shown_of asked.pass).note.seats ≡ 1 }
    ensures own { shown.IsOf cache.now result.pass }
    ensures single { (shown_of result.pass).note.seats ≡ 1 }
{
    let Asked { pass, held, most } = asked;
    let mut watcher = Watcher::open(pass);
    let was_held = ask(cache, &mut watcher, key);
    let pass = watcher.close();
    let most = most.max(pass.retired());
    Asked {
        pass,
        held: held.saturating_add(u64::from(was_held)),
        most,
    }
}

/// Asks for the flow of each key in turn, at the seat of a pass.
pub(crate) fn ask_all(cache: &PebrCache, pass: PebrPass, keys: &[FlowKey]) -> Asked
    requires own { shown.IsOf cache.now pass }
    requires single { (shown_of pass).note.seats ≡ 1 }
    ensures own { shown.IsOf cache.now result.pass }
    ensures single { (shown_of result.pass).note.seats ≡ 1 }
{
    let mut asked = Asked {
        pass,
        held: 0,
        most: 0,
    };
    for key in keys {
        asked = ask_by(cache, asked, key);
    }
    asked
}
