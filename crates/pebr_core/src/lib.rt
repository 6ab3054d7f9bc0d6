//! The core of reclamation: who may use a slot, and when it can be written again.
//!
//! A slot is a few words, and a root says which slot has its present content. Readers reach slots
//! through roots. A seat, the part that one thread plays, never writes a slot that a root has. It
//! writes a *fresh* slot of its own, puts this into the root, and holds the old slot as *retired*:
//! some other seat may still read it. The question is when it is fresh again. After Kang and Jung,
//! 'A marriage of pointer- and epoch-based reclamation' (PLDI 2020); every rule here is this repository's own.
//!
//! - **Pins.** Before it loads a root a seat notes the epoch and pins: its status is In with that
//!   epoch. A slot that it loads since then is seen, and a seat that is in uses what it has seen.
//! - **Tags.** A retired slot gets the epoch of the owner's next Note as its tag. A seat that pinned
//!   a later epoch can't have seen the slot.
//! - **Ejection.** A seat that stays in with an old epoch is ejected: its status says so, and from
//!   then on it uses only what its valid shields stand on.
//! - **Shields.** A seat sets a shield on a slot that it has seen, and checks that it is still in:
//!   then the shield is valid, and it protects the slot also after an ejection.
//! - **Scans.** A Note opens a scan over the owner's retired slots, the candidates. The scan passes
//!   each other seat, by a look or an ejection, and only then reads its shields. Give makes fresh the
//!   candidates that no shield was found on.
//!
//! A step is one load, store or compare and exchange of one word. [`Core::step`] makes one,
//! [`replay`] a list. Each core is sound, by the laws [`start_is_sound`], [`steps_are_safe`]
//! and [`runs_are_safe`], which speak of all states. The tests of all this stand in `trial_layers`,
//! where they don't prove the core a second time.
#![tactic(auto)]

mod kinds;
mod laws;
mod machine;
mod pins;
mod retired;
mod row;
mod runs;
mod scans;
mod seats;
mod shields;
mod slots;
mod start;

pub use kinds::{Answer, LAST_EPOCH, NotEnabled, Retired, Shape, ShieldAt, Stance, Step};
pub use laws::{
    enabled_by_own_seat, fresh_slots_are_alone, kept_slots_are_counted, looked_reaches_a_tag,
    other_words_are_sound, root_slots_are_alone, runs_are_safe, start_is_sound, steps_are_safe,
    steps_leave_the_rest, uses_begin_at_load, valid_shields_protect,
};
pub use machine::Core;
pub use no_memory::NoMemory;
pub use runs::{ReplayError, Replayed, replay};
