//! One try to hold a flow: the entries of its set are read, and the shields stay up where one is kept.

ghost use Rattle.std.specs.Prelude.{◌≡◌, ◌<◌, IsTrue, IsNone, IfSome, Some, None, false};
ghost use Rattle.std.specs.List.{list_all};
ghost use Rattle.cache_face.specs.Choice.{HasKey, HasNone, IsLowest, entry_at};
ghost use Rattle.cache_face.specs.Keeping.{IsWhole};
ghost use Rattle.cache_face.specs.Notes.{first_note};
ghost use Rattle.pebr_core.specs.State.{is_out, is_down};
ghost use Rattle.pebr_words.specs.Ruled.{IsSure};
ghost use Rattle.pebr_roots.specs.Passes.{shape_at, known_by_pass, note_by, past_by, operations_by, IsSame};
ghost use Rattle.pebr_roots.specs.Orders.{HasMade};
ghost use Rattle.pebr_roots.specs.Passes as roots;
ghost use Rattle.flow_cache.specs.Shown.{means_of, roots_of};
ghost use Rattle.flow_cache.specs.Trying.{AreProtected, HasOnlyStepped};
ghost use Rattle.cache_watch.specs.Holding.{IsHolding, IsHeld, IsAbsent, note_holding};
ghost use Rattle.cache_watch.specs.Trying.{IsTried, note_tried};

use crate::watcher::Hold;
use flow_cache::{CacheAct, CacheRule, PebrCache};
use flow_key::FlowKey;
use flow_parts::Fragment;
use pebr_core::valid_shields_protect;
use pebr_roots::{Checked, RootPass};

/// The lowest entry of the key, and where it is.
fn lowest_of(entries: &[Option<Fragment>; 4], key: &FlowKey) -> Option<Hold>
    ensures some { IfSome result (λ hold. IsLowest (HasKey key.now) entries.now hold.place
        × (entry_at entries.now hold.place ≡ Some hold.fragment)) }
    ensures none { IsNone result → HasNone (HasKey key.now) entries.now }
{
    for place in 0..4 {
        if let Some(fragment) = entries[place] {
            if fragment.key == *key {
                return Some(Hold { place, fragment });
            }
        }
    }
    None
}

/// Leaves. Where an entry is held, the shields stay up, and the note lists it as seen; else they are taken down.
fn leave(cache: &PebrCache, seat: &mut RootPass<CacheRule>, held: Option<Hold>)
    requires of { roots.IsOf (roots_of cache.now) seat.old }
    requires entered { is_out (known_by_pass seat.old).status ≡ false }
    requires held { IfSome held (λ hold. IsHolding hold.place hold.fragment (known_by_pass seat.old)
        (past_by seat.old)) }
    ensures same { IsSame (roots_of cache.now) seat.old seat.new }
    ensures note { note_by first_note seat.new ≡ note_holding held (note_by first_note seat.old) }
    ensures out { IsTrue (is_out (known_by_pass seat.new).status) }
    ensures held { IfSome held (λ _. (known_by_pass seat.new).shields ≡ (known_by_pass seat.old).shields) }
    ensures down { held ≡ None → IsTrue (list_all is_down (known_by_pass seat.new).shields) }
    ensures past { HasOnlyStepped (past_by seat.old) (past_by seat.new) }
    ensures sure { IsSure IsWhole (shape_at (roots_of cache.now)) (known_by_pass seat.new) (past_by seat.new) }
    ensures few { HasMade 5 (operations_by seat.old) (operations_by seat.new) }
{
    valid_shields_protect();
    match held {
        Some(hold) => {
            let act = Some(CacheAct::Sees(hold.fragment));
            cache.roots().leave(seat, act);
        }
        None => {
            cache.roots().clear(seat);
            cache.roots().leave(seat, None);
        }
    }
}

/// What came of one try.
pub(crate) enum Tried {
    /// The entries were read, and this one is held.
    Held(Hold),
    /// The entries were read, and none has the key.
    Absent,
    /// The seat was ejected before its shields were valid.
    Ejected,
}

/// Reads the entries of a set whose roots are protected, holds the one of the key, and leaves.
fn keep(cache: &PebrCache, seat: &mut RootPass<CacheRule>, set: u64, key: &FlowKey) -> Option<Hold>
    requires of { roots.IsOf (roots_of cache.now) seat.old }
    requires entered { is_out (known_by_pass seat.old).status ≡ false }
    requires protected { AreProtected set (known_by_pass seat.old) (past_by seat.old) }
    ensures same { IsSame (roots_of cache.now) seat.old seat.new }
    ensures note { note_by first_note seat.new ≡ note_holding result (note_by first_note seat.old) }
    ensures out { IsTrue (is_out (known_by_pass seat.new).status) }
    ensures pins { (past_by seat.new).pins ≡ (past_by seat.old).pins }
    ensures lost { (past_by seat.new).lost ≡ (past_by seat.old).lost }
    ensures held { IfSome result (λ hold. IsHolding hold.place hold.fragment (known_by_pass seat.new) (past_by seat.new)
        × IsHeld set key.now (past_by seat.new) hold.fragment) }
    ensures absent { IsNone result → IsTrue (list_all is_down (known_by_pass seat.new).shields)
        × IsAbsent set key.now (past_by seat.new) }
    ensures few { HasMade 45 (operations_by seat.old) (operations_by seat.new) }
{
    let entries = cache.read_set(seat);
    let hold = lowest_of(&entries, key);
    leave(cache, seat, hold);
    hold
}

/// One try: enters, protects the set, and holds the entry of the key.
pub(crate) fn attempt(
    cache: &PebrCache,
    seat: &mut RootPass<CacheRule>,
    set: u64,
    key: &FlowKey,
) -> Tried
    requires of { roots.IsOf (roots_of cache.now) seat.old }
    requires set { set < (means_of cache.now).sets }
    requires out { IsTrue (is_out (known_by_pass seat.old).status) }
    ensures same { IsSame (roots_of cache.now) seat.old seat.new }
    ensures note { note_by first_note seat.new ≡ note_tried result (note_by first_note seat.old) }
    ensures out { IsTrue (is_out (known_by_pass seat.new).status) }
    ensures tried { IsTried set key.now (means_of cache.now).seats result (known_by_pass seat.new) (past_by seat.old)
        (past_by seat.new) }
    ensures few { HasMade 56 (operations_by seat.old) (operations_by seat.new) }
{
    match cache.protect(seat, set) {
        Checked::Valid => match keep(cache, seat, set, key) {
            Some(hold) => Tried::Held(hold),
            None => Tried::Absent,
        },
        Checked::Ejected => {
            leave(cache, seat, None);
            Tried::Ejected
        }
    }
}
