//! What the roots of a cache keep.

ghost use Rattle.cache_face.specs.Keeping as keeping;

use crate::act::CacheAct;
use flow_parts::Timeouts;
use pebr_roots::RootProtocol;
use std::marker::Model;

/// What a pass has done. No value of it is made: it stands in proofs alone.
pub struct SeatNote {
    unit: (),
}

impl Model for SeatNote {
    ghost use Rattle.cache_face.specs.Notes.{Note, empty_note};

    ghost Value = { Note };

    ghost view = { λ _. empty_note };
}

/// What a cache is opened with.
#[derive(Clone, Copy)]
pub struct CacheFixed {
    pub sets: u64,
    pub timeouts: Timeouts,
}

/// The contents of the roots are entries of a cache. They and all fragments that were handed out are reached from all
/// that were put in, whatever the threads do in turn. And what any slot shows that no pass has fresh is, with some
/// other fragments, reached from these too.
pub struct CacheRule;

impl RootProtocol for CacheRule {
    ghost use Rattle.cache_face.specs.Notes.{first_note, empty_note, merged_note};
    ghost use Rattle.cache_face.proofs.Keeping.{keeps_merged, backs_merged};
    ghost use Rattle.flow_cache.specs.Acts.{acted_note};

    type Note = SeatNote;

    type Act = CacheAct;

    type Fixed = CacheFixed;

    ghost keeps = { λ fixed contents notes. keeping.Keeps fixed.timeouts fixed.sets contents notes };

    ghost whole = { keeping.IsWhole };

    ghost backed = { λ fixed notes content. keeping.AreBacking fixed.timeouts notes content };

    ghost first = { first_note };

    ghost empty = { empty_note };

    ghost merged = { merged_note };

    ghost after = { acted_note };

    ghost unites = { λ fixed contents notes i j a b kept apart at at'. keeps_merged fixed.timeouts fixed.sets contents
        notes i j a b kept apart at at' };

    ghost backs = { λ fixed notes content i j a b backing apart at at'. backs_merged fixed.timeouts notes content i j
        a b backing apart at at' };
}
