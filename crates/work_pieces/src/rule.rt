//! The rule of the table, and the three kinds of step: a draw, a split and a union. A load that changes nothing tells a
//! pass what the rule says of it.

use crate::views::{Hand, Plan};
use atomic_table::{Join, Play, Split, TableRule};

/// The rule that ties the word to the passes.
pub struct Deals;

impl TableRule<(), Hand, Plan> for Deals {
    ghost use Rattle.work_pieces.specs.Dealing.{Dealt, hand};
    ghost use Rattle.std.specs.Prelude.{[]};

    ghost holds = { Dealt };

    ghost first = { λ plan. hand plan.all plan.pieces plan.all 0 [] };
}

/// The draw of one number.
pub struct Draws;

impl Play<(), Hand> for Draws {
    ghost use Rattle.work_pieces.specs.Dealing.{HasDrawn};

    ghost then = { HasDrawn };
}

/// A look at the word, which tells a pass of all seats that it has all pieces.
pub struct Tells;

impl Play<(), Hand> for Tells {
    ghost use Rattle.work_pieces.specs.Dealing.{HasTold};

    ghost then = { HasTold };
}

/// Passes that are split and united.
pub struct Cut;

impl Split<Hand> for Cut {
    ghost use Rattle.work_pieces.specs.Dealing.{left_of, right_of};

    ghost left = { left_of };

    ghost right = { right_of };
}

impl Join<Hand> for Cut {
    ghost use Rattle.work_pieces.specs.Dealing.{both_of, hand};
    ghost use Rattle.std.specs.Prelude.{[]};

    ghost both = { both_of };

    ghost spent = { hand 0 0 0 0 [] };
}
