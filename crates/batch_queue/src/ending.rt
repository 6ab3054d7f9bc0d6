//! The rule of the word that no more batches come, and what each kind of step tells.

use crate::heard::Heard;
use crate::rule::Seats;
use atomic_table::{Join, Play, Split, TableRule};

/// The rule that ties the word to the passes.
pub struct Ending;

impl TableRule<(), Heard, ()> for Ending {
    ghost use Rattle.batch_queue.specs.Saying.{Ends, first_heard};

    ghost holds = { λ _. Ends };

    ghost first = { λ _. first_heard };
}

/// It is said that no more batches come.
pub struct Says;

impl Play<(), Heard> for Says {
    ghost use Rattle.batch_queue.specs.Saying.{HasSaid};

    ghost then = { HasSaid };
}

/// A look at the word.
pub struct Hears;

impl Play<(), Heard> for Hears {
    ghost use Rattle.batch_queue.specs.Saying.{HasHeard};

    ghost then = { HasHeard };
}

impl Split<Heard> for Seats {
    ghost use Rattle.batch_queue.specs.Saying.{other_heard};

    ghost left = { λ v. v };

    ghost right = { λ v. other_heard };
}

impl Join<Heard> for Seats {
    ghost use Rattle.batch_queue.specs.Saying.{both_heard, other_heard};

    ghost both = { both_heard };

    ghost spent = { other_heard };
}
