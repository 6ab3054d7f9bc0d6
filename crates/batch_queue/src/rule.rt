//! The rule of the queue, and what each kind of step tells.

use crate::batch::Batch;
use crate::seen::Seen;
use crossbeam_queue::protocol::{Join, Lesson, Outcome, Protocol, Split};

/// The rule that ties the queue to the passes.
pub struct Turn;

impl Protocol<Batch, Seen> for Turn {
    ghost use Rattle.batch_queue.specs.Queueing.{Queued, first_seen};

    ghost holds = { Queued };

    ghost first = { first_seen };
}

/// A batch that is put.
pub struct Puts;

impl Outcome<Batch, Seen> for Puts {
    ghost use Rattle.batch_queue.specs.Queueing.{HasPut};

    ghost then = { HasPut };
}

impl Lesson<Batch, Seen> for Puts {
    ghost use Rattle.batch_queue.specs.Queueing.{Knows};

    ghost fact = { Knows };
}

/// A batch that is taken.
pub struct Takes;

impl Outcome<Batch, Seen> for Takes {
    ghost use Rattle.batch_queue.specs.Queueing.{HasTaken};

    ghost then = { HasTaken };
}

impl Lesson<Batch, Seen> for Takes {
    ghost use Rattle.batch_queue.specs.Queueing.{Knows};

    ghost fact = { Knows };
}

/// Passes that are made and united.
pub struct Seats;

impl Split<Seen> for Seats {
    ghost use Rattle.batch_queue.specs.Queueing.{with_another, other_seen};

    ghost left = { with_another };

    ghost right = { λ v. other_seen };
}

impl Join<Seen> for Seats {
    ghost use Rattle.batch_queue.specs.Queueing.{both_of, spent_pass};

    ghost both = { both_of };

    ghost spent = { spent_pass };
}
