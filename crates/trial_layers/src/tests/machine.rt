//! Worked schedules by the calls of the core.

use pebr_core::{Answer, Core, NotEnabled, ReplayError, Shape, Step, replay};
use std::alloc::{AllocFailed, Global};
use std::test::Fail;

const SMALL: Shape = Shape {
    roots: 1,
    seats: 2,
    shields: 1,
    batch: 1,
    width: 1,
};

// A step that isn't enabled hands the core back.
#[test]
fn refused_steps(rt: HostRuntime) -> Result<(), Fail> {
    let core = Core::start(rt.alloc(), SMALL)?;
    let Err((core, NotEnabled)) = core.step(Step::Load(0, 0)) else {
        return Err("a seat that is out loaded a root")?;
    };
    let refused = replay(rt.alloc(), core, &[Step::Note(0), Step::Note(2)]);
    assert!(rt; matches!(refused, Err(ReplayError::NotEnabled(1))));
    Ok(())
}

// The steps of seat 1, up to where it stops.
const STOPPING: [Step; 10] = [
    Step::Note(1),
    Step::Pin(1),
    Step::Load(1, 0),
    Step::Shield(1, 0, 0),
    Step::Check(1),
    Step::Read(1, 0, 0),
    Step::Write(1, 4, 0, 9),
    Step::Replace(1, 0, 0, 4),
    Step::Unshield(1, 0),
    Step::Leave(1),
];

/// Seat 0 replaces the root's slot, `old`, and collects with force.
fn collect_in(
    alloc: Global,
    stop: usize,
    old: usize,
    ejects: bool,
) -> Result<Vec<Step>, AllocFailed<Step>> {
    let mut steps = Vec::new(alloc);
    for step in STOPPING.iter().take(stop) {
        steps.push(*step)?;
    }
    for step in [
        Step::Note(0),
        Step::Pin(0),
        Step::Load(0, 0),
        Step::Shield(0, 0, old),
        Step::Check(0),
        Step::Replace(0, 0, old, 1),
        Step::Unshield(0, 0),
        Step::Leave(0),
        Step::Note(0),
        Step::Advance(0),
        Step::Look(0, 1),
    ] {
        steps.push(step)?;
    }
    if ejects {
        steps.push(Step::Eject(0, 1))?;
    }
    steps.push(Step::Scan(0, 1, 0))?;
    steps.push(Step::Give(0))?;
    Ok(steps)
}

// Wherever seat 1 stops, a forced collection of seat 0 gives back each slot that no shield of seat 1 stands on.
#[test]
fn seats_that_stop(rt: HostRuntime) -> Result<(), Fail> {
    let cases = [
        (1, 0, false, Answer::Given(1, 0)),
        (2, 0, true, Answer::Given(1, 0)),
        (3, 0, true, Answer::Given(1, 0)),
        (4, 0, true, Answer::Given(0, 1)),
        (5, 0, true, Answer::Given(0, 1)),
        (6, 0, true, Answer::Given(0, 1)),
        (7, 0, true, Answer::Given(0, 1)),
        (8, 4, true, Answer::Given(1, 0)),
        (9, 4, true, Answer::Given(1, 0)),
        (10, 4, false, Answer::Given(1, 0)),
    ];
    for (stop, old, ejects, given) in cases {
        let steps = collect_in(rt.alloc(), stop, old, ejects)?;
        let replayed = replay(rt.alloc(), Core::start(rt.alloc(), SMALL)?, &steps)?;
        assert_eq!(rt;
            replayed.answers.last().copied(),
            Some(given),
            "stopped behind {stop} steps"
        );
    }
    Ok(())
}
