//! A worker, and how it stands.

ghost use Rattle.std.specs.Prelude.{◌≡◌, ◌≢◌, length, map, All, IfOk, OnOk};

use no_memory::NoMemory;
use std::alloc::Global;

/// How a worker stands.
#[derive(Clone, Copy, PartialEq, Eq, Debug)]
pub enum WorkState {
    /// It has work to do.
    Going,
    /// No work was left.
    Finished,
    /// It ended because memory ran out.
    NoMemory,
}

/// A worker: its number, what it has done, the seat by which it gets its work, and how it stands.
#[derive(Drop)]
pub struct Worker<S, T> {
    pub number: usize,
    pub share: S,
    pub seat: T,
    pub state: WorkState,
}

/// A worker for each share and seat, in their order, numbered from 0.
pub fn seat_workers<S: Drop, T: Drop>(
    alloc: Global,
    shares: Vec<S>,
    seats: Vec<T>,
) -> Result<Vec<Worker<S, T>>, NoMemory>
    requires same { length shares.items ≡ length seats.items }
    ensures shares { IfOk result (λ workers. map (λ w. w.share) workers.items ≡ shares.items) }
    ensures seats { IfOk result (λ workers. map (λ w. w.seat) workers.items ≡ seats.items) }
{
    let mut shares = shares;
    let mut seats = seats;
    let mut workers = Vec::new(alloc);
    while let Some(share) = shares.pop() {
        let Some(seat) = seats.pop() else {
            unreachable!()
        };
        let worker = Worker {
            number: shares.len(),
            share,
            seat,
            state: WorkState::Going,
        };
        workers.insert(0, worker)?;
    }
    Ok(workers)
}

/// What the workers have done, and their seats, where all have finished. `NoMemory`: memory ran out, for one of them or
/// here.
pub fn unseat_workers<S: Drop, T: Drop>(
    alloc: Global,
    workers: Vec<Worker<S, T>>,
) -> Result<(Vec<S>, Vec<T>), NoMemory>
    requires ended { All (λ w. w.state ≢ WorkState.Going) workers.items }
    ensures shares { IfOk result (λ r. r.0.items ≡ map (λ w. w.share) workers.items) }
    ensures seats { IfOk result (λ r. r.1.items ≡ map (λ w. w.seat) workers.items) }
    ensures finished { OnOk result (All (λ w. w.state ≡ WorkState.Finished) workers.items) }
{
    let mut workers = workers;
    let mut shares = Vec::new(alloc);
    let mut seats = Vec::new(alloc);
    while let Some(worker) = workers.pop() {
        match worker.state {
            WorkState::Finished => {}
            WorkState::NoMemory => return Err(NoMemory),
            WorkState::Going => unreachable!(),
        }
        shares.insert(0, worker.share)?;
        seats.insert(0, worker.seat)?;
    }
    Ok((shares, seats))
}
