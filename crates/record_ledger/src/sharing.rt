//! Shares of time: threads share out records by the times of their last packets.
//!
//! That a share has as many records as the others isn't proved here, and nothing rests on it but time.

ghost use Rattle.std.specs.Prelude.{◌≡◌, ◌≤◌, ◌<◌, ◌+◌, IfOk, length};
ghost use Rattle.record_ledger.specs.Buckets.{share_number};

use flow_parts::Fragment;
use no_memory::NoMemory;
use std::alloc::Global;
use std::marker::Model;

/// How many times are looked at, at most, for those at which shares end.
const SAMPLES: usize = 1024;

/// Shares of time, each of which ends where the next one begins. Contracts see them as the list of the times at which all
/// but the last one end, in milliseconds since 1970-01-01T00:00:00Z: the first share that ends behind a time has it.
#[derive(Drop)]
pub struct Shares {
    ends: Vec<u64>,
}

impl Model for Shares {
    ghost use Rattle.std.specs.Prelude.{ℕ, List};

    ghost Value = { List ℕ };

    ghost view = { λ s. s.ends.items };
}

impl Shares {
    /// At most `most` shares, each of about as many of so many fragments.
    pub fn of(
        alloc: Global,
        pieces: &[Vec<Fragment>],
        fragments: usize,
        most: usize,
    ) -> Result<Shares, NoMemory>
        requires { 0 < most }
        ensures { IfOk result (λ shares. length shares < most) }
    {
        let mut times = [0; SAMPLES];
        let found = sample_times(pieces, fragments, &mut times).min(SAMPLES);
        let times = &mut times[..found];
        times.sort_unstable();
        let mut ends = Vec::with_capacity(alloc, most)?;
        for share in 1..most {
            if let Some(time) = times.get(share.saturating_mul(found) / most) {
                ends.push(*time)?;
            }
        }
        Ok(Shares { ends })
    }

    /// How many shares there are.
    pub fn count(&self) -> usize
        ensures { result ≡ length self.now + 1 }
    {
        self.ends.len() + 1
    }

    /// The number of the share of a time, from 0.
    #[inline]
    pub fn number(&self, time: u64) -> usize
        ensures number { result ≡ share_number self.now time }
        ensures within { result ≤ length self.now }
    {
        for number in 0..self.ends.len() {
            if time < self.ends[number] {
                return number;
            }
        }
        self.ends.len()
    }
}

/// Takes the last times of fragments that lie evenly among so many, and tells how many it took.
fn sample_times(pieces: &[Vec<Fragment>], fragments: usize, times: &mut [u64; SAMPLES]) -> usize {
    let step = fragments / SAMPLES + 1;
    let mut found = 0;
    for piece in pieces {
        found = sample_piece(piece, step, times, found);
    }
    found
}

/// Takes the last times of every so many fragments of a piece, behind those that were found before.
fn sample_piece(piece: &[Fragment], step: usize, times: &mut [u64; SAMPLES], found: usize) -> usize
    requires { 0 < step }
{
    let mut found = found;
    for number in 0..piece.len() / step {
        if found < SAMPLES {
            times[found] = piece[number * step].last;
            found += 1;
        }
    }
    found
}
