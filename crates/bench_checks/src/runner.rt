//! Threads that meter packets in memory.

ghost use Rattle.std.specs.Prelude.{◌≡◌, ◌<◌, ◌≤◌, ◌^◌, length, All, IfOk};
ghost use Rattle.cache_face.specs.Meaning.{IsFresh};
ghost use Rattle.bench_checks.specs.Going.{IsGoing};

use cache_face::FlowCache;
use no_memory::NoMemory;
use packet_accept::Packet;
use std::alloc::Global;
use std::thread;
use std::thread::Threads;

/// How many packets a thread takes at a time.
const PIECE: usize = 256;

/// What a thread meters through, which of the threads it is, how many packets it has metered, and how many packets the
/// fragments have that it was handed. The unused words behind it keep the cache lines of two threads apart.
#[derive(Drop)]
#[repr(C)]
pub(crate) struct Runner<C: FlowCache> {
    pub(crate) pass: C::Pass,
    pub(crate) place: usize,
    pub(crate) count: u64,
    pub(crate) handed: u64,
    apart: [u64; 16],
}

/// A runner for each pass.
pub(crate) fn runners_of<C: FlowCache>(
    alloc: Global,
    cache: &C,
    passes: Vec<C::Pass>,
) -> Result<Vec<Runner<C>>, NoMemory>
    requires passes { All (λ p. C.is_of cache.now p × IsFresh (C.shown p)) passes.items }
    ensures many { IfOk result (λ runners. length runners.items ≡ length passes.items) }
    ensures going { IfOk result
        (λ runners. All (λ r. C.is_of cache.now r.pass × IsGoing r.count (C.shown r.pass)) runners.items) }
{
    // It is there for the clauses alone.
    let _ = cache;
    let mut runners = Vec::new(alloc);
    let mut passes = passes;
    while let Some(pass) = passes.pop() {
        let place = runners.len();
        runners.push(Runner {
            pass,
            place,
            count: 0,
            handed: 0,
            apart: [0; 16],
        })?;
    }
    Ok(runners)
}

/// Meters a packet, where it may, and adds the packets of the fragment that is handed out.
fn run_packet<C: FlowCache>(packet: &Packet, cache: &C, runner: &mut Runner<C>)
    requires own { C.is_of cache.now runner.old.pass }
    requires going { IsGoing runner.old.count (C.shown runner.old.pass) }
    ensures own { C.is_of cache.now runner.new.pass }
    ensures going { IsGoing runner.new.count (C.shown runner.new.pass) }
{
    if runner.count > 0xffff_ffff || packet.octets >= 1 << 24 {
        return;
    }
    let metered = cache.meter(&mut runner.pass, packet);
    runner.count += 1;
    if let Some(fragment) = metered.out {
        runner.handed = runner.handed.wrapping_add(fragment.packets);
    }
}

/// Meters the packets of a piece.
fn run_piece<C: FlowCache>(packets: &[Packet], cache: &C, runner: &mut Runner<C>)
    requires own { C.is_of cache.now runner.old.pass }
    requires going { IsGoing runner.old.count (C.shown runner.old.pass) }
    ensures own { C.is_of cache.now runner.new.pass }
    ensures going { IsGoing runner.new.count (C.shown runner.new.pass) }
{
    for packet in packets {
        run_packet(packet, cache, runner);
    }
}

/// Meters a runner's pieces: of n runners each takes every n-th.
fn run_share<C: FlowCache>(packets: &[Packet], count: usize, cache: &C, runner: &mut Runner<C>)
    requires some { 0 < count }
    requires own { C.is_of cache.now runner.old.pass }
    requires going { IsGoing runner.old.count (C.shown runner.old.pass) }
{
    let mut turn = 0;
    for piece in packets.chunks(PIECE) {
        if turn == runner.place {
            run_piece(piece, cache, runner);
        }
        turn = if turn < count - 1 { turn + 1 } else { 0 };
    }
}

/// How many packets are in the fragments that all runners were handed.
pub(crate) fn handed_to<C: FlowCache>(runners: &[Runner<C>]) -> u64 {
    let mut sum = 0u64;
    for runner in runners {
        sum = sum.wrapping_add(runner.handed);
    }
    sum
}

/// All runners meter at once.
pub(crate) fn run_all<C: FlowCache, R: Threads + Sync>(
    rt: &R,
    packets: &[Packet],
    cache: &C,
    runners: &mut [Runner<C>],
)
    requires some { 0 < length runners.old }
    requires going { All (λ r. C.is_of cache.now r.pass × IsGoing r.count (C.shown r.pass)) runners.old }
{
    let count = runners.len();
    thread::for_each_mut(
        rt,
        runners,
        count,
        &|_, r: &mut Runner<C>|
            requires some { 0 < count }
            requires going { C.is_of cache.now r.old.pass × IsGoing r.old.count (C.shown r.old.pass) }
        { run_share(packets, count, cache, r) },
    );
}
