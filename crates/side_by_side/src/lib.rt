//! Work on each item of a slice that is shared out among threads, all of which the calling thread starts itself.
//!
//! The standard library's calls of this kind halve the items, and each thread starts the ones for its halves. Where a
//! thread that has hardly begun starts another, the two are often left to wait for one processor while another is idle.
#![tactic(auto)]

ghost use Rattle.std.specs.Prelude.{◌<◌};
ghost use Rattle.std.specs.Fork.{AcceptsEach, ChangesEach};

mod shares;

use shares::{share_out, start_each};
use std::thread::Threads;

/// Calls `f` with each item and its place, from 0, by at most `threads` threads side by side. Each has as many items as
/// the others, or one more, and takes them in their order. Where one thread would do all, that is the calling one. Else it
/// starts them and waits: with a share of its own it would hold up the first of them, which is often left to wait for its
/// processor. Where a thread can't be made, the calling one takes its items.
pub fn for_each_mut<R: Threads + Sync, T: Send, F: Fn(usize, &mut T) + Sync>(
    rt: &R,
    items: &mut [T],
    threads: usize,
    f: &F,
)
    requires threads { 0 < threads }
    requires accepts { AcceptsEach F.Fn f.now items.old }
    ensures { ChangesEach F.Fn f.now items.old items.new }
{
    share_out(rt, f, 0, threads, items);
}

/// Calls `f` with each item and its place, from 0, each in a thread of its own, and beside them `beside` in the calling
/// thread. An item for which no thread can be made waits until `beside` has returned, and the calling thread takes it
/// then.
pub fn for_each_beside<R: Threads + Sync, T: Send, F: Fn(usize, &mut T) + Sync, G: FnMut() -> X, X>(
    rt: &R,
    items: &mut [T],
    f: &F,
    beside: &mut G,
) -> X
    requires accepts { AcceptsEach F.Fn f.now items.old }
    requires beside { G.pre beside.old }
    ensures each { ChangesEach F.Fn f.now items.old items.new }
    ensures beside { G.step beside.old result beside.new }
{
    start_each(rt, f, 0, items, beside)
}
