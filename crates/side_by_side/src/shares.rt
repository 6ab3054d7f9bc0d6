//! Shares of the items, each of which begins at some place of the whole.
//!
//! What a call only reads stands before the items: the borrow checker doesn't cover a closure that reads a captured `&`
//! after it lends a captured `&mut`.

ghost use Rattle.std.specs.Prelude.{◌+◌, ◌<◌, ◌≤◌, ◌^◌, length};
ghost use Rattle.std.specs.Thread.{IsSync, IsSend};
ghost use Rattle.std.specs.Fork.{AcceptsAt, ChangesAt};
ghost use Rattle.side_by_side.specs.Shares.{AcceptsFrom, ChangesFrom};

use std::thread::{Threads, join_mut};

/// Calls `f` with each item and its place, by at most `threads` threads that the calling one starts and waits for. Where
/// one would do all, that is the calling one.
pub fn share_out<R: Threads + Sync, T: Send, F: Fn(usize, &mut T) + Sync>(
    rt: &R,
    f: &F,
    base: usize,
    threads: usize,
    items: &mut [T],
)
    requires room { base + length items.old < 2 ^ 64 }
    requires accepts { AcceptsFrom F.Fn f.now base items.old }
    ensures { ChangesFrom F.Fn f.now base items.old items.new }
{
    if threads < 2 || items.len() < 2 {
        in_turn(f, base, items);
    } else {
        start_shares(rt, f, base, threads, items);
    }
}

/// Starts a thread for each share of the items: for so many shares, or for one of each item, where these are fewer.
#[cycle(shares)]
fn start_shares<R: Threads + Sync, T: Send, F: Fn(usize, &mut T) + Sync>(
    rt: &R,
    f: &F,
    base: usize,
    shares: usize,
    items: &mut [T],
)
    requires room { base + length items.old < 2 ^ 64 }
    requires accepts { AcceptsFrom F.Fn f.now base items.old }
    ensures { ChangesFrom F.Fn f.now base items.old items.new }
{
    if !items.is_empty() {
        let share = share_of(items.len(), shares);
        let (low, high) = items.split_at_mut(share);
        share_both(
            rt,
            f,
            base,
            low,
            base + share,
            shares.saturating_sub(1),
            high,
        );
    }
}

/// Takes one share in a new thread, and at once starts a thread for each of the `rest` shares behind it.
#[cycle(shares)]
fn share_both<R: Threads + Sync, T: Send, F: Fn(usize, &mut T) + Sync>(
    rt: &R,
    f: &F,
    base: usize,
    low: &mut [T],
    middle: usize,
    rest: usize,
    high: &mut [T],
)
    requires low_room { base + length low.old < 2 ^ 64 }
    requires low { AcceptsFrom F.Fn f.now base low.old }
    requires high_room { middle + length high.old < 2 ^ 64 }
    requires high { AcceptsFrom F.Fn f.now middle high.old }
    ensures low { ChangesFrom F.Fn f.now base low.old low.new }
    ensures high { ChangesFrom F.Fn f.now middle high.old high.new }
{
    let mut left = ||
        requires room { base + length low.now < 2 ^ 64 }
        requires accepts { AcceptsFrom F.Fn f.now base low.now }
        ensures { ChangesFrom F.Fn f.entry.now base low.entry.now low.exit.now }
    { in_turn(f, base, low) };
    let mut right = ||
        requires crosses { IsSync R.row × IsSync F.row × IsSend T.row }
        requires room { middle + length high.now < 2 ^ 64 }
        requires accepts { AcceptsFrom F.Fn f.now middle high.now }
        ensures { ChangesFrom F.Fn f.entry.now middle high.entry.now high.exit.now }
    { start_shares(rt, f, middle, rest, high) };
    join_mut(rt, &mut left, &mut right);
}

/// How many items are one share, where so many items are shared out so: at least one, and all where there is one share.
fn share_of(count: usize, shares: usize) -> usize
    requires { 1 ≤ count }
    ensures some { 1 ≤ result }
    ensures inside { result ≤ count }
{
    (count / shares.max(1)).max(1)
}

/// Calls `f` with each item and its place, each in a thread of its own where one can be made, and beside them `beside`
/// in the calling thread.
#[cycle(each)]
pub fn start_each<R: Threads + Sync, T: Send, F: Fn(usize, &mut T) + Sync, G: FnMut() -> X, X>(
    rt: &R,
    f: &F,
    base: usize,
    items: &mut [T],
    beside: &mut G,
) -> X
    requires room { base + length items.old < 2 ^ 64 }
    requires accepts { AcceptsFrom F.Fn f.now base items.old }
    requires beside { G.pre beside.old }
    ensures each { ChangesFrom F.Fn f.now base items.old items.new }
    ensures beside { G.step beside.old result beside.new }
{
    if items.is_empty() {
        beside()
    } else {
        let (low, high) = items.split_at_mut(1);
        start_both(rt, f, base, low, base + 1, high, beside)
    }
}

/// Takes some items in a new thread, and at once starts a thread for each of the items behind them.
#[cycle(each)]
fn start_both<R: Threads + Sync, T: Send, F: Fn(usize, &mut T) + Sync, G: FnMut() -> X, X>(
    rt: &R,
    f: &F,
    base: usize,
    low: &mut [T],
    middle: usize,
    high: &mut [T],
    beside: &mut G,
) -> X
    requires low_room { base + length low.old < 2 ^ 64 }
    requires low { AcceptsFrom F.Fn f.now base low.old }
    requires high_room { middle + length high.old < 2 ^ 64 }
    requires high { AcceptsFrom F.Fn f.now middle high.old }
    requires beside { G.pre beside.old }
    ensures low { ChangesFrom F.Fn f.now base low.old low.new }
    ensures high { ChangesFrom F.Fn f.now middle high.old high.new }
    ensures beside { G.step beside.old result beside.new }
{
    let mut left = ||
        requires room { base + length low.now < 2 ^ 64 }
        requires accepts { AcceptsFrom F.Fn f.now base low.now }
        ensures { ChangesFrom F.Fn f.entry.now base low.entry.now low.exit.now }
    { in_turn(f, base, low) };
    let mut right = || -> X
        requires crosses { IsSync R.row × IsSync F.row × IsSend T.row }
        requires room { middle + length high.now < 2 ^ 64 }
        requires accepts { AcceptsFrom F.Fn f.now middle high.now }
        requires beside { G.pre beside.now }
        ensures each { ChangesFrom F.Fn f.entry.now middle high.entry.now high.exit.now }
        ensures beside { G.step beside.entry.now result beside.exit.now }
    { start_each(rt, f, middle, high, beside) };
    let ((), answer) = join_mut(rt, &mut left, &mut right);
    answer
}

/// Calls `f` with each item and its place, in their order.
fn in_turn<T, F: Fn(usize, &mut T)>(f: &F, base: usize, items: &mut [T])
    requires room { base + length items.old < 2 ^ 64 }
    requires accepts { AcceptsFrom F.Fn f.now base items.old }
    ensures { ChangesFrom F.Fn f.now base items.old items.new }
{
    for offset in 0..items.len() {
        at_one(f, base + offset, &mut items[offset]);
    }
}

/// Calls `f` with one item and its place.
fn at_one<T, F: Fn(usize, &mut T)>(f: &F, place: usize, item: &mut T)
    requires { AcceptsAt F.Fn f.now place item.old }
    ensures { ChangesAt F.Fn f.now place item.old item.new }
{
    f(place, item);
}
