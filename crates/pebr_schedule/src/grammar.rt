//! The lines of a schedule.

ghost use Rattle.std.specs.Prelude.{◌≡◌, ◌&&◌, nat_le, IfOk, IfSome};
ghost use Rattle.pebr_core.specs.Kept.{IsWithinLimits};
ghost use Rattle.pebr_schedule.specs.Grammar.{is_small, step_of_one, step_of_two, step_of_three, step_of_four};
ghost use Rattle.pebr_schedule.specs.Grammar.{step_with, shape_with, step_of, shape_of};

use crate::pieces::{cut, numbers};
use pebr_core::{NoMemory, Shape, Step};
use std::alloc::Global;

/// A number of a step is at most this, unless it is a value to write.
const LARGEST: u64 = 65535;

/// Whether a number may stand in a step, where it isn't a value to write.
fn is_small(number: u64) -> bool
    ensures { result ≡ is_small number }
{
    number <= LARGEST
}

/// The step of this name with one number, if there is one.
fn step_of_one(name: &[u8], i: usize) -> Option<Step>
    ensures { result ≡ step_of_one name.now i }
{
    if name == b"note".as_slice() {
        return Some(Step::Note(i));
    }
    if name == b"pin".as_slice() {
        return Some(Step::Pin(i));
    }
    if name == b"leave".as_slice() {
        return Some(Step::Leave(i));
    }
    if name == b"advance".as_slice() {
        return Some(Step::Advance(i));
    }
    if name == b"check".as_slice() {
        return Some(Step::Check(i));
    }
    if name == b"give".as_slice() {
        return Some(Step::Give(i));
    }
    None
}

/// The step of this name with two numbers, if there is one.
fn step_of_two(name: &[u8], i: usize, j: usize) -> Option<Step>
    ensures { result ≡ step_of_two name.now i j }
{
    if name == b"look".as_slice() {
        return Some(Step::Look(i, j));
    }
    if name == b"eject".as_slice() {
        return Some(Step::Eject(i, j));
    }
    if name == b"load".as_slice() {
        return Some(Step::Load(i, j));
    }
    if name == b"unshield".as_slice() {
        return Some(Step::Unshield(i, j));
    }
    None
}

/// The step of this name with three numbers, if there is one.
fn step_of_three(name: &[u8], i: usize, j: usize, k: usize) -> Option<Step>
    ensures { result ≡ step_of_three name.now i j k }
{
    if name == b"shield".as_slice() {
        return Some(Step::Shield(i, j, k));
    }
    if name == b"read".as_slice() {
        return Some(Step::Read(i, j, k));
    }
    if name == b"scan".as_slice() {
        return Some(Step::Scan(i, j, k));
    }
    None
}

/// The step of this name with four numbers, if there is one: the last is the value to write, which may be any.
fn step_of_four(name: &[u8], i: usize, j: usize, k: usize, value: u64) -> Option<Step>
    ensures { result ≡ step_of_four name.now i j k value }
{
    if name == b"write".as_slice() {
        return Some(Step::Write(i, j, k, value));
    }
    if name == b"replace".as_slice() && is_small(value) {
        return Some(Step::Replace(i, j, k, value as usize));
    }
    None
}

/// The step of this name with these numbers, if there is one.
fn step_with(name: &[u8], numbers: &[u64]) -> Option<Step>
    ensures { result ≡ step_with name.now numbers.now }
{
    match numbers {
        [i] if is_small(*i) => step_of_one(name, *i as usize),
        [i, j] if is_small(*i) && is_small(*j) => step_of_two(name, *i as usize, *j as usize),
        [i, j, k] if is_small(*i) && is_small(*j) && is_small(*k) => {
            step_of_three(name, *i as usize, *j as usize, *k as usize)
        }
        [i, j, k, value] if is_small(*i) && is_small(*j) && is_small(*k) => {
            step_of_four(name, *i as usize, *j as usize, *k as usize, *value)
        }
        _ => None,
    }
}

/// Whether a number is from 1 to `most`.
fn is_within(number: u64, most: u64) -> bool
    ensures { result ≡ (nat_le 1 number && nat_le number most) }
{
    1 <= number && number <= most
}

/// The shape of a core that a line of this name and these numbers gives, if it is such a line and within the limits.
fn shape_with(name: &[u8], numbers: &[u64]) -> Option<Shape>
    ensures shape { result ≡ shape_with name.now numbers.now }
    ensures limits { IfSome result IsWithinLimits }
{
    let [roots, seats, shields, batch, width] = numbers else {
        return None;
    };
    let is_shape = name == b"core".as_slice()
        && is_within(*roots, 64)
        && is_within(*seats, 16)
        && is_within(*shields, 8)
        && is_within(*batch, 64)
        && is_within(*width, 10);
    if !is_shape {
        return None;
    }
    Some(Shape {
        roots: *roots as usize,
        seats: *seats as usize,
        shields: *shields as usize,
        batch: *batch as usize,
        width: *width as usize,
    })
}

/// The step of a line, if it is one.
pub fn step_of(alloc: Global, line: &[u8]) -> Result<Option<Step>, NoMemory>
    ensures { IfOk result (λ step. step ≡ step_of line.now) }
{
    let (name, rest) = cut(line, b' ');
    match numbers(alloc, rest)? {
        Some(numbers) => Ok(step_with(name, &numbers)),
        None => Ok(None),
    }
}

/// The shape of a core that the first line gives, if it is such a line and within the limits.
pub fn shape_of(alloc: Global, line: &[u8]) -> Result<Option<Shape>, NoMemory>
    ensures shape { IfOk result (λ shape. shape ≡ shape_of line.now) }
    ensures limits { IfOk result (λ shape. IfSome shape IsWithinLimits) }
{
    let (name, rest) = cut(line, b' ');
    match numbers(alloc, rest)? {
        Some(numbers) => Ok(shape_with(name, &numbers)),
        None => Ok(None),
    }
}
