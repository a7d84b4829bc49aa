// The core, on the first eight records by value and how many there are.
ghost use Rattle.std.specs.Prelude.{◌≡◌, [], ℕ, ◌-◌, ◌<◌, ◌≤◌, Some};
ghost use Rattle.dispatch.specs.Dispatch.{first_busy, next, answer_at};
ghost use Rattle.dispatch.specs.Turn.{turn_of, turn_among};

use super::{Dispatched, Record, Turn};

// The first busy one of the numbers from `from` up to `to`, that one left out.
fn first_busy(list: [Record; 8], from: usize, to: usize) -> Option<usize>
    requires { to ≤ 8 }
    ensures { result ≡ first_busy list from (to - from) }
{
    for i in from..to {
        let r = list[i];
        if r.busy {
            return Some(i);
        }
    }
    None
}

// The next busy one in the circle after the last served.
fn next_busy(list: [Record; 8], count: usize, last: usize) -> Option<usize>
    requires { (count ≤ 8) × (last < count) }
    ensures { result ≡ next list count last }
{
    let behind = first_busy(list, last + 1, count);
    match behind {
        Some(_) => behind,
        None => first_busy(list, 0, last + 1),
    }
}

// A refused call stores nothing.
fn refused(count: usize, number: u8) -> Turn
    ensures { result ≡ turn_of [] count (Dispatched.Refused number) }
{
    Turn {
        answer: Dispatched::Refused(number),
        at: count,
        turns: 0,
    }
}

// The turn of the one found: one more, unless its record is full.
fn turn_at(list: [Record; 8], count: usize, found: Option<usize>) -> Turn
    requires { (i : ℕ) → found ≡ Some i → i < 8 }
    ensures { result ≡ turn_of list count (answer_at list found) }
{
    let Some(i) = found else {
        return Turn {
            answer: Dispatched::Nothing,
            at: count,
            turns: 0,
        };
    };
    let r = list[i];
    if r.turns == 4294967295 {
        return refused(count, 36);
    }
    Turn {
        answer: Dispatched::Picked(i as u8),
        at: i,
        turns: r.turns + 1,
    }
}

// The whole call, on the first eight records of `count`.
pub(crate) fn served(list: [Record; 8], count: usize, last: u8) -> Turn
    ensures { result ≡ turn_among list count last }
{
    if count == 0 {
        return refused(count, 48);
    }
    if count > 8 {
        return refused(count, 48);
    }
    let served = last as usize;
    if served >= count {
        return refused(count, 49);
    }
    turn_at(list, count, next_busy(list, count, served))
}
