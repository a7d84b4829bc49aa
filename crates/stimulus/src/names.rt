// What a line of the names file is made of: a variable and its name.
ghost use Rattle.std.specs.Prelude.{◌≡◌, ◌≤◌, length};
ghost use Rattle.stimulus.specs.Names.{below, variable_of, variable_in, number_in, name_error, name_after};

use crate::numbers::number_of;
use crate::words::{at_end, byte_at, run_end};
use crate::{Class, NameLine};

// Variable `n` of `count` that are numbered from `from` on; there is none above 255.
#[tactic(auto, unfolding(crate::specs::Names::below))]
fn below(from: usize, count: u8, n: u64) -> Option<u8>
    requires { from ≤ 510 }
    ensures { result ≡ variable_in (below from count n) }
{
    if n < count as u64 {
        let v = from + n as usize;
        if v < 256 { Some(v as u8) } else { None }
    } else {
        None
    }
}

// The variable that a word names.
pub fn variable_of(word: &[u8], inputs: u8, registers: u8, wires: u8) -> Option<u8>
    ensures { result ≡ variable_in (variable_of word.now inputs registers wires) }
{
    if word.len() < 2 {
        return None;
    }
    let a = number_of(false, word, 1);
    if !a.good {
        return None;
    }
    let n = a.n;
    let letter = byte_at(word, 0);
    if letter == b'i' {
        return below(0, inputs, n);
    }
    if letter == b'r' {
        return below(inputs as usize, registers, n);
    }
    if letter == b'w' {
        return below(inputs as usize + registers as usize, wires, n);
    }
    None
}

// 0 where the bytes from `from` to `to` are a name with nothing behind it, else 3.
// Stays a number: the error of a NameLine, which `parse_name` hands on.
fn name_error(line: &[u8], from: usize, to: usize) -> u8
    ensures { result ≡ name_error line.now from to }
{
    if to <= from {
        return 3;
    }
    if 31 < to - from {
        return 3;
    }
    if byte_at(line, from) < 58 {
        return 3;
    }
    let p = run_end(line, to, Class::Blank);
    if at_end(line, p) { 0 } else { 3 }
}

// The name behind the variable that a word from `p` to `to` names.
pub fn name_after(line: &[u8], p: usize, to: usize, v: Option<u8>) -> NameLine
    requires { (p ≤ length line.now) × (to ≤ length line.now) }
    ensures { result ≡ name_after line.now p to (number_in v) }
{
    let from = run_end(line, to, Class::Blank);
    let end = run_end(line, from, Class::Name);
    match v {
        None => NameLine {
            error: 2,
            column: p + 1,
            variable: 0,
            from,
            to: end,
        },
        Some(variable) => NameLine {
            error: name_error(line, from, end),
            column: from + 1,
            variable,
            from,
            to: end,
        },
    }
}
