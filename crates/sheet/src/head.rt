// The head of a sheet: the counts and the widths.
ghost use Rattle.std.specs.Prelude.{◌≡◌, ◌-◌, ◌<◌, length};
ghost use Rattle.sheet.specs.Functions.{read_widths};
ghost use Rattle.sheet.specs.Module.{inputs_of, first_at, function_count, widths_at};
ghost use Rattle.sheet.specs.Parts.{byte_answer, widths_answer};
ghost use Rattle.sheet.specs.Reader.{read_clock, counts_answer, counts_from, widths_from, other_widths, head_end};

use super::bytes::read_within;
use super::{ByteRead, HeadRead, WidthsRead};

// The widths from a place up to another.
pub(crate) fn read_widths(sheet: &[u8], first: usize, end: usize) -> WidthsRead
    ensures { result ≡ widths_answer (read_widths (end - first) sheet.now first) }
{
    for at in first..end {
        let read = read_within(sheet, at, 1, 32, 4);
        if let ByteRead::Refused { number, place } = read {
            return WidthsRead::Refused { number, place };
        }
    }
    WidthsRead::Fine
}

// What is left of the first byte: the count of inputs.
pub(crate) fn inputs_of(first: u8) -> u8
    ensures { result ≡ inputs_of first }
{
    if first < 128 { first } else { first - 128 }
}

// The first byte: its inputs are 1 to 16.
pub(crate) fn read_first(sheet: &[u8], at: usize) -> ByteRead
    ensures { result ≡ byte_answer (first_at sheet.now at) }
{
    let end = sheet.len();
    if end <= at {
        return ByteRead::Refused {
            number: 2,
            place: end,
        };
    }
    let b = sheet[at];
    let inputs = inputs_of(b);
    if inputs < 1 || 16 < inputs {
        return ByteRead::Refused {
            number: 3,
            place: at,
        };
    }
    ByteRead::Byte(b)
}

// The count of functions, by the first byte.
pub(crate) fn read_function_count(sheet: &[u8], at: usize, first: u8) -> ByteRead
    ensures { result ≡ byte_answer (function_count first sheet.now at) }
{
    if first < 128 {
        return ByteRead::Byte(0);
    }
    read_within(sheet, at, 1, 8, 3)
}

// The place of the first width, by the count of functions.
pub(crate) fn widths_at(functions: u8) -> usize
    ensures { result ≡ widths_at functions }
{
    if 0 < functions { 5 } else { 4 }
}

// The count of functions and the clock's width, once the other counts were read.
fn read_clock(sheet: &[u8], at: usize, first: u8, registers: u8, wires: u8, threads: u8) -> HeadRead
    requires { at < length sheet.now }
    ensures { result ≡ counts_answer (read_clock sheet.now at first registers wires threads) }
{
    let functions = match read_function_count(sheet, at + 4, first) {
        ByteRead::Byte(b) => b,
        ByteRead::Refused { number, place } => {
            return HeadRead::Refused { number, place };
        }
    };
    if let ByteRead::Refused { number, place } = read_within(
        sheet,
        at + widths_at(functions),
        1,
        1,
        4,
    ) {
        return HeadRead::Refused { number, place };
    }
    HeadRead::Read {
        inputs: inputs_of(first),
        registers,
        wires,
        threads,
        functions,
    }
}

// The counts and the clock's width from a place on, in a sheet that isn't too long.
pub(crate) fn read_counts(sheet: &[u8], at: usize) -> HeadRead
    ensures { result ≡ counts_from sheet.now at }
{
    if 8192 < sheet.len() {
        return HeadRead::Refused {
            number: 1,
            place: 8192,
        };
    }
    let first = match read_first(sheet, at) {
        ByteRead::Byte(b) => b,
        ByteRead::Refused { number, place } => {
            return HeadRead::Refused { number, place };
        }
    };
    let registers = match read_within(sheet, at + 1, 1, 32, 3) {
        ByteRead::Byte(b) => b,
        ByteRead::Refused { number, place } => {
            return HeadRead::Refused { number, place };
        }
    };
    let wires = match read_within(sheet, at + 2, 0, 32, 3) {
        ByteRead::Byte(b) => b,
        ByteRead::Refused { number, place } => {
            return HeadRead::Refused { number, place };
        }
    };
    let threads = match read_within(sheet, at + 3, 1, 8, 3) {
        ByteRead::Byte(b) => b,
        ByteRead::Refused { number, place } => {
            return HeadRead::Refused { number, place };
        }
    };
    read_clock(sheet, at, first, registers, wires, threads)
}

// The other widths, from a place up to where the counts say that the head ends.
pub(crate) fn widths_after(sheet: &[u8], at: usize, counts: HeadRead) -> HeadRead
    ensures { result ≡ widths_from sheet.now at counts }
{
    match read_widths(sheet, at, head_end(counts)) {
        WidthsRead::Refused { number, place } => HeadRead::Refused { number, place },
        WidthsRead::Fine => counts,
    }
}

// The place behind the clock's width; a refused head has no widths.
pub(crate) fn other_widths(counts: HeadRead) -> usize
    ensures { result ≡ other_widths counts }
{
    match counts {
        HeadRead::Refused { .. } => 0,
        HeadRead::Read { functions, .. } => widths_at(functions) + 1,
    }
}

// Where a head with these counts ends; a refused one has no widths.
pub(crate) fn head_end(head: HeadRead) -> usize
    ensures { result ≡ head_end head }
{
    match head {
        HeadRead::Refused { .. } => 0,
        HeadRead::Read {
            inputs,
            registers,
            wires,
            functions,
            ..
        } => widths_at(functions) + (inputs as usize) + (registers as usize) + (wires as usize),
    }
}
