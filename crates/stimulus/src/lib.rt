// The lines of the two files that stand beside a sheet: a line of inputs, which is a clock cycle, and a line of the names file.
// Each function equals its definition in specs/, for every line.
#![tactic(auto)]

mod names;
mod numbers;
mod pieces;
mod words;

ghost use Rattle.std.specs.Prelude.{◌≡◌, true, length, ◌+◌, ◌<◌, ◌≤◌};
ghost use Rattle.stimulus.specs.Numbers.{is_sized, quote_at};
ghost use Rattle.stimulus.specs.Lines.{entry, took, admitted, fitted, cut, sized, quoted, quoted_of, entry_of};
ghost use Rattle.stimulus.specs.Lines.{cell_at, taken, slots, surplus, first_place, values_of, line_of};
ghost use Rattle.stimulus.specs.Names.{name_of};
ghost use Rattle.stimulus.specs.Counting.{counted};

pub use numbers::number_of;
use numbers::{bits_of, is_bits, is_hex, is_x, sized_at};
pub use pieces::{find_line, line_end};
use values::Value;
use words::{at_end, byte_at, run_end};

// Kinds of characters: blanks; what a word is made of, all but blanks, commas and `#`; letters, digits and `_`.
#[derive(Clone, Copy)]
pub enum Class {
    Blank,
    Word,
    Name,
}

// What waits of a file in a buffer: a line that ends at a place, nothing before more is read, a line that is longer than the buffer, or
// nothing at all.
#[derive(Clone, Copy)]
pub enum Waiting {
    Whole(usize),
    More,
    Long,
    Nothing,
}

// What a line of inputs holds. error: 0 a value for each input, 1 no cycle (blank, or a comment), 2 a value that is no number,
// 3 one too wide for its input, 4 too few values, 5 too many, 6 an empty cell; column, from 1: of the value concerned, for 4 of the
// line's end, for 6 of the comma.
// Input k's value stands in slot k, number and marks of unknown bits, the clock's slot 0 is 0; count: the slots that are filled, the
// clock's with them. Stays a record with a number: what is refused keeps the values before it (`line_of` of specs/Lines says which).
#[derive(Clone, Copy)]
pub struct Line {
    pub error: u8,
    pub column: usize,
    pub count: u8,
    pub value: [u32; 16],
    pub unknown: [u32; 16],
}

// What a line of the names file holds. error: 0 a variable and its name, line[from..to]; 1 none (blank, or a comment); 2 no such
// variable; 3 a name that is not allowed. column, from 1: of the word or the name concerned. Stays a record with a number: what is refused
// keeps where the name stands (`name_of` of specs/Names).
#[derive(Clone, Copy)]
pub struct NameLine {
    pub error: u8,
    pub column: usize,
    pub variable: u8,
    pub from: usize,
    pub to: usize,
}

// Digits that were read: was each a digit, and their number. Stays a record: `number_of` of specs/Numbers gives a number of bad digits too.
#[derive(Clone, Copy)]
pub struct Number {
    pub good: bool,
    pub n: u64,
}

// Binary digits that were read: was each 0, 1 or x; 32 bits of their number, and the marks of the x among them. Stays a record, as
// `bits_of` of specs/Numbers has it.
#[derive(Clone, Copy)]
pub struct Bits {
    pub good: bool,
    pub number: u32,
    pub marks: u32,
}

// A word read as a value: the error, 0, 2 or 3; the marks of its unknown bits; the number, 0 under each mark. Stays a record, as
// `entry_of` of specs/Lines has it.
#[derive(Clone, Copy)]
pub struct Entry {
    pub error: u8,
    pub unknown: u32,
    pub number: u32,
}

// A value taken from a line: its error, 0, 2, 3, 4 or 6; its column; the place behind it; the value. Stays a record, as `taken` of
// specs/Lines has it.
#[derive(Clone, Copy)]
pub struct Taken {
    pub error: u8,
    pub column: usize,
    pub to: usize,
    pub unknown: u32,
    pub number: u32,
}

// One more; a count of lines, words or cycles stays below 2^32.
pub fn counted(n: usize) -> usize
    ensures { result ≡ counted n }
{
    if n < 4294967295 { n + 1 } else { n }
}

// ---- values

// What is no value: error 2 or 3.
fn faulty(error: u8) -> Entry
    ensures { result ≡ entry error 0 0 }
{
    Entry {
        error,
        unknown: 0,
        number: 0,
    }
}

// A value as one of a width.
fn admitted(width: u8, a: Value) -> Entry
    ensures { result ≡ admitted width a }
{
    if !values::fits(width, a) {
        return faulty(3);
    }
    Entry {
        error: 0,
        unknown: values::marks_of(a),
        number: values::number_of(a),
    }
}

// A number as a value of a width.
fn fitted(width: u8, a: Number) -> Entry
    ensures { result ≡ fitted width a }
{
    if !a.good {
        return faulty(2);
    }
    let n = a.n;
    if 4294967296 <= n {
        return faulty(3);
    }
    admitted(width, values::known(n as u32))
}

// Digits as a value of so many bits.
fn cut(size: u8, a: Bits) -> Value
    ensures { result ≡ cut size a }
{
    let mask = values::marks_of(values::all_unknown(size));
    Value {
        number: a.number & mask,
        unknown: a.marks & mask,
    }
}

// So many digits as a value of `size` bits, for an input of a width.
fn sized(width: u8, size: u8, count: usize, a: Bits) -> Entry
    ensures { result ≡ sized width size count a }
{
    if !a.good {
        return faulty(2);
    }
    if (size as usize) < count {
        return faulty(3);
    }
    admitted(width, cut(size, a))
}

// So many digits behind a width and a quote.
fn quoted(width: u8, size: Number, count: usize, a: Bits) -> Entry
    ensures { result ≡ quoted width size count a }
{
    if !size.good {
        return faulty(2);
    }
    let n = size.n;
    if 33 <= n {
        return faulty(3);
    }
    sized(width, n as u8, count, a)
}

// A word with a quote at that place as a value of a width.
fn quoted_of(width: u8, word: &[u8], q: usize) -> Entry
    requires sized { is_sized word.now ≡ true }
    requires quote { q ≡ quote_at word.now }
    ensures { result ≡ quoted_of width word.now }
{
    let front = &word[0..q];
    let size = number_of(false, front, 0);
    let a = bits_of(word, q + 2);
    quoted(width, size, word.len() - (q + 2), a)
}

// A word as a value of a width.
fn entry_of(width: u8, word: &[u8]) -> Entry
    ensures { result ≡ entry_of width word.now }
{
    if is_x(word) {
        return Entry {
            error: 0,
            unknown: values::marks_of(values::all_unknown(width)),
            number: 0,
        };
    }
    if is_hex(word) {
        let a = number_of(true, word, 2);
        return fitted(width, a);
    }
    if is_bits(word) {
        let a = bits_of(word, 1);
        return sized(width, width, word.len() - 1, a);
    }
    match sized_at(word) {
        Some(q) => quoted_of(width, word, q),
        None => {
            let a = number_of(false, word, 0);
            fitted(width, a)
        }
    }
}

// Where the value of input k stands, from the end of the one before.
fn cell_at(line: &[u8], k: u8, at: usize) -> usize
    requires { at ≤ length line.now }
    ensures { result ≡ cell_at line.now k at }
{
    let p = run_end(line, at, Class::Blank);
    if k < 2 {
        return p;
    }
    if byte_at(line, p) != b',' {
        return p;
    }
    run_end(line, p + 1, Class::Blank)
}

// No value at a place.
fn no_value(error: u8, p: usize) -> Taken
    requires { p + 1 < 18446744073709551616 }
    ensures { result ≡ took p p (entry error 0 0) }
{
    Taken {
        error,
        column: p + 1,
        to: p,
        unknown: 0,
        number: 0,
    }
}

// The value at a place of the line.
fn take_value(line: &[u8], p: usize, width: u8) -> Taken
    requires { p ≤ length line.now }
    ensures { result ≡ taken line.now p width }
{
    if at_end(line, p) {
        return no_value(4, p);
    }
    if byte_at(line, p) == b',' {
        return no_value(6, p);
    }
    let to = run_end(line, p, Class::Word);
    let word = &line[p..to];
    let e = entry_of(width, word);
    Taken {
        error: e.error,
        column: p + 1,
        to,
        unknown: e.unknown,
        number: e.number,
    }
}

// ---- lines

// The slots of a row that so many inputs take, at most 16.
#[tactic(auto, unfolding(crate::specs::Lines::slots))]
fn slots(inputs: u8) -> u8
    ensures { result ≡ slots inputs }
{
    inputs.min(16)
}

// 0 where the line ends at that place, else 5. Stays a number: the error of a Line, which `parse` hands on.
fn surplus(line: &[u8], p: usize) -> u8
    ensures { result ≡ surplus line.now p }
{
    if at_end(line, p) { 0 } else { 5 }
}

// The values from a place on, and nothing behind them.
fn read_values(line: &[u8], widths: &[u8], inputs: u8, from: usize) -> Line
    requires { from ≤ length line.now }
    ensures { result ≡ values_of line.now widths.now inputs from }
{
    let n = slots(inputs);
    let mut value = [0u32; 16];
    let mut unknown = [0u32; 16];
    let mut at = from;
    for k in 1..n {
        let slot = k as usize;
        let p = cell_at(line, k, at);
        let t = take_value(line, p, byte_at(widths, slot));
        if t.error != 0 {
            return Line {
                error: t.error,
                column: t.column,
                count: k,
                value,
                unknown,
            };
        }
        value[slot] = t.number;
        unknown[slot] = t.unknown;
        at = t.to;
    }
    let p = run_end(line, at, Class::Blank);
    let error = surplus(line, p);
    Line {
        error,
        column: p + 1,
        count: n.max(1),
        value,
        unknown,
    }
}

// Where the values start. Where there is none but the clock, a cycle is written `-`.
fn first_place(line: &[u8], inputs: u8, p: usize) -> usize
    requires { p ≤ length line.now }
    ensures { result ≡ first_place line.now inputs p }
{
    if 2 <= inputs {
        return p;
    }
    if byte_at(line, p) != b'-' {
        return p;
    }
    let next = p + 1;
    let end = run_end(line, p, Class::Word);
    if end != next {
        return p;
    }
    next
}

// A line of inputs, without its line end.
pub fn parse(line: &[u8], widths: &[u8], inputs: u8) -> Line
    ensures { result ≡ line_of line.now widths.now inputs }
{
    let p = run_end(line, 0, Class::Blank);
    if at_end(line, p) {
        return Line {
            error: 1,
            column: p + 1,
            count: 1,
            value: [0u32; 16],
            unknown: [0u32; 16],
        };
    }
    let from = first_place(line, inputs, p);
    read_values(line, widths, inputs, from)
}

// ---- names

// A line of the names file, without its line end.
pub fn parse_name(line: &[u8], inputs: u8, registers: u8, wires: u8) -> NameLine
    ensures { result ≡ name_of line.now inputs registers wires }
{
    let p = run_end(line, 0, Class::Blank);
    if at_end(line, p) {
        return NameLine {
            error: 1,
            column: p + 1,
            variable: 0,
            from: p,
            to: p,
        };
    }
    let to = run_end(line, p, Class::Word);
    let word = &line[p..to];
    let v = names::variable_of(word, inputs, registers, wires);
    names::name_after(line, p, to, v)
}
