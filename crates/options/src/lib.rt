// What the words of a command line ask for: taken one by one, and judged at the end. Each function equals its definition in specs/,
// for every word. An option is a row of a table: a slot that keeps the number of the word it is given by.
#![tactic(auto)]

mod judging;
mod tables;

ghost use Rattle.std.specs.Prelude.{◌≡◌};
ghost use Rattle.options.specs.Options.{nothing, advanced, noted, valued, wanting, misplaced, least_of, numbered};
ghost use Rattle.options.specs.Options.{is_dash, is_barred, filled, is_dashed, named, placed, fresh, taken};

pub use judging::{joined, judge, names_of, sheet_of, status_of, wants_status};
use stimulus::number_of;
use tables::{command_of, is_number, is_written, option_of};

// What the words so far have asked for: how many there are, the command's number or 0, the slot whose word is to come or 0, the first
// word that is out of place or 0, and its fault; the numbers of the slots, and the words that give them. Its numbers stay: `take` and
// `judge` are given it, and `options` of specs/Options makes it of numbers.
#[derive(Clone, Copy)]
pub struct Options {
    pub words: usize,
    pub command: usize,
    pub wants: usize,
    pub wrong: usize,
    pub fault: u8,
    pub value: [u32; 40],
    pub at: [usize; 40],
}

// By which way a run goes: the plain run, choices drawn by a seed, the extracted expressions, or the plain run with its work counted.
#[derive(Clone, Copy)]
pub enum Way {
    Plain,
    Drawn(u32),
    Expressed,
    Counted,
}

// What the table shows: the base of its numbers, commas or columns, the inputs and the wires beside the registers, the word that names
// its variables or 0, the cycles from one to another and every how many, or only the last one.
#[derive(Clone, Copy)]
pub struct Shape {
    pub base: u8,
    pub csv: bool,
    pub inputs: bool,
    pub wires: bool,
    pub only: usize,
    pub from: usize,
    pub to: usize,
    pub every: usize,
    pub last: bool,
}

// `run`: the numbers of the words that name files, 0 where there is none, and what is to be shown.
#[derive(Clone, Copy)]
pub struct RunOptions {
    pub sheet: usize,
    pub inputs: usize,
    pub names: usize,
    pub vcd: usize,
    pub save: usize,
    pub load: usize,
    pub init: usize,
    pub expect: usize,
    pub user: u32,
    pub allowance: usize,
    pub way: Way,
    pub shape: Shape,
    pub progress: bool,
    pub silent: bool,
}

#[derive(Clone, Copy)]
pub struct ExtractOptions {
    pub sheet: usize,
    pub names: usize,
    pub dot: bool,
}

#[derive(Clone, Copy)]
pub struct CompareOptions {
    pub sheet: usize,
    pub inputs: usize,
}

// A command with its options.
#[derive(Clone, Copy)]
pub enum Command {
    List(usize),
    Check(usize),
    Run(RunOptions),
    Extract(ExtractOptions),
    Compare(CompareOptions),
    Verilog(usize),
    Explain(usize, usize),
}

// What all words ask for: help, the version, a command, or nothing that can be done: a word is missing (1 the command, 2 the sheet, 3 the
// inputs), or this word is out of place, by this fault. Both stay numbers, as `lacking` and `misplaced` of specs/ have them.
#[derive(Clone, Copy)]
pub enum Request {
    Help,
    Version,
    Short(u8),
    Wrong(usize, u8),
    Asked(Command),
}

// A word that is missing, by its number in `Request::Short`.
#[derive(Clone, Copy)]
enum Missing {
    Command = 1,
    Sheet = 2,
    Inputs = 3,
}

// How a command ends.
#[derive(Clone, Copy)]
pub enum Outcome {
    Done,
    Refused,
    Different,
    Mistaken,
}

// ---- what a word changes

// Before the first word.
pub fn begin() -> Options
    ensures { result ≡ nothing }
{
    Options {
        words: 0,
        command: 0,
        wants: 0,
        wrong: 0,
        fault: 0,
        value: [0u32; 40],
        at: [0usize; 40],
    }
}

// One word more.
#[tactic(auto, unfolding(crate::specs::Options::advanced))]
fn advanced(o: Options) -> Options
    ensures { result ≡ advanced o }
{
    Options {
        words: stimulus::counted(o.words),
        wants: 0,
        ..o
    }
}

// A slot is given by the last word.
#[tactic(auto, unfolding(crate::specs::Options::noted))]
fn noted(o: Options, slot: usize) -> Options
    ensures { result ≡ noted o slot }
{
    if 40 <= slot {
        return o;
    }
    let mut at = o.at;
    at[slot] = o.words;
    Options { at, ..o }
}

// A slot has a number.
#[tactic(auto, unfolding(crate::specs::Options::valued))]
fn valued(o: Options, slot: usize, n: u32) -> Options
    ensures { result ≡ valued o slot n }
{
    if 40 <= slot {
        return o;
    }
    let mut value = o.value;
    value[slot] = n;
    Options { value, ..o }
}

// A slot wants the next word.
#[tactic(auto, unfolding(crate::specs::Options::wanting))]
fn wanting(o: Options, slot: usize) -> Options
    ensures { result ≡ wanting o slot }
{
    Options { wants: slot, ..o }
}

// The last word is out of place; the first such word counts.
#[tactic(auto, unfolding(crate::specs::Options::misplaced))]
fn misplaced(o: Options, fault: u8) -> Options
    ensures { result ≡ misplaced o fault }
{
    if o.wrong != 0 {
        return o;
    }
    Options {
        wrong: o.words,
        fault,
        ..o
    }
}

// ---- words

// The least number that a slot takes.
#[tactic(auto, unfolding(crate::specs::Options::least_of))]
fn least_of(slot: usize) -> u64
    ensures { result ≡ least_of slot }
{
    if slot == 6 { 1 } else { 0 }
}

// A slot's number is given by a word: a decimal number below 2^32.
#[tactic(auto, unfolding(crate::specs::Options::numbered))]
fn numbered(o: Options, slot: usize, word: &[u8]) -> Options
    ensures { result ≡ numbered o slot word.now }
{
    let a = number_of(false, word, 0);
    let n = a.n;
    if word.len() == 0 || !a.good || 4294967296 <= n || n < least_of(slot) {
        return misplaced(o, 3);
    }
    valued(noted(o, slot), slot, n as u32)
}

// Is the word `-`?
#[tactic(auto, unfolding(crate::specs::Options::is_dash))]
fn is_dash(word: &[u8]) -> bool
    ensures { result ≡ is_dash word.now }
{
    word.len() == 1 && word[0] == b'-'
}

// Is it a file to be written, on standard output?
#[tactic(auto, unfolding(crate::specs::Options::is_barred))]
fn is_barred(slot: usize, word: &[u8]) -> bool
    ensures { result ≡ is_barred slot word.now }
{
    is_written(slot) && is_dash(word)
}

// The word that a slot wants.
fn filled(o: Options, slot: usize, word: &[u8]) -> Options
    ensures { result ≡ filled o slot word.now }
{
    if is_number(slot) {
        return numbered(o, slot, word);
    }
    if is_barred(slot, word) {
        return misplaced(o, 7);
    }
    noted(o, slot)
}

// Does the word start with `-` and go on?
#[tactic(auto, unfolding(crate::specs::Options::is_dashed))]
fn is_dashed(word: &[u8]) -> bool
    ensures { result ≡ is_dashed word.now }
{
    2 <= word.len() && word[0] == b'-'
}

// A command by its number, 0 for none.
fn named(o: Options, n: usize) -> Options
    ensures { result ≡ named o n }
{
    if n == 0 {
        return misplaced(o, 1);
    }
    if n == 7 {
        return noted(o, 33);
    }
    Options { command: n, ..o }
}

// A word that is no option: the command, the sheet, the inputs.
fn placed(o: Options, word: &[u8]) -> Options
    ensures { result ≡ placed o word.now }
{
    if o.command == 0 {
        return named(o, command_of(word));
    }
    let at = o.at;
    if at[30] == 0 {
        return noted(o, 30);
    }
    if at[31] == 0 {
        return noted(o, 31);
    }
    misplaced(o, 4)
}

// A word that no slot wants.
fn fresh(o: Options, word: &[u8]) -> Options
    ensures { result ≡ fresh o word.now }
{
    let slot = option_of(word);
    if 19 < slot {
        return noted(o, slot);
    }
    if 0 < slot {
        return wanting(o, slot);
    }
    if is_dashed(word) {
        return misplaced(o, 2);
    }
    placed(o, word)
}

// The next word.
pub fn take(o: Options, word: &[u8]) -> Options
    ensures { result ≡ taken o word.now }
{
    let n = advanced(o);
    if o.wants == 0 {
        return fresh(n, word);
    }
    filled(n, o.wants, word)
}
