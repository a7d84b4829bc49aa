// What all words ask for, and the status of what came of it.
ghost use Rattle.std.specs.Prelude.{◌≡◌, get_or};
ghost use Rattle.stimulus.specs.Counting.{found_at};
ghost use Rattle.options.specs.Requests.{is_given, is_fitting, is_misfit, misfit, lacking, lack_of};
ghost use Rattle.options.specs.Requests.{way_of, clashing, based, kind_of, fault_of};
ghost use Rattle.options.specs.Requests.{base_of, last_of, every_of, shape_of, run_of, commanded};
ghost use Rattle.options.specs.Requests.{paired, fitted, judged, request, sheet_of, names_of};
ghost use Rattle.options.specs.Status.{joined, status_of};

use crate::tables::{goes_beside, goes_with, is_fed};
use crate::{
    Command, CompareOptions, ExtractOptions, Missing, Options, Outcome, Request, RunOptions, Shape,
    Way,
};

// The number of a slot's word, 0 where it is not given.
fn word_of(o: Options, slot: usize) -> usize
    ensures { result ≡ get_or o.at slot 0 }
{
    o.at.get(slot).copied().unwrap_or(0)
}

#[tactic(auto, unfolding(crate::specs::Requests::is_given))]
fn is_given(o: Options, slot: usize) -> bool
    ensures { result ≡ is_given o slot }
{
    word_of(o, slot) != 0
}

// Does a slot go with a command, or with a kind of run?
#[tactic(auto, unfolding(crate::specs::Requests::is_fitting))]
fn is_fitting(command: usize, slot: usize) -> bool
    ensures { result ≡ is_fitting command slot }
{
    if command < 10 {
        return goes_with(command, slot);
    }
    goes_beside(command, slot)
}

// Is a slot given by a word, and does not go with the command?
#[tactic(auto, unfolding(crate::specs::Requests::is_misfit))]
fn is_misfit(command: usize, slot: usize, n: usize) -> bool
    ensures { result ≡ is_misfit command slot n }
{
    n != 0 && !is_fitting(command, slot)
}

// The word of the first slot that is given and does not go with the command.
fn misfit(command: usize, at: [usize; 40]) -> Option<usize>
    ensures { result ≡ found_at (misfit command 0 at) }
{
    for k in 0..40 {
        let n = at[k];
        if is_misfit(command, k, n) {
            return Some(n);
        }
    }
    None
}

// Which word is missing.
#[tactic(auto, unfolding(crate::specs::Requests::lacking))]
fn lacking(o: Options) -> Option<Missing>
    ensures { lack_of result ≡ lacking o }
{
    if o.command == 0 {
        return Some(Missing::Command);
    }
    if !is_given(o, 30) {
        return Some(Missing::Sheet);
    }
    if !is_fed(o.command) {
        return None;
    }
    if is_given(o, 31) {
        return None;
    }
    Some(Missing::Inputs)
}

// The number of a slot, 0 where none is given.
fn number_at(o: Options, slot: usize) -> u32
    ensures { result ≡ get_or o.value slot 0 }
{
    o.value.get(slot).copied().unwrap_or(0)
}

// By which way a run goes.
fn way_of(o: Options) -> Way
    ensures { result ≡ way_of o }
{
    if is_given(o, 20) {
        return Way::Expressed;
    }
    if is_given(o, 3) {
        return Way::Drawn(number_at(o, 3));
    }
    if is_given(o, 35) {
        return Way::Counted;
    }
    Way::Plain
}

// The base of the numbers in the table.
#[tactic(auto, unfolding(crate::specs::Requests::base_of))]
fn base_of(o: Options) -> u8
    ensures { result ≡ base_of o }
{
    if is_given(o, 27) {
        return 16;
    }
    if is_given(o, 28) { 2 } else { 10 }
}

// The last cycle of those to be shown.
#[tactic(auto, unfolding(crate::specs::Requests::last_of))]
fn last_of(o: Options) -> usize
    ensures { result ≡ last_of o }
{
    if is_given(o, 5) {
        return number_at(o, 5) as usize;
    }
    4294967295
}

// Every so many cycles.
#[tactic(auto, unfolding(crate::specs::Requests::every_of))]
fn every_of(o: Options) -> usize
    ensures { result ≡ every_of o }
{
    if is_given(o, 6) {
        return number_at(o, 6) as usize;
    }
    1
}

// What the table shows.
fn shape_of(o: Options) -> Shape
    ensures { result ≡ shape_of o }
{
    Shape {
        base: base_of(o),
        csv: is_given(o, 29),
        inputs: is_given(o, 26),
        wires: is_given(o, 21),
        only: word_of(o, 7),
        from: number_at(o, 4) as usize,
        to: last_of(o),
        every: every_of(o),
        last: is_given(o, 22),
    }
}

fn run_of(o: Options) -> RunOptions
    ensures { result ≡ run_of o }
{
    let way = way_of(o);
    let shape = shape_of(o);
    RunOptions {
        sheet: word_of(o, 30),
        inputs: word_of(o, 31),
        names: word_of(o, 2),
        vcd: word_of(o, 1),
        save: word_of(o, 11),
        load: word_of(o, 12),
        init: word_of(o, 13),
        expect: word_of(o, 8),
        user: number_at(o, 9),
        allowance: word_of(o, 10),
        way,
        shape,
        progress: is_given(o, 24),
        silent: is_given(o, 25),
    }
}

// A command with its options, all in place.
fn commanded(o: Options) -> Command
    ensures { result ≡ commanded o }
{
    let sheet = word_of(o, 30);
    let command = o.command;
    match command {
        1 => Command::List(sheet),
        2 => Command::Check(sheet),
        3 => Command::Run(run_of(o)),
        4 => Command::Extract(ExtractOptions {
            sheet,
            names: word_of(o, 2),
            dot: is_given(o, 23),
        }),
        5 => Command::Compare(CompareOptions {
            sheet,
            inputs: word_of(o, 31),
        }),
        8 => Command::Explain(sheet, word_of(o, 2)),
        _ => Command::Verilog(sheet),
    }
}

// Are there both a seed and `--by-expressions`?
#[tactic(auto, unfolding(crate::specs::Requests::clashing))]
fn clashing(o: Options) -> bool
    ensures { result ≡ clashing o }
{
    is_given(o, 3) && is_given(o, 20)
}

// Are there two bases?
#[tactic(auto, unfolding(crate::specs::Requests::based))]
fn based(o: Options) -> bool
    ensures { result ≡ based o }
{
    is_given(o, 27) && is_given(o, 28)
}

// The kind of a run, or the command's number.
#[tactic(auto, unfolding(crate::specs::Requests::kind_of))]
fn kind_of(o: Options) -> usize
    ensures { result ≡ kind_of o }
{
    if is_given(o, 35) {
        return 10;
    }
    if is_given(o, 20) { 11 } else { o.command }
}

// The fault of what does not go with a run of that kind.
#[tactic(auto, unfolding(crate::specs::Requests::fault_of))]
fn fault_of(kind: usize) -> u8
    ensures { result ≡ fault_of kind }
{
    if kind == 10 { 10 } else { 11 }
}

// The command that all words ask for, or the pair of slots that is wrong.
fn paired(o: Options) -> Request
    ensures { result ≡ paired o }
{
    if clashing(o) {
        return Request::Wrong(word_of(o, 20), 6);
    }
    if based(o) {
        return Request::Wrong(word_of(o, 28), 9);
    }
    let kind = kind_of(o);
    match misfit(kind, o.at) {
        Some(n) => Request::Wrong(n, fault_of(kind)),
        None => Request::Asked(commanded(o)),
    }
}

// The command that all words ask for, or the slot or the pair of slots that is wrong.
fn fitted(o: Options) -> Request
    ensures { result ≡ fitted o }
{
    match misfit(o.command, o.at) {
        Some(n) => Request::Wrong(n, 5),
        None => paired(o),
    }
}

// What all words ask for, where they do not ask for help or the version.
fn judged(o: Options) -> Request
    ensures { result ≡ judged o }
{
    if o.wrong != 0 {
        return Request::Wrong(o.wrong, o.fault);
    }
    if o.wants != 0 {
        return Request::Wrong(o.words, 8);
    }
    match lacking(o) {
        Some(m) => Request::Short(m as u8),
        None => fitted(o),
    }
}

// What all words ask for.
pub fn judge(o: Options) -> Request
    ensures { result ≡ request o }
{
    if is_given(o, 33) {
        return Request::Help;
    }
    if is_given(o, 34) {
        return Request::Version;
    }
    judged(o)
}

// Is the status asked for?
pub fn wants_status(o: Options) -> bool
    ensures { result ≡ is_given o 32 }
{
    is_given(o, 32)
}

// The word that names a command's sheet.
#[tactic(auto, unfolding(crate::specs::Requests::sheet_of))]
pub fn sheet_of(c: Command) -> usize
    ensures { result ≡ sheet_of c }
{
    match c {
        Command::List(sheet)
        | Command::Check(sheet)
        | Command::Verilog(sheet)
        | Command::Explain(sheet, _) => sheet,
        Command::Run(o) => o.sheet,
        Command::Extract(o) => o.sheet,
        Command::Compare(o) => o.sheet,
    }
}

// The word that names a command's names file, 0 where there is none.
#[tactic(auto, unfolding(crate::specs::Requests::names_of))]
pub fn names_of(c: Command) -> usize
    ensures { result ≡ names_of c }
{
    match c {
        Command::Run(o) => o.names,
        Command::Extract(o) => o.names,
        Command::Explain(_, names) => names,
        Command::List(_) | Command::Check(_) | Command::Compare(_) | Command::Verilog(_) => 0,
    }
}

// The status of a command's end.
pub fn status_of(e: Outcome) -> u8
    ensures { result ≡ status_of e }
{
    match e {
        Outcome::Done => 0,
        Outcome::Refused => 1,
        Outcome::Different => 1,
        Outcome::Mistaken => 2,
    }
}

// Two things that a command did, one after the other: the first that did not end well counts.
pub fn joined(a: Outcome, b: Outcome) -> Outcome
    ensures { result ≡ joined a b }
{
    match a {
        Outcome::Done => b,
        Outcome::Refused => Outcome::Refused,
        Outcome::Different => Outcome::Different,
        Outcome::Mistaken => Outcome::Mistaken,
    }
}
