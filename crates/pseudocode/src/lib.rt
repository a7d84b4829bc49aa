// Pseudo-code: the instructions of a module's threads (document 01, "Values and pseudo-code").
// A code table is filled once from a sheet that was accepted; `fetch` builds an instruction from it.
#![tactic(auto)]

ghost use Rattle.std.specs.Prelude.{◌≡◌, ◌+◌};
ghost use Rattle.pseudocode.specs.Skipping.{argument_count, skip_arguments, skip_at};
ghost use Rattle.pseudocode.specs.Filling.{kind_number, first_word, store, after, emit, filling, filled, fill_assign, fill_sequence, fill_if, fill_if_else, fill_while, fill_forever, fill_at};
ghost use Rattle.pseudocode.specs.Compiling.{thread_count, compile_at};
ghost use Rattle.pseudocode.specs.Fetching.{term_from, terms_from, terms_at, term_at, decode, fetch_at};
ghost use Rattle.pseudocode.specs.Instruction.{no_term};

use sheet::{EdgeTerm, byte_at};
use values::Edge;

// The edge terms of a wait: `count` of them, the first in `t0`.
#[derive(Clone, Copy)]
pub struct EdgeTerms {
    pub count: u8,
    pub t0: EdgeTerm,
    pub t1: EdgeTerm,
    pub t2: EdgeTerm,
    pub t3: EdgeTerm,
    pub t4: EdgeTerm,
    pub t5: EdgeTerm,
    pub t6: EdgeTerm,
    pub t7: EdgeTerm,
}

// An instruction that runs. An expression stands by its place in the sheet.
#[derive(Clone, Copy)]
pub enum Action {
    Set { target: u8, at: usize },
    Later { target: u8, at: usize },
    Go(usize),
    IfNot { goal: usize, at: usize },
}

#[derive(Clone, Copy)]
pub enum Instruction {
    Wait(EdgeTerms),
    Act(Action),
}

// How far the sheet was taken, and the thread's next place.
#[derive(Clone, Copy)]
pub struct Filled {
    pub next: usize,
    pub place: usize,
}

// The kinds of instructions in the code table, by their numbers there.
#[derive(Clone, Copy, Debug, PartialEq, Eq)]
pub enum Kind {
    Wait,
    Set,
    Later,
    Go,
    IfNot,
}

// How many arguments a call of a function has, by its number and the places of the definitions: at most 4, past the last none.
pub fn argument_count(sheet: &[u8], definitions: &[usize; 8], n: u8) -> u8
    ensures { result ≡ argument_count sheet.now definitions.now n }
{
    if 8 <= n {
        return 0;
    }
    byte_at(sheet, definitions[n as usize]).min(4)
}

// The place after so many arguments, the first at `at`.
#[cycle(skip_arguments_skip_expr)]
fn skip_arguments(sheet: &[u8], definitions: &[usize; 8], count: u8, at: usize, depth: u8) -> usize
    ensures { result ≡ skip_arguments (skip_at depth sheet.now definitions.now) count at }
{
    if count == 0 {
        return at;
    }
    let b = skip_expr(sheet, definitions, at, depth);
    skip_arguments(sheet, definitions, count - 1, b, depth)
}

// The place after the expression at `at`.
#[cycle(skip_arguments_skip_expr)]
pub fn skip_expr(sheet: &[u8], definitions: &[usize; 8], at: usize, depth: u8) -> usize
    ensures { result ≡ skip_at depth sheet.now definitions.now at }
{
    if depth == 0 || 8192 <= at {
        return at;
    }
    match byte_at(sheet, at) {
        0x02 => at + 2,
        0x0C => at + 6,
        0x04 => at + 2,
        0x11 => skip_expr(sheet, definitions, at + 2, depth - 1),
        0x31 => {
            let b = skip_expr(sheet, definitions, at + 2, depth - 1);
            skip_expr(sheet, definitions, b, depth - 1)
        }
        0x71 => {
            let a = skip_expr(sheet, definitions, at + 2, depth - 1);
            let b = skip_expr(sheet, definitions, a, depth - 1);
            skip_expr(sheet, definitions, b, depth - 1)
        }
        0x80 => {
            let count = argument_count(sheet, definitions, byte_at(sheet, at + 1));
            skip_arguments(sheet, definitions, count, at + 2, depth - 1)
        }
        _ => at,
    }
}

// The first word of an instruction: its kind, and the place of its operands.
pub fn first_word(kind: Kind, at: usize) -> u16
    ensures { result ≡ first_word (kind_number kind) at }
{
    let p = at % 8192;
    kind as u16 + 8 * (p as u16)
}

// Stores an instruction at a place of a thread; outside the table nothing.
fn store(code: &mut [u16; 4096], thread: usize, place: usize, kind: Kind, at: usize, goal: usize)
    ensures { code.new ≡ store thread place (kind_number kind) at goal code.old }
{
    if 8 <= thread || 256 <= place {
        return;
    }
    let i = 512 * thread + 2 * place;
    let g = goal % 65536;
    code[i] = first_word(kind, at);
    code[i + 1] = g as u16;
}

// The place after a place of a thread; there is none after 256.
fn after(place: usize) -> usize
    ensures { result ≡ after place }
{
    if place < 256 { place + 1 } else { place }
}

// Stores an instruction at the next place of a thread.
fn emit(
    code: &mut [u16; 4096],
    thread: usize,
    place: usize,
    kind: Kind,
    at: usize,
    goal: usize,
    next: usize,
) -> Filled
    ensures { filled result code.new ≡ emit thread (kind_number kind) at goal next (filling at place code.old) }
{
    store(code, thread, place, kind, at, goal);
    Filled {
        next,
        place: after(place),
    }
}

// Fills an assignment, whose expression stands at `at`.
fn fill_assign(
    sheet: &[u8],
    definitions: &[usize; 8],
    at: usize,
    target: u8,
    kind: Kind,
    place: usize,
    thread: usize,
    code: &mut [u16; 4096],
) -> Filled
    ensures { filled result code.new ≡ fill_assign sheet.now definitions.now thread (kind_number kind) target at (filling at place code.old) }
{
    let next = skip_expr(sheet, definitions, at, 16);
    emit(code, thread, place, kind, at, target as usize, next)
}

// Fills two statements, one after the other.
#[cycle(fill_forever_fill_if_fill_if_else_fill_sequence_fill_stmt_fill_while)]
fn fill_sequence(
    sheet: &[u8],
    definitions: &[usize; 8],
    at: usize,
    depth: u8,
    place: usize,
    thread: usize,
    code: &mut [u16; 4096],
) -> Filled
    ensures { filled result code.new ≡ fill_sequence sheet.now definitions.now thread (fill_at sheet.now definitions.now thread depth) (filling at place code.old) }
{
    let a = fill_stmt(sheet, definitions, at, depth, place, thread, code);
    fill_stmt(sheet, definitions, a.next, depth, a.place, thread, code)
}

// Fills an if, whose condition stands at `at`: `ifnot`, body.
#[cycle(fill_forever_fill_if_fill_if_else_fill_sequence_fill_stmt_fill_while)]
fn fill_if(
    sheet: &[u8],
    definitions: &[usize; 8],
    at: usize,
    depth: u8,
    place: usize,
    thread: usize,
    code: &mut [u16; 4096],
) -> Filled
    ensures { filled result code.new ≡ fill_if sheet.now definitions.now thread (fill_at sheet.now definitions.now thread depth) (filling at place code.old) }
{
    let inside = skip_expr(sheet, definitions, at, 16);
    let first = after(place);
    let a = fill_stmt(sheet, definitions, inside, depth, first, thread, code);
    store(code, thread, place, Kind::IfNot, at, a.place);
    a
}

// Fills an if-else, whose condition stands at `at`: `ifnot`, first body, `go`, second body.
#[cycle(fill_forever_fill_if_fill_if_else_fill_sequence_fill_stmt_fill_while)]
fn fill_if_else(
    sheet: &[u8],
    definitions: &[usize; 8],
    at: usize,
    depth: u8,
    place: usize,
    thread: usize,
    code: &mut [u16; 4096],
) -> Filled
    ensures { filled result code.new ≡ fill_if_else sheet.now definitions.now thread (fill_at sheet.now definitions.now thread depth) (filling at place code.old) }
{
    let inside = skip_expr(sheet, definitions, at, 16);
    let first = after(place);
    let a = fill_stmt(sheet, definitions, inside, depth, first, thread, code);
    let second = after(a.place);
    let b = fill_stmt(sheet, definitions, a.next, depth, second, thread, code);
    store(code, thread, a.place, Kind::Go, 0, b.place);
    store(code, thread, place, Kind::IfNot, at, second);
    b
}

// Fills a while, whose condition stands at `at`: `ifnot`, body, `go` back.
#[cycle(fill_forever_fill_if_fill_if_else_fill_sequence_fill_stmt_fill_while)]
fn fill_while(
    sheet: &[u8],
    definitions: &[usize; 8],
    at: usize,
    depth: u8,
    place: usize,
    thread: usize,
    code: &mut [u16; 4096],
) -> Filled
    ensures { filled result code.new ≡ fill_while sheet.now definitions.now thread (fill_at sheet.now definitions.now thread depth) (filling at place code.old) }
{
    let inside = skip_expr(sheet, definitions, at, 16);
    let first = after(place);
    let a = fill_stmt(sheet, definitions, inside, depth, first, thread, code);
    let b = emit(code, thread, a.place, Kind::Go, 0, place, a.next);
    store(code, thread, place, Kind::IfNot, at, b.place);
    b
}

// Fills a forever: body, `go` back.
#[cycle(fill_forever_fill_if_fill_if_else_fill_sequence_fill_stmt_fill_while)]
fn fill_forever(
    sheet: &[u8],
    definitions: &[usize; 8],
    at: usize,
    depth: u8,
    place: usize,
    thread: usize,
    code: &mut [u16; 4096],
) -> Filled
    ensures { filled result code.new ≡ fill_forever sheet.now definitions.now thread (fill_at sheet.now definitions.now thread depth) (filling at place code.old) }
{
    let a = fill_stmt(sheet, definitions, at, depth, place, thread, code);
    emit(code, thread, a.place, Kind::Go, 0, place, a.next)
}

// Fills the statement whose map stands at `at`, from a place of a thread.
#[cycle(fill_forever_fill_if_fill_if_else_fill_sequence_fill_stmt_fill_while)]
fn fill_stmt(
    sheet: &[u8],
    definitions: &[usize; 8],
    at: usize,
    depth: u8,
    place: usize,
    thread: usize,
    code: &mut [u16; 4096],
) -> Filled
    ensures { filled result code.new ≡ fill_at sheet.now definitions.now thread depth (filling at place code.old) }
{
    if depth == 0 || 8192 <= at || 256 <= place {
        return Filled { next: at, place };
    }
    let map = byte_at(sheet, at);
    let field = byte_at(sheet, at + 1);
    match map {
        0x00 => Filled {
            next: at + 1,
            place,
        },
        0x03 => fill_assign(
            sheet,
            definitions,
            at + 2,
            field,
            Kind::Set,
            place,
            thread,
            code,
        ),
        0x23 => fill_assign(
            sheet,
            definitions,
            at + 2,
            field,
            Kind::Later,
            place,
            thread,
            code,
        ),
        0x0C => fill_sequence(sheet, definitions, at + 1, depth - 1, place, thread, code),
        0x06 => fill_if(sheet, definitions, at + 1, depth - 1, place, thread, code),
        0x0E => fill_if_else(sheet, definitions, at + 1, depth - 1, place, thread, code),
        0x46 => fill_while(sheet, definitions, at + 1, depth - 1, place, thread, code),
        0x44 => fill_forever(sheet, definitions, at + 1, depth - 1, place, thread, code),
        0x10 => emit(
            code,
            thread,
            place,
            Kind::Wait,
            at + 1,
            0,
            at + 2 + 2 * field as usize,
        ),
        _ => Filled { next: at, place },
    }
}

// How many threads are filled.
fn thread_count(threads: u8) -> usize
    ensures { result ≡ thread_count threads }
{
    (threads as usize).min(8)
}

// Fills the code of each thread, the first one's statement at `body`, and gives each thread's size, 0 past the last.
pub fn compile(
    sheet: &[u8],
    definitions: &[usize; 8],
    threads: u8,
    body: usize,
    code: &mut [u16; 4096],
) -> [usize; 8]
    ensures value { result ≡ (compile_at sheet.now definitions.now threads body code.old).sizes }
    ensures code_after { code.new ≡ (compile_at sheet.now definitions.now threads body code.old).code }
{
    let mut sizes = [0usize; 8];
    let mut next = body;
    let count = thread_count(threads);
    for t in 0..count {
        let f = fill_forever(sheet, definitions, next, 64, 0, t, code);
        sizes[t] = f.place;
        next = f.next;
    }
    sizes
}

// What stands in the fields past a wait's last term.
fn no_term() -> EdgeTerm
    ensures { result ≡ no_term }
{
    EdgeTerm {
        edge: Edge::Change,
        variable: 0,
    }
}

// Term `k` of the wait whose count stands at `at`.
fn term_from(sheet: &[u8], at: u16, count: u8, k: u8) -> EdgeTerm
    ensures { result ≡ term_from sheet.now at count k }
{
    if k < count {
        let i = at as usize + 1 + 2 * k as usize;
        EdgeTerm {
            edge: values::edge_of(byte_at(sheet, i)),
            variable: byte_at(sheet, i + 1),
        }
    } else {
        no_term()
    }
}

// The terms of the wait with this count, which stands at `at`.
fn terms_from(sheet: &[u8], at: u16, count: u8) -> EdgeTerms
    ensures { result ≡ terms_from sheet.now at count }
{
    EdgeTerms {
        count,
        t0: term_from(sheet, at, count, 0),
        t1: term_from(sheet, at, count, 1),
        t2: term_from(sheet, at, count, 2),
        t3: term_from(sheet, at, count, 3),
        t4: term_from(sheet, at, count, 4),
        t5: term_from(sheet, at, count, 5),
        t6: term_from(sheet, at, count, 6),
        t7: term_from(sheet, at, count, 7),
    }
}

// The terms of the wait whose count stands at `at`.
fn terms_at(sheet: &[u8], at: u16) -> EdgeTerms
    ensures { result ≡ terms_at sheet.now at }
{
    let count = byte_at(sheet, at as usize);
    terms_from(sheet, at, count)
}

// Term `k` of a wait, past the eight none.
pub fn term_at(t: EdgeTerms, k: u8) -> EdgeTerm
    ensures { result ≡ term_at t k }
{
    match k {
        0 => t.t0,
        1 => t.t1,
        2 => t.t2,
        3 => t.t3,
        4 => t.t4,
        5 => t.t5,
        6 => t.t6,
        7 => t.t7,
        _ => no_term(),
    }
}

// The instruction that two words of the code table stand for.
fn decode(sheet: &[u8], w: u16, x: u16) -> Instruction
    ensures { result ≡ decode sheet.now w x }
{
    let kind = w % 8;
    let at = w / 8;
    let target = (x % 256) as u8;
    match kind {
        0 => Instruction::Wait(terms_at(sheet, at)),
        1 => Instruction::Act(Action::Set {
            target,
            at: at as usize,
        }),
        2 => Instruction::Act(Action::Later {
            target,
            at: at as usize,
        }),
        3 => Instruction::Act(Action::Go(x as usize)),
        _ => Instruction::Act(Action::IfNot {
            goal: x as usize,
            at: at as usize,
        }),
    }
}

// The instruction at a place of a thread; outside the table `go 0`.
pub fn fetch(sheet: &[u8], code: &[u16; 4096], thread: usize, place: usize) -> Instruction
    ensures { result ≡ fetch_at sheet.now code.now thread place }
{
    if 8 <= thread || 256 <= place {
        return Instruction::Act(Action::Go(0));
    }
    let i = 512 * thread + 2 * place;
    decode(sheet, code[i], code[i + 1])
}
