// The bodies of a sheet's functions as instructions that lead forward only (document 02, [5]).
// A code table is filled once from a sheet that was accepted; `fetch` gives an instruction of it.
#![tactic(auto)]

ghost use Rattle.std.specs.Prelude.{◌≡◌};
ghost use Rattle.pseudocode.specs.Filling.{kind_number, filling, filled};
ghost use Rattle.bodies.specs.Filling.{store, after, fill_result, fill_in_turn, fill_if, fill_if_else, fill_at};
ghost use Rattle.bodies.specs.Laying.{body_at, function_count, lay_at, decode, fetch_at};

use pseudocode::{Filled, Kind};
use sheet::byte_at;

// An instruction of a body. An expression stands by its place in the sheet.
#[derive(Clone, Copy)]
pub enum Move {
    Set(usize),
    Go(usize),
    IfNot { goal: usize, at: usize },
}

// For each function where its instructions begin and end; 0 past the last.
#[derive(Clone, Copy)]
pub struct Bodies {
    pub starts: [usize; 8],
    pub ends: [usize; 8],
}

// Stores an instruction at a place; past the table nothing.
fn store(code: &mut [u16; 8192], place: usize, kind: Kind, at: usize, goal: usize)
    ensures { code.new ≡ store place (kind_number kind) at goal code.old }
{
    if 4096 <= place {
        return;
    }
    let i = 2 * place;
    let g = goal % 65536;
    code[i] = pseudocode::first_word(kind, at);
    code[i + 1] = g as u16;
}

// The place after a place; there is none after 4,096.
fn after(place: usize) -> usize
    ensures { result ≡ after place }
{
    if place < 4096 { place + 1 } else { place }
}

// Fills an assignment to the result, whose expression stands at `at`.
fn fill_result(
    sheet: &[u8],
    definitions: &[usize; 8],
    at: usize,
    place: usize,
    code: &mut [u16; 8192],
) -> Filled
    ensures { filled result code.new ≡ fill_result sheet.now definitions.now (filling at place code.old) }
{
    let next = pseudocode::skip_expr(sheet, definitions, at, 16);
    store(code, place, Kind::Set, at, 0);
    Filled {
        next,
        place: after(place),
    }
}

// Fills two statements, one after the other.
#[cycle(fill_body_fill_if_fill_if_else_fill_in_turn)]
fn fill_in_turn(
    sheet: &[u8],
    definitions: &[usize; 8],
    at: usize,
    depth: u8,
    place: usize,
    code: &mut [u16; 8192],
) -> Filled
    ensures { filled result code.new ≡ fill_in_turn sheet.now definitions.now (fill_at sheet.now definitions.now depth) (filling at place code.old) }
{
    let a = fill_body(sheet, definitions, at, depth, place, code);
    fill_body(sheet, definitions, a.next, depth, a.place, code)
}

// Fills an if, whose condition stands at `at`: `ifnot`, body.
#[cycle(fill_body_fill_if_fill_if_else_fill_in_turn)]
fn fill_if(
    sheet: &[u8],
    definitions: &[usize; 8],
    at: usize,
    depth: u8,
    place: usize,
    code: &mut [u16; 8192],
) -> Filled
    ensures { filled result code.new ≡ fill_if sheet.now definitions.now (fill_at sheet.now definitions.now depth) (filling at place code.old) }
{
    let inside = pseudocode::skip_expr(sheet, definitions, at, 16);
    let first = after(place);
    let a = fill_body(sheet, definitions, inside, depth, first, code);
    store(code, place, Kind::IfNot, at, a.place);
    a
}

// Fills an if-else, whose condition stands at `at`: `ifnot`, first body, `go`, second body.
#[cycle(fill_body_fill_if_fill_if_else_fill_in_turn)]
fn fill_if_else(
    sheet: &[u8],
    definitions: &[usize; 8],
    at: usize,
    depth: u8,
    place: usize,
    code: &mut [u16; 8192],
) -> Filled
    ensures { filled result code.new ≡ fill_if_else sheet.now definitions.now (fill_at sheet.now definitions.now depth) (filling at place code.old) }
{
    let inside = pseudocode::skip_expr(sheet, definitions, at, 16);
    let first = after(place);
    let a = fill_body(sheet, definitions, inside, depth, first, code);
    let second = after(a.place);
    let b = fill_body(sheet, definitions, a.next, depth, second, code);
    store(code, a.place, Kind::Go, 0, b.place);
    store(code, place, Kind::IfNot, at, second);
    b
}

// Fills the statement of a body whose map stands at `at`, from a place on.
#[cycle(fill_body_fill_if_fill_if_else_fill_in_turn)]
fn fill_body(
    sheet: &[u8],
    definitions: &[usize; 8],
    at: usize,
    depth: u8,
    place: usize,
    code: &mut [u16; 8192],
) -> Filled
    ensures { filled result code.new ≡ fill_at sheet.now definitions.now depth (filling at place code.old) }
{
    if depth == 0 || 8192 <= at || 4096 <= place {
        return Filled { next: at, place };
    }
    match byte_at(sheet, at) {
        0x00 => Filled {
            next: at + 1,
            place,
        },
        0x03 => fill_result(sheet, definitions, at + 2, place, code),
        0x0C => fill_in_turn(sheet, definitions, at + 1, depth - 1, place, code),
        0x06 => fill_if(sheet, definitions, at + 1, depth - 1, place, code),
        0x0E => fill_if_else(sheet, definitions, at + 1, depth - 1, place, code),
        _ => Filled { next: at, place },
    }
}

// Where the body of the function begins whose definition stands at `definition`.
fn body_at(sheet: &[u8], definition: usize) -> usize
    ensures { result ≡ body_at sheet.now definition }
{
    if definition < 8192 {
        definition + 2 + byte_at(sheet, definition) as usize
    } else {
        definition
    }
}

// How many functions are filled.
fn function_count(functions: u8) -> usize
    ensures { result ≡ function_count functions }
{
    (functions as usize).min(8)
}

// Fills the code of each function's body, one after the other, and gives where each begins and ends.
pub fn fill_bodies(
    sheet: &[u8],
    definitions: &[usize; 8],
    functions: u8,
    code: &mut [u16; 8192],
) -> Bodies
    ensures starts_value { result.starts ≡ (lay_at sheet.now definitions.now functions code.old).starts }
    ensures ends_value { result.ends ≡ (lay_at sheet.now definitions.now functions code.old).ends }
    ensures code_after { code.new ≡ (lay_at sheet.now definitions.now functions code.old).code }
{
    let mut starts = [0usize; 8];
    let mut ends = [0usize; 8];
    let mut place: usize = 0;
    let count = function_count(functions);
    for k in 0..count {
        let at = body_at(sheet, definitions[k]);
        let f = fill_body(sheet, definitions, at, 64, place, code);
        starts[k] = place;
        ends[k] = f.place;
        place = f.place;
    }
    Bodies { starts, ends }
}

// The instruction that two words of the code table stand for.
fn decode(w: u16, x: u16) -> Move
    ensures { result ≡ decode w x }
{
    let kind = w % 8;
    let at = w / 8;
    match kind {
        1 => Move::Set(at as usize),
        3 => Move::Go(x as usize),
        _ => Move::IfNot {
            goal: x as usize,
            at: at as usize,
        },
    }
}

// The instruction at a place; outside the table `go 0`.
pub fn fetch(code: &[u16; 8192], place: usize) -> Move
    ensures { result ≡ fetch_at code.now place }
{
    if 4096 <= place {
        return Move::Go(0);
    }
    let i = 2 * place;
    decode(code[i], code[i + 1])
}
