// Tables filled once from an accepted sheet: for each variable the wires that read it, and whether a wait names it.
// Each function equals its definition in specs/Readers for any bytes and words.
#![tactic(auto)]

ghost use Rattle.std.specs.Prelude.{◌≡◌};
ghost use Rattle.pseudocode.specs.Fetching.{fetch_at};
ghost use Rattle.tables.specs.Readers.{at_most, marking, mark_variable, mark_binary, mark_conditional, mark_arguments, mark_at, readers_below};
ghost use Rattle.tables.specs.Readers.{watch_variable, watch_terms, watch_instr, watch_thread, watched_below};

use pseudocode::{EdgeTerms, Instruction};
use sheet::byte_at;

// A count, or the limit where it is more.
// stays a function: other crates call it and cite its clause
pub fn at_most(limit: usize, n: usize) -> usize
    ensures { result ≡ at_most limit n }
{
    n.min(limit)
}

// Marks wire `k` at a variable.
pub fn mark_variable(k: usize, v: u8, readers: &mut [u32; 80])
    ensures { readers.new ≡ mark_variable k v readers.old }
{
    let i = v as usize;
    if 80 <= i {
        return;
    }
    readers[i] = masks::with(readers[i], k);
}

// Marks wire `k` at the variables of two operands, the first at a place; the place after them.
#[cycle(mark_arguments_mark_binary_mark_conditional_mark_expr)]
fn mark_binary(
    sheet: &[u8],
    definitions: &[usize; 8],
    at: usize,
    depth: u8,
    k: usize,
    readers: &mut [u32; 80],
) -> usize
    ensures { marking result readers.new ≡ mark_binary (mark_at depth sheet.now definitions.now k) at readers.old }
{
    let a = mark_expr(sheet, definitions, at, depth, k, readers);
    mark_expr(sheet, definitions, a, depth, k, readers)
}

// Marks wire `k` at the variables of three operands, the first at a place; the place after them.
#[cycle(mark_arguments_mark_binary_mark_conditional_mark_expr)]
fn mark_conditional(
    sheet: &[u8],
    definitions: &[usize; 8],
    at: usize,
    depth: u8,
    k: usize,
    readers: &mut [u32; 80],
) -> usize
    ensures { marking result readers.new ≡ mark_conditional (mark_at depth sheet.now definitions.now k) at readers.old }
{
    let a = mark_expr(sheet, definitions, at, depth, k, readers);
    let b = mark_expr(sheet, definitions, a, depth, k, readers);
    mark_expr(sheet, definitions, b, depth, k, readers)
}

// Marks wire `k` at the variables of so many arguments, the first at a place; the place after them.
#[cycle(mark_arguments_mark_binary_mark_conditional_mark_expr)]
fn mark_arguments(
    sheet: &[u8],
    definitions: &[usize; 8],
    count: u8,
    at: usize,
    depth: u8,
    k: usize,
    readers: &mut [u32; 80],
) -> usize
    ensures { marking result readers.new ≡ mark_arguments (mark_at depth sheet.now definitions.now k) count at readers.old }
{
    if count == 0 {
        return at;
    }
    let a = mark_expr(sheet, definitions, at, depth, k, readers);
    mark_arguments(sheet, definitions, count - 1, a, depth, k, readers)
}

// Marks wire `k` at the variables of the expression at a place, with so many levels left; the place after it.
#[cycle(mark_arguments_mark_binary_mark_conditional_mark_expr)]
pub fn mark_expr(
    sheet: &[u8],
    definitions: &[usize; 8],
    at: usize,
    depth: u8,
    k: usize,
    readers: &mut [u32; 80],
) -> usize
    ensures { marking result readers.new ≡ mark_at depth sheet.now definitions.now k at readers.old }
{
    if depth == 0 {
        return at;
    }
    if sheet.len() <= at {
        return at;
    }
    let map = sheet[at];
    let rest = at + 2;
    match map {
        0x02 => {
            let v = byte_at(sheet, at + 1);
            mark_variable(k, v, readers);
            rest
        }
        0x0C => at + 6,
        0x04 => rest,
        0x11 => mark_expr(sheet, definitions, rest, depth - 1, k, readers),
        0x31 => mark_binary(sheet, definitions, rest, depth - 1, k, readers),
        0x71 => mark_conditional(sheet, definitions, rest, depth - 1, k, readers),
        0x80 => {
            let n = byte_at(sheet, at + 1);
            let count = pseudocode::argument_count(sheet, definitions, n);
            mark_arguments(sheet, definitions, count, rest, depth - 1, k, readers)
        }
        _ => at,
    }
}

// For each variable the wires that read it: marks each wire, whose expression stands at its place in `starts`.
pub fn fill_readers(
    sheet: &[u8],
    definitions: &[usize; 8],
    starts: &[usize; 32],
    wires: u8,
    readers: &mut [u32; 80],
)
    ensures { readers.new ≡ readers_below sheet.now definitions.now starts.now (at_most 32 wires) readers.old }
{
    let count = (wires as usize).min(32);
    for k in 0..count {
        mark_expr(sheet, definitions, starts[k], 16, k, readers);
    }
}

// Marks a variable as named.
fn watch_variable(v: u8, watched: &mut [bool; 80])
    ensures { watched.new ≡ watch_variable v watched.old }
{
    let i = v as usize;
    if 80 <= i {
        return;
    }
    watched[i] = true;
}

// How many terms of a wait are looked at.
pub fn term_count(count: u8) -> u8
    ensures { result ≡ at_most 8 count }
{
    count.min(8)
}

// Marks the variables of a wait's first terms.
fn watch_terms(t: EdgeTerms, n: u8, watched: &mut [bool; 80])
    ensures { watched.new ≡ watch_terms t n watched.old }
{
    for k in 0u8..n {
        let term = pseudocode::term_at(t, k);
        watch_variable(term.variable, watched);
    }
}

// Marks the variables that an instruction names.
fn watch_instr(i: Instruction, watched: &mut [bool; 80])
    ensures { watched.new ≡ watch_instr i watched.old }
{
    let Instruction::Wait(t) = i else {
        return;
    };
    watch_terms(t, term_count(t.count), watched);
}

// Marks the variables that a thread's first instructions name.
fn watch_thread(sheet: &[u8], code: &[u16; 4096], thread: usize, n: usize, watched: &mut [bool; 80])
    ensures { watched.new ≡ watch_thread sheet.now code.now thread n watched.old }
{
    for p in 0..n {
        watch_instr(pseudocode::fetch(sheet, code, thread, p), watched);
    }
}

// For each variable whether a wait of some thread names it.
pub fn fill_watched(
    sheet: &[u8],
    code: &[u16; 4096],
    sizes: &[usize; 8],
    threads: u8,
    watched: &mut [bool; 80],
)
    ensures { watched.new ≡ watched_below sheet.now code.now sizes.now (at_most 8 threads) watched.old }
{
    let count = (threads as usize).min(8);
    for i in 0..count {
        let n = sizes[i].min(256);
        watch_thread(sheet, code, i, n, watched);
    }
}
