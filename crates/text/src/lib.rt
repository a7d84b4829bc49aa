// The listing's text (document 01, "Samples from the stands"), written into a lent buffer of 65,536 bytes.
// Every contract says: buffer and new position are what putting the text at the old position gives.
#![tactic(auto)]

ghost use Rattle.std.specs.Prelude.{◌≡◌, ◌∷◌, [], get_or, length};
ghost use Rattle.pseudocode.specs.Instruction.{no_term};
ghost use Rattle.writing.specs.Numbers.{decimal};
ghost use Rattle.writing.specs.Buffer.{filled, puts};
ghost use Rattle.text.specs.Listing.{◌␣◌, show_term, show_terms, show_instr, show_line, show_head, refusal};
ghost use Rattle.text.specs.Printing.{Prints, operands_of, mark_of, operands_at, shown_at, text_at};
ghost use Rattle.text.specs.Printing.{all_terms, term_list, action_instr, instr_of};

use pseudocode::{Action, EdgeTerms, Instruction};
use sheet::EdgeTerm;
use values::Edge;
use writing::{put_byte, put_decimal, put_marked, put_word};

// What printing an expression gives: the next place in the sheet and the next position in the buffer.
#[derive(Clone, Copy)]
pub struct Printed {
    pub next: usize,
    pub pos: usize,
}

// The first line, which counts the threads.
pub fn print_head(threads: usize, text: &mut [u8; 65536], pos: usize) -> usize
    ensures { filled text.new result ≡ puts (filled text.old pos) (show_head threads) }
{
    let p = put_word(b"threads", text, pos);
    let q = put_marked(b' ', threads, text, p);
    put_byte(b'\n', text, q)
}

// `refused` and a number.
pub fn print_refusal(number: u8, text: &mut [u8; 65536], pos: usize) -> usize
    ensures { filled text.new result ≡ puts (filled text.old pos) (refusal number) }
{
    let p = put_word(b"refused", text, pos);
    let q = put_marked(b' ', number as usize, text, p);
    put_byte(b'\n', text, q)
}

// ---- expressions

// How many operands a map has, with the byte after it.
fn operands_of(sheet: &[u8], definitions: &[usize; 8], map: u8, b: u8) -> u8
    ensures { result ≡ operands_of sheet.now definitions.now map b }
{
    match map {
        0x11 => 1,
        0x31 => 2,
        0x71 => 3,
        0x80 => pseudocode::argument_count(sheet, definitions, b),
        _ => 0,
    }
}

// What stands before an operator's number, and before a function's.
fn mark_of(map: u8) -> u8
    ensures { result ≡ mark_of map }
{
    if map == 0x80 { b'f' } else { b'o' }
}

// So many operands, each behind a space.
#[cycle(print_expr_print_operands)]
fn print_operands(
    sheet: &[u8],
    definitions: &[usize; 8],
    at: usize,
    depth: u8,
    n: u8,
    text: &mut [u8; 65536],
    pos: usize,
) -> Printed
    ensures { Prints (operands_at (shown_at depth sheet.now definitions.now) n at)
        (filled text.old pos) result text.new }
{
    if n == 0 {
        return Printed { next: at, pos };
    }
    let p = put_byte(b' ', text, pos);
    let a = print_expr(sheet, definitions, at, depth, text, p);
    let next = a.next;
    let q = a.pos;
    print_operands(sheet, definitions, next, depth, n - 1, text, q)
}

// The expression at a place of the sheet, with so many levels left.
#[cycle(print_expr_print_operands)]
fn print_expr(
    sheet: &[u8],
    definitions: &[usize; 8],
    at: usize,
    depth: u8,
    text: &mut [u8; 65536],
    pos: usize,
) -> Printed
    ensures { Prints (shown_at depth sheet.now definitions.now at)
        (filled text.old pos) result text.new }
{
    if depth == 0 {
        return Printed { next: at, pos };
    }
    if sheet.len() <= at {
        return Printed { next: at, pos };
    }
    let map = sheet::byte_at(sheet, at);
    let b = sheet::byte_at(sheet, at + 1);
    if map == 0x02 {
        let p = put_marked(b'v', b as usize, text, pos);
        return Printed {
            next: at + 2,
            pos: p,
        };
    }
    if map == 0x0C {
        let value = sheet::word_at(sheet, at + 2);
        let p = put_marked(b'c', b as usize, text, pos);
        let q = put_marked(b':', value as usize, text, p);
        return Printed {
            next: at + 6,
            pos: q,
        };
    }
    if map == 0x04 {
        let p = put_marked(b'u', b as usize, text, pos);
        return Printed {
            next: at + 2,
            pos: p,
        };
    }
    let p = put_marked(mark_of(map), b as usize, text, pos);
    let n = operands_of(sheet, definitions, map, b);
    print_operands(sheet, definitions, at + 2, depth - 1, n, text, p)
}

// ---- instructions

// A number and the expression at a place, each behind a space.
fn print_fields(
    sheet: &[u8],
    definitions: &[usize; 8],
    n: usize,
    at: usize,
    text: &mut [u8; 65536],
    pos: usize,
) -> usize
    ensures { filled text.new result ≡
        puts (filled text.old pos) ([] ␣ decimal n ␣ text_at sheet.now definitions.now at) }
{
    let p = put_marked(b' ', n, text, pos);
    let q = put_byte(b' ', text, p);
    let e = print_expr(sheet, definitions, at, 16, text, q);
    e.pos
}

// A pair of a wait.
fn print_term(t: EdgeTerm, text: &mut [u8; 65536], pos: usize) -> usize
    ensures { filled text.new result ≡ puts (filled text.old pos) (show_term t) }
{
    let e = t.edge;
    let n = values::edge_number(e);
    let p = put_marked(b' ', n as usize, text, pos);
    put_marked(b' ', t.variable as usize, text, p)
}

// The number of a wait's pairs, at most 8.
fn term_count(t: EdgeTerms) -> u8
    ensures { result ≡ length (term_list t) }
{
    t.count.min(8)
}

// A pair of a wait by its number.
fn term_at(t: EdgeTerms, k: u8) -> EdgeTerm
    ensures { result ≡ get_or (all_terms t) k no_term }
{
    match k {
        0 => t.t0,
        1 => t.t1,
        2 => t.t2,
        3 => t.t3,
        4 => t.t4,
        5 => t.t5,
        6 => t.t6,
        7 => t.t7,
        _ => EdgeTerm {
            edge: Edge::Change,
            variable: 0,
        },
    }
}

// The pairs of a wait.
fn print_terms(t: EdgeTerms, text: &mut [u8; 65536], pos: usize) -> usize
    ensures { filled text.new result ≡ puts (filled text.old pos) (show_terms (term_list t)) }
{
    let n = term_count(t);
    let mut p = pos;
    for k in 0..n {
        let e = term_at(t, k);
        p = print_term(e, text, p);
    }
    p
}

// An instruction that runs: its word and fields.
fn print_action(
    sheet: &[u8],
    definitions: &[usize; 8],
    action: Action,
    text: &mut [u8; 65536],
    pos: usize,
) -> usize
    ensures { filled text.new result ≡
        puts (filled text.old pos) (show_instr (text_at sheet.now definitions.now) (action_instr action)) }
{
    match action {
        Action::Set { target, at } => {
            let p = put_word(b"set", text, pos);
            print_fields(sheet, definitions, target as usize, at, text, p)
        }
        Action::Later { target, at } => {
            let p = put_word(b"later", text, pos);
            print_fields(sheet, definitions, target as usize, at, text, p)
        }
        Action::Go(goal) => {
            let p = put_word(b"go", text, pos);
            put_marked(b' ', goal, text, p)
        }
        Action::IfNot { goal, at } => {
            let p = put_word(b"ifnot", text, pos);
            print_fields(sheet, definitions, goal, at, text, p)
        }
    }
}

// An instruction: its word and fields.
fn print_instruction(
    sheet: &[u8],
    definitions: &[usize; 8],
    instruction: Instruction,
    text: &mut [u8; 65536],
    pos: usize,
) -> usize
    ensures { filled text.new result ≡
        puts (filled text.old pos) (show_instr (text_at sheet.now definitions.now) (instr_of instruction)) }
{
    match instruction {
        Instruction::Wait(t) => {
            let p = put_word(b"wait", text, pos);
            print_terms(t, text, p)
        }
        Instruction::Act(action) => print_action(sheet, definitions, action, text, pos),
    }
}

// The line of an instruction, whose expression stands in the sheet.
pub fn print_line(
    sheet: &[u8],
    definitions: &[usize; 8],
    thread: usize,
    place: usize,
    instruction: Instruction,
    text: &mut [u8; 65536],
    pos: usize,
) -> usize
    ensures { filled text.new result ≡
        puts (filled text.old pos) (show_line (text_at sheet.now definitions.now) thread place (instr_of instruction)) }
{
    let p = put_decimal(thread, text, pos);
    let q = put_marked(b' ', place, text, p);
    let w = put_byte(b' ', text, q);
    let e = print_instruction(sheet, definitions, instruction, text, w);
    put_byte(b'\n', text, e)
}
