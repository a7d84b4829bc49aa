// Statements of a sheet: one function for each form.
ghost use Rattle.std.specs.Prelude.{◌≡◌, [], ◌<◌, length};
ghost use Rattle.sheet.specs.Expression.{located};
ghost use Rattle.sheet.specs.Statement.{is_register, narrow, read_terms, read_stmt, an_assign, a_sequence, an_if, an_if_else, a_while, a_forever, a_wait};
ghost use Rattle.sheet.specs.Answers.{stmt_answer};
ghost use Rattle.sheet.specs.Parts.{scope_of, outlines, terms_answer, form_answer};

use super::bytes::{byte_at, read_name, read_within};
use super::expr::located;
use super::{ByteRead, EdgeTerm, ExprRead, StmtRead, TermsRead};
use values::Edge;

// Does the number name a register?
#[tactic(auto, unfolding(crate::specs::Statement::is_register))]
pub(crate) fn is_register(inputs: u8, registers: u8, v: u8) -> bool
    ensures { result ≡ is_register (scope_of inputs registers [] 0 []) v }
{
    inputs <= v && (v as usize) < (inputs as usize) + (registers as usize)
}

// An assignment, plain or later: a register, and an expression of its width.
fn read_assignment(
    sheet: &[u8],
    widths: &[u8],
    definitions: &[usize; 8],
    declared: u8,
    inputs: u8,
    registers: u8,
    at: usize,
) -> StmtRead
    requires { at < length sheet.now }
    ensures { result ≡ form_answer 0 (scope_of inputs registers widths.now declared (outlines sheet.now definitions.now declared)) sheet.now at an_assign }
{
    let end = sheet.len();
    let first = at + 1;
    if end <= first {
        return StmtRead::Refused {
            number: 2,
            place: end,
        };
    }
    let target = sheet[first];
    if !is_register(inputs, registers, target) {
        return StmtRead::Refused {
            number: 9,
            place: first,
        };
    }
    match located(sheet, widths, definitions, declared, declared, at + 2) {
        ExprRead::Refused { number, place } => StmtRead::Refused { number, place },
        ExprRead::Read { next, width } => {
            if width != byte_at(widths, target as usize) {
                return StmtRead::Refused {
                    number: 8,
                    place: at,
                };
            }
            StmtRead::Read { next, size: 1 }
        }
    }
}

// Does the edge suit its variable? Any change does; the other two need one bit.
fn narrow(widths: &[u8], term: EdgeTerm) -> bool
    ensures { result ≡ narrow widths.now term }
{
    let width = byte_at(widths, term.variable as usize);
    match term.edge {
        Edge::Change => true,
        Edge::Posedge => width == 1,
        Edge::Negedge => width == 1,
    }
}

// So many pairs of edge and variable. All are read; whether they are narrow is judged by the caller.
fn read_terms(sheet: &[u8], widths: &[u8], at: usize, count: u8) -> TermsRead
    ensures { result ≡ terms_answer widths.now (read_terms count widths.now sheet.now at) }
{
    if count == 0 {
        return TermsRead::Read { narrow: true };
    }
    let first = read_within(sheet, at, 0, 2, 6);
    let edge = match first {
        ByteRead::Byte(b) => b,
        ByteRead::Refused { number, place } => {
            return TermsRead::Refused { number, place };
        }
    };
    let second = read_name(sheet, widths, at + 1);
    let variable = match second {
        ByteRead::Byte(b) => b,
        ByteRead::Refused { number, place } => {
            return TermsRead::Refused { number, place };
        }
    };
    let rest = read_terms(sheet, widths, at + 2, count - 1);
    let TermsRead::Read { narrow: others } = rest else {
        return rest;
    };
    let term = EdgeTerm {
        edge: values::edge_of(edge),
        variable,
    };
    TermsRead::Read {
        narrow: narrow(widths, term) && others,
    }
}

// A wait: a count and so many pairs.
fn read_wait(sheet: &[u8], widths: &[u8], inputs: u8, registers: u8, at: usize) -> StmtRead
    requires { at < length sheet.now }
    ensures { result ≡ form_answer 0 (scope_of inputs registers widths.now 0 []) sheet.now at a_wait }
{
    let read = read_within(sheet, at + 1, 1, 8, 6);
    let count = match read {
        ByteRead::Byte(b) => b,
        ByteRead::Refused { number, place } => {
            return StmtRead::Refused { number, place };
        }
    };
    match read_terms(sheet, widths, at + 2, count) {
        TermsRead::Refused { number, place } => StmtRead::Refused { number, place },
        TermsRead::Read { narrow } => {
            if narrow {
                StmtRead::Read {
                    next: at + 2 + 2 * (count as usize),
                    size: 1,
                }
            } else {
                StmtRead::Refused {
                    number: 8,
                    place: at,
                }
            }
        }
    }
}

// Two statements, one after the other.
#[cycle(read_forever_read_if_read_if_else_read_sequence_read_stmt_read_while)]
fn read_sequence(
    sheet: &[u8],
    widths: &[u8],
    definitions: &[usize; 8],
    declared: u8,
    inputs: u8,
    registers: u8,
    at: usize,
    depth: u8,
) -> StmtRead
    requires { at < length sheet.now }
    ensures { result ≡ form_answer depth (scope_of inputs registers widths.now declared (outlines sheet.now definitions.now declared)) sheet.now at a_sequence }
{
    let a = read_stmt(
        sheet,
        widths,
        definitions,
        declared,
        inputs,
        registers,
        at + 1,
        depth,
    );
    let StmtRead::Read {
        next: second,
        size: one,
    } = a
    else {
        return a;
    };
    let b = read_stmt(
        sheet,
        widths,
        definitions,
        declared,
        inputs,
        registers,
        second,
        depth,
    );
    let StmtRead::Read { next, size: other } = b else {
        return b;
    };
    StmtRead::Read {
        next,
        size: one + other,
    }
}

// A condition and a statement: if.
#[cycle(read_forever_read_if_read_if_else_read_sequence_read_stmt_read_while)]
fn read_if(
    sheet: &[u8],
    widths: &[u8],
    definitions: &[usize; 8],
    declared: u8,
    inputs: u8,
    registers: u8,
    at: usize,
    depth: u8,
) -> StmtRead
    requires { at < length sheet.now }
    ensures { result ≡ form_answer depth (scope_of inputs registers widths.now declared (outlines sheet.now definitions.now declared)) sheet.now at an_if }
{
    let e = located(sheet, widths, definitions, declared, declared, at + 1);
    let body = match e {
        ExprRead::Read { next, width: _ } => next,
        ExprRead::Refused { number, place } => {
            return StmtRead::Refused { number, place };
        }
    };
    let a = read_stmt(
        sheet,
        widths,
        definitions,
        declared,
        inputs,
        registers,
        body,
        depth,
    );
    let StmtRead::Read { next, size } = a else {
        return a;
    };
    StmtRead::Read {
        next,
        size: size + 1,
    }
}

// A condition and two statements: if-else.
#[cycle(read_forever_read_if_read_if_else_read_sequence_read_stmt_read_while)]
fn read_if_else(
    sheet: &[u8],
    widths: &[u8],
    definitions: &[usize; 8],
    declared: u8,
    inputs: u8,
    registers: u8,
    at: usize,
    depth: u8,
) -> StmtRead
    requires { at < length sheet.now }
    ensures { result ≡ form_answer depth (scope_of inputs registers widths.now declared (outlines sheet.now definitions.now declared)) sheet.now at an_if_else }
{
    let e = located(sheet, widths, definitions, declared, declared, at + 1);
    let body = match e {
        ExprRead::Read { next, width: _ } => next,
        ExprRead::Refused { number, place } => {
            return StmtRead::Refused { number, place };
        }
    };
    let a = read_stmt(
        sheet,
        widths,
        definitions,
        declared,
        inputs,
        registers,
        body,
        depth,
    );
    let StmtRead::Read {
        next: second,
        size: one,
    } = a
    else {
        return a;
    };
    let b = read_stmt(
        sheet,
        widths,
        definitions,
        declared,
        inputs,
        registers,
        second,
        depth,
    );
    let StmtRead::Read { next, size: other } = b else {
        return b;
    };
    StmtRead::Read {
        next,
        size: one + other + 2,
    }
}

// A condition and a statement: while.
#[cycle(read_forever_read_if_read_if_else_read_sequence_read_stmt_read_while)]
fn read_while(
    sheet: &[u8],
    widths: &[u8],
    definitions: &[usize; 8],
    declared: u8,
    inputs: u8,
    registers: u8,
    at: usize,
    depth: u8,
) -> StmtRead
    requires { at < length sheet.now }
    ensures { result ≡ form_answer depth (scope_of inputs registers widths.now declared (outlines sheet.now definitions.now declared)) sheet.now at a_while }
{
    let e = located(sheet, widths, definitions, declared, declared, at + 1);
    let body = match e {
        ExprRead::Read { next, width: _ } => next,
        ExprRead::Refused { number, place } => {
            return StmtRead::Refused { number, place };
        }
    };
    let a = read_stmt(
        sheet,
        widths,
        definitions,
        declared,
        inputs,
        registers,
        body,
        depth,
    );
    let StmtRead::Read { next, size } = a else {
        return a;
    };
    StmtRead::Read {
        next,
        size: size + 2,
    }
}

// A statement without end: forever.
#[cycle(read_forever_read_if_read_if_else_read_sequence_read_stmt_read_while)]
fn read_forever(
    sheet: &[u8],
    widths: &[u8],
    definitions: &[usize; 8],
    declared: u8,
    inputs: u8,
    registers: u8,
    at: usize,
    depth: u8,
) -> StmtRead
    requires { at < length sheet.now }
    ensures { result ≡ form_answer depth (scope_of inputs registers widths.now declared (outlines sheet.now definitions.now declared)) sheet.now at a_forever }
{
    let a = read_stmt(
        sheet,
        widths,
        definitions,
        declared,
        inputs,
        registers,
        at + 1,
        depth,
    );
    let StmtRead::Read { next, size } = a else {
        return a;
    };
    StmtRead::Read {
        next,
        size: size + 1,
    }
}

// The statement at a place, with so many levels left.
#[cycle(read_forever_read_if_read_if_else_read_sequence_read_stmt_read_while)]
pub(crate) fn read_stmt(
    sheet: &[u8],
    widths: &[u8],
    definitions: &[usize; 8],
    declared: u8,
    inputs: u8,
    registers: u8,
    at: usize,
    depth: u8,
) -> StmtRead
    ensures { result ≡ stmt_answer (read_stmt (located sheet.now) (scope_of inputs registers widths.now declared (outlines sheet.now definitions.now declared)) sheet.now depth at) }
{
    let end = sheet.len();
    if end <= at {
        return StmtRead::Refused {
            number: 2,
            place: end,
        };
    }
    if depth == 0 {
        return StmtRead::Refused {
            number: 7,
            place: at,
        };
    }
    let map = sheet[at];
    match map {
        0x00 => StmtRead::Read {
            next: at + 1,
            size: 0,
        },
        0x03 | 0x23 => read_assignment(sheet, widths, definitions, declared, inputs, registers, at),
        0x0C => read_sequence(
            sheet,
            widths,
            definitions,
            declared,
            inputs,
            registers,
            at,
            depth - 1,
        ),
        0x06 => read_if(
            sheet,
            widths,
            definitions,
            declared,
            inputs,
            registers,
            at,
            depth - 1,
        ),
        0x0E => read_if_else(
            sheet,
            widths,
            definitions,
            declared,
            inputs,
            registers,
            at,
            depth - 1,
        ),
        0x46 => read_while(
            sheet,
            widths,
            definitions,
            declared,
            inputs,
            registers,
            at,
            depth - 1,
        ),
        0x44 => read_forever(
            sheet,
            widths,
            definitions,
            declared,
            inputs,
            registers,
            at,
            depth - 1,
        ),
        0x10 => read_wait(sheet, widths, inputs, registers, at),
        _ => StmtRead::Refused {
            number: 5,
            place: at,
        },
    }
}
