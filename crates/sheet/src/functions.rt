// Functions of a sheet: their widths and their bodies.
ghost use Rattle.std.specs.Prelude.{◌≡◌, [], ◌<◌, ◌≤◌, length};
ghost use Rattle.sheet.specs.Statement.{an_assign, a_sequence, an_if, an_if_else};
ghost use Rattle.sheet.specs.Functions.{read_body, read_function, read_functions};
ghost use Rattle.sheet.specs.Parts.{scope_of, outlines, body_answer, body_form_answer, function_answer, functions_answer};
ghost use Rattle.sheet.specs.Reader.{head_read, functions_from, functions_end};

use super::bytes::{byte_at, read_within};
use super::expr::located;
use super::head::read_widths;
use super::stmt::is_register;
use super::{ByteRead, ExprRead, FunctionsRead, HeadRead, PlaceRead, WidthsRead};

// An assignment to the result: an expression of its width.
fn read_result(
    sheet: &[u8],
    widths: &[u8],
    definitions: &[usize; 8],
    declared: u8,
    callable: u8,
    inputs: u8,
    at: usize,
) -> PlaceRead
    requires { at < length sheet.now }
    ensures { result ≡ body_form_answer 0 (scope_of inputs 1 widths.now declared (outlines sheet.now definitions.now callable)) sheet.now at an_assign }
{
    let end = sheet.len();
    let first = at + 1;
    if end <= first {
        return PlaceRead::Refused {
            number: 2,
            place: end,
        };
    }
    let target = sheet[first];
    if !is_register(inputs, 1, target) {
        return PlaceRead::Refused {
            number: 9,
            place: first,
        };
    }
    match located(sheet, widths, definitions, declared, callable, at + 2) {
        ExprRead::Refused { number, place } => PlaceRead::Refused { number, place },
        ExprRead::Read { next, width } => {
            if width != byte_at(widths, target as usize) {
                return PlaceRead::Refused {
                    number: 8,
                    place: at,
                };
            }
            PlaceRead::At(next)
        }
    }
}

// Two statements of a body, one after the other.
#[cycle(read_body_read_body_if_read_body_if_else_read_turn)]
fn read_turn(
    sheet: &[u8],
    widths: &[u8],
    definitions: &[usize; 8],
    declared: u8,
    callable: u8,
    inputs: u8,
    at: usize,
    depth: u8,
) -> PlaceRead
    requires { at < length sheet.now }
    ensures { result ≡ body_form_answer depth (scope_of inputs 1 widths.now declared (outlines sheet.now definitions.now callable)) sheet.now at a_sequence }
{
    let a = read_body(
        sheet,
        widths,
        definitions,
        declared,
        callable,
        inputs,
        at + 1,
        depth,
    );
    let PlaceRead::At(second) = a else {
        return a;
    };
    read_body(
        sheet,
        widths,
        definitions,
        declared,
        callable,
        inputs,
        second,
        depth,
    )
}

// A condition and a statement of a body: if.
#[cycle(read_body_read_body_if_read_body_if_else_read_turn)]
fn read_body_if(
    sheet: &[u8],
    widths: &[u8],
    definitions: &[usize; 8],
    declared: u8,
    callable: u8,
    inputs: u8,
    at: usize,
    depth: u8,
) -> PlaceRead
    requires { at < length sheet.now }
    ensures { result ≡ body_form_answer depth (scope_of inputs 1 widths.now declared (outlines sheet.now definitions.now callable)) sheet.now at an_if }
{
    let e = located(sheet, widths, definitions, declared, callable, at + 1);
    let body = match e {
        ExprRead::Read { next, width: _ } => next,
        ExprRead::Refused { number, place } => {
            return PlaceRead::Refused { number, place };
        }
    };
    read_body(
        sheet,
        widths,
        definitions,
        declared,
        callable,
        inputs,
        body,
        depth,
    )
}

// A condition and two statements of a body: if-else.
#[cycle(read_body_read_body_if_read_body_if_else_read_turn)]
fn read_body_if_else(
    sheet: &[u8],
    widths: &[u8],
    definitions: &[usize; 8],
    declared: u8,
    callable: u8,
    inputs: u8,
    at: usize,
    depth: u8,
) -> PlaceRead
    requires { at < length sheet.now }
    ensures { result ≡ body_form_answer depth (scope_of inputs 1 widths.now declared (outlines sheet.now definitions.now callable)) sheet.now at an_if_else }
{
    let e = located(sheet, widths, definitions, declared, callable, at + 1);
    let body = match e {
        ExprRead::Read { next, width: _ } => next,
        ExprRead::Refused { number, place } => {
            return PlaceRead::Refused { number, place };
        }
    };
    let a = read_body(
        sheet,
        widths,
        definitions,
        declared,
        callable,
        inputs,
        body,
        depth,
    );
    let PlaceRead::At(second) = a else {
        return a;
    };
    read_body(
        sheet,
        widths,
        definitions,
        declared,
        callable,
        inputs,
        second,
        depth,
    )
}

// The statement of a body at a place, with so many levels left: no wait, loop or later assignment.
#[cycle(read_body_read_body_if_read_body_if_else_read_turn)]
fn read_body(
    sheet: &[u8],
    widths: &[u8],
    definitions: &[usize; 8],
    declared: u8,
    callable: u8,
    inputs: u8,
    at: usize,
    depth: u8,
) -> PlaceRead
    ensures { result ≡ body_answer (read_body depth (scope_of inputs 1 widths.now declared (outlines sheet.now definitions.now callable)) sheet.now at) }
{
    let end = sheet.len();
    if end <= at {
        return PlaceRead::Refused {
            number: 2,
            place: end,
        };
    }
    if depth == 0 {
        return PlaceRead::Refused {
            number: 7,
            place: at,
        };
    }
    let map = sheet[at];
    match map {
        0x00 => PlaceRead::At(at + 1),
        0x03 => read_result(sheet, widths, definitions, declared, callable, inputs, at),
        0x0C => read_turn(
            sheet,
            widths,
            definitions,
            declared,
            callable,
            inputs,
            at,
            depth - 1,
        ),
        0x06 => read_body_if(
            sheet,
            widths,
            definitions,
            declared,
            callable,
            inputs,
            at,
            depth - 1,
        ),
        0x0E => read_body_if_else(
            sheet,
            widths,
            definitions,
            declared,
            callable,
            inputs,
            at,
            depth - 1,
        ),
        0x23 | 0x46 | 0x44 | 0x10 => PlaceRead::Refused {
            number: 45,
            place: at,
        },
        _ => PlaceRead::Refused {
            number: 5,
            place: at,
        },
    }
}

// One function: its parameter count, the widths, and its body, which calls the earlier ones.
fn read_function(
    sheet: &[u8],
    definitions: &[usize; 8],
    declared: u8,
    callable: u8,
    at: usize,
) -> PlaceRead
    ensures { result ≡ function_answer (read_function declared (outlines sheet.now definitions.now callable) sheet.now at) }
{
    let count = match read_within(sheet, at, 1, 4, 3) {
        ByteRead::Byte(b) => b,
        ByteRead::Refused { number, place } => {
            return PlaceRead::Refused { number, place };
        }
    };
    let first = at + 1;
    let last = at + 2 + (count as usize);
    if let WidthsRead::Refused { number, place } = read_widths(sheet, first, last) {
        return PlaceRead::Refused { number, place };
    }
    let widths = &sheet[first..last];
    read_body(
        sheet,
        widths,
        definitions,
        declared,
        callable,
        count,
        last,
        64,
    )
}

// The functions: each may call those before it.
fn read_functions(sheet: &[u8], count: u8, at: usize) -> FunctionsRead
    requires { count ≤ 8 }
    ensures { result ≡ functions_answer (read_functions count count [] sheet.now at) }
{
    let blank = [0usize; 8];
    let mut definitions = [0usize; 8];
    let mut place = at;
    for k in 0..count {
        let f = read_function(sheet, &definitions, count, k, place);
        match f {
            PlaceRead::Refused { number, place } => {
                return FunctionsRead {
                    read: PlaceRead::Refused { number, place },
                    definitions: blank,
                };
            }
            PlaceRead::At(next) => {
                definitions[k as usize] = place;
                place = next;
            }
        }
    }
    FunctionsRead {
        read: PlaceRead::At(place),
        definitions,
    }
}

// The functions from a place on, behind the head of this sheet.
pub(crate) fn functions_after(sheet: &[u8], at: usize, head: HeadRead) -> FunctionsRead
    requires { head ≡ head_read sheet.now }
    ensures { result ≡ functions_answer (functions_from sheet.now at) }
{
    match head {
        HeadRead::Refused { number, place } => FunctionsRead {
            read: PlaceRead::Refused { number, place },
            definitions: [0usize; 8],
        },
        HeadRead::Read { functions, .. } => read_functions(sheet, functions, at),
    }
}

// Where the functions end.
pub(crate) fn functions_end(all: FunctionsRead) -> usize
    ensures { result ≡ functions_end all }
{
    match all.read {
        PlaceRead::At(next) => next,
        PlaceRead::Refused { .. } => 0,
    }
}
