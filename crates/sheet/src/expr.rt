// Expressions of a sheet: one function for each kind of node.
ghost use Rattle.std.specs.Prelude.{◌≡◌, ◌+◌, ◌<◌, ◌≤◌, length};
ghost use Rattle.sheet.specs.Expression.{arguments_at, read_expr, a_variable, a_constant, an_unknown, a_unary, a_binary, a_conditional, a_call};
ghost use Rattle.sheet.specs.Answers.{expr_answer};
ghost use Rattle.sheet.specs.Parts.{scope_of, node_answer, leaf_answer, definition_at, parameters_at, result_at, outlines, arguments_answer, ExprFound};
ghost use Rattle.sheet.specs.Reader.{constant_from, constant_at};

use super::bytes::{byte_at, read_function, read_name, read_within};
use super::{ArgumentsRead, ByteRead, ExprRead, WordRead, scan};

// A variable: its number. (No operand is read here, nor in a constant: any number of levels serves.)
fn read_variable(sheet: &[u8], widths: &[u8], at: usize) -> ExprRead
    requires { at < length sheet.now }
    ensures { result ≡ leaf_answer widths.now sheet.now at a_variable }
{
    match read_name(sheet, widths, at + 1) {
        ByteRead::Byte(v) => ExprRead::Read {
            next: at + 2,
            width: byte_at(widths, v as usize),
        },
        ByteRead::Refused { number, place } => ExprRead::Refused { number, place },
    }
}

// A constant, once its width and its value were read: the value is judged at its place.
fn constant_from(place: usize, next: usize, width: ByteRead, value: WordRead) -> ExprRead
    ensures { result ≡ constant_from place next width value }
{
    let bits = match width {
        ByteRead::Byte(b) => b,
        ByteRead::Refused { number, place: at } => {
            return ExprRead::Refused { number, place: at };
        }
    };
    let known = match value {
        WordRead::Word(v) => v,
        WordRead::Refused { number, place: at } => {
            return ExprRead::Refused { number, place: at };
        }
    };
    if values::below(bits, known) {
        ExprRead::Read { next, width: bits }
    } else {
        ExprRead::Refused { number: 6, place }
    }
}

// A constant whose width and whose value stand at these places: a Reader takes the byte and the number.
fn constant_at(sheet: &[u8], width: usize, value: usize, next: usize) -> ExprRead
    ensures { result ≡ constant_at sheet.now width value next }
{
    let start = scan::over(sheet);
    constant_from(
        value,
        next,
        scan::byte(scan::moved(start, width), 1, 32, 6),
        scan::word(scan::moved(start, value)),
    )
}

// A constant: its width and its value.
fn read_constant(sheet: &[u8], widths: &[u8], at: usize) -> ExprRead
    requires { at < length sheet.now }
    ensures { result ≡ leaf_answer widths.now sheet.now at a_constant }
{
    constant_at(sheet, at + 1, at + 2, at + 6)
}

// An unknown constant: its width.
fn read_unknown(sheet: &[u8], widths: &[u8], at: usize) -> ExprRead
    requires { at < length sheet.now }
    ensures { result ≡ leaf_answer widths.now sheet.now at an_unknown }
{
    match read_within(sheet, at + 1, 1, 32, 6) {
        ByteRead::Byte(width) => ExprRead::Read {
            next: at + 2,
            width,
        },
        ByteRead::Refused { number, place } => ExprRead::Refused { number, place },
    }
}

// An operator with one operand.
#[cycle(read_arguments_read_binary_read_call_read_conditional_read_expr_read_unary)]
fn read_unary(
    sheet: &[u8],
    widths: &[u8],
    definitions: &[usize; 8],
    declared: u8,
    callable: u8,
    at: usize,
    depth: u8,
) -> ExprRead
    requires { at < length sheet.now }
    ensures { result ≡ node_answer depth (scope_of 0 0 widths.now declared (outlines sheet.now definitions.now callable)) sheet.now at a_unary }
{
    let read = read_within(sheet, at + 1, 1, 2, 6);
    let op = match read {
        ByteRead::Byte(b) => b,
        ByteRead::Refused { number, place } => {
            return ExprRead::Refused { number, place };
        }
    };
    let a = read_expr(
        sheet,
        widths,
        definitions,
        declared,
        callable,
        at + 2,
        depth,
    );
    let ExprRead::Read { next, width } = a else {
        return a;
    };
    ExprRead::Read {
        next,
        width: values::unary_width(op, width),
    }
}

// An operator with two operands of one width.
#[cycle(read_arguments_read_binary_read_call_read_conditional_read_expr_read_unary)]
fn read_binary(
    sheet: &[u8],
    widths: &[u8],
    definitions: &[usize; 8],
    declared: u8,
    callable: u8,
    at: usize,
    depth: u8,
) -> ExprRead
    requires { at < length sheet.now }
    ensures { result ≡ node_answer depth (scope_of 0 0 widths.now declared (outlines sheet.now definitions.now callable)) sheet.now at a_binary }
{
    let read = read_within(sheet, at + 1, 3, 9, 6);
    let op = match read {
        ByteRead::Byte(b) => b,
        ByteRead::Refused { number, place } => {
            return ExprRead::Refused { number, place };
        }
    };
    let a = read_expr(
        sheet,
        widths,
        definitions,
        declared,
        callable,
        at + 2,
        depth,
    );
    let ExprRead::Read {
        next: second,
        width,
    } = a
    else {
        return a;
    };
    let b = read_expr(
        sheet,
        widths,
        definitions,
        declared,
        callable,
        second,
        depth,
    );
    let ExprRead::Read { next, width: other } = b else {
        return b;
    };
    if width != other {
        return ExprRead::Refused {
            number: 8,
            place: at,
        };
    }
    ExprRead::Read {
        next,
        width: values::binary_width(op, width),
    }
}

// A condition and two arms of one width.
#[cycle(read_arguments_read_binary_read_call_read_conditional_read_expr_read_unary)]
fn read_conditional(
    sheet: &[u8],
    widths: &[u8],
    definitions: &[usize; 8],
    declared: u8,
    callable: u8,
    at: usize,
    depth: u8,
) -> ExprRead
    requires { at < length sheet.now }
    ensures { result ≡ node_answer depth (scope_of 0 0 widths.now declared (outlines sheet.now definitions.now callable)) sheet.now at a_conditional }
{
    let read = read_within(sheet, at + 1, 10, 10, 6);
    if let ByteRead::Refused { number, place } = read {
        return ExprRead::Refused { number, place };
    }
    let c = read_expr(
        sheet,
        widths,
        definitions,
        declared,
        callable,
        at + 2,
        depth,
    );
    let ExprRead::Read {
        next: second,
        width: _,
    } = c
    else {
        return c;
    };
    let a = read_expr(
        sheet,
        widths,
        definitions,
        declared,
        callable,
        second,
        depth,
    );
    let ExprRead::Read { next: third, width } = a else {
        return a;
    };
    let b = read_expr(sheet, widths, definitions, declared, callable, third, depth);
    let ExprRead::Read { next, width: other } = b else {
        return b;
    };
    if width != other {
        return ExprRead::Refused {
            number: 8,
            place: at,
        };
    }
    ExprRead::Read { next, width }
}

// The place of a definition, 0 past the last.
pub fn definition_at(definitions: &[usize; 8], n: u8) -> usize
    ensures { result ≡ definition_at definitions.now n }
{
    if n < 8 { definitions[n as usize] } else { 0 }
}

// Where the widths of a function's parameters begin, by its definition's place.
pub(crate) fn parameters_at(sheet: &[u8], place: usize) -> usize
    ensures { result ≡ parameters_at sheet.now place }
{
    let end = sheet.len();
    if place < end { place + 1 } else { end }
}

// Where the width of a function's result stands, by its definition's place.
pub(crate) fn result_at(sheet: &[u8], place: usize) -> usize
    ensures { (result ≡ result_at sheet.now place) × (result ≤ parameters_at sheet.now place + 255) }
{
    let end = sheet.len();
    let first = parameters_at(sheet, place);
    let count = byte_at(sheet, place) as usize;
    if count <= end - first {
        first + count
    } else {
        end
    }
}

// The arguments of a call, one for each of the parameters' widths. All are read; whether their widths are those is judged
// by the caller.
#[cycle(read_arguments_read_binary_read_call_read_conditional_read_expr_read_unary)]
fn read_arguments(
    sheet: &[u8],
    widths: &[u8],
    definitions: &[usize; 8],
    declared: u8,
    callable: u8,
    parameters: &[u8],
    at: usize,
    depth: u8,
) -> ArgumentsRead
    ensures { result ≡ arguments_answer parameters.now (arguments_at (read_expr depth (scope_of 0 0 widths.now declared (outlines sheet.now definitions.now callable)) sheet.now) (length parameters.now) at) }
{
    if parameters.len() == 0 {
        return ArgumentsRead::Read {
            next: at,
            fits: true,
        };
    }
    let wanted = parameters[0];
    let others = &parameters[1..];
    let e = read_expr(sheet, widths, definitions, declared, callable, at, depth);
    match e {
        ExprRead::Refused { number, place } => ArgumentsRead::Refused { number, place },
        ExprRead::Read {
            next: second,
            width,
        } => {
            let rest = read_arguments(
                sheet,
                widths,
                definitions,
                declared,
                callable,
                others,
                second,
                depth,
            );
            let ArgumentsRead::Read { next, fits } = rest else {
                return rest;
            };
            ArgumentsRead::Read {
                next,
                fits: wanted == width && fits,
            }
        }
    }
}

// A call: the number of a function that may be called here, and its arguments.
#[cycle(read_arguments_read_binary_read_call_read_conditional_read_expr_read_unary)]
fn read_call(
    sheet: &[u8],
    widths: &[u8],
    definitions: &[usize; 8],
    declared: u8,
    callable: u8,
    at: usize,
    depth: u8,
) -> ExprRead
    requires { at < length sheet.now }
    ensures { result ≡ node_answer depth (scope_of 0 0 widths.now declared (outlines sheet.now definitions.now callable)) sheet.now at a_call }
{
    let read = read_function(sheet, declared, callable, at + 1);
    let n = match read {
        ByteRead::Byte(b) => b,
        ByteRead::Refused { number, place } => {
            return ExprRead::Refused { number, place };
        }
    };
    let place = definition_at(definitions, n);
    let first = parameters_at(sheet, place);
    let last = result_at(sheet, place);
    let parameters = &sheet[first..last];
    let found = read_arguments(
        sheet,
        widths,
        definitions,
        declared,
        callable,
        parameters,
        at + 2,
        depth,
    );
    match found {
        ArgumentsRead::Refused { number, place } => ExprRead::Refused { number, place },
        ArgumentsRead::Read { next, fits } => {
            if fits {
                ExprRead::Read {
                    next,
                    width: byte_at(sheet, last),
                }
            } else {
                ExprRead::Refused {
                    number: 8,
                    place: at,
                }
            }
        }
    }
}

// The expression at a place, with so many levels left.
#[cycle(read_arguments_read_binary_read_call_read_conditional_read_expr_read_unary)]
pub(crate) fn read_expr(
    sheet: &[u8],
    widths: &[u8],
    definitions: &[usize; 8],
    declared: u8,
    callable: u8,
    at: usize,
    depth: u8,
) -> ExprRead
    ensures { result ≡ expr_answer (read_expr depth (scope_of 0 0 widths.now declared (outlines sheet.now definitions.now callable)) sheet.now at) }
{
    let end = sheet.len();
    if end <= at {
        return ExprRead::Refused {
            number: 2,
            place: end,
        };
    }
    if depth == 0 {
        return ExprRead::Refused {
            number: 7,
            place: at,
        };
    }
    let map = sheet[at];
    match map {
        0x02 => read_variable(sheet, widths, at),
        0x0C => read_constant(sheet, widths, at),
        0x04 => read_unknown(sheet, widths, at),
        0x11 => read_unary(
            sheet,
            widths,
            definitions,
            declared,
            callable,
            at,
            depth - 1,
        ),
        0x31 => read_binary(
            sheet,
            widths,
            definitions,
            declared,
            callable,
            at,
            depth - 1,
        ),
        0x71 => read_conditional(
            sheet,
            widths,
            definitions,
            declared,
            callable,
            at,
            depth - 1,
        ),
        0x80 => {
            if declared == 0 {
                return ExprRead::Refused {
                    number: 5,
                    place: at,
                };
            }
            read_call(
                sheet,
                widths,
                definitions,
                declared,
                callable,
                at,
                depth - 1,
            )
        }
        _ => ExprRead::Refused {
            number: 5,
            place: at,
        },
    }
}

// An expression of the sheet that stands in no other: 16 levels. How many inputs and registers there are is no matter.
pub(crate) fn located(
    sheet: &[u8],
    widths: &[u8],
    definitions: &[usize; 8],
    declared: u8,
    callable: u8,
    at: usize,
) -> ExprRead
    ensures { ExprFound result widths.now declared (outlines sheet.now definitions.now callable) sheet.now at }
{
    read_expr(sheet, widths, definitions, declared, callable, at, 16)
}
