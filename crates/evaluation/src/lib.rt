// The value of an expression that stands in a sheet (document 01, "Values and pseudo-code"; document 02, [5]).
// Each function equals its definition in specs/Bytes for any bytes whatever: where the sheet's reader accepted
// the expression, that is `eval` of its tree (proofs/Calls).
#![tactic(auto)]

ghost use Rattle.std.specs.Prelude.{◌≡◌, ◌+◌, ◌-◌, ◌<◌, length, get_or, drop, set};
ghost use Rattle.values.specs.Cells.{cell_at};
ghost use Rattle.evaluation.specs.Bytes.{nothing, variable_node, unary_node, binary_node, conditional_node, inner_node};
ghost use Rattle.evaluation.specs.Bytes.{passed, operands_of, skip_at, skip_body, result_form, turn_form, if_form, else_form};
ghost use Rattle.evaluation.specs.Bytes.{arguments_at, calls_at, eval_in, run_in};

use sheet::{byte_at, definition_at, word_at};
use values::Value;

// A value, the width of the expression that has it, and the place after that expression.
#[derive(Clone, Copy)]
pub struct Evaluated {
    pub value: Value,
    pub width: u8,
    pub next: usize,
}

// What an expression may name: variables, whose widths stand from a place on, and the functions below a number.
#[derive(Clone, Copy)]
pub struct Names {
    pub widths: usize,
    pub callable: u8,
}

// The cells of a body's variables, of at most four parameters and the result, and the next place.
#[derive(Clone, Copy)]
struct Frame {
    cells: [u64; 5],
    next: usize,
}

// Where no expression stands.
fn nothing() -> Evaluated
    ensures { result ≡ nothing }
{
    Evaluated {
        value: values::all_unknown(0),
        width: 0,
        next: 0,
    }
}

// The width of a variable, whose widths stand from a place on.
fn width_at(sheet: &[u8], widths: usize, v: u8) -> u8
    ensures { result ≡ get_or (drop widths sheet.now) v 0 }
{
    if sheet.len() <= widths {
        return 0;
    }
    byte_at(sheet, widths + v as usize)
}

// The value in a cell.
fn value_at(cells: &[u64], v: usize) -> Value
    ensures { result ≡ cell_at cells.now v }
{
    values::load(cells.get(v).copied().unwrap_or(0))
}

// The cells with one of them changed.
fn put(cells: [u64; 5], k: u8, cell: u64) -> [u64; 5]
    ensures { result ≡ set cells k cell }
{
    let mut row = cells;
    if k < 5 {
        row[k as usize] = cell;
    }
    row
}

// How many operands stand behind a node's map and the byte after it.
fn operands_of(sheet: &[u8], definitions: &[usize; 8], map: u8, field: u8) -> u8
    ensures { result ≡ operands_of sheet.now definitions.now map field }
{
    match map {
        0x11 => 1,
        0x31 => 2,
        0x71 => 3,
        0x80 => byte_at(sheet, definition_at(definitions, field)),
        _ => 0,
    }
}

// The place after so many operands.
#[cycle(skip_expr_skip_operands)]
fn skip_operands(sheet: &[u8], definitions: &[usize; 8], at: usize, depth: u8, count: u8) -> usize
    ensures { result ≡ passed (skip_at depth sheet.now definitions.now) count at }
{
    if count == 0 {
        return at;
    }
    let next = skip_expr(sheet, definitions, at, depth);
    skip_operands(sheet, definitions, next, depth, count - 1)
}

// The place after the expression at a place.
#[cycle(skip_expr_skip_operands)]
fn skip_expr(sheet: &[u8], definitions: &[usize; 8], at: usize, depth: u8) -> usize
    ensures { result ≡ skip_at depth sheet.now definitions.now at }
{
    if depth == 0 || sheet.len() <= at {
        return at;
    }
    let map = sheet[at];
    let count = operands_of(sheet, definitions, map, byte_at(sheet, at + 1));
    if map == 0x0C {
        return skip_operands(sheet, definitions, at + 6, depth - 1, count);
    }
    skip_operands(sheet, definitions, at + 2, depth - 1, count)
}

// The place after the statement of a body at a place.
fn skip_body(sheet: &[u8], definitions: &[usize; 8], at: usize, depth: u8) -> usize
    ensures { result ≡ skip_body depth sheet.now definitions.now at }
{
    if depth == 0 || sheet.len() <= at {
        return at;
    }
    let map = sheet[at];
    match map {
        0x03 => skip_expr(sheet, definitions, at + 2, 16),
        0x0C => {
            let second = skip_body(sheet, definitions, at + 1, depth - 1);
            skip_body(sheet, definitions, second, depth - 1)
        }
        0x06 => {
            let leg = skip_expr(sheet, definitions, at + 1, 16);
            skip_body(sheet, definitions, leg, depth - 1)
        }
        0x0E => {
            let leg = skip_expr(sheet, definitions, at + 1, 16);
            let other = skip_body(sheet, definitions, leg, depth - 1);
            skip_body(sheet, definitions, other, depth - 1)
        }
        _ => at + 1,
    }
}

// The variable of a number; the place after it.
fn eval_variable(sheet: &[u8], names: Names, cells: &[u64], v: u8, next: usize) -> Evaluated
    ensures { result ≡ variable_node (drop names.widths sheet.now) (cell_at cells.now) v next }
{
    Evaluated {
        value: value_at(cells, v as usize),
        width: width_at(sheet, names.widths, v),
        next,
    }
}

// A unary operator; its operand at a place.
#[cycle(eval_arguments_eval_binary_eval_call_eval_conditional_eval_expr_eval_inner_eval_unary_run_body_run_if_run_if_else_run_result_run_turn)]
fn eval_unary(
    sheet: &[u8],
    definitions: &[usize; 8],
    names: Names,
    cells: &[u64],
    op: u8,
    at: usize,
    depth: u8,
) -> Evaluated
    ensures { result ≡ unary_node (eval_in names depth sheet.now definitions.now cells.now) op at }
{
    let a = eval_expr(sheet, definitions, names, cells, at, depth);
    Evaluated {
        value: values::unary(op, a.width, a.value),
        width: values::unary_width(op, a.width),
        next: a.next,
    }
}

// A binary operator; its first operand at a place.
#[cycle(eval_arguments_eval_binary_eval_call_eval_conditional_eval_expr_eval_inner_eval_unary_run_body_run_if_run_if_else_run_result_run_turn)]
fn eval_binary(
    sheet: &[u8],
    definitions: &[usize; 8],
    names: Names,
    cells: &[u64],
    op: u8,
    at: usize,
    depth: u8,
) -> Evaluated
    ensures { result ≡ binary_node (eval_in names depth sheet.now definitions.now cells.now) op at }
{
    let a = eval_expr(sheet, definitions, names, cells, at, depth);
    let b = eval_expr(sheet, definitions, names, cells, a.next, depth);
    Evaluated {
        value: values::binary(op, a.width, a.value, b.value),
        width: values::binary_width(op, a.width),
        next: b.next,
    }
}

// A conditional; its condition at a place.
#[cycle(eval_arguments_eval_binary_eval_call_eval_conditional_eval_expr_eval_inner_eval_unary_run_body_run_if_run_if_else_run_result_run_turn)]
fn eval_conditional(
    sheet: &[u8],
    definitions: &[usize; 8],
    names: Names,
    cells: &[u64],
    at: usize,
    depth: u8,
) -> Evaluated
    ensures { result ≡ conditional_node (eval_in names depth sheet.now definitions.now cells.now) at }
{
    let c = eval_expr(sheet, definitions, names, cells, at, depth);
    let a = eval_expr(sheet, definitions, names, cells, c.next, depth);
    let b = eval_expr(sheet, definitions, names, cells, a.next, depth);
    Evaluated {
        value: values::choice(c.value, a.value, b.value),
        width: a.width,
        next: b.next,
    }
}

// The arguments of a call from the k-th on, up to so many, left first: their cells in the frame.
#[cycle(eval_arguments_eval_binary_eval_call_eval_conditional_eval_expr_eval_inner_eval_unary_run_body_run_if_run_if_else_run_result_run_turn)]
fn eval_arguments(
    sheet: &[u8],
    definitions: &[usize; 8],
    names: Names,
    cells: &[u64],
    depth: u8,
    k: u8,
    count: u8,
    frame: Frame,
) -> Frame
    ensures { result ≡ arguments_at (eval_in names depth sheet.now definitions.now cells.now) k (count - k) frame }
{
    if count <= k {
        return frame;
    }
    let e = eval_expr(sheet, definitions, names, cells, frame.next, depth);
    let row = frame.cells;
    let filled = Frame {
        cells: put(row, k, values::store(e.value)),
        next: e.next,
    };
    eval_arguments(
        sheet,
        definitions,
        names,
        cells,
        depth,
        k + 1,
        count,
        filled,
    )
}

// A call of function n, its arguments from a place on: its body is run on a frame of its own, and may call the functions below n.
#[cycle(eval_arguments_eval_binary_eval_call_eval_conditional_eval_expr_eval_inner_eval_unary_run_body_run_if_run_if_else_run_result_run_turn)]
fn eval_call(
    sheet: &[u8],
    definitions: &[usize; 8],
    names: Names,
    cells: &[u64],
    n: u8,
    at: usize,
    depth: u8,
) -> Evaluated
    ensures { result ≡ calls_at names.callable sheet.now definitions.now (eval_in names depth sheet.now definitions.now cells.now) n at }
{
    let place = definition_at(definitions, n);
    if names.callable <= n || sheet.len() <= place {
        return nothing();
    }
    let count = byte_at(sheet, place);
    let first = place + 1;
    let width = byte_at(sheet, first + count as usize);
    let blank = Frame {
        cells: [0; 5],
        next: at,
    };
    let passed = eval_arguments(sheet, definitions, names, cells, depth, 0, count, blank);
    let row = passed.cells;
    let start = put(row, count, values::store(values::all_unknown(width)));
    let inside = Names {
        widths: first,
        callable: n,
    };
    let ran = run_body(
        sheet,
        definitions,
        inside,
        start,
        place + 2 + count as usize,
        64,
    );
    let end = ran.cells;
    Evaluated {
        value: value_at(&end, count as usize),
        width,
        next: passed.next,
    }
}

// A node that is neither variable nor constant, by its map and the byte after it; what follows stands at a place.
#[cycle(eval_arguments_eval_binary_eval_call_eval_conditional_eval_expr_eval_inner_eval_unary_run_body_run_if_run_if_else_run_result_run_turn)]
fn eval_inner(
    sheet: &[u8],
    definitions: &[usize; 8],
    names: Names,
    cells: &[u64],
    map: u8,
    field: u8,
    at: usize,
    depth: u8,
) -> Evaluated
    ensures { result ≡ inner_node (calls_at names.callable sheet.now definitions.now) (eval_in names depth sheet.now definitions.now cells.now) map field at }
{
    match map {
        0x04 => Evaluated {
            value: values::all_unknown(field),
            width: field,
            next: at,
        },
        0x11 => eval_unary(sheet, definitions, names, cells, field, at, depth),
        0x31 => eval_binary(sheet, definitions, names, cells, field, at, depth),
        0x71 => eval_conditional(sheet, definitions, names, cells, at, depth),
        0x80 => eval_call(sheet, definitions, names, cells, field, at, depth),
        _ => nothing(),
    }
}

// The value of the expression at a place, with so many levels left, on the values in cells.
// A variable or a constant is answered here, and needs no call further down.
#[cycle(eval_arguments_eval_binary_eval_call_eval_conditional_eval_expr_eval_inner_eval_unary_run_body_run_if_run_if_else_run_result_run_turn)]
pub fn eval_expr(
    sheet: &[u8],
    definitions: &[usize; 8],
    names: Names,
    cells: &[u64],
    at: usize,
    depth: u8,
) -> Evaluated
    ensures { result ≡ eval_in names depth sheet.now definitions.now cells.now at }
{
    if depth == 0 || sheet.len() <= at {
        return nothing();
    }
    let map = sheet[at];
    let field = byte_at(sheet, at + 1);
    let rest = at + 2;
    match map {
        0x02 => eval_variable(sheet, names, cells, field, rest),
        0x0C => Evaluated {
            value: values::known(word_at(sheet, rest)),
            width: field,
            next: at + 6,
        },
        _ => eval_inner(
            sheet,
            definitions,
            names,
            cells,
            map,
            field,
            rest,
            depth - 1,
        ),
    }
}

// An assignment to the result.
#[cycle(eval_arguments_eval_binary_eval_call_eval_conditional_eval_expr_eval_inner_eval_unary_run_body_run_if_run_if_else_run_result_run_turn)]
fn run_result(
    sheet: &[u8],
    definitions: &[usize; 8],
    names: Names,
    cells: [u64; 5],
    at: usize,
) -> Frame
    requires { at < length sheet.now }
    ensures { result ≡ result_form (eval_in names 16 sheet.now definitions.now) cells at (get_or sheet.now (at + 1) 0) }
{
    let target = byte_at(sheet, at + 1);
    let e = eval_expr(sheet, definitions, names, &cells, at + 2, 16);
    Frame {
        cells: put(cells, target, values::store(e.value)),
        next: e.next,
    }
}

// Two statements in turn.
#[cycle(eval_arguments_eval_binary_eval_call_eval_conditional_eval_expr_eval_inner_eval_unary_run_body_run_if_run_if_else_run_result_run_turn)]
fn run_turn(
    sheet: &[u8],
    definitions: &[usize; 8],
    names: Names,
    cells: [u64; 5],
    at: usize,
    depth: u8,
) -> Frame
    requires { at < length sheet.now }
    ensures { result ≡ turn_form (run_in names depth sheet.now definitions.now) cells at }
{
    let a = run_body(sheet, definitions, names, cells, at + 1, depth);
    let row = a.cells;
    run_body(sheet, definitions, names, row, a.next, depth)
}

// An if: its leg is run where its condition holds, else passed.
#[cycle(eval_arguments_eval_binary_eval_call_eval_conditional_eval_expr_eval_inner_eval_unary_run_body_run_if_run_if_else_run_result_run_turn)]
fn run_if(
    sheet: &[u8],
    definitions: &[usize; 8],
    names: Names,
    cells: [u64; 5],
    at: usize,
    depth: u8,
) -> Frame
    requires { at < length sheet.now }
    ensures { result ≡ if_form (eval_in names 16 sheet.now definitions.now) (run_in names depth sheet.now definitions.now) (skip_body depth sheet.now definitions.now) cells at }
{
    let e = eval_expr(sheet, definitions, names, &cells, at + 1, 16);
    if values::holds(e.value) {
        return run_body(sheet, definitions, names, cells, e.next, depth);
    }
    Frame {
        cells,
        next: skip_body(sheet, definitions, e.next, depth),
    }
}

// An if-else: one leg is run, the other is passed.
#[cycle(eval_arguments_eval_binary_eval_call_eval_conditional_eval_expr_eval_inner_eval_unary_run_body_run_if_run_if_else_run_result_run_turn)]
fn run_if_else(
    sheet: &[u8],
    definitions: &[usize; 8],
    names: Names,
    cells: [u64; 5],
    at: usize,
    depth: u8,
) -> Frame
    requires { at < length sheet.now }
    ensures { result ≡ else_form (eval_in names 16 sheet.now definitions.now) (run_in names depth sheet.now definitions.now) (skip_body depth sheet.now definitions.now) cells at }
{
    let e = eval_expr(sheet, definitions, names, &cells, at + 1, 16);
    if values::holds(e.value) {
        let a = run_body(sheet, definitions, names, cells, e.next, depth);
        let row = a.cells;
        return Frame {
            cells: row,
            next: skip_body(sheet, definitions, a.next, depth),
        };
    }
    let second = skip_body(sheet, definitions, e.next, depth);
    run_body(sheet, definitions, names, cells, second, depth)
}

// The statement of a body at a place, with so many levels left, on the cells of its frame.
#[cycle(eval_arguments_eval_binary_eval_call_eval_conditional_eval_expr_eval_inner_eval_unary_run_body_run_if_run_if_else_run_result_run_turn)]
fn run_body(
    sheet: &[u8],
    definitions: &[usize; 8],
    names: Names,
    cells: [u64; 5],
    at: usize,
    depth: u8,
) -> Frame
    ensures { result ≡ run_in names depth sheet.now definitions.now cells at }
{
    if depth == 0 || sheet.len() <= at {
        return Frame { cells, next: at };
    }
    let map = sheet[at];
    match map {
        0x03 => run_result(sheet, definitions, names, cells, at),
        0x0C => run_turn(sheet, definitions, names, cells, at, depth - 1),
        0x06 => run_if(sheet, definitions, names, cells, at, depth - 1),
        0x0E => run_if_else(sheet, definitions, names, cells, at, depth - 1),
        _ => Frame {
            cells,
            next: at + 1,
        },
    }
}
