// The module as Verilog text (specs/Verilog.antt), written into a lent buffer of 65,536 bytes.
// Every contract says: next place in the sheet, buffer and new position are what printing the text at the old position leaves.
#![tactic(auto)]

ghost use Rattle.std.specs.Prelude.{◌≡◌, ◌+◌, ◌-◌, ◌<◌, ◌≤◌, length};
ghost use Rattle.values.specs.Edges.{edge_of};
ghost use Rattle.writing.specs.Buffer.{filled, puts};
ghost use Rattle.naming.specs.Naming.{name_of};
ghost use Rattle.verilog.specs.Verilog.{indent, before, edge_text, direction_text, range_text, ports_text, declaration_text};
ghost use Rattle.verilog.specs.Verilog.{port_text, function_head, function_end, answer, verilog_of};
ghost use Rattle.verilog.specs.Printing.{told, leaves, lead_at, operands_at, opening_at, count_of, operator_of};
ghost use Rattle.verilog.specs.Printing.{word_at, shape_of, bodies_of, flat, inner_level, end_at, closing_at, bodies_at};
ghost use Rattle.verilog.specs.Printing.{shown_at, term_at, terms_at, assign_at, condition_at, wait_at, heading_at, stmt_at};
ghost use Rattle.verilog.specs.Printing.{declarations_at, wire_at, wires_at, opens_at, block_at, waiting_at, thread_at};
ghost use Rattle.verilog.specs.Printing.{threads_at, definition_at, definitions_at, module_at};

use naming::put_name;
use pseudocode::argument_count;
use sheet::{Layout, byte_at};
use signs::put_lead;
use writing::{put_byte, put_decimal, put_many, put_word};

// What printing a part gives: the next place in the sheet and the next position in the buffer.
#[derive(Clone, Copy)]
pub struct Printed {
    pub next: usize,
    pub pos: usize,
}

// What printing a sheet gives: number 0 and the text's length, or the refusal's number and 0.
#[derive(Clone, Copy)]
pub struct Text {
    pub number: u8,
    pub length: usize,
}

// What is still to be printed of a node's operands: their operator, and how many. Arguments of a call have the operator 11 and how many
// the call has.
#[derive(Clone, Copy)]
pub struct Operands {
    pub op: u8,
    pub left: u8,
}

// What is still to be printed of a statement: its shape and its level, and how many bodies.
#[derive(Clone, Copy)]
pub struct Bodies {
    pub shape: u8,
    pub level: u8,
    pub left: u8,
}

// A separator in front of every item but the first.
pub fn put_before(separator: &[u8], k: usize, text: &mut [u8; 65536], pos: usize) -> usize
    ensures { filled text.new result ≡
        puts (filled text.old pos) (before separator.now k) }
{
    if k == 0 {
        return pos;
    }
    put_word(separator, text, pos)
}

// ---- expressions

// What stands in front of an operand, when `n` are still to come, this one among them.
fn put_between(op: u8, n: u8, text: &mut [u8; 65536], pos: usize) -> usize
    ensures { filled text.new result ≡ puts (filled text.old pos) (lead_at op n) }
{
    if op < 11 {
        return put_lead(op, n, text, pos);
    }
    if op - 11 <= n {
        return pos;
    }
    put_word(b", ", text, pos)
}

// The operands of a node and the closing parenthesis.
#[cycle(print_expr_print_operands)]
fn print_operands(
    sheet: &[u8],
    definitions: &[usize; 8],
    at: usize,
    depth: u8,
    rest: Operands,
    names: &[u8; 2560],
    text: &mut [u8; 65536],
    pos: usize,
) -> Printed
    ensures { told result text.new ≡ leaves (filled text.old pos)
        (operands_at (shown_at (name_of names.now) sheet.now definitions.now depth)
        rest.op rest.left at) }
{
    let op = rest.op;
    let n = rest.left;
    if n == 0 {
        let p = put_byte(b')', text, pos);
        return Printed { next: at, pos: p };
    }
    let p = put_between(op, n, text, pos);
    let a = print_expr(sheet, definitions, at, depth, names, text, p);
    let others = Operands { op, left: n - 1 };
    print_operands(
        sheet,
        definitions,
        a.next,
        depth,
        others,
        names,
        text,
        a.pos,
    )
}

// What stands in front of a node's first operand, by its map and the byte after it.
fn put_opening(map: u8, b: u8, text: &mut [u8; 65536], pos: usize) -> usize
    ensures { filled text.new result ≡ puts (filled text.old pos) (opening_at map b) }
{
    if map != 0x80 {
        return put_word(b"(", text, pos);
    }
    let p = put_word(b"f", text, pos);
    let q = put_decimal(b as usize, text, p);
    put_word(b"(", text, q)
}

// The operands of a node, by its map and the byte after it.
fn operands_of(sheet: &[u8], definitions: &[usize; 8], map: u8, b: u8) -> Operands
    ensures { (result.op ≡ operator_of sheet.now definitions.now map b)
        × (result.left ≡ count_of sheet.now definitions.now map b) × (result.left ≤ 4) }
{
    if map != 0x80 {
        let n = signs::operands(b);
        return Operands { op: b, left: n };
    }
    let n = argument_count(sheet, definitions, b);
    Operands {
        op: 11 + n,
        left: n,
    }
}

// The expression at a place of the sheet, with so many levels left.
#[cycle(print_expr_print_operands)]
pub fn print_expr(
    sheet: &[u8],
    definitions: &[usize; 8],
    at: usize,
    depth: u8,
    names: &[u8; 2560],
    text: &mut [u8; 65536],
    pos: usize,
) -> Printed
    ensures { told result text.new ≡ leaves (filled text.old pos)
        (shown_at (name_of names.now) sheet.now definitions.now depth at) }
{
    if depth == 0 {
        return Printed { next: at, pos };
    }
    if sheet.len() <= at {
        return Printed { next: at, pos };
    }
    let map = byte_at(sheet, at);
    let b = byte_at(sheet, at + 1);
    if map == 0x02 {
        let p = put_name(names, b as usize, text, pos);
        return Printed {
            next: at + 2,
            pos: p,
        };
    }
    if map == 0x0C {
        let value = sheet::word_at(sheet, at + 2);
        let p = signs::put_constant(b, value, text, pos);
        return Printed {
            next: at + 6,
            pos: p,
        };
    }
    if map == 0x04 {
        let p = signs::put_unknown(b, text, pos);
        return Printed {
            next: at + 2,
            pos: p,
        };
    }
    let p = put_opening(map, b, text, pos);
    let rest = operands_of(sheet, definitions, map, b);
    print_operands(sheet, definitions, at + 2, depth - 1, rest, names, text, p)
}

// ---- waits

// The word of an edge by its number in the sheet.
pub fn put_edge(edge: u8, text: &mut [u8; 65536], pos: usize) -> usize
    ensures { filled text.new result ≡ puts (filled text.old pos) (edge_text (edge_of edge)) }
{
    match edge {
        0 => pos,
        1 => put_word(b"posedge ", text, pos),
        _ => put_word(b"negedge ", text, pos),
    }
}

// The pair of a wait at a place, which is its kth.
fn put_term(
    sheet: &[u8],
    at: usize,
    k: usize,
    names: &[u8; 2560],
    text: &mut [u8; 65536],
    pos: usize,
) -> usize
    requires { at < length sheet.now + 1000 }
    ensures { filled text.new result ≡
        puts (filled text.old pos) (term_at (name_of names.now) sheet.now k at) }
{
    let edge = byte_at(sheet, at);
    let v = byte_at(sheet, at + 1);
    let p = put_before(b" or ", k, text, pos);
    let q = put_edge(edge, text, p);
    put_name(names, v as usize, text, q)
}

// The pairs of a wait, the first at a place.
pub fn put_terms(
    sheet: &[u8],
    at: usize,
    n: u8,
    names: &[u8; 2560],
    text: &mut [u8; 65536],
    pos: usize,
) -> usize
    ensures { filled text.new result ≡
        puts (filled text.old pos) (terms_at (name_of names.now) sheet.now n 0 at) }
{
    let count = n as usize;
    let start = at.min(sheet.len());
    let mut p = pos;
    let mut q = start;
    for k in 0..count {
        p = put_term(sheet, q, k, names, text, p);
        q += 2;
    }
    p
}

// ---- statements

// Two blanks a level.
pub fn put_indent(level: u8, text: &mut [u8; 65536], pos: usize) -> usize
    ensures { filled text.new result ≡ puts (filled text.old pos) (indent level) }
{
    put_many(b' ', 2 * level as usize, text, pos)
}

// An assignment whose map stands at `at`.
fn print_assign(
    sheet: &[u8],
    definitions: &[usize; 8],
    at: usize,
    sign: &[u8],
    level: u8,
    names: &[u8; 2560],
    text: &mut [u8; 65536],
    pos: usize,
) -> Printed
    requires { at < length sheet.now }
    ensures { told result text.new ≡ leaves (filled text.old pos)
        (assign_at (name_of names.now) sheet.now definitions.now sign.now level at) }
{
    let target = byte_at(sheet, at + 1);
    let p = put_indent(level, text, pos);
    let q = put_name(names, target as usize, text, p);
    let w = put_word(sign, text, q);
    let e = print_expr(sheet, definitions, at + 2, 16, names, text, w);
    let end = put_word(b";\n", text, e.pos);
    Printed {
        next: e.next,
        pos: end,
    }
}

// A word, the condition behind the map at `at`, and the beginning of a block.
fn print_condition(
    sheet: &[u8],
    definitions: &[usize; 8],
    at: usize,
    word: &[u8],
    level: u8,
    names: &[u8; 2560],
    text: &mut [u8; 65536],
    pos: usize,
) -> Printed
    requires { at < length sheet.now }
    ensures { told result text.new ≡ leaves (filled text.old pos)
        (condition_at (name_of names.now) sheet.now definitions.now word.now level at) }
{
    let p = put_indent(level, text, pos);
    let w = put_word(word, text, p);
    let e = print_expr(sheet, definitions, at + 1, 16, names, text, w);
    let end = put_word(b") begin\n", text, e.pos);
    Printed {
        next: e.next,
        pos: end,
    }
}

// A wait whose map stands at `at`, and a word behind it.
fn print_wait(
    sheet: &[u8],
    at: usize,
    word: &[u8],
    level: u8,
    names: &[u8; 2560],
    text: &mut [u8; 65536],
    pos: usize,
) -> Printed
    requires { at < length sheet.now + 1 }
    ensures { told result text.new ≡ leaves (filled text.old pos)
        (wait_at (name_of names.now) sheet.now word.now level at) }
{
    let n = byte_at(sheet, at + 1);
    let p = put_indent(level, text, pos);
    let q = put_word(b"@(", text, p);
    let w = put_terms(sheet, at + 2, n, names, text, q);
    let end = put_word(word, text, w);
    Printed {
        next: at + 2 + 2 * n as usize,
        pos: end,
    }
}

// A line with nothing from the sheet, for a map at `at`.
fn print_word(word: &[u8], at: usize, level: u8, text: &mut [u8; 65536], pos: usize) -> Printed
    requires { at < 9223372036854775807 }
    ensures { told result text.new ≡ leaves (filled text.old pos)
        (word_at word.now level at) }
{
    let p = put_indent(level, text, pos);
    let end = put_word(word, text, p);
    Printed {
        next: at + 1,
        pos: end,
    }
}

// What stands in front of the first body of the statement at `at`, by its shape.
fn print_heading(
    sheet: &[u8],
    definitions: &[usize; 8],
    at: usize,
    shape: u8,
    level: u8,
    names: &[u8; 2560],
    text: &mut [u8; 65536],
    pos: usize,
) -> Printed
    requires { at < length sheet.now }
    ensures { told result text.new ≡ leaves (filled text.old pos)
        (heading_at (name_of names.now) sheet.now definitions.now level at shape) }
{
    match shape {
        0x00 => print_word(b"begin end\n", at, level, text, pos),
        0x03 => print_assign(sheet, definitions, at, b" = ", level, names, text, pos),
        0x23 => print_assign(sheet, definitions, at, b" <= ", level, names, text, pos),
        0x0C => Printed { next: at + 1, pos },
        0x1C => print_wait(sheet, at + 1, b") begin\n", level, names, text, pos),
        0x2C => print_word(b"begin\n", at, level, text, pos),
        0x06 => print_condition(sheet, definitions, at, b"if (", level, names, text, pos),
        0x0E => print_condition(sheet, definitions, at, b"if (", level, names, text, pos),
        0x46 => print_condition(sheet, definitions, at, b"while (", level, names, text, pos),
        0x44 => print_word(b"forever begin\n", at, level, text, pos),
        0x10 => print_wait(sheet, at, b");\n", level, names, text, pos),
        _ => Printed { next: at, pos },
    }
}

// How a statement is printed, by its map and the byte after it.
fn shape_of(map: u8, first: u8) -> u8
    ensures { result ≡ shape_of map first }
{
    if map != 0x0C {
        return map;
    }
    match first {
        0x10 => 0x1C,
        0x0C => 0x2C,
        _ => 0x0C,
    }
}

// How many bodies a shape has.
fn bodies_of(shape: u8) -> u8
    ensures { result ≡ bodies_of shape }
{
    match shape {
        0x0C => 2,
        0x1C => 1,
        0x2C => 2,
        0x06 => 1,
        0x0E => 2,
        0x46 => 1,
        0x44 => 1,
        _ => 0,
    }
}

// Does a body stand without a block of its own, when `k` bodies were still to come?
fn is_flat(shape: u8, k: u8) -> bool
    ensures { result ≡ flat shape k }
{
    if shape == 0x0C {
        return true;
    }
    if shape == 0x2C {
        return k == 1;
    }
    false
}

// The level of a body.
fn inner_level(shape: u8, k: u8, level: u8) -> u8
    requires { level < 255 }
    ensures { result ≡ inner_level shape k level }
{
    if is_flat(shape, k) { level } else { level + 1 }
}

// The end of a block, when `k` bodies of its statement were still to come.
fn put_end(shape: u8, k: u8, text: &mut [u8; 65536], pos: usize) -> usize
    ensures { filled text.new result ≡ puts (filled text.old pos) (end_at shape k) }
{
    if shape != 0x0E {
        return put_word(b"end\n", text, pos);
    }
    if k != 2 {
        return put_word(b"end\n", text, pos);
    }
    put_word(b"end else begin\n", text, pos)
}

// What stands behind a body.
fn put_closing(shape: u8, k: u8, level: u8, text: &mut [u8; 65536], pos: usize) -> usize
    ensures { filled text.new result ≡ puts (filled text.old pos) (closing_at shape k level) }
{
    if is_flat(shape, k) {
        return pos;
    }
    let p = put_indent(level, text, pos);
    put_end(shape, k, text, p)
}

// The bodies of a statement, the first at a place.
#[cycle(print_bodies_print_stmt)]
fn print_bodies(
    sheet: &[u8],
    definitions: &[usize; 8],
    at: usize,
    depth: u8,
    rest: Bodies,
    names: &[u8; 2560],
    text: &mut [u8; 65536],
    pos: usize,
) -> Printed
    requires { rest.level + depth < 128 }
    ensures { told result text.new ≡ leaves (filled text.old pos)
        (bodies_at (stmt_at (name_of names.now) sheet.now definitions.now depth)
        rest.shape rest.level rest.left at) }
{
    let shape = rest.shape;
    let level = rest.level;
    let k = rest.left;
    if k == 0 {
        return Printed { next: at, pos };
    }
    let inner = inner_level(shape, k, level);
    let a = print_stmt(sheet, definitions, at, depth, inner, names, text, pos);
    let p = put_closing(shape, k, level, text, a.pos);
    let others = Bodies {
        shape,
        level,
        left: k - 1,
    };
    print_bodies(sheet, definitions, a.next, depth, others, names, text, p)
}

// The statement at a place of the sheet, with so many levels left.
#[cycle(print_bodies_print_stmt)]
fn print_stmt(
    sheet: &[u8],
    definitions: &[usize; 8],
    at: usize,
    depth: u8,
    level: u8,
    names: &[u8; 2560],
    text: &mut [u8; 65536],
    pos: usize,
) -> Printed
    requires { level + depth ≤ 128 }
    ensures { told result text.new ≡ leaves (filled text.old pos)
        (stmt_at (name_of names.now) sheet.now definitions.now depth level at) }
{
    if depth == 0 {
        return Printed { next: at, pos };
    }
    if sheet.len() <= at {
        return Printed { next: at, pos };
    }
    let map = byte_at(sheet, at);
    let first = byte_at(sheet, at + 1);
    let shape = shape_of(map, first);
    let h = print_heading(sheet, definitions, at, shape, level, names, text, pos);
    let rest = Bodies {
        shape,
        level,
        left: bodies_of(shape),
    };
    print_bodies(
        sheet,
        definitions,
        h.next,
        depth - 1,
        rest,
        names,
        text,
        h.pos,
    )
}

// ---- the module's parts

// What a variable is.
fn put_direction(inputs: u8, registers: u8, v: usize, text: &mut [u8; 65536], pos: usize) -> usize
    ensures { filled text.new result ≡
        puts (filled text.old pos) (direction_text inputs registers v) }
{
    if v < inputs as usize {
        return put_word(b"input ", text, pos);
    }
    if v < inputs as usize + registers as usize {
        return put_word(b"reg ", text, pos);
    }
    put_word(b"wire ", text, pos)
}

// The range of a variable that is wider than one bit.
fn put_range(width: u8, text: &mut [u8; 65536], pos: usize) -> usize
    ensures { filled text.new result ≡ puts (filled text.old pos) (range_text width) }
{
    if width == 1 {
        return pos;
    }
    let p = put_word(b"[", text, pos);
    let q = put_decimal((width as usize).saturating_sub(1), text, p);
    put_word(b":0] ", text, q)
}

// The line of a variable.
fn put_declaration(
    names: &[u8; 2560],
    inputs: u8,
    registers: u8,
    v: usize,
    width: u8,
    text: &mut [u8; 65536],
    pos: usize,
) -> usize
    ensures { filled text.new result ≡
        puts (filled text.old pos) (declaration_text (name_of names.now) inputs registers v width) }
{
    let p = put_word(b"  ", text, pos);
    let q = put_direction(inputs, registers, v, text, p);
    let w = put_range(width, text, q);
    let e = put_name(names, v, text, w);
    put_word(b";\n", text, e)
}

// The lines of the first `n` variables, the first one's width at a place.
fn put_declarations(
    sheet: &[u8],
    first: usize,
    n: usize,
    names: &[u8; 2560],
    inputs: u8,
    registers: u8,
    text: &mut [u8; 65536],
    pos: usize,
) -> usize
    requires { (first < length sheet.now + 1000) × (n < 1000) }
    ensures { filled text.new result ≡ puts (filled text.old pos)
        (declarations_at (name_of names.now) sheet.now inputs registers first n 0) }
{
    let mut p = pos;
    for v in 0..n {
        let width = byte_at(sheet, first + v);
        p = put_declaration(names, inputs, registers, v, width, text, p);
    }
    p
}

// A name behind a comma, the first behind nothing.
fn put_port(names: &[u8; 2560], v: usize, text: &mut [u8; 65536], pos: usize) -> usize
    ensures { filled text.new result ≡
        puts (filled text.old pos) (port_text (name_of names.now) v) }
{
    let p = put_before(b", ", v, text, pos);
    put_name(names, v, text, p)
}

// The names of the first `n` variables.
fn put_ports(n: usize, names: &[u8; 2560], text: &mut [u8; 65536], pos: usize) -> usize
    ensures { filled text.new result ≡
        puts (filled text.old pos) (ports_text (name_of names.now) n 0) }
{
    let mut p = pos;
    for v in 0..n {
        p = put_port(names, v, text, p);
    }
    p
}

// The assignment of wire `v`, whose expression stands at `at`.
fn print_wire(
    sheet: &[u8],
    definitions: &[usize; 8],
    at: usize,
    v: usize,
    names: &[u8; 2560],
    text: &mut [u8; 65536],
    pos: usize,
) -> Printed
    ensures { told result text.new ≡ leaves (filled text.old pos)
        (wire_at (name_of names.now) sheet.now definitions.now v at) }
{
    let p = put_word(b"  assign ", text, pos);
    let q = put_name(names, v, text, p);
    let w = put_word(b" = ", text, q);
    let e = print_expr(sheet, definitions, at, 16, names, text, w);
    let end = put_word(b";\n", text, e.pos);
    Printed {
        next: e.next,
        pos: end,
    }
}

// The assignments of `n` wires, the first variable `first` with its expression at `at`.
fn print_wires(
    sheet: &[u8],
    definitions: &[usize; 8],
    at: usize,
    n: usize,
    first: usize,
    names: &[u8; 2560],
    text: &mut [u8; 65536],
    pos: usize,
) -> Printed
    requires { first + n < 1000 }
    ensures { told result text.new ≡ leaves (filled text.old pos)
        (wires_at (name_of names.now) sheet.now definitions.now n first at) }
{
    let mut next = at;
    let mut p = pos;
    for k in 0..n {
        let w = print_wire(sheet, definitions, next, first + k, names, text, p);
        next = w.next;
        p = w.pos;
    }
    Printed { next, pos: p }
}

// Does the statement at a place open with a wait?
fn opens(sheet: &[u8], at: usize) -> bool
    ensures { result ≡ opens_at sheet.now at }
{
    if sheet.len() <= at {
        return false;
    }
    let map = byte_at(sheet, at);
    let first = byte_at(sheet, at + 1);
    shape_of(map, first) == 0x1C
}

// The thread whose statement stands at `at`, in a block.
fn print_block(
    sheet: &[u8],
    definitions: &[usize; 8],
    at: usize,
    names: &[u8; 2560],
    text: &mut [u8; 65536],
    pos: usize,
) -> Printed
    ensures { told result text.new ≡ leaves (filled text.old pos)
        (block_at (name_of names.now) sheet.now definitions.now at) }
{
    let p = put_word(b"  always begin\n", text, pos);
    let a = print_stmt(sheet, definitions, at, 64, 2, names, text, p);
    let end = put_word(b"  end\n", text, a.pos);
    Printed {
        next: a.next,
        pos: end,
    }
}

// The thread whose statement stands at `at` and opens with a wait: what follows stands in a block behind the wait.
fn print_waiting(
    sheet: &[u8],
    definitions: &[usize; 8],
    at: usize,
    names: &[u8; 2560],
    text: &mut [u8; 65536],
    pos: usize,
) -> Printed
    requires { at < length sheet.now }
    ensures { told result text.new ≡ leaves (filled text.old pos)
        (waiting_at (name_of names.now) sheet.now definitions.now at) }
{
    let p = put_word(b"  always ", text, pos);
    let w = print_wait(sheet, at + 1, b") begin\n", 0, names, text, p);
    let a = print_stmt(sheet, definitions, w.next, 63, 2, names, text, w.pos);
    let end = put_word(b"  end\n", text, a.pos);
    Printed {
        next: a.next,
        pos: end,
    }
}

// The thread whose statement stands at `at`.
fn print_thread(
    sheet: &[u8],
    definitions: &[usize; 8],
    at: usize,
    names: &[u8; 2560],
    text: &mut [u8; 65536],
    pos: usize,
) -> Printed
    ensures { told result text.new ≡ leaves (filled text.old pos)
        (thread_at (name_of names.now) sheet.now definitions.now at) }
{
    if opens(sheet, at) {
        return print_waiting(sheet, definitions, at, names, text, pos);
    }
    print_block(sheet, definitions, at, names, text, pos)
}

// `n` threads, the first one's statement at `at`.
fn print_threads(
    sheet: &[u8],
    definitions: &[usize; 8],
    at: usize,
    n: u8,
    names: &[u8; 2560],
    text: &mut [u8; 65536],
    pos: usize,
) -> Printed
    ensures { told result text.new ≡ leaves (filled text.old pos)
        (threads_at (name_of names.now) sheet.now definitions.now n at) }
{
    let mut next = at;
    let mut p = pos;
    for _ in 0..n {
        let a = print_thread(sheet, definitions, next, names, text, p);
        next = a.next;
        p = a.pos;
    }
    Printed { next, pos: p }
}

// ---- functions

// The first line of a function.
fn put_function(n: usize, width: u8, text: &mut [u8; 65536], pos: usize) -> usize
    ensures { filled text.new result ≡ puts (filled text.old pos) (function_head n width) }
{
    let p = put_word(b"  function automatic ", text, pos);
    let q = put_range(width, text, p);
    let w = put_word(b"f", text, q);
    let e = put_decimal(n, text, w);
    put_word(b";\n", text, e)
}

// Its last lines.
fn put_result(n: usize, text: &mut [u8; 65536], pos: usize) -> usize
    ensures { filled text.new result ≡ puts (filled text.old pos) (function_end n) }
{
    let p = put_word(b"    f", text, pos);
    let q = put_decimal(n, text, p);
    put_word(b" = r0;\n  end\n  endfunction\n", text, q)
}

// Function `n`, whose definition stands at `at`.
fn print_function(
    sheet: &[u8],
    definitions: &[usize; 8],
    at: usize,
    n: usize,
    text: &mut [u8; 65536],
    pos: usize,
) -> Printed
    ensures { told result text.new ≡ leaves (filled text.old pos)
        (definition_at sheet.now definitions.now n at) }
{
    if sheet.len() <= at {
        return Printed { next: at, pos };
    }
    let k = byte_at(sheet, at);
    let count = k as usize;
    let width = byte_at(sheet, at + 1 + count);
    let mut names = [0u8; 2560];
    naming::fill_plain(k, 1, &mut names);
    let p = put_function(n, width, text, pos);
    let q = put_declarations(sheet, at + 1, count + 1, &names, k, 1, text, p);
    let w = put_word(b"  begin\n", text, q);
    let a = print_stmt(sheet, definitions, at + 2 + count, 64, 2, &names, text, w);
    let end = put_result(n, text, a.pos);
    Printed {
        next: a.next,
        pos: end,
    }
}

// `n` functions, the first one's definition at `at`.
fn print_functions(
    sheet: &[u8],
    definitions: &[usize; 8],
    at: usize,
    n: u8,
    text: &mut [u8; 65536],
    pos: usize,
) -> Printed
    ensures { told result text.new ≡ leaves (filled text.old pos)
        (definitions_at sheet.now definitions.now n 0 at) }
{
    let mut next = at;
    let mut p = pos;
    for k in 0..n as usize {
        let a = print_function(sheet, definitions, next, k, text, p);
        next = a.next;
        p = a.pos;
    }
    Printed { next, pos: p }
}

// ---- the module

// How many variables stand before the wires, and how many wires there are.
#[derive(Clone, Copy)]
pub struct Counts {
    pub first: usize,
    pub wires: usize,
}

fn counts_of(l: Layout) -> Counts
    ensures { (result.first ≡ l.inputs + l.registers) × (result.wires ≡ l.wires) × (result.first + result.wires < 1000) }
{
    let first = l.inputs as usize + l.registers as usize;
    Counts {
        first,
        wires: l.wires as usize,
    }
}

// The module with this layout.
fn print_module(sheet: &[u8], l: Layout, names: &[u8; 2560], text: &mut [u8; 65536]) -> usize
    requires { l.widths < 1000 }
    ensures { filled text.new result ≡ puts (filled text.old 0)
        (module_at (name_of names.now) sheet.now l.definitions
        l.inputs l.registers l.wires l.threads l.functions l.widths) }
{
    let definitions = l.definitions;
    let widths = l.widths;
    let counts = counts_of(l);
    let first = counts.first;
    let wires = counts.wires;
    let n = first + wires;
    let a = put_word(b"module walbryts (", text, 0);
    let b = put_ports(l.inputs as usize, names, text, a);
    let c = put_word(b");\n", text, b);
    let d = put_declarations(sheet, widths, n, names, l.inputs, l.registers, text, c);
    let f = print_functions(sheet, &definitions, widths + n, l.functions, text, d);
    let w = print_wires(
        sheet,
        &definitions,
        f.next,
        wires,
        first,
        names,
        text,
        f.pos,
    );
    let t = print_threads(sheet, &definitions, w.next, l.threads, names, text, w.pos);
    put_word(b"endmodule\n", text, t.pos)
}

// ---- the call

// The module of a sheet as Verilog text at the front of the buffer. What would pass the buffer's end isn't put. A refused sheet
// leaves the buffer as it was.
pub fn print(sheet: &[u8], names: &[u8; 2560], text: &mut [u8; 65536]) -> Text
    ensures { answer result.number (filled text.new result.length) ≡
        verilog_of sheet.now names.now text.old }
{
    let read = sheet::read(sheet);
    let number = read.number;
    if number != 0 {
        return Text { number, length: 0 };
    }
    let l = read.layout;
    let length = print_module(sheet, l, names, text);
    Text { number: 0, length }
}
