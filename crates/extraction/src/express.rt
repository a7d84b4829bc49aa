// An expression of the sheet as nodes. Each function equals its definition in specs/Emitting, for any bytes and words.
ghost use Rattle.std.specs.Prelude.{◌≡◌, ◌/◌, ◌%◌};
ghost use Rattle.sheet.specs.Reading.{word_of};
ghost use Rattle.extraction.specs.Emitting.{emit_words, emit_count, expression, expressed, made, unmade};
ghost use Rattle.extraction.specs.Emitting.{held_at, unary_at, binary_at, conditional_at, express_at};

use super::Expressed;
use sheet::{byte_at, word_at};

// A word as a place.
fn wide(w: u16) -> usize
    ensures { result ≡ w }
{
    w as usize
}

// A byte as a place.
fn wide_byte(b: u8) -> usize
    ensures { result ≡ b }
{
    b as usize
}

// A byte as a word.
fn word(b: u8) -> u16
    ensures { result ≡ b }
{
    b as u16
}

fn low_half(n: u32) -> u16
    ensures { result ≡ n % 65536 }
{
    let h = n % 65536;
    h as u16
}

fn high_half(n: u32) -> u16
    ensures { result ≡ n / 65536 }
{
    let h = n / 65536;
    h as u16
}

// One node more in a table of `count` nodes; how many there are then.
pub fn emit_node(nodes: &mut [u16; 16384], count: u16, kind: u16, a: u16, b: u16, c: u16) -> u16
    ensures value { result ≡ emit_count count }
    ensures nodes_after { nodes.new ≡ emit_words count kind a b c nodes.old }
{
    if 4096 <= count {
        return 4097;
    }
    let i = 4 * wide(count);
    nodes[i] = kind;
    nodes[i + 1] = a;
    nodes[i + 2] = b;
    nodes[i + 3] = c;
    count + 1
}

// A new node; the sheet goes on at `next`.
fn make(
    nodes: &mut [u16; 16384],
    count: u16,
    kind: u16,
    a: u16,
    b: u16,
    c: u16,
    next: usize,
) -> Expressed
    ensures { expression result nodes.new ≡ made next count kind a b c nodes.old }
{
    let n = emit_node(nodes, count, kind, a, b, c);
    Expressed {
        next,
        node: count,
        count: n,
    }
}

// The node that stands for a variable.
fn held_node(row: &[u16; 32], inputs: u8, registers: u8, v: u8) -> u16
    ensures { result ≡ held_at row.now inputs registers v }
{
    if v < inputs {
        return word(v);
    }
    let r = v - inputs;
    if registers <= r {
        return word(v);
    }
    let i = wide_byte(r);
    if 32 <= i {
        return 0;
    }
    row[i]
}

// Where no expression stands.
fn unmade(at: usize, count: u16) -> Expressed
    ensures { result ≡ expressed at 0 count }
{
    Expressed {
        next: at,
        node: 0,
        count,
    }
}

// A constant of a width; its number at a place.
fn express_constant(
    sheet: &[u8],
    width: u8,
    at: usize,
    next: usize,
    nodes: &mut [u16; 16384],
    count: u16,
) -> Expressed
    ensures { expression result nodes.new
        ≡ made next count 1 width (word_of sheet.now at % 65536) (word_of sheet.now at / 65536)
        nodes.old }
{
    let n = word_at(sheet, at);
    make(
        nodes,
        count,
        1,
        word(width),
        low_half(n),
        high_half(n),
        next,
    )
}

// A unary operator; its operand at a place.
#[cycle(express_express_binary_express_conditional_express_unary)]
fn express_unary(
    sheet: &[u8],
    row: &[u16; 32],
    inputs: u8,
    registers: u8,
    op: u8,
    at: usize,
    depth: u8,
    nodes: &mut [u16; 16384],
    count: u16,
) -> Expressed
    ensures { expression result nodes.new
        ≡ unary_at (express_at (held_at row.now inputs registers) depth sheet.now) op at count
        nodes.old }
{
    let a = express(sheet, row, inputs, registers, at, depth, nodes, count);
    make(nodes, a.count, 10 + word(op), a.node, 0, 0, a.next)
}

// A binary operator; its first operand at a place.
#[cycle(express_express_binary_express_conditional_express_unary)]
fn express_binary(
    sheet: &[u8],
    row: &[u16; 32],
    inputs: u8,
    registers: u8,
    op: u8,
    at: usize,
    depth: u8,
    nodes: &mut [u16; 16384],
    count: u16,
) -> Expressed
    ensures { expression result nodes.new
        ≡ binary_at (express_at (held_at row.now inputs registers) depth sheet.now) op at count
        nodes.old }
{
    let a = express(sheet, row, inputs, registers, at, depth, nodes, count);
    let b = express(sheet, row, inputs, registers, a.next, depth, nodes, a.count);
    make(nodes, b.count, 10 + word(op), a.node, b.node, 0, b.next)
}

// A conditional; its condition at a place.
#[cycle(express_express_binary_express_conditional_express_unary)]
fn express_conditional(
    sheet: &[u8],
    row: &[u16; 32],
    inputs: u8,
    registers: u8,
    at: usize,
    depth: u8,
    nodes: &mut [u16; 16384],
    count: u16,
) -> Expressed
    ensures { expression result nodes.new
        ≡ conditional_at (express_at (held_at row.now inputs registers) depth sheet.now) at count
        nodes.old }
{
    let c = express(sheet, row, inputs, registers, at, depth, nodes, count);
    let a = express(sheet, row, inputs, registers, c.next, depth, nodes, c.count);
    let b = express(sheet, row, inputs, registers, a.next, depth, nodes, a.count);
    make(nodes, b.count, 20, c.node, a.node, b.node, b.next)
}

// The nodes of the expression at a place, with so many levels left; a register's node is the one in `row`.
#[cycle(express_express_binary_express_conditional_express_unary)]
pub fn express(
    sheet: &[u8],
    row: &[u16; 32],
    inputs: u8,
    registers: u8,
    at: usize,
    depth: u8,
    nodes: &mut [u16; 16384],
    count: u16,
) -> Expressed
    ensures { expression result nodes.new
        ≡ express_at (held_at row.now inputs registers) depth sheet.now at count nodes.old }
{
    if depth == 0 {
        return unmade(at, count);
    }
    if sheet.len() <= at {
        return unmade(at, count);
    }
    let map = sheet[at];
    let op = byte_at(sheet, at + 1);
    let rest = at + 2;
    let less = depth - 1;
    match map {
        0x02 => Expressed {
            next: rest,
            node: held_node(row, inputs, registers, op),
            count,
        },
        0x0C => express_constant(sheet, op, rest, at + 6, nodes, count),
        0x04 => make(nodes, count, 2, word(op), 0, 0, rest),
        0x11 => express_unary(sheet, row, inputs, registers, op, rest, less, nodes, count),
        0x31 => express_binary(sheet, row, inputs, registers, op, rest, less, nodes, count),
        0x71 => express_conditional(sheet, row, inputs, registers, rest, less, nodes, count),
        _ => unmade(at, count),
    }
}
