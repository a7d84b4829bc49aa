// Values, operators, conditions and edges (document 01, "Values and pseudo-code", "The simulation cycle"; document 02, request [4]), and
// the cell of a value. Each function equals its definition in specs/, for every argument.
#![tactic(auto)]

ghost use Rattle.std.specs.Prelude.{◌≡◌, ◌%◌, ◌^◌, ◌<◌, nat_lt, slice_index};
ghost use Rattle.values.specs.Values.{pick, known, ones, all_unknown, fits, holds, same};
ghost use Rattle.values.specs.Operators.{unary_width, unary, possible, marked, between, outside, certain};
ghost use Rattle.values.specs.Operators.{inverted, both, either, differing, equal, negated};
ghost use Rattle.values.specs.Operators.{binary_width, binary, agreed, choice};
ghost use Rattle.values.specs.Edges.{level, fires, edge_of, edge_number};
ghost use Rattle.values.specs.Planes.{value_at, number_of, marks_of};
ghost use Rattle.values.specs.Cells.{cell_of, value_of};

// A number, and a second one that marks its unknown bits. In a value that fits its width the first has 0 under each mark.
#[derive(Clone, Copy, Debug, PartialEq, Eq)]
pub struct Value {
    pub number: u32,
    pub unknown: u32,
}

// What a wait waits for in a variable: any change, a posedge or a negedge.
#[derive(Clone, Copy, Debug, PartialEq, Eq)]
pub enum Edge {
    Change = 0,
    Posedge = 1,
    Negedge = 2,
}

// A known number.
pub fn known(n: u32) -> Value
    ensures { result ≡ known n }
{
    Value {
        number: n,
        unknown: 0,
    }
}

// The number with so many bits, at most 32, all 1.
fn ones(width: u8) -> u32
    ensures { result ≡ ones width }
{
    if width < 32 {
        (1u32 << width) - 1
    } else {
        4294967295
    }
}

// x in so many bits.
pub fn all_unknown(width: u8) -> Value
    ensures { result ≡ all_unknown width }
{
    Value {
        number: 0,
        unknown: ones(width),
    }
}

// Is the number below 2^width?
pub fn below(width: u8, n: u32) -> bool
    ensures { result ≡ nat_lt n (2 ^ width) }
{
    // An if and no ||: a width that every number of 32 bits fits has an answer of its own.
    if 32 <= width { true } else { n < 1u32 << width }
}

// Are the number and the marks below 2^width, and has the number 0 under each mark?
pub fn fits(width: u8, a: Value) -> bool
    ensures { result ≡ fits width a }
{
    below(width, a.number) && below(width, a.unknown) && (a.number & a.unknown) == 0
}

// Does a condition of this value hold?
pub fn holds(a: Value) -> bool
    ensures { result ≡ holds a }
{
    a.number != 0
}

// Are the values equal?
pub fn same(a: Value, b: Value) -> bool
    ensures { result ≡ same a b }
{
    a == b
}

// The width of a unary operator's result.
pub fn unary_width(op: u8, width: u8) -> u8
    ensures { result ≡ unary_width op width }
{
    if op == 2 { 1 } else { width }
}

// The width of a binary operator's result.
pub fn binary_width(op: u8, width: u8) -> u8
    ensures { result ≡ binary_width op width }
{
    match op {
        8 => 1,
        9 => 1,
        _ => width,
    }
}

// The remainder by 2^width.
fn reduce(n: u32, width: u8) -> u32
    ensures { result ≡ n % 2 ^ width }
{
    if 32 <= width { n } else { n % (1u32 << width) }
}

// The bits that are 1 or unknown.
fn possible(a: Value) -> u32
    ensures { result ≡ possible a }
{
    a.number | a.unknown
}

// The marks of both.
fn marked(a: Value, b: Value) -> u32
    ensures { result ≡ marked a b }
{
    a.unknown | b.unknown
}

// 1 where it surely is, unknown where it may be.
fn between(sure: u32, may: u32) -> Value
    ensures { result ≡ between sure may }
{
    Value {
        number: sure,
        unknown: sure ^ may,
    }
}

// The bits of `n` that have no mark.
fn outside(n: u32, marks: u32) -> u32
    ensures { result ≡ outside n marks }
{
    n ^ (n & marks)
}

// ~
fn inverted(width: u8, a: Value) -> Value
    ensures { result ≡ inverted width a }
{
    Value {
        number: outside(ones(width), possible(a)),
        unknown: a.unknown,
    }
}

// &
fn both(a: Value, b: Value) -> Value
    ensures { result ≡ both a b }
{
    between(a.number & b.number, possible(a) & possible(b))
}

// |
fn either(a: Value, b: Value) -> Value
    ensures { result ≡ either a b }
{
    between(a.number | b.number, possible(a) | possible(b))
}

// ^
fn differing(a: Value, b: Value) -> Value
    ensures { result ≡ differing a b }
{
    let marks = marked(a, b);
    Value {
        number: outside(a.number ^ b.number, marks),
        unknown: marks,
    }
}

// A number, or x where a bit of an operand is unknown.
fn certain(width: u8, a: Value, b: Value, n: u32) -> Value
    ensures { result ≡ certain width a b n }
{
    if marked(a, b) == 0 {
        known(n)
    } else {
        all_unknown(width)
    }
}

// ==
fn equal(a: Value, b: Value) -> Value
    ensures { result ≡ equal a b }
{
    if outside(a.number ^ b.number, marked(a, b)) == 0 {
        certain(1, a, b, 1)
    } else {
        known(0)
    }
}

// !
fn negated(a: Value) -> Value
    ensures { result ≡ negated a }
{
    if holds(a) {
        return known(0);
    }
    if a.unknown == 0 {
        known(1)
    } else {
        all_unknown(1)
    }
}

// A unary operator on a value of a width.
pub fn unary(op: u8, width: u8, a: Value) -> Value
    ensures { result ≡ unary op width a }
{
    match op {
        1 => inverted(width, a),
        2 => negated(a),
        _ => all_unknown(unary_width(op, width)),
    }
}

// A binary operator on two values of a width.
pub fn binary(op: u8, width: u8, a: Value, b: Value) -> Value
    ensures { result ≡ binary op width a b }
{
    match op {
        3 => both(a, b),
        4 => either(a, b),
        5 => differing(a, b),
        6 => certain(
            width,
            a,
            b,
            reduce(std::num::wrapping_add_u32(a.number, b.number), width),
        ),
        7 => certain(
            width,
            a,
            b,
            reduce(std::num::wrapping_sub_u32(a.number, b.number), width),
        ),
        8 => equal(a, b),
        9 => certain(1, a, b, u32::from(a.number < b.number)),
        _ => all_unknown(binary_width(op, width)),
    }
}

// The bits in which two arms agree.
fn agreed(a: Value, b: Value) -> Value
    ensures { result ≡ agreed a b }
{
    Value {
        number: a.number & b.number,
        unknown: (a.number ^ b.number) | marked(a, b),
    }
}

// What ?: gives.
pub fn choice(condition: Value, a: Value, b: Value) -> Value
    ensures { result ≡ choice condition a b }
{
    if holds(condition) {
        return a;
    }
    if condition.unknown == 0 {
        b
    } else {
        agreed(a, b)
    }
}

// The edge rule as a chart: a row for the old value, 0, 1 and unknown; in it a column for each new one.
const POSEDGE: [[bool; 3]; 3] = [
    [false, true, true],
    [false, false, false],
    [false, true, false],
];

const NEGEDGE: [[bool; 3]; 3] = [
    [false, false, false],
    [true, false, true],
    [true, false, false],
];

// The row or column of a value in a chart, by its lowest bit: 0, 1, or 2 for unknown.
fn level(a: Value) -> usize
    ensures value { result ≡ level a }
    ensures upper_bound { result < 3 }
{
    if a.unknown % 2 == 0 {
        (a.number % 2) as usize
    } else {
        2
    }
}

// Does a variable that held `old` and now holds `new` have the edge?
pub fn fires(edge: Edge, old: Value, new: Value) -> bool
    ensures { result ≡ fires edge old new }
{
    match edge {
        Edge::Change => !same(old, new),
        Edge::Posedge => POSEDGE[level(old)][level(new)],
        Edge::Negedge => NEGEDGE[level(old)][level(new)],
    }
}

// The edge of a number in a sheet.
pub fn edge_of(n: u8) -> Edge
    ensures { result ≡ edge_of n }
{
    match n {
        0 => Edge::Change,
        1 => Edge::Posedge,
        _ => Edge::Negedge,
    }
}

// The number of an edge in a sheet.
pub fn edge_number(edge: Edge) -> u8
    ensures { result ≡ edge_number edge }
{
    edge as u8
}

// The number at a place of a plane, 0 past its end.
fn plane_at(plane: &[u32], v: usize) -> u32
    ensures { result ≡ slice_index plane.now v }
{
    plane.get(v).copied().unwrap_or(0)
}

// The value in slot `v` of the two planes.
pub fn value_at<'a>(value: &'a [u32], unknown: &'a [u32], v: usize) -> Value
    ensures { result ≡ value_at value.now unknown.now v }
{
    Value {
        number: plane_at(value, v),
        unknown: plane_at(unknown, v),
    }
}

// What a store writes into the plane of numbers.
pub fn number_of(a: Value) -> u32
    ensures { result ≡ number_of a }
{
    a.number
}

// What a store writes into the plane of marks.
pub fn marks_of(a: Value) -> u32
    ensures { result ≡ marks_of a }
{
    a.unknown
}

// The value that a cell stands for: its number in the low half, the marks in the high half.
pub fn load(c: u64) -> Value
    ensures { result ≡ value_of c }
{
    Value {
        number: (c % 4294967296) as u32,
        unknown: (c / 4294967296 % 4294967296) as u32,
    }
}

// The cell of a value.
pub fn store(a: Value) -> u64
    ensures { result ≡ cell_of a }
{
    a.number as u64 + a.unknown as u64 * 4294967296
}

// A unary operator on a cell.
pub fn unary_cell(op: u8, width: u8, a: u64) -> u64
    ensures { result ≡ cell_of (unary op width (value_of a)) }
{
    store(unary(op, width, load(a)))
}

// A binary operator on two cells.
pub fn binary_cell(op: u8, width: u8, a: u64, b: u64) -> u64
    ensures { result ≡ cell_of (binary op width (value_of a) (value_of b)) }
{
    store(binary(op, width, load(a), load(b)))
}

// What ?: gives, of three cells.
pub fn choice_cell(condition: u64, a: u64, b: u64) -> u64
    ensures { result ≡ cell_of (choice (value_of condition) (value_of a) (value_of b)) }
{
    store(choice(load(condition), load(a), load(b)))
}

// The arm that a branch takes: the first only if the condition holds, x included among the failures.
pub fn branch_cell(condition: u64, a: u64, b: u64) -> u64
    ensures { result ≡ cell_of (pick (holds (value_of condition)) (value_of a) (value_of b)) }
{
    if holds_cell(condition) {
        store(load(a))
    } else {
        store(load(b))
    }
}

// Are the values of two cells equal?
pub fn same_cells(a: u64, b: u64) -> bool
    ensures { result ≡ same (value_of a) (value_of b) }
{
    same(load(a), load(b))
}

// Does a condition of this cell hold?
pub fn holds_cell(a: u64) -> bool
    ensures { result ≡ holds (value_of a) }
{
    holds(load(a))
}

// Does a variable whose cell was `old` and now is `new` have the edge?
pub fn fires_cells(edge: Edge, old: u64, new: u64) -> bool
    ensures { result ≡ fires edge (value_of old) (value_of new) }
{
    fires(edge, load(old), load(new))
}
