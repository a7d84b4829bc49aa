// The first values of registers out of a file: which line gives which register its value, and which line is wrong. Each function equals
// its definition in specs/.
#![tactic(auto)]

ghost use Rattle.std.specs.Prelude.{◌≡◌, ◌≤◌, length};
ghost use Rattle.stimulus.specs.Counting.{found_below};
ghost use Rattle.first_values.specs.FirstValues.{ends, run_end, register_of, value_in, marked, with_value, valued};
ghost use Rattle.first_values.specs.FirstValues.{word_taken, line_taken, lines_taken};

use sheet::byte_at;
use state::State;
use stimulus::{Line, counted, line_end, parse};

// What is wrong: error 0 nothing, 1 no value, 2 to 6 as in a line of inputs (`stimulus`), 8 no such register; the line and the column
// concerned; and the state with the values so far.
#[derive(Clone, Copy)]
pub struct Marked {
    pub error: u8,
    pub line: usize,
    pub column: usize,
    pub state: State,
}

// How many inputs and registers there are.
#[derive(Clone, Copy)]
pub struct Counts {
    pub inputs: u8,
    pub registers: u8,
}

const VARIABLES: usize = 80;

// ---- the parts of a line

// Does a byte end a run of blanks, or of others?
#[tactic(auto, unfolding(crate::specs::FirstValues::ends))]
fn ends(blank: bool, line: &[u8], i: usize) -> bool
    ensures { result ≡ ends blank line.now i }
{
    let b = byte_at(line, i);
    hextext::is_blank(b) != blank
}

// The end of a run that starts at a place.
fn run_end(blank: bool, line: &[u8], from: usize) -> usize
    ensures { result ≡ run_end blank line.now from }
{
    for i in from..line.len() {
        if ends(blank, line, i) {
            return i;
        }
    }
    from.max(line.len())
}

// The register that has a name, of the variables from one place to another.
fn register_of(names: &[u8; 2560], from: usize, to: usize, word: &[u8]) -> Option<usize>
    ensures { result ≡ found_below to (register_of names.now from to word.now) }
{
    for v in from..to {
        if naming::same_name(names, v, word) {
            return Some(v);
        }
    }
    None
}

// The value in the rest of a line.
fn value_in(width: u8, line: &[u8]) -> Line
    ensures { result ≡ value_in width line.now }
{
    let widths = [1, width];
    parse(line, &widths, 2)
}

// ---- what a line changes

// What is wrong, and the state.
fn told(error: u8, line: usize, column: usize, state: State) -> Marked
    ensures { result ≡ marked error line column state }
{
    Marked {
        error,
        line,
        column,
        state,
    }
}

// A state with a variable's value.
#[tactic(auto, unfolding(crate::specs::FirstValues::with_value))]
fn with_value(st: State, v: usize, n: u32, marks: u32) -> State
    ensures { result ≡ with_value st v n marks }
{
    if VARIABLES <= v {
        return st;
    }
    let mut value = st.value;
    let mut unknown = st.unknown;
    value[v] = n;
    unknown[v] = marks;
    State {
        value,
        unknown,
        ..st
    }
}

// What the rest of a line gives register v, from a place of the line on.
fn valued(st: State, v: usize, number: usize, to: usize, p: Line) -> Marked
    ensures { result ≡ valued st v number to p }
{
    if p.error != 0 {
        let column = to.wrapping_add(p.column);
        return told(p.error, number, column, st);
    }
    let state = with_value(st, v, p.value[1], p.unknown[1]);
    told(0, 0, 0, state)
}

// A line whose first word stands from one place to another.
fn take_word(
    line: &[u8],
    number: usize,
    from: usize,
    to: usize,
    m: Counts,
    widths: &[u8; 80],
    names: &[u8; 2560],
    st: State,
) -> Marked
    requires from_le_to { from ≤ to }
    requires to_in_bounds { to ≤ length line.now }
    ensures { result ≡ word_taken m.inputs m.registers widths.now names.now line.now number from to st }
{
    let first = m.inputs as usize;
    let behind = first + m.registers as usize;
    match register_of(names, first, behind, &line[from..to]) {
        Some(v) => {
            let p = value_in(byte_at(widths, v), &line[to..]);
            valued(st, v, number, to, p)
        }
        None => told(8, number, counted(from), st),
    }
}

// A line of the file.
fn take_line(
    line: &[u8],
    number: usize,
    m: Counts,
    widths: &[u8; 80],
    names: &[u8; 2560],
    st: State,
) -> Marked
    ensures { result ≡ line_taken m.inputs m.registers widths.now names.now line.now number st }
{
    let whole = value_in(32, line);
    if whole.error == 1 {
        return told(0, 0, 0, st);
    }
    let from = run_end(true, line, 0);
    let to = run_end(false, line, from);
    take_word(line, number, from, to, m, widths, names, st)
}

// All lines of a file.
pub fn take_lines(
    bytes: &[u8],
    m: Counts,
    widths: &[u8; 80],
    names: &[u8; 2560],
    st: State,
) -> Marked
    ensures { result ≡ lines_taken m.inputs m.registers widths.now names.now bytes.now st }
{
    let size = bytes.len();
    let mut state = st;
    let mut from = 0;
    let mut number = 1;
    for _ in 0..size {
        if size <= from {
            return told(0, 0, 0, state);
        }
        let end = line_end(bytes, from, size);
        let t = take_line(&bytes[from..end], number, m, widths, names, state);
        if t.error != 0 {
            return t;
        }
        state = t.state;
        from = counted(end);
        number = counted(number);
    }
    told(0, 0, 0, state)
}
