// The names of variables out of a names file: which line names which variable, and which line is wrong. Each function equals its
// definition in specs/.
#![tactic(auto)]

ghost use Rattle.std.specs.Prelude.{◌≡◌};
ghost use Rattle.labels.specs.Labels.{is_other, is_taken, mark, labelled, named, line_taken, lines_taken};

use stimulus::{counted, line_end, parse_name};

// What is wrong: error 0 nothing, 2 no such variable, 3 a name that is not allowed, 4 another variable has the name; the line and the
// column concerned.
#[derive(Clone, Copy)]
pub struct Mark {
    pub error: u8,
    pub line: usize,
    pub column: usize,
}

// A mark.
fn marked(error: u8, line: usize, column: usize) -> Mark
    ensures { result ≡ mark error line column }
{
    Mark {
        error,
        line,
        column,
    }
}

// Is variable `u` another than `v`, with this name?
#[tactic(auto, unfolding(crate::specs::Labels::is_other))]
fn is_other(names: &[u8; 2560], v: usize, name: &[u8], u: usize) -> bool
    ensures { result ≡ is_other names.now v name.now u }
{
    u != v && naming::same_name(names, u, name)
}

// Is the name another variable's?
fn is_taken(names: &[u8; 2560], v: usize, name: &[u8]) -> bool
    ensures { result ≡ is_taken names.now v name.now }
{
    for u in 0..80 {
        if is_other(names, v, name, u) {
            return true;
        }
    }
    false
}

// A variable gets a name, where no other has it.
fn named(names: &mut [u8; 2560], v: usize, name: &[u8], number: usize, column: usize) -> Mark
    ensures { labelled names.new result ≡ named names.old v name.now number column }
{
    if is_taken(names, v, name) {
        return marked(4, number, column);
    }
    naming::set_name(names, v, name);
    marked(0, 0, 0)
}

// A line of the file.
fn take_line(
    line: &[u8],
    number: usize,
    inputs: u8,
    registers: u8,
    wires: u8,
    names: &mut [u8; 2560],
) -> Mark
    ensures { labelled names.new result
        ≡ line_taken inputs registers wires line.now number names.old }
{
    let p = parse_name(line, inputs, registers, wires);
    if p.error == 1 {
        return marked(0, 0, 0);
    }
    if p.error != 0 {
        return marked(p.error, number, p.column);
    }
    named(
        names,
        p.variable as usize,
        &line[p.from..p.to],
        number,
        p.column,
    )
}

// All lines of a file.
pub fn take_lines(
    bytes: &[u8],
    inputs: u8,
    registers: u8,
    wires: u8,
    names: &mut [u8; 2560],
) -> Mark
    ensures { labelled names.new result
        ≡ lines_taken inputs registers wires bytes.now names.old }
{
    let size = bytes.len();
    let mut from = 0;
    let mut number = 1;
    for _ in 0..size {
        if size <= from {
            return marked(0, 0, 0);
        }
        let end = line_end(bytes, from, size);
        let m = take_line(&bytes[from..end], number, inputs, registers, wires, names);
        if m.error != 0 {
            return m;
        }
        from = counted(end);
        number = counted(number);
    }
    marked(0, 0, 0)
}
