// Extraction (document 01, "Extraction and the cycle run"): the next-state expressions of a sheet, as nodes and rows in lent words.
#![tactic(auto)]

mod express;
pub mod filling;
mod walk;

ghost use Rattle.std.specs.Prelude.{◌≡◌, length, replicate};
ghost use Rattle.tables.specs.Readers.{at_most};
ghost use Rattle.nextstate.specs.Extraction.{expressions, extract};
ghost use Rattle.extraction.specs.Filling.{filling};
ghost use Rattle.extraction.specs.Extracting.{fill_at, Answers, number_in};

use filling::{put_variables, walk_first};
use sheet::Layout;

// What an expression's nodes leave: the place after it, the number of its node, and how many nodes there are, 4,097 where there
// is no room for more.
#[derive(Clone, Copy)]
pub struct Expressed {
    pub next: usize,
    pub node: u16,
    pub count: u16,
}

// A thread's number, the module's inputs and registers, and the masks of the registers that the thread writes and of those
// that it assigns later.
#[derive(Clone, Copy)]
pub struct Thread {
    pub number: usize,
    pub inputs: u8,
    pub registers: u8,
    pub written: u32,
    pub deferred: u32,
}

// A register's node where two legs join, and how many nodes there are.
#[derive(Clone, Copy)]
pub struct Merged {
    pub node: u16,
    pub count: u16,
}

// What a walk leaves: how many nodes there are, the node of the next place, and each register's.
#[derive(Clone, Copy)]
pub struct Walked {
    pub count: u16,
    pub place: u16,
    pub registers: [u16; 32],
}

// How many nodes and rows there are.
#[derive(Clone, Copy)]
pub struct Extent {
    pub nodes: u16,
    pub rows: usize,
}

// A byte as a word.
fn word(b: u8) -> u16
    ensures { result ≡ b }
{
    b as u16
}

// How many threads are walked.
fn thread_count(threads: u8) -> usize
    ensures { result ≡ at_most 8 threads }
{
    if threads < 8 { threads as usize } else { 8 }
}

// Fills the node table and the rows of a sheet that was read.
fn fill(
    sheet: &[u8],
    layout: Layout,
    code: &[u16; 4096],
    sizes: &[usize; 8],
    nodes: &mut [u16; 16384],
    rows: &mut [u16; 1056],
) -> Extent
    ensures { filling result nodes.new rows.new
        ≡ fill_at sheet.now layout code.now sizes.now nodes.old
        rows.old }
{
    let mut plain = [0u32; 8];
    let mut later = [0u32; 8];
    rules::writers(
        sheet,
        code,
        sizes,
        layout.inputs,
        layout.threads,
        &mut plain,
        &mut later,
    );
    let variables = word(layout.inputs) + word(layout.registers) + word(layout.wires);
    put_variables(nodes, variables);
    let e = Extent {
        nodes: variables,
        rows: 0,
    };
    walk_first(
        sheet,
        code,
        sizes,
        layout.inputs,
        layout.registers,
        &plain,
        &later,
        thread_count(layout.threads),
        nodes,
        rows,
        e,
    )
}

// The nodes and rows of a sheet, in tables that are all 0; 0, or the number of its refusal.
fn expressions(sheet: &[u8], nodes: &mut [u16; 16384], rows: &mut [u16; 1056]) -> u8
    requires { (nodes.old ≡ replicate 16384 0) × (rows.old ≡ replicate 1056 0) }
    ensures { Answers (expressions sheet.now) result nodes.new rows.new }
{
    let read = sheet::read(sheet);
    if read.number != 0 {
        return read.number;
    }
    let layout = read.layout;
    let definitions = layout.definitions;
    let mut code = [0u16; 4096];
    let mut readers = [0u32; 80];
    let sizes = pseudocode::compile(sheet, &definitions, layout.threads, layout.body, &mut code);
    tables::fill_readers(
        sheet,
        &definitions,
        &layout.starts,
        layout.wires,
        &mut readers,
    );
    let broken = rules::rule(sheet, layout, &code, &sizes, &readers);
    if broken != 0 {
        return broken;
    }
    let e = fill(sheet, layout, &code, &sizes, nodes, rows);
    if 4096 < e.nodes {
        return 21;
    }
    0
}

// The number that extraction refuses a sheet by, 1 to 21, else 0.
pub fn number(sheet: &[u8]) -> u8
    ensures { result ≡ number_in (expressions sheet.now) }
{
    let mut nodes = [0u16; 16384];
    let mut rows = [0u16; 1056];
    expressions(sheet, &mut nodes, &mut rows)
}

// Copies a node table.
fn copy_nodes(from: [u16; 16384], to: &mut [u16])
    requires { length to.old ≡ 16384 }
    ensures { to.new ≡ from }
{
    for i in 0..16384 {
        to[i] = from[i];
    }
}

// Copies rows.
fn copy_rows(from: [u16; 1056], to: &mut [u16])
    requires { length to.old ≡ 1056 }
    ensures { to.new ≡ from }
{
    for i in 0..1056 {
        to[i] = from[i];
    }
}

// The call on lent words: 16,384 for the nodes and 1,056 for the rows. Refused, they keep their contents.
pub fn extract(sheet: &[u8], nodes: &mut [u16], rows: &mut [u16]) -> u8
    ensures value { result ≡ (extract sheet.now nodes.old rows.old).number }
    ensures nodes_after { nodes.new ≡ (extract sheet.now nodes.old rows.old).nodes }
    ensures rows_after { rows.new ≡ (extract sheet.now nodes.old rows.old).rows }
{
    if nodes.len() != 16384 {
        return 23;
    }
    if rows.len() != 1056 {
        return 23;
    }
    let mut table = [0u16; 16384];
    let mut lines = [0u16; 1056];
    let number = expressions(sheet, &mut table, &mut lines);
    if number != 0 {
        return number;
    }
    copy_nodes(table, nodes);
    copy_rows(lines, rows);
    0
}
