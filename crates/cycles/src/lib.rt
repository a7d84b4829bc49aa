// The cycle run (document 01, "Extraction and the cycle run"): a sheet and lent tables are judged and laid out once, and clock cycles are
// worked out by them.
#![tactic(auto)]

ghost use Rattle.std.specs.Prelude.{◌≡◌, false, ◌||◌, ℕ, ◌<◌, get_or};
ghost use Rattle.masks.specs.Masks.{bits};
ghost use Rattle.nextstate.specs.CycleRun.{refused, cycle_run};
ghost use Rattle.cycles.specs.Many.{cycles_run, ended};
ghost use Rattle.cycles.specs.Preparing.{filled, fill_lent, prepared_number, prepared};
ghost use Rattle.cycles.specs.Written.{WrittenBy};
ghost use Rattle.cycles.specs.Claims.{cycled_of};

use clock_nodes::RowTable;
use clock_run::Rounds;
use clock_steps::RowNumbers;
use events::Inputs;
use nextstate::{Clocked, Registers};
use plan::PlanTable;
use sheet::Layout;

// What `run` gives: how many cycles were accepted, the number that refused the next, 0 where none was; registers and places as the
// last accepted cycle left them, and the wires' values after it.
#[derive(Clone, Copy)]
pub struct Cycled {
    pub cycles: usize,
    pub number: u8,
    pub value: [u32; 32],
    pub unknown: [u32; 32],
    pub places: [u8; 8],
    pub wire: [u32; 32],
    pub unsure: [u32; 32],
}

// ---- preparing

// The registers that each thread writes, plainly or later.
fn joined(plain: &[u32; 8], later: &[u32; 8]) -> [u32; 8]
    ensures { (i r : ℕ) → i < 8 → get_or (bits (get_or result i 0)) r false
        ≡ (get_or (bits (get_or plain.now i 0)) r false || get_or (bits (get_or later.now i 0)) r false) }
{
    let mut out = [0u32; 8];
    for i in 0..8 {
        out[i] = masks::union(plain[i], later[i]);
    }
    out
}

// The registers that each thread of a sheet writes, as masks.
fn written_of(sheet: &[u8], layout: Layout) -> [u32; 8]
    ensures { WrittenBy sheet.now layout result }
{
    let mut code = [0u16; 4096];
    let lengths = pseudocode::compile(
        sheet,
        &layout.definitions,
        layout.threads,
        layout.body,
        &mut code,
    );
    let mut plain = [0u32; 8];
    let mut later = [0u32; 8];
    rules::writers(
        sheet,
        &code,
        &lengths,
        layout.inputs,
        layout.threads,
        &mut plain,
        &mut later,
    );
    joined(&plain, &later)
}

// Fills the lent nodes in a plan's form, the rows of all waits, and the row of each place. `written` has the registers that each thread
// writes.
fn fill_lent(
    plan: &PlanTable,
    nodes: &[u16],
    rows: &[u16],
    sizes: &[u8; 4096],
    written: &[u32; 8],
    lent: &mut PlanTable,
    table: &mut RowTable,
    numbers: &mut RowNumbers,
)
    ensures { filled plan.now lent.new table.new numbers.new
        ≡ fill_lent nodes.now sizes.now rows.now written.now
        (filled plan.now lent.old table.old numbers.old) }
{
    let count = clock_nodes::reach(rows);
    let mut lows = [0u16; 4096];
    clock_nodes::copy_nodes(nodes, sizes, count, lent);
    clock_nodes::low_nodes(nodes, count, &mut lows);
    clock_steps::fill_rows(plan, nodes, &lows, rows, written, numbers, table);
}

// Judges a sheet and lent tables, and fills the tables that `clock_run`'s calls take: 0, or the number that refuses them. What is refused
// leaves all tables as they were.
pub fn prepare(
    sheet: &[u8],
    nodes: &[u16],
    rows: &[u16],
    plan: &mut PlanTable,
    lent: &mut PlanTable,
    table: &mut RowTable,
    numbers: &mut RowNumbers,
) -> u8
    ensures value { result ≡ prepared_number sheet.now nodes.now rows.now }
    ensures numbers_after { filled plan.new lent.new table.new numbers.new
        ≡ prepared sheet.now nodes.now rows.now
        (filled plan.old lent.old table.old numbers.old) }
{
    if nodes.len() != 16384 {
        return 23;
    }
    if rows.len() != 1056 {
        return 23;
    }
    let number = extraction::number(sheet);
    if number != 0 {
        return number;
    }
    let read = sheet::read(sheet);
    let layout = read.layout;
    let written = written_of(sheet, layout);
    let mut own = [0u32; 25212];
    plan_fill::fill(sheet, layout, &mut own);
    let mut sizes = [0u8; 4096];
    if !clock_check::tables_fit(&own, &written, nodes, rows, &mut sizes) {
        return 24;
    }
    fill_lent(&own, nodes, rows, &sizes, &written, lent, table, numbers);
    *plan = own;
    0
}

// ---- the calls

// A refusal hands back the registers and places that it got, and wires all x.
#[tactic(auto, unfolding(nextstate::specs::CycleRun::refused, values::specs::Values::ones))]
fn refused(number: u8, before: Registers) -> Clocked
    ensures { result ≡ refused number before }
{
    // variables: an array of a field has no proof straight in a literal
    let value = before.value;
    let unknown = before.unknown;
    let places = before.places;
    Clocked {
        number,
        value,
        unknown,
        places,
        wire: [0u32; 32],
        unsure: [4294967295u32; 32],
    }
}

// A clock cycle by lent tables, from registers, places and inputs 1 up.
pub fn cycle(
    sheet: &[u8],
    nodes: &[u16],
    rows: &[u16],
    before: Registers,
    inputs: Inputs,
) -> Clocked
    ensures { result ≡ cycle_run sheet.now nodes.now rows.now before inputs }
{
    let mut plan = [0u32; 25212];
    let mut lent = [0u32; 25212];
    let mut table = [0u32; 1152];
    let mut numbers = [0u8; 2048];
    let number = prepare(
        sheet,
        nodes,
        rows,
        &mut plan,
        &mut lent,
        &mut table,
        &mut numbers,
    );
    if number != 0 {
        return refused(number, before);
    }
    clock_run::cycle(&plan, &lent, &table, &numbers, before, inputs)
}

// Where the cycles end: how many, the number that refused the next, and what the last one gave.
#[tactic(auto, unfolding(crate::specs::Many::ended))]
fn ended(cycles: usize, number: u8, last: Clocked) -> Cycled
    ensures { result ≡ ended cycles number last }
{
    // variables: an array of a field has no proof straight in a literal
    let value = last.value;
    let unknown = last.unknown;
    let places = last.places;
    let wire = last.wire;
    let unsure = last.unsure;
    Cycled {
        cycles,
        number,
        value,
        unknown,
        places,
        wire,
        unsure,
    }
}

// Many cycles as `run` answers them.
fn cycled_of(r: Rounds) -> Cycled
    ensures { result ≡ cycled_of r }
{
    ended(r.cycles, r.number, r.last)
}

// Many cycles: whole rows of 16 inputs, the clock's in front, each with its marks; a cycle for each row, from what the last one left,
// up to the first that is refused.
pub fn run(
    sheet: &[u8],
    nodes: &[u16],
    rows: &[u16],
    before: Registers,
    value: &[u32],
    unknown: &[u32],
) -> Cycled
    ensures { result ≡ cycles_run sheet.now nodes.now rows.now before value.now unknown.now }
{
    let mut plan = [0u32; 25212];
    let mut lent = [0u32; 25212];
    let mut table = [0u32; 1152];
    let mut numbers = [0u8; 2048];
    let number = prepare(
        sheet,
        nodes,
        rows,
        &mut plan,
        &mut lent,
        &mut table,
        &mut numbers,
    );
    if number != 0 {
        return ended(0, number, refused(number, before));
    }
    let r = clock_run::cycles(&plan, &lent, &table, &numbers, before, value, unknown);
    cycled_of(r)
}
