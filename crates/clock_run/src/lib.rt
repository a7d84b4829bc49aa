// A clock cycle, and many of them, on a plan and on tables that were filled once from lent ones: registers, places and inputs are judged,
// laid out in cells, and registers, places and wires taken out again. Each function equals its definition in specs/ for plans and tables
// of any contents.
#![tactic(auto)]

ghost use Rattle.std.specs.Prelude.{◌≡◌, ◌+◌, ◌*◌, ◌/◌, ◌≤◌, ◌<◌, length};
ghost use Rattle.plan.specs.Plan.{plan_of};
ghost use Rattle.nextstate.specs.CycleRun.{refused};
ghost use Rattle.clock_steps.specs.Taking.{stand};
ghost use Rattle.clock_run.specs.Running.{values_fit, waits_at, places_wait, upper_of, registers_fit_on, inputs_fit_on, put_values};
ghost use Rattle.clock_run.specs.Running.{hand_on, numbers_to, marks_to, answer_on, cycle_on, turn_on};
ghost use Rattle.clock_run.specs.Rounds.{last_on, ended_at, rounds_on, cycles_on};
ghost use Rattle.clock_run.specs.Traces.{word_of, put_words, turn_traced, trace_turn, taken_on, traced, trace_rows, trace_on};

use clock_nodes::RowTable;
use clock_steps::{RowNumbers, at_most, put_cell, rise, settle};
use events::Inputs;
use nextstate::{Clocked, Registers};
use plan::{Cells, PlanTable};

// ---- 31 and 25

// Do `n` values from a place on fit the widths of the variables from `from` on?
fn values_fit(
    plan: &PlanTable,
    from: usize,
    n: usize,
    value: &[u32],
    unknown: &[u32],
    at: usize,
) -> bool
    requires n_bound { from + n ≤ 1024 }
    requires n_bound_2 { at + n ≤ 18446744073709551615 }
    ensures { result ≡ values_fit (plan_of plan.now) from value.now unknown.now at n }
{
    for v in 0..n {
        if !values::fits(
            plan::width(plan, from + v),
            values::value_at(value, unknown, at + v),
        ) {
            return false;
        }
    }
    true
}

// Is a number a place of thread `i`, and a wait?
#[tactic(auto, unfolding(crate::specs::Running::waits_at))]
fn waits_at(plan: &PlanTable, i: usize, p: u8) -> bool
    ensures { result ≡ waits_at (plan_of plan.now) i p }
{
    (p as usize) < plan::size(plan, i) && plan::waits(plan, i, p)
}

// Does each thread wait?
fn places_wait(plan: &PlanTable, places: &[u8; 8]) -> bool
    ensures { result ≡ places_wait (plan_of plan.now) places.now }
{
    let n = at_most(8, plan::threads(plan));
    for i in 0..n {
        if !waits_at(plan, i, places[i]) {
            return false;
        }
    }
    true
}

// How many inputs a cycle takes: all but the clock.
fn upper(plan: &PlanTable) -> usize
    ensures value { result ≡ upper_of (plan_of plan.now) }
    ensures upper_bound { result ≤ 15 }
{
    let n = plan::inputs(plan);
    if n == 0 {
        return 0;
    }
    at_most(15, n - 1)
}

// 31: do the registers fit their widths, and does each thread wait?
fn registers_fit(plan: &PlanTable, before: Registers) -> bool
    ensures { result ≡ registers_fit_on (plan_of plan.now) before }
{
    let first = plan::inputs(plan);
    let n = plan::registers(plan);
    values_fit(plan, first, n, &before.value, &before.unknown, 0)
        && places_wait(plan, &before.places)
}

// 25: are the inputs as many as the plan's, and do they fit their widths?
fn inputs_fit(plan: &PlanTable, given: Inputs) -> bool
    ensures { result ≡ inputs_fit_on (plan_of plan.now) given }
{
    let count = given.count as usize;
    if count + 1 != plan::inputs(plan) {
        return false;
    }
    values_fit(plan, 1, upper(plan), &given.value, &given.unknown, 0)
}

// ---- values into cells

// The cell of 0 with 32 marks: nothing was put into it.
const BLANK: u64 = 18446744069414584320;

// Puts `n` values from a place on into the cells of the variables from `first` on.
fn put_values(first: usize, n: usize, value: &[u32], unknown: &[u32], at: usize, cells: &mut Cells)
    requires first_bound { first ≤ 256 }
    requires n_bound { n ≤ 32 }
    requires n_bound_2 { at + n ≤ 18446744073709551615 }
    ensures { cells.new ≡ put_values value.now unknown.now first at n cells.old }
{
    for v in 0..n {
        let a = values::store(values::value_at(value, unknown, at + v));
        put_cell(cells, first + v, a);
    }
}

// The cells before a cycle: the registers, and 1 for the clock.
fn hand(plan: &PlanTable, before: Registers, cells: &mut Cells)
    ensures { cells.new ≡ hand_on (plan_of plan.now) before cells.old }
{
    let first = plan::inputs(plan);
    let n = at_most(32, plan::registers(plan));
    put_values(first, n, &before.value, &before.unknown, 0, cells);
    put_cell(cells, 0, 1);
}

// ---- and out again

// The numbers and marks of `n` variables from `first` on.
fn take_values(
    first: usize,
    n: usize,
    cells: &Cells,
    value: &mut [u32; 32],
    unknown: &mut [u32; 32],
)
    requires first_bound { first ≤ 512 }
    requires n_bound { n ≤ 32 }
    ensures value_after { value.new ≡ numbers_to cells.now first n value.old }
    ensures unknown_after { unknown.new ≡ marks_to cells.now first n unknown.old }
{
    for r in 0..n {
        value[r] = values::number_of(values::load(cells[first + r]));
        unknown[r] = values::marks_of(values::load(cells[first + r]));
    }
}

// What a cycle gives, from settled wires.
fn answer(plan: &PlanTable, before: Registers, cells: &Cells, places: [u8; 8]) -> Clocked
    ensures { result ≡ answer_on (plan_of plan.now) before (stand cells.now places) }
{
    let first = plan::inputs(plan);
    let more = plan::registers(plan);
    let wires = at_most(32, plan::wires(plan));
    let mut value = before.value;
    let mut unknown = before.unknown;
    take_values(first, at_most(32, more), cells, &mut value, &mut unknown);
    let mut wire = [0u32; 32];
    let mut unsure = [4294967295u32; 32];
    take_values(first + more, wires, cells, &mut wire, &mut unsure);
    Clocked {
        number: 0,
        value,
        unknown,
        places,
        wire,
        unsure,
    }
}

// A refusal hands back the registers and places that it got, and wires all x.
#[tactic(auto, unfolding(nextstate::specs::CycleRun::refused, values::specs::Values::ones))]
fn refused(number: u8, before: Registers) -> Clocked
    ensures { result ≡ refused number before }
{
    // variables: an array of a field has no proof straight in a literal
    let value = before.value;
    let unknown = before.unknown;
    let places = before.places;
    Clocked {
        number,
        value,
        unknown,
        places,
        wire: [0u32; 32],
        unsure: [4294967295u32; 32],
    }
}

// ---- a cycle

// A clock cycle from registers, places and inputs 1 up, by tables that are filled.
pub fn cycle(
    plan: &PlanTable,
    lent: &PlanTable,
    table: &RowTable,
    numbers: &RowNumbers,
    before: Registers,
    given: Inputs,
) -> Clocked
    ensures { result
        ≡ cycle_on (plan_of plan.now) (plan_of lent.now).node table.now numbers.now before
        given }
{
    if !registers_fit(plan, before) {
        return refused(31, before);
    }
    if !inputs_fit(plan, given) {
        return refused(25, before);
    }
    let mut cells = [BLANK; 4176];
    let mut places = before.places;
    hand(plan, before, &mut cells);
    put_values(1, upper(plan), &given.value, &given.unknown, 0, &mut cells);
    settle(plan, &mut cells);
    rise(plan, lent, table, numbers, &mut cells, &mut places);
    settle(plan, &mut cells);
    answer(plan, before, &cells, places)
}

// ---- many cycles

// What many cycles give: how many were accepted, the number that refused the next, 0 where none was, and what the last one gave.
#[derive(Clone, Copy)]
pub struct Rounds {
    pub cycles: usize,
    pub number: u8,
    pub last: Clocked,
}

// Where the cycles end.
#[tactic(auto, unfolding(crate::specs::Rounds::ended_at))]
fn ended(cycles: usize, number: u8, last: Clocked) -> Rounds
    ensures { result ≡ ended_at cycles number last }
{
    Rounds {
        cycles,
        number,
        last,
    }
}

// What the last of `r` cycles gave; before the first the registers as handed, and wires x.
fn last_of(
    plan: &PlanTable,
    before: Registers,
    r: usize,
    cells: &mut Cells,
    places: [u8; 8],
) -> Clocked
    ensures { result ≡ last_on (plan_of plan.now) before r (stand cells.old places) }
{
    if r == 0 {
        return refused(0, before);
    }
    settle(plan, cells);
    answer(plan, before, cells, places)
}

// The wires settled, then the rise.
fn turn(
    plan: &PlanTable,
    lent: &PlanTable,
    table: &RowTable,
    numbers: &RowNumbers,
    cells: &mut Cells,
    places: &mut [u8; 8],
)
    ensures { stand cells.new places.new
        ≡ turn_on (plan_of plan.now) (plan_of lent.now).node table.now numbers.now
        (stand cells.old places.old) }
{
    settle(plan, cells);
    rise(plan, lent, table, numbers, cells, places);
}

// A cycle for each row of 16, the clock's in front, up to the first that is refused.
fn run_rows(
    plan: &PlanTable,
    lent: &PlanTable,
    table: &RowTable,
    numbers: &RowNumbers,
    before: Registers,
    value: &[u32],
    unknown: &[u32],
) -> Rounds
    ensures { result
        ≡ rounds_on (plan_of plan.now) (plan_of lent.now).node table.now numbers.now before
        value.now unknown.now }
{
    let rows = value.len() / 16;
    let n = upper(plan);
    let mut cells = [BLANK; 4176];
    let mut places = before.places;
    hand(plan, before, &mut cells);
    for r in 0..rows {
        let at = 16 * r + 1;
        if !values_fit(plan, 1, n, value, unknown, at) {
            let last = last_of(plan, before, r, &mut cells, places);
            return ended(r, 25, last);
        }
        put_values(1, n, value, unknown, at, &mut cells);
        turn(plan, lent, table, numbers, &mut cells, &mut places);
    }
    let last = last_of(plan, before, rows, &mut cells, places);
    ended(rows, 0, last)
}

// Many cycles by tables that are filled: whole rows of 16 inputs, each with its marks; a cycle for each row, from what the last one
// left, up to the first that is refused.
pub fn cycles(
    plan: &PlanTable,
    lent: &PlanTable,
    table: &RowTable,
    numbers: &RowNumbers,
    before: Registers,
    value: &[u32],
    unknown: &[u32],
) -> Rounds
    ensures { result
        ≡ cycles_on (plan_of plan.now) (plan_of lent.now).node table.now numbers.now before
        value.now unknown.now }
{
    if !registers_fit(plan, before) {
        return ended(0, 31, refused(31, before));
    }
    if !fitting::rows_whole(value, unknown) {
        return ended(0, 25, refused(25, before));
    }
    run_rows(plan, lent, table, numbers, before, value, unknown)
}

// ---- traces: two rows of 88 words a cycle, the cells of 80 variables and the eight places

// Word `k` of a row: the clock as given, the variables below `end`, x past them, then the places.
fn word_of(end: usize, clock: u64, cells: &Cells, places: &[u8; 8], k: usize) -> u64
    requires { k < 88 }
    ensures { result ≡ word_of end clock cells.now places.now k }
{
    if k == 0 {
        return clock;
    }
    if 80 <= k {
        return places[k - 80] as u64;
    }
    if k < end {
        return values::store(values::load(cells[k]));
    }
    BLANK
}

// Puts the words of a row.
fn put_row(end: usize, clock: u64, cells: &Cells, places: &[u8; 8], at: usize, out: &mut [u64])
    requires { at + 88 ≤ length out.old }
    ensures { out.new
        ≡ put_words (word_of end clock cells.now places.now) at 88 out.old }
{
    for k in 0..88 {
        out[at + k] = word_of(end, clock, cells, places, k);
    }
}

// A cycle on fed cells: its low row is put once the wires have settled, its high row once they have after the rise.
fn trace_turn(
    plan: &PlanTable,
    lent: &PlanTable,
    table: &RowTable,
    numbers: &RowNumbers,
    cells: &mut Cells,
    places: &mut [u8; 8],
    at: usize,
    out: &mut [u64],
)
    requires { at + 176 ≤ length out.old }
    ensures { turn_traced (stand cells.new places.new) out.new
        ≡ trace_turn (plan_of plan.now) (plan_of lent.now).node table.now numbers.now at
        (stand cells.old places.old) out.old }
{
    let end = plan::inputs(plan) + plan::registers(plan) + plan::wires(plan);
    settle(plan, cells);
    put_row(end, 0, cells, places, at, out);
    rise(plan, lent, table, numbers, cells, places);
    settle(plan, cells);
    put_row(end, 1, cells, places, at + 88, out);
}

// What the last of `r` cycles gave, whose wires have settled; before the first the registers as handed, and wires x.
fn taken_of(
    plan: &PlanTable,
    before: Registers,
    r: usize,
    cells: &Cells,
    places: [u8; 8],
) -> Clocked
    ensures { result ≡ taken_on (plan_of plan.now) before r (stand cells.now places) }
{
    if r == 0 {
        return refused(0, before);
    }
    answer(plan, before, cells, places)
}

// A cycle for each row of inputs, up to the first that is refused; the rows of each are put.
fn trace_rows(
    plan: &PlanTable,
    lent: &PlanTable,
    table: &RowTable,
    numbers: &RowNumbers,
    before: Registers,
    value: &[u32],
    unknown: &[u32],
    out: &mut [u64],
) -> Rounds
    requires { 176 * (length value.now / 16) ≤ length out.old }
    ensures { traced result out.new
        ≡ trace_rows (plan_of plan.now) (plan_of lent.now).node table.now numbers.now before
        value.now unknown.now out.old }
{
    let rows = value.len() / 16;
    let n = upper(plan);
    let mut cells = [BLANK; 4176];
    let mut places = before.places;
    hand(plan, before, &mut cells);
    for r in 0..rows {
        let at = 16 * r + 1;
        if !values_fit(plan, 1, n, value, unknown, at) {
            let last = taken_of(plan, before, r, &cells, places);
            return ended(r, 25, last);
        }
        put_values(1, n, value, unknown, at, &mut cells);
        trace_turn(
            plan,
            lent,
            table,
            numbers,
            &mut cells,
            &mut places,
            176 * r,
            out,
        );
    }
    let last = taken_of(plan, before, rows, &cells, places);
    ended(rows, 0, last)
}

// Many cycles as `cycles` runs them, and two rows of 88 words for each: row 2c once the wires have settled on cycle c's inputs, with the
// clock 0 and registers and places as before it, and row 2c + 1 what the cycle gives, with the clock 1. 23 where not so many are lent.
pub fn trace(
    plan: &PlanTable,
    lent: &PlanTable,
    table: &RowTable,
    numbers: &RowNumbers,
    before: Registers,
    value: &[u32],
    unknown: &[u32],
    out: &mut [u64],
) -> Rounds
    ensures { traced result out.new
        ≡ trace_on (plan_of plan.now) (plan_of lent.now).node table.now numbers.now before
        value.now unknown.now out.old }
{
    if out.len() / 88 < 2 * (value.len() / 16) {
        return ended(0, 23, refused(23, before));
    }
    if !registers_fit(plan, before) {
        return ended(0, 31, refused(31, before));
    }
    if !fitting::rows_whole(value, unknown) {
        return ended(0, 25, refused(25, before));
    }
    trace_rows(plan, lent, table, numbers, before, value, unknown, out)
}
