// A sheet and its expressions prepared once, and clock cycles by them, from C and Rust. What is prepared lies in four lent tables: the
// sheet's plan, the nodes in a plan's form, the rows of the waits, and the row of each place. Each call equals its definition for tables of
// any contents; specs/PlanClaims says that on what `walbryts_clock_prepare` filled it is the call on the sheet and its expressions.
ghost use Rattle.std.specs.Prelude.{◌≡◌};
ghost use Rattle.plan.specs.Plan.{plan_of};
ghost use Rattle.clock_run.specs.Running.{cycle_on};
ghost use Rattle.clock_run.specs.Rounds.{cycles_on};
ghost use Rattle.clock_run.specs.Traces.{trace_on};
ghost use Rattle.cycles.specs.Preparing.{filled, prepared_number, prepared};
ghost use Rattle.cycles.specs.Claims.{cycled_of};
ghost use Rattle.exports.specs.Clocked.{registers_in, inputs_in, arrays, after_cycle, after_cycles};
ghost use Rattle.exports.specs.Plans.{after_trace};

use clock_nodes::RowTable;
use clock_steps::RowNumbers;
use events::Inputs;
use nextstate::Registers;
use plan::PlanTable;

// Judges a sheet and the nodes and rows of its expressions, and fills the four tables; refused, these stay.
#[unsafe(no_mangle)]
pub extern "C" fn walbryts_clock_prepare(
    sheet: &[u8],
    nodes: &[u16],
    rows: &[u16],
    plan: &mut PlanTable,
    lent: &mut PlanTable,
    table: &mut RowTable,
    numbers: &mut RowNumbers,
) -> u8
    ensures value { result ≡ prepared_number sheet.now nodes.now rows.now }
    ensures numbers_after { filled plan.new lent.new table.new numbers.new
        ≡ prepared sheet.now nodes.now rows.now
        (filled plan.old lent.old table.old numbers.old) }
{
    cycles::prepare(sheet, nodes, rows, plan, lent, table, numbers)
}

// A clock cycle by the tables. `value`, `unknown` and `places` hold the registers, the marks of their unknown bits and the places before
// it and become those after it; `inputs` are the inputs from 1 up; `wire` and `unsure` take the wires and their marks.
#[unsafe(no_mangle)]
pub extern "C" fn walbryts_clock_cycle(
    plan: &PlanTable,
    lent: &PlanTable,
    table: &RowTable,
    numbers: &RowNumbers,
    value: &mut [u32; 32],
    unknown: &mut [u32; 32],
    places: &mut [u8; 8],
    count: u8,
    inputs: &[u32; 16],
    inputs_unknown: &[u32; 16],
    wire: &mut [u32; 32],
    unsure: &mut [u32; 32],
) -> u8
    ensures value { result
        ≡ (cycle_on (plan_of plan.now) (plan_of lent.now).node table.now numbers.now
        (registers_in value.old unknown.old places.old)
        (inputs_in count inputs.now inputs_unknown.now)
        ).number }
    ensures unsure_after { arrays value.new unknown.new places.new wire.new unsure.new
        ≡ after_cycle
        (arrays value.old unknown.old places.old wire.old unsure.old)
        (cycle_on (plan_of plan.now) (plan_of lent.now).node table.now numbers.now
        (registers_in value.old unknown.old places.old)
        (inputs_in count inputs.now inputs_unknown.now)) }
{
    let before = Registers {
        value: *value,
        unknown: *unknown,
        places: *places,
    };
    let a = Inputs {
        count,
        value: *inputs,
        unknown: *inputs_unknown,
    };
    let c = clock_run::cycle(plan, lent, table, numbers, before, a);
    if c.number != 0 {
        return c.number;
    }
    let registers = c.value;
    *value = registers;
    let marks = c.unknown;
    *unknown = marks;
    let waits = c.places;
    *places = waits;
    let wires = c.wire;
    *wire = wires;
    let doubts = c.unsure;
    *unsure = doubts;
    c.number
}

// Many clock cycles by the tables: rows of 16 inputs, the clock's not looked at; `cycles` takes how many were accepted. The arrays become
// what the last accepted one gave; where none was, they stay.
#[unsafe(no_mangle)]
pub extern "C" fn walbryts_clock_cycles(
    plan: &PlanTable,
    lent: &PlanTable,
    table: &RowTable,
    numbers: &RowNumbers,
    value: &mut [u32; 32],
    unknown: &mut [u32; 32],
    places: &mut [u8; 8],
    inputs: &[u32],
    inputs_unknown: &[u32],
    cycles: &mut usize,
    wire: &mut [u32; 32],
    unsure: &mut [u32; 32],
) -> u8
    ensures value { result
        ≡ (cycles_on (plan_of plan.now) (plan_of lent.now).node table.now numbers.now
        (registers_in value.old unknown.old places.old)
        inputs.now inputs_unknown.now
        ).number }
    ensures cycles_after { cycles.new
        ≡ (cycles_on (plan_of plan.now) (plan_of lent.now).node table.now numbers.now
        (registers_in value.old unknown.old places.old)
        inputs.now inputs_unknown.now
        ).cycles }
    ensures unsure_after { arrays value.new unknown.new places.new wire.new unsure.new
        ≡ after_cycles
        (arrays value.old unknown.old places.old wire.old unsure.old)
        (cycled_of
        (cycles_on (plan_of plan.now) (plan_of lent.now).node table.now numbers.now
        (registers_in value.old unknown.old places.old)
        inputs.now inputs_unknown.now)) }
{
    let before = Registers {
        value: *value,
        unknown: *unknown,
        places: *places,
    };
    let r = clock_run::cycles(plan, lent, table, numbers, before, inputs, inputs_unknown);
    *cycles = r.cycles;
    if r.cycles == 0 {
        return r.number;
    }
    let c = r.last;
    let registers = c.value;
    *value = registers;
    let marks = c.unknown;
    *unknown = marks;
    let waits = c.places;
    *places = waits;
    let wires = c.wire;
    *wire = wires;
    let doubts = c.unsure;
    *unsure = doubts;
    r.number
}

// The same cycles, and for each accepted one two rows of 88 words, the cells of 80 variables, then the eight places: once the wires have
// settled on its inputs, with the clock 0, and what it gives, with the clock 1. 23, before all else, where there are not so many lent.
#[unsafe(no_mangle)]
pub extern "C" fn walbryts_clock_trace(
    plan: &PlanTable,
    lent: &PlanTable,
    table: &RowTable,
    numbers: &RowNumbers,
    value: &mut [u32; 32],
    unknown: &mut [u32; 32],
    places: &mut [u8; 8],
    inputs: &[u32],
    inputs_unknown: &[u32],
    trace: &mut [u64],
    cycles: &mut usize,
) -> u8
    ensures value { result
        ≡ (trace_on (plan_of plan.now) (plan_of lent.now).node table.now numbers.now
        (registers_in value.old unknown.old places.old)
        inputs.now inputs_unknown.now trace.old
        ).rounds.number }
    ensures cycles_after { cycles.new
        ≡ (trace_on (plan_of plan.now) (plan_of lent.now).node table.now numbers.now
        (registers_in value.old unknown.old places.old)
        inputs.now inputs_unknown.now trace.old
        ).rounds.cycles }
    ensures trace_after { trace.new
        ≡ (trace_on (plan_of plan.now) (plan_of lent.now).node table.now numbers.now
        (registers_in value.old unknown.old places.old)
        inputs.now inputs_unknown.now trace.old
        ).words }
    ensures places_after { registers_in value.new unknown.new places.new
        ≡ after_trace (registers_in value.old unknown.old places.old)
        (trace_on (plan_of plan.now) (plan_of lent.now).node table.now numbers.now
        (registers_in value.old unknown.old places.old)
        inputs.now inputs_unknown.now trace.old
        ).rounds }
{
    let before = Registers {
        value: *value,
        unknown: *unknown,
        places: *places,
    };
    let r = clock_run::trace(
        plan,
        lent,
        table,
        numbers,
        before,
        inputs,
        inputs_unknown,
        trace,
    );
    *cycles = r.cycles;
    if r.cycles == 0 {
        return r.number;
    }
    let c = r.last;
    let registers = c.value;
    *value = registers;
    let marks = c.unknown;
    *unknown = marks;
    let waits = c.places;
    *places = waits;
    r.number
}
