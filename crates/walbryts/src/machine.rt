// What a run goes by, its clock cycles, and what is said where one does not come to rest. A cycle is a row of inputs of a trace call: by
// events on a plan that is prepared once (`driving`), or by the extracted expressions on tables that are prepared once (`clock_run`).
use crate::display::Trace;
use crate::feed::Row;
use crate::report;
use crate::system::{Stream, System};
use crate::wave::Target;
use clock_nodes::RowTable;
use clock_steps::RowNumbers;
use driving::{Ending, Rest};
use nextstate::Registers;
use options::Way;
use plan::PlanTable;
use state::State;

// What a run goes by: the sheet's counts and widths, the words that name the module and the inputs, only the last cycle or all, how far it
// has come told or not, and a waveform or none; whose choices they are, and how many each user has; the module's stream, and the word that
// names a state to be written, 0 where there is none, with where it goes.
#[derive(Clone, Copy)]
pub struct Plan {
    pub inputs: u8,
    pub registers: u8,
    pub wires: u8,
    pub threads: u8,
    pub widths: [u8; 80],
    pub sheet: usize,
    pub index: usize,
    pub last: bool,
    pub told: bool,
    pub waved: bool,
    pub user: u8,
    pub allowances: [u32; 4],
    pub source: Stream,
    pub save: usize,
    pub kept: Target,
}

// The tables that cycles run on: the module's plan, the nodes of its expressions in a plan's form, the rows of the waits, and the row of
// each place.
#[derive(Clone, Copy)]
pub struct Tables<'a> {
    pub plan: &'a PlanTable,
    pub lent: &'a PlanTable,
    pub table: &'a RowTable,
    pub numbers: &'a RowNumbers,
}

// The widths of a sheet's variables.
pub fn widths_of(sheet: &[u8]) -> [u8; 80] {
    let mut widths = [0u8; 80];
    for (i, width) in widths.iter_mut().enumerate() {
        *width = sheet.get(i + 4).copied().unwrap_or(0);
    }
    widths
}

// Where a run stands: whose choices they are, the state by events, the registers by expressions, and the two rows of the last cycle.
#[derive(Clone, Copy)]
pub struct Stand {
    pub user: u8,
    pub rest: Rest,
    pub registers: Registers,
    pub rows: [u64; 176],
}

// Where a run stands that is at rest, or not.
fn stand_of(p: &Plan, rest: Rest) -> Stand {
    let mut rows = [0u64; 176];
    rows[88..].copy_from_slice(&driving::row_of(rest.state));
    Stand {
        user: p.user,
        rest,
        registers: driving::registers_of(p.inputs, rest.state),
        rows,
    }
}

// The state at the start, at rest.
pub fn begin(p: &Plan, plan: &PlanTable, way: Way) -> Stand {
    stand_of(p, driving::begin(plan, p.allowances, p.user, way))
}

// A state, at rest.
pub fn resume(p: &Plan, plan: &PlanTable, st: State, way: Way) -> Stand {
    stand_of(p, driving::resume(plan, st, p.user, way))
}

// Says why a cycle did not come to rest, where it did not.
pub fn say_unrest(system: &mut System, index: usize, cycle: usize, e: Ending) {
    match e {
        Ending::Rested => {}
        Ending::Refused(number) => report::stopped(system, index, cycle, number),
        Ending::Restless(most) => report::restless(system, index, cycle, most),
    }
}

// ---- cycles

impl Stand {
    // Did it come to rest, and if not, why?
    pub fn ending(&self) -> Ending {
        driving::ending_of(self.rest)
    }

    // Rows of inputs, with their work. Gives how many cycles came to rest, whose rows are written.
    fn work(
        &mut self,
        plan: &PlanTable,
        value: &[u32],
        unknown: &[u32],
        trace: &mut Trace,
    ) -> usize {
        let t = workload::trace(plan, self.rest, self.user, value, unknown, trace);
        self.rest = t.rest;
        t.phases / 2
    }

    // Rows of inputs by events.
    fn drive(
        &mut self,
        plan: &PlanTable,
        value: &[u32],
        unknown: &[u32],
        out: &mut [u64],
    ) -> usize {
        let t = driving::trace(plan, self.rest, self.user, value, unknown, out);
        self.rest = t.rest;
        t.phases / 2
    }

    // Rows of inputs by the expressions.
    fn express(&mut self, t: Tables, value: &[u32], unknown: &[u32], out: &mut [u64]) -> usize {
        let r = clock_run::trace(
            t.plan,
            t.lent,
            t.table,
            t.numbers,
            self.registers,
            value,
            unknown,
            out,
        );
        // arrays go through variables: a field's put straight into another's place gets no proof
        let last = r.last;
        let value = last.value;
        let unknown = last.unknown;
        let places = last.places;
        self.registers = Registers {
            value,
            unknown,
            places,
        };
        self.rest = driving::after_expressions(self.rest, r.number);
        r.cycles
    }

    // Rows of inputs by the way of the run, the work not counted.
    fn go(&mut self, t: Tables, value: &[u32], unknown: &[u32], out: &mut [u64]) -> usize {
        match self.rest.way {
            Way::Expressed => self.express(t, value, unknown, out),
            _ => self.drive(t.plan, value, unknown, out),
        }
    }

    // Rows of inputs by the way of the run, or with their work where it is counted. Gives how many cycles came to rest, whose rows are
    // written.
    pub fn go_on(&mut self, t: Tables, value: &[u32], unknown: &[u32], trace: &mut Trace) -> usize {
        match self.rest.way {
            Way::Counted => self.work(t.plan, value, unknown, trace),
            _ => self.go(t, value, unknown, trace),
        }
    }

    // One cycle, with its rows.
    pub fn step(&mut self, t: Tables, row: &Row) {
        let mut rows = [0u64; 176];
        self.go(t, &row.value, &row.unknown, &mut rows);
        self.rows = rows;
    }
}
