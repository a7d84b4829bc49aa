// What is shown of a run: a line of the table a cycle, and the waveform.
use crate::machine::Plan;
use crate::report;
use crate::system::System;
use options::{Outcome, Shape};
use tabulate::Form;
use trace_row::row_of;

// The rows of up to 32 cycles, two a cycle, and behind them the last row of the cycles before.
pub type Trace = [u64; 5720];

// The number of that last row.
pub const FRONT: usize = 64;

// The row in front of the kth cycle's.
fn row_before(k: usize) -> usize {
    if (1..32).contains(&k) {
        2 * k - 1
    } else {
        FRONT
    }
}

// The second row of the kth cycle.
pub fn second_row(k: usize) -> usize {
    if k < 32 { 2 * k + 1 } else { FRONT }
}

// The second of two rows becomes the last one of the cycles before.
pub fn put_front(trace: &mut Trace, rows: &[u64; 176]) {
    trace[5632..].copy_from_slice(&rows[88..]);
}

// The last row of so many cycles becomes the last one of the cycles before.
pub fn move_front(trace: &mut Trace, cycles: usize) {
    if (1..=32).contains(&cycles) {
        let from = 176 * cycles - 88;
        trace.copy_within(from..from + 88, 5632);
    }
}

// How many variables there are.
pub fn variables(p: &Plan) -> usize {
    usize::from(p.inputs) + usize::from(p.registers) + usize::from(p.wires)
}

// ---- the table

// What the table shows: its form, the widths of the variables, those of its columns and which part of them, and the cycles from one to
// another, every so many.
#[derive(Clone, Copy)]
pub struct View {
    form: Form,
    widths: [u8; 80],
    places: [u8; 80],
    first: usize,
    behind: usize,
    from: usize,
    to: usize,
    every: usize,
}

// The view of all columns in the sheet's order.
pub fn view_of(p: &Plan, o: Shape) -> View {
    let mut places = [0u8; 80];
    columns::put_in_order(&mut places);
    View {
        form: Form {
            base: o.base,
            csv: o.csv,
        },
        widths: p.widths,
        places,
        first: columns::first_of(o.inputs, p.inputs),
        behind: columns::behind_of(o.wires, p.inputs, p.registers, p.wires),
        from: o.from,
        to: o.to,
        every: o.every,
    }
}

// The view of the work: the stores, and the wires that read what changed, each in a column of 16 bits.
pub fn view_of_work(p: &Plan, o: Shape) -> View {
    View {
        widths: [16u8; 80],
        first: 0,
        behind: 2,
        ..view_of(p, o)
    }
}

// The titles of these columns.
pub fn put_work_names(names: &mut [u8; 2560]) {
    naming::set_name(names, 0, b"stores");
    naming::set_name(names, 1, b"readers");
}

// The view of the variables that a word names; where one is not there, says so. A sheet has 80 variables at most.
pub fn view_by(
    system: &mut System,
    p: &Plan,
    o: Shape,
    index: usize,
    names: &[u8; 2560],
) -> Result<View, Outcome> {
    let mut places = [0u8; 80];
    let mut buffer = [0u8; 4096];
    let word = system.word(index, &mut buffer).unwrap_or(b"");
    let count = variables(p).min(255) as u8;
    let c = columns::choose(names, count, word, &mut places);
    if c.error != 0 {
        report::wrong_columns(system, index, c.column, c.error);
        return Err(Outcome::Mistaken);
    }
    Ok(View {
        places,
        first: 0,
        behind: c.count,
        ..view_of(p, o)
    })
}

impl View {
    // Is a cycle shown?
    pub fn is_chosen(&self, cycle: usize) -> bool {
        tabulate::is_chosen(self.from, self.to, self.every, cycle)
    }

    // The titles.
    pub fn put_titles(&self, names: &[u8; 2560], text: &mut [u8; 65536]) -> usize {
        let Some(places) = self.places.get(self.first..self.behind) else {
            return 0;
        };
        tabulate::print_head(self.form, &self.widths, names, places, text, 0)
    }

    // A cycle's line, from a row of the trace.
    pub fn put_row(
        &self,
        names: &[u8; 2560],
        cycle: usize,
        trace: &Trace,
        r: usize,
        text: &mut [u8; 65536],
        pos: usize,
    ) -> usize {
        let Some(places) = self.places.get(self.first..self.behind) else {
            return pos;
        };
        let row = row_of(trace, r);
        tabulate::print_line(
            self.form,
            &self.widths,
            names,
            places,
            cycle,
            row,
            text,
            pos,
        )
    }
}

// ---- the waveform

// Its head, and every value at time 0.
pub fn put_start(
    system: &mut System,
    p: &Plan,
    names: &[u8; 2560],
    trace: &Trace,
    text: &mut [u8; 65536],
) -> usize {
    let m = waveform::Counts {
        inputs: p.inputs,
        registers: p.registers,
        wires: p.wires,
    };
    let mut buffer = [0u8; 4096];
    let path = system.word(p.sheet, &mut buffer).unwrap_or(b"");
    let q = waveform::print_header(&p.widths, names, m, path, text, 0);
    let r = waveform::print_time(0, text, q);
    waveform::print_all(&p.widths, variables(p), row_of(trace, FRONT), text, r)
}

// What has changed, at a time.
fn put_changes(
    p: &Plan,
    time: usize,
    old: &[u64],
    new: &[u64],
    text: &mut [u8; 65536],
    pos: usize,
) -> usize {
    let q = waveform::print_time(time, text, pos);
    waveform::print_changes(&p.widths, variables(p), old, new, text, q)
}

// The two halves of a cycle, the kth of the trace.
pub fn put_cycle(
    p: &Plan,
    cycle: usize,
    trace: &Trace,
    k: usize,
    text: &mut [u8; 65536],
    pos: usize,
) -> usize {
    if k > 31 {
        return pos;
    }
    let a = row_of(trace, row_before(k));
    let b = row_of(trace, 2 * k);
    let c = row_of(trace, second_row(k));
    let q = put_changes(p, driving::time_of(cycle, 0), a, b, text, pos);
    put_changes(p, driving::time_of(cycle, 1), b, c, text, q)
}

// The time at which the next cycle would begin.
pub fn put_close(cycle: usize, text: &mut [u8; 65536], pos: usize) -> usize {
    waveform::print_time(driving::time_of(cycle, 0), text, pos)
}
