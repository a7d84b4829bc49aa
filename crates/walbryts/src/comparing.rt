// `compare`: event simulation, by the plain run and in two drawn orders, against the extracted expressions, cycle by cycle. What the
// cycles show, whether it goes on, and how it ends, is judged by `rivals` and `comparison`.
use crate::ending::result_of;
use crate::feed::{Fault, Feed, Row};
use crate::files::{open_input, show_filled};
use crate::machine::{Plan, Stand, Tables};
use crate::system::{Stream, System};
use crate::wave::Target;
use crate::{feed, machine, report, running};
use comparison::{Counts, Verdict};
use driving::Line;
use options::{CompareOptions, Outcome, Way};
use plan::PlanTable;
use rivals::{Endings, Met, Telling};
use sheet::Layout;

// The four runs: the plain one, those in the orders of seeds 1 and 2, and the one by the expressions.
#[derive(Clone, Copy)]
struct Runs {
    plain: Stand,
    first: Stand,
    second: Stand,
    expressed: Stand,
}

// Where the comparison has come to: how it ends, once it goes no further; the verdict so far, the runs, and what the inputs have left.
#[derive(Clone, Copy)]
struct Sides {
    end: Option<Outcome>,
    verdict: Verdict,
    runs: Runs,
    feed: Feed,
}

// ---- a cycle

// The runs from the start to rest.
fn begun(p: &Plan, plan: &PlanTable) -> Runs {
    Runs {
        plain: machine::begin(p, plan, Way::Plain),
        first: machine::begin(p, plan, Way::Drawn(1)),
        second: machine::begin(p, plan, Way::Drawn(2)),
        expressed: machine::begin(p, plan, Way::Expressed),
    }
}

impl Runs {
    // How the runs ended the cycle, or the start.
    fn endings(&self) -> Endings {
        Endings {
            plain: self.plain.ending(),
            first: self.first.ending(),
            second: self.second.ending(),
            expressed: self.expressed.ending(),
        }
    }

    // The runs a cycle further.
    fn step(&mut self, t: Tables, row: &Row) {
        self.plain.step(t, row);
        self.first.step(t, row);
        self.second.step(t, row);
        self.expressed.step(t, row);
    }

    // What the four runs show of the cycle, by how they ended and by their rows.
    fn meet(&self, p: &Plan, v: Verdict) -> Met {
        let m = Counts {
            inputs: p.inputs,
            registers: p.registers,
            wires: p.wires,
            threads: p.threads,
        };
        rivals::meet(
            m,
            v,
            self.endings(),
            &self.plain.rows,
            &self.first.rows,
            &self.second.rows,
            &self.expressed.rows,
        )
    }
}

// Before the first cycle; where a run does not come to rest from the start, says so.
fn opened(system: &mut System, p: &Plan, plan: &PlanTable, stream: Stream) -> Sides {
    let runs = begun(p, plan);
    let ending = rivals::first_ending(runs.endings());
    Sides {
        end: running::started(system, p.sheet, ending).err(),
        verdict: Verdict::Agreed(0),
        runs,
        feed: feed::over(p.index, stream),
    }
}

impl Sides {
    // A row's cycle: its verdict, and where a run did not come to rest said why.
    fn step(&mut self, system: &mut System, p: &Plan, t: Tables, row: &Row) {
        self.runs.step(t, row);
        let m = self.runs.meet(p, self.verdict);
        machine::say_unrest(
            system,
            p.index,
            comparison::cycle_of(self.verdict),
            m.ending,
        );
        self.verdict = m.verdict;
        if !m.on {
            self.end = Some(driving::outcome_of(m.ending));
        }
    }

    // A line that is no row: it goes no further, unless the line is passed over.
    fn stop_at(&mut self, system: &mut System, fault: Fault) {
        match driving::line_of(fault.error, self.feed.is_over()) {
            Line::Cycle | Line::Passed => {}
            Line::Last => self.end = Some(driving::line_outcome(fault.error)),
            Line::Wrong => {
                self.feed.say(system, fault);
                self.end = Some(driving::line_outcome(fault.error));
            }
        }
    }

    // ---- all of them

    // All rows.
    fn run(&mut self, system: &mut System, p: &Plan, t: Tables) {
        let mut buffer = [0u8; 65536];
        for _ in 0..u64::MAX {
            if self.end.is_some() {
                return;
            }
            if self.feed.is_dry(&buffer) {
                self.end = self.feed.refill(system, &mut buffer).err();
            } else {
                match self.feed.next_row(&buffer, &p.widths, p.inputs) {
                    Ok(row) => self.step(system, p, t, &row),
                    Err(fault) => self.stop_at(system, fault),
                }
            }
        }
    }

    // The comparison's end, with the verdict where it is said. On no cycle there is none.
    fn conclude(&self, system: &mut System, p: &Plan, names: &[u8; 2560]) -> Result<(), Outcome> {
        let verdict = self.verdict;
        let outcome = self.end.unwrap_or(Outcome::Done);
        let end = rivals::conclude(verdict, outcome);
        match rivals::telling_of(verdict, outcome) {
            Telling::Silent => {}
            Telling::Uncompared => {
                report::wrong_with(system, p.index, b": no cycle to compare\n", 0);
            }
            Telling::Told => show_filled(system, |text| {
                comparison::put_verdict(&p.widths, names, verdict, text, 0)
            })?,
        }
        result_of(end)
    }
}

// What the runs go by.
fn plan_of(o: CompareOptions, layout: Layout, sheet: &[u8]) -> Plan {
    Plan {
        inputs: layout.inputs,
        registers: layout.registers,
        wires: layout.wires,
        threads: layout.threads,
        widths: machine::widths_of(sheet),
        sheet: o.sheet,
        index: o.inputs,
        last: false,
        told: false,
        waved: false,
        user: 0,
        allowances: [allowances::MOST; 4],
        source: Stream::Input,
        save: 0,
        kept: Target::Nowhere,
    }
}

// `compare`: a sheet that is read.
pub fn compare(
    system: &mut System,
    o: CompareOptions,
    sheet: &[u8],
    layout: Layout,
    names: &[u8; 2560],
) -> Result<(), Outcome> {
    let mut plan = [0u32; 25212];
    let mut lent = [0u32; 25212];
    let mut table = [0u32; 1152];
    let mut numbers = [0u8; 2048];
    if !running::tabled_out(sheet, &mut plan, &mut lent, &mut table, &mut numbers) {
        report::refuse_extraction(system, o.sheet, sheet, names);
        return Err(Outcome::Refused);
    }
    let stream = open_input(system, o.inputs).ok_or(Outcome::Mistaken)?;
    let p = plan_of(o, layout, sheet);
    let tables = Tables {
        plan: &plan,
        lent: &lent,
        table: &table,
        numbers: &numbers,
    };
    let mut sides = opened(system, &p, &plan, stream);
    sides.run(system, &p, tables);
    sides.conclude(system, &p, names)
}
