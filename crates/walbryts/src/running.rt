// `run`: clock cycles as a table, and as a waveform where one is asked for.
use crate::display::{Trace, View};
use crate::expecting::Expected;
use crate::feed::{Fault, Feed};
use crate::files::{flush, open_input, unshown};
use crate::machine::{Plan, Stand, Tables};
use crate::say::say;
use crate::showing::extracted;
use crate::system::{Stream, System};
use crate::wave::{Target, Wave};
use crate::{display, ending, expecting, feed, machine, report, states, wave};
use clock_nodes::RowTable;
use clock_steps::RowNumbers;
use driving::{Ending, Line, Unextracted};
use options::{Outcome, RunOptions, Way};
use plan::PlanTable;
use sheet::Layout;

// Where a run has come to: how it ends, once it goes no further; what the inputs have left, and the line of them that was wrong; what the
// table shows, and under which names; the page, and where the run stands.
#[derive(Clone, Copy)]
struct Course<'a> {
    end: Option<Outcome>,
    feed: Feed,
    wrong: Option<Fault>,
    view: View,
    names: &'a [u8; 2560],
    page: Page<'a>,
    stand: Stand,
}

// What was shown: whether it could be written, the cycles, how much of the table waits, the waveform, and what the table is held to.
#[derive(Clone, Copy)]
struct Page<'a> {
    good: bool,
    cycle: usize,
    pos: usize,
    wave: Wave<'a>,
    expected: Expected,
}

// ---- how far it has come

fn told(system: &mut System, p: &Plan, cycle: usize) -> bool {
    let errors = system.is_terminal(Stream::Errors);
    let table = system.is_terminal(Stream::Output);
    outputs::is_told(p.told, cycle, errors, table)
}

fn tell(system: &mut System, p: &Plan, cycle: usize) {
    if told(system, p, cycle) {
        say(system, Stream::Errors, b"\r# cycles", cycle, 0);
    }
}

// Ends the line on which that was told.
fn end_line(system: &mut System, p: &Plan, cycle: usize) {
    if told(system, p, cycle) {
        system.write(Stream::Errors, b"\n");
    }
}

impl Page<'_> {
    // ---- what waits to be written

    // The table so far goes out.
    fn spill_table(&mut self, system: &mut System, text: &[u8; 65536]) {
        let pos = self.pos;
        self.pos = 0;
        let shown = flush(system, Stream::Output, text, pos);
        self.expected.meet(system, text, pos);
        if !shown {
            unshown(system);
            self.good = false;
        }
    }

    // The waveform so far goes out, the table first.
    fn spill(&mut self, system: &mut System, text: &[u8; 65536], waves: &[u8; 65536]) {
        self.spill_table(system, text);
        self.wave.spill(system, waves);
        self.good = self.good && self.wave.good;
    }

    // Where a buffer is nearly full.
    fn spill_full(&mut self, system: &mut System, text: &[u8; 65536], waves: &[u8; 65536]) {
        if self.wave.pos >= 50000 {
            self.spill(system, text, waves);
        } else if self.pos >= 60000 {
            self.spill_table(system, text);
        }
    }

    // ---- what is shown of a cycle

    // The part of the waveform of the kth cycle of a trace.
    fn put_wave(&mut self, p: &Plan, trace: &Trace, k: usize, waves: &mut [u8; 65536]) {
        if p.waved {
            self.wave.pos = display::put_cycle(p, self.cycle, trace, k, waves, self.wave.pos);
        }
    }

    // Its line of the table.
    fn put_line(
        &mut self,
        system: &mut System,
        p: &Plan,
        view: &View,
        names: &[u8; 2560],
        trace: &Trace,
        k: usize,
        text: &mut [u8; 65536],
    ) {
        if !p.last && view.is_chosen(self.cycle) {
            let row = display::second_row(k);
            self.pos = view.put_row(names, self.cycle, trace, row, text, self.pos);
        }
        self.cycle = stimulus::counted(self.cycle);
        if self.cycle % 10000 == 0 {
            tell(system, p, self.cycle);
        }
    }
}

impl Course<'_> {
    // The run stops.
    fn stop(&mut self, outcome: Outcome) {
        self.end = Some(outcome);
    }

    // Where the page could not be written, the run stops.
    fn stop_unwritten(&mut self) {
        if !self.page.good {
            self.stop(Outcome::Mistaken);
        }
    }

    // ---- cycles

    // More of the inputs is read, behind what was shown of those before.
    fn refill(
        &mut self,
        system: &mut System,
        p: &Plan,
        text: &[u8; 65536],
        buffer: &mut [u8; 65536],
    ) {
        self.page.spill_table(system, text);
        self.stop_unwritten();
        if self.end.is_some() {
            return;
        }
        if let Err(outcome) = self.feed.refill(system, buffer) {
            end_line(system, p, self.page.cycle);
            self.stop(outcome);
        }
    }

    // The rows that wait to be run, or what the line is in place of one. Gives how many slots of inputs they fill.
    fn take_rows(
        &mut self,
        p: &Plan,
        buffer: &[u8; 65536],
        value: &mut [u32; 512],
        unknown: &mut [u32; 512],
    ) -> usize {
        match self
            .feed
            .next_rows(buffer, &p.widths, p.inputs, value, unknown)
        {
            Ok(size) => size,
            Err(fault) => {
                self.stop_at(fault);
                0
            }
        }
    }

    // A line that is no row: the run stops, unless it is passed over.
    fn stop_at(&mut self, fault: Fault) {
        match driving::line_of(fault.error, self.feed.is_over()) {
            Line::Cycle | Line::Passed => {}
            Line::Last => self.stop(driving::line_outcome(fault.error)),
            Line::Wrong => {
                self.wrong = Some(fault);
                self.stop(driving::line_outcome(fault.error));
            }
        }
    }

    // The cycles of rows of inputs: where one does not come to rest, the run stops. Gives how many came to rest.
    fn run_rows(&mut self, t: Tables, value: &[u32], unknown: &[u32], trace: &mut Trace) -> usize {
        if value.is_empty() {
            return 0;
        }
        let cycles = self.stand.go_on(t, value, unknown, trace);
        let e = self.stand.ending();
        if !matches!(e, Ending::Rested) {
            self.stop(driving::outcome_of(e));
        }
        cycles
    }

    // ---- what is shown of them

    // What is shown of so many cycles, where some were run.
    fn show(
        &mut self,
        system: &mut System,
        p: &Plan,
        cycles: usize,
        trace: &mut Trace,
        text: &mut [u8; 65536],
        waves: &mut [u8; 65536],
    ) {
        if cycles == 0 {
            return;
        }
        for k in 0..cycles.min(32) {
            if !self.page.good {
                break;
            }
            self.page.put_wave(p, trace, k, waves);
            self.page
                .put_line(system, p, &self.view, self.names, trace, k, text);
            self.page.spill_full(system, text, waves);
        }
        self.stop_unwritten();
        display::move_front(trace, cycles);
    }

    // ---- the run

    // The titles of the table, and the head of the waveform.
    fn open(
        &mut self,
        system: &mut System,
        p: &Plan,
        trace: &mut Trace,
        text: &mut [u8; 65536],
        waves: &mut [u8; 65536],
    ) {
        tell(system, p, 0);
        display::put_front(trace, &self.stand.rows);
        self.page.pos = self.view.put_titles(self.names, text);
        if p.waved {
            self.page.wave.pos = display::put_start(system, p, self.names, trace, waves);
        }
    }

    // All cycles. Says now and then how far it has come.
    fn run(&mut self, system: &mut System, p: &Plan, t: Tables) -> Result<(), Outcome> {
        let mut buffer = [0u8; 65536];
        let mut text = [0u8; 65536];
        let mut waves = [0u8; 65536];
        let mut value = [0u32; 512];
        let mut unknown = [0u32; 512];
        let mut trace = [0u64; 5720];
        self.open(system, p, &mut trace, &mut text, &mut waves);
        for _ in 0..u64::MAX {
            if self.end.is_some() {
                break;
            }
            if self.feed.is_dry(&buffer) {
                self.refill(system, p, &text, &mut buffer);
            } else {
                let size = self
                    .take_rows(p, &buffer, &mut value, &mut unknown)
                    .min(512);
                let cycles = self.run_rows(t, &value[..size], &unknown[..size], &mut trace);
                self.show(system, p, cycles, &mut trace, &mut text, &mut waves);
            }
        }
        if p.waved {
            self.put_close(&mut waves);
        }
        self.finish(system, p, &trace, &mut text, &waves)?;
        states::save(system, p, self.feed.stream, &self.stand)
    }

    // The waveform's end: the time at which the next cycle would begin.
    fn put_close(&mut self, waves: &mut [u8; 65536]) {
        self.page.wave.pos = display::put_close(self.page.cycle, waves, self.page.wave.pos);
    }

    // The run is over: the last line where only that one is asked for, what waits, and then what kept it from its end.
    fn finish(
        &mut self,
        system: &mut System,
        p: &Plan,
        trace: &Trace,
        text: &mut [u8; 65536],
        waves: &[u8; 65536],
    ) -> Result<(), Outcome> {
        let cycle = self.page.cycle;
        if p.last && cycle > 0 {
            let pos = self.page.pos;
            self.page.pos = self
                .view
                .put_row(self.names, cycle - 1, trace, display::FRONT, text, pos);
        }
        self.page.spill(system, text, waves);
        tell(system, p, cycle);
        end_line(system, p, cycle);
        self.say_end(system, p);
        let met = self.page.expected.end(system);
        let ended = ending::result_of(self.end.unwrap_or(Outcome::Done)).and(self.written());
        self.page.wave.close(system, ended).and(met)
    }

    // How the command ends by what could be written.
    fn written(&self) -> Result<(), Outcome> {
        if self.page.good {
            return Ok(());
        }
        Err(Outcome::Mistaken)
    }

    // What kept the run from its end: a line that is wrong, or a cycle that did not come to rest.
    fn say_end(&self, system: &mut System, p: &Plan) {
        if let Some(fault) = self.wrong {
            self.feed.say(system, fault);
        }
        machine::say_unrest(system, p.index, self.page.cycle, self.stand.ending());
    }
}

// ---- its start

// Did it come to rest from the start? If not, says why.
pub fn started(system: &mut System, index: usize, e: Ending) -> Result<(), Outcome> {
    match e {
        Ending::Rested => {}
        Ending::Refused(number) => report::stopped(system, index, 0, number),
        Ending::Restless(most) => report::unstarted(system, index, most),
    }
    ending::result_of(driving::outcome_of(e))
}

// Is the run to be held back, where extraction refuses the module? Says what is to be said first.
fn unextracted(
    system: &mut System,
    o: RunOptions,
    sheet: &[u8],
    names: &[u8; 2560],
) -> Result<(), Outcome> {
    match driving::run_unextracted(o.way, o.silent) {
        Unextracted::Held => {
            report::refuse_extraction(system, o.sheet, sheet, names);
            Err(Outcome::Refused)
        }
        Unextracted::Warned => {
            report::one_order(system, o.sheet, sheet, names);
            Ok(())
        }
        Unextracted::Silent => Ok(()),
    }
}

// The extracted expressions, laid out for a run. Is the module extracted?
pub fn tabled_out(
    sheet: &[u8],
    plan: &mut PlanTable,
    lent: &mut PlanTable,
    table: &mut RowTable,
    numbers: &mut RowNumbers,
) -> bool {
    let mut nodes = [0u16; 16384];
    let mut rows = [0u16; 1056];
    extracted(sheet, &mut nodes, &mut rows)
        && cycles::prepare(sheet, &nodes, &rows, plan, lent, table, numbers) == 0
}

// What the table shows.
fn viewed(
    system: &mut System,
    p: &Plan,
    o: RunOptions,
    names: &[u8; 2560],
) -> Result<View, Outcome> {
    let shape = o.shape;
    match o.way {
        Way::Counted => Ok(display::view_of_work(p, shape)),
        _ if shape.only != 0 => display::view_by(system, p, shape, shape.only, names),
        _ => Ok(display::view_of(p, shape)),
    }
}

// The run, from its start state and the expressions on: by the streams of the inputs and of the waveform.
fn run_on(
    system: &mut System,
    o: RunOptions,
    p: &Plan,
    sheet: &[u8],
    names: &[u8; 2560],
    stream: Stream,
    target: Target,
    path: &[u8],
) -> Result<(), Outcome> {
    let mut plan = [0u32; 25212];
    prepared::prepare(sheet, &mut plan);
    let stand = states::begin(system, o, p, &plan, sheet, names)?;
    let mut lent = [0u32; 25212];
    let mut table = [0u32; 1152];
    let mut numbers = [0u8; 2048];
    if !tabled_out(sheet, &mut plan, &mut lent, &mut table, &mut numbers) {
        unextracted(system, o, sheet, names)?;
    }
    let seen = viewed(system, p, o, names);
    let expected = expecting::opened(system, o.expect);
    let view = seen?;
    let page = Page {
        good: true,
        cycle: 0,
        pos: 0,
        expected: expected?,
        wave: wave::made(system, target, path)?,
    };
    let mut titles = *names;
    if matches!(o.way, Way::Counted) {
        titles = [0u8; 2560];
        display::put_work_names(&mut titles);
    }
    let mut course = Course {
        end: None,
        feed: feed::over(p.index, stream),
        wrong: None,
        view,
        names: &titles,
        page,
        stand,
    };
    let tables = Tables {
        plan: &plan,
        lent: &lent,
        table: &table,
        numbers: &numbers,
    };
    course.run(system, p, tables)
}

// What a run goes by.
fn plan_of(
    o: RunOptions,
    layout: Layout,
    sheet: &[u8],
    allowances: [u32; 4],
    source: Stream,
    kept: Target,
) -> Plan {
    Plan {
        inputs: layout.inputs,
        registers: layout.registers,
        wires: layout.wires,
        threads: layout.threads,
        widths: machine::widths_of(sheet),
        sheet: o.sheet,
        index: o.inputs,
        last: o.shape.last,
        told: o.progress,
        waved: o.vcd != 0,
        user: allowances::user_of(o.user),
        allowances,
        source,
        save: o.save,
        kept,
    }
}

// How many choices each user has, by the word that says it, 0 where there is none; where it is wrong, says so.
fn allowances_at(system: &mut System, index: usize) -> Result<[u32; 4], Outcome> {
    // the word stays a number, 0 for none: `options` hands it over so (RunOptions)
    if index == 0 {
        return Ok([allowances::MOST; 4]);
    }
    let mut buffer = [0u8; 4096];
    let word = system.word(index, &mut buffer).unwrap_or(b"");
    let a = allowances::allowances_of(word);
    if !a.good {
        report::wrong_with(
            system,
            index,
            b": no allowances: four numbers from 0 to 4294967295 with commas between them are allowed\n",
            0,
        );
        return Err(Outcome::Mistaken);
    }
    Ok(a.each)
}

// Where a file goes that is written at the end of the run.
fn target_of(
    system: &mut System,
    index: usize,
    source: Stream,
    stream: Stream,
) -> Result<Target, Outcome> {
    let mut name = [0u8; 4096];
    wave::target_of(system, index, source, stream, &mut name)
}

// `run`: a sheet that is read, by its stream.
pub fn run(
    system: &mut System,
    o: RunOptions,
    source: Stream,
    sheet: &[u8],
    layout: Layout,
    names: &[u8; 2560],
) -> Result<(), Outcome> {
    let allowances = allowances_at(system, o.allowance)?;
    let stream = open_input(system, o.inputs).ok_or(Outcome::Mistaken)?;
    let kept = target_of(system, o.save, source, stream);
    let mut name = [0u8; 4096];
    let waved = wave::target_of(system, o.vcd, source, stream, &mut name);
    let kept = kept?;
    let target = waved?;
    let path = name.get(..target.length()).ok_or(Outcome::Mistaken)?;
    let p = plan_of(o, layout, sheet, allowances, source, kept);
    run_on(system, o, &p, sheet, names, stream, target, path)
}
