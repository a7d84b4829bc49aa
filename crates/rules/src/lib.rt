// Extraction's rules, numbers 12 to 20, judged on an accepted sheet's bytes and the tables that are filled from it once: which
// registers each thread writes and which variables it reads, how statements wait, and the lowest rule that is broken.
// Each function equals its definition in specs/ for bytes and tables of any contents.
#![tactic(auto)]

ghost use Rattle.std.specs.Prelude.{◌≡◌, Bool, not, ◌&&◌};
ghost use Rattle.masks.specs.Masks.{bits};
ghost use Rattle.nextstate.specs.Rules.{is_posedge};
ghost use Rattle.tables.specs.Readers.{at_most};
ghost use Rattle.rules.specs.Reading.{mark_instr, mark_thread, reading_below};
ghost use Rattle.rules.specs.Walking.{running, waits, in_sequence, in_if, in_if_else, in_while, in_forever, walk_at, some_from, starts_running_from, runs_away_from};
ghost use Rattle.rules.specs.Judging.{marked, entry, size_of, writes_at, other_writes, written_again, writes_too, written_twice, two_writers_at};
ghost use Rattle.rules.specs.Judging.{written_by, written_both, both_ways_at, read_elsewhere_at, shared_by, shared_at, plainly_shared_at};
ghost use Rattle.rules.specs.Judging.{other_wait_of, other_wait_in, other_wait_below, clock_read_at, upward_at, reads_above, reads_upward_at};
ghost use Rattle.rules.specs.Judging.{wait_of, waits_in, waits_of, many_waits_at, higher_rule, tables_of, lowest_rule, rule_at};
ghost use Rattle.rules.specs.Writers.{register_of, set_register, later_register, marks, plain_below, later_below};

use pseudocode::{Action, Instruction};
use sheet::{Layout, byte_at};
use values::Edge;

// The registers that a thread writes, as masks: by plain assignment, and by later assignment.
#[derive(Clone, Copy)]
pub struct Written {
    pub plain: u32,
    pub later: u32,
}

// How a statement waits: does it start with a wait, does it surely wait, and do the bodies of all its loops surely wait? With
// the place after it.
#[derive(Clone, Copy)]
pub struct Waiting {
    pub next: usize,
    pub starts: bool,
    pub surely: bool,
    pub loops: bool,
}

// The number of the register that is variable `t`; 32 for an input.
fn register_of(inputs: u8, t: u8) -> usize
    ensures { result ≡ register_of inputs t }
{
    if t < inputs {
        32
    } else {
        (t - inputs) as usize
    }
}

// The register that an instruction writes by plain assignment, 32 where it writes none.
fn set_register(inputs: u8, i: Instruction) -> usize
    ensures { result ≡ set_register inputs i }
{
    let Instruction::Act(a) = i else {
        return 32;
    };
    match a {
        Action::Set { target, at: _ } => register_of(inputs, target),
        Action::Later { target: _, at: _ } => 32,
        Action::Go(_) => 32,
        Action::IfNot { goal: _, at: _ } => 32,
    }
}

// The register that an instruction writes by later assignment, 32 where it writes none.
fn later_register(inputs: u8, i: Instruction) -> usize
    ensures { result ≡ later_register inputs i }
{
    let Instruction::Act(a) = i else {
        return 32;
    };
    match a {
        Action::Later { target, at: _ } => register_of(inputs, target),
        Action::Set { target: _, at: _ } => 32,
        Action::Go(_) => 32,
        Action::IfNot { goal: _, at: _ } => 32,
    }
}

// The registers that a thread's first instructions write.
fn thread_writes(sheet: &[u8], code: &[u16; 4096], inputs: u8, thread: usize, n: usize) -> Written
    ensures plain_value { bits result.plain ≡ marks (set_register inputs) sheet.now code.now thread n }
    ensures later_value { bits result.later ≡ marks (later_register inputs) sheet.now code.now thread n }
{
    let mut plain: u32 = 0;
    let mut later: u32 = 0;
    for p in 0..n {
        let i = pseudocode::fetch(sheet, code, thread, p);
        plain = masks::with(plain, set_register(inputs, i));
        later = masks::with(later, later_register(inputs, i));
    }
    Written { plain, later }
}

// For each thread the registers that it writes, by plain and by later assignment. Bit r is the register that is variable
// `inputs` + r.
pub fn writers(
    sheet: &[u8],
    code: &[u16; 4096],
    sizes: &[usize; 8],
    inputs: u8,
    threads: u8,
    plain: &mut [u32; 8],
    later: &mut [u32; 8],
)
    ensures plain_after { plain.new ≡ plain_below sheet.now code.now sizes.now inputs (at_most 8 threads) plain.old }
    ensures later_after { later.new ≡ later_below sheet.now code.now sizes.now inputs (at_most 8 threads) later.old }
{
    let count = (threads as usize).min(8);
    for i in 0..count {
        let n = sizes[i].min(256);
        let w = thread_writes(sheet, code, inputs, i, n);
        plain[i] = w.plain;
        later[i] = w.later;
    }
}

// Marks a thread at the variables that an instruction reads.
pub fn mark_instr(
    sheet: &[u8],
    definitions: &[usize; 8],
    i: Instruction,
    thread: usize,
    reading: &mut [u32; 80],
)
    ensures { reading.new ≡ mark_instr sheet.now definitions.now thread i reading.old }
{
    let Instruction::Act(a) = i else {
        return;
    };
    match a {
        Action::Set { target: _, at } => {
            tables::mark_expr(sheet, definitions, at, 16, thread, reading);
        }
        Action::Later { target: _, at } => {
            tables::mark_expr(sheet, definitions, at, 16, thread, reading);
        }
        Action::IfNot { goal: _, at } => {
            tables::mark_expr(sheet, definitions, at, 16, thread, reading);
        }
        Action::Go(_) => {}
    }
}

// Marks a thread at the variables that its first instructions read.
fn mark_thread(
    sheet: &[u8],
    definitions: &[usize; 8],
    code: &[u16; 4096],
    thread: usize,
    n: usize,
    reading: &mut [u32; 80],
)
    ensures { reading.new ≡ mark_thread sheet.now definitions.now code.now thread n reading.old }
{
    for p in 0..n {
        mark_instr(
            sheet,
            definitions,
            pseudocode::fetch(sheet, code, thread, p),
            thread,
            reading,
        );
    }
}

// For each variable the threads that read it: bit i is thread i.
pub fn thread_readers(
    sheet: &[u8],
    definitions: &[usize; 8],
    code: &[u16; 4096],
    sizes: &[usize; 8],
    threads: u8,
    reading: &mut [u32; 80],
)
    ensures { reading.new ≡ reading_below sheet.now definitions.now code.now sizes.now (at_most 8 threads) reading.old }
{
    let count = (threads as usize).min(8);
    for i in 0..count {
        let n = sizes[i].min(256);
        mark_thread(sheet, definitions, code, i, n, reading);
    }
}

// Is register `r` marked at thread `i`?
pub fn marked(table: &[u32; 8], i: usize, r: usize) -> bool
    ensures { result ≡ marked table.now i r }
{
    i < 8 && masks::has(table[i], r)
}

// The marks of a variable.
pub fn entry(table: &[u32; 80], v: usize) -> u32
    ensures { result ≡ entry table.now v }
{
    if v < 80 { table[v] } else { 0 }
}

// How many instructions of a thread are looked at.
pub fn size_of(sizes: &[usize; 8], i: usize) -> usize
    ensures { result ≡ size_of sizes.now i }
{
    if i < 8 { sizes[i].min(256) } else { 0 }
}

// Do both hold?
pub fn both(a: bool, b: bool) -> bool
    ensures { result ≡ (a && b) }
{
    a && b
}

// Does thread `i` write register `r`?
pub fn writes(plain: &[u32; 8], later: &[u32; 8], i: usize, r: usize) -> bool
    ensures { result ≡ writes_at plain.now later.now i r }
{
    marked(plain, i, r) || marked(later, i, r)
}

// Is `j` a thread other than `i` that writes register `r`?
pub fn other_writes(plain: &[u32; 8], later: &[u32; 8], i: usize, r: usize, j: usize) -> bool
    ensures { result ≡ other_writes plain.now later.now i r j }
{
    i != j && writes(plain, later, j, r)
}

// Does a thread other than `i` write register `r`?
fn written_again(plain: &[u32; 8], later: &[u32; 8], threads: usize, i: usize, r: usize) -> bool
    ensures { result ≡ written_again plain.now later.now threads i r }
{
    (0..threads).any(|j| other_writes(plain, later, i, r, j))
}

// Do thread `i` and another one write register `r`?
fn writes_too(plain: &[u32; 8], later: &[u32; 8], threads: usize, r: usize, i: usize) -> bool
    ensures { result ≡ writes_too plain.now later.now threads r i }
{
    writes(plain, later, i, r) && written_again(plain, later, threads, i, r)
}

// Do two threads write register `r`?
pub fn written_twice(plain: &[u32; 8], later: &[u32; 8], threads: usize, r: usize) -> bool
    ensures { result ≡ written_twice plain.now later.now threads r }
{
    (0..threads).any(|i| writes_too(plain, later, threads, r, i))
}

// Number 12: two threads write one register.
pub fn two_writers(plain: &[u32; 8], later: &[u32; 8], threads: usize, registers: usize) -> bool
    ensures { result ≡ two_writers_at plain.now later.now threads registers }
{
    (0..registers).any(|r| written_twice(plain, later, threads, r))
}

// Is register `r` marked at some thread?
fn written_by(table: &[u32; 8], threads: usize, r: usize) -> bool
    ensures { result ≡ written_by table.now threads r }
{
    (0..threads).any(|i| marked(table, i, r))
}

// Is register `r` written by plain and by later assignment?
pub fn written_both(plain: &[u32; 8], later: &[u32; 8], threads: usize, r: usize) -> bool
    ensures { result ≡ written_both plain.now later.now threads r }
{
    written_by(plain, threads, r) && written_by(later, threads, r)
}

// Number 13: a register is written both ways.
pub fn both_ways(plain: &[u32; 8], later: &[u32; 8], threads: usize, registers: usize) -> bool
    ensures { result ≡ both_ways_at plain.now later.now threads registers }
{
    (0..registers).any(|r| written_both(plain, later, threads, r))
}

// Is variable `v` read by a thread other than `i` or by a wire?
fn read_elsewhere(reading: &[u32; 80], readers: &[u32; 80], i: usize, v: usize) -> bool
    ensures { result ≡ read_elsewhere_at reading.now readers.now i v }
{
    let others = masks::without(entry(reading, v), i);
    masks::any(others) || masks::any(entry(readers, v))
}

// Does thread `i` write register `r` plainly, with variable `v` read elsewhere?
pub fn shared_by(
    plain: &[u32; 8],
    reading: &[u32; 80],
    readers: &[u32; 80],
    r: usize,
    v: usize,
    i: usize,
) -> bool
    ensures { result ≡ shared_by plain.now reading.now readers.now r v i }
{
    marked(plain, i, r) && read_elsewhere(reading, readers, i, v)
}

// Does some thread write register `r` plainly, with variable `v` read elsewhere?
pub fn shared(
    plain: &[u32; 8],
    reading: &[u32; 80],
    readers: &[u32; 80],
    threads: usize,
    r: usize,
    v: usize,
) -> bool
    ensures { result ≡ shared_at plain.now reading.now readers.now threads r v }
{
    (0..threads).any(|i| shared_by(plain, reading, readers, r, v, i))
}

// Number 14: a register that is written by plain assignment is read by another thread or a wire.
pub fn plainly_shared(
    plain: &[u32; 8],
    reading: &[u32; 80],
    readers: &[u32; 80],
    threads: usize,
    inputs: u8,
    registers: u8,
) -> bool
    ensures { result ≡ plainly_shared_at plain.now reading.now readers.now threads inputs registers }
{
    let first = inputs as usize;
    (0..registers as usize).any(|r| shared(plain, reading, readers, threads, r, first + r))
}

// Is an edge other than the posedge?
fn other_edge(e: Edge) -> bool
    ensures { result ≡ not (is_posedge e) }
{
    matches!(e, Edge::Change | Edge::Negedge)
}

// Is an instruction a wait other than that for the single posedge of input 0?
pub fn other_wait_of(i: Instruction) -> bool
    ensures { result ≡ other_wait_of i }
{
    let Instruction::Wait(t) = i else {
        return false;
    };
    if t.count != 1 || t.t0.variable != 0 {
        return true;
    }
    other_edge(t.t0.edge)
}

// Is one of a thread's first instructions such a wait?
pub fn other_wait_in(sheet: &[u8], code: &[u16; 4096], thread: usize, n: usize) -> bool
    ensures { result ≡ other_wait_in sheet.now code.now thread n }
{
    (0..n).any(|p| other_wait_of(pseudocode::fetch(sheet, code, thread, p)))
}

// Number 15: there is a wait other than the single posedge of input 0.
pub fn other_wait(sheet: &[u8], code: &[u16; 4096], sizes: &[usize; 8], threads: usize) -> bool
    ensures { result ≡ other_wait_below sheet.now code.now sizes.now threads }
{
    (0..threads).any(|i| other_wait_in(sheet, code, i, size_of(sizes, i)))
}

// A statement that doesn't wait, up to a place.
fn running(next: usize) -> Waiting
    ensures { result ≡ running next }
{
    Waiting {
        next,
        starts: false,
        surely: false,
        loops: true,
    }
}

// A wait, up to a place.
fn waits(next: usize) -> Waiting
    ensures { result ≡ waits next }
{
    Waiting {
        starts: true,
        surely: true,
        ..running(next)
    }
}

// Two statements in sequence.
fn in_sequence(a: Waiting, b: Waiting) -> Waiting
    ensures { result ≡ in_sequence a b }
{
    Waiting {
        next: b.next,
        starts: a.starts,
        surely: a.surely || b.surely,
        loops: a.loops && b.loops,
    }
}

// An if of a statement.
fn in_if(a: Waiting) -> Waiting
    ensures { result ≡ in_if a }
{
    Waiting {
        starts: false,
        surely: false,
        ..a
    }
}

// An if-else of two statements.
fn in_if_else(a: Waiting, b: Waiting) -> Waiting
    ensures { result ≡ in_if_else a b }
{
    Waiting {
        next: b.next,
        starts: false,
        surely: a.surely && b.surely,
        loops: a.loops && b.loops,
    }
}

// A while of a statement.
fn in_while(a: Waiting) -> Waiting
    ensures { result ≡ in_while a }
{
    Waiting {
        starts: false,
        surely: false,
        loops: a.surely && a.loops,
        ..a
    }
}

// A forever of a statement.
fn in_forever(a: Waiting) -> Waiting
    ensures { result ≡ in_forever a }
{
    Waiting {
        surely: true,
        loops: a.surely && a.loops,
        ..a
    }
}

// How the statement at a place waits, with so many levels left.
pub fn walk(sheet: &[u8], definitions: &[usize; 8], at: usize, depth: u8) -> Waiting
    ensures { result ≡ walk_at depth sheet.now definitions.now at }
{
    if depth == 0 || 8192 <= at {
        return running(at);
    }
    match byte_at(sheet, at) {
        0x00 => running(at + 1),
        0x03 => running(pseudocode::skip_expr(sheet, definitions, at + 2, 16)),
        0x23 => running(pseudocode::skip_expr(sheet, definitions, at + 2, 16)),
        0x0C => {
            let a = walk(sheet, definitions, at + 1, depth - 1);
            in_sequence(a, walk(sheet, definitions, a.next, depth - 1))
        }
        0x06 => {
            let e = pseudocode::skip_expr(sheet, definitions, at + 1, 16);
            in_if(walk(sheet, definitions, e, depth - 1))
        }
        0x0E => {
            let e = pseudocode::skip_expr(sheet, definitions, at + 1, 16);
            let a = walk(sheet, definitions, e, depth - 1);
            in_if_else(a, walk(sheet, definitions, a.next, depth - 1))
        }
        0x46 => {
            let e = pseudocode::skip_expr(sheet, definitions, at + 1, 16);
            in_while(walk(sheet, definitions, e, depth - 1))
        }
        0x44 => in_forever(walk(sheet, definitions, at + 1, depth - 1)),
        0x10 => waits(at + 2 + 2 * byte_at(sheet, at + 1) as usize),
        _ => running(at),
    }
}

// Does a test hold of how one of so many statements waits, which stand one after the other from a place on?
fn some_body<F: Fn(Waiting) -> bool>(
    sheet: &[u8],
    definitions: &[usize; 8],
    threads: u8,
    body: usize,
    holds: F,
) -> bool
    requires { F.IsAlwaysCallable holds }
    ensures { (f : Waiting → Bool) → ((w : Waiting) (b : Bool) → F.post holds w b → b ≡ f w)
        → result ≡ some_from f sheet.now definitions.now threads body }
{
    let mut next = body;
    for _ in 0..threads {
        let w = walk(sheet, definitions, next, 64);
        if holds(w) {
            return true;
        }
        next = w.next;
    }
    false
}

// Number 16: a thread doesn't start with a wait. So many threads stand from a place on.
pub fn starts_running(sheet: &[u8], definitions: &[usize; 8], threads: u8, body: usize) -> bool
    ensures { result ≡ starts_running_from sheet.now definitions.now threads body }
{
    some_body(sheet, definitions, threads, body, |w| !w.starts)
}

// Number 17: the body of a loop or of a thread doesn't surely wait. So many threads stand from a place on.
pub fn runs_away(sheet: &[u8], definitions: &[usize; 8], threads: u8, body: usize) -> bool
    ensures { result ≡ runs_away_from sheet.now definitions.now threads body }
{
    some_body(
        sheet,
        definitions,
        threads,
        body,
        |w| !(w.surely && w.loops),
    )
}

// Number 18: the clock is read in an expression.
pub fn clock_read(reading: &[u32; 80], readers: &[u32; 80]) -> bool
    ensures { result ≡ clock_read_at reading.now readers.now }
{
    masks::any(reading[0]) || masks::any(readers[0])
}

// Is variable `v`, wire `j`, read by wire `k`, which is no higher?
pub fn upward(readers: &[u32; 80], k: usize, v: usize, j: usize) -> bool
    ensures { result ≡ upward_at readers.now k v j }
{
    k <= j && masks::has(entry(readers, v), k)
}

// Does wire `k` read itself or a higher wire?
pub fn reads_above(readers: &[u32; 80], inputs: u8, registers: u8, wires: u8, k: usize) -> bool
    ensures { result ≡ reads_above readers.now inputs registers wires k }
{
    let first = inputs as usize + registers as usize;
    (0..wires as usize).any(|j| upward(readers, k, first + j, j))
}

// Number 19: a wire reads itself or a higher wire.
pub fn reads_upward(readers: &[u32; 80], inputs: u8, registers: u8, wires: u8) -> bool
    ensures { result ≡ reads_upward_at readers.now inputs registers wires }
{
    (0..wires as usize).any(|k| reads_above(readers, inputs, registers, wires, k))
}

// One for a wait.
fn wait_of(i: Instruction) -> usize
    ensures { result ≡ wait_of i }
{
    match i {
        Instruction::Wait(_) => 1,
        Instruction::Act(_) => 0,
    }
}

// How many of a thread's first instructions are waits.
pub fn waits_in(sheet: &[u8], code: &[u16; 4096], thread: usize, n: usize) -> usize
    ensures { result ≡ waits_in sheet.now code.now thread n }
{
    let mut count: usize = 0;
    for p in 0..n {
        count += wait_of(pseudocode::fetch(sheet, code, thread, p));
    }
    count
}

// How many waits so many threads have.
pub fn waits_of(sheet: &[u8], code: &[u16; 4096], sizes: &[usize; 8], threads: u8) -> usize
    ensures { result ≡ waits_of sheet.now code.now sizes.now threads }
{
    let last = threads as usize;
    let mut count: usize = 0;
    for i in 0..last {
        count += waits_in(sheet, code, i, size_of(sizes, i));
    }
    count
}

// Number 20: there are over 32 waits.
pub fn many_waits(sheet: &[u8], code: &[u16; 4096], sizes: &[usize; 8], threads: u8) -> bool
    ensures { result ≡ many_waits_at sheet.now code.now sizes.now threads }
{
    32 < waits_of(sheet, code, sizes, threads)
}

// The lowest of the rules 15 to 20 that is broken, 0 where none is.
fn higher_rule(
    sheet: &[u8],
    layout: Layout,
    code: &[u16; 4096],
    sizes: &[usize; 8],
    readers: &[u32; 80],
    reading: &[u32; 80],
) -> u8
    ensures { result ≡ higher_rule sheet.now layout code.now sizes.now readers.now reading.now }
{
    if other_wait(sheet, code, sizes, layout.threads as usize) {
        return 15;
    }
    if starts_running(sheet, &layout.definitions, layout.threads, layout.body) {
        return 16;
    }
    if runs_away(sheet, &layout.definitions, layout.threads, layout.body) {
        return 17;
    }
    if clock_read(reading, readers) {
        return 18;
    }
    if reads_upward(readers, layout.inputs, layout.registers, layout.wires) {
        return 19;
    }
    if many_waits(sheet, code, sizes, layout.threads) {
        return 20;
    }
    0
}

// The lowest rule that is broken, 0 where none is.
fn lowest_rule(
    sheet: &[u8],
    layout: Layout,
    code: &[u16; 4096],
    sizes: &[usize; 8],
    readers: &[u32; 80],
    plain: &[u32; 8],
    later: &[u32; 8],
    reading: &[u32; 80],
) -> u8
    ensures { result ≡ lowest_rule (tables_of sheet.now layout code.now sizes.now readers.now plain.now later.now reading.now) }
{
    let threads = layout.threads as usize;
    let registers = layout.registers as usize;
    if two_writers(plain, later, threads, registers) {
        return 12;
    }
    if both_ways(plain, later, threads, registers) {
        return 13;
    }
    if plainly_shared(
        plain,
        reading,
        readers,
        threads,
        layout.inputs,
        layout.registers,
    ) {
        return 14;
    }
    higher_rule(sheet, layout, code, sizes, readers, reading)
}

// Which of extraction's rules a sheet that was accepted breaks: the lowest number, 0 where it breaks none. The code table, the
// sizes and the readers are those that are filled from it.
pub fn rule(
    sheet: &[u8],
    layout: Layout,
    code: &[u16; 4096],
    sizes: &[usize; 8],
    readers: &[u32; 80],
) -> u8
    ensures { result ≡ rule_at sheet.now layout code.now sizes.now readers.now }
{
    let mut plain = [0u32; 8];
    let mut later = [0u32; 8];
    let mut reading = [0u32; 80];
    writers(
        sheet,
        code,
        sizes,
        layout.inputs,
        layout.threads,
        &mut plain,
        &mut later,
    );
    thread_readers(
        sheet,
        &layout.definitions,
        code,
        sizes,
        layout.threads,
        &mut reading,
    );
    lowest_rule(
        sheet, layout, code, sizes, readers, &plain, &later, &reading,
    )
}
