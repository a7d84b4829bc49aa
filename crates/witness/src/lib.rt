// What breaks the rule that extraction refuses a sheet by (document 01, numbers 12 to 21): the thread, register, wire or wait concerned.
// specs/Breaks says what is promised of it. It is found on the tables that are filled from the sheet, as the lowest number of which a
// test holds; a test is named by an enum.
#![tactic(auto)]

mod coded;
mod looping;
mod masked;

ghost use Rattle.std.specs.Prelude.{◌≡◌};
ghost use Rattle.tables.specs.Readers.{at_most};
ghost use Rattle.witness.specs.Witness.{bare, a_register, a_place, witnessed};
ghost use Rattle.witness.specs.Seeking.{a_wire, last_at, higher_at, witness_at, filled_at};

use coded::{clock_reader, odd_wait, overflowing_walk, surplus_wait};
use looping::first_body;
use masked::{double_written, shared_register, upward_wire, written_both_ways};
use sheet::Layout;

// What breaks a rule. `number` is the rule's, 0 where extraction accepts; 1 to 11 where the sheet isn't read, and then nothing is
// named. What a rule doesn't name is 0. A register and a wire go by their own numbers, not their variables'.
#[derive(Clone, Copy)]
pub struct Witness {
    pub number: u8,
    pub thread: usize,
    // Another thread.
    pub other: usize,
    pub register: usize,
    // Is the reader `wire`, and no thread?
    pub wired: bool,
    pub wire: usize,
    // The wire that `wire` reads.
    pub above: usize,
    // A place of `thread`.
    pub place: usize,
}

// Tests on a number k, by the masks of the registers that threads write and of the threads and wires that read a variable.
#[derive(Clone, Copy)]
pub enum MarkTest {
    // Register k is written by two threads.
    Twice,
    // Thread k writes the register.
    Writes(usize),
    // Thread k is another one, and writes the register.
    OtherWrites { thread: usize, register: usize },
    // Register k is written both ways.
    Both,
    // Thread k writes the register by plain assignment.
    Plain(usize),
    // Thread k writes the register by later assignment.
    Later(usize),
    // Register k is written by plain assignment and read elsewhere.
    Shared,
    // Thread k writes the register by plain assignment, and its variable is read elsewhere.
    SharedBy { register: usize, variable: usize },
    // Thread k is another one, and reads the variable.
    OtherReads { thread: usize, variable: usize },
    // Thread k reads the variable.
    Reads(usize),
    // Wire k reads the variable.
    WireReads(usize),
    // Wire k reads itself or a higher wire.
    Upward,
    // Wire k isn't lower than the wire, which reads it.
    Above(usize),
}

// Tests on a number k, by the threads' code.
#[derive(Clone, Copy)]
pub enum CodeTest {
    // Thread k has a wait other than the single posedge of the clock.
    OtherWait,
    // The thread's instruction k is such a wait.
    OtherWaitAt(usize),
    // The thread's instruction k reads the clock.
    ClockAt(usize),
    // The threads up to k have over 32 waits.
    Waits,
    // The threads before the thread, and its instructions up to k, have over 32 waits.
    WaitsAt(usize),
    // The walks of the threads up to k have over 4,096 nodes.
    Spills,
    // The walks of the threads before the thread, and from its places up to k, have over 4,096 nodes.
    SpillsAt(usize),
}

// Tests on a number k, by the threads' statements.
#[derive(Clone, Copy)]
pub enum BodyTest {
    // Thread k doesn't start with a wait.
    Running,
    // Thread k's body, or that of one of its loops, doesn't surely wait.
    Away,
}

// A byte as a number.
fn wide(b: u8) -> usize
    ensures { result ≡ b }
{
    b as usize
}

// A count, or the limit where it is more.
fn at_most(limit: usize, n: usize) -> usize
    ensures { result ≡ at_most limit n }
{
    if n < limit { n } else { limit }
}

// A number alone.
fn bare(number: u8) -> Witness
    ensures { result ≡ bare number }
{
    Witness {
        number,
        thread: 0,
        other: 0,
        register: 0,
        wired: false,
        wire: 0,
        above: 0,
        place: 0,
    }
}

// A register and two threads.
fn a_register(number: u8, register: usize, thread: usize, other: usize) -> Witness
    ensures { result ≡ a_register number register thread other }
{
    Witness {
        number,
        thread,
        other,
        register,
        wired: false,
        wire: 0,
        above: 0,
        place: 0,
    }
}

// A thread and a place in it.
fn a_place(number: u8, thread: usize, place: usize) -> Witness
    ensures { result ≡ a_place number thread place }
{
    Witness {
        number,
        thread,
        other: 0,
        register: 0,
        wired: false,
        wire: 0,
        above: 0,
        place,
    }
}

// A wire, the register and the thread that it reads from, and the wire that it reads.
fn a_wire(number: u8, register: usize, thread: usize, wire: usize, above: usize) -> Witness
    ensures { result ≡ a_wire number register thread wire above }
{
    Witness {
        number,
        thread,
        other: 0,
        register,
        wired: true,
        wire,
        above,
        place: 0,
    }
}

// The witness of the lowest of the rules 18 to 21 that is broken.
fn last(
    sheet: &[u8],
    layout: Layout,
    code: &[u16; 4096],
    sizes: &[usize; 8],
    readers: &[u32; 80],
    plain: &[u32; 8],
    later: &[u32; 8],
    reading: &[u32; 80],
) -> Witness
    ensures { result ≡ last_at sheet.now layout code.now sizes.now readers.now plain.now later.now reading.now }
{
    if rules::clock_read(reading, readers) {
        return clock_reader(sheet, layout, code, sizes, readers, plain, later, reading);
    }
    if rules::reads_upward(readers, layout.inputs, layout.registers, layout.wires) {
        return upward_wire(layout, readers, plain, later, reading);
    }
    if rules::many_waits(sheet, code, sizes, layout.threads) {
        return surplus_wait(sheet, layout, code, sizes, plain, later);
    }
    overflowing_walk(sheet, layout, code, sizes, plain, later)
}

// The witness of the lowest of the rules 15 to 21 that is broken.
fn higher(
    sheet: &[u8],
    layout: Layout,
    code: &[u16; 4096],
    sizes: &[usize; 8],
    readers: &[u32; 80],
    plain: &[u32; 8],
    later: &[u32; 8],
    reading: &[u32; 80],
) -> Witness
    ensures { result ≡ higher_at sheet.now layout code.now sizes.now readers.now plain.now later.now reading.now }
{
    let threads = wide(layout.threads);
    if rules::other_wait(sheet, code, sizes, threads) {
        return odd_wait(sheet, layout, code, sizes, plain, later);
    }
    if rules::starts_running(sheet, &layout.definitions, layout.threads, layout.body) {
        let i = first_body(
            sheet,
            &layout.definitions,
            layout.body,
            BodyTest::Running,
            threads,
        );
        return a_place(16, i, 0);
    }
    if rules::runs_away(sheet, &layout.definitions, layout.threads, layout.body) {
        let i = first_body(
            sheet,
            &layout.definitions,
            layout.body,
            BodyTest::Away,
            threads,
        );
        return a_place(17, i, 0);
    }
    last(sheet, layout, code, sizes, readers, plain, later, reading)
}

// The witness of the lowest rule that is broken.
fn judged(
    sheet: &[u8],
    layout: Layout,
    code: &[u16; 4096],
    sizes: &[usize; 8],
    readers: &[u32; 80],
    plain: &[u32; 8],
    later: &[u32; 8],
    reading: &[u32; 80],
) -> Witness
    ensures { result ≡ witness_at sheet.now layout code.now sizes.now readers.now plain.now later.now reading.now }
{
    let threads = wide(layout.threads);
    let registers = wide(layout.registers);
    if rules::two_writers(plain, later, threads, registers) {
        return double_written(layout, readers, plain, later, reading);
    }
    if rules::both_ways(plain, later, threads, registers) {
        return written_both_ways(layout, readers, plain, later, reading);
    }
    if rules::plainly_shared(
        plain,
        reading,
        readers,
        threads,
        layout.inputs,
        layout.registers,
    ) {
        return shared_register(layout, readers, plain, later, reading);
    }
    higher(sheet, layout, code, sizes, readers, plain, later, reading)
}

// The same, from the tables that are filled from a sheet; those that are for the rules alone are filled here.
fn filled(
    sheet: &[u8],
    layout: Layout,
    code: &[u16; 4096],
    sizes: &[usize; 8],
    readers: &[u32; 80],
) -> Witness
    ensures { result ≡ filled_at sheet.now layout code.now sizes.now readers.now }
{
    let mut plain = [0u32; 8];
    let mut later = [0u32; 8];
    let mut reading = [0u32; 80];
    rules::writers(
        sheet,
        code,
        sizes,
        layout.inputs,
        layout.threads,
        &mut plain,
        &mut later,
    );
    rules::thread_readers(
        sheet,
        &layout.definitions,
        code,
        sizes,
        layout.threads,
        &mut reading,
    );
    judged(
        sheet, layout, code, sizes, readers, &plain, &later, &reading,
    )
}

// What breaks the rule that extraction refuses a sheet by.
pub fn witness_of(sheet: &[u8]) -> Witness
    ensures { result ≡ witnessed sheet.now }
{
    let read = sheet::read(sheet);
    if read.number != 0 {
        return bare(read.number);
    }
    let layout = read.layout;
    let definitions = layout.definitions;
    let mut code = [0u16; 4096];
    let mut readers = [0u32; 80];
    let sizes = pseudocode::compile(sheet, &definitions, layout.threads, layout.body, &mut code);
    tables::fill_readers(
        sheet,
        &definitions,
        &layout.starts,
        layout.wires,
        &mut readers,
    );
    filled(sheet, layout, &code, &sizes, &readers)
}
