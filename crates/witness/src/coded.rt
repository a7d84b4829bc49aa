// Tests on the threads' code: rules 15, 18, 20 and 21.
ghost use Rattle.std.specs.Prelude.{◌≡◌, ◌<◌, ◌≤◌};
ghost use Rattle.tables.specs.Readers.{at_most};
ghost use Rattle.extraction.specs.Filling.{filling, walks_below_at, thread_at};
ghost use Rattle.witness.specs.Witness.{lowest};
ghost use Rattle.witness.specs.Seeking.{reads_clock, waits_over, nodes_at, by_code, odd_wait_at, surplus_wait_at, overflowing_walk_at, clock_reader_at};

use crate::masked::first_marked;
use crate::{CodeTest, MarkTest, Witness, a_place, a_wire, at_most, bare, wide};
use extraction::{Extent, Thread, filling};
use pseudocode::Instruction;
use sheet::Layout;

// Does an instruction read the clock?
fn reads_clock(sheet: &[u8], definitions: &[usize; 8], i: Instruction) -> bool
    ensures { result ≡ reads_clock sheet.now definitions.now i }
{
    let mut reading = [0u32; 80];
    rules::mark_instr(sheet, definitions, i, 0, &mut reading);
    masks::has(reading[0], 0)
}

// A count of threads; there are eight at most.
fn few(n: usize) -> u8
    ensures { result ≡ at_most 8 n }
{
    if n < 8 { n as u8 } else { 8 }
}

// A byte as a word.
fn word(b: u8) -> u16
    ensures { result ≡ b }
{
    b as u16
}

// A thread as its walks take it.
fn thread_at(layout: Layout, plain: &[u32; 8], later: &[u32; 8], i: usize) -> Thread
    requires { i < 8 }
    ensures { result ≡ thread_at layout.inputs layout.registers plain.now later.now i }
{
    let deferred = later[i];
    let written = filling::both(plain[i], deferred);
    Thread {
        number: i,
        inputs: layout.inputs,
        registers: layout.registers,
        written,
        deferred,
    }
}

// The walks from a thread's waits below a place.
fn walk_places(
    sheet: &[u8],
    code: &[u16; 4096],
    t: Thread,
    size: usize,
    places: usize,
    nodes: &mut [u16; 16384],
    rows: &mut [u16; 1056],
    e: Extent,
) -> Extent
    ensures { filling result nodes.new rows.new
        ≡ walks_below_at sheet.now code.now t size places
        (filling e nodes.old rows.old) }
{
    let mut x = e;
    for place in 0..places {
        x = filling::walk_from(sheet, code, t, size, place, nodes, rows, x);
    }
    x
}

// How many nodes there are after the walks of the first threads, and of the next one's waits below a place; 4,097 where there is no
// room for more.
fn nodes_after(
    sheet: &[u8],
    layout: Layout,
    code: &[u16; 4096],
    sizes: &[usize; 8],
    plain: &[u32; 8],
    later: &[u32; 8],
    threads: usize,
    places: usize,
) -> u16
    ensures { result ≡ nodes_at sheet.now layout code.now sizes.now plain.now later.now threads places }
{
    let i = at_most(7, threads);
    let mut nodes = [0u16; 16384];
    let mut rows = [0u16; 1056];
    let variables = word(layout.inputs) + word(layout.registers) + word(layout.wires);
    filling::put_variables(&mut nodes, variables);
    let e = Extent {
        nodes: variables,
        rows: 0,
    };
    let x = filling::walk_threads(
        sheet,
        code,
        sizes,
        layout.inputs,
        layout.registers,
        plain,
        later,
        i,
        &mut nodes,
        &mut rows,
        e,
    );
    let t = thread_at(layout, plain, later, i);
    let y = walk_places(sheet, code, t, sizes[i], places, &mut nodes, &mut rows, x);
    y.nodes
}

// Have the threads before one, and its first n instructions, over 32 waits?
fn waits_over(sheet: &[u8], code: &[u16; 4096], sizes: &[usize; 8], i: usize, n: usize) -> bool
    requires { n ≤ 256 }
    ensures { result ≡ waits_over sheet.now code.now sizes.now i n }
{
    let before = rules::waits_of(sheet, code, sizes, few(i));
    32 < before + rules::waits_in(sheet, code, i, n)
}

// Does the test hold of k?
fn by_code(
    sheet: &[u8],
    layout: Layout,
    code: &[u16; 4096],
    sizes: &[usize; 8],
    plain: &[u32; 8],
    later: &[u32; 8],
    test: CodeTest,
    k: usize,
) -> bool
    requires { k < 256 }
    ensures { result ≡ by_code sheet.now layout code.now sizes.now plain.now later.now test k }
{
    match test {
        CodeTest::OtherWait => rules::other_wait_in(sheet, code, k, rules::size_of(sizes, k)),
        CodeTest::OtherWaitAt(i) => rules::other_wait_of(pseudocode::fetch(sheet, code, i, k)),
        CodeTest::ClockAt(i) => {
            let x = pseudocode::fetch(sheet, code, i, k);
            reads_clock(sheet, &layout.definitions, x)
        }
        CodeTest::Waits => waits_over(sheet, code, sizes, k, rules::size_of(sizes, k)),
        CodeTest::WaitsAt(i) => waits_over(sheet, code, sizes, i, k + 1),
        CodeTest::Spills => 4096
            < nodes_after(
                sheet,
                layout,
                code,
                sizes,
                plain,
                later,
                k,
                rules::size_of(sizes, k),
            ),
        CodeTest::SpillsAt(i) => 4096
            < nodes_after(sheet, layout, code, sizes, plain, later, i, k + 1),
    }
}

// The lowest number below n of which the test holds, n where there is none.
fn first_coded(
    sheet: &[u8],
    layout: Layout,
    code: &[u16; 4096],
    sizes: &[usize; 8],
    plain: &[u32; 8],
    later: &[u32; 8],
    test: CodeTest,
    n: usize,
) -> usize
    requires { n ≤ 256 }
    ensures { result ≡ lowest n (by_code sheet.now layout code.now sizes.now plain.now later.now test) }
{
    for k in 0..n {
        if by_code(sheet, layout, code, sizes, plain, later, test, k) {
            return k;
        }
    }
    n
}

// Number 15: a wait other than the single posedge of the clock.
pub fn odd_wait(
    sheet: &[u8],
    layout: Layout,
    code: &[u16; 4096],
    sizes: &[usize; 8],
    plain: &[u32; 8],
    later: &[u32; 8],
) -> Witness
    ensures { result ≡ odd_wait_at sheet.now layout code.now sizes.now plain.now later.now }
{
    let threads = wide(layout.threads);
    let odd = CodeTest::OtherWait;
    let i = first_coded(sheet, layout, code, sizes, plain, later, odd, threads);
    let size = rules::size_of(sizes, i);
    let at = CodeTest::OtherWaitAt(i);
    let p = first_coded(sheet, layout, code, sizes, plain, later, at, size);
    a_place(15, i, p)
}

// Number 18: an expression that reads the clock.
pub fn clock_reader(
    sheet: &[u8],
    layout: Layout,
    code: &[u16; 4096],
    sizes: &[usize; 8],
    readers: &[u32; 80],
    plain: &[u32; 8],
    later: &[u32; 8],
    reading: &[u32; 80],
) -> Witness
    ensures { result ≡ clock_reader_at sheet.now layout code.now sizes.now plain.now later.now readers.now reading.now }
{
    let threads = wide(layout.threads);
    let wires = wide(layout.wires);
    let reads = MarkTest::Reads(0);
    let i = first_marked(layout, readers, plain, later, reading, reads, threads);
    if i < threads {
        let size = rules::size_of(sizes, i);
        let at = CodeTest::ClockAt(i);
        let p = first_coded(sheet, layout, code, sizes, plain, later, at, size);
        return a_place(18, i, p);
    }
    let wire = MarkTest::WireReads(0);
    let k = first_marked(layout, readers, plain, later, reading, wire, wires);
    a_wire(18, 0, 0, k, 0)
}

// Number 20: the 33rd wait.
pub fn surplus_wait(
    sheet: &[u8],
    layout: Layout,
    code: &[u16; 4096],
    sizes: &[usize; 8],
    plain: &[u32; 8],
    later: &[u32; 8],
) -> Witness
    ensures { result ≡ surplus_wait_at sheet.now layout code.now sizes.now plain.now later.now }
{
    let threads = wide(layout.threads);
    let waits = CodeTest::Waits;
    let i = first_coded(sheet, layout, code, sizes, plain, later, waits, threads);
    let size = rules::size_of(sizes, i);
    let at = CodeTest::WaitsAt(i);
    let p = first_coded(sheet, layout, code, sizes, plain, later, at, size);
    a_place(20, i, p)
}

// Number 21: the wait in whose walk the 4,097th node is asked for; 0 where there is none.
pub fn overflowing_walk(
    sheet: &[u8],
    layout: Layout,
    code: &[u16; 4096],
    sizes: &[usize; 8],
    plain: &[u32; 8],
    later: &[u32; 8],
) -> Witness
    ensures { result ≡ overflowing_walk_at sheet.now layout code.now sizes.now plain.now later.now }
{
    let threads = wide(layout.threads);
    let spills = CodeTest::Spills;
    let i = first_coded(sheet, layout, code, sizes, plain, later, spills, threads);
    if i < threads {
        let size = rules::size_of(sizes, i);
        let at = CodeTest::SpillsAt(i);
        let p = first_coded(sheet, layout, code, sizes, plain, later, at, size);
        return a_place(21, i, p);
    }
    bare(0)
}
