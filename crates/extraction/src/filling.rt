// The node table and the rows of a whole sheet. Each function equals its definition in specs/Filling, for any bytes and words.
ghost use Rattle.std.specs.Prelude.{◌≡◌, ◌<◌};
ghost use Rattle.masks.specs.Masks.{bits, mask, either};
ghost use Rattle.tables.specs.Readers.{at_most};
ghost use Rattle.extraction.specs.Filling.{variables_below, put_row, filling, waits, walk_from_at, walk_row, walks_below_at, threads_below_at};

use super::express::emit_node;
use super::walk::{after, own_row, walk};
use super::{Extent, Thread, Walked};
use pseudocode::Instruction;

// One node for each variable.
pub fn put_variables(nodes: &mut [u16; 16384], variables: u16)
    ensures { nodes.new ≡ variables_below variables nodes.old }
{
    for v in 0u16..variables {
        emit_node(nodes, v, 0, v, 0, 0);
    }
}

// Row `r`: the register nodes, then the place.
fn put_row(rows: &mut [u16; 1056], r: usize, w: Walked)
    requires { r < 32 }
    ensures { rows.new ≡ put_row r w rows.old }
{
    let start = 33 * r;
    for k in 0..32 {
        rows[start + k] = w.registers[k];
    }
    rows[start + 32] = w.place;
}

fn is_wait(i: Instruction) -> bool
    ensures { result ≡ waits i }
{
    let Instruction::Wait(t) = i else {
        return false;
    };
    true
}

// The walk from the wait at a place, and its row.
fn walk_row(
    sheet: &[u8],
    code: &[u16; 4096],
    t: Thread,
    size: usize,
    place: usize,
    nodes: &mut [u16; 16384],
    rows: &mut [u16; 1056],
    e: Extent,
) -> Extent
    requires { e.rows < 32 }
    ensures { filling result nodes.new rows.new
        ≡ walk_row sheet.now code.now t size place (filling e nodes.old rows.old) }
{
    let own = own_row(t.inputs, t.registers);
    let held = [own, own];
    let w = walk(sheet, code, t, size, after(place), held, nodes, e.nodes);
    let r = e.rows;
    put_row(rows, r, w);
    Extent {
        nodes: w.count,
        rows: r + 1,
    }
}

// The walk from a place, if it is a wait.
pub fn walk_from(
    sheet: &[u8],
    code: &[u16; 4096],
    t: Thread,
    size: usize,
    place: usize,
    nodes: &mut [u16; 16384],
    rows: &mut [u16; 1056],
    e: Extent,
) -> Extent
    ensures { filling result nodes.new rows.new
        ≡ walk_from_at sheet.now code.now t size place
        (filling e nodes.old rows.old) }
{
    let i = pseudocode::fetch(sheet, code, t.number, place);
    if !is_wait(i) {
        return e;
    }
    if 32 <= e.rows {
        return e;
    }
    walk_row(sheet, code, t, size, place, nodes, rows, e)
}

// The walks from a thread's waits.
fn walk_thread(
    sheet: &[u8],
    code: &[u16; 4096],
    t: Thread,
    size: usize,
    nodes: &mut [u16; 16384],
    rows: &mut [u16; 1056],
    e: Extent,
) -> Extent
    ensures { filling result nodes.new rows.new
        ≡ walks_below_at sheet.now code.now t size size
        (filling e nodes.old rows.old) }
{
    let mut x = e;
    for place in 0..size {
        x = walk_from(sheet, code, t, size, place, nodes, rows, x);
    }
    x
}

// The marks of either set.
pub fn both(a: u32, b: u32) -> u32
    ensures { result ≡ mask (either (bits a) (bits b)) }
{
    masks::union(a, b)
}

// The walks of the first threads, with the masks of the registers that each assigns plainly, and later.
pub(crate) fn walk_first(
    sheet: &[u8],
    code: &[u16; 4096],
    sizes: &[usize; 8],
    inputs: u8,
    registers: u8,
    plain: &[u32; 8],
    later: &[u32; 8],
    threads: usize,
    nodes: &mut [u16; 16384],
    rows: &mut [u16; 1056],
    e: Extent,
) -> Extent
    requires { threads < 9 }
    ensures { filling result nodes.new rows.new
        ≡ threads_below_at sheet.now code.now sizes.now inputs registers plain.now
        later.now threads (filling e nodes.old rows.old) }
{
    let mut x = e;
    for i in 0..threads {
        let deferred = later[i];
        let written = both(plain[i], deferred);
        let t = Thread {
            number: i,
            inputs,
            registers,
            written,
            deferred,
        };
        x = walk_thread(sheet, code, t, sizes[i], nodes, rows, x);
    }
    x
}

// A count, eight at most.
fn few(n: usize) -> usize
    ensures { result ≡ at_most 8 n }
{
    if n < 8 { n } else { 8 }
}

// The same of any number of threads, of which eight are walked at most.
pub fn walk_threads(
    sheet: &[u8],
    code: &[u16; 4096],
    sizes: &[usize; 8],
    inputs: u8,
    registers: u8,
    plain: &[u32; 8],
    later: &[u32; 8],
    threads: usize,
    nodes: &mut [u16; 16384],
    rows: &mut [u16; 1056],
    e: Extent,
) -> Extent
    ensures { filling result nodes.new rows.new
        ≡ threads_below_at sheet.now code.now sizes.now inputs registers plain.now
        later.now (at_most 8 threads) (filling e nodes.old rows.old) }
{
    walk_first(
        sheet,
        code,
        sizes,
        inputs,
        registers,
        plain,
        later,
        few(threads),
        nodes,
        rows,
        e,
    )
}
