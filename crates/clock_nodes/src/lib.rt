// The nodes and rows of lent tables (document 01, "Extraction and the cycle run"), copied once into a plan's form: a node's cell comes
// after the variables' cells, and a node that is a variable is that variable's own cell. Each function equals its definition in specs/
// for words of any contents.
#![tactic(auto)]

ghost use Rattle.std.specs.Prelude.{◌≡◌, ◌<◌, get_or};
ghost use Rattle.masks.specs.Masks.{bits};
ghost use Rattle.clock_nodes.specs.Copying.{cell_in, first_of, second_of, third_of, copy_node, copy_all, low_in, lower, lowest, low_node};
ghost use Rattle.clock_nodes.specs.Copying.{low_all};
ghost use Rattle.clock_nodes.specs.Reach.{furthest, reach};
ghost use Rattle.clock_nodes.specs.Rows.{entry_at, put_entries, low_by, low_to, higher, high_by, high_to, fill_row};

use plan::PlanTable;

// For each node the lowest node that its value needs.
pub type Lows = [u16; 4096];

// 32 rows of 36 words: the cells of 32 registers and of the place, then the first cell that is worked out and the one after the last, and
// the mask of the registers that are written.
pub type RowTable = [u32; 1152];

// The word at a place, 0 past the end.
fn word_at(words: &[u16], at: usize) -> u16
    ensures { result ≡ get_or words.now at 0 }
{
    words.get(at).copied().unwrap_or(0)
}

// The width of node `n`, 0 past the last.
fn size_at(sizes: &[u8], n: u16) -> u32
    ensures { result ≡ get_or sizes.now n 0 }
{
    sizes.get(n as usize).copied().unwrap_or(0) as u32
}

// ---- how many nodes the rows reach

// How many nodes there are up to an entry, if it is one of the 4,096, and to `n`.
fn further(n: u16, entry: u16) -> u16
    ensures { result ≡ furthest n entry }
{
    if entry < 4096 { n.max(entry + 1) } else { n }
}

// How many nodes the rows reach.
pub fn reach(rows: &[u16]) -> u16
    ensures { result ≡ reach rows.now }
{
    let mut n: u16 = 1;
    for &entry in rows {
        n = further(n, entry);
    }
    n
}

// ---- nodes

// The cell of node `n`.
fn cell_in(nodes: &[u16], n: u16) -> u32
    ensures { result ≡ cell_in nodes.now n }
{
    let i = 4 * n as usize;
    if word_at(nodes, i) == 0 {
        return word_at(nodes, i + 1) as u32;
    }
    80 + n as u32
}

// The three words of a node of kind `k`.
fn first_of(nodes: &[u16], k: u16, a: u16) -> u32
    ensures { result ≡ first_of nodes.now k a }
{
    if k == 0 { a as u32 } else { cell_in(nodes, a) }
}

fn second_of(nodes: &[u16], k: u16, b: u16, c: u16) -> u32
    ensures { result ≡ second_of nodes.now k b c }
{
    if k == 1 {
        return b as u32 + 65536 * c as u32;
    }
    cell_in(nodes, b)
}

fn third_of(nodes: &[u16], sizes: &[u8], k: u16, a: u16, c: u16) -> u32
    ensures { result ≡ third_of nodes.now sizes.now k a c }
{
    if k == 2 {
        return a as u32;
    }
    if k < 20 {
        return size_at(sizes, a);
    }
    cell_in(nodes, c)
}

// Copies node `n`.
fn copy_node(nodes: &[u16], sizes: &[u8], n: u16, plan: &mut PlanTable)
    ensures { plan.new ≡ copy_node nodes.now sizes.now n plan.old }
{
    let i = 4 * n as usize;
    let k = word_at(nodes, i);
    let a = word_at(nodes, i + 1);
    let b = word_at(nodes, i + 2);
    let c = word_at(nodes, i + 3);
    let x = first_of(nodes, k, a);
    let y = second_of(nodes, k, b, c);
    let z = third_of(nodes, sizes, k, a, c);
    plan_exprs::put_node(plan, 80 + n as u32, k as u32, x, y, z);
}

// Copies the first `count` nodes; nothing where there are not so many.
pub fn copy_nodes(nodes: &[u16], sizes: &[u8], count: u16, plan: &mut PlanTable)
    ensures { plan.new ≡ copy_all nodes.now sizes.now count plan.old }
{
    if 4096 < count {
        return;
    }
    for n in 0u16..count {
        copy_node(nodes, sizes, n, plan);
    }
}

// ---- the lowest node that a node needs

// The lowest node that node `n` needs; past the last node 0.
fn low_in(lows: &Lows, n: u16) -> u16
    ensures { result ≡ low_in lows.now n }
{
    word_at(lows, n as usize)
}

// The lower of node `x` and the lowest that node `n` needs, if that isn't a variable.
fn lower(nodes: &[u16], lows: &Lows, n: u16, x: u16) -> u16
    ensures { result ≡ lower nodes.now lows.now n x }
{
    if word_at(nodes, 4 * n as usize) == 0 {
        return x;
    }
    low_in(lows, n).min(x)
}

// The lowest of node `x` and those that its operands need, by its kind `k`.
fn lowest(nodes: &[u16], lows: &Lows, x: u16, k: u16, a: u16, b: u16, c: u16) -> u16
    ensures { result ≡ lowest nodes.now lows.now x k a b c }
{
    if k < 11 {
        return x;
    }
    let y = lower(nodes, lows, a, x);
    if k < 13 {
        return y;
    }
    let z = lower(nodes, lows, b, y);
    if k < 20 {
        return z;
    }
    lower(nodes, lows, c, z)
}

// Notes the lowest node that node `n` needs.
fn low_node(nodes: &[u16], n: u16, lows: &mut Lows)
    requires { n < 4096 }
    ensures { lows.new ≡ low_node nodes.now n lows.old }
{
    let i = 4 * n as usize;
    let k = word_at(nodes, i);
    let a = word_at(nodes, i + 1);
    let b = word_at(nodes, i + 2);
    let c = word_at(nodes, i + 3);
    lows[n as usize] = lowest(nodes, lows, n, k, a, b, c);
}

// Notes the lowest nodes that the first `count` nodes need; nothing where there are not so many.
pub fn low_nodes(nodes: &[u16], count: u16, lows: &mut Lows)
    ensures { lows.new ≡ low_all nodes.now count lows.old }
{
    if 4096 < count {
        return;
    }
    for n in 0u16..count {
        low_node(nodes, n, lows);
    }
}

// ---- rows

// Entry `c` of a row.
fn entry_at(rows: &[u16], row: usize, c: usize) -> u16
    requires row_bound { row < 32 }
    requires c_bound { c < 33 }
    ensures { result ≡ entry_at rows.now row c }
{
    word_at(rows, 33 * row + c)
}

// Puts the cells of a row's entries.
fn put_entries(nodes: &[u16], rows: &[u16], row: usize, table: &mut RowTable)
    requires { row < 32 }
    ensures { table.new ≡ put_entries nodes.now rows.now row 33 table.old }
{
    for c in 0..33 {
        table[36 * row + c] = cell_in(nodes, entry_at(rows, row, c));
    }
}

// The lower of node `x` and the lowest that an entry needs, if it counts.
fn low_by(nodes: &[u16], lows: &Lows, counts: bool, entry: u16, x: u16) -> u16
    ensures { result ≡ low_by nodes.now lows.now counts entry x }
{
    if counts {
        lower(nodes, lows, entry, x)
    } else {
        x
    }
}

// The lowest node that a row needs: for its place, and for the registers that are written.
fn low_row(nodes: &[u16], lows: &Lows, rows: &[u16], row: usize, written: u32) -> u16
    requires { row < 32 }
    ensures { result ≡ low_to nodes.now lows.now rows.now row (bits written) 32 }
{
    let mut x = lower(nodes, lows, entry_at(rows, row, 32), 4096);
    for r in 0..32 {
        x = low_by(
            nodes,
            lows,
            masks::has(written, r),
            entry_at(rows, row, r),
            x,
        );
    }
    x
}

// The higher of a cell and the one after node `n`'s, if it isn't a variable.
fn higher(nodes: &[u16], n: u16, x: u32) -> u32
    ensures { result ≡ higher nodes.now n x }
{
    if word_at(nodes, 4 * n as usize) == 0 {
        return x;
    }
    x.max(81 + n as u32)
}

// The higher of a cell and the one after an entry's, if it counts.
fn high_by(nodes: &[u16], counts: bool, entry: u16, x: u32) -> u32
    ensures { result ≡ high_by nodes.now counts entry x }
{
    if counts { higher(nodes, entry, x) } else { x }
}

// The cell after the highest entry of a row: of its place, and of the registers that are written.
fn high_row(nodes: &[u16], rows: &[u16], row: usize, written: u32) -> u32
    requires { row < 32 }
    ensures { result ≡ high_to nodes.now rows.now row (bits written) 32 }
{
    let mut x = higher(nodes, entry_at(rows, row, 32), 0);
    for r in 0..32 {
        x = high_by(nodes, masks::has(written, r), entry_at(rows, row, r), x);
    }
    x
}

// Fills the row of a wait whose thread writes these registers; past the last row nothing.
pub fn fill_row(
    nodes: &[u16],
    lows: &Lows,
    rows: &[u16],
    row: usize,
    written: u32,
    table: &mut RowTable,
)
    ensures { table.new
        ≡ fill_row nodes.now lows.now rows.now row written table.old }
{
    if 32 <= row {
        return;
    }
    put_entries(nodes, rows, row, table);
    let lo = low_row(nodes, lows, rows, row, written);
    let hi = high_row(nodes, rows, row, written);
    table[36 * row + 33] = 80 + lo as u32;
    table[36 * row + 34] = hi;
    table[36 * row + 35] = written;
}
