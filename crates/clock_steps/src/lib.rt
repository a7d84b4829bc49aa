// A clock cycle on one plane of cells: the wires settled by a plan's nodes, then each thread's written registers and place taken from the
// nodes of its wait's row. Each function equals its definition in specs/ for tables, cells and places of any contents.
#![tactic(auto)]

ghost use Rattle.std.specs.Prelude.{◌≡◌, ◌+◌, ◌-◌, ◌%◌, ◌<◌, ◌≤◌};
ghost use Rattle.values.specs.Planes.{number_of};
ghost use Rattle.values.specs.Cells.{value_of};
ghost use Rattle.plan.specs.Sections.{slot_of};
ghost use Rattle.plan.specs.Plan.{plan_of};
ghost use Rattle.clock_steps.specs.Numbers.{waits_in, number_thread, number_rows, fill_from, fill_rows};
ghost use Rattle.clock_steps.specs.Settling.{put_cell, settle_wire, settle};
ghost use Rattle.clock_steps.specs.Taking.{row_in, work_row, take_register, take_registers, taking, take_thread, take_below, load_to};
ghost use Rattle.clock_steps.specs.Taking.{store_to, at_most, stand, rise};

use clock_nodes::{Lows, RowTable};
use plan::{Cells, PlanTable};

// For each thread and place the row of its wait: 256 places to a thread.
pub type RowNumbers = [u8; 2048];

// ---- wires

// A place as the number of a cell.
fn slot(n: usize) -> usize
    ensures value { result ≡ slot_of n }
    ensures upper_bound { result < 4176 }
{
    if n < 4176 { n } else { 0 }
}

// Puts a cell's contents into a variable's cell; past the last variable nothing.
pub fn put_cell(cells: &mut Cells, v: usize, c: u64)
    ensures { cells.new ≡ put_cell v c cells.old }
{
    if v < 80 {
        cells[v] = c;
    }
}

// Works out a wire's expression, whose value goes into the wire's cell.
fn settle_wire(plan: &PlanTable, k: usize, cells: &mut Cells)
    requires { k < 256 }
    ensures { cells.new ≡ settle_wire (plan_of plan.now) k cells.old }
{
    let e = plan::wire(plan, k);
    let root = slot(e.root);
    plan_nodes::work(plan, e.first, root + 1, cells);
    let c = cells[root];
    let first = plan::inputs(plan);
    let more = plan::registers(plan);
    put_cell(cells, first + more + k, c);
}

// Settles the wires, from 0 up.
pub fn settle(plan: &PlanTable, cells: &mut Cells)
    ensures { cells.new ≡ settle (plan_of plan.now) cells.old }
{
    let wires = plan::wires(plan);
    for k in 0..wires {
        settle_wire(plan, k, cells);
    }
}

// ---- a thread's row

// The row of thread `i`'s wait at a place.
fn row_in(numbers: &RowNumbers, i: usize, p: u8) -> usize
    requires { i < 8 }
    ensures value { result ≡ row_in numbers.now i p }
    ensures upper_bound { result < 32 }
{
    numbers[256 * i + p as usize] as usize % 32
}

// Works out the nodes of a row.
fn work_row(lent: &PlanTable, table: &RowTable, row: usize, cells: &mut Cells)
    requires { row < 32 }
    ensures { cells.new ≡ work_row (plan_of lent.now).node table.now row cells.old }
{
    let lo = table[36 * row + 33] as usize;
    let hi = table[36 * row + 34] as usize;
    plan_nodes::work(lent, lo, hi, cells);
}

// Register `r`, if the row's thread writes it, takes the value of its entry.
fn take_register(table: &RowTable, row: usize, r: usize, cells: &Cells, news: &mut [u64; 32])
    requires row_bound { row < 32 }
    requires r_bound { r < 32 }
    ensures { news.new ≡ take_register table.now row cells.now r news.old }
{
    if masks::has(table[36 * row + 35], r) {
        news[r] = values::store(values::load(cells[plan::slot(table[36 * row + r])]));
    }
}

// The first `count` registers.
fn take_registers(table: &RowTable, row: usize, count: usize, cells: &Cells, news: &mut [u64; 32])
    requires row_bound { row < 32 }
    requires count_bound { count ≤ 32 }
    ensures { news.new ≡ take_registers table.now row cells.now count news.old }
{
    for r in 0..count {
        take_register(table, row, r, cells, news);
    }
}

// A cell as a place.
fn place_of(c: u64) -> u8
    ensures { result ≡ number_of (value_of c) % 256 }
{
    (values::number_of(values::load(c)) % 256) as u8
}

// Works out the row of thread `i`'s wait, and takes its registers and its place.
fn take_thread(
    lent: &PlanTable,
    table: &RowTable,
    numbers: &RowNumbers,
    count: usize,
    cells: &mut Cells,
    news: &mut [u64; 32],
    places: &mut [u8; 8],
    i: usize,
)
    requires count_bound { count ≤ 32 }
    requires i_bound { i < 8 }
    ensures { taking cells.new news.new places.new
        ≡ take_thread (plan_of lent.now).node table.now numbers.now count i
        (taking cells.old news.old places.old) }
{
    let row = row_in(numbers, i, places[i]);
    work_row(lent, table, row, cells);
    take_registers(table, row, count, cells, news);
    places[i] = place_of(cells[plan::slot(table[36 * row + 32])]);
}

// All threads, on the values before any is stored.
fn take(
    lent: &PlanTable,
    table: &RowTable,
    numbers: &RowNumbers,
    count: usize,
    threads: usize,
    cells: &mut Cells,
    news: &mut [u64; 32],
    places: &mut [u8; 8],
)
    requires count_bound { count ≤ 32 }
    requires threads_bound { threads ≤ 8 }
    ensures { taking cells.new news.new places.new
        ≡ take_below (plan_of lent.now).node table.now numbers.now count threads
        (taking cells.old news.old places.old) }
{
    for i in 0..threads {
        take_thread(lent, table, numbers, count, cells, news, places, i);
    }
}

// ---- a cycle

// At most so many.
pub fn at_most(most: usize, n: usize) -> usize
    ensures value { result ≡ at_most most n }
    ensures upper_bound { result ≤ most }
{
    n.min(most)
}

// Copies the cells of the first `count` registers.
fn load(first: usize, count: usize, cells: &Cells, news: &mut [u64; 32])
    requires first_bound { first < 256 }
    requires count_bound { count ≤ 32 }
    ensures { news.new ≡ load_to cells.now first count news.old }
{
    for r in 0..count {
        news[r] = cells[slot(first + r)];
    }
}

// Puts them back.
fn store(first: usize, count: usize, news: &[u64; 32], cells: &mut Cells)
    requires first_bound { first < 256 }
    requires count_bound { count ≤ 32 }
    ensures { cells.new ≡ store_to news.now first count cells.old }
{
    for r in 0..count {
        put_cell(cells, first + r, news[r]);
    }
}

// The rise of the clock on settled wires.
pub fn rise(
    plan: &PlanTable,
    lent: &PlanTable,
    table: &RowTable,
    numbers: &RowNumbers,
    cells: &mut Cells,
    places: &mut [u8; 8],
)
    ensures { stand cells.new places.new
        ≡ rise (plan_of plan.now) (plan_of lent.now).node table.now numbers.now
        (stand cells.old places.old) }
{
    let first = plan::inputs(plan);
    let count = at_most(32, plan::registers(plan));
    let threads = at_most(8, plan::threads(plan));
    let mut news = [0u64; 32];
    load(first, count, cells, &mut news);
    take(
        lent, table, numbers, count, threads, cells, &mut news, places,
    );
    store(first, count, &news, cells);
}

// ---- the rows' numbers

// Numbers the places of thread `i`, whose first wait has the row `first`. Gives the row after its last.
fn number_thread(plan: &PlanTable, i: usize, first: u16, numbers: &mut RowNumbers) -> u16
    requires i_bound { i < 8 }
    requires first_bound { first ≤ 2048 }
    ensures numbers_after { numbers.new ≡ number_thread (plan_of plan.now) i first numbers.old }
    ensures value { result ≡ first + waits_in (plan_of plan.now) i }
    ensures upper_bound { result ≤ first + 256 }
{
    let n = at_most(256, plan::size(plan, i));
    let mut k = first;
    for p in 0..n {
        numbers[256 * i + p] = (k % 256) as u8;
        k += u16::from(plan::waits(plan, i, p as u8));
    }
    k
}

// Fills the rows from `first` to `end`, of a thread that writes these registers.
fn fill_thread(
    nodes: &[u16],
    lows: &Lows,
    rows: &[u16],
    first: u16,
    end: u16,
    written: u32,
    table: &mut RowTable,
)
    requires { first ≤ end }
    ensures { table.new
        ≡ fill_from nodes.now lows.now rows.now written first (end - first) table.old }
{
    for k in first..end {
        clock_nodes::fill_row(nodes, lows, rows, k as usize, written, table);
    }
}

// Numbers the places of all threads and fills the rows of their waits, once a call. `written` has the registers that each thread writes.
pub fn fill_rows(
    plan: &PlanTable,
    nodes: &[u16],
    lows: &Lows,
    rows: &[u16],
    written: &[u32; 8],
    numbers: &mut RowNumbers,
    table: &mut RowTable,
)
    ensures numbers_after { numbers.new ≡ number_rows (plan_of plan.now) numbers.old }
    ensures table_after { table.new
        ≡ fill_rows nodes.now lows.now rows.now (plan_of plan.now) written.now
        table.old }
{
    let threads = at_most(8, plan::threads(plan));
    let mut k: u16 = 0;
    for i in 0..threads {
        let next = number_thread(plan, i, k, numbers);
        fill_thread(nodes, lows, rows, k, next, written[i], table);
        k = next;
    }
}
