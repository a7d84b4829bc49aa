// A change of values on a plan and one plane of cells: cells are put, the wires that read a changed variable are marked, the waits
// fire (document 01, "The simulation cycle"). Each function equals its definition in specs/ for plans, cells and places of any
// contents.
#![tactic(auto)]

ghost use Rattle.std.specs.Prelude.{◌≡◌, ◌<◌};
ghost use Rattle.masks.specs.Masks.{bits};
ghost use Rattle.events.specs.Cycle.{any_below};
ghost use Rattle.values.specs.Cells.{value_of};
ghost use Rattle.plan.specs.Plan.{plan_of};
ghost use Rattle.plan_changes.specs.Scene.{stand, changing, scene};
ghost use Rattle.plan_changes.specs.Changes.{term_wakes, wakes, wake_thread, wake, put, after, placed, move_thread, move, store};

use plan::{Cells, PlanTable};

// The midst of a change: the wires that are due, and the threads whose waits it has fired.
#[derive(Clone, Copy)]
pub struct Made {
    pub due: u32,
    pub woken: u32,
}

// The wires that are due, the threads that stand off a wait, and the registers that hold a value to be committed.
#[derive(Clone, Copy)]
pub struct Marks {
    pub due: u32,
    pub ready: u32,
    pub held: u32,
}

// The next place of a thread; there is none after 255.
pub fn after(p: u8) -> u8
    ensures { result ≡ after p }
{
    if p < 255 { p + 1 } else { p }
}

// Does term `k` of the wait at a place of a thread fire, variable `v` going from `old` to `new`?
fn term_wakes(plan: &PlanTable, i: usize, p: u8, k: u8, v: usize, old: u64, new: u64) -> bool
    ensures { result ≡ term_wakes ((plan_of plan.now).terms i p) v (value_of old) (value_of new) k }
{
    let t = plan::term(plan, i, p, k);
    t.variable as usize == v && values::fires_cells(t.edge, old, new)
}

// Does one of its first `count` terms fire?
fn terms_wake(plan: &PlanTable, i: usize, p: u8, count: u8, v: usize, old: u64, new: u64) -> bool
    ensures { result
        ≡ any_below count (term_wakes ((plan_of plan.now).terms i p) v (value_of old) (value_of new)) }
{
    for k in 0u8..count {
        if term_wakes(plan, i, p, k, v, old, new) {
            return true;
        }
    }
    false
}

// Does the wait at a place of a thread fire? There may be no wait.
fn wakes(plan: &PlanTable, i: usize, p: u8, v: usize, old: u64, new: u64) -> bool
    ensures { result ≡ wakes ((plan_of plan.now).instruction i p) v (value_of old) (value_of new) }
{
    plan::waits(plan, i, p)
        && terms_wake(plan, i, p, plan::term_count(plan, i, p).min(8), v, old, new)
}

// Thread `i` is woken where it watches the variable and its wait fires.
fn wake_thread(
    plan: &PlanTable,
    places: &[u8; 8],
    woken: u32,
    v: usize,
    old: u64,
    new: u64,
    i: usize,
) -> u32
    requires { i < 8 }
    ensures { bits result
        ≡ wake_thread (plan_of plan.now) places.now v (value_of old) (value_of new) i (bits woken) }
{
    let watchers = plan::watchers(plan, v);
    if masks::has(watchers, i) && wakes(plan, i, places[i], v, old, new) {
        masks::with(woken, i)
    } else {
        woken
    }
}

// The threads that the change of a variable wakes, and those woken already.
fn wake(plan: &PlanTable, places: &[u8; 8], woken: u32, v: usize, old: u64, new: u64) -> u32
    ensures { bits result
        ≡ wake (plan_of plan.now) places.now v (value_of old) (value_of new) (bits woken) }
{
    let watchers = plan::watchers(plan, v);
    if !masks::any(watchers) {
        return woken;
    }
    let n = plan::threads(plan).min(8);
    let mut marks = woken;
    for i in 0..n {
        marks = wake_thread(plan, places, marks, v, old, new, i);
    }
    marks
}

// Stores the value of a cell into a variable. Where that changes it, its readers are due, and the threads whose waits that fires are
// woken.
pub fn put(
    plan: &PlanTable,
    cells: &mut Cells,
    places: &[u8; 8],
    made: Made,
    v: usize,
    c: u64,
) -> Made
    ensures { changing cells.new (bits result.due) (bits result.woken)
        ≡ put (plan_of plan.now) places.now v c
        (changing cells.old (bits made.due) (bits made.woken)) }
{
    if 80 <= v {
        return made;
    }
    let old = cells[v];
    cells[v] = values::store(values::load(c));
    if values::same_cells(old, c) {
        return made;
    }
    let due = masks::union(made.due, plan::readers(plan, v));
    if !masks::any(plan::watchers(plan, v)) {
        return Made { due, ..made };
    }
    let woken = wake(plan, places, made.woken, v, old, c);
    Made { due, woken }
}

// Puts a thread at a place, and says of it whether it is ready there.
pub fn go_to(plan: &PlanTable, places: &mut [u8; 8], ready: u32, i: usize, p: u8) -> u32
    ensures { stand places.new (bits result)
        ≡ placed (plan_of plan.now) i p (stand places.old (bits ready)) }
{
    if 8 <= i {
        return ready;
    }
    places[i] = p;
    if plan::waits(plan, i, p) {
        masks::without(ready, i)
    } else {
        masks::with(ready, i)
    }
}

// A woken thread goes on to the next place.
fn move_thread(plan: &PlanTable, places: &mut [u8; 8], ready: u32, woken: u32, i: usize) -> u32
    requires { i < 8 }
    ensures { stand places.new (bits result)
        ≡ move_thread (plan_of plan.now) (bits woken) i (stand places.old (bits ready)) }
{
    if masks::has(woken, i) {
        let p = after(places[i]);
        go_to(plan, places, ready, i, p)
    } else {
        ready
    }
}

// The end of a change: the woken threads go on to the next place.
pub fn move_on(plan: &PlanTable, places: &mut [u8; 8], ready: u32, woken: u32) -> u32
    ensures { stand places.new (bits result)
        ≡ move (plan_of plan.now) (bits woken) (stand places.old (bits ready)) }
{
    if !masks::any(woken) {
        return ready;
    }
    let n = plan::threads(plan).min(8);
    let mut marks = ready;
    for i in 0..n {
        marks = move_thread(plan, places, marks, woken, i);
    }
    marks
}

// Stores a cell as one change.
pub fn store(
    plan: &PlanTable,
    cells: &mut Cells,
    places: &mut [u8; 8],
    marks: Marks,
    v: usize,
    c: u64,
) -> Marks
    ensures ready_after { scene cells.new places.new (bits result.due) (bits result.ready)
        ≡ store (plan_of plan.now) v c
        (scene cells.old places.old (bits marks.due) (bits marks.ready)) }
    ensures held_value { result.held ≡ marks.held }
{
    if 80 <= v {
        return marks;
    }
    let old = cells[v];
    cells[v] = values::store(values::load(c));
    if values::same_cells(old, c) {
        return marks;
    }
    let due = masks::union(marks.due, plan::readers(plan, v));
    if !masks::any(plan::watchers(plan, v)) {
        return Marks { due, ..marks };
    }
    let woken = wake(plan, places, 0, v, old, c);
    let ready = move_on(plan, places, marks.ready, woken);
    Marks {
        due,
        ready,
        ..marks
    }
}
