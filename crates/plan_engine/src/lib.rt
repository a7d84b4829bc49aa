// One choice of the simulation cycle, and runs of them, on a plan that was filled once (document 01, "The simulation cycle"). Each
// function equals its definition in specs/ for plans and states of any contents. Of a user's count and allowance only the room that
// is left is asked.
#![tactic(auto)]

ghost use Rattle.std.specs.Prelude.{◌≡◌, List, ℕ, ◌<◌, ◌-◌, IfSome};
ghost use Rattle.values.specs.Planes.{value_at};
ghost use Rattle.masks.specs.Masks.{bits};
ghost use Rattle.plan.specs.Plan.{plan_of};
ghost use Rattle.plan_changes.specs.Scene.{changing, scene};
ghost use Rattle.plan_changes.specs.Changes.{opened};
ghost use Rattle.plan_engine.specs.Live.{live, root_of, evaluate, worth};
ghost use Rattle.plan_engine.specs.Acting.{pending_with, held_with, leg, act, settle, put_register, put_pending, commit, put_inputs, feed};
ghost use Rattle.plan_engine.specs.Running.{run, busy, plain_choice, given, turns_on, turn_choice, turns, run_list, run_plain};
ghost use Rattle.plan_engine.specs.Taking.{taken, take_thread, take_wire, take_commit, take_choice};

use plan::{Action, Cells, Expression, Instruction, PlanTable};
use plan_changes::{Made, Marks};

// No item has this number or a higher one.
const ITEMS: usize = 65536;

// What a choice leaves: 0, or the number that refuses it, and the marks.
// stays a number: C hands it over (walbryts_plan_choose), and a refusal leaves marks too
#[derive(Clone, Copy)]
pub struct Taken {
    pub number: u8,
    pub marks: Marks,
}

// What a run over a list leaves: how many choices were accepted, the number that stopped it, and the marks.
#[derive(Clone, Copy)]
pub struct ListRun {
    pub accepted: usize,
    pub number: u8,
    pub marks: Marks,
}

// What a plain run leaves.
#[derive(Clone, Copy)]
pub struct PlainRun {
    pub accepted: u16,
    pub number: u8,
    pub marks: Marks,
}

// The cell of an expression's value.
fn root_of(e: Expression) -> usize
    ensures value { result ≡ root_of e }
    ensures upper_bound { result < 4176 }
{
    if e.root < 4176 { e.root } else { 0 }
}

// Works out an expression, and gives the cell of its value.
fn evaluate(plan: &PlanTable, cells: &mut Cells, e: Expression) -> u64
    ensures cells_after { cells.new ≡ evaluate (plan_of plan.now) e cells.old }
    ensures value { result ≡ worth (plan_of plan.now) e cells.old }
{
    let root = root_of(e);
    plan_nodes::work(plan, e.first, root + 1, cells);
    cells[root]
}

// The place at which an `ifnot` at place `p` leaves its thread.
fn leg(c: u64, p: u8, goal: u8) -> u8
    ensures { result ≡ leg c p goal }
{
    if values::holds_cell(c) {
        plan_changes::after(p)
    } else {
        goal
    }
}

// The register of a variable, whose number comes after the inputs'.
fn register_of(plan: &PlanTable, v: u8) -> usize
    ensures { result ≡ v - (plan_of plan.now).inputs }
{
    (v as usize).saturating_sub(plan::inputs(plan))
}

// A later assignment: the cell is held for the commit. Gives the registers that hold one.
fn defer(plan: &PlanTable, pending: &mut [u64; 32], held: u32, v: u8, c: u64) -> u32
    ensures pending_after { pending.new ≡ pending_with (plan_of plan.now) v c pending.old }
    ensures result_value { bits result ≡ held_with (plan_of plan.now) v (bits held) }
{
    let r = register_of(plan, v);
    if 32 <= r {
        return held;
    }
    pending[r] = values::store(values::load(c));
    masks::with(held, r)
}

// Thread `i`, which stands at place `p`, runs an action.
fn act(
    plan: &PlanTable,
    cells: &mut Cells,
    pending: &mut [u64; 32],
    places: &mut [u8; 8],
    marks: Marks,
    i: usize,
    p: u8,
    action: Action,
) -> Marks
    ensures { live cells.new pending.new places.new result
        ≡ act (plan_of plan.now) i p action
        (live cells.old pending.old places.old marks) }
{
    match action {
        Action::Set { target, source } => {
            let c = evaluate(plan, cells, source);
            let m = plan_changes::store(plan, cells, places, marks, target as usize, c);
            let ready = plan_changes::go_to(plan, places, m.ready, i, plan_changes::after(p));
            Marks { ready, ..m }
        }
        Action::Later { target, source } => {
            let c = evaluate(plan, cells, source);
            let held = defer(plan, pending, marks.held, target, c);
            let ready = plan_changes::go_to(plan, places, marks.ready, i, plan_changes::after(p));
            Marks {
                ready,
                held,
                ..marks
            }
        }
        Action::Go(goal) => {
            let ready = plan_changes::go_to(plan, places, marks.ready, i, goal);
            Marks { ready, ..marks }
        }
        Action::IfNot { goal, condition } => {
            let c = evaluate(plan, cells, condition);
            let ready = plan_changes::go_to(plan, places, marks.ready, i, leg(c, p, goal));
            Marks { ready, ..marks }
        }
    }
}

// Wire `k`: its mark is cleared, and its expression is stored.
fn settle(
    plan: &PlanTable,
    cells: &mut Cells,
    places: &mut [u8; 8],
    marks: Marks,
    k: usize,
) -> Marks
    requires { k < 32 }
    ensures ready_after { scene cells.new places.new (bits result.due) (bits result.ready)
        ≡ settle (plan_of plan.now) k
        (scene cells.old places.old (bits marks.due) (bits marks.ready)) }
    ensures held_value { result.held ≡ marks.held }
{
    let e = plan::wire(plan, k);
    let c = evaluate(plan, cells, e);
    let cleared = Marks {
        due: masks::without(marks.due, k),
        ..marks
    };
    let v = plan::inputs(plan) + plan::registers(plan) + k;
    plan_changes::store(plan, cells, places, cleared, v, c)
}

// Puts the cell that register `n` holds for the commit, if it holds one.
fn put_register<'a>(
    plan: &PlanTable,
    cells: &mut Cells,
    pending: &'a [u64; 32],
    places: &'a [u8; 8],
    held: u32,
    made: Made,
    n: usize,
) -> Made
    ensures { changing cells.new (bits result.due) (bits result.woken)
        ≡ put_register (plan_of plan.now) places.now (bits held) pending.now n
        (changing cells.old (bits made.due) (bits made.woken)) }
{
    if 32 <= n {
        return made;
    }
    if masks::has(held, n) {
        let v = plan::inputs(plan) + n;
        plan_changes::put(plan, cells, places, made, v, pending[n])
    } else {
        made
    }
}

// Puts the cells that the registers hold for the commit.
fn put_pending<'a>(
    plan: &PlanTable,
    cells: &mut Cells,
    pending: &'a [u64; 32],
    places: &'a [u8; 8],
    held: u32,
    due: u32,
) -> Made
    ensures { changing cells.new (bits result.due) (bits result.woken)
        ≡ put_pending (plan_of plan.now) places.now (bits held) pending.now
        (plan_of plan.now).registers (opened cells.old (bits due)) }
{
    let registers = plan::registers(plan);
    let mut made = Made { due, woken: 0 };
    for n in 0..registers {
        made = put_register(plan, cells, pending, places, held, made, n);
    }
    made
}

// The commit: all cells that are held are put, and then the waits fire on the whole change.
fn commit(
    plan: &PlanTable,
    cells: &mut Cells,
    pending: &mut [u64; 32],
    places: &mut [u8; 8],
    marks: Marks,
) -> Marks
    ensures { live cells.new pending.new places.new result
        ≡ commit (plan_of plan.now)
        (live cells.old pending.old places.old marks) }
{
    let made = put_pending(plan, cells, pending, places, marks.held, marks.due);
    let ready = plan_changes::move_on(plan, places, marks.ready, made.woken);
    Marks {
        due: made.due,
        ready,
        held: 0,
    }
}

// Puts the input values.
fn put_inputs<'a>(
    plan: &PlanTable,
    cells: &mut Cells,
    places: &'a [u8; 8],
    due: u32,
    value: &'a [u32; 16],
    unknown: &'a [u32; 16],
) -> Made
    ensures { changing cells.new (bits result.due) (bits result.woken)
        ≡ put_inputs (plan_of plan.now) places.now
        (value_at value.now unknown.now)
        (plan_of plan.now).inputs (opened cells.old (bits due)) }
{
    let inputs = plan::inputs(plan);
    let mut made = Made { due, woken: 0 };
    for n in 0..inputs {
        let c = values::store(values::value_at(value, unknown, n));
        made = plan_changes::put(plan, cells, places, made, n, c);
    }
    made
}

// The inputs of an instant: all are put, and then the waits fire on the whole change.
pub fn feed<'a>(
    plan: &PlanTable,
    cells: &mut Cells,
    pending: &mut [u64; 32],
    places: &mut [u8; 8],
    marks: Marks,
    value: &'a [u32; 16],
    unknown: &'a [u32; 16],
) -> Marks
    ensures { live cells.new pending.new places.new result
        ≡ feed (plan_of plan.now) (value_at value.now unknown.now)
        (live cells.old pending.old places.old marks) }
{
    let made = put_inputs(plan, cells, places, marks.due, value, unknown);
    let ready = plan_changes::move_on(plan, places, marks.ready, made.woken);
    Marks {
        due: made.due,
        ready,
        ..marks
    }
}

// A choice of thread `i`: refused where it finds the thread at a wait, else the instruction is taken apart and run.
pub fn take_thread(
    plan: &PlanTable,
    cells: &mut Cells,
    pending: &mut [u64; 32],
    places: &mut [u8; 8],
    marks: Marks,
    i: usize,
    room: u64,
) -> Taken
    ensures { taken result.number (live cells.new pending.new places.new result.marks)
        ≡ take_thread (plan_of plan.now) room i
        (live cells.old pending.old places.old marks) }
{
    if 8 <= i {
        return Taken { number: 22, marks };
    }
    let p = places[i];
    let Instruction::Act(action) = plan::fetch(plan, i, p) else {
        return Taken { number: 33, marks };
    };
    if room == 0 {
        return Taken { number: 47, marks };
    }
    let marks = act(plan, cells, pending, places, marks, i, p, action);
    Taken { number: 0, marks }
}

// A choice of wire `k`: refused where it isn't due.
pub fn take_wire(
    plan: &PlanTable,
    cells: &mut Cells,
    pending: &mut [u64; 32],
    places: &mut [u8; 8],
    marks: Marks,
    k: usize,
    room: u64,
) -> Taken
    ensures { taken result.number (live cells.new pending.new places.new result.marks)
        ≡ take_wire (plan_of plan.now) room k
        (live cells.old pending.old places.old marks) }
{
    if !masks::has(marks.due, k) {
        return Taken { number: 33, marks };
    }
    if room == 0 {
        return Taken { number: 47, marks };
    }
    let marks = settle(plan, cells, places, marks, k);
    Taken { number: 0, marks }
}

// A choice of the commit: refused while an item is enabled, or where nothing is held.
// stays test by test: with the first two as one its proof didn't close
pub fn take_commit(
    plan: &PlanTable,
    cells: &mut Cells,
    pending: &mut [u64; 32],
    places: &mut [u8; 8],
    marks: Marks,
    room: u64,
) -> Taken
    ensures { taken result.number (live cells.new pending.new places.new result.marks)
        ≡ take_commit (plan_of plan.now) room
        (live cells.old pending.old places.old marks) }
{
    if masks::any(marks.ready) {
        return Taken { number: 34, marks };
    }
    if masks::any(marks.due) {
        return Taken { number: 34, marks };
    }
    if !masks::any(marks.held) {
        return Taken { number: 35, marks };
    }
    if room == 0 {
        return Taken { number: 47, marks };
    }
    let marks = commit(plan, cells, pending, places, marks);
    Taken { number: 0, marks }
}

// A choice: the threads by their numbers, then the wires; 255 is the commit. `room` is how many choices may still be accepted.
// It is called in one place only, so that the compiler puts it there whole.
fn take(
    plan: &PlanTable,
    cells: &mut Cells,
    pending: &mut [u64; 32],
    places: &mut [u8; 8],
    marks: Marks,
    c: usize,
    room: u64,
) -> Taken
    ensures { taken result.number (live cells.new pending.new places.new result.marks)
        ≡ take_choice (plan_of plan.now) room c
        (live cells.old pending.old places.old marks) }
{
    let threads = plan::threads(plan);
    if c < threads {
        return take_thread(plan, cells, pending, places, marks, c, room);
    }
    if c < threads + plan::wires(plan) {
        return take_wire(plan, cells, pending, places, marks, c - threads, room);
    }
    if c == 255 {
        return take_commit(plan, cells, pending, places, marks, room);
    }
    Taken { number: 22, marks }
}

// Is something enabled or held?
// stays test by test: as one expression its proof didn't close
pub fn busy(marks: Marks) -> bool
    ensures { (cs ns ps : List ℕ) → result ≡ busy (live cs ns ps marks) }
{
    if masks::any(marks.ready) {
        return true;
    }
    if masks::any(marks.due) {
        return true;
    }
    masks::any(marks.held)
}

// The lowest enabled item, else the commit.
pub fn plain_choice(plan: &PlanTable, marks: Marks) -> usize
    ensures { (cs ns ps : List ℕ) → result ≡ plain_choice (plan_of plan.now) (live cs ns ps marks) }
{
    if masks::any(marks.ready) {
        return masks::lowest(marks.ready);
    }
    if masks::any(marks.due) {
        return plan::threads(plan) + masks::lowest(marks.due);
    }
    255
}

// Is there a turn? A choice that is given is taken in any case.
fn turns_on(c: Option<usize>, marks: Marks) -> bool
    requires { IfSome c (λ n. n < 65536) }
    ensures { (cs ns ps : List ℕ) → result ≡ turns_on (given c) (live cs ns ps marks) }
{
    match c {
        Some(_) => true,
        None => busy(marks),
    }
}

// The choice of a turn.
fn turn_choice(plan: &PlanTable, c: Option<usize>, marks: Marks) -> usize
    requires { IfSome c (λ n. n < 65536) }
    ensures { (cs ns ps : List ℕ) → result ≡ turn_choice (plan_of plan.now) (given c) (live cs ns ps marks) }
{
    match c {
        Some(n) => n,
        None => plain_choice(plan, marks),
    }
}

// At most `limit` turns: the choice that is given, or else the plain ones.
fn take_turns(
    plan: &PlanTable,
    cells: &mut Cells,
    pending: &mut [u64; 32],
    places: &mut [u8; 8],
    marks: Marks,
    c: Option<usize>,
    limit: u16,
    room: u64,
) -> PlainRun
    requires { IfSome c (λ n. n < 65536) }
    ensures { run result.accepted result.number
        (live cells.new pending.new places.new result.marks)
        ≡ turns (plan_of plan.now) (given c) limit room
        (live cells.old pending.old places.old marks) }
{
    let mut m = marks;
    let mut left = room;
    for i in 0u16..limit {
        if !turns_on(c, m) {
            return PlainRun {
                accepted: i,
                number: 0,
                marks: m,
            };
        }
        let k = turn_choice(plan, c, m);
        let t = take(plan, cells, pending, places, m, k, left);
        m = t.marks;
        if t.number != 0 {
            return PlainRun {
                accepted: i,
                number: t.number,
                marks: m,
            };
        }
        left -= 1;
    }
    PlainRun {
        accepted: limit,
        number: 0,
        marks: m,
    }
}

// A choice, as a run of one turn.
pub fn take_choice(
    plan: &PlanTable,
    cells: &mut Cells,
    pending: &mut [u64; 32],
    places: &mut [u8; 8],
    marks: Marks,
    c: usize,
    room: u64,
) -> Taken
    ensures { taken result.number (live cells.new pending.new places.new result.marks)
        ≡ take_choice (plan_of plan.now) room c
        (live cells.old pending.old places.old marks) }
{
    if ITEMS <= c {
        return Taken { number: 22, marks };
    }
    let t = take_turns(plan, cells, pending, places, marks, Some(c), 1, room);
    Taken {
        number: t.number,
        marks: t.marks,
    }
}

// A run over a list of choices. It ends at the first refused one.
pub fn run_list(
    plan: &PlanTable,
    cells: &mut Cells,
    pending: &mut [u64; 32],
    places: &mut [u8; 8],
    marks: Marks,
    choices: &[u8],
    room: u64,
) -> ListRun
    ensures { run result.accepted result.number
        (live cells.new pending.new places.new result.marks)
        ≡ run_list (plan_of plan.now) choices.now room
        (live cells.old pending.old places.old marks) }
{
    let mut m = marks;
    let mut left = room;
    for i in 0..choices.len() {
        let c = choices[i] as usize;
        let t = take_choice(plan, cells, pending, places, m, c, left);
        m = t.marks;
        if t.number != 0 {
            return ListRun {
                accepted: i,
                number: t.number,
                marks: m,
            };
        }
        left -= 1;
    }
    ListRun {
        accepted: choices.len(),
        number: 0,
        marks: m,
    }
}

// The plain run of at most `limit` choices.
pub fn run_plain(
    plan: &PlanTable,
    cells: &mut Cells,
    pending: &mut [u64; 32],
    places: &mut [u8; 8],
    marks: Marks,
    limit: u16,
    room: u64,
) -> PlainRun
    ensures { run result.accepted result.number
        (live cells.new pending.new places.new result.marks)
        ≡ run_plain (plan_of plan.now) limit room
        (live cells.old pending.old places.old marks) }
{
    take_turns(plan, cells, pending, places, marks, None, limit, room)
}
