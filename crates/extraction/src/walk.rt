// The walk from a wait to the next. Each function equals its definition in specs/Walking, for any bytes and words.
ghost use Rattle.std.specs.Prelude.{◌≡◌, [], false, ◌-◌, ◌%◌, ◌<◌, get_or};
ghost use Rattle.values.specs.Values.{pick};
ghost use Rattle.masks.specs.Masks.{bits};
ghost use Rattle.pseudocode.specs.Filling.{after};
ghost use Rattle.extraction.specs.Walking.{own_node, own_at, put_at, land_at, walking, merging, merge_node};
ghost use Rattle.extraction.specs.Walking.{join_at, ended, wait_at, assign_at, branch_at, act_at, walk_at};

use super::express::{emit_node, express};
use super::{Merged, Thread, Walked};
use pseudocode::{Action, Instruction};

// A byte as a place.
fn wide(b: u8) -> usize
    ensures { result ≡ b }
{
    b as usize
}

// A place as a word; a place is below 256.
fn word_of(place: usize) -> u16
    ensures { result ≡ place % 65536 }
{
    let p = place % 65536;
    p as u16
}

// The place after a place of a thread; there is none after 256.
pub fn after(place: usize) -> usize
    ensures { result ≡ after place }
{
    if place < 256 { place + 1 } else { place }
}

// The register of a variable, whose number comes after the inputs'.
fn register_of(v: u8, inputs: u8) -> usize
    ensures { result ≡ v - inputs }
{
    if v < inputs {
        return 0;
    }
    wide(v - inputs)
}

// A register's own variable; 0 past the last register.
fn own_node(inputs: u8, registers: u8, r: usize) -> u16
    requires { r < 32 }
    ensures { result ≡ own_node inputs registers r }
{
    if wide(registers) <= r {
        return 0;
    }
    let v = wide(inputs) + r;
    v as u16
}

// Each register's own variable.
pub fn own_row(inputs: u8, registers: u8) -> [u16; 32]
    ensures { result ≡ own_at inputs registers }
{
    let mut row = [0u16; 32];
    for r in 0..32 {
        row[r] = own_node(inputs, registers, r);
    }
    row
}

// The rows with a node for a register in one of them.
fn put(held: [[u16; 32]; 2], k: usize, r: usize, node: u16) -> [[u16; 32]; 2]
    ensures { result ≡ put_at held k r node }
{
    if 2 <= k {
        return held;
    }
    if 32 <= r {
        return held;
    }
    let mut rows = held;
    rows[k][r] = node;
    rows
}

// `b` where mark `r` is up, else `a`.
fn chosen(mask: u32, r: usize, a: u16, b: u16) -> u16
    ensures { result ≡ pick (get_or (bits mask) r false) b a }
{
    if masks::has(mask, r) { b } else { a }
}

// The registers at the walk's end.
fn land(held: [[u16; 32]; 2], deferred: u32) -> [u16; 32]
    ensures { result ≡ land_at held deferred }
{
    let mut row = held[0];
    let now = held[0];
    let later = held[1];
    for r in 0..32 {
        row[r] = chosen(deferred, r, now[r], later[r]);
    }
    row
}

// Register `r` with nodes `x` and `y` in the two legs under the condition `c`.
fn merge(
    written: u32,
    c: u16,
    r: usize,
    x: u16,
    y: u16,
    nodes: &mut [u16; 16384],
    count: u16,
) -> Merged
    ensures { merging result nodes.new ≡ merge_node written c r x y count nodes.old }
{
    if masks::has(written, r) {
        let n = emit_node(nodes, count, 40, c, x, y);
        return Merged {
            node: count,
            count: n,
        };
    }
    Merged { node: x, count }
}

// Two legs joined under the condition `c`.
fn join(written: u32, c: u16, a: Walked, b: Walked, nodes: &mut [u16; 16384]) -> Walked
    ensures { walking result nodes.new ≡ join_at written c a b nodes.old }
{
    let mut row = a.registers;
    let mut count = b.count;
    for r in 0..32 {
        let m = merge(written, c, r, a.registers[r], b.registers[r], nodes, count);
        row[r] = m.node;
        count = m.count;
    }
    let n = emit_node(nodes, count, 40, c, a.place, b.place);
    Walked {
        count: n,
        place: count,
        registers: row,
    }
}

// Where a walk ends early.
fn ended(held: [[u16; 32]; 2], count: u16) -> Walked
    ensures { result ≡ record { count = count; place = 0; registers = get_or held 0 [] } }
{
    let registers = held[0];
    Walked {
        count,
        place: 0,
        registers,
    }
}

// The walk's end, at a wait.
fn rest(
    t: Thread,
    place: usize,
    held: [[u16; 32]; 2],
    nodes: &mut [u16; 16384],
    count: u16,
) -> Walked
    ensures { walking result nodes.new ≡ wait_at t place held count nodes.old }
{
    let registers = land(held, t.deferred);
    let n = emit_node(nodes, count, 1, 8, word_of(place), 0);
    Walked {
        count: n,
        place: count,
        registers,
    }
}

// An assignment of the expression at `at` to a variable, in row `k`; then the walk goes on.
#[cycle(walk_walk_action_walk_assign_walk_branch)]
fn walk_assign(
    sheet: &[u8],
    code: &[u16; 4096],
    t: Thread,
    fuel: usize,
    k: usize,
    target: u8,
    at: usize,
    place: usize,
    held: [[u16; 32]; 2],
    nodes: &mut [u16; 16384],
    count: u16,
) -> Walked
    ensures { walking result nodes.new
        ≡ assign_at sheet.now t (walk_at sheet.now code.now t fuel) k target at place held
        count nodes.old }
{
    let row = held[0];
    let x = express(sheet, &row, t.inputs, t.registers, at, 16, nodes, count);
    let rows = put(held, k, register_of(target, t.inputs), x.node);
    walk(sheet, code, t, fuel, after(place), rows, nodes, x.count)
}

// A branch on the expression at `at`: both legs, joined.
#[cycle(walk_walk_action_walk_assign_walk_branch)]
fn walk_branch(
    sheet: &[u8],
    code: &[u16; 4096],
    t: Thread,
    fuel: usize,
    goal: usize,
    at: usize,
    place: usize,
    held: [[u16; 32]; 2],
    nodes: &mut [u16; 16384],
    count: u16,
) -> Walked
    ensures { walking result nodes.new
        ≡ branch_at sheet.now t (walk_at sheet.now code.now t fuel) goal at place held count
        nodes.old }
{
    let row = held[0];
    let x = express(sheet, &row, t.inputs, t.registers, at, 16, nodes, count);
    let a = walk(sheet, code, t, fuel, after(place), held, nodes, x.count);
    let b = walk(sheet, code, t, fuel, goal, held, nodes, a.count);
    join(t.written, x.node, a, b, nodes)
}

// An instruction that runs; then the walk goes on.
#[cycle(walk_walk_action_walk_assign_walk_branch)]
fn walk_action(
    sheet: &[u8],
    code: &[u16; 4096],
    t: Thread,
    fuel: usize,
    action: Action,
    place: usize,
    held: [[u16; 32]; 2],
    nodes: &mut [u16; 16384],
    count: u16,
) -> Walked
    ensures { walking result nodes.new
        ≡ act_at sheet.now t (walk_at sheet.now code.now t fuel) place held count
        nodes.old action }
{
    match action {
        Action::Set { target, at } => walk_assign(
            sheet, code, t, fuel, 0, target, at, place, held, nodes, count,
        ),
        Action::Later { target, at } => walk_assign(
            sheet, code, t, fuel, 1, target, at, place, held, nodes, count,
        ),
        Action::Go(goal) => walk(sheet, code, t, fuel, goal, held, nodes, count),
        Action::IfNot { goal, at } => {
            walk_branch(sheet, code, t, fuel, goal, at, place, held, nodes, count)
        }
    }
}

// From a place of a thread on, of at most `fuel` instructions; no further where there are too many nodes.
#[cycle(walk_walk_action_walk_assign_walk_branch)]
pub fn walk(
    sheet: &[u8],
    code: &[u16; 4096],
    t: Thread,
    fuel: usize,
    place: usize,
    held: [[u16; 32]; 2],
    nodes: &mut [u16; 16384],
    count: u16,
) -> Walked
    ensures { walking result nodes.new
        ≡ walk_at sheet.now code.now t fuel place held count nodes.old }
{
    if fuel == 0 {
        return ended(held, count);
    }
    if 4096 < count {
        return ended(held, count);
    }
    let i = pseudocode::fetch(sheet, code, t.number, place);
    let Instruction::Act(action) = i else {
        return rest(t, place, held, nodes, count);
    };
    walk_action(sheet, code, t, fuel - 1, action, place, held, nodes, count)
}
