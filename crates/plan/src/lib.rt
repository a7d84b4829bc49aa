// A plan: all that is worked out once from a sheet, in one table of words that is lent to every call. Words of any contents are
// a plan: a word that names no cell names cell 0, other numbers count modulo 256.
#![tactic(auto)]

ghost use Rattle.std.specs.Prelude.{◌≡◌, ◌%◌, ◌<◌};
ghost use Rattle.pseudocode.specs.Instruction.{no_term};
ghost use Rattle.pseudocode.specs.Fetching.{term_at};
ghost use Rattle.masks.specs.Masks.{bits};
ghost use Rattle.plan.specs.Sections.{slot_of};
ghost use Rattle.plan.specs.Plan.{term_from, terms_from, plan_of};

use pseudocode::EdgeTerms;
use sheet::EdgeTerm;
use values::Edge;

// A cell for each of 80 variables, then one for each of 4,096 nodes.
pub const VARIABLES: usize = 80;

pub const CELLS: usize = 4176;

pub type Cells = [u64; 4176];

// The sections of a plan: four words for each cell's node, four for each instruction, 256 to a thread, two for each wire; a word for
// each variable's readers, watchers and width; the four counts; each thread's size.
pub const CODE: usize = 16704;

pub const WIRES: usize = 24896;

pub const READERS: usize = 24960;

pub const WATCHERS: usize = 25040;

pub const WIDTHS: usize = 25120;

pub const COUNTS: usize = 25200;

pub const SIZES: usize = 25204;

pub const WORDS: usize = 25212;

pub type PlanTable = [u32; 25212];

// The kinds of instructions.
pub const WAIT: u32 = 0;

pub const SET: u32 = 1;

pub const LATER: u32 = 2;

pub const GO: u32 = 3;

pub const IFNOT: u32 = 4;

// The kinds of nodes: the value of a variable, a constant, unknown bits, operators (of one operand from 11 on, of two from 13 on, by the
// operator's number and 10), a choice, and a choice that waits for its condition alone.
pub const VARIABLE: u32 = 0;

pub const CONSTANT: u32 = 1;

pub const UNKNOWN: u32 = 2;

pub const OPERATORS: u32 = 10;

pub const UNARY: u32 = 11;

pub const BINARY: u32 = 13;

pub const CHOICE: u32 = 20;

pub const BRANCH: u32 = 40;

// An expression: its nodes are those from `first` to `root`, whose cell gets its value. A variable's root is its own cell, before
// `first`, and there are no nodes.
#[derive(Clone, Copy)]
pub struct Expression {
    pub first: usize,
    pub root: usize,
}

// An instruction that runs.
#[derive(Clone, Copy)]
pub enum Action {
    Set { target: u8, source: Expression },
    Later { target: u8, source: Expression },
    Go(u8),
    IfNot { goal: u8, condition: Expression },
}

#[derive(Clone, Copy)]
pub enum Instruction {
    Wait(EdgeTerms),
    Act(Action),
}

// A word as the number of a cell.
pub fn slot(w: u32) -> usize
    ensures value { result ≡ slot_of w }
    ensures upper_bound { result < 4176 }
{
    if w < 4176 { w as usize } else { 0 }
}

// The low byte of a word.
pub fn low(w: u32) -> u8
    ensures { result ≡ w % 256 }
{
    (w % 256) as u8
}

// A place as the number of a cell.
fn slot_at(n: usize) -> usize
    ensures value { result ≡ slot_of n }
    ensures upper_bound { result < 4176 }
{
    if n < 4176 { n } else { 0 }
}

// What stands in the fields past a wait's last term.
fn no_term() -> EdgeTerm
    ensures { result ≡ no_term }
{
    EdgeTerm {
        edge: Edge::Change,
        variable: 0,
    }
}

// Term `k` of a wait whose terms stand as nodes from `first` on.
fn term_from(plan: &PlanTable, first: usize, count: u8, k: u8) -> EdgeTerm
    requires { first < 4176 }
    ensures { result ≡ term_from plan.now first count k }
{
    if k < count {
        let n = slot_at(first + k as usize);
        let edge = values::edge_of(low(plan[4 * n]));
        let variable = low(plan[4 * n + 1]);
        EdgeTerm { edge, variable }
    } else {
        no_term()
    }
}

// The terms of a wait.
fn terms_from(plan: &PlanTable, first: usize, count: u8) -> EdgeTerms
    requires { first < 4176 }
    ensures { result ≡ terms_from plan.now first count }
{
    let t0 = term_from(plan, first, count, 0);
    let t1 = term_from(plan, first, count, 1);
    let t2 = term_from(plan, first, count, 2);
    let t3 = term_from(plan, first, count, 3);
    let t4 = term_from(plan, first, count, 4);
    let t5 = term_from(plan, first, count, 5);
    let t6 = term_from(plan, first, count, 6);
    let t7 = term_from(plan, first, count, 7);
    EdgeTerms {
        count,
        t0,
        t1,
        t2,
        t3,
        t4,
        t5,
        t6,
        t7,
    }
}

// The instruction at a place of a thread; past the eighth thread `go 0`.
pub fn fetch(plan: &PlanTable, thread: usize, place: u8) -> Instruction
    ensures { result ≡ (plan_of plan.now).instruction thread place }
{
    if 8 <= thread {
        return Instruction::Act(Action::Go(0));
    }
    let at = CODE + 1024 * thread + 4 * (place as usize);
    let kind = plan[at];
    let number = low(plan[at + 1]);
    let first = slot(plan[at + 2]);
    let root = slot(plan[at + 3]);
    let source = Expression { first, root };
    match kind {
        WAIT => Instruction::Wait(terms_from(plan, first, number)),
        SET => Instruction::Act(Action::Set {
            target: number,
            source,
        }),
        LATER => Instruction::Act(Action::Later {
            target: number,
            source,
        }),
        GO => Instruction::Act(Action::Go(number)),
        _ => Instruction::Act(Action::IfNot {
            goal: number,
            condition: source,
        }),
    }
}

// How many terms the wait at a place of a thread has.
pub fn term_count(plan: &PlanTable, thread: usize, place: u8) -> u8
    ensures { result ≡ ((plan_of plan.now).terms thread place).count }
{
    if 8 <= thread {
        return 0;
    }
    low(plan[CODE + 1024 * thread + 4 * (place as usize) + 1])
}

// Term `k` of the wait at a place of a thread, past the eight none.
pub fn term(plan: &PlanTable, thread: usize, place: u8, k: u8) -> EdgeTerm
    ensures { result ≡ term_at ((plan_of plan.now).terms thread place) k }
{
    if 8 <= thread {
        return no_term();
    }
    if 8 <= k {
        return no_term();
    }
    let at = CODE + 1024 * thread + 4 * (place as usize);
    let count = low(plan[at + 1]);
    let first = slot(plan[at + 2]);
    term_from(plan, first, count, k)
}

// Does the instruction at a place of a thread wait?
pub fn waits(plan: &PlanTable, thread: usize, place: u8) -> bool
    ensures { result ≡ (plan_of plan.now).waits thread place }
{
    thread < 8 && plan[CODE + 1024 * thread + 4 * (place as usize)] == WAIT
}

// The expression of a wire; past the last wire it is the clock.
pub fn wire(plan: &PlanTable, k: usize) -> Expression
    ensures { result ≡ (plan_of plan.now).wire k }
{
    if 32 <= k {
        return Expression { first: 0, root: 0 };
    }
    let first = slot(plan[WIRES + 2 * k]);
    let root = slot(plan[WIRES + 2 * k + 1]);
    Expression { first, root }
}

// The wires that read a variable, as a mask.
pub fn readers(plan: &PlanTable, v: usize) -> u32
    ensures { bits result ≡ (plan_of plan.now).readers v }
{
    if 80 <= v {
        return 0;
    }
    plan[READERS + v]
}

// The threads of which a wait names a variable, as a mask.
pub fn watchers(plan: &PlanTable, v: usize) -> u32
    ensures { bits result ≡ (plan_of plan.now).watchers v }
{
    if 80 <= v {
        return 0;
    }
    plan[WATCHERS + v]
}

// The width of a variable.
pub fn width(plan: &PlanTable, v: usize) -> u8
    ensures { result ≡ (plan_of plan.now).width v }
{
    if 80 <= v {
        return 0;
    }
    low(plan[WIDTHS + v])
}

// How many instructions a thread has.
pub fn size(plan: &PlanTable, i: usize) -> usize
    ensures { result ≡ (plan_of plan.now).size i }
{
    if 8 <= i {
        return 0;
    }
    plan[SIZES + i] as usize
}

// The counts.
pub fn inputs(plan: &PlanTable) -> usize
    ensures { result ≡ (plan_of plan.now).inputs }
{
    low(plan[COUNTS]) as usize
}

pub fn registers(plan: &PlanTable) -> usize
    ensures { result ≡ (plan_of plan.now).registers }
{
    low(plan[COUNTS + 1]) as usize
}

pub fn wires(plan: &PlanTable) -> usize
    ensures { result ≡ (plan_of plan.now).wires }
{
    low(plan[COUNTS + 2]) as usize
}

pub fn threads(plan: &PlanTable) -> usize
    ensures { result ≡ (plan_of plan.now).threads }
{
    low(plan[COUNTS + 3]) as usize
}
