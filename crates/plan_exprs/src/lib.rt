// Expressions of a sheet laid out as nodes in a plan.
#![tactic(auto)]

ghost use Rattle.std.specs.Prelude.{◌≡◌};
ghost use Rattle.plan_exprs.specs.Flatten.{put_node, more, emit, none, made, add_at};

use plan::{CHOICE, CONSTANT, OPERATORS, PlanTable, UNKNOWN};
use sheet::{byte_at, word_at};

// The node that has an expression's value, the next free node, the expression's width, and the place after it.
#[derive(Clone, Copy)]
pub struct Added {
    pub root: u32,
    pub free: u32,
    pub width: u8,
    pub next: usize,
}

// The number after a node's; there is none after the last cell's.
pub fn more(n: u32) -> u32
    ensures { result ≡ more n }
{
    if n < 4176 { n + 1 } else { n }
}

// Puts a node.
pub fn put_node(plan: &mut PlanTable, n: u32, kind: u32, a: u32, b: u32, c: u32)
    ensures { plan.new ≡ put_node n kind a b c plan.old }
{
    if 4176 <= n {
        return;
    }
    let i = 4 * n as usize;
    plan[i] = kind;
    plan[i + 1] = a;
    plan[i + 2] = b;
    plan[i + 3] = c;
}

// Puts a node at the next free number, which is then the root.
fn emit(
    plan: &mut PlanTable,
    n: u32,
    kind: u32,
    a: u32,
    b: u32,
    c: u32,
    width: u8,
    next: usize,
) -> Added
    ensures { made result plan.new ≡ emit n kind a b c width next plan.old }
{
    put_node(plan, n, kind, a, b, c);
    Added {
        root: n,
        free: more(n),
        width,
        next,
    }
}

// Lays out the expression at a place as nodes from `free` on, with so many levels left.
pub fn add_expr(sheet: &[u8], at: usize, depth: u8, free: u32, plan: &mut PlanTable) -> Added
    ensures { made result plan.new ≡ add_at depth sheet.now at free plan.old }
{
    if depth == 0 {
        return nothing(at, free);
    }
    if 8192 <= at {
        return nothing(at, free);
    }
    let map = byte_at(sheet, at);
    let field = byte_at(sheet, at + 1);
    let rest = at + 2;
    match map {
        0x02 => Added {
            root: field as u32,
            free,
            width: plan::width(plan, field as usize),
            next: rest,
        },
        0x0C => emit(
            plan,
            free,
            CONSTANT,
            0,
            word_at(sheet, rest),
            0,
            field,
            at + 6,
        ),
        0x11 => {
            let a = add_expr(sheet, rest, depth - 1, free, plan);
            emit(
                plan,
                a.free,
                OPERATORS + field as u32,
                a.root,
                0,
                a.width as u32,
                values::unary_width(field, a.width),
                a.next,
            )
        }
        0x31 => {
            let a = add_expr(sheet, rest, depth - 1, free, plan);
            let b = add_expr(sheet, a.next, depth - 1, a.free, plan);
            emit(
                plan,
                b.free,
                OPERATORS + field as u32,
                a.root,
                b.root,
                a.width as u32,
                values::binary_width(field, a.width),
                b.next,
            )
        }
        0x71 => {
            let c = add_expr(sheet, rest, depth - 1, free, plan);
            let a = add_expr(sheet, c.next, depth - 1, c.free, plan);
            let b = add_expr(sheet, a.next, depth - 1, a.free, plan);
            emit(
                plan, b.free, CHOICE, c.root, a.root, b.root, a.width, b.next,
            )
        }
        _ => emit(plan, free, UNKNOWN, 0, 0, field as u32, field, rest),
    }
}

// Where no expression stands.
fn nothing(at: usize, free: u32) -> Added
    ensures { result ≡ none at free }
{
    Added {
        root: 0,
        free,
        width: 0,
        next: at,
    }
}
