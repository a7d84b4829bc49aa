// Expressions of a Verilog text, from the table of its tokens (verilog_tokens, specs/Table), written as a sheet has them into a buffer of
// 65,536 bytes. Every contract says: answer and buffer are what the definition of the same name leaves, for tables of any contents.
#![tactic(auto)]

mod constants;
mod operators;
mod rows;

ghost use Rattle.std.specs.Prelude.{◌≡◌};
ghost use Rattle.verilog_exprs.specs.Rows.{wrote, and_then};
ghost use Rattle.verilog_exprs.specs.Exprs.{value_at, atom_at, primary_at, operand_at, climb_at, arms_at, expr_at};

pub use constants::{put_constant, width_of};
use operators::{operator_of, precedence_of};
pub use rows::{expect, kind_at, number_at};
use verilog_bytes::{put_pair, put_pair_front};
use verilog_tokens::Kind;

// Whether a part was read, the next token's place (of a refusal: where it was met), and the next position in the buffer.
#[derive(Clone, Copy)]
pub struct Put {
    pub ok: bool,
    pub next: usize,
    pub pos: usize,
}

// ---- primaries

// The value behind a size.
fn value(
    kinds: &[u8; 16385],
    numbers: &[u32; 16385],
    out: &mut [u8; 65536],
    width: u8,
    i: usize,
    pos: usize,
) -> Put
    ensures { wrote result out.new ≡ value_at kinds.now numbers.now width i pos out.old }
{
    let k = kind_at(kinds, i);
    if k == Kind::Known as u8 {
        let v = number_at(numbers, i);
        let p = put_constant(width, v, out, pos);
        return Put {
            ok: true,
            next: i + 1,
            pos: p,
        };
    }
    if k == Kind::Unknown as u8 {
        let p = put_pair(0x04, width, out, pos);
        return Put {
            ok: true,
            next: i + 1,
            pos: p,
        };
    }
    Put {
        ok: false,
        next: i,
        pos,
    }
}

// A name, or a size and its value.
fn atom(
    kinds: &[u8; 16385],
    numbers: &[u32; 16385],
    out: &mut [u8; 65536],
    i: usize,
    pos: usize,
) -> Put
    ensures { wrote result out.new ≡ atom_at kinds.now numbers.now i pos out.old }
{
    let k = kind_at(kinds, i);
    let n = number_at(numbers, i);
    if k == Kind::Name as u8 {
        let p = put_pair(0x02, (n % 256) as u8, out, pos);
        return Put {
            ok: true,
            next: i + 1,
            pos: p,
        };
    }
    if k == Kind::Number as u8 {
        return value(kinds, numbers, out, width_of(n), i + 1, pos);
    }
    Put {
        ok: false,
        next: i,
        pos,
    }
}

// An atom, or an expression in brackets.
#[cycle(arms_climb_expression_operand_primary)]
fn primary(
    kinds: &[u8; 16385],
    numbers: &[u32; 16385],
    out: &mut [u8; 65536],
    i: usize,
    pos: usize,
    fuel: usize,
) -> Put
    ensures { wrote result out.new ≡
        primary_at kinds.now numbers.now (expr_at kinds.now numbers.now fuel)
        i pos out.old }
{
    let k = kind_at(kinds, i);
    if k == Kind::OpenParen as u8 {
        let e = expression(kinds, numbers, out, i + 1, 1, pos, fuel);
        return expect(kinds, e, Kind::CloseParen as u8);
    }
    atom(kinds, numbers, out, i, pos)
}

// A primary, with ~ or ! in front of it or without.
#[cycle(arms_climb_expression_operand_primary)]
fn operand(
    kinds: &[u8; 16385],
    numbers: &[u32; 16385],
    out: &mut [u8; 65536],
    i: usize,
    pos: usize,
    fuel: usize,
) -> Put
    ensures { wrote result out.new ≡
        operand_at kinds.now numbers.now (expr_at kinds.now numbers.now fuel)
        i pos out.old }
{
    let k = kind_at(kinds, i);
    if k == Kind::Tilde as u8 {
        let p = put_pair(0x11, 1, out, pos);
        return primary(kinds, numbers, out, i + 1, p, fuel);
    }
    if k == Kind::Exclamation as u8 {
        let p = put_pair(0x11, 2, out, pos);
        return primary(kinds, numbers, out, i + 1, p, fuel);
    }
    primary(kinds, numbers, out, i, pos, fuel)
}

// ---- operators

// Behind a first operand that was written from a position on: the binary operators of a level and closer, at most so many.
#[cycle(arms_climb_expression_operand_primary)]
fn climb(
    kinds: &[u8; 16385],
    numbers: &[u32; 16385],
    out: &mut [u8; 65536],
    at: Put,
    level: u8,
    from: usize,
    fuel: usize,
    turns: usize,
) -> Put
    ensures { wrote result out.new ≡ and_then (wrote at out.old)
        (climb_at kinds.now numbers.now (expr_at kinds.now numbers.now fuel) turns level from) }
{
    let i = at.next;
    if !at.ok {
        return at;
    }
    if turns == 0 {
        return Put { ok: false, ..at };
    }
    let k = kind_at(kinds, i);
    let o = precedence_of(k);
    if o == 0 {
        return at;
    }
    if o < level {
        return at;
    }
    let p = put_pair_front(0x31, operator_of(k), out, from, at.pos);
    let r = expression(kinds, numbers, out, i + 1, o + 1, p, fuel);
    climb(kinds, numbers, out, r, level, from, fuel, turns - 1)
}

// Behind a condition that was written from a position on: the arms of ?:, where the level asks for them.
#[cycle(arms_climb_expression_operand_primary)]
fn arms(
    kinds: &[u8; 16385],
    numbers: &[u32; 16385],
    out: &mut [u8; 65536],
    at: Put,
    level: u8,
    from: usize,
    fuel: usize,
) -> Put
    ensures { wrote result out.new ≡ and_then (wrote at out.old)
        (arms_at kinds.now numbers.now (expr_at kinds.now numbers.now fuel) level from) }
{
    let i = at.next;
    if !at.ok {
        return at;
    }
    if 1 < level {
        return at;
    }
    let k = kind_at(kinds, i);
    if k != Kind::Question as u8 {
        return at;
    }
    let p = put_pair_front(0x71, 10, out, from, at.pos);
    let a = expression(kinds, numbers, out, i + 1, 1, p, fuel);
    let c = expect(kinds, a, Kind::Colon as u8);
    if !c.ok {
        return c;
    }
    expression(kinds, numbers, out, c.next, 1, c.pos, fuel)
}

// The expression of a level or closer that begins at a token, written at a position.
#[cycle(arms_climb_expression_operand_primary)]
pub fn expression(
    kinds: &[u8; 16385],
    numbers: &[u32; 16385],
    out: &mut [u8; 65536],
    i: usize,
    level: u8,
    pos: usize,
    fuel: usize,
) -> Put
    ensures { wrote result out.new ≡
        expr_at kinds.now numbers.now fuel level i pos out.old }
{
    if fuel == 0 {
        return Put {
            ok: false,
            next: i,
            pos,
        };
    }
    let a = operand(kinds, numbers, out, i, pos, fuel - 1);
    let b = climb(kinds, numbers, out, a, level, pos, fuel - 1, fuel);
    arms(kinds, numbers, out, b, level, pos, fuel - 1)
}
