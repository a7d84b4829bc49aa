// The bytes of a text's wires and threads, written one after the other up to a place.
ghost use Rattle.std.specs.Prelude.{◌≡◌, true, ◌<◌};
ghost use Rattle.writing.specs.Buffer.{filled};
ghost use Rattle.verilog_exprs.specs.Rows.{answer};
ghost use Rattle.verilog_names.specs.Chosen.{capped};
ghost use Rattle.verilog_read.specs.Read.{value_behind, wire_at, statement_behind, thread_at};
ghost use Rattle.verilog_origins.specs.Origins.{reached, first_past};

use crate::Hit;
use verilog_exprs::Put;
use verilog_names::target_of;
use verilog_stmts::{after, left, statement, value};

// A place to read from, and a position to write at.
fn from(next: usize, pos: usize) -> Put
    ensures { result ≡ answer true next pos }
{
    Put {
        ok: true,
        next,
        pos,
    }
}

// A count as a number of tokens; a table has 16,385 entries.
pub(crate) fn capped(count: u16) -> usize
    ensures { result ≡ capped count }
{
    let n = count as usize;
    if n < 16385 { n } else { 16385 }
}

// The expression two tokens behind a target.
fn value_behind(
    kinds: &[u8; 16385],
    table: &[u32; 16385],
    count: u16,
    out: &mut [u8; 65536],
    i: usize,
    pos: usize,
) -> usize
    ensures { filled out.new result ≡ value_behind kinds.now table.now count i
        (filled out.old pos) }
{
    let e = value(kinds, table, count, out, after(after(from(i, pos))));
    e.pos
}

// A wire's expression, where the token declares one.
fn wire(
    kinds: &[u8; 16385],
    numbers: &[u32; 16385],
    table: &[u32; 16385],
    roles: &[u8; 16385],
    count: u16,
    out: &mut [u8; 65536],
    i: usize,
    pos: usize,
) -> usize
    requires { i < 16385 }
    ensures { filled out.new result ≡ wire_at kinds.now numbers.now table.now
        roles.now count i (filled out.old pos) }
{
    if roles[i] != 3 {
        return pos;
    }
    let t = target_of(numbers, roles, count as usize, numbers[i]);
    value_behind(kinds, table, count, out, t, pos)
}

// The wire's token by whose expression the sheet comes past a place; the number of tokens where none does.
pub(crate) fn find_wire(
    kinds: &[u8; 16385],
    numbers: &[u32; 16385],
    table: &[u32; 16385],
    roles: &[u8; 16385],
    count: u16,
    out: &mut [u8; 65536],
    pos: usize,
    place: usize,
) -> Hit
    ensures { reached result out.new ≡ first_past (wire_at kinds.now numbers.now table.now
        roles.now count) place (capped count) 0 (filled out.old pos) }
{
    let n = capped(count);
    let mut p = pos;
    for i in 0..n {
        p = wire(kinds, numbers, table, roles, count, out, i, p);
        if place < p {
            return Hit { token: i, pos: p };
        }
    }
    Hit { token: n, pos: p }
}

// The statement behind the word `always`.
fn statement_behind(
    kinds: &[u8; 16385],
    table: &[u32; 16385],
    count: u16,
    out: &mut [u8; 65536],
    i: usize,
    pos: usize,
) -> usize
    ensures { filled out.new result ≡ statement_behind kinds.now table.now count i
        (filled out.old pos) }
{
    let at = after(from(i, pos));
    let n = left(count, at.next);
    let s = statement(kinds, table, count, out, at, n as usize);
    s.pos
}

// A thread's statement, where the token begins one.
fn thread(
    kinds: &[u8; 16385],
    table: &[u32; 16385],
    roles: &[u8; 16385],
    count: u16,
    out: &mut [u8; 65536],
    i: usize,
    pos: usize,
) -> usize
    requires { i < 16385 }
    ensures { filled out.new result ≡ thread_at kinds.now table.now roles.now count i
        (filled out.old pos) }
{
    if roles[i] != 5 {
        return pos;
    }
    statement_behind(kinds, table, count, out, i, pos)
}

// The thread's token by whose statement the sheet comes past a place; the number of tokens where none does.
pub(crate) fn find_thread(
    kinds: &[u8; 16385],
    table: &[u32; 16385],
    roles: &[u8; 16385],
    count: u16,
    out: &mut [u8; 65536],
    pos: usize,
    place: usize,
) -> Hit
    ensures { reached result out.new ≡ first_past (thread_at kinds.now table.now roles.now count)
        place (capped count) 0 (filled out.old pos) }
{
    let n = capped(count);
    let mut p = pos;
    for i in 0..n {
        p = thread(kinds, table, roles, count, out, i, p);
        if place < p {
            return Hit { token: i, pos: p };
        }
    }
    Hit { token: n, pos: p }
}
