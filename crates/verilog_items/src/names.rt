// Names and their declarations, noted by token.
ghost use Rattle.std.specs.Prelude.{◌≡◌, List, ℕ};
ghost use Rattle.verilog_items.specs.Notes.{marked, marks};
ghost use Rattle.verilog_items.specs.Items.{ident, is_number, unsigned, naught, range, range_width, name_list, declaration, heading, ended};

use verilog_exprs::{Put, expect, number_at};
use verilog_stmts::{after, is_next, left, refused};

// Notes a byte at a token.
pub fn mark(table: &mut [u8; 16385], i: usize, b: u8)
    ensures { table.new ≡ marked i b table.old }
{
    if i < 16385 {
        table[i] = b;
    }
}

// A name.
fn ident(kinds: &[u8; 16385], at: Put) -> Put
    ensures { result ≡ ident kinds.now at }
{
    if is_next(kinds, 64, at) {
        return after(at);
    }
    refused(at)
}

// Whether a number is next.
#[tactic(auto, unfolding(crate::specs::Items::is_number))]
fn is_number(kinds: &[u8; 16385], at: Put) -> bool
    ensures { result ≡ is_number kinds.now at }
{
    is_next(kinds, 65, at) || is_next(kinds, 66, at)
}

// A number.
fn unsigned(kinds: &[u8; 16385], at: Put) -> Put
    ensures { result ≡ unsigned kinds.now at }
{
    if is_number(kinds, at) {
        return after(at);
    }
    refused(at)
}

// The number 0.
fn naught(kinds: &[u8; 16385], numbers: &[u32; 16385], at: Put) -> Put
    ensures { result ≡ naught kinds.now numbers.now at }
{
    if !is_number(kinds, at) {
        return refused(at);
    }
    if number_at(numbers, at.next) == 0 {
        return after(at);
    }
    refused(at)
}

// `[n:0]`, or nothing.
fn range(kinds: &[u8; 16385], numbers: &[u32; 16385], at: Put) -> Put
    ensures { result ≡ range kinds.now numbers.now at }
{
    if !is_next(kinds, 22, at) {
        return at;
    }
    let n = unsigned(kinds, after(at));
    let z = naught(kinds, numbers, expect(kinds, n, 24));
    expect(kinds, z, 23)
}

// The width that stands there, as it is written.
fn range_width(kinds: &[u8; 16385], numbers: &[u32; 16385], at: Put) -> u8
    ensures { result ≡ range_width kinds.now numbers.now at }
{
    if !is_next(kinds, 22, at) {
        return 1;
    }
    let n = number_at(numbers, after(at).next);
    if n < 32 {
        return n as u8 + 1;
    }
    255
}

// Names with commas between them, each noted with a role and a width.
fn name_list(
    kinds: &[u8; 16385],
    count: u16,
    roles: &mut [u8; 16385],
    widths: &mut [u8; 16385],
    at: Put,
    role: u8,
    width: u8,
) -> Put
    ensures { marks result roles.new widths.new
        ≡ name_list kinds.now count role width (marks at roles.old widths.old) }
{
    let mut p = at;
    for _ in 0..left(count, at.next) {
        if !is_next(kinds, 64, p) {
            return refused(p);
        }
        mark(roles, p.next, role);
        mark(widths, p.next, width);
        p = after(p);
        if !is_next(kinds, 26, p) {
            return p;
        }
        p = after(p);
    }
    refused(p)
}

// `input`, `reg` or `wire`, a range, names and `;`.
pub fn declaration(
    kinds: &[u8; 16385],
    numbers: &[u32; 16385],
    count: u16,
    roles: &mut [u8; 16385],
    widths: &mut [u8; 16385],
    at: Put,
    role: u8,
) -> Put
    ensures { marks result roles.new widths.new
        ≡ declaration kinds.now numbers.now count role (marks at roles.old widths.old) }
{
    let p = after(at);
    let width = range_width(kinds, numbers, p);
    let names = range(kinds, numbers, p);
    let end = name_list(kinds, count, roles, widths, names, role, width);
    expect(kinds, end, 25)
}

// `module`, its name, ports and `;`. A port has no role.
pub fn heading(
    kinds: &[u8; 16385],
    count: u16,
    roles: &mut [u8; 16385],
    widths: &mut [u8; 16385],
    at: Put,
) -> Put
    ensures { marks result roles.new widths.new
        ≡ heading kinds.now count (marks at roles.old widths.old) }
{
    let name = ident(kinds, expect(kinds, at, 1));
    let ports = expect(kinds, name, 20);
    let end = name_list(kinds, count, roles, widths, ports, 0, 0);
    expect(kinds, expect(kinds, end, 21), 25)
}

// Nothing stands behind.
pub fn ended(kinds: &[u8; 16385], at: Put) -> Put
    ensures { result ≡ ended kinds.now at }
{
    if is_next(kinds, 0, at) {
        return at;
    }
    refused(at)
}
