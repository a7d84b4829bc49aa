// A module of Verilog text, read from the table of its tokens (verilog_tokens, specs/Table). What is declared, driven and run is noted
// by token in two tables; expressions and statements are written from the buffer's beginning and left there. Each function equals its
// definition in specs/, for tables of any contents.
#![tactic(auto)]

mod names;

ghost use Rattle.std.specs.Prelude.{◌≡◌, List, ℕ};
ghost use Rattle.verilog_exprs.specs.Rows.{wrote};
ghost use Rattle.verilog_items.specs.Notes.{notes};
ghost use Rattle.verilog_items.specs.Items.{rewound, target, assigns, thread, item, item_list, read_in};

use names::{declaration, ended, heading, mark};
use verilog_exprs::{Put, expect, kind_at};
use verilog_stmts::{after, is_next, left, refused, statement, value};

// The same token, at the buffer's beginning.
fn rewind(at: Put) -> Put
    ensures { result ≡ rewound at }
{
    Put { pos: 0, ..at }
}

// A target, `=` and its expression.
fn target(
    kinds: &[u8; 16385],
    numbers: &[u32; 16385],
    count: u16,
    out: &mut [u8; 65536],
    roles: &mut [u8; 16385],
    at: Put,
) -> Put
    ensures { (ws : List ℕ) → notes (wrote result out.new) roles.new ws
        ≡ target kinds.now numbers.now count (notes (wrote at out.old) roles.old ws) }
{
    mark(roles, at.next, 4);
    let e = expect(kinds, after(at), 28);
    value(kinds, numbers, count, out, rewind(e))
}

// `assign`, targets with commas between them, `;`.
fn assigns(
    kinds: &[u8; 16385],
    numbers: &[u32; 16385],
    count: u16,
    out: &mut [u8; 65536],
    roles: &mut [u8; 16385],
    at: Put,
) -> Put
    ensures { (ws : List ℕ) → notes (wrote result out.new) roles.new ws
        ≡ assigns kinds.now numbers.now count (notes (wrote at out.old) roles.old ws) }
{
    let mut p = after(at);
    for _ in 0..left(count, p.next) {
        if !is_next(kinds, 64, p) {
            return refused(p);
        }
        p = target(kinds, numbers, count, out, roles, p);
        if !is_next(kinds, 26, p) {
            return expect(kinds, p, 25);
        }
        p = after(p);
    }
    refused(p)
}

// `always` and a statement.
fn thread(
    kinds: &[u8; 16385],
    numbers: &[u32; 16385],
    count: u16,
    out: &mut [u8; 65536],
    roles: &mut [u8; 16385],
    at: Put,
) -> Put
    ensures { (ws : List ℕ) → notes (wrote result out.new) roles.new ws
        ≡ thread kinds.now numbers.now count (notes (wrote at out.old) roles.old ws) }
{
    mark(roles, at.next, 5);
    let s = rewind(after(at));
    let n = left(count, s.next);
    statement(kinds, numbers, count, out, s, n as usize)
}

// An item, by its first word.
fn item(
    kinds: &[u8; 16385],
    numbers: &[u32; 16385],
    count: u16,
    out: &mut [u8; 65536],
    roles: &mut [u8; 16385],
    widths: &mut [u8; 16385],
    at: Put,
) -> Put
    ensures { notes (wrote result out.new) roles.new widths.new
        ≡ item kinds.now numbers.now count
        (notes (wrote at out.old) roles.old widths.old) }
{
    let i = at.next;
    match kind_at(kinds, i) {
        3 => declaration(kinds, numbers, count, roles, widths, at, 1),
        4 => declaration(kinds, numbers, count, roles, widths, at, 2),
        5 => declaration(kinds, numbers, count, roles, widths, at, 3),
        6 => assigns(kinds, numbers, count, out, roles, at),
        7 => thread(kinds, numbers, count, out, roles, at),
        _ => refused(at),
    }
}

// Items up to `endmodule`.
fn item_list(
    kinds: &[u8; 16385],
    numbers: &[u32; 16385],
    count: u16,
    out: &mut [u8; 65536],
    roles: &mut [u8; 16385],
    widths: &mut [u8; 16385],
    at: Put,
) -> Put
    ensures { notes (wrote result out.new) roles.new widths.new
        ≡ item_list kinds.now numbers.now count
        (notes (wrote at out.old) roles.old widths.old) }
{
    let mut p = at;
    for _ in 0..left(count, at.next) {
        if !p.ok {
            return p;
        }
        if is_next(kinds, 2, p) {
            return after(p);
        }
        p = item(kinds, numbers, count, out, roles, widths, p);
    }
    refused(p)
}

// The module of a table of so many tokens.
pub fn read(
    kinds: &[u8; 16385],
    numbers: &[u32; 16385],
    count: u16,
    out: &mut [u8; 65536],
    roles: &mut [u8; 16385],
    widths: &mut [u8; 16385],
) -> Put
    ensures { notes (wrote result out.new) roles.new widths.new
        ≡ read_in kinds.now numbers.now count out.old roles.old widths.old }
{
    let first = Put {
        ok: true,
        next: 0,
        pos: 0,
    };
    let head = heading(kinds, count, roles, widths, first);
    let end = item_list(kinds, numbers, count, out, roles, widths, head);
    ended(kinds, end)
}
