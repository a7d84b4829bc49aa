// A sheet's bytes: written from the tables, judged, copied.
ghost use Rattle.std.specs.Prelude.{◌≡◌, true, ◌≤◌, ◌<◌, get_or};
ghost use Rattle.std.proofs.lemmas.List.Edits.{sets};
ghost use Rattle.writing.specs.Buffer.{filled};
ghost use Rattle.verilog_exprs.specs.Rows.{answer};
ghost use Rattle.verilog_names.specs.Chosen.{capped};
ghost use Rattle.verilog_read.specs.Read.{gave, each, value_behind, wire_at, statement_behind, thread_at, sheet_in};
ghost use Rattle.verilog_read.specs.Read.{roomed, padded, copied, judged_in};

use sheet::read;
use verilog_exprs::Put;
use verilog_names::{put_head, target_of};
use verilog_source::TextRead;
use verilog_stmts::{after, left, statement, value};

// A refusal.
pub(crate) fn refusal(number: u8, place: usize) -> TextRead
    ensures { result ≡ record { number = number; place = place; length = 0 } }
{
    TextRead {
        number,
        place,
        length: 0,
    }
}

// ---- writing

// A place to read from, and a position to write at.
fn from(next: usize, pos: usize) -> Put
    ensures { result ≡ answer true next pos }
{
    Put {
        ok: true,
        next,
        pos,
    }
}

// A count as a number of tokens; a table has 16,385 entries.
fn capped(count: u16) -> usize
    ensures { result ≡ capped count }
{
    let n = count as usize;
    if n < 16385 { n } else { 16385 }
}

// The expression two tokens behind a target.
fn value_behind(
    kinds: &[u8; 16385],
    table: &[u32; 16385],
    count: u16,
    out: &mut [u8; 65536],
    i: usize,
    pos: usize,
) -> usize
    ensures { filled out.new result ≡ value_behind kinds.now table.now count i
        (filled out.old pos) }
{
    let e = value(kinds, table, count, out, after(after(from(i, pos))));
    e.pos
}

// A wire's expression, where the token declares one.
fn wire(
    kinds: &[u8; 16385],
    numbers: &[u32; 16385],
    table: &[u32; 16385],
    roles: &[u8; 16385],
    count: u16,
    out: &mut [u8; 65536],
    i: usize,
    pos: usize,
) -> usize
    requires { i < 16385 }
    ensures { filled out.new result ≡ wire_at kinds.now numbers.now table.now
        roles.now count i (filled out.old pos) }
{
    if roles[i] != 3 {
        return pos;
    }
    let t = target_of(numbers, roles, count as usize, numbers[i]);
    value_behind(kinds, table, count, out, t, pos)
}

// The expressions of all wires.
fn wires(
    kinds: &[u8; 16385],
    numbers: &[u32; 16385],
    table: &[u32; 16385],
    roles: &[u8; 16385],
    count: u16,
    out: &mut [u8; 65536],
    pos: usize,
) -> usize
    ensures { filled out.new result ≡ each (wire_at kinds.now numbers.now table.now
        roles.now count) (capped count) 0 (filled out.old pos) }
{
    let n = capped(count);
    let mut p = pos;
    for i in 0..n {
        p = wire(kinds, numbers, table, roles, count, out, i, p);
    }
    p
}

// The statement behind the word `always`.
fn statement_behind(
    kinds: &[u8; 16385],
    table: &[u32; 16385],
    count: u16,
    out: &mut [u8; 65536],
    i: usize,
    pos: usize,
) -> usize
    ensures { filled out.new result ≡ statement_behind kinds.now table.now count i
        (filled out.old pos) }
{
    let at = after(from(i, pos));
    let n = left(count, at.next);
    let s = statement(kinds, table, count, out, at, n as usize);
    s.pos
}

// A thread's statement, where the token begins one.
fn thread(
    kinds: &[u8; 16385],
    table: &[u32; 16385],
    roles: &[u8; 16385],
    count: u16,
    out: &mut [u8; 65536],
    i: usize,
    pos: usize,
) -> usize
    requires { i < 16385 }
    ensures { filled out.new result ≡ thread_at kinds.now table.now roles.now count i
        (filled out.old pos) }
{
    if roles[i] != 5 {
        return pos;
    }
    statement_behind(kinds, table, count, out, i, pos)
}

// The statements of all threads.
fn threads(
    kinds: &[u8; 16385],
    table: &[u32; 16385],
    roles: &[u8; 16385],
    count: u16,
    out: &mut [u8; 65536],
    pos: usize,
) -> usize
    ensures { filled out.new result ≡ each (thread_at kinds.now table.now roles.now count)
        (capped count) 0 (filled out.old pos) }
{
    let n = capped(count);
    let mut p = pos;
    for i in 0..n {
        p = thread(kinds, table, roles, count, out, i, p);
    }
    p
}

// The head, the wires and the threads; the answer is the sheet's length.
pub(crate) fn write(
    kinds: &[u8; 16385],
    numbers: &[u32; 16385],
    table: &[u32; 16385],
    roles: &[u8; 16385],
    widths: &[u8; 16385],
    count: u16,
    out: &mut [u8; 65536],
) -> usize
    ensures { filled out.new result ≡ sheet_in kinds.now numbers.now table.now
        roles.now widths.now count out.old }
{
    let head = put_head(roles, widths, count as usize, out, 0);
    let body = wires(kinds, numbers, table, roles, count, out, head);
    threads(kinds, table, roles, count, out, body)
}

// ---- judging and copying

// How many bytes of the buffer are filled: it has 65,536.
pub(crate) fn roomed(n: usize) -> usize
    ensures { (result ≡ roomed n) × (result ≤ 65536) }
{
    if n < 65536 { n } else { 65536 }
}

// The buffer's bytes, into a table of the same size.
pub(crate) fn hold(bytes: &[u8; 65536], held: &mut [u8; 65536])
    ensures { held.new ≡ sets held.old 0 (padded bytes.now 65536 0) }
{
    for i in 0..65536 {
        held[i] = bytes[i];
    }
}

// A byte of a sheet, behind its end 0.
fn byte_at(sheet: &[u8], i: usize) -> u8
    ensures { result ≡ get_or sheet.now i 0 }
{
    if i < sheet.len() { sheet[i] } else { 0 }
}

// A sheet into the lent bytes, zeros behind.
fn copy(sheet: &[u8], lent: &mut [u8])
    ensures { lent.new ≡ copied sheet.now lent.old }
{
    for i in 0..lent.len() {
        lent[i] = byte_at(sheet, i);
    }
}

// The sheet's own numbers, or its bytes and its length.
pub(crate) fn judge(sheet: &[u8], lent: &mut [u8]) -> TextRead
    ensures { gave result lent.new ≡ judged_in sheet.now lent.old }
{
    let r = read(sheet);
    if r.number != 0 {
        return refusal(r.number, r.place);
    }
    copy(sheet, lent);
    TextRead {
        number: 0,
        place: 0,
        length: sheet.len(),
    }
}
