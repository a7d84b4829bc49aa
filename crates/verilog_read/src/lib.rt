// Verilog text to a sheet (document 02, request [1]): the tables of the text's tokens, the module read from them, its names numbered,
// its sheet written and judged. Each function equals its definition in specs/.
#![tactic(auto)]

mod bytes;

ghost use Rattle.std.specs.Prelude.{◌≡◌, ◌≤◌, length};
ghost use Rattle.verilog_source.specs.Compiled.{compiled};
ghost use Rattle.verilog_exprs.specs.Rows.{row_at};
ghost use Rattle.verilog_read.specs.Read.{gave, sheeted_in, named_in, derived_in, scanned_in, short};

use bytes::{hold, judge, refusal, roomed, write};
use verilog_items::read;
use verilog_names::{first_fault, number};
use verilog_scan::scan;
use verilog_source::TextRead;

// A place, past the table's end 0.
fn place_at(places: &[u16; 16385], i: usize) -> usize
    ensures { result ≡ row_at places.now i }
{
    if i < 16385 { places[i] as usize } else { 0 }
}

// The number of tokens, which is at most 16,384.
#[tactic(auto, unfolding(crate::specs::Read::short))]
fn short(n: usize) -> u16
    ensures { result ≡ short n }
{
    n.min(65535) as u16
}

// The module read over these numbers, its sheet written and judged.
fn sheeted(
    kinds: &[u8; 16385],
    numbers: &[u32; 16385],
    table: &[u32; 16385],
    count: u16,
    lent: &mut [u8],
) -> TextRead
    ensures { gave result lent.new ≡ sheeted_in kinds.now numbers.now count table.now
        lent.old }
{
    let mut parts = [0u8; 65536];
    let mut roles = [0u8; 16385];
    let mut widths = [0u8; 16385];
    read(kinds, table, count, &mut parts, &mut roles, &mut widths);
    let mut out = [0u8; 65536];
    let end = write(kinds, numbers, table, &roles, &widths, count, &mut out);
    let mut held = [0u8; 65536];
    hold(&out, &mut held);
    let k = roomed(end);
    judge(&held[..k], lent)
}

// Names that aren't at fault, their numbers and the sheet.
fn named(
    kinds: &[u8; 16385],
    numbers: &[u32; 16385],
    places: &[u16; 16385],
    roles: &[u8; 16385],
    count: u16,
    lent: &mut [u8],
) -> TextRead
    ensures { gave result lent.new ≡ named_in kinds.now numbers.now places.now count
        roles.now lent.old }
{
    let n = count as usize;
    let fault = first_fault(kinds, numbers, places, roles, n);
    if fault.found {
        return refusal(43, fault.place);
    }
    let mut table = [0u32; 16385];
    number(kinds, numbers, roles, n, &mut table);
    sheeted(kinds, numbers, &table, count, lent)
}

// The module, its names and its sheet. Before anything is declared each name has the number 0.
fn derived(
    kinds: &[u8; 16385],
    numbers: &[u32; 16385],
    places: &[u16; 16385],
    count: u16,
    lent: &mut [u8],
) -> TextRead
    ensures { gave result lent.new ≡ derived_in kinds.now numbers.now places.now count
        lent.old }
{
    let none = [0u8; 16385];
    let mut table = [0u32; 16385];
    number(kinds, numbers, &none, count as usize, &mut table);
    let mut out = [0u8; 65536];
    let mut roles = [0u8; 16385];
    let mut widths = [0u8; 16385];
    let end = read(kinds, &table, count, &mut out, &mut roles, &mut widths);
    if !end.ok {
        return refusal(42, place_at(places, end.next));
    }
    named(kinds, numbers, places, &roles, count, lent)
}

// The tables of a text that isn't too long, and what is made of them.
fn scanned(text: &[u8], lent: &mut [u8]) -> TextRead
    requires { length text.now ≤ 16384 }
    ensures { gave result lent.new ≡ scanned_in text.now lent.old }
{
    let mut kinds = [0u8; 16385];
    let mut numbers = [0u32; 16385];
    let mut places = [0u16; 16385];
    let count = scan(text, &mut kinds, &mut numbers, &mut places);
    derived(&kinds, &numbers, &places, short(count), lent)
}

// A text's sheet in 8,192 lent bytes, zeros behind it, and its length; or the number and the place of its refusal, which leaves the
// lent bytes.
pub fn read_text(text: &[u8], lent: &mut [u8]) -> TextRead
    ensures { gave result lent.new ≡ compiled text.now lent.old }
{
    if lent.len() != 8192 {
        return refusal(23, 0);
    }
    if text.len() > 16384 {
        return refusal(41, 16384);
    }
    scanned(text, lent)
}
