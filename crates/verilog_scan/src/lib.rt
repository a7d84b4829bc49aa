// The table of a text's tokens: a kind, a number and a place for each. What they are is said in verilog_tokens/specs/Table.antt; specs/
// here says how the lent tables come to hold them.
#![tactic(auto)]

mod names;

ghost use Rattle.std.specs.Prelude.{◌≡◌, List, ◌+◌, ◌≤◌, ◌<◌, eqb, length, drop};
ghost use Rattle.values.specs.Values.{pick};
ghost use Rattle.verilog_tokens.specs.Tokens.{gap};
ghost use Rattle.verilog_scan.specs.Scan.{gap_from, Filled, Scanned};

use names::number_of;
use verilog_tokens::{gap_end, token_at};

// Where the token behind one of that kind and length begins; the text's end behind a broken one.
fn next_at(text: &[u8], at: usize, kind: u8, size: usize) -> usize
    requires { at + size ≤ length text.now }
    ensures { result ≡ pick (eqb kind 69) (length text.now) (gap_from text.now (at + size)) }
{
    if kind == 69 {
        return text.len();
    }
    gap_end(text, at + size)
}

// One name more, where it is one.
fn more(names: usize, kind: u8) -> usize
    requires { names < 16385 }
    ensures { result ≡ pick (eqb kind 64) (names + 1) names }
{
    if kind == 64 { names + 1 } else { names }
}

// The tables of a text that they have room for, and the number of its tokens.
fn fill(
    text: &[u8],
    kinds: &mut [u8; 16385],
    numbers: &mut [u32; 16385],
    places: &mut [u16; 16385],
) -> usize
    requires { length text.now ≤ 16384 }
    ensures { Filled text.now kinds.old kinds.new numbers.old numbers.new
        places.old places.new result }
{
    let mut starts = [0u16; 16385];
    let mut names = 0;
    let mut n = 0;
    let mut at = gap_end(text, 0);
    // stays a while: a step is as long as the token and the gap behind it
    while at < text.len() {
        let t = token_at(text, at);
        kinds[n] = t.kind;
        numbers[n] = number_of(text, &starts, names, at, t.kind, t.number);
        places[n] = at as u16;
        starts[names] = at as u16;
        names = more(names, t.kind);
        n += 1;
        at = next_at(text, at, t.kind, t.size);
    }
    kinds[n] = 0;
    numbers[n] = 0;
    places[n] = text.len() as u16;
    n
}

// The tables' fronts become a text's kinds, numbers and places; the answer is the number of its tokens. A text of over 16,384 bytes
// leaves the tables and gives 0.
pub fn scan(
    text: &[u8],
    kinds: &mut [u8; 16385],
    numbers: &mut [u32; 16385],
    places: &mut [u16; 16385],
) -> usize
    ensures { Scanned text.now kinds.old kinds.new numbers.old numbers.new
        places.old places.new result }
{
    if 16384 < text.len() {
        return 0;
    }
    fill(text, kinds, numbers, places)
}
