// Lines and columns of a text.
ghost use Rattle.std.specs.Prelude.{◌≡◌, map, ◌-◌};
ghost use Rattle.writing.specs.Buffer.{filled, puts};
ghost use Rattle.verilog_errors.specs.Spots.{spot_at, stepped, spot_of, is_plain, sign_of, part, line_words};

use crate::Spot;
use stimulus::{counted, line_end};
use writing::{put_byte, put_word};

// Where a byte leads: to the next line, or to the next column.
fn stepped(s: Spot, b: u8) -> Spot
    ensures { result ≡ stepped s b }
{
    if b == b'\n' {
        return Spot {
            line: counted(s.line),
            column: 1,
        };
    }
    Spot {
        column: counted(s.column),
        ..s
    }
}

// The line and the column of a place; past the text's end those of its end.
pub fn spot_of(text: &[u8], place: usize) -> Spot
    ensures { result ≡ spot_of text.now place }
{
    let mut s = Spot { line: 1, column: 1 };
    let mut left = place;
    for i in 0..text.len() {
        if left == 0 {
            return s;
        }
        s = stepped(s, text[i]);
        left -= 1;
    }
    s
}

// Is it a character that can be shown?
#[tactic(auto, unfolding(crate::specs::Spots::is_plain))]
pub(crate) fn is_plain(b: u8) -> bool
    ensures { result ≡ is_plain b }
{
    32 <= b && b < 127
}

// A character as it is shown, or what stands under it: a tab under a tab, else a blank.
fn sign_of(blank: bool, b: u8) -> u8
    ensures { result ≡ sign_of blank b }
{
    if b == b'\t' {
        return b;
    }
    if blank {
        return b' ';
    }
    if is_plain(b) {
        return b;
    }
    b'?'
}

// At most so many characters from a place on.
pub(crate) fn put_part(
    text: &[u8],
    from: usize,
    n: usize,
    blank: bool,
    out: &mut [u8; 65536],
    pos: usize,
) -> usize
    ensures { filled out.new result
        ≡ puts (filled out.old pos) (map (sign_of blank) (part text.now from n)) }
{
    let mut p = pos;
    let mut left = n;
    for i in from..text.len() {
        if left == 0 {
            return p;
        }
        p = put_byte(sign_of(blank, text[i]), out, p);
        left -= 1;
    }
    p
}

// The line of a place, and a caret under the place.
pub fn put_line(text: &[u8], place: usize, out: &mut [u8; 65536], pos: usize) -> usize
    ensures { filled out.new result ≡ puts (filled out.old pos) (line_words text.now place) }
{
    let s = spot_of(text, place);
    let before = s.column.saturating_sub(1);
    let start = place.saturating_sub(before);
    let end = line_end(text, place, text.len());
    let a = put_word(b"    ", out, pos);
    let b = put_part(text, start, end.saturating_sub(start), false, out, a);
    let c = put_word(b"\n    ", out, b);
    let d = put_part(text, start, before, true, out, c);
    put_word(b"^\n", out, d)
}
