// Bytes put in front of others in a buffer of 65,536 bytes: where there is room the others are moved on; else they are written
// behind, and then the two are turned.
#![tactic(auto)]

ghost use Rattle.std.specs.Prelude.{◌≡◌, ◌&&◌, ◌∷◌, [], ◌+◌, ◌-◌, ◌≤◌, ltb, leb};
ghost use Rattle.writing.specs.Buffer.{filled, puts};
ghost use Rattle.verilog_bytes.specs.Turning.{turned, moved, fronted};

use writing::put_byte;

// What stands at from..mid comes behind what stands at mid..end. Places out of order or past the end change nothing.
pub fn turn(out: &mut [u8; 65536], from: usize, mid: usize, end: usize)
    ensures { out.new ≡ turned from mid end out.old }
{
    if mid < from {
        return;
    }
    if end < mid {
        return;
    }
    if 65536 < end {
        return;
    }
    // three reversals: `rotate_left` would need memmove, which no caller in C has to bring
    out[from..mid].reverse();
    out[mid..end].reverse();
    out[from..end].reverse();
}

// Two bytes.
pub fn put_pair(a: u8, b: u8, out: &mut [u8; 65536], pos: usize) -> usize
    ensures { filled out.new result ≡ puts (filled out.old pos) (a ∷ b ∷ []) }
{
    let p = put_byte(a, out, pos);
    put_byte(b, out, p)
}

// The bytes from a place up to another, each moved on by k.
fn shift(out: &mut [u8; 65536], k: usize, from: usize, end: usize)
    requires { (from ≤ end) × (end + k ≤ 65536) }
    ensures { out.new ≡ moved k (end - from) from out.old }
{
    // stays a while: the last byte moves first, and the library has no move within one slice
    let mut j = end;
    while from < j {
        j -= 1;
        out[j + k] = out[j];
    }
}

// Does something stand from a place up to another, and is there room for k bytes more?
fn has_room(from: usize, pos: usize, k: usize) -> bool
    requires { k ≤ 65536 }
    ensures { result ≡ (ltb from pos && leb (pos + k) 65536) }
{
    from < pos && pos <= 65536 - k
}

// A byte in front of all that stands from a place on.
pub fn put_front(a: u8, out: &mut [u8; 65536], from: usize, pos: usize) -> usize
    ensures { filled out.new result ≡ fronted from (a ∷ []) (filled out.old pos) }
{
    if has_room(from, pos, 1) {
        shift(out, 1, from, pos);
        out[from] = a;
        return pos + 1;
    }
    let p = put_byte(a, out, pos);
    turn(out, from, pos, p);
    p
}

// Two bytes in front of all that stands from a place on.
pub fn put_pair_front(a: u8, b: u8, out: &mut [u8; 65536], from: usize, pos: usize) -> usize
    ensures { filled out.new result ≡ fronted from (a ∷ b ∷ []) (filled out.old pos) }
{
    if has_room(from, pos, 2) {
        shift(out, 2, from, pos);
        out[from] = a;
        out[from + 1] = b;
        return pos + 2;
    }
    let end = put_pair(a, b, out, pos);
    turn(out, from, pos, end);
    end
}
