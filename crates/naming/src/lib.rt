// Names of variables in a table of 80 rows of 32 bytes: read, set, compared, and put into a lent buffer.
#![tactic(auto)]

ghost use Rattle.std.specs.Prelude.{◌≡◌, ◌∷◌, ◌<◌, get_or, length, take};
ghost use Rattle.writing.specs.Numbers.{decimal};
ghost use Rattle.writing.specs.Buffer.{filled, puts};
ghost use Rattle.naming.specs.Naming.{plain_mark, plain_number, plain_name, plainly};
ghost use Rattle.naming.specs.Naming.{name_of, padded, renamed, same_text, within};

use writing::{put_byte, put_marked};

// ---- plain names

// The letter of a plain name.
fn plain_mark(inputs: u8, registers: u8, v: usize) -> u8
    ensures { result ≡ plain_mark inputs registers v }
{
    if v < inputs as usize {
        b'i'
    } else if v < inputs as usize + registers as usize {
        b'r'
    } else {
        b'w'
    }
}

// The number of a plain name.
fn plain_number(inputs: u8, registers: u8, v: usize) -> usize
    ensures { result ≡ plain_number inputs registers v }
{
    if v < inputs as usize {
        v
    } else if v < inputs as usize + registers as usize {
        v - inputs as usize
    } else {
        v - (inputs as usize + registers as usize)
    }
}

// The plain name of a variable.
pub fn put_plain(inputs: u8, registers: u8, v: usize, text: &mut [u8; 65536], pos: usize) -> usize
    ensures { filled text.new result ≡
        puts (filled text.old pos) (plain_name inputs registers v) }
{
    let mark = plain_mark(inputs, registers, v);
    let n = plain_number(inputs, registers, v);
    put_marked(mark, n, text, pos)
}

// Byte j of a letter and a number of at most two digits, 0 behind the end.
fn marked_byte(mark: u8, n: usize, j: usize) -> u8
    requires { n < 100 }
    ensures { result ≡ get_or (mark ∷ decimal n) j 0 }
{
    if j == 0 {
        return mark;
    }
    if n < 10 {
        if j == 1 {
            return 48 + n as u8;
        }
        return 0;
    }
    if j == 1 {
        return 48 + (n / 10) as u8;
    }
    if j == 2 {
        return 48 + (n % 10) as u8;
    }
    0
}

// Every row gets its plain name.
pub fn fill_plain(inputs: u8, registers: u8, names: &mut [u8; 2560])
    ensures { names.new ≡ plainly names.old inputs registers }
{
    for k in 0..2560 {
        let mark = plain_mark(inputs, registers, k / 32);
        let n = plain_number(inputs, registers, k / 32);
        names[k] = marked_byte(mark, n, k % 32);
    }
}

// ---- names of the table

// How long the name of a variable is.
pub fn name_length(names: &[u8; 2560], v: usize) -> usize
    ensures { result ≡ length (name_of names.now v) }
{
    if 80 <= v {
        return 0;
    }
    let at = v * 32;
    for n in 0..32 {
        if names[at + n] == 0 {
            return n;
        }
    }
    32
}

// The name of a variable, past the table nothing.
pub fn put_name(names: &[u8; 2560], v: usize, text: &mut [u8; 65536], pos: usize) -> usize
    ensures { filled text.new result ≡
        puts (filled text.old pos) (name_of names.now v) }
{
    if 80 <= v {
        return pos;
    }
    let n = name_length(names, v);
    let at = v * 32;
    let mut p = pos;
    for i in 0..n {
        p = put_byte(names[at + i], text, p);
    }
    p
}

// How many of n variables the table has rows for.
pub fn within(n: usize) -> usize
    ensures { result ≡ within n }
{
    n.min(80)
}

// Is this the name of a variable?
pub fn same_name(names: &[u8; 2560], v: usize, name: &[u8]) -> bool
    ensures { result ≡ same_text (name_of names.now v) name.now }
{
    let n = name_length(names, v);
    if name.len() != n {
        return false;
    }
    if 80 <= v {
        return true;
    }
    let at = v * 32;
    for i in 0..n {
        if names[at + i] != name[i] {
            return false;
        }
    }
    true
}

// Byte j of a row that holds a name: one of its first 31 bytes, or 0.
fn row_byte(name: &[u8], j: usize) -> u8
    requires { j < 32 }
    ensures { result ≡ get_or (padded 32 (take 31 name.now)) j 0 }
{
    if j < 31 {
        if j < name.len() {
            return name[j];
        }
    }
    0
}

// The row of a variable gets a name, past the table nothing changes.
pub fn set_name(names: &mut [u8; 2560], v: usize, name: &[u8])
    ensures { names.new ≡ renamed names.old v name.now }
{
    if 80 <= v {
        return;
    }
    let at = v * 32;
    for j in 0..32 {
        names[at + j] = row_byte(name, j);
    }
}
