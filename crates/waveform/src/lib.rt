// A run as a value change dump (VCD, IEEE 1364), put into a lent buffer piece by piece.
#![tactic(auto)]

ghost use Rattle.std.specs.Prelude.{◌≡◌, ◌∷◌, [], map, ◌+◌, ◌<◌, get_or};
ghost use Rattle.values.specs.Cells.{cell_at};
ghost use Rattle.values.specs.Values.{pick, same};
ghost use Rattle.writing.specs.Ascii.{byte};
ghost use Rattle.writing.specs.Buffer.{filled, puts};
ghost use Rattle.naming.specs.Naming.{within, texts};
ghost use Rattle.waveform.specs.Waveform.{ident, kind_of, declaration, declarations, comment_byte, front, header, time_line};
ghost use Rattle.waveform.specs.Waveform.{shortened, figures, value_line, value_of, all_values, changes};

use binary_text::{is_known, is_x};
use sheet::byte_at;
use trace_row::value_in;
use values::Value;
use writing::{put_byte, put_marked, put_word};

// How many of each kind a module has.
#[derive(Clone, Copy, Debug, PartialEq, Eq)]
pub struct Counts {
    pub inputs: u8,
    pub registers: u8,
    pub wires: u8,
}

// The identifier code of a variable.
fn ident(v: usize) -> u8
    requires { v < 80 }
    ensures { result ≡ ident v }
{
    b'!' + v as u8
}

// ---- the header

// What a variable is declared as.
fn put_kind(inputs: u8, registers: u8, v: usize, text: &mut [u8; 65536], pos: usize) -> usize
    ensures { filled text.new result ≡ puts (filled text.old pos) (kind_of inputs registers v) }
{
    if v < inputs as usize {
        return put_word(b"wire", text, pos);
    }
    if v < inputs as usize + registers as usize {
        return put_word(b"reg", text, pos);
    }
    put_word(b"wire", text, pos)
}

// A variable's declaration.
fn put_declaration(
    widths: &[u8],
    names: &[u8; 2560],
    inputs: u8,
    registers: u8,
    v: usize,
    text: &mut [u8; 65536],
    pos: usize,
) -> usize
    requires { v < 80 }
    ensures { filled text.new result ≡ puts (filled text.old pos)
        (declaration widths.now names.now inputs registers v) }
{
    let p = put_word(b"$var ", text, pos);
    let q = put_kind(inputs, registers, v, text, p);
    let w = put_marked(b' ', byte_at(widths, v) as usize, text, q);
    let s = put_byte(b' ', text, w);
    let d = put_byte(ident(v), text, s);
    let e = put_byte(b' ', text, d);
    let f = naming::put_name(names, v, text, e);
    put_word(b" $end\n", text, f)
}

// The declarations of the first n variables.
fn put_declarations(
    widths: &[u8],
    names: &[u8; 2560],
    inputs: u8,
    registers: u8,
    n: usize,
    text: &mut [u8; 65536],
    pos: usize,
) -> usize
    ensures { filled text.new result ≡ puts (filled text.old pos)
        (declarations widths.now names.now inputs registers n) }
{
    let end = naming::within(n);
    let mut p = pos;
    for v in 0..end {
        p = put_declaration(widths, names, inputs, registers, v, text, p);
    }
    p
}

// A byte of a comment.
fn comment_byte(b: u8) -> u8
    ensures { result ≡ comment_byte b }
{
    if b < 32 {
        return b'_';
    }
    if b == b'$' {
        return b'_';
    }
    b
}

// A text in a comment.
fn put_comment(file: &[u8], text: &mut [u8; 65536], pos: usize) -> usize
    ensures { filled text.new result ≡ puts (filled text.old pos) (map comment_byte file.now) }
{
    let mut p = pos;
    for &b in file {
        p = put_byte(comment_byte(b), text, p);
    }
    p
}

// The lines in front of the declarations.
fn put_front(file: &[u8], text: &mut [u8; 65536], pos: usize) -> usize
    ensures { filled text.new result ≡ puts (filled text.old pos) (front file.now) }
{
    let p = put_word(b"$version Walbryts $end\n$comment ", text, pos);
    let q = put_comment(file, text, p);
    put_word(
        b" $end\n$timescale 1 ns $end\n$scope module walbryts $end\n",
        text,
        q,
    )
}

// The header of a dump of a module that stands in a file of that name.
pub fn print_header(
    widths: &[u8],
    names: &[u8; 2560],
    m: Counts,
    file: &[u8],
    text: &mut [u8; 65536],
    pos: usize,
) -> usize
    ensures { filled text.new result ≡ puts (filled text.old pos)
        (header widths.now names.now m file.now) }
{
    let inputs = m.inputs;
    let registers = m.registers;
    let n = inputs as usize + registers as usize + m.wires as usize;
    let p = put_front(file, text, pos);
    let q = put_declarations(widths, names, inputs, registers, n, text, p);
    put_word(b"$upscope $end\n$enddefinitions $end\n", text, q)
}

// ---- times and values

// The line of a time.
pub fn print_time(t: usize, text: &mut [u8; 65536], pos: usize) -> usize
    ensures { filled text.new result ≡ puts (filled text.old pos) (time_line t) }
{
    let p = put_marked(b'#', t, text, pos);
    put_byte(b'\n', text, p)
}

// The figures of a number, most significant first, without zeros in front; at most so many, and one stays.
fn put_shortened(width: u8, n: u32, text: &mut [u8; 65536], pos: usize) -> usize
    ensures { filled text.new result ≡ puts (filled text.old pos) (shortened width n) }
{
    if width == 0 {
        return pos;
    }
    if n < 2 {
        return put_byte(48 + n as u8, text, pos);
    }
    let p = put_shortened(width - 1, n / 2, text, pos);
    put_byte(48 + (n % 2) as u8, text, p)
}

// The figures of a value.
fn put_figures(width: u8, a: Value, text: &mut [u8; 65536], pos: usize) -> usize
    ensures { filled text.new result ≡ puts (filled text.old pos) (figures width a) }
{
    if is_known(a) {
        return put_shortened(width, a.number, text, pos);
    }
    if is_x(width, a) {
        return put_byte(b'x', text, pos);
    }
    binary_text::put_value(width, a, text, pos)
}

// The identifier code and the line's end.
fn put_code(v: usize, text: &mut [u8; 65536], pos: usize) -> usize
    requires { v < 80 }
    ensures { filled text.new result ≡ puts (filled text.old pos) (ident v ∷ byte "\n" ∷ []) }
{
    let p = put_byte(ident(v), text, pos);
    put_byte(b'\n', text, p)
}

// The line of a value.
fn put_value(width: u8, v: usize, a: Value, text: &mut [u8; 65536], pos: usize) -> usize
    requires { v < 80 }
    ensures { filled text.new result ≡ puts (filled text.old pos) (value_line width v a) }
{
    if width == 1 {
        let q = put_figures(width, a, text, pos);
        return put_code(v, text, q);
    }
    let p = put_byte(b'b', text, pos);
    let q = put_figures(width, a, text, p);
    let s = put_byte(b' ', text, q);
    put_code(v, text, s)
}

// The lines of the values of the first n variables.
fn put_values(widths: &[u8], n: usize, row: &[u64], text: &mut [u8; 65536], pos: usize) -> usize
    ensures { filled text.new result ≡ puts (filled text.old pos)
        (texts (value_of widths.now (cell_at row.now)) (within n) 0) }
{
    let end = naming::within(n);
    let mut p = pos;
    for v in 0..end {
        let w = byte_at(widths, v);
        let a = value_in(row, v);
        p = put_value(w, v, a, text, p);
    }
    p
}

// The values of the first n variables, as a dump begins.
pub fn print_all(widths: &[u8], n: usize, row: &[u64], text: &mut [u8; 65536], pos: usize) -> usize
    ensures { filled text.new result ≡ puts (filled text.old pos)
        (all_values widths.now n (cell_at row.now)) }
{
    let p = put_word(b"$dumpvars\n", text, pos);
    let q = put_values(widths, n, row, text, p);
    put_word(b"$end\n", text, q)
}

// The line of a value that differs from the one before, else nothing.
fn put_change(
    width: u8,
    v: usize,
    old: Value,
    new: Value,
    text: &mut [u8; 65536],
    pos: usize,
) -> usize
    requires { v < 80 }
    ensures { filled text.new result ≡ puts (filled text.old pos)
        (pick (same old new) [] (value_line width v new)) }
{
    if values::same(old, new) {
        return pos;
    }
    put_value(width, v, new, text, pos)
}

// The values of those of the first n variables that differ.
pub fn print_changes(
    widths: &[u8],
    n: usize,
    old: &[u64],
    new: &[u64],
    text: &mut [u8; 65536],
    pos: usize,
) -> usize
    ensures { filled text.new result ≡ puts (filled text.old pos)
        (changes widths.now n (cell_at old.now) (cell_at new.now)) }
{
    let end = naming::within(n);
    let mut p = pos;
    for v in 0..end {
        let w = byte_at(widths, v);
        let a = value_in(old, v);
        let b = value_in(new, v);
        p = put_change(w, v, a, b, text, p);
    }
    p
}
