// A run as a table of text, put into a lent buffer line by line: titles, cycles and values.
#![tactic(auto)]

ghost use Rattle.std.specs.Prelude.{◌≡◌, ◌<◌, length, get_or};
ghost use Rattle.values.specs.Cells.{cell_at};
ghost use Rattle.writing.specs.Numbers.{decimal};
ghost use Rattle.writing.specs.Buffer.{filled, puts};
ghost use Rattle.tabulate.specs.Tabulate.{figure, figures, numbered, lead, shown, longer, places, column_width};
ghost use Rattle.tabulate.specs.Tabulate.{gap, cell, cycle_title, cycle_cell, title, entry, columns, head_line, line, is_chosen};

use binary_text::{is_known, is_x, put_bits};
use sheet::byte_at;
use trace_row::value_in;
use values::Value;
use writing::{put_byte, put_decimal, put_many, put_word};

// How a table is written: the base of its numbers (16, 2, else 10), and commas in place of columns.
#[derive(Clone, Copy, Debug, PartialEq, Eq)]
pub struct Form {
    pub base: u8,
    pub csv: bool,
}

// ---- widths of columns

// How many decimal digits a number has.
fn digit_count(n: usize) -> usize
    ensures { result ≡ length (decimal n) }
{
    let mut count: usize = 1;
    let mut rest = n;
    while 10 <= rest {
        rest = rest / 10;
        count += 1;
    }
    count
}

// The longer of two lengths.
pub fn longer(a: usize, b: usize) -> usize
    ensures { result ≡ longer a b }
{
    a.max(b)
}

// How many places the values of a width take.
pub fn places(base: u8, width: u8) -> usize
    ensures { result ≡ places base width }
{
    if base == 16 {
        return longer(1, (width as usize + 3) / 4);
    }
    if base == 2 {
        return longer(1, width as usize);
    }
    digit_count(values::all_unknown(width).unknown as usize)
}

// The width of a variable's column.
fn column_width(base: u8, widths: &[u8], names: &[u8; 2560], v: usize) -> usize
    ensures { result ≡ column_width base widths.now names.now v }
{
    let n = naming::name_length(names, v);
    let d = places(base, byte_at(widths, v));
    longer(n, d)
}

// ---- numbers

// A figure.
fn figure(n: u8) -> u8
    requires { n < 16 }
    ensures { result ≡ figure n }
{
    if n < 10 { 48 + n } else { 87 + n }
}

// The last so many figures of a number, in base 16.
fn put_figures(count: usize, n: u32, text: &mut [u8; 65536], pos: usize) -> usize
    ensures { filled text.new result ≡ puts (filled text.old pos) (figures count n) }
{
    if count == 0 {
        return pos;
    }
    let p = put_figures(count - 1, n / 16, text, pos);
    put_byte(figure((n % 16) as u8), text, p)
}

// A number of so many bits.
fn put_number(base: u8, width: u8, n: u32, text: &mut [u8; 65536], pos: usize) -> usize
    ensures { filled text.new result ≡ puts (filled text.old pos) (numbered base width n) }
{
    if base == 16 {
        return put_figures((width as usize + 3) / 4, n, text, pos);
    }
    if base == 2 {
        return put_bits(width, n, 0, text, pos);
    }
    put_decimal(n as usize, text, pos)
}

// What stands in front of bits.
fn put_lead(base: u8, text: &mut [u8; 65536], pos: usize) -> usize
    ensures { filled text.new result ≡ puts (filled text.old pos) (lead base) }
{
    if base == 2 {
        return pos;
    }
    put_byte(b'b', text, pos)
}

// A value of so many bits.
pub fn put_shown(base: u8, width: u8, a: Value, text: &mut [u8; 65536], pos: usize) -> usize
    ensures { filled text.new result ≡ puts (filled text.old pos) (shown base width a) }
{
    if is_known(a) {
        return put_number(base, width, a.number, text, pos);
    }
    if is_x(width, a) {
        return put_byte(b'x', text, pos);
    }
    let p = put_lead(base, text, pos);
    binary_text::put_value(width, a, text, p)
}

// How long a number of so many bits is.
fn number_length(base: u8, width: u8, n: u32) -> usize
    ensures { result ≡ length (numbered base width n) }
{
    if base == 16 {
        return (width as usize + 3) / 4;
    }
    if base == 2 {
        return width as usize;
    }
    digit_count(n as usize)
}

// How long it is what stands in front of bits.
fn lead_length(base: u8) -> usize
    ensures value { result ≡ length (lead base) }
    ensures upper_bound { result < 2 }
{
    if base == 2 { 0 } else { 1 }
}

// How long a value of so many bits is.
pub fn shown_length(base: u8, width: u8, a: Value) -> usize
    ensures { result ≡ length (shown base width a) }
{
    if is_known(a) {
        return number_length(base, width, a.number);
    }
    if is_x(width, a) {
        return 1;
    }
    lead_length(base) + width as usize
}

// ---- cells

// What stands in front of a text of so many bytes in its cell: a comma, or blanks.
fn put_gap(csv: bool, width: usize, n: usize, text: &mut [u8; 65536], pos: usize) -> usize
    ensures { filled text.new result ≡ puts (filled text.old pos) (gap csv width n) }
{
    if csv {
        return put_word(b",", text, pos);
    }
    let p = put_word(b"  ", text, pos);
    put_many(b' ', width.saturating_sub(n), text, p)
}

// The title of a variable's column.
fn put_title(
    form: Form,
    widths: &[u8],
    names: &[u8; 2560],
    v: usize,
    text: &mut [u8; 65536],
    pos: usize,
) -> usize
    ensures { filled text.new result ≡ puts (filled text.old pos)
        (title form widths.now names.now v) }
{
    let width = column_width(form.base, widths, names, v);
    let n = naming::name_length(names, v);
    let p = put_gap(form.csv, width, n, text, pos);
    naming::put_name(names, v, text, p)
}

// A variable's value in its column.
fn put_entry(
    form: Form,
    widths: &[u8],
    names: &[u8; 2560],
    v: usize,
    a: Value,
    text: &mut [u8; 65536],
    pos: usize,
) -> usize
    ensures { filled text.new result ≡ puts (filled text.old pos)
        (cell form.csv (column_width form.base widths.now names.now v)
        (shown form.base (get_or widths.now v 0) a)) }
{
    let width = column_width(form.base, widths, names, v);
    let bits = byte_at(widths, v);
    let n = shown_length(form.base, bits, a);
    let p = put_gap(form.csv, width, n, text, pos);
    put_shown(form.base, bits, a, text, p)
}

// ---- lines

// The title of the cycles.
fn put_cycle_title(csv: bool, text: &mut [u8; 65536], pos: usize) -> usize
    ensures { filled text.new result ≡ puts (filled text.old pos) (cycle_title csv) }
{
    if csv {
        return put_word(b"cycle", text, pos);
    }
    put_word(b"   cycle", text, pos)
}

// The number of a cycle.
fn put_cycle(csv: bool, n: usize, text: &mut [u8; 65536], pos: usize) -> usize
    ensures { filled text.new result ≡ puts (filled text.old pos) (cycle_cell csv n) }
{
    if csv {
        return put_decimal(n, text, pos);
    }
    let p = put_many(b' ', 8usize.saturating_sub(digit_count(n)), text, pos);
    put_decimal(n, text, p)
}

// The titles of a list of variables.
fn put_titles(
    form: Form,
    widths: &[u8],
    names: &[u8; 2560],
    vs: &[u8],
    text: &mut [u8; 65536],
    pos: usize,
) -> usize
    ensures { filled text.new result ≡ puts (filled text.old pos)
        (columns (title form widths.now names.now) vs.now) }
{
    let mut p = pos;
    for &v in vs {
        p = put_title(form, widths, names, v as usize, text, p);
    }
    p
}

// The values that a row of a trace has of a list of variables.
fn put_entries(
    form: Form,
    widths: &[u8],
    names: &[u8; 2560],
    vs: &[u8],
    row: &[u64],
    text: &mut [u8; 65536],
    pos: usize,
) -> usize
    ensures { filled text.new result ≡ puts (filled text.old pos)
        (columns (entry form widths.now names.now (cell_at row.now)) vs.now) }
{
    let mut p = pos;
    for &v in vs {
        let a = value_in(row, v as usize);
        p = put_entry(form, widths, names, v as usize, a, text, p);
    }
    p
}

// The line of titles.
pub fn print_head(
    form: Form,
    widths: &[u8],
    names: &[u8; 2560],
    vs: &[u8],
    text: &mut [u8; 65536],
    pos: usize,
) -> usize
    ensures { filled text.new result ≡ puts (filled text.old pos)
        (head_line form widths.now names.now vs.now) }
{
    let p = put_cycle_title(form.csv, text, pos);
    let q = put_titles(form, widths, names, vs, text, p);
    put_word(b"\n", text, q)
}

// The line of a cycle, from its row of a trace.
pub fn print_line(
    form: Form,
    widths: &[u8],
    names: &[u8; 2560],
    vs: &[u8],
    n: usize,
    row: &[u64],
    text: &mut [u8; 65536],
    pos: usize,
) -> usize
    ensures { filled text.new result ≡ puts (filled text.old pos)
        (line form widths.now names.now vs.now n (cell_at row.now)) }
{
    let p = put_cycle(form.csv, n, text, pos);
    let q = put_entries(form, widths, names, vs, row, text, p);
    put_word(b"\n", text, q)
}

// Is a cycle shown, from one to another and every so many?
pub fn is_chosen(from: usize, to: usize, every: usize, n: usize) -> bool
    ensures { result ≡ is_chosen from to every n }
{
    if n < from {
        return false;
    }
    if to < n {
        return false;
    }
    if every == 0 {
        return true;
    }
    (n - from) % every == 0
}
