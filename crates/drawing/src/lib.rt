// A run as a drawing (SVG), put into a lent buffer piece by piece: the head, a lane for each variable, the foot. What would pass the
// buffer's end is not put.
#![tactic(auto)]

ghost use Rattle.std.specs.Prelude.{◌≡◌, ◌++◌, ◌-◌, ◌<◌, ◌≤◌, get_or};
ghost use Rattle.writing.specs.Buffer.{filled, puts};
ghost use Rattle.naming.specs.Naming.{name_of, texts};
ghost use Rattle.drawing.specs.Drawing.{largest, value_size, name_size, unit_of, left_of, drawing_of};
ghost use Rattle.drawing.specs.Drawing.{at, halves, across, breadth, depth, last_cycle, measure, escaped_byte, escaped};
ghost use Rattle.drawing.specs.Drawing.{frame, caption, light, dark, ground, rise_at, is_labelled, label, rise, head};
ghost use Rattle.drawing.specs.Drawing.{level_word, level, middle, unknown_bit, bit_stretch, box_word, outline, text_word};
ghost use Rattle.drawing.specs.Drawing.{pressed, inscription, box, stretch, value_in, begins, end_of, stretch_from};
ghost use Rattle.drawing.specs.Drawing.{range, lane_name, lane_frame, lane, foot};

use binary_text::is_known;
use sheet::byte_at;
use tabulate::{longer, places, put_shown, shown_length};
use trace_row::{row_of, value_in};
use values::Value;
use writing::{put_byte, put_decimal, put_word};

// At most so many cycles are drawn.
pub const MOST: usize = 128;

// The measures of a drawing: its first cycle and how many there are, the width of half a cycle and of the names' column in pixels, how
// many lanes it has, and the base of its numbers (16, 2, else 10).
#[derive(Clone, Copy, Debug, PartialEq, Eq)]
pub struct Drawing {
    pub first: u32,
    pub cycles: u8,
    pub unit: u16,
    pub left: u16,
    pub lanes: u8,
    pub base: u8,
}

// ---- measures

// How many characters the values of a variable have.
fn value_size(base: u8, widths: &[u8], v: usize) -> usize
    ensures { result ≡ value_size base widths.now v }
{
    places(base, byte_at(widths, v))
}

// How many characters a name with its range has.
fn name_size(widths: &[u8], names: &[u8; 2560], v: usize) -> usize
    ensures { result ≡ name_size widths.now names.now v }
{
    let n = naming::name_length(names, v);
    if byte_at(widths, v) < 2 {
        return n;
    }
    n + 6
}

// The most characters that a value of these variables has.
fn largest_value(base: u8, widths: &[u8], vs: &[u8]) -> usize
    ensures { result ≡ largest (value_size base widths.now) 0 vs.now }
{
    let mut m: usize = 0;
    for &v in vs {
        m = longer(m, value_size(base, widths, v as usize));
    }
    m
}

// The most characters that a name of these variables has.
fn largest_name(widths: &[u8], names: &[u8; 2560], vs: &[u8]) -> usize
    ensures { result ≡ largest (name_size widths.now names.now) 0 vs.now }
{
    let mut m: usize = 0;
    for &v in vs {
        m = longer(m, name_size(widths, names, v as usize));
    }
    m
}

// The width of half a cycle.
fn unit_of(base: u8, widths: &[u8], vs: &[u8]) -> u16
    ensures { result ≡ unit_of base widths.now vs.now }
{
    let n = largest_value(base, widths, vs).min(40);
    ((7 * n + 13) / 2).max(20) as u16
}

// The width of the names' column.
fn left_of(widths: &[u8], names: &[u8; 2560], vs: &[u8]) -> u16
    ensures { result ≡ left_of widths.now names.now vs.now }
{
    let n = largest_name(widths, names, vs).min(40);
    (8 * n + 8) as u16
}

// The measures of a drawing of so many cycles from one on, with a lane for each of these variables.
pub fn drawing_of(
    base: u8,
    first: usize,
    cycles: usize,
    widths: &[u8],
    names: &[u8; 2560],
    vs: &[u8],
) -> Drawing
    ensures { result ≡ drawing_of base first cycles widths.now names.now vs.now }
{
    let n = cycles.min(MOST);
    let unit = unit_of(base, widths, vs);
    let left = left_of(widths, names, vs);
    let lanes = naming::within(vs.len());
    Drawing {
        first: (first % 4294967296) as u32,
        cycles: n as u8,
        unit,
        left,
        lanes: lanes as u8,
        base,
    }
}

// Where a half begins.
fn at(d: Drawing, h: usize) -> usize
    requires { h < 512 }
    ensures value { result ≡ at d h }
    ensures upper_bound { result < 33554432 }
{
    h * d.unit as usize
}

// How many halves there are.
fn halves(d: Drawing) -> usize
    ensures value { result ≡ halves d }
    ensures upper_bound { result < 512 }
{
    2 * d.cycles as usize
}

// The width of the lanes.
fn across(d: Drawing) -> usize
    ensures value { result ≡ across d }
    ensures upper_bound { result < 33554432 }
{
    at(d, halves(d))
}

// The width of the drawing.
fn breadth(d: Drawing) -> usize
    ensures { result ≡ breadth d }
{
    d.left as usize + across(d) + 20
}

// The height of the drawing.
fn depth(d: Drawing) -> usize
    ensures { result ≡ depth d }
{
    28 * d.lanes as usize + 36
}

// The last cycle.
fn last_cycle(d: Drawing) -> usize
    ensures { result ≡ last_cycle d }
{
    d.first as usize + (d.cycles as usize).saturating_sub(1)
}

// ---- texts

// A word and a number.
fn put_measure(word: &[u8], n: usize, text: &mut [u8; 65536], pos: usize) -> usize
    ensures { filled text.new result ≡ puts (filled text.old pos) (measure word.now n) }
{
    let p = put_word(word, text, pos);
    put_decimal(n, text, p)
}

// A byte as text.
fn put_escaped_byte(b: u8, text: &mut [u8; 65536], pos: usize) -> usize
    ensures { filled text.new result ≡ puts (filled text.old pos) (escaped_byte b) }
{
    if b < 32 {
        return put_word(b"_", text, pos);
    }
    if 126 < b {
        return put_word(b"_", text, pos);
    }
    if b == 38 {
        return put_word(b"&amp;", text, pos);
    }
    if b == 60 {
        return put_word(b"&lt;", text, pos);
    }
    put_byte(b, text, pos)
}

// A word as text.
fn put_escaped(word: &[u8], text: &mut [u8; 65536], pos: usize) -> usize
    ensures { filled text.new result ≡ puts (filled text.old pos) (escaped word.now) }
{
    let mut p = pos;
    for &b in word {
        p = put_escaped_byte(b, text, p);
    }
    p
}

// The name of a variable as text.
fn put_name(names: &[u8; 2560], v: usize, text: &mut [u8; 65536], pos: usize) -> usize
    ensures { filled text.new result ≡ puts (filled text.old pos) (escaped (name_of names.now v)) }
{
    if 80 <= v {
        return pos;
    }
    let n = naming::name_length(names, v);
    let at = v * 32;
    let mut p = pos;
    for i in 0..n {
        p = put_escaped_byte(names[at + i], text, p);
    }
    p
}

// ---- the head

// The drawing's frame.
fn put_frame(d: Drawing, text: &mut [u8; 65536], pos: usize) -> usize
    ensures { filled text.new result ≡ puts (filled text.old pos) (frame d) }
{
    let x = breadth(d);
    let y = depth(d);
    let p = put_measure(
        b"<svg xmlns='http://www.w3.org/2000/svg' role='img' width='",
        x,
        text,
        pos,
    );
    let q = put_measure(b"' height='", y, text, p);
    let s = put_measure(b"' viewBox='0 0 ", x, text, q);
    let e = put_measure(b" ", y, text, s);
    put_word(b"'>\n", text, e)
}

// The drawing's title.
fn put_caption(d: Drawing, file: &[u8], text: &mut [u8; 65536], pos: usize) -> usize
    ensures { filled text.new result ≡ puts (filled text.old pos) (caption d file.now) }
{
    let last = last_cycle(d);
    let p = put_word(b"<title>Waveform of ", text, pos);
    let q = put_escaped(file, text, p);
    let s = put_measure(b", cycles ", d.first as usize, text, q);
    let e = put_measure(b" to ", last, text, s);
    put_word(b"</title>\n", text, e)
}

// The style, light.
fn put_light(text: &mut [u8; 65536], pos: usize) -> usize
    ensures { filled text.new result ≡ puts (filled text.old pos) light }
{
    let p = put_word(
        b"<style>text{font:12px monospace;text-anchor:middle;fill:#1f2328}rect{fill:#fff}path{fill:none;stroke:#0a7a33}\n",
        text,
        pos,
    );
    let q = put_word(
        b"path{stroke-width:1.5}.n{text-anchor:end}.c{fill:#59636e}.g{stroke:#d1d9e0;stroke-width:1}.b{fill:#eaf6ee}\n",
        text,
        p,
    );
    let s = put_word(
        b".x{fill:url(#x);stroke:#cf222e}.h{stroke:#cf222e;stroke-width:3;opacity:.35}\n",
        text,
        q,
    );
    put_word(
        b".t{fill:#b3101c;font-weight:bold;paint-order:stroke;stroke:#fff;stroke-width:4}\n",
        text,
        s,
    )
}

// The style, dark.
fn put_dark(text: &mut [u8; 65536], pos: usize) -> usize
    ensures { filled text.new result ≡ puts (filled text.old pos) dark }
{
    let p = put_word(
        b"@media(prefers-color-scheme:dark){text{fill:#e6edf3}rect{fill:#0d1117}path{stroke:#56d364}.c{fill:#9198a1}\n",
        text,
        pos,
    );
    put_word(
        b".g{stroke:#3d444d}.b{fill:#12261b}.x,.h{stroke:#ff7b72}.t{fill:#ffa198;stroke:#0d1117}}</style>\n",
        text,
        p,
    )
}

// The hatching and the ground.
fn put_ground(text: &mut [u8; 65536], pos: usize) -> usize
    ensures { filled text.new result ≡ puts (filled text.old pos) ground }
{
    let p = put_word(
        b"<pattern id='x' width='6' height='6' patternUnits='userSpaceOnUse' patternTransform='rotate(45)'>",
        text,
        pos,
    );
    put_word(
        b"<path class='h' d='M0 0V6'/></pattern>\n<rect width='100%' height='100%'/>\n",
        text,
        p,
    )
}

// Where the clock of the kth cycle rises.
fn rise_at(d: Drawing, k: usize) -> usize
    requires { k < 255 }
    ensures { result ≡ rise_at d k }
{
    d.left as usize + 8 + at(d, 2 * k + 1)
}

// Is the number of the kth cycle shown?
fn is_labelled(d: Drawing, k: usize) -> bool
    requires { k < 255 }
    ensures { result ≡ is_labelled d k }
{
    if last_cycle(d) < 10000 {
        return true;
    }
    (d.first as usize + k) % 5 == 0
}

// The number of the kth cycle.
fn put_label(d: Drawing, k: usize, text: &mut [u8; 65536], pos: usize) -> usize
    requires { k < 255 }
    ensures { filled text.new result ≡ puts (filled text.old pos) (label d k) }
{
    if !is_labelled(d, k) {
        return pos;
    }
    let x = rise_at(d, k);
    let p = put_measure(b"<text class='c' x='", x, text, pos);
    let q = put_measure(b"' y='16'>", d.first as usize + k, text, p);
    put_word(b"</text>", text, q)
}

// The rise of the kth cycle.
fn put_rise(d: Drawing, k: usize, text: &mut [u8; 65536], pos: usize) -> usize
    requires { k < 255 }
    ensures { filled text.new result ≡ puts (filled text.old pos) (rise d k) }
{
    let x = rise_at(d, k);
    let y = depth(d);
    let p = put_measure(b"<path class='g' d='M", x, text, pos);
    let q = put_measure(b" 24V", y, text, p);
    let s = put_word(b"'/>", text, q);
    let e = put_label(d, k, text, s);
    put_word(b"\n", text, e)
}

// The rises of all cycles.
fn put_rises(d: Drawing, text: &mut [u8; 65536], pos: usize) -> usize
    ensures { filled text.new result ≡ puts (filled text.old pos) (texts (rise d) d.cycles 0) }
{
    let end = d.cycles as usize;
    let mut p = pos;
    for k in 0..end {
        p = put_rise(d, k, text, p);
    }
    p
}

// The head of a drawing of a module that stands in a file of that name.
pub fn put_head(d: Drawing, file: &[u8], text: &mut [u8; 65536], pos: usize) -> usize
    ensures { filled text.new result ≡ puts (filled text.old pos) (head d file.now) }
{
    let p = put_frame(d, text, pos);
    let q = put_caption(d, file, text, p);
    let s = put_light(text, q);
    let e = put_dark(text, s);
    let f = put_ground(text, e);
    put_rises(d, text, f)
}

// ---- stretches

// The middle of a stretch.
fn middle(d: Drawing, a: usize, b: usize) -> usize
    requires a_bound { a < 512 }
    requires b_bound { b < 512 }
    ensures { result ≡ middle d a b }
{
    (at(d, a) + at(d, b)) / 2
}

// A line to the end of a bit that is known.
fn put_level_end(n: u32, x: usize, text: &mut [u8; 65536], pos: usize) -> usize
    ensures { filled text.new result ≡ puts (filled text.old pos) (measure (level_word n) x) }
{
    if n == 0 {
        return put_measure(b" 12V21H", x, text, pos);
    }
    put_measure(b" 12V3H", x, text, pos)
}

// A bit that is known.
fn put_level(d: Drawing, a: usize, b: usize, n: u32, text: &mut [u8; 65536], pos: usize) -> usize
    requires a_bound { a < 512 }
    requires b_bound { b < 512 }
    ensures { filled text.new result ≡ puts (filled text.old pos) (level d a b n) }
{
    let from = at(d, a);
    let to = at(d, b);
    let p = put_measure(b"<path d='M", from, text, pos);
    let q = put_level_end(n, to, text, p);
    put_word(b"V12'/>\n", text, q)
}

// A bit that is not.
fn put_unknown(d: Drawing, a: usize, b: usize, text: &mut [u8; 65536], pos: usize) -> usize
    requires a_bound { a < 512 }
    requires b_bound { b < 512 }
    ensures { filled text.new result ≡ puts (filled text.old pos) (unknown_bit d a b) }
{
    let from = at(d, a);
    let to = at(d, b);
    let x = middle(d, a, b);
    let p = put_measure(b"<path class='x' d='M", from, text, pos);
    let q = put_measure(b" 3V21H", to, text, p);
    let s = put_measure(b"V3z'/><text class='t' x='", x, text, q);
    put_word(b"' y='16'>x</text>\n", text, s)
}

// A bit.
fn put_bit(d: Drawing, a: usize, b: usize, v: Value, text: &mut [u8; 65536], pos: usize) -> usize
    requires a_bound { a < 512 }
    requires b_bound { b < 512 }
    ensures { filled text.new result ≡ puts (filled text.old pos) (bit_stretch d a b v) }
{
    if is_known(v) {
        return put_level(d, a, b, v.number, text, pos);
    }
    put_unknown(d, a, b, text, pos)
}

// The beginning of a box.
fn put_box_start(known: bool, x: usize, text: &mut [u8; 65536], pos: usize) -> usize
    ensures { filled text.new result ≡ puts (filled text.old pos) (measure (box_word known) x) }
{
    if known {
        return put_measure(b"</title><path class='b' d='M", x, text, pos);
    }
    put_measure(b"</title><path class='x' d='M", x, text, pos)
}

// The line around a box.
fn put_outline(
    d: Drawing,
    known: bool,
    a: usize,
    b: usize,
    text: &mut [u8; 65536],
    pos: usize,
) -> usize
    requires a_bound { a < 512 }
    requires b_bound { b < 512 }
    ensures { filled text.new result ≡ puts (filled text.old pos) (outline d known a b) }
{
    let from = at(d, a);
    let to = at(d, b).saturating_sub(4);
    let p = put_box_start(known, from, text, pos);
    let q = put_measure(b" 12l4-9H", to, text, p);
    put_measure(b"l4 9-4 9H", from + 4, text, q)
}

// The beginning of a value in its box.
fn put_text_start(known: bool, x: usize, text: &mut [u8; 65536], pos: usize) -> usize
    ensures { filled text.new result ≡ puts (filled text.old pos) (measure (text_word known) x) }
{
    if known {
        return put_measure(b"z'/><text x='", x, text, pos);
    }
    put_measure(b"z'/><text class='t' x='", x, text, pos)
}

// The width of a text of n characters, where its box is too narrow.
fn put_pressed(
    d: Drawing,
    a: usize,
    b: usize,
    n: usize,
    text: &mut [u8; 65536],
    pos: usize,
) -> usize
    requires a_bound { a < 512 }
    requires b_bound { b < 512 }
    ensures { filled text.new result ≡ puts (filled text.old pos) (pressed d a b n) }
{
    let room = at(d, b).saturating_sub(at(d, a)).saturating_sub(6);
    if room / 7 < n {
        let p = put_measure(b" textLength='", room, text, pos);
        return put_word(b"' lengthAdjust='spacingAndGlyphs'", text, p);
    }
    pos
}

// What stands in front of a value of n characters.
fn put_inscription(
    d: Drawing,
    known: bool,
    a: usize,
    b: usize,
    n: usize,
    text: &mut [u8; 65536],
    pos: usize,
) -> usize
    requires a_bound { a < 512 }
    requires b_bound { b < 512 }
    ensures { filled text.new result ≡ puts (filled text.old pos) (inscription d known a b n) }
{
    let x = middle(d, a, b);
    let p = put_text_start(known, x, text, pos);
    let q = put_word(b"' y='16'", text, p);
    let s = put_pressed(d, a, b, n, text, q);
    put_word(b">", text, s)
}

// A value of so many bits in its box.
fn put_box(
    d: Drawing,
    width: u8,
    a: usize,
    b: usize,
    v: Value,
    text: &mut [u8; 65536],
    pos: usize,
) -> usize
    requires a_bound { a < 512 }
    requires b_bound { b < 512 }
    ensures { filled text.new result ≡ puts (filled text.old pos) (box d width a b v) }
{
    let base = d.base;
    let known = is_known(v);
    let n = shown_length(base, width, v);
    let p = put_word(b"<g><title>", text, pos);
    let q = put_shown(base, width, v, text, p);
    let s = put_outline(d, known, a, b, text, q);
    let e = put_inscription(d, known, a, b, n, text, s);
    let f = put_shown(base, width, v, text, e);
    put_word(b"</text></g>\n", text, f)
}

// A value of so many bits.
fn put_stretch(
    d: Drawing,
    width: u8,
    a: usize,
    b: usize,
    v: Value,
    text: &mut [u8; 65536],
    pos: usize,
) -> usize
    requires a_bound { a < 512 }
    requires b_bound { b < 512 }
    ensures { filled text.new result ≡ puts (filled text.old pos) (stretch d width a b v) }
{
    if width == 1 {
        return put_bit(d, a, b, v, text, pos);
    }
    put_box(d, width, a, b, v, text, pos)
}

// ---- lanes

// The value of a variable in a half.
fn value_at(trace: &[u64], v: usize, h: usize) -> Value
    ensures { result ≡ value_in trace.now v h }
{
    value_in(row_of(trace, h), v)
}

// Does another value begin in a half?
fn begins(trace: &[u64], v: usize, h: usize) -> bool
    ensures { result ≡ begins (value_in trace.now v) h }
{
    if h == 0 {
        return true;
    }
    let old = value_at(trace, v, h - 1);
    let new = value_at(trace, v, h);
    !values::same(old, new)
}

// The first half from one on that has another value than a, before the end.
fn end_of(trace: &[u64], v: usize, a: Value, h: usize, end: usize) -> usize
    requires { h ≤ end }
    ensures value { result ≡ end_of (value_in trace.now v) a (end - h) h }
    ensures upper_bound { result ≤ end }
{
    for e in h..end {
        let b = value_at(trace, v, e);
        if !values::same(a, b) {
            return e;
        }
    }
    end
}

// The stretch of the value that begins in a half, if one does.
fn put_from(
    d: Drawing,
    width: u8,
    trace: &[u64],
    v: usize,
    h: usize,
    text: &mut [u8; 65536],
    pos: usize,
) -> usize
    requires { h < halves d }
    ensures { filled text.new result ≡ puts (filled text.old pos)
        (stretch_from d width (value_in trace.now v) h) }
{
    if !begins(trace, v, h) {
        return pos;
    }
    let a = value_at(trace, v, h);
    let end = halves(d);
    let e = end_of(trace, v, a, h + 1, end);
    put_stretch(d, width, h, e, a, text, pos)
}

// The stretches of a variable.
fn put_stretches(
    d: Drawing,
    width: u8,
    trace: &[u64],
    v: usize,
    text: &mut [u8; 65536],
    pos: usize,
) -> usize
    ensures { filled text.new result ≡ puts (filled text.old pos)
        (texts (stretch_from d width (value_in trace.now v)) (halves d) 0) }
{
    let end = halves(d);
    let mut p = pos;
    for h in 0..end {
        p = put_from(d, width, trace, v, h, text, p);
    }
    p
}

// The range of a variable of so many bits.
fn put_range(width: u8, text: &mut [u8; 65536], pos: usize) -> usize
    ensures { filled text.new result ≡ puts (filled text.old pos) (range width) }
{
    if width < 2 {
        return pos;
    }
    let p = put_measure(b"[", width as usize - 1, text, pos);
    put_word(b":0]", text, p)
}

// The name of lane i.
fn put_lane_name(
    d: Drawing,
    widths: &[u8],
    names: &[u8; 2560],
    v: usize,
    i: usize,
    text: &mut [u8; 65536],
    pos: usize,
) -> usize
    ensures { filled text.new result ≡ puts (filled text.old pos)
        (lane_name d widths.now names.now v i) }
{
    let y = 28 * naming::within(i) + 44;
    let p = put_measure(b"<text class='n' x='", d.left as usize, text, pos);
    let q = put_measure(b"' y='", y, text, p);
    let s = put_word(b"'>", text, q);
    let e = put_name(names, v, text, s);
    let f = put_range(byte_at(widths, v), text, e);
    put_word(b"</text>\n", text, f)
}

// The frame of lane i.
fn put_lane_frame(d: Drawing, i: usize, text: &mut [u8; 65536], pos: usize) -> usize
    ensures { filled text.new result ≡ puts (filled text.old pos) (lane_frame d i) }
{
    let y = 28 * naming::within(i) + 28;
    let x = across(d).saturating_sub(2);
    let p = put_measure(b"<svg x='", d.left as usize + 9, text, pos);
    let q = put_measure(b"' y='", y, text, p);
    let s = put_measure(b"' width='", x, text, q);
    let e = put_measure(b"' height='24' viewBox='1 0 ", x, text, s);
    put_word(b" 24'>\n", text, e)
}

// Lane i: a variable, from the rows of a trace, two for each cycle.
pub fn put_lane(
    d: Drawing,
    widths: &[u8],
    names: &[u8; 2560],
    trace: &[u64],
    v: usize,
    i: usize,
    text: &mut [u8; 65536],
    pos: usize,
) -> usize
    ensures { filled text.new result ≡ puts (filled text.old pos)
        (lane d widths.now names.now trace.now v i) }
{
    let p = put_lane_name(d, widths, names, v, i, text, pos);
    let q = put_lane_frame(d, i, text, p);
    let s = put_stretches(d, byte_at(widths, v), trace, v, text, q);
    put_word(b"</svg>\n", text, s)
}

// The foot of a drawing.
pub fn put_foot(text: &mut [u8; 65536], pos: usize) -> usize
    ensures { filled text.new result ≡ puts (filled text.old pos) foot }
{
    put_word(b"</svg>\n", text, pos)
}
