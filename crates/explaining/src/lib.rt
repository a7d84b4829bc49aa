// A thread explained (specs/Explaining.antt): for its start, and behind each of its waits, what it does up to its next wait, as
// statements, written into a lent buffer of 65,536 bytes.
// Every contract says: place in the sheet, wait's number, buffer and new position are what the definition leaves.
#![tactic(auto)]

ghost use Rattle.std.specs.Prelude.{◌≡◌, not, ◌&&◌, ◌||◌, true, ◌+◌, ◌<◌, ◌≤◌};
ghost use Rattle.writing.specs.Buffer.{filled, puts};
ghost use Rattle.naming.specs.Naming.{name_of};
ghost use Rattle.verilog.specs.Verilog.{◌&◌, indent, answer};
ghost use Rattle.explaining.specs.Explaining.{heading_text, explained};
ghost use Rattle.explaining.specs.Walking.{told, stage, said, deeper, sequence_at, if_at, if_else_at, while_at, forever_at};
ghost use Rattle.explaining.specs.Walking.{assign_line, condition_line, wait_line};
ghost use Rattle.explaining.specs.Walking.{assign_at, condition_at, wait_at, stmt_at, point_at, points_at, thread_at, body_at};
ghost use Rattle.pseudocode.specs.Filling.{after};

use naming::put_name;
use pseudocode::skip_expr;
use sheet::byte_at;
use verilog::{print_expr, put_indent, put_terms};
use writing::{put_decimal, put_word};

// A stage of the walk over a statement: the next place in the sheet, the number of the last wait before it, whether the wait that is
// looked for was seen, whether what is met is said, and the next position in the buffer.
#[derive(Clone, Copy)]
pub struct Walked {
    pub next: usize,
    pub waits: usize,
    pub seen: bool,
    pub on: bool,
    pub pos: usize,
}

// What explaining a thread gives: number 0 and the text's length, or the refusal's number and 0.
#[derive(Clone, Copy)]
pub struct Explained {
    pub number: u8,
    pub length: usize,
}

// A byte as a number of its own.
fn wide(b: u8) -> usize
    ensures { result ≡ b }
{
    b as usize
}

// ---- lines

// An assignment whose target stands at `at`.
fn put_assign(
    sheet: &[u8],
    definitions: &[usize; 8],
    at: usize,
    sign: &[u8],
    level: u8,
    names: &[u8; 2560],
    text: &mut [u8; 65536],
    pos: usize,
) -> usize
    requires { at < 9000 }
    ensures { filled text.new result ≡ puts (filled text.old pos)
        (assign_line (name_of names.now) sheet.now definitions.now sign.now level at) }
{
    let target = byte_at(sheet, at);
    let p = put_indent(level, text, pos);
    let q = put_name(names, wide(target), text, p);
    let w = put_word(sign, text, q);
    let e = print_expr(sheet, definitions, at + 1, 16, names, text, w);
    put_word(b";\n", text, e.pos)
}

// A condition at `at` and the beginning of a block.
fn put_condition(
    sheet: &[u8],
    definitions: &[usize; 8],
    at: usize,
    level: u8,
    names: &[u8; 2560],
    text: &mut [u8; 65536],
    pos: usize,
) -> usize
    ensures { filled text.new result ≡ puts (filled text.old pos)
        (condition_line (name_of names.now) sheet.now definitions.now level at) }
{
    let p = put_indent(level, text, pos);
    let w = put_word(b"if (", text, p);
    let e = print_expr(sheet, definitions, at, 16, names, text, w);
    put_word(b") begin\n", text, e.pos)
}

// The wait with this number, whose count stands at `at`.
fn put_wait(
    sheet: &[u8],
    at: usize,
    number: usize,
    level: u8,
    names: &[u8; 2560],
    text: &mut [u8; 65536],
    pos: usize,
) -> usize
    requires { at < 8999 }
    ensures { filled text.new result ≡ puts (filled text.old pos)
        (wait_line (name_of names.now) sheet.now number level at) }
{
    let n = byte_at(sheet, at);
    let p = put_indent(level, text, pos);
    let q = put_word(b"@(", text, p);
    let w = put_terms(sheet, at + 1, n, names, text, q);
    let x = put_word(b"); // wait ", text, w);
    let y = put_decimal(number, text, x);
    put_word(b"\n", text, y)
}

// ---- lines that are said, or aren't

fn say_assign(
    sheet: &[u8],
    definitions: &[usize; 8],
    at: usize,
    sign: &[u8],
    level: u8,
    names: &[u8; 2560],
    w: Walked,
    text: &mut [u8; 65536],
) -> usize
    requires { at < 9000 }
    ensures { filled text.new result ≡ said w.on (filled text.old w.pos)
        (assign_line (name_of names.now) sheet.now definitions.now sign.now level at) }
{
    if w.on {
        return put_assign(sheet, definitions, at, sign, level, names, text, w.pos);
    }
    w.pos
}

fn say_condition(
    sheet: &[u8],
    definitions: &[usize; 8],
    at: usize,
    level: u8,
    names: &[u8; 2560],
    w: Walked,
    text: &mut [u8; 65536],
) -> usize
    ensures { filled text.new result ≡ said w.on (filled text.old w.pos)
        (condition_line (name_of names.now) sheet.now definitions.now level at) }
{
    if w.on {
        return put_condition(sheet, definitions, at, level, names, text, w.pos);
    }
    w.pos
}

fn say_wait(
    sheet: &[u8],
    at: usize,
    number: usize,
    level: u8,
    names: &[u8; 2560],
    w: Walked,
    text: &mut [u8; 65536],
) -> usize
    requires { at < 8999 }
    ensures { filled text.new result ≡ said w.on (filled text.old w.pos)
        (wait_line (name_of names.now) sheet.now number level at) }
{
    if w.on {
        return put_wait(sheet, at, number, level, names, text, w.pos);
    }
    w.pos
}

// A word on a line of its own.
fn say_word(on: bool, word: &[u8], level: u8, text: &mut [u8; 65536], pos: usize) -> usize
    ensures { filled text.new result ≡
        said on (filled text.old pos) (indent level & word.now) }
{
    if on {
        let p = put_indent(level, text, pos);
        return put_word(word, text, p);
    }
    pos
}

// ---- statements; the walk stands behind the map

// An assignment.
fn walk_assign(
    sheet: &[u8],
    definitions: &[usize; 8],
    sign: &[u8],
    level: u8,
    names: &[u8; 2560],
    w: Walked,
    text: &mut [u8; 65536],
) -> Walked
    requires { w.next < 9000 }
    ensures { told result text.new ≡ assign_at (name_of names.now) sheet.now definitions.now
        sign.now level (told w text.old) }
{
    let at = w.next;
    let next = skip_expr(sheet, definitions, at + 1, 16);
    let pos = say_assign(sheet, definitions, at, sign, level, names, w, text);
    Walked {
        next,
        waits: w.waits,
        seen: w.seen,
        on: w.on,
        pos,
    }
}

// The condition of an if or a while.
fn walk_condition(
    sheet: &[u8],
    definitions: &[usize; 8],
    level: u8,
    names: &[u8; 2560],
    w: Walked,
    text: &mut [u8; 65536],
) -> Walked
    ensures { told result text.new ≡ condition_at (name_of names.now) sheet.now definitions.now level
        (told w text.old) }
{
    let at = w.next;
    let next = skip_expr(sheet, definitions, at, 16);
    let pos = say_condition(sheet, definitions, at, level, names, w, text);
    Walked {
        next,
        waits: w.waits,
        seen: w.seen,
        on: w.on,
        pos,
    }
}

// The number after a wait's number.
fn after(n: usize) -> usize
    ensures { result ≡ after n }
{
    if n < 256 { n + 1 } else { n }
}

// Is one of two facts so?
fn either(a: bool, b: bool) -> bool
    ensures { result ≡ (a || b) }
{
    if a {
        return true;
    }
    b
}

// Is the second fact so, and not the first?
fn only(a: bool, b: bool) -> bool
    ensures { result ≡ (not a && b) }
{
    if a {
        return false;
    }
    b
}

// A wait: the thread stops there; from wait `k` it goes on.
fn walk_wait(
    sheet: &[u8],
    k: usize,
    level: u8,
    names: &[u8; 2560],
    w: Walked,
    text: &mut [u8; 65536],
) -> Walked
    requires { w.next < 8999 }
    ensures { told result text.new ≡ wait_at (name_of names.now) sheet.now k level
        (told w text.old) }
{
    let at = w.next;
    let n = after(w.waits);
    let count = byte_at(sheet, at);
    let pos = say_wait(sheet, at, n, level, names, w, text);
    let here = n == k;
    Walked {
        next: at + 1 + 2 * wide(count),
        waits: n,
        seen: either(w.seen, here),
        on: only(w.seen, here),
        pos,
    }
}

// The level of a body.
fn deeper(on: bool, level: u8) -> u8
    requires { level < 255 }
    ensures { result ≡ deeper on level }
{
    if on { level + 1 } else { level }
}

// Two statements, one after the other.
#[cycle(walk_walk_forever_walk_if_walk_if_else_walk_sequence_walk_while)]
fn walk_sequence(
    sheet: &[u8],
    definitions: &[usize; 8],
    k: usize,
    depth: u8,
    level: u8,
    names: &[u8; 2560],
    w: Walked,
    text: &mut [u8; 65536],
) -> Walked
    requires { level + depth < 128 }
    ensures { told result text.new ≡ sequence_at
        (stmt_at (name_of names.now) sheet.now definitions.now k depth) level (told w text.old) }
{
    let a = walk(sheet, definitions, k, depth, level, names, w, text);
    walk(sheet, definitions, k, depth, level, names, a, text)
}

// An if.
#[cycle(walk_walk_forever_walk_if_walk_if_else_walk_sequence_walk_while)]
fn walk_if(
    sheet: &[u8],
    definitions: &[usize; 8],
    k: usize,
    depth: u8,
    level: u8,
    names: &[u8; 2560],
    w: Walked,
    text: &mut [u8; 65536],
) -> Walked
    requires { level + depth < 128 }
    ensures { told result text.new ≡ if_at (condition_at (name_of names.now) sheet.now definitions.now)
        (stmt_at (name_of names.now) sheet.now definitions.now k depth) level (told w text.old) }
{
    let c = walk_condition(sheet, definitions, level, names, w, text);
    let inner = deeper(w.on, level);
    let a = walk(sheet, definitions, k, depth, inner, names, c, text);
    let pos = say_word(w.on, b"end\n", level, text, a.pos);
    Walked {
        next: a.next,
        waits: a.waits,
        seen: a.seen,
        on: either(w.on, a.on),
        pos,
    }
}

// An if-else.
#[cycle(walk_walk_forever_walk_if_walk_if_else_walk_sequence_walk_while)]
fn walk_if_else(
    sheet: &[u8],
    definitions: &[usize; 8],
    k: usize,
    depth: u8,
    level: u8,
    names: &[u8; 2560],
    w: Walked,
    text: &mut [u8; 65536],
) -> Walked
    requires { level + depth < 128 }
    ensures { told result text.new ≡ if_else_at (condition_at (name_of names.now) sheet.now definitions.now)
        (stmt_at (name_of names.now) sheet.now definitions.now k depth) level (told w text.old) }
{
    let c = walk_condition(sheet, definitions, level, names, w, text);
    let inner = deeper(w.on, level);
    let a = walk(sheet, definitions, k, depth, inner, names, c, text);
    let middle = say_word(w.on, b"end else begin\n", level, text, a.pos);
    let second = Walked {
        next: a.next,
        waits: a.waits,
        seen: a.seen,
        on: w.on,
        pos: middle,
    };
    let b = walk(sheet, definitions, k, depth, inner, names, second, text);
    let pos = say_word(w.on, b"end\n", level, text, b.pos);
    Walked {
        next: b.next,
        waits: b.waits,
        seen: b.seen,
        on: either(a.on, b.on),
        pos,
    }
}

// A while: an if, and once more where the wait was seen in its body and the thread goes on behind it.
#[cycle(walk_walk_forever_walk_if_walk_if_else_walk_sequence_walk_while)]
fn walk_while(
    sheet: &[u8],
    definitions: &[usize; 8],
    k: usize,
    depth: u8,
    level: u8,
    names: &[u8; 2560],
    w: Walked,
    text: &mut [u8; 65536],
) -> Walked
    requires { level + depth < 128 }
    ensures { told result text.new ≡ while_at (condition_at (name_of names.now) sheet.now definitions.now)
        (stmt_at (name_of names.now) sheet.now definitions.now k depth) level (told w text.old) }
{
    let a = walk_if(sheet, definitions, k, depth, level, names, w, text);
    if only(w.seen, a.on) {
        let again = Walked {
            next: w.next,
            waits: w.waits,
            seen: true,
            on: true,
            pos: a.pos,
        };
        return walk_if(sheet, definitions, k, depth, level, names, again, text);
    }
    a
}

// A forever: its body, and once more where the wait was seen in it and the thread goes on behind it.
#[cycle(walk_walk_forever_walk_if_walk_if_else_walk_sequence_walk_while)]
fn walk_forever(
    sheet: &[u8],
    definitions: &[usize; 8],
    k: usize,
    depth: u8,
    level: u8,
    names: &[u8; 2560],
    w: Walked,
    text: &mut [u8; 65536],
) -> Walked
    requires { level + depth < 128 }
    ensures { told result text.new ≡ forever_at
        (stmt_at (name_of names.now) sheet.now definitions.now k depth) level (told w text.old) }
{
    let a = walk(sheet, definitions, k, depth, level, names, w, text);
    if only(w.seen, a.on) {
        let again = Walked {
            next: w.next,
            waits: w.waits,
            seen: true,
            on: true,
            pos: a.pos,
        };
        return walk(sheet, definitions, k, depth, level, names, again, text);
    }
    a
}

// The statement at a place of the sheet, with so many levels left; wait `k` is looked for.
#[cycle(walk_walk_forever_walk_if_walk_if_else_walk_sequence_walk_while)]
fn walk(
    sheet: &[u8],
    definitions: &[usize; 8],
    k: usize,
    depth: u8,
    level: u8,
    names: &[u8; 2560],
    w: Walked,
    text: &mut [u8; 65536],
) -> Walked
    requires { level + depth ≤ 128 }
    ensures { told result text.new ≡
        stmt_at (name_of names.now) sheet.now definitions.now k depth level (told w text.old) }
{
    if depth == 0 {
        return w;
    }
    let at = w.next;
    if 8192 <= at {
        return w;
    }
    let map = byte_at(sheet, at);
    let inside = Walked {
        next: at + 1,
        waits: w.waits,
        seen: w.seen,
        on: w.on,
        pos: w.pos,
    };
    match map {
        0x00 => inside,
        0x03 => walk_assign(sheet, definitions, b" = ", level, names, inside, text),
        0x23 => walk_assign(sheet, definitions, b" <= ", level, names, inside, text),
        0x0C => walk_sequence(sheet, definitions, k, depth - 1, level, names, inside, text),
        0x06 => walk_if(sheet, definitions, k, depth - 1, level, names, inside, text),
        0x0E => walk_if_else(sheet, definitions, k, depth - 1, level, names, inside, text),
        0x46 => walk_while(sheet, definitions, k, depth - 1, level, names, inside, text),
        0x44 => walk_forever(sheet, definitions, k, depth - 1, level, names, inside, text),
        0x10 => walk_wait(sheet, k, level, names, inside, text),
        _ => w,
    }
}

// ---- a thread, whose statement stands at `at`

// The line above what is done from wait `k` on, from the start for 0.
fn put_heading(k: usize, text: &mut [u8; 65536], pos: usize) -> usize
    ensures { filled text.new result ≡ puts (filled text.old pos) (heading_text k) }
{
    if k == 0 {
        return put_word(b"  from the start:\n", text, pos);
    }
    let p = put_word(b"  from wait ", text, pos);
    let q = put_decimal(k, text, p);
    put_word(b":\n", text, q)
}

// What is done from wait `k` on, from the start for 0.
fn print_point(
    sheet: &[u8],
    definitions: &[usize; 8],
    at: usize,
    k: usize,
    names: &[u8; 2560],
    text: &mut [u8; 65536],
    pos: usize,
) -> Walked
    ensures { told result text.new ≡
        point_at (name_of names.now) sheet.now definitions.now k at (filled text.old pos) }
{
    let p = put_heading(k, text, pos);
    let start = k == 0;
    let w = Walked {
        next: at,
        waits: 0,
        seen: start,
        on: start,
        pos: p,
    };
    walk_forever(sheet, definitions, k, 64, 2, names, w, text)
}

// What is done from each of the first `n` waits on.
fn print_points(
    sheet: &[u8],
    definitions: &[usize; 8],
    at: usize,
    n: usize,
    names: &[u8; 2560],
    text: &mut [u8; 65536],
    pos: usize,
) -> usize
    ensures { filled text.new result ≡
        points_at (name_of names.now) sheet.now definitions.now n 1 at (filled text.old pos) }
{
    let mut p = pos;
    for k in 0..n {
        let w = print_point(sheet, definitions, at, k + 1, names, text, p);
        p = w.pos;
    }
    p
}

// The thread with this number.
fn print_thread(
    sheet: &[u8],
    definitions: &[usize; 8],
    at: usize,
    thread: usize,
    names: &[u8; 2560],
    text: &mut [u8; 65536],
) -> usize
    ensures { filled text.new result ≡
        thread_at (name_of names.now) sheet.now definitions.now thread at (filled text.old 0) }
{
    let p = put_word(b"thread ", text, 0);
    let q = put_decimal(thread, text, p);
    let e = put_word(b"\n", text, q);
    let w = print_point(sheet, definitions, at, 0, names, text, e);
    print_points(sheet, definitions, at, w.waits, names, text, w.pos)
}

// The place of a thread's statement, the first one's being at `body`.
fn body_at(sheet: &[u8], definitions: &[usize; 8], body: usize, thread: usize) -> usize
    ensures { result ≡ body_at sheet.now definitions.now thread body }
{
    let mut at = body;
    for _ in 0..thread {
        let w = rules::walk(sheet, definitions, at, 64);
        at = w.next;
    }
    at
}

// ---- the call

// A thread of a sheet explained, at the front of the buffer; the variables have the table's names. What would pass the buffer's end
// isn't put. A refused sheet, and a thread that doesn't meet rule 17 (17, past the last thread too), leave the buffer as it was.
pub fn explain(sheet: &[u8], names: &[u8; 2560], thread: usize, text: &mut [u8; 65536]) -> Explained
    ensures { answer result.number (filled text.new result.length) ≡
        explained sheet.now names.now text.old thread }
{
    let read = sheet::read(sheet);
    let number = read.number;
    if number != 0 {
        return Explained { number, length: 0 };
    }
    let l = read.layout;
    if wide(l.threads) <= thread {
        return Explained {
            number: 17,
            length: 0,
        };
    }
    let definitions = l.definitions;
    let at = body_at(sheet, &definitions, l.body, thread);
    let w = rules::walk(sheet, &definitions, at, 64);
    if !rules::both(w.surely, w.loops) {
        return Explained {
            number: 17,
            length: 0,
        };
    }
    let length = print_thread(sheet, &definitions, at, thread, names, text);
    Explained { number: 0, length }
}
