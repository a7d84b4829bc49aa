// What is found wrong, in words: each function puts the words of its definition in specs/ into a lent buffer.
#![tactic(auto)]

ghost use Rattle.std.specs.Prelude.{◌≡◌};
ghost use Rattle.writing.specs.Buffer.{filled, puts};
ghost use Rattle.findings.specs.Findings.{hex_words, input_words, name_words, two};
ghost use Rattle.findings.specs.Findings.{thread_words, other_words, register_words, wait_words, clock_words, rest_words, witness_words};

use witness::Witness;
use writing::{put_decimal, put_word};

// ---- lines

// What is wrong with hexadecimal text.
pub fn put_hex_error(error: u8, text: &mut [u8; 65536], pos: usize) -> usize
    ensures { filled text.new result ≡ puts (filled text.old pos) (hex_words error) }
{
    match error {
        1 => put_word(b"no hexadecimal digit\n", text, pos),
        _ => put_word(b"a digit without its second\n", text, pos),
    }
}

// What is wrong with a line of inputs.
pub fn put_input_error(error: u8, text: &mut [u8; 65536], pos: usize) -> usize
    ensures { filled text.new result ≡ puts (filled text.old pos) (input_words error) }
{
    match error {
        2 => put_word(
            b"no value: decimal, 0x and hexadecimal, bits as b1x0 or 4'b1x0, or x is allowed\n",
            text,
            pos,
        ),
        3 => put_word(b"too wide for its input\n", text, pos),
        4 => put_word(
            b"too few values: one for each input but the clock is allowed\n",
            text,
            pos,
        ),
        _ => put_word(
            b"too many values: one for each input but the clock is allowed, - where there is none\n",
            text,
            pos,
        ),
    }
}

// What is wrong with a line of names.
pub fn put_name_error(error: u8, text: &mut [u8; 65536], pos: usize) -> usize
    ensures { filled text.new result ≡ puts (filled text.old pos) (name_words error) }
{
    match error {
        2 => put_word(b"no such variable\n", text, pos),
        3 => put_word(
            b"a name that is not allowed: 1 to 31 letters, digits and _, no digit first\n",
            text,
            pos,
        ),
        _ => put_word(b"another variable has this name\n", text, pos),
    }
}

// ---- rules

// Two words, each with a number behind it.
fn put_two<'a>(
    a: &'a [u8],
    m: usize,
    b: &'a [u8],
    n: usize,
    text: &mut [u8; 65536],
    pos: usize,
) -> usize
    ensures { filled text.new result
        ≡ puts (filled text.old pos) (two a.now m b.now n) }
{
    let p = put_word(a, text, pos);
    let q = put_decimal(m, text, p);
    let r = put_word(b, text, q);
    put_decimal(n, text, r)
}

// Who else is concerned with a register that is written.
fn put_other(w: Witness, text: &mut [u8; 65536], pos: usize) -> usize
    ensures { filled text.new result ≡ puts (filled text.old pos) (other_words w) }
{
    if w.number == 12 {
        return put_two(b"threads ", w.thread, b" and ", w.other, text, pos);
    }
    if w.number == 13 {
        return put_two(
            b"= in thread ",
            w.thread,
            b" and by <= in thread ",
            w.other,
            text,
            pos,
        );
    }
    if w.wired {
        return put_two(
            b"= in thread ",
            w.thread,
            b" and read by wire w",
            w.wire,
            text,
            pos,
        );
    }
    put_two(
        b"= in thread ",
        w.thread,
        b" and read by thread ",
        w.other,
        text,
        pos,
    )
}

// A register that is written.
fn put_register(w: Witness, text: &mut [u8; 65536], pos: usize) -> usize
    ensures { filled text.new result ≡ puts (filled text.old pos) (register_words w) }
{
    let p = put_word(b"register r", text, pos);
    let q = put_decimal(w.register, text, p);
    let r = put_word(b" is written by ", text, q);
    put_other(w, text, r)
}

// A wait.
fn put_wait(w: Witness, text: &mut [u8; 65536], pos: usize) -> usize
    ensures { filled text.new result ≡ puts (filled text.old pos) (wait_words w) }
{
    if w.number == 15 {
        return put_two(
            b"the wait at thread ",
            w.thread,
            b", place ",
            w.place,
            text,
            pos,
        );
    }
    if w.number == 20 {
        return put_two(
            b"the 33rd wait at thread ",
            w.thread,
            b", place ",
            w.place,
            text,
            pos,
        );
    }
    let p = put_two(
        b"the walk from the wait at thread ",
        w.thread,
        b", place ",
        w.place,
        text,
        pos,
    );
    put_word(b" asks for one more", text, p)
}

// Who reads the clock.
fn put_clock(w: Witness, text: &mut [u8; 65536], pos: usize) -> usize
    ensures { filled text.new result ≡ puts (filled text.old pos) (clock_words w) }
{
    if w.wired {
        let p = put_word(b"wire w", text, pos);
        let q = put_decimal(w.wire, text, p);
        return put_word(b" reads i0", text, q);
    }
    put_two(
        b"thread ",
        w.thread,
        b" reads i0 at place ",
        w.place,
        text,
        pos,
    )
}

// A thread.
fn put_thread(thread: usize, text: &mut [u8; 65536], pos: usize) -> usize
    ensures { filled text.new result ≡ puts (filled text.old pos) (thread_words thread) }
{
    let p = put_word(b"thread ", text, pos);
    put_decimal(thread, text, p)
}

// What concerns no register.
fn put_rest(w: Witness, text: &mut [u8; 65536], pos: usize) -> usize
    ensures { filled text.new result ≡ puts (filled text.old pos) (rest_words w) }
{
    if w.number == 18 {
        return put_clock(w, text, pos);
    }
    if w.number == 19 {
        return put_two(b"wire w", w.wire, b" reads w", w.above, text, pos);
    }
    if w.number == 16 {
        return put_thread(w.thread, text, pos);
    }
    if w.number == 17 {
        return put_thread(w.thread, text, pos);
    }
    put_wait(w, text, pos)
}

// What breaks a rule.
pub fn put_witness(w: Witness, text: &mut [u8; 65536], pos: usize) -> usize
    ensures { filled text.new result ≡ puts (filled text.old pos) (witness_words w) }
{
    if w.number == 12 {
        return put_register(w, text, pos);
    }
    if w.number == 13 {
        return put_register(w, text, pos);
    }
    if w.number == 14 {
        return put_register(w, text, pos);
    }
    put_rest(w, text, pos)
}
