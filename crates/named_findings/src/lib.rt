// What breaks a rule of extraction: in words with the names of the variables, put into a lent buffer, and which item of a Verilog text it
// is. Each function equals its definition in specs/. The words without a variable are those of `findings`.
#![tactic(auto)]

mod items;

ghost use Rattle.std.specs.Prelude.{◌≡◌};
ghost use Rattle.writing.specs.Buffer.{filled, puts};
ghost use Rattle.named_findings.specs.Findings.{variable, counted, named, other_words, register_words, clock_words, wire_words, witness_words};

pub use items::{item_of, waits_before};
use naming::put_name;
use witness::Witness;
use writing::{put_decimal, put_word};

// A variable's number: the first of its kind and its number within the kind; the table of names has 80.
fn variable(first: u8, k: usize) -> usize
    ensures { result ≡ variable first k }
{
    if k < 80 { first as usize + k } else { 80 }
}

// A word and a number.
fn put_counted(a: &[u8], n: usize, text: &mut [u8; 65536], pos: usize) -> usize
    ensures { filled text.new result ≡ puts (filled text.old pos) (counted a.now n) }
{
    let p = put_word(a, text, pos);
    put_decimal(n, text, p)
}

// A word and a variable's name.
fn put_named(a: &[u8], names: &[u8; 2560], v: usize, text: &mut [u8; 65536], pos: usize) -> usize
    ensures { filled text.new result
        ≡ puts (filled text.old pos) (named a.now names.now v) }
{
    let p = put_word(a, text, pos);
    put_name(names, v, text, p)
}

// Who else is concerned with a register that is written.
fn put_other(w: Witness, names: &[u8; 2560], wires: u8, text: &mut [u8; 65536], pos: usize) -> usize
    ensures { filled text.new result
        ≡ puts (filled text.old pos) (other_words names.now wires w) }
{
    if w.number == 12 {
        let p = put_counted(b"threads ", w.thread, text, pos);
        return put_counted(b" and ", w.other, text, p);
    }
    let p = put_counted(b"= in thread ", w.thread, text, pos);
    if w.number == 13 {
        return put_counted(b" and by <= in thread ", w.other, text, p);
    }
    if w.wired {
        let v = variable(wires, w.wire);
        return put_named(b" and read by wire ", names, v, text, p);
    }
    put_counted(b" and read by thread ", w.other, text, p)
}

// A register that is written.
fn put_register(
    w: Witness,
    names: &[u8; 2560],
    registers: u8,
    wires: u8,
    text: &mut [u8; 65536],
    pos: usize,
) -> usize
    ensures { filled text.new result
        ≡ puts (filled text.old pos) (register_words names.now registers wires w) }
{
    let v = variable(registers, w.register);
    let p = put_named(b"register ", names, v, text, pos);
    let q = put_word(b" is written by ", text, p);
    put_other(w, names, wires, text, q)
}

// Who reads the clock.
fn put_clock(w: Witness, names: &[u8; 2560], wires: u8, text: &mut [u8; 65536], pos: usize) -> usize
    ensures { filled text.new result
        ≡ puts (filled text.old pos) (clock_words names.now wires w) }
{
    if w.wired {
        let v = variable(wires, w.wire);
        let p = put_named(b"wire ", names, v, text, pos);
        return put_named(b" reads ", names, 0, text, p);
    }
    let p = put_counted(b"thread ", w.thread, text, pos);
    let q = put_named(b" reads ", names, 0, text, p);
    put_counted(b" at place ", w.place, text, q)
}

// A wire and the one that it reads.
fn put_wire(w: Witness, names: &[u8; 2560], wires: u8, text: &mut [u8; 65536], pos: usize) -> usize
    ensures { filled text.new result
        ≡ puts (filled text.old pos) (wire_words names.now wires w) }
{
    let v = variable(wires, w.wire);
    let p = put_named(b"wire ", names, v, text, pos);
    let u = variable(wires, w.above);
    put_named(b" reads ", names, u, text, p)
}

// What breaks a rule: registers and wires begin with these variables.
pub fn put_witness(
    w: Witness,
    names: &[u8; 2560],
    registers: u8,
    wires: u8,
    text: &mut [u8; 65536],
    pos: usize,
) -> usize
    ensures { filled text.new result
        ≡ puts (filled text.old pos) (witness_words names.now registers wires w) }
{
    if w.number < 15 {
        return put_register(w, names, registers, wires, text, pos);
    }
    if w.number == 18 {
        return put_clock(w, names, wires, text, pos);
    }
    if w.number == 19 {
        return put_wire(w, names, wires, text, pos);
    }
    findings::put_witness(w, text, pos)
}
