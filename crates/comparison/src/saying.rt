// A verdict in words.
ghost use Rattle.std.specs.Prelude.{◌≡◌};
ghost use Rattle.writing.specs.Buffer.{filled, puts};
ghost use Rattle.comparison.specs.Saying.{by_order, variable_line, place_line, difference_line, agreement_line, verdict_line};

use crate::{Difference, Verdict};
use naming::put_name;
use sheet::byte_at;
use tabulate::put_shown;
use values::Value;
use writing::{put_decimal, put_word};

// Which order it was: the plain run, or that of a seed.
fn put_order(order: usize, text: &mut [u8; 65536], pos: usize) -> usize
    ensures { filled text.new result ≡ puts (filled text.old pos) (by_order order) }
{
    if order == 0 {
        return put_word(b" by the plain run", text, pos);
    }
    let p = put_word(b" by the order of seed ", text, pos);
    put_decimal(order, text, p)
}

// A difference in a register or a wire.
fn put_variable(
    widths: &[u8],
    names: &[u8; 2560],
    order: usize,
    v: usize,
    here: Value,
    there: Value,
    text: &mut [u8; 65536],
    pos: usize,
) -> usize
    ensures { filled text.new result ≡ puts (filled text.old pos)
        (variable_line widths.now names.now order v here there) }
{
    let width = byte_at(widths, v);
    let p = put_name(names, v, text, pos);
    let q = put_word(b" is ", text, p);
    let r = put_shown(10, width, here, text, q);
    let s = put_order(order, text, r);
    let t = put_word(b" and ", text, s);
    let u = put_shown(10, width, there, text, t);
    put_word(b" by the expressions\n", text, u)
}

// A difference in a place.
fn put_place(order: usize, thread: usize, text: &mut [u8; 65536], pos: usize) -> usize
    ensures { filled text.new result ≡ puts (filled text.old pos) (place_line order thread) }
{
    let p = put_word(b"thread ", text, pos);
    let q = put_decimal(thread, text, p);
    let r = put_word(b" waits elsewhere", text, q);
    let s = put_order(order, text, r);
    put_word(b" than by the expressions\n", text, s)
}

// A difference.
fn put_difference(
    widths: &[u8],
    names: &[u8; 2560],
    order: usize,
    d: Difference,
    text: &mut [u8; 65536],
    pos: usize,
) -> usize
    ensures { filled text.new result ≡ puts (filled text.old pos)
        (difference_line widths.now names.now order d) }
{
    match d {
        Difference::Nowhere => pos,
        Difference::Variable {
            variable,
            here,
            there,
        } => put_variable(widths, names, order, variable, here, there, text, pos),
        Difference::Place(thread) => put_place(order, thread, text, pos),
    }
}

// Agreement over n cycles, or that there was none.
fn put_agreement(n: usize, text: &mut [u8; 65536], pos: usize) -> usize
    ensures { filled text.new result ≡ puts (filled text.old pos) (agreement_line n) }
{
    if n == 0 {
        return put_word(
            b"there was nothing to compare: the inputs have no cycle\n",
            text,
            pos,
        );
    }
    let p = put_word(b"compared ", text, pos);
    let q = put_decimal(n, text, p);
    let r = put_word(
        b" cycles: the plain run, the orders of seeds 1 and 2 and the expressions",
        text,
        q,
    );
    put_word(b" agree in every register, wire and place\n", text, r)
}

// The verdict, on variables of these widths and names.
pub fn put_verdict(
    widths: &[u8],
    names: &[u8; 2560],
    v: Verdict,
    text: &mut [u8; 65536],
    pos: usize,
) -> usize
    ensures { filled text.new result ≡ puts (filled text.old pos)
        (verdict_line widths.now names.now v) }
{
    match v {
        Verdict::Agreed(n) => put_agreement(n, text, pos),
        Verdict::Differs {
            cycle,
            order,
            difference,
        } => {
            let p = put_word(b"cycle ", text, pos);
            let q = put_decimal(cycle, text, p);
            let r = put_word(b": ", text, q);
            put_difference(widths, names, order, difference, text, r)
        }
    }
}
