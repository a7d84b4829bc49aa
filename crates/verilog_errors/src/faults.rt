// Which of 43's rules a name breaks, in words.
ghost use Rattle.std.specs.Prelude.{◌≡◌, ◌≤◌, ◌<◌, get_or};
ghost use Rattle.writing.specs.Buffer.{filled, puts};
ghost use Rattle.verilog_names.specs.Chosen.{capped};
ghost use Rattle.verilog_names.specs.Order.{next_of};
ghost use Rattle.verilog_errors.specs.Faults.{breaks, is_named, first_named, of_target, of_declared, broken_by, broken_at};
ghost use Rattle.verilog_errors.specs.Faults.{opening, closing, line_of_first, broken_words, fault_words};

use crate::Broken;
use crate::choices::short;
use crate::found::put_quoted;
use crate::spots::spot_of;
use verilog_items::read;
use verilog_scan::scan;
use writing::put_decimal;

// A count as a number of tokens; a table has 16,385 entries.
fn capped(count: u16) -> usize
    ensures { (result ≡ capped count) × (result ≤ 16385) }
{
    let n = count as usize;
    if n < 16385 { n } else { 16385 }
}

// A rule, and the place of a name.
fn breaks(rule: u8, first: usize) -> Broken
    ensures { result ≡ breaks rule first }
{
    Broken { rule, first }
}

// ---- names with a role

// Is the token such a name with a role of these?
#[tactic(auto, unfolding(crate::specs::Faults::is_named))]
fn is_named(
    numbers: &[u32; 16385],
    roles: &[u8; 16385],
    low: u8,
    high: u8,
    id: u32,
    i: usize,
) -> bool
    requires { i < 16385 }
    ensures { result ≡ is_named numbers.now roles.now low high id i }
{
    low <= roles[i] && roles[i] <= high && numbers[i] == id
}

// The first of n tokens that is; n where none is.
fn first_named(
    numbers: &[u32; 16385],
    roles: &[u8; 16385],
    n: usize,
    low: u8,
    high: u8,
    id: u32,
) -> usize
    requires { n ≤ 16385 }
    ensures { (result ≡ first_named numbers.now roles.now n low high id) × (result ≤ n) }
{
    for i in 0..n {
        if is_named(numbers, roles, low, high, id, i) {
            return i;
        }
    }
    n
}

// The token at a place; n where none of n is.
fn token_at(places: &[u16; 16385], n: usize, place: usize) -> usize
    requires { n ≤ 16385 }
    ensures { (result ≡ next_of places.now n place 0) × (result ≤ n) }
{
    for i in 0..n {
        if places[i] as usize == place {
            return i;
        }
    }
    n
}

// ---- the rule

// Of the target of an `assign`, whose name is declared.
fn of_target(
    numbers: &[u32; 16385],
    places: &[u16; 16385],
    roles: &[u8; 16385],
    n: usize,
    t: usize,
) -> Broken
    requires { (n ≤ 16385) × (t < n) }
    ensures { result ≡ of_target numbers.now places.now roles.now n t }
{
    let w = first_named(numbers, roles, n, 3, 3, numbers[t]);
    if n <= w {
        return breaks(4, 0);
    }
    let f = first_named(numbers, roles, n, 4, 4, numbers[t]);
    if f < t {
        return breaks(5, places[f] as usize);
    }
    breaks(0, 0)
}

// Of a name where it is declared, whose first declaration is token f.
fn of_declared(
    numbers: &[u32; 16385],
    places: &[u16; 16385],
    roles: &[u8; 16385],
    n: usize,
    t: usize,
    f: usize,
) -> Broken
    requires { (n ≤ 16385) × (t < n) × (f ≤ n) }
    ensures { result ≡ of_declared numbers.now places.now roles.now n t f }
{
    if f < t {
        return breaks(2, places[f] as usize);
    }
    if roles[t] != 3 {
        return breaks(0, 0);
    }
    let d = first_named(numbers, roles, n, 4, 4, numbers[t]);
    if n <= d {
        return breaks(3, 0);
    }
    breaks(0, 0)
}

// Of any token.
fn broken_by(
    numbers: &[u32; 16385],
    places: &[u16; 16385],
    roles: &[u8; 16385],
    n: usize,
    t: usize,
) -> Broken
    requires { (n ≤ 16385) × (t < n) }
    ensures { result ≡ broken_by numbers.now places.now roles.now n t }
{
    let f = first_named(numbers, roles, n, 1, 3, numbers[t]);
    if n <= f {
        return breaks(1, 0);
    }
    if roles[t] == 4 {
        return of_target(numbers, places, roles, n, t);
    }
    of_declared(numbers, places, roles, n, t, f)
}

// Of the token at a place.
fn broken_at(
    numbers: &[u32; 16385],
    places: &[u16; 16385],
    roles: &[u8; 16385],
    count: u16,
    place: usize,
) -> Broken
    ensures { result ≡ broken_at numbers.now places.now roles.now (capped count) place }
{
    let n = capped(count);
    let t = token_at(places, n, place);
    if n <= t {
        return breaks(0, 0);
    }
    broken_by(numbers, places, roles, n, t)
}

// ---- the words

// What stands before the name.
fn put_opening(rule: u8, out: &mut [u8; 65536], pos: usize) -> usize
    ensures { filled out.new result ≡ puts (filled out.old pos) (opening rule) }
{
    reasons::put_line(b"\n\n\nwire \nassign to \nwire ", rule as usize, out, pos)
}

// What stands behind it.
fn put_closing(rule: u8, out: &mut [u8; 65536], pos: usize) -> usize
    ensures { filled out.new result ≡ puts (filled out.old pos) (closing rule) }
{
    reasons::put_line(
        b"\n is not declared\n is declared twice, first at line \n has no assign\n, which is no wire\n has two assigns, first at line ",
        rule as usize,
        out,
        pos,
    )
}

// The line of the first one, for 2 and 5.
fn put_first(text: &[u8], b: Broken, out: &mut [u8; 65536], pos: usize) -> usize
    ensures { filled out.new result ≡ puts (filled out.old pos) (line_of_first text.now b) }
{
    let s = spot_of(text, b.first);
    if b.rule == 2 {
        return put_decimal(s.line, out, pos);
    }
    if b.rule == 5 {
        return put_decimal(s.line, out, pos);
    }
    pos
}

// The name and its rule.
fn put_broken(text: &[u8], place: usize, b: Broken, out: &mut [u8; 65536], pos: usize) -> usize
    ensures { filled out.new result ≡ puts (filled out.old pos) (broken_words text.now place b) }
{
    let p = put_opening(b.rule, out, pos);
    let q = put_quoted(text, place, out, p);
    let r = put_closing(b.rule, out, q);
    put_first(text, b, out, r)
}

// Which of 43's rules the name at a place breaks.
pub fn put_fault(text: &[u8], place: usize, out: &mut [u8; 65536], pos: usize) -> usize
    ensures { filled out.new result ≡ puts (filled out.old pos) (fault_words text.now place) }
{
    let mut kinds = [0u8; 16385];
    let mut numbers = [0u32; 16385];
    let mut places = [0u16; 16385];
    let count = short(scan(text, &mut kinds, &mut numbers, &mut places));
    let mut parts = [0u8; 65536];
    let mut roles = [0u8; 16385];
    let mut widths = [0u8; 16385];
    read(&kinds, &numbers, count, &mut parts, &mut roles, &mut widths);
    let b = broken_at(&numbers, &places, &roles, count, place);
    put_broken(text, place, b, out, pos)
}
