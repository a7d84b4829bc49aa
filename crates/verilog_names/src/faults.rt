// Names at fault (43).
ghost use Rattle.std.specs.Prelude.{◌≡◌, [], ◌≤◌, ◌<◌, get_or};
ghost use Rattle.values.specs.Values.{pick};
ghost use Rattle.verilog_source.specs.Names.{lower};
ghost use Rattle.verilog_names.specs.Chosen.{capped, here, chosen, is_in};
ghost use Rattle.verilog_names.specs.Faults.{is_among, marked, marks, lacks, missing, repeated, nearest, fault_of};

use crate::numbers::enter_id;
use crate::tokens::is_in;
use crate::{Class, Fault};

// The lower of two places. It stays a function: with `.min()` in place the proofs of its callers didn't close.
fn lower(a: usize, b: usize) -> usize
    ensures { result ≡ lower a b }
{
    if b < a { b } else { a }
}

// A place as a number. It stays a function: proofs of its callers need the bound, and with a cast in place they didn't close.
fn spot(p: u16) -> usize
    ensures { (result ≡ p) × (result < 65536) }
{
    p as usize
}

// Is the token of that class, and such a name?
fn is_such(
    kinds: &[u8; 16385],
    numbers: &[u32; 16385],
    roles: &[u8; 16385],
    class: Class,
    id: u32,
    i: usize,
) -> bool
    requires { i < 16385 }
    ensures { result ≡ is_among numbers.now (here (is_in kinds.now roles.now class) i) id }
{
    is_in(kinds, roles, class, i) && numbers[i] == id
}

// Is one of the first so many tokens of that class such a name?
fn is_among(
    kinds: &[u8; 16385],
    numbers: &[u32; 16385],
    roles: &[u8; 16385],
    count: usize,
    class: Class,
    id: u32,
) -> bool
    requires { count ≤ 16385 }
    ensures { result ≡ is_among numbers.now (chosen (is_in kinds.now roles.now class) count 0) id }
{
    for i in 0..count {
        if is_such(kinds, numbers, roles, class, id, i) {
            return true;
        }
    }
    false
}

// ---- ids of a class, marked in a table

// Marks a token's id, where it is of that class.
fn see_at(
    kinds: &[u8; 16385],
    numbers: &[u32; 16385],
    roles: &[u8; 16385],
    class: Class,
    i: usize,
    seen: &mut [u8; 16385],
)
    requires { i < 16385 }
    ensures { seen.new ≡
        marked numbers.now (here (is_in kinds.now roles.now class) i) seen.old }
{
    if !is_in(kinds, roles, class, i) {
        return;
    }
    enter_id(seen, numbers[i], 1);
}

// Marks the ids of all tokens of that class.
fn see(
    kinds: &[u8; 16385],
    numbers: &[u32; 16385],
    roles: &[u8; 16385],
    count: usize,
    class: Class,
    seen: &mut [u8; 16385],
)
    requires { count ≤ 16385 }
    ensures { seen.new ≡
        marked numbers.now (chosen (is_in kinds.now roles.now class) count 0) seen.old }
{
    for i in 0..count {
        see_at(kinds, numbers, roles, class, i, seen);
    }
}

// Is one of the first so many tokens of that class such a name? Their ids are marked; an id that the table lacks is sought.
fn is_seen(
    kinds: &[u8; 16385],
    numbers: &[u32; 16385],
    roles: &[u8; 16385],
    count: usize,
    class: Class,
    seen: &[u8; 16385],
    id: u32,
) -> bool
    requires count_bound { count ≤ 16385 }
    requires seen_value { seen.now ≡ marks numbers.now (chosen (is_in kinds.now roles.now class) count 0) }
    ensures { result ≡ is_among numbers.now (chosen (is_in kinds.now roles.now class) count 0) id }
{
    let k = id as usize;
    if k < 16385 {
        return seen[k] == 1;
    }
    is_among(kinds, numbers, roles, count, class, id)
}

// ---- tokens of a class that are missing in another

// Is a token one of these?
fn is_missing(
    kinds: &[u8; 16385],
    numbers: &[u32; 16385],
    roles: &[u8; 16385],
    count: usize,
    a: Class,
    b: Class,
    seen: &[u8; 16385],
    i: usize,
) -> bool
    requires count_bound { count ≤ 16385 }
    requires seen_value { seen.now ≡ marks numbers.now (chosen (is_in kinds.now roles.now b) count 0) }
    requires i_bound { i < 16385 }
    ensures { result ≡ lacks numbers.now (is_in kinds.now roles.now a)
        (chosen (is_in kinds.now roles.now b) count 0) i }
{
    is_in(kinds, roles, a, i) && !is_seen(kinds, numbers, roles, count, b, seen, numbers[i])
}

// The place of a token that is missing; 65,536 of another.
fn missing_at(places: &[u16; 16385], missing: bool, i: usize) -> usize
    requires { i < 16385 }
    ensures { (result ≡ pick missing (get_or places.now i 0) 65536) × (result ≤ 65536) }
{
    if missing {
        return spot(places[i]);
    }
    65536
}

// The first place of such a token.
fn missing(
    kinds: &[u8; 16385],
    numbers: &[u32; 16385],
    places: &[u16; 16385],
    roles: &[u8; 16385],
    count: usize,
    a: Class,
    b: Class,
) -> usize
    requires { count ≤ 16385 }
    ensures { result ≡ nearest places.now (missing numbers.now
        (chosen (is_in kinds.now roles.now a) count 0)
        (chosen (is_in kinds.now roles.now b) count 0)) }
{
    let mut seen = [0u8; 16385];
    see(kinds, numbers, roles, count, b, &mut seen);
    let mut best = 65536;
    for i in 0..count {
        let gone = is_missing(kinds, numbers, roles, count, a, b, &seen, i);
        best = lower(best, missing_at(places, gone, i));
    }
    best
}

// ---- tokens of a class that are named as one before

// The place of a token that is one of these; 65,536 of another.
fn repeated_at(
    kinds: &[u8; 16385],
    numbers: &[u32; 16385],
    places: &[u16; 16385],
    roles: &[u8; 16385],
    a: Class,
    seen: &[u8; 16385],
    i: usize,
) -> usize
    requires i_bound { i < 16385 }
    requires seen_value { seen.now ≡ marks numbers.now (chosen (is_in kinds.now roles.now a) i 0) }
    ensures { result ≡ nearest places.now (repeated numbers.now
        (chosen (is_in kinds.now roles.now a) i 0)
        (here (is_in kinds.now roles.now a) i)) }
{
    if !is_in(kinds, roles, a, i) {
        return 65536;
    }
    if is_seen(kinds, numbers, roles, i, a, seen, numbers[i]) {
        return spot(places[i]);
    }
    65536
}

// The first place of such a token.
fn repeated(
    kinds: &[u8; 16385],
    numbers: &[u32; 16385],
    places: &[u16; 16385],
    roles: &[u8; 16385],
    count: usize,
    a: Class,
) -> usize
    requires { count ≤ 16385 }
    ensures { result ≡ nearest places.now (repeated numbers.now
        []
        (chosen (is_in kinds.now roles.now a) count 0)) }
{
    let mut seen = [0u8; 16385];
    let mut best = 65536;
    for i in 0..count {
        let again = repeated_at(kinds, numbers, places, roles, a, &seen, i);
        best = lower(best, again);
        see_at(kinds, numbers, roles, a, i, &mut seen);
    }
    best
}

// ---- all of them

// Is a name at fault, and where is the first that is: a name undeclared or declared a second time, an `assign` to no wire or to one
// that has its own, a wire without `assign`.
pub fn first_fault(
    kinds: &[u8; 16385],
    numbers: &[u32; 16385],
    places: &[u16; 16385],
    roles: &[u8; 16385],
    count: usize,
) -> Fault
    ensures { result ≡ fault_of kinds.now numbers.now places.now roles.now (capped count) }
{
    let n = count.min(16385);
    let a = missing(
        kinds,
        numbers,
        places,
        roles,
        n,
        Class::Used,
        Class::Declared,
    );
    let b = repeated(kinds, numbers, places, roles, n, Class::Declared);
    let c = missing(kinds, numbers, places, roles, n, Class::Target, Class::Wire);
    let d = repeated(kinds, numbers, places, roles, n, Class::Target);
    let e = missing(kinds, numbers, places, roles, n, Class::Wire, Class::Target);
    let place = lower(a, lower(b, lower(c, lower(d, e))));
    Fault {
        found: place < 65536,
        place,
    }
}
