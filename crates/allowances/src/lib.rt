// Whose choices a run's are, and how many each user has, out of the words of a command line. Each function equals its definition in
// specs/, for every word.
#![tactic(auto)]

ghost use Rattle.std.specs.Prelude.{◌≡◌};
ghost use Rattle.allowances.specs.Allowances.{user_of, nothing, spoilt, digit_taken, comma_taken, taken};
ghost use Rattle.allowances.specs.Allowances.{refused, allowed_by, allowances_of};

// The greatest allowance: each user's where no word says otherwise.
pub const MOST: u32 = 4294967295;

// Four allowances, or a word that is none.
#[derive(Clone, Copy)]
pub struct Allowances {
    pub good: bool,
    pub each: [u32; 4],
}

// What the characters so far are: all right or not, how many commas there were, whether the number behind the last has no digit yet, that
// number, and those before it. Stays a record with a flag: `spoilt` of specs/Allowances keeps what was read before.
#[derive(Clone, Copy)]
pub struct Reading {
    pub good: bool,
    pub commas: usize,
    pub fresh: bool,
    pub n: u32,
    pub each: [u32; 4],
}

// A number as a user: those that are no byte's are 255, a user that there isn't (46).
#[tactic(auto, unfolding(crate::specs::Allowances::user_of))]
pub fn user_of(n: u32) -> u8
    ensures { result ≡ user_of n }
{
    u8::try_from(n).unwrap_or(255)
}

// Before the first character.
#[tactic(auto, unfolding(crate::specs::Allowances::nothing))]
fn nothing() -> Reading
    ensures { result ≡ nothing }
{
    Reading {
        good: true,
        commas: 0,
        fresh: true,
        n: 0,
        each: [0u32; 4],
    }
}

// A character that can't stand there.
#[tactic(auto, unfolding(crate::specs::Allowances::spoilt))]
fn spoilt(r: Reading) -> Reading
    ensures { result ≡ spoilt r }
{
    Reading { good: false, ..r }
}

// A digit: the number stays below 2^32.
#[tactic(auto, unfolding(crate::specs::Allowances::digit_taken))]
fn digit_taken(r: Reading, d: u8) -> Reading
    ensures { result ≡ digit_taken r d }
{
    let more = r.n as u64 * 10 + d as u64;
    if 4294967296 <= more {
        return spoilt(r);
    }
    Reading {
        fresh: false,
        n: more as u32,
        ..r
    }
}

// A comma: it ends a number, and is the third at most.
#[tactic(auto, unfolding(crate::specs::Allowances::comma_taken))]
fn comma_taken(r: Reading) -> Reading
    ensures { result ≡ comma_taken r }
{
    if r.fresh {
        return spoilt(r);
    }
    let k = r.commas;
    if 3 <= k {
        return spoilt(r);
    }
    let mut each = r.each;
    each[k] = r.n;
    Reading {
        commas: k + 1,
        fresh: true,
        n: 0,
        each,
        ..r
    }
}

// One character.
#[tactic(auto, unfolding(crate::specs::Allowances::taken))]
fn taken(r: Reading, b: u8) -> Reading
    ensures { result ≡ taken r b }
{
    if b == b',' {
        return comma_taken(r);
    }
    let d = hextext::digit_of(b);
    if d < 10 {
        return digit_taken(r, d);
    }
    spoilt(r)
}

// A word that is none.
#[tactic(auto, unfolding(crate::specs::Allowances::refused))]
fn refused() -> Allowances
    ensures { result ≡ refused }
{
    Allowances {
        good: false,
        each: [0u32; 4],
    }
}

// What was read: four numbers with three commas between them.
#[tactic(auto, unfolding(crate::specs::Allowances::allowed_by))]
fn allowed_by(r: Reading) -> Allowances
    ensures { result ≡ allowed_by r }
{
    if !r.good || r.fresh {
        return refused();
    }
    if r.commas != 3 {
        return refused();
    }
    let mut each = r.each;
    each[3] = r.n;
    Allowances { good: true, each }
}

// Four allowances: decimal numbers below 2^32 with commas between them.
pub fn allowances_of(word: &[u8]) -> Allowances
    ensures { result ≡ allowances_of word.now }
{
    let mut r = nothing();
    for i in 0..word.len() {
        r = taken(r, word[i]);
    }
    allowed_by(r)
}
