// Sets of up to 32 marks, kept as the binary digits of a number. Each function equals its definition
// in specs/, for every argument.
#![tactic(auto)]

ghost use Rattle.std.specs.Prelude.{◌≡◌, true, false, get_or, set};
ghost use Rattle.masks.specs.Masks.{bits, either, first, any_mark};

// Is mark `k` up?
pub fn has(m: u32, k: usize) -> bool
    ensures { result ≡ get_or (bits m) k false }
{
    if 32 <= k {
        return false;
    }
    (m >> k) % 2 == 1
}

// The set with mark `k` up.
pub fn with(m: u32, k: usize) -> u32
    ensures { bits result ≡ set (bits m) k true }
{
    if 32 <= k {
        return m;
    }
    m | (1u32 << k)
}

// The set with mark `k` down.
pub fn without(m: u32, k: usize) -> u32
    ensures { bits result ≡ set (bits m) k false }
{
    if 32 <= k {
        return m;
    }
    (m | (1u32 << k)) ^ (1u32 << k)
}

// The marks of either set.
pub fn union(a: u32, b: u32) -> u32
    ensures { bits result ≡ either (bits a) (bits b) }
{
    a | b
}

// The place of the lowest mark, or 32 where none is up.
// stays a number: its clause says `first`, which is 32 where none is up
pub fn lowest(m: u32) -> usize
    ensures { result ≡ first (bits m) }
{
    u32::trailing_zeros(m) as usize
}

// Is some mark up?
pub fn any(m: u32) -> bool
    ensures { result ≡ any_mark (bits m) }
{
    m != 0
}

// The marks as an array.
pub fn flags(m: u32) -> [bool; 32]
    ensures { result ≡ bits m }
{
    let mut out = [false; 32];
    for i in 0..32 {
        out[i] = has(m, i);
    }
    out
}

// The set of the marks in an array.
pub fn mask_of(flags: [bool; 32]) -> u32
    ensures { bits result ≡ flags }
{
    let mut m: u32 = 0;
    for i in 0..32 {
        if flags[i] {
            m = with(m, i);
        }
    }
    m
}
