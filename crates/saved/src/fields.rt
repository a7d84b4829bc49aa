// The parts that saved forms are made of: flags, numbers, places and counters, by their place in the bytes.
ghost use Rattle.std.specs.Prelude.{◌≡◌, ◌+◌, ◌*◌, ◌≤◌};
ghost use Rattle.sheet.specs.Reading.{word_of};
ghost use Rattle.state.specs.Rows.{list_of};
ghost use Rattle.saved.specs.Saved.{is_flag, flags, flag_at, flags_at, places_at, long_of, counters_at, is_form};

use sheet::{byte_at, word_at};
use state::Counters;

// ---- are these bytes of a form?

// Does a flag stand at a place?
fn is_flag(bytes: &[u8], at: usize) -> bool
    ensures { result ≡ is_flag bytes.now at }
{
    byte_at(bytes, at) <= 1
}

// Are n bytes flags, the first at a place, each so many bytes after the one before?
pub(crate) fn flags(bytes: &[u8], at: usize, step: usize, n: usize) -> bool
    requires at_bound { at ≤ 1024 }
    requires step_bound { step ≤ 9 }
    requires n_bound { n ≤ 80 }
    ensures { result ≡ flags bytes.now at step n }
{
    let mut p = at;
    for _ in 0..n {
        if !is_flag(bytes, p) {
            return false;
        }
        p += step;
    }
    true
}

// Are they of this form, with its number of bytes?
pub(crate) fn is_form(form: u8, size: usize, bytes: &[u8]) -> bool
    ensures { result ≡ is_form form size bytes.now }
{
    bytes.len() == size && byte_at(bytes, 0) == form
}

// ---- flags and numbers

// Is the flag at a place up?
pub(crate) fn flag_at(bytes: &[u8], at: usize) -> bool
    ensures { result ≡ flag_at bytes.now at }
{
    byte_at(bytes, at) == 1
}

// 32 flags, the first at a place, each so many bytes after the one before.
pub(crate) fn flags_at(bytes: &[u8], at: usize, step: usize) -> [bool; 32]
    requires at_bound { at ≤ 1024 }
    requires step_bound { step ≤ 9 }
    ensures { result ≡ flags_at bytes.now at step }
{
    let mut a = [false; 32];
    let mut p = at;
    for k in 0..32 {
        a[k] = flag_at(bytes, p);
        p += step;
    }
    a
}

// The places, from a place on.
pub(crate) fn places_at(bytes: &[u8], at: usize) -> [u8; 8]
    requires { at ≤ 1024 }
    ensures { result ≡ places_at bytes.now at }
{
    let mut a = [0u8; 8];
    for i in 0..8 {
        a[i] = byte_at(bytes, at + i);
    }
    a
}

// ---- the counters

// A number of 64 bits, low half first.
pub(crate) fn long_at(bytes: &[u8], at: usize) -> u64
    requires { at ≤ 1024 }
    ensures { result ≡ long_of bytes.now at }
{
    let low = word_at(bytes, at);
    let high = word_at(bytes, at + 4);
    low as u64 + 4294967296 * high as u64
}

fn counts_at(bytes: &[u8], at: usize) -> [u64; 4]
    requires { at ≤ 1000 }
    ensures { result ≡ list_of 4 (λ u. long_of bytes.now (at + 8 * u)) }
{
    let mut a = [0u64; 4];
    for u in 0..4 {
        a[u] = long_at(bytes, at + 8 * u);
    }
    a
}

// N numbers of 32 bits, the first at a place, each so many bytes after the one before.
pub(crate) fn words_at<const N: usize>(bytes: &[u8], at: usize, step: usize) -> [u32; N]
    requires at_bound { at ≤ 1024 }
    requires step_bound { step ≤ 9 }
    requires n_bound { N ≤ 80 }
    ensures { result ≡ list_of N (λ k. word_of bytes.now (at + step * k)) }
{
    let mut a = [0u32; N];
    let mut p = at;
    for k in 0..N {
        a[k] = word_at(bytes, p);
        p += step;
    }
    a
}

// The time, the counts and the allowances, from a place on.
pub(crate) fn counters_at(bytes: &[u8], at: usize) -> Counters
    requires { at ≤ 969 }
    ensures { result ≡ counters_at bytes.now at }
{
    let time = long_at(bytes, at);
    let counts = counts_at(bytes, at + 8);
    let allowances = words_at::<4>(bytes, at + 40, 4);
    Counters {
        time,
        counts,
        allowances,
    }
}
