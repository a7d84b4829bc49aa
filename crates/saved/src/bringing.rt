// A state out of any saved form. The forms 1 to 3 know a value as a number or as x: x is brought over as x in all bits of its variable's
// width, which the sheet tells.
ghost use Rattle.std.specs.Prelude.{◌≡◌, ◌+◌, ◌*◌, ◌≤◌, get_or};
ghost use Rattle.values.specs.Planes.{number_of, marks_of};
ghost use Rattle.state.specs.Rows.{list_of};
ghost use Rattle.saved.specs.Older.{is_older, older_value, older_in, alone, refused, admitted, width_in, older_over, brought_over};

use super::Brought;
use super::fields::{counters_at, flag_at, flags, flags_at, is_form, long_at, places_at};
use super::loading::{is_saved, state_in, zero_state};
use sheet::{byte_at, word_at};
use state::{Counters, State};
use values::Value;

// Are these bytes of an older form, with its number of bytes?
// stays test by test: as one expression its proof didn't close
fn is_older(form: u8, size: usize, bytes: &[u8]) -> bool
    ensures { result ≡ is_older form size bytes.now }
{
    if !is_form(form, size, bytes) {
        return false;
    }
    if !flags(bytes, 1, 5, 80) {
        return false;
    }
    if !flags(bytes, 401, 6, 32) {
        return false;
    }
    if !flags(bytes, 402, 6, 32) {
        return false;
    }
    flags(bytes, 601, 1, 32)
}

// ---- values

// The value at a place, of a width.
fn older_value(width: u8, bytes: &[u8], at: usize) -> Value
    requires { at ≤ 1024 }
    ensures { result ≡ older_value width bytes.now at }
{
    if flag_at(bytes, at) {
        return values::all_unknown(width);
    }
    values::known(word_at(bytes, at + 1))
}

// The numbers of N values of these widths, the first at a place, each so many bytes after the one before.
fn older_numbers<const N: usize>(bytes: &[u8], widths: &[u8; N], at: usize, step: usize) -> [u32; N]
    requires at_bound { at ≤ 402 }
    requires step_bound { step ≤ 6 }
    requires n_bound { N ≤ 80 }
    ensures { result ≡ list_of N (λ k. number_of (older_value (get_or widths.now k 0) bytes.now (at + step * k))) }
{
    let mut a = [0u32; N];
    let mut p = at;
    for v in 0..N {
        let x = older_value(widths[v], bytes, p);
        a[v] = values::number_of(x);
        p += step;
    }
    a
}

// Their marks.
fn older_marks<const N: usize>(bytes: &[u8], widths: &[u8; N], at: usize, step: usize) -> [u32; N]
    requires at_bound { at ≤ 402 }
    requires step_bound { step ≤ 6 }
    requires n_bound { N ≤ 80 }
    ensures { result ≡ list_of N (λ k. marks_of (older_value (get_or widths.now k 0) bytes.now (at + step * k))) }
{
    let mut a = [0u32; N];
    let mut p = at;
    for v in 0..N {
        let x = older_value(widths[v], bytes, p);
        a[v] = values::marks_of(x);
        p += step;
    }
    a
}

// ---- the state

// The state in bytes of an older form, by the widths of the variables and of the registers.
fn older_in(widths: &[u8; 80], slots: &[u8; 32], bytes: &[u8], counters: Counters) -> State
    ensures { result ≡ older_in (λ v. get_or widths.now v 0) (λ k. get_or slots.now k 0) bytes.now counters }
{
    let value = older_numbers(bytes, widths, 1, 5);
    let unknown = older_marks(bytes, widths, 1, 5);
    let pending = older_numbers(bytes, slots, 402, 6);
    let unsure = older_marks(bytes, slots, 402, 6);
    let held = flags_at(bytes, 401, 6);
    let places = places_at(bytes, 593);
    let due = flags_at(bytes, 601, 1);
    State {
        value,
        unknown,
        pending,
        unsure,
        held,
        places,
        due,
        counters,
    }
}

// One count, user 0's.
fn alone(time: u64, count: u64, allowances: [u32; 4]) -> Counters
    ensures { result ≡ alone time count allowances }
{
    Counters {
        time,
        counts: [count, 0, 0, 0],
        allowances,
    }
}

fn refused(number: u8) -> Brought
    ensures { result ≡ refused number }
{
    let state = zero_state();
    Brought { number, state }
}

// A state with one count, where user 0's allowance reaches that far.
fn admit(state: State) -> Brought
    ensures { result ≡ admitted state }
{
    let counters = state.counters;
    if counters.counts[0] <= counters.allowances[0] as u64 {
        return Brought { number: 0, state };
    }
    refused(31)
}

// ---- bringing over

// The state that the bytes are an older form of: one with one count gets the allowances.
fn bring_older(widths: &[u8; 80], slots: &[u8; 32], bytes: &[u8], allowances: [u32; 4]) -> Brought
    ensures { result ≡ older_over (λ v. get_or widths.now v 0) (λ k. get_or slots.now k 0) bytes.now allowances }
{
    if is_older(3, 689, bytes) {
        let counters = counters_at(bytes, 633);
        let state = older_in(widths, slots, bytes, counters);
        return Brought { number: 0, state };
    }
    if is_older(2, 649, bytes) {
        let time = long_at(bytes, 633);
        let count = long_at(bytes, 641);
        let counters = alone(time, count, allowances);
        let state = older_in(widths, slots, bytes, counters);
        return admit(state);
    }
    if is_older(1, 641, bytes) {
        let time = word_at(bytes, 633);
        let count = word_at(bytes, 637);
        let counters = alone(time as u64, count as u64, allowances);
        let state = older_in(widths, slots, bytes, counters);
        return admit(state);
    }
    refused(31)
}

// The width that stands in a sheet for the item k of n, the first at a place; past the last no width is at hand: 32.
fn width_in(sheet: &[u8], first: usize, n: usize, k: usize) -> u8
    requires first_bound { first ≤ 300 }
    requires k_bound { k ≤ 80 }
    ensures { result ≡ width_in sheet.now first n k }
{
    if k < n {
        return byte_at(sheet, first + k);
    }
    32
}

// The widths of the first N items.
fn widths_in<const N: usize>(sheet: &[u8], first: usize, n: usize) -> [u8; N]
    requires first_bound { first ≤ 300 }
    requires n_bound { N ≤ 80 }
    ensures { result ≡ list_of N (width_in sheet.now first n) }
{
    let mut a = [0u8; N];
    for v in 0..N {
        a[v] = width_in(sheet, first, n, v);
    }
    a
}

// The state that the bytes are a saved form of: an older one is brought over, that of `save` is taken as it stands.
pub fn bring_over(sheet: &[u8], bytes: &[u8], allowances: [u32; 4]) -> Brought
    ensures { result ≡ brought_over sheet.now bytes.now allowances }
{
    let read = sheet::read(sheet);
    let number = read.number;
    if number != 0 {
        return refused(number);
    }
    if is_saved(bytes) {
        let state = state_in(bytes);
        return Brought { number: 0, state };
    }
    let layout = read.layout;
    let inputs = layout.inputs as usize;
    let registers = layout.registers as usize;
    let wires = layout.wires as usize;
    let first = layout.widths;
    let widths = widths_in::<80>(sheet, first, inputs + registers + wires);
    let slots = widths_in::<32>(sheet, first + inputs, registers);
    bring_older(&widths, &slots, bytes, allowances)
}
