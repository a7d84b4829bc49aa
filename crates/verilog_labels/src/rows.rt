// The rows of places and lengths, by the tokens that declare variables.
ghost use Rattle.std.specs.Prelude.{◌≡◌, ◌+◌, ◌≤◌, ◌<◌, length};
ghost use Rattle.verilog_scan.specs.Scan.{spelled_at};
ghost use Rattle.verilog_names.specs.Chosen.{capped, chosen, has_role, count_of};
ghost use Rattle.verilog_names.specs.Numbers.{ordered};
ghost use Rattle.verilog_labels.specs.Steps.{zeros, put, laid, places_at, lengths_at};

use verilog_tokens::{Class, run_end};

// A table has 16,385 entries.
fn capped(count: usize) -> usize
    ensures { result ≡ capped count }
{
    if count < 16385 { count } else { 16385 }
}

// Stores an entry where the table has it.
fn put(table: &mut [u16; 80], k: usize, x: u16)
    ensures { table.new ≡ put table.old k x }
{
    if k < 80 {
        table[k] = x;
    }
}

// The length of the word at a place.
fn length_at(text: &[u8], at: usize) -> u16
    requires { length text.now ≤ 16384 }
    ensures { result ≡ length (spelled_at text.now at) }
{
    if text.len() <= at {
        return 0;
    }
    let end = run_end(text, at, Class::Word);
    (end - at) as u16
}

// The names of one role, from an entry on; the answer is the entry behind them.
fn name_all(
    text: &[u8],
    begun: &[u16; 16385],
    roles: &[u8; 16385],
    count: usize,
    role: u8,
    from: usize,
    places: &mut [u16; 80],
    lengths: &mut [u16; 80],
) -> usize
    requires text_len_bound { length text.now ≤ 16384 }
    requires count_bound { count ≤ 16385 }
    requires from_bound { from ≤ 65536 }
    ensures value { result ≡ from + count_of roles.now count role }
    ensures places_after { places.new ≡ laid places.old from
        (places_at begun.now (chosen (has_role roles.now role) count 0)) }
    ensures lengths_after { lengths.new ≡ laid lengths.old from
        (lengths_at text.now begun.now (chosen (has_role roles.now role) count 0)) }
{
    let mut k = from;
    for i in 0..count {
        if roles[i] == role {
            put(places, k, begun[i]);
            put(lengths, k, length_at(text, begun[i] as usize));
            k += 1;
        }
    }
    k
}

// The names of inputs, registers and wires, 0 behind them.
pub(crate) fn rows(
    text: &[u8],
    begun: &[u16; 16385],
    roles: &[u8; 16385],
    count: usize,
    places: &mut [u16; 80],
    lengths: &mut [u16; 80],
)
    requires { length text.now ≤ 16384 }
    ensures places_after { places.new
        ≡ laid (zeros 80) 0 (places_at begun.now (ordered roles.now (capped count))) }
    ensures lengths_after { lengths.new
        ≡ laid (zeros 80) 0 (lengths_at text.now begun.now (ordered roles.now (capped count))) }
{
    let n = capped(count);
    let mut ps = [0u16; 80];
    let mut ls = [0u16; 80];
    let a = name_all(text, begun, roles, n, 1, 0, &mut ps, &mut ls);
    let b = name_all(text, begun, roles, n, 2, a, &mut ps, &mut ls);
    name_all(text, begun, roles, n, 3, b, &mut ps, &mut ls);
    *places = ps;
    *lengths = ls;
}
