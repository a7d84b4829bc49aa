// A row of a trace: a cell for each variable, and behind the cells the places of the threads. Each function equals its definition for
// slices of any length.
#![tactic(auto)]

ghost use Rattle.std.specs.Prelude.{◌≡◌, get_or};
ghost use Rattle.values.specs.Cells.{cell_at};
ghost use Rattle.trace_row.specs.TraceRow.{place_in, row_of};

use values::Value;

// The word at a place of a row, past its end 0.
fn word_at(row: &[u64], i: usize) -> u64
    ensures { result ≡ get_or row.now i 0 }
{
    row.get(i).copied().unwrap_or(0)
}

// The value of a variable.
pub fn value_in(row: &[u64], v: usize) -> Value
    ensures { result ≡ cell_at row.now v }
{
    values::load(word_at(row, v))
}

// The place of a thread.
pub fn place_in(row: &[u64], i: u8) -> u64
    ensures { result ≡ place_in row.now i }
{
    word_at(row, 80 + i as usize)
}

// Row r of a trace, the part of it that the trace has.
pub fn row_of(trace: &[u64], r: usize) -> &[u64]
    ensures { result.now ≡ row_of trace.now r }
{
    let n = trace.len();
    if n / 88 < r {
        return &trace[n..];
    }
    let from = r * 88;
    if n - from < 88 {
        return &trace[from..];
    }
    let to = from + 88;
    &trace[from..to]
}
