// A state as a row of a trace, and its registers and places as a cycle run takes them.
ghost use Rattle.std.specs.Prelude.{◌≡◌, ◌+◌, get_or};
ghost use Rattle.std.proofs.lemmas.List.Edits.{sets};
ghost use Rattle.state.specs.Rows.{list_of};
ghost use Rattle.prepared_cycles.specs.Traces.{places_in, row_of};
ghost use Rattle.plan.specs.Plan.{plan_of};
ghost use Rattle.driving.specs.Plans.{words_of, registers_in, unsettled_at};

use nextstate::Registers;
use plan::PlanTable;
use state::State;

// ---- a row

// The variables' words.
fn put_words<'a>(value: &'a [u32; 80], unknown: &'a [u32; 80], row: &mut [u64; 88])
    ensures { row.new ≡ sets row.old 0 (words_of value.now unknown.now) }
{
    for v in 0..80 {
        row[v] = values::store(values::value_at(value, unknown, v));
    }
}

// The threads' places.
fn put_places(places: &[u8; 8], row: &mut [u64; 88])
    ensures { row.new ≡ sets row.old 80 (places_in places.now) }
{
    for i in 0..8 {
        row[80 + i] = places[i] as u64;
    }
}

// A state as a row.
pub fn row_of(st: State) -> [u64; 88]
    ensures { result ≡ row_of st }
{
    let mut row = [0u64; 88];
    put_words(&st.value, &st.unknown, &mut row);
    put_places(&st.places, &mut row);
    row
}

// ---- registers

// The number in a slot; past the end 0.
fn number_at(numbers: &[u32], v: usize) -> u32
    ensures { result ≡ get_or numbers.now v 0 }
{
    numbers.get(v).copied().unwrap_or(0)
}

// 32 numbers, or their marks, from a slot on.
fn numbers_from(numbers: &[u32], from: u8) -> [u32; 32]
    ensures { result ≡ list_of 32 (λ k. get_or numbers.now (from + k) 0) }
{
    let first = from as usize;
    let mut out = [0u32; 32];
    for k in 0..32 {
        out[k] = number_at(numbers, first + k);
    }
    out
}

// A state's registers and places.
pub fn registers_of(inputs: u8, st: State) -> Registers
    ensures { result ≡ registers_in inputs st }
{
    let value = numbers_from(&st.value, inputs);
    let unknown = numbers_from(&st.unknown, inputs);
    Registers {
        value,
        unknown,
        places: st.places,
    }
}

// ---- a state whose registers were set

// Every wire is due, as at the start.
pub fn unsettled(plan: &PlanTable, st: State) -> State
    ensures { result ≡ unsettled_at (plan_of plan.now) st }
{
    let begun = prepared::start(plan, [0u32; 4]);
    // a variable: an array field of another struct has no proof straight in a literal
    let due = begun.due;
    State { due, ..st }
}
