// The inputs of an instant, as they stand in the rows of 16 that a caller lends: two instants go by each row.
ghost use Rattle.std.specs.Prelude.{◌≡◌, ◌∷◌, ◌+◌, ◌*◌, ◌/◌, ◌≤◌, length};
ghost use Rattle.plan.specs.Plan.{plan_of};
ghost use Rattle.prepared_cycles.specs.Cycles.{row_from, row_inputs};

use events::Inputs;
use plan::PlanTable;

// The numbers of a row, or their marks, with another one in front.
fn numbers_at(value: &[u32], row: usize, first: u32) -> [u32; 16]
    requires { 16 * row + 16 ≤ length value.now }
    ensures { result ≡ first ∷ row_from value.now row 1 15 }
{
    let at = 16 * row;
    let mut a = [0u32; 16];
    a.copy_from_slice(&value[at..at + 16]);
    a[0] = first;
    a
}

// The inputs of instant number `p`. The clock is known.
pub fn inputs_at(plan: &PlanTable, value: &[u32], unknown: &[u32], p: usize) -> Inputs
    requires p_in_bounds { 16 * (p / 2) + 16 ≤ length value.now }
    requires unknown_len { length unknown.now ≡ length value.now }
    ensures { result ≡ row_inputs (plan_of plan.now).inputs value.now unknown.now p }
{
    let row = p / 2;
    let numbers = numbers_at(value, row, (p % 2) as u32);
    let marks = numbers_at(unknown, row, 0);
    Inputs {
        count: plan::inputs(plan) as u8,
        value: numbers,
        unknown: marks,
    }
}
