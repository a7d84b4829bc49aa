// A phase on a prepared plan: an instant, and the plain run after it. The state lies in cells, pending cells and places that are lent
// through all phases, and no state is packed in between.
ghost use Rattle.std.specs.Prelude.{◌≡◌, List, ℕ};
ghost use Rattle.state.specs.State.{full, counters_of};
ghost use Rattle.plan.specs.Plan.{plan_of};
ghost use Rattle.plan_engine.specs.Live.{live};
ghost use Rattle.prepared.specs.Prepared.{later};
ghost use Rattle.prepared_cycles.specs.Phases.{moment, moment_of, phase, refusal_at, phase_at};

use crate::{Phased, Standing};
use events::Inputs;
use plan::{Cells, PlanTable};
use plan_changes::Marks;
use prepared::{raised, room_in};
use state::{Counters, FULL};

// The number of an instant, 0 where it is accepted.
pub fn refusal(plan: &PlanTable, marks: Marks, time: u64, a: Inputs) -> u8
    ensures { (cs ns ps counts allowances : List ℕ) (user : ℕ) →
        result ≡ refusal_at (plan_of plan.now) a (moment (live cs ns ps marks) (counters_of time counts allowances) user) }
{
    if !plan_fitting::inputs_fit(plan, a) {
        return 25;
    }
    if plan_engine::busy(marks) {
        return 32;
    }
    if time == FULL { 36 } else { 0 }
}

// The time one further.
pub fn later(c: Counters) -> Counters
    requires { c.time ≡ full → ⊥ }
    ensures { result ≡ later c }
{
    Counters {
        time: c.time + 1,
        ..c
    }
}

// An instant, and the plain run after it.
pub fn phase(
    plan: &PlanTable,
    cells: &mut Cells,
    pending: &mut [u64; 32],
    places: &mut [u8; 8],
    standing: Standing,
    a: Inputs,
) -> Phased
    ensures { phase result.number result.running
        (moment_of cells.new pending.new places.new result.standing)
        ≡ phase_at (plan_of plan.now) a
        (moment_of cells.old pending.old places.old standing) }
{
    let number = refusal(plan, standing.marks, standing.counters.time, a);
    if number != 0 {
        return Phased {
            number,
            running: false,
            standing,
        };
    }
    let fed = plan_engine::feed(
        plan,
        cells,
        pending,
        places,
        standing.marks,
        &a.value,
        &a.unknown,
    );
    let room = room_in(standing.counters, standing.user);
    let run = plan_engine::run_plain(plan, cells, pending, places, fed, 65535, room);
    let counters = raised(run.accepted as u64, standing.user, later(standing.counters));
    Phased {
        number: run.number,
        running: run.number != 0,
        standing: Standing {
            marks: run.marks,
            counters,
            ..standing
        },
    }
}
