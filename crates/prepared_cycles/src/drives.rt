// An instant on a prepared plan that is run to rest: by the plain run, or by choices that a generator draws. The state lies in cells,
// pending cells and places that are lent through all instants, and no state is packed in between.
ghost use Rattle.std.specs.Prelude.{◌≡◌, ◌+◌};
ghost use Rattle.plan.specs.Plan.{plan_of};
ghost use Rattle.prepared_cycles.specs.Drives.{next_seed, drawn_choice, drawn_most, going_of, on_plan};
ghost use Rattle.prepared_cycles.specs.Drives.{draw, drawn, plainly, to_rest, drive};

use crate::instants::{later, refusal};
use crate::{Standing, Went};
use events::Inputs;
use plan::{Cells, PlanTable};
use prepared::{accepted, raised, room_in};

// How many choices a run to rest may take, of a plain run and of one whose choices are drawn.
const PLAIN_MOST: u16 = 65535;

const DRAWN_MOST: usize = 4000000;

// The generator's next seed.
fn next_seed(seed: u64) -> u64
    ensures { result ≡ next_seed seed }
{
    (seed % 4294967296 * 1664525 + 1013904223) % 4294967296
}

// A choice among the items and the commit.
fn drawn_choice(seed: u64, items: u64) -> u8
    ensures { result ≡ drawn_choice seed items }
{
    let n = items % 64;
    let k = seed / 65536 % (n + 1);
    if k < n {
        return k as u8;
    }
    255
}

// What can be chosen beside a commit.
fn items(plan: &PlanTable) -> u64
    ensures { result ≡ (plan_of plan.now).threads + (plan_of plan.now).wires }
{
    (plan::threads(plan) + plan::wires(plan)) as u64
}

// A choice that is drawn. A commit that is refused with 35 says that nothing is enabled and nothing pending; a refused choice changes
// nothing.
fn draw(
    plan: &PlanTable,
    cells: &mut Cells,
    pending: &mut [u64; 32],
    places: &mut [u8; 8],
    g: Went,
) -> Went
    ensures { going_of cells.new pending.new places.new result
        ≡ draw (on_plan (plan_of plan.now))
        (going_of cells.old pending.old places.old g) }
{
    let s = g.standing;
    let seed = next_seed(g.seed);
    let c = drawn_choice(seed, items(plan));
    let room = room_in(s.counters, s.user);
    let t = plan_engine::take_choice(plan, cells, pending, places, s.marks, c as usize, room);
    let counters = raised(accepted(t.number), s.user, s.counters);
    Went {
        number: 0,
        rested: t.number == 35,
        seed,
        standing: Standing {
            marks: t.marks,
            counters,
            ..s
        },
    }
}

// Choices until there is none, or as many as may be.
fn by_draw(
    plan: &PlanTable,
    cells: &mut Cells,
    pending: &mut [u64; 32],
    places: &mut [u8; 8],
    g: Went,
) -> Went
    ensures { going_of cells.new pending.new places.new result
        ≡ drawn (on_plan (plan_of plan.now)) drawn_most
        (going_of cells.old pending.old places.old g) }
{
    let mut e = g;
    for _ in 0..DRAWN_MOST {
        if e.rested {
            return e;
        }
        e = draw(plan, cells, pending, places, e);
    }
    e
}

// The plain run.
fn plainly(
    plan: &PlanTable,
    cells: &mut Cells,
    pending: &mut [u64; 32],
    places: &mut [u8; 8],
    g: Went,
) -> Went
    ensures { going_of cells.new pending.new places.new result
        ≡ plainly (on_plan (plan_of plan.now))
        (going_of cells.old pending.old places.old g) }
{
    let s = g.standing;
    let room = room_in(s.counters, s.user);
    let run = plan_engine::run_plain(plan, cells, pending, places, s.marks, PLAIN_MOST, room);
    let counters = raised(run.accepted as u64, s.user, s.counters);
    let rested = !plan_engine::busy(run.marks);
    Went {
        number: 0,
        rested,
        standing: Standing {
            marks: run.marks,
            counters,
            ..s
        },
        ..g
    }
}

// A run to rest.
pub fn to_rest(
    plan: &PlanTable,
    cells: &mut Cells,
    pending: &mut [u64; 32],
    places: &mut [u8; 8],
    drawn: bool,
    g: Went,
) -> Went
    ensures { going_of cells.new pending.new places.new result
        ≡ to_rest (on_plan (plan_of plan.now)) drawn
        (going_of cells.old pending.old places.old g) }
{
    if drawn {
        return by_draw(plan, cells, pending, places, g);
    }
    plainly(plan, cells, pending, places, g)
}

// An instant, and then to rest.
pub fn drive(
    plan: &PlanTable,
    cells: &mut Cells,
    pending: &mut [u64; 32],
    places: &mut [u8; 8],
    drawn: bool,
    g: Went,
    a: Inputs,
) -> Went
    ensures { going_of cells.new pending.new places.new result
        ≡ drive (on_plan (plan_of plan.now)) drawn a
        (going_of cells.old pending.old places.old g) }
{
    let s = g.standing;
    let number = refusal(plan, s.marks, s.counters.time, a);
    if number != 0 {
        return Went {
            number,
            rested: false,
            ..g
        };
    }
    let fed = plan_engine::feed(plan, cells, pending, places, s.marks, &a.value, &a.unknown);
    let counters = later(s.counters);
    let begun = Went {
        number: 0,
        rested: false,
        standing: Standing {
            marks: fed,
            counters,
            ..s
        },
        ..g
    };
    to_rest(plan, cells, pending, places, drawn, begun)
}
