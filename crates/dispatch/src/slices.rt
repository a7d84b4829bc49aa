// The same call on two plain slices, for other languages: a slice of records does not cross.
ghost use Rattle.std.specs.Prelude.{◌≡◌};
ghost use Rattle.dispatch.specs.Dispatch.{record_at};
ghost use Rattle.dispatch.specs.Planes.{records_of, dispatched_planes, turns_after};
ghost use Rattle.dispatch.specs.Turn.{first_eight};

use super::picking::served;
use super::{Dispatched, Record};

// The record that a flag and a number of turns make; past either slice an idle one.
fn plane_at(busy: &[bool], turns: &[u32], at: usize) -> Record
    ensures { result ≡ record_at (records_of busy.now turns.now) at }
{
    if at >= busy.len() {
        return Record {
            busy: false,
            turns: 0,
        };
    }
    if at >= turns.len() {
        return Record {
            busy: false,
            turns: 0,
        };
    }
    Record {
        busy: busy[at],
        turns: turns[at],
    }
}

// The first eight records of the two slices.
fn planes_eight(busy: &[bool], turns: &[u32]) -> [Record; 8]
    ensures { result ≡ first_eight (records_of busy.now turns.now) }
{
    [
        plane_at(busy, turns, 0),
        plane_at(busy, turns, 1),
        plane_at(busy, turns, 2),
        plane_at(busy, turns, 3),
        plane_at(busy, turns, 4),
        plane_at(busy, turns, 5),
        plane_at(busy, turns, 6),
        plane_at(busy, turns, 7),
    ]
}

// One call of the dispatcher, on the flags, the turns and the number served by the call before.
pub fn dispatch_planes(busy: &[bool], turns: &mut [u32], last: u8) -> Dispatched
    ensures { (result ≡ dispatched_planes busy.now turns.old last) × (turns.new ≡ turns_after turns.old result) }
{
    if busy.len() != turns.len() {
        return Dispatched::Refused(48);
    }
    let turn = served(planes_eight(busy, turns), busy.len(), last);
    let at = turn.at;
    if at < turns.len() {
        turns[at] = turn.turns;
    }
    turn.answer
}
