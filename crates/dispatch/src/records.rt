// The lent list. Each function here has a slice of records; the core does the work.
ghost use Rattle.std.specs.Prelude.{◌≡◌};
ghost use Rattle.dispatch.specs.Dispatch.{record_at, given, dispatched, records_after};
ghost use Rattle.dispatch.specs.Turn.{first_eight};

use super::picking::served;
use super::{Dispatched, Record};

// The record at a place; past the list an idle one.
fn record_at(records: &[Record], at: usize) -> Record
    ensures { result ≡ record_at records.now at }
{
    records.get(at).copied().unwrap_or(Record {
        busy: false,
        turns: 0,
    })
}

// The first eight records; idle ones past the list.
fn first_eight(records: &[Record]) -> [Record; 8]
    ensures { result ≡ first_eight records.now }
{
    [
        record_at(records, 0),
        record_at(records, 1),
        record_at(records, 2),
        record_at(records, 3),
        record_at(records, 4),
        record_at(records, 5),
        record_at(records, 6),
        record_at(records, 7),
    ]
}

// So many turns for the record at a place; past the list nothing is stored.
fn give(records: &mut [Record], at: usize, turns: u32)
    ensures { records.new ≡ given records.old at turns }
{
    if at < records.len() {
        records[at].turns = turns;
    }
}

// One call of the dispatcher, on the lent list and the number served by the call before.
pub fn dispatch(records: &mut [Record], last: u8) -> Dispatched
    ensures { (result ≡ dispatched records.old last) × (records.new ≡ records_after records.old result) }
{
    let turn = served(first_eight(records), records.len(), last);
    give(records, turn.at, turn.turns);
    turn.answer
}
