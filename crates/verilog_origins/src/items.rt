// Where a text has what a refusal of extraction concerns.
ghost use Rattle.std.specs.Prelude.{◌≡◌};
ghost use Rattle.verilog_names.specs.Chosen.{capped};
ghost use Rattle.verilog_origins.specs.Items.{nth_of, target_for, variable_place, item_in, place_of};

use crate::steps::capped;
use crate::{Item, declared, number_at, place_at, short};
use verilog_items::read;
use verilog_names::target_of;
use verilog_scan::scan;

// Token k of those that a table has such an entry for; the number of tokens where there are fewer.
fn nth_of(row: &[u8; 16385], count: u16, entry: u8, k: usize) -> usize
    ensures { result ≡ nth_of row.now (capped count) entry k }
{
    let n = capped(count);
    let mut left = k;
    for i in 0..n {
        if row[i] == entry {
            if left == 0 {
                return i;
            }
            left -= 1;
        }
    }
    n
}

// The target of the `assign` to wire k.
fn target_for(numbers: &[u32; 16385], roles: &[u8; 16385], count: u16, k: usize) -> usize
    ensures { result ≡ target_for numbers.now roles.now (capped count) k }
{
    let id = number_at(numbers, nth_of(roles, count, 3, k));
    target_of(numbers, roles, count as usize, id)
}

// Where a variable is declared; a sheet has at most 80.
fn variable_place(text: &[u8], v: usize) -> usize
    ensures { result ≡ variable_place text.now v }
{
    if v < 80 {
        return declared(text, v + 4);
    }
    0
}

// The place of what a refusal concerns, by the tables of the text.
fn item_in(
    text: &[u8],
    kinds: &[u8; 16385],
    numbers: &[u32; 16385],
    places: &[u16; 16385],
    roles: &[u8; 16385],
    count: u16,
    item: Item,
) -> usize
    ensures { result ≡ item_in text.now kinds.now numbers.now places.now roles.now
        count item }
{
    match item {
        Item::Variable(v) => variable_place(text, v),
        Item::Assign(k) => place_at(places, target_for(numbers, roles, count, k)),
        Item::Thread(k) => place_at(places, nth_of(roles, count, 5, k)),
        Item::Wait(k) => place_at(places, nth_of(kinds, count, 27, k)),
    }
}

// The place in a text of what a refusal of extraction concerns.
pub fn place_of(text: &[u8], item: Item) -> usize
    ensures { result ≡ place_of text.now item }
{
    let mut kinds = [0u8; 16385];
    let mut numbers = [0u32; 16385];
    let mut places = [0u16; 16385];
    let count = short(scan(text, &mut kinds, &mut numbers, &mut places));
    let mut out = [0u8; 65536];
    let mut roles = [0u8; 16385];
    let mut widths = [0u8; 16385];
    read(&kinds, &numbers, count, &mut out, &mut roles, &mut widths);
    item_in(text, &kinds, &numbers, &places, &roles, count, item)
}
