// Which name of a text a byte of its sheet comes before. The sheet is written again with other numbers in the names' places: once with 0 and
// once with 1, so that a name's byte is one that differs; then with the lower and the upper part of the name's own token.
ghost use Rattle.std.specs.Prelude.{◌≡◌, ◌<◌, ◌≤◌};
ghost use Rattle.verilog_origins.specs.Points.{part_of, mark_at, marks, bytes_with, name_byte, leaf_of, point_in, point_of};

use crate::steps::{find_thread, find_wire};
use crate::{number_names, origin, place_at, short};
use verilog_items::read;
use verilog_names::put_head;
use verilog_scan::scan;

// A part of a token's number: 0 and 1 are no part of it, 2 is its rest by 128, 3 how often 128 goes into it.
fn part_of(part: u8, token: u32) -> u32
    ensures { result ≡ part_of part token }
{
    if part == 0 {
        return 0;
    }
    if part == 1 {
        return 1;
    }
    if part == 2 {
        return token % 128;
    }
    token / 128
}

// What a token's number becomes: that of a name (kind 64) a part of its token, any other what it is.
fn mark_at(kinds: &[u8; 16385], table: &[u32; 16385], part: u8, i: usize) -> u32
    requires { i < 16385 }
    ensures { result ≡ mark_at kinds.now table.now part i }
{
    if kinds[i] != 64 {
        return table[i];
    }
    part_of(part, i as u32)
}

// All of them.
fn mark(kinds: &[u8; 16385], table: &[u32; 16385], part: u8, out: &mut [u32; 16385])
    ensures { out.new ≡ marks kinds.now table.now part out.old }
{
    for i in 0..16385 {
        out[i] = mark_at(kinds, table, part, i);
    }
}

// The sheet written with these parts in the names' places.
fn write_with(
    kinds: &[u8; 16385],
    numbers: &[u32; 16385],
    table: &[u32; 16385],
    roles: &[u8; 16385],
    widths: &[u8; 16385],
    count: u16,
    part: u8,
    out: &mut [u8; 65536],
)
    ensures { out.new ≡ bytes_with kinds.now numbers.now table.now roles.now
        widths.now count part out.old }
{
    let mut marked = [0u32; 16385];
    mark(kinds, table, part, &mut marked);
    let head = put_head(roles, widths, count as usize, out, 0);
    let h = find_wire(kinds, numbers, &marked, roles, count, out, head, 65536);
    find_thread(kinds, &marked, roles, count, out, h.pos, 65536);
}

// The first byte from a place on that is a name's; 65,536 where there is none.
fn name_byte(zeros: &[u8; 65536], ones: &[u8; 65536], from: usize) -> usize
    ensures { (result ≡ name_byte zeros.now ones.now from) × (result ≤ 65536) }
{
    for i in from..65536 {
        if zeros[i] != ones[i] {
            return i;
        }
    }
    65536
}

// A byte as a number.
fn whole(b: u8) -> usize
    ensures { (result ≡ b) × (result < 256) }
{
    b as usize
}

// The token by its two parts.
fn leaf_of(low: &[u8; 65536], high: &[u8; 65536], i: usize) -> usize
    requires { i < 65536 }
    ensures { result ≡ leaf_of low.now high.now i }
{
    whole(low[i]) + 128 * whole(high[i])
}

// The name of an item that a byte of the sheet comes before, by the tables; the item itself where no name follows in it.
fn point_in(
    text: &[u8],
    kinds: &[u8; 16385],
    numbers: &[u32; 16385],
    places: &[u16; 16385],
    table: &[u32; 16385],
    count: u16,
    place: usize,
) -> usize
    ensures { result ≡ point_in text.now kinds.now numbers.now places.now
        table.now count place }
{
    let mut parts = [0u8; 65536];
    let mut roles = [0u8; 16385];
    let mut widths = [0u8; 16385];
    read(kinds, table, count, &mut parts, &mut roles, &mut widths);
    let mut zeros = [0u8; 65536];
    write_with(kinds, numbers, table, &roles, &widths, count, 0, &mut zeros);
    let mut ones = [0u8; 65536];
    write_with(kinds, numbers, table, &roles, &widths, count, 1, &mut ones);
    let item = origin(text, place);
    let i = name_byte(&zeros, &ones, place);
    if 65536 <= i {
        return item;
    }
    if origin(text, i) != item {
        return item;
    }
    let mut low = [0u8; 65536];
    write_with(kinds, numbers, table, &roles, &widths, count, 2, &mut low);
    let mut high = [0u8; 65536];
    write_with(kinds, numbers, table, &roles, &widths, count, 3, &mut high);
    place_at(places, leaf_of(&low, &high, i))
}

// The place in a text of the name that a byte of its sheet comes before, within the item that it was written from; that of the item
// where no name follows in it.
pub fn point(text: &[u8], place: usize) -> usize
    ensures { result ≡ point_of text.now place }
{
    let mut kinds = [0u8; 16385];
    let mut numbers = [0u32; 16385];
    let mut places = [0u16; 16385];
    let count = short(scan(text, &mut kinds, &mut numbers, &mut places));
    let mut table = [0u32; 16385];
    number_names(&kinds, &numbers, count, &mut table);
    point_in(text, &kinds, &numbers, &places, &table, count, place)
}
