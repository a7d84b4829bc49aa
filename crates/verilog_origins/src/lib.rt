// Which item of a Verilog text a byte of its sheet was written from (a declaration, an `assign` or an `always`), and where the text has
// what a refusal of extraction concerns. Each function equals its definition in specs/, for every text.
#![tactic(auto)]

mod items;
mod points;
mod steps;

ghost use Rattle.std.specs.Prelude.{◌≡◌};
ghost use Rattle.writing.specs.Buffer.{filled};
ghost use Rattle.verilog_exprs.specs.Rows.{row_at};
ghost use Rattle.verilog_origins.specs.Origins.{declared, token_in, place_in, names_from, origin_of, short};

pub use items::place_of;
pub use points::point;
use steps::{capped, find_thread, find_wire};
use verilog_items::read;
use verilog_labels::names;
use verilog_names::{number, put_head, target_of};
use verilog_scan::scan;

// A token by whose bytes a sheet comes past a place, and the position behind them.
#[derive(Clone, Copy)]
pub struct Hit {
    pub token: usize,
    pub pos: usize,
}

// What a refusal of extraction concerns.
#[derive(Clone, Copy)]
pub enum Item {
    // A variable by its number: where it is declared.
    Variable(usize),
    // The `assign` to a wire, by the wire's own number.
    Assign(usize),
    // A thread: its `always`.
    Thread(usize),
    // A wait, counted through all threads: its `@`.
    Wait(usize),
}

// The number of tokens as the reader takes it.
#[tactic(auto, unfolding(crate::specs::Origins::short))]
fn short(n: usize) -> u16
    ensures { result ≡ short n }
{
    n.min(65535) as u16
}

// A place, past the table's end 0.
fn place_at(places: &[u16; 16385], i: usize) -> usize
    ensures { result ≡ row_at places.now i }
{
    if i < 16385 { places[i] as usize } else { 0 }
}

// A name's number, past the table's end 0.
fn number_at(numbers: &[u32; 16385], i: usize) -> u32
    ensures { result ≡ row_at numbers.now i }
{
    if i < 16385 { numbers[i] } else { 0 }
}

// A number as a place.
fn wide(n: u16) -> usize
    ensures { result ≡ n }
{
    n as usize
}

// Where the variable is declared whose width is byte n of the sheet; the text's beginning for one of the four counts.
fn declared(text: &[u8], n: usize) -> usize
    ensures { result ≡ declared text.now n }
{
    if n < 4 {
        return 0;
    }
    if 84 <= n {
        return 0;
    }
    let mut places = [0u16; 80];
    let mut lengths = [0u16; 80];
    names(text, &mut places, &mut lengths);
    wide(places[n - 4])
}

// The token of the item that a byte behind the head, which is written, was written from: the target of an `assign`, or the word `always`.
fn token_of(
    kinds: &[u8; 16385],
    numbers: &[u32; 16385],
    table: &[u32; 16385],
    roles: &[u8; 16385],
    count: u16,
    out: &mut [u8; 65536],
    head: usize,
    place: usize,
) -> usize
    ensures { result ≡ token_in kinds.now numbers.now table.now roles.now count
        (filled out.old head) place }
{
    let h = find_wire(kinds, numbers, table, roles, count, out, head, place);
    let token = h.token;
    if token < capped(count) {
        let id = number_at(numbers, token);
        return target_of(numbers, roles, count as usize, id);
    }
    let g = find_thread(kinds, table, roles, count, out, h.pos, place);
    g.token
}

// The place of the item, by the tables of the text and the numbers of its names.
fn item_place(
    text: &[u8],
    kinds: &[u8; 16385],
    numbers: &[u32; 16385],
    places: &[u16; 16385],
    table: &[u32; 16385],
    count: u16,
    place: usize,
) -> usize
    ensures { result ≡ place_in text.now kinds.now numbers.now places.now
        table.now count place }
{
    let mut parts = [0u8; 65536];
    let mut roles = [0u8; 16385];
    let mut widths = [0u8; 16385];
    read(kinds, table, count, &mut parts, &mut roles, &mut widths);
    let mut out = [0u8; 65536];
    let head = put_head(&roles, &widths, count as usize, &mut out, 0);
    if place < head {
        return declared(text, place);
    }
    let t = token_of(kinds, numbers, table, &roles, count, &mut out, head, place);
    place_at(places, t)
}

// The numbers of the names, as the reader gives them: what declares them is read while each name has the number 0.
fn number_names(kinds: &[u8; 16385], numbers: &[u32; 16385], count: u16, table: &mut [u32; 16385])
    ensures { table.new ≡ names_from kinds.now numbers.now count table.old }
{
    let none = [0u8; 16385];
    let mut first = [0u32; 16385];
    number(kinds, numbers, &none, count as usize, &mut first);
    let mut parts = [0u8; 65536];
    let mut roles = [0u8; 16385];
    let mut widths = [0u8; 16385];
    read(kinds, &first, count, &mut parts, &mut roles, &mut widths);
    number(kinds, numbers, &roles, count as usize, table);
}

// The place in a text of the item that a byte of its sheet was written from.
pub fn origin(text: &[u8], place: usize) -> usize
    ensures { result ≡ origin_of text.now place }
{
    let mut kinds = [0u8; 16385];
    let mut numbers = [0u32; 16385];
    let mut places = [0u16; 16385];
    let count = short(scan(text, &mut kinds, &mut numbers, &mut places));
    let mut table = [0u32; 16385];
    number_names(&kinds, &numbers, count, &mut table);
    item_place(text, &kinds, &numbers, &places, &table, count, place)
}
