// The Reader's functions. Each takes the struct apart and calls the function on slice and number that does the work;
// their proofs are walks of the code.
ghost use Rattle.std.specs.Prelude.{◌≡◌, ◌-◌, length};
ghost use Rattle.sheet.specs.Reading.{within, word_at};
ghost use Rattle.sheet.specs.Parts.{byte_answer, place_answer, functions_answer, wires_answer};
ghost use Rattle.sheet.specs.Reader.{reader_at, head_read, counts_from, widths_from, functions_from, functions_read, wires_from, wires_read, threads_from, word_answer};

use super::body::{threads_after, wires_after};
use super::bytes::{left_of, read_within, read_word};
use super::functions::functions_after;
use super::head::{read_counts, widths_after};
use super::{ByteRead, FunctionsRead, HeadRead, PlaceRead, Reader, WiresRead, WordRead};

// A Reader over a sheet: the next place is the first.
pub(crate) fn over<'a>(sheet: &'a [u8]) -> Reader<'a>
    ensures { result ≡ reader_at sheet.entry 0 }
{
    Reader { sheet, at: 0 }
}

// The Reader at another place of its sheet.
pub(crate) fn moved<'a>(r: Reader<'a>, at: usize) -> Reader<'a>
    ensures { result ≡ reader_at r.entry.sheet at }
{
    Reader { sheet: r.sheet, at }
}

// The next place.
pub(crate) fn place<'a>(r: Reader<'a>) -> usize
    ensures { result ≡ r.entry.at }
{
    r.at
}

// How many bytes are left, from the next place on.
pub(crate) fn left<'a>(r: Reader<'a>) -> usize
    ensures { result ≡ length r.entry.sheet.now - r.entry.at }
{
    left_of(r.sheet, r.at)
}

// The next byte, from low to high; outside, the number is met at that byte.
pub(crate) fn byte<'a>(r: Reader<'a>, low: u8, high: u8, number: u8) -> ByteRead
    ensures { result ≡ byte_answer (within low high number r.entry.sheet.now r.entry.at) }
{
    read_within(r.sheet, r.at, low, high, number)
}

// The number that the next four bytes are.
pub(crate) fn word<'a>(r: Reader<'a>) -> WordRead
    ensures { result ≡ word_answer (word_at r.entry.sheet.now r.entry.at) }
{
    read_word(r.sheet, r.at)
}

// The counts and the clock's width; the sheet's length is judged first.
pub(crate) fn counts<'a>(r: Reader<'a>) -> HeadRead
    ensures { result ≡ counts_from r.entry.sheet.now r.entry.at }
{
    read_counts(r.sheet, r.at)
}

// The other widths, as many as the counts ask for.
pub(crate) fn widths<'a>(r: Reader<'a>, counts: HeadRead) -> HeadRead
    ensures { result ≡ widths_from r.entry.sheet.now r.entry.at counts }
{
    widths_after(r.sheet, r.at, counts)
}

// The functions, behind the head of this sheet.
pub(crate) fn functions<'a>(r: Reader<'a>, head: HeadRead) -> FunctionsRead
    requires { head ≡ head_read r.sheet.now }
    ensures { result ≡ functions_answer (functions_from r.entry.sheet.now r.entry.at) }
{
    functions_after(r.sheet, r.at, head)
}

// The wires' expressions, behind the head and the functions of this sheet.
pub(crate) fn wires<'a>(r: Reader<'a>, head: HeadRead, all: FunctionsRead) -> WiresRead
    requires { (head ≡ head_read r.sheet.now) × (all ≡ functions_answer (functions_read r.sheet.now)) }
    ensures { result ≡ wires_answer (wires_from r.entry.sheet.now r.entry.at) }
{
    wires_after(r.sheet, r.at, head, all)
}

// The threads' statements, behind the head, the functions and the wires of this sheet.
pub(crate) fn threads<'a>(
    r: Reader<'a>,
    head: HeadRead,
    all: FunctionsRead,
    row: WiresRead,
) -> PlaceRead
    requires { (head ≡ head_read r.sheet.now) × (all ≡ functions_answer (functions_read r.sheet.now)) × (row ≡ wires_answer (wires_read r.sheet.now)) }
    ensures { result ≡ place_answer (threads_from r.entry.sheet.now r.entry.at) }
{
    threads_after(r.sheet, r.at, head, all, row)
}
