// The place of a refusal in words.
ghost use Rattle.std.specs.Prelude.{◌≡◌, ◌<◌};
ghost use Rattle.writing.specs.Buffer.{filled, puts};
ghost use Rattle.overview.specs.Found.{spot_words, place_words, digit_of, hex_of, byte_words, found_words};

use crate::lines::put_labelled;
use writing::{put_byte, put_word};

// A line and a column.
fn put_spot(view: &[u8], place: usize, text: &mut [u8; 65536], pos: usize) -> usize
    ensures { filled text.new result ≡ puts (filled text.old pos) (spot_words view.now place) }
{
    let s = hextext::spot(view, place);
    let a = put_labelled(b":", s.line, text, pos);
    let b = put_labelled(b":", s.column, text, a);
    put_word(b": ", text, b)
}

// Where in its file a byte of the sheet stands: line and column of hexadecimal text, else the byte.
pub fn put_place(view: &[u8], hex: bool, place: usize, text: &mut [u8; 65536], pos: usize) -> usize
    ensures { filled text.new result ≡ puts (filled text.old pos) (place_words view.now hex place) }
{
    if hex {
        return put_spot(view, place, text, pos);
    }
    let a = put_labelled(b": byte ", place, text, pos);
    put_word(b": ", text, a)
}

// One of the sixteen digits.
fn digit(n: u8) -> u8
    requires { n < 16 }
    ensures { result ≡ digit_of n }
{
    if n < 10 { 48 + n } else { 55 + n }
}

// A byte in hexadecimal.
fn put_hex(b: u8, text: &mut [u8; 65536], pos: usize) -> usize
    ensures { filled text.new result ≡ puts (filled text.old pos) (hex_of b) }
{
    let p = put_byte(digit(b / 16), text, pos);
    let q = put_byte(digit(b % 16), text, p);
    put_word(b"h\n", text, q)
}

// A byte of the sheet and its place.
fn put_byte_at(sheet: &[u8], place: usize, text: &mut [u8; 65536], pos: usize) -> usize
    ensures { filled text.new result ≡ puts (filled text.old pos) (byte_words sheet.now place) }
{
    let a = put_labelled(b"  found: byte ", place, text, pos);
    if sheet.len() <= place {
        return put_word(b" is past the end\n", text, a);
    }
    let b = put_word(b" is ", text, a);
    put_hex(sheet[place], text, b)
}

// What stands at the place of a refusal, by its number.
pub fn put_found(
    sheet: &[u8],
    number: u8,
    place: usize,
    text: &mut [u8; 65536],
    pos: usize,
) -> usize
    ensures { filled text.new result ≡ puts (filled text.old pos) (found_words sheet.now number place) }
{
    if number == 1 {
        return put_word(b"  found: over 8,192 bytes\n", text, pos);
    }
    if number == 11 {
        let a = put_labelled(b"  found: a longer thread from byte ", place, text, pos);
        return put_word(b" on\n", text, a);
    }
    put_byte_at(sheet, place, text, pos)
}
