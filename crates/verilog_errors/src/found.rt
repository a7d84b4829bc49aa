// The token that stands at a place.
ghost use Rattle.std.specs.Prelude.{◌≡◌, ◌<◌, length};
ghost use Rattle.writing.specs.Buffer.{filled, puts};
ghost use Rattle.verilog_errors.specs.Found.{size_at, quoted, valued, found_words};

use crate::spots::{is_plain, put_part};
use verilog_tokens::token_at;
use writing::{put_decimal, put_word};

// How long the token at a place is; a byte that begins none is one long.
pub(crate) fn size_at(text: &[u8], place: usize) -> usize
    ensures { result ≡ size_at text.now place }
{
    let t = token_at(text, place);
    if t.size == 0 {
        return 1;
    }
    t.size
}

// A token between quotes.
pub(crate) fn put_quoted(text: &[u8], place: usize, out: &mut [u8; 65536], pos: usize) -> usize
    ensures { filled out.new result ≡ puts (filled out.old pos) (quoted text.now place) }
{
    let n = size_at(text, place);
    let a = put_word(b"`", out, pos);
    let b = put_part(text, place, n, false, out, a);
    put_word(b"`", out, b)
}

// A byte by its value.
fn put_valued(b: u8, out: &mut [u8; 65536], pos: usize) -> usize
    ensures { filled out.new result ≡ puts (filled out.old pos) (valued b) }
{
    let a = put_word(b"a byte of value ", out, pos);
    put_decimal(b as usize, out, a)
}

// What stands at a place: a token, a byte that begins none, or the text's end.
pub fn put_found(text: &[u8], place: usize, out: &mut [u8; 65536], pos: usize) -> usize
    ensures { filled out.new result ≡ puts (filled out.old pos) (found_words text.now place) }
{
    if text.len() <= place {
        return put_word(b"the end of the text", out, pos);
    }
    if is_plain(text[place]) {
        return put_quoted(text, place, out, pos);
    }
    put_valued(text[place], out, pos)
}
