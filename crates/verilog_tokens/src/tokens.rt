// The token at a place.
ghost use Rattle.std.specs.Prelude.{◌≡◌, ◌<◌, length, drop};
ghost use Rattle.verilog_tokens.specs.Tokens.{word, sign};
ghost use Rattle.verilog_tokens.specs.Pieces.{piece_in, piece_at};

use crate::characters::{is_below, is_letter, run_end};
use crate::constants::based;
use crate::numbers::unsigned;
use crate::words::{sign_size, terminal_kind, word_kind};
use crate::{Class, Kind, Piece};

// The word at a place.
fn word(text: &[u8], at: usize) -> Piece
    requires { at < length text.now }
    ensures { result ≡ piece_in (word 0 (drop at text.now)) }
{
    let end = run_end(text, at, Class::Word);
    let kind = word_kind(&text[at..end]);
    Piece {
        kind,
        number: 0,
        size: end - at,
    }
}

// The sign at a place.
fn sign(text: &[u8], at: usize) -> Piece
    requires { at < length text.now }
    ensures { result ≡ piece_in (sign (drop at text.now)) }
{
    let n = sign_size(&text[at..]);
    if n == 0 {
        return Piece {
            kind: Kind::Broken as u8,
            number: 0,
            size: 0,
        };
    }
    let end = at + n;
    let kind = terminal_kind(&text[at..end]);
    Piece {
        kind,
        number: 0,
        size: n,
    }
}

// The token at a place.
pub fn token_at(text: &[u8], at: usize) -> Piece
    ensures { result ≡ piece_at text.now at }
{
    if text.len() <= at {
        return Piece {
            kind: Kind::TextEnd as u8,
            number: 0,
            size: 0,
        };
    }
    let b = text[at];
    if is_letter(b) {
        return word(text, at);
    }
    if is_below(10, b) {
        return unsigned(text, at);
    }
    if b == b'\'' {
        return based(text, at + 1);
    }
    sign(text, at)
}
