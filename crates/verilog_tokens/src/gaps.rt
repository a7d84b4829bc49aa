// Comments and gaps at a place of a text.
ghost use Rattle.std.specs.Prelude.{◌≡◌, ◌&&◌, ◌+◌, ◌≤◌, eqb, length, get_or, drop};
ghost use Rattle.verilog_tokens.specs.Tokens.{is_slash, closing, line_comment, block_comment, comment, blank, gap};
ghost use Rattle.verilog_tokens.specs.Pieces.{some_length};

use crate::Class;
use crate::characters::{is_newline, run_end};

// Is there a slash?
fn is_slash(text: &[u8], at: usize) -> bool
    ensures { result ≡ is_slash (drop at text.now) }
{
    at < text.len() && text[at] == b'/'
}

// Is there a `*/`?
fn closes(text: &[u8], at: usize) -> bool
    ensures { result ≡ (eqb (get_or text.now at 0) 42 && is_slash (drop (at + 1) text.now)) }
{
    if text.len() <= at {
        return false;
    }
    text[at] == b'*' && is_slash(text, at + 1)
}

// How far off the first `*/` ends, with nothing but ASCII before it.
fn closing(text: &[u8], at: usize) -> Option<usize>
    ensures { result ≡ some_length (closing (drop at text.now)) }
{
    for i in at..text.len() {
        if closes(text, i) {
            return Some(i - at + 2);
        }
        if 128 <= text[i] {
            return None;
        }
    }
    None
}

// The length of the comment whose `//` stands in front of the place.
fn line_comment(text: &[u8], at: usize) -> Option<usize>
    requires { (2 ≤ at) × (at ≤ length text.now) }
    ensures { result ≡ some_length (line_comment (drop at text.now)) }
{
    let end = run_end(text, at, Class::Comment);
    if text.len() <= end {
        return Some(end - at + 2);
    }
    if is_newline(text[end]) {
        return Some(end - at + 2);
    }
    None
}

// The length of the comment whose `/*` stands in front of the place.
fn block_comment(text: &[u8], at: usize) -> Option<usize>
    requires { (2 ≤ at) × (at ≤ length text.now) }
    ensures { result ≡ some_length (block_comment (drop at text.now)) }
{
    match closing(text, at) {
        Some(n) => Some(n + 2),
        None => None,
    }
}

// The length of the comment at a place.
fn comment(text: &[u8], at: usize) -> Option<usize>
    ensures { result ≡ some_length (comment (drop at text.now)) }
{
    if text.len() <= at {
        return None;
    }
    if text.len() - at < 2 {
        return None;
    }
    if text[at] != b'/' {
        return None;
    }
    if text[at + 1] == b'/' {
        return line_comment(text, at + 2);
    }
    if text[at + 1] == b'*' {
        return block_comment(text, at + 2);
    }
    None
}

// The length of the white space or else of the comment at a place.
fn blank(text: &[u8], at: usize) -> Option<usize>
    ensures { result ≡ some_length (blank (drop at text.now)) }
{
    let n = run_end(text, at, Class::Space) - at;
    if 0 < n {
        return Some(n);
    }
    comment(text, at)
}

// Where the gap at a place ends.
pub fn gap_end(text: &[u8], at: usize) -> usize
    ensures { result ≡ at + gap (drop at text.now) }
{
    let mut i = at;
    while i < text.len() {
        let Some(n) = blank(text, i) else {
            return i;
        };
        i += n;
    }
    i
}
