// Words outside the forms, and what is allowed in a text where its sheet is refused.
ghost use Rattle.std.specs.Prelude.{◌≡◌, eqb, get_or, take, drop};
ghost use Rattle.writing.specs.Buffer.{filled, puts};
ghost use Rattle.verilog_errors.specs.Notes.{opens, sentence_by, note_words, permission};

use crate::found::size_at;
use reasons::{next_line, put_rest};

// Does a blank stand at a place of a table?
fn is_blank(table: &[u8], at: usize) -> bool
    ensures { result ≡ eqb (get_or table.now at 0) 32 }
{
    at < table.len() && table[at] == b' '
}

// Does a table go on, from a place, with the first so many characters of a word and a blank?
fn opens(table: &[u8], from: usize, word: &[u8], n: usize) -> bool
    ensures { result ≡ opens (take n word.now) (drop from table.now) }
{
    let mut left = n;
    let mut j = from;
    for i in 0..word.len() {
        if left == 0 {
            return is_blank(table, j);
        }
        if table.len() <= j {
            return false;
        }
        if word[i] != table[j] {
            return false;
        }
        left -= 1;
        j += 1;
    }
    is_blank(table, j)
}

// The line of a table that opens with a word; nothing where none of 64 does.
fn put_sentence(table: &[u8], word: &[u8], n: usize, out: &mut [u8; 65536], pos: usize) -> usize
    ensures { filled out.new result
        ≡ puts (filled out.old pos) (sentence_by 64 (take n word.now) table.now) }
{
    let mut from = 0;
    for _ in 0usize..64 {
        if opens(table, from, word, n) {
            return put_rest(table, from, out, pos);
        }
        from = next_line(table, from);
    }
    pos
}

// What is to be said of the token at a place; nothing of most.
pub fn put_note(text: &[u8], place: usize, out: &mut [u8; 65536], pos: usize) -> usize
    ensures { filled out.new result ≡ puts (filled out.old pos) (note_words text.now place) }
{
    if text.len() <= place {
        return pos;
    }
    let n = size_at(text, place);
    put_sentence(
        b"output is outside the forms that are read: leave the declaration out; registers and wires are shown by name\ninout is outside the forms that are read: leave the declaration out; registers and wires are shown by name\ninitial is outside the forms that are read: registers are unknown at the start, and a reset sets them\n# is outside the forms that are read: delays are left out; @(posedge clock) waits for the clock\ninteger is outside the forms that are read: declare a reg with its range\nreal is outside the forms that are read: declare a reg with its range\ntime is outside the forms that are read: declare a reg with its range\nsigned is outside the forms that are read: all values are unsigned\nparameter is outside the forms that are read: write the constant with its width\nlocalparam is outside the forms that are read: write the constant with its width\nassign begins an item of its own, beside always: in a statement = and <= assign\ninput begins an item of its own: the ports of a module are plain names\nreg begins an item of its own: what is declared stands before or behind always, and not in it\nwire begins an item of its own, and has its value by an assign\nalways begins an item of its own: is an end, or a ; missing before it?\nfor is outside the forms that are read: write a while\nrepeat is outside the forms that are read: write a while\nwait is outside the forms that are read: write @ and the names that are waited for\nfork is outside the forms that are read: each always runs beside the others\nfunction is outside the forms that are read: write an assign to a wire\ntask is outside the forms that are read: write the statements where they are to be done\ngenerate is outside the forms that are read: write each item\ngenvar is outside the forms that are read: write each item\ncasex is outside the forms that are read: write a case, or an if for each label\ncasez is outside the forms that are read: write a case, or an if for each label\ndisable is outside the forms that are read: write an if\nmacromodule is outside the forms that are read: write module\n{ is outside the forms that are read: values are not joined\n} is outside the forms that are read: values are not joined\n* is outside the forms that are read: nothing is multiplied, and a wait names what it waits for\n/ is outside the forms that are read: nothing is divided, and a comment that opens with /* needs its */\n% is outside the forms that are read: nothing is divided\n> is outside the forms that are read: a > b is b < a, a >= b is !(a < b)\n^~ is outside the forms that are read: a ^~ b is a ^ (~b)\n&& is outside the forms that are read: & of two one-bit values is meant\n& stands once between two values: for && write & of one-bit values\n| stands once between two values: for || write | of one-bit values\n< stands once between two values: nothing is shifted\n<= assigns where it stands behind the name that a statement begins with; a <= b is !(b < a)\n! stands before a name, a constant or parentheses: a != b is !(a == b)\n~ stands before a name, a constant or parentheses\n- stands between two values: -a is 8'd0 - a for a of eight bits\n. is outside the forms that are read: ports are plain names, and there is one module\n$ is outside the forms that are read: there are no system tasks\n` is outside the forms that are read: there are no directives\n\\ is outside the forms that are read: names are letters, digits, _ and $\n\" is outside the forms that are read: there are no strings\n' and a base stand behind the width of a constant, as 8'hff; its digits are all known or all x",
        &text[place..],
        n,
        out,
        pos,
    )
}

// What is allowed of a text where its sheet is refused with that number.
pub fn put_permission(number: u8, out: &mut [u8; 65536], pos: usize) -> usize
    ensures { filled out.new result ≡ puts (filled out.old pos) (permission number) }
{
    reasons::put_line(
        b"\na module whose sheet has at most 8,192 bytes\n\n1 to 16 inputs, 1 to 32 registers, at most 32 wires and 1 to 8 always\n[n:0] with n at most 31; the first input is the clock, without a range\n\nconstants of width 1 to 32, and 1 to 8 names in a wait\nexpressions at most 16 deep, statements at most 64: each statement of a block stands one deeper than the one before it\nequal widths of both operands, of both arms, of a name and what is assigned to it; posedge and negedge of one-bit names\nin always the names declared by reg are assigned to\n\nat most 256 instructions in an always",
        number as usize,
        out,
        pos,
    )
}
