// Files that a command writes, and when it tells how far it has come. Each function equals its definition in specs/Outputs.
#![tactic(auto)]

ghost use Rattle.std.specs.Prelude.{◌≡◌};
ghost use Rattle.writing.specs.Buffer.{filled, puts};
ghost use Rattle.outputs.specs.Outputs.{aim_of, part_name, is_told, common};

use writing::{put_byte, put_word};

// How a file is written: not at all, since the command reads it; whole, under another name at first; or straight into what is there.
#[derive(Clone, Copy)]
pub enum Aim {
    Own,
    Whole,
    Straight,
}

// How a file is to be written: is it one that the command reads or shows its table in, is it there already, and has it a position?
#[tactic(auto, unfolding(crate::specs::Outputs::aim_of))]
pub fn aim_of(own: bool, found: bool, sought: bool) -> Aim
    ensures { result ≡ aim_of own found sought }
{
    if own {
        Aim::Own
    } else if found && !sought {
        Aim::Straight
    } else {
        Aim::Whole
    }
}

// The name that a file has until it is whole, by the name of the process that writes it.
pub fn put_part<'a>(path: &'a [u8], id: &'a [u8], text: &mut [u8; 65536], pos: usize) -> usize
    ensures { filled text.new result
        ≡ puts (filled text.old pos) (part_name path.now id.now) }
{
    let a = put_word(path, text, pos);
    let b = put_byte(b'.', text, a);
    let c = put_word(id, text, b);
    put_word(b".part", text, c)
}

// Is it told how far a run has come? Where it is asked for, or the run is long and errors go to a terminal; never where the table does.
#[tactic(auto, unfolding(crate::specs::Outputs::is_told))]
pub fn is_told(asked: bool, cycle: usize, errors: bool, table: bool) -> bool
    ensures { result ≡ is_told asked cycle errors table }
{
    !table && (asked || (10000 <= cycle && errors))
}

// How many bytes in front of two texts agree.
pub fn common(a: &[u8], b: &[u8]) -> usize
    ensures { result ≡ common a.now b.now }
{
    for i in 0..a.len() {
        if b.len() <= i {
            return i;
        }
        if a[i] != b[i] {
            return i;
        }
    }
    a.len()
}
