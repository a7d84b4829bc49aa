// Lines of a file that is read piece by piece into a buffer.
ghost use Rattle.std.specs.Prelude.{◌≡◌};
ghost use Rattle.stimulus.specs.Waiting.{line_end, unended, waiting};

use crate::Waiting;
use crate::words::byte_at;

// The first line end from one place on, or the other place.
pub fn line_end(bytes: &[u8], from: usize, to: usize) -> usize
    ensures { result ≡ line_end bytes.now from to }
{
    for i in from..to {
        if byte_at(bytes, i) == 10 {
            return i;
        }
    }
    from.max(to)
}

// What waits without a line end, while the file has more: it is read on, or too long where it fills the buffer.
fn unended(bytes: &[u8], from: usize, to: usize) -> Waiting
    ensures { result ≡ unended bytes.now from to }
{
    if to < from {
        return Waiting::More;
    }
    if to - from < bytes.len() {
        return Waiting::More;
    }
    Waiting::Long
}

// What waits from one place to another; `ended` says that the file has nothing more.
pub fn find_line(bytes: &[u8], from: usize, to: usize, ended: bool) -> Waiting
    ensures { result ≡ waiting bytes.now from to ended }
{
    let end = line_end(bytes, from, to);
    if end < to {
        return Waiting::Whole(end);
    }
    if ended {
        if from < to {
            return Waiting::Whole(to);
        }
        return Waiting::Nothing;
    }
    unended(bytes, from, to)
}
