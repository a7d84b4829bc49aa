// Files by the words that name them; `-` is standard input. Every read and every write is judged.
use crate::system::{Stream, System};
use options::Outcome;

// What was read of a file: how far the buffer is filled, and from which stream.
#[derive(Clone, Copy)]
pub struct Got {
    pub size: usize,
    pub stream: Stream,
}

// A file that can't be read on, which was said; so many bytes of it were read before.
#[derive(Clone, Copy)]
pub struct Unread {
    pub size: usize,
}

// ---- writing

// Writes the front of a text. Was all of it written?
pub fn flush(system: &mut System, stream: Stream, text: &[u8], pos: usize) -> bool {
    let Some(part) = text.get(..pos) else {
        return false;
    };
    system.write(stream, part)
}

// Writes what a closure puts to the front of a text. Was all of it written?
pub fn write_filled<F: FnOnce(&mut [u8; 65536]) -> usize>(
    system: &mut System,
    stream: Stream,
    put: F,
) -> bool
    requires { F.IsAlwaysCallable put }
{
    let mut text = [0u8; 65536];
    let pos = put(&mut text);
    flush(system, stream, &text, pos)
}

// Says that standard output could not be written; where nobody reads it any more, nothing is said.
pub fn unshown(system: &mut System) {
    if !system.is_unread() {
        system.fail(b"standard output");
    }
}

// How a command ends by whether standard output was written; where it was not, says why.
fn judged(system: &mut System, shown: bool) -> Result<(), Outcome> {
    if shown {
        return Ok(());
    }
    unshown(system);
    Err(Outcome::Mistaken)
}

// Writes the front of a text to standard output; where that fails, says why.
pub fn show(system: &mut System, text: &[u8], pos: usize) -> Result<(), Outcome> {
    let shown = flush(system, Stream::Output, text, pos);
    judged(system, shown)
}

// The same of what a closure puts to the front of a text.
pub fn show_filled<F: FnOnce(&mut [u8; 65536]) -> usize>(
    system: &mut System,
    put: F,
) -> Result<(), Outcome>
    requires { F.IsAlwaysCallable put }
{
    let mut text = [0u8; 65536];
    let pos = put(&mut text);
    show(system, &text, pos)
}

// A word on standard output.
pub fn show_word(system: &mut System, word: &[u8]) -> Result<(), Outcome> {
    let shown = system.write(Stream::Output, word);
    judged(system, shown)
}

// ---- reading

// What stands in so many bytes of a buffer behind a byte order mark.
pub fn behind_mark(buffer: &[u8], size: usize) -> Option<&[u8]> {
    buffer.get(sources::mark_size(buffer)..size)
}

// Opens the file of a name; where that fails, says why.
fn open_path(system: &mut System, path: &[u8]) -> Option<Stream> {
    if matches!(path, b"-") {
        return Some(Stream::Input);
    }
    let stream = system.open_read(path);
    if stream.is_none() {
        system.fail(path);
    }
    stream
}

// Opens the file that a word names; where that fails, says why.
pub fn open_input(system: &mut System, index: usize) -> Option<Stream> {
    let mut buffer = [0u8; 4096];
    let Some(path) = system.word(index, &mut buffer) else {
        system.fail(b"a file's name");
        return None;
    };
    open_path(system, path)
}

// One read behind what stands in the buffer up to a place. Gives how far it is filled.
fn read_some(system: &mut System, stream: Stream, buffer: &mut [u8], at: usize) -> Option<usize> {
    let size = buffer.len();
    let Some(rest) = buffer.get_mut(at..) else {
        return Some(size);
    };
    if rest.is_empty() {
        return Some(size);
    }
    let n = system.read(stream, rest)?;
    Some(at.saturating_add(n).min(size))
}

// One read more of the file that a word names; where it fails, says why. Gives how far the buffer is filled.
pub fn read_more(
    system: &mut System,
    index: usize,
    stream: Stream,
    buffer: &mut [u8],
    at: usize,
) -> Option<usize> {
    let mut name = [0u8; 4096];
    let path = system.word(index, &mut name).unwrap_or(b"");
    let filled = read_some(system, stream, buffer, at);
    if filled.is_none() {
        system.fail(path);
    }
    filled
}

// Reads up to the file's end or the buffer's. Gives how far the buffer is filled.
pub fn read_on(
    system: &mut System,
    index: usize,
    stream: Stream,
    buffer: &mut [u8],
) -> Result<usize, Unread> {
    let mut at = 0;
    for _ in 0..u64::MAX {
        let size = read_more(system, index, stream, buffer, at).ok_or(Unread { size: at })?;
        if size == at {
            return Ok(size);
        }
        at = size;
    }
    Err(Unread { size: at })
}

// The file that a word names, as far as the buffer goes; where it cannot be read, says why. It stays open.
pub fn read_whole(system: &mut System, index: usize, buffer: &mut [u8]) -> Result<Got, Unread> {
    let stream = open_input(system, index).ok_or(Unread { size: 0 })?;
    let size = read_on(system, index, stream, buffer)?;
    Ok(Got { size, stream })
}

// Is the file that a word names Verilog text?
pub fn is_text(system: &mut System, verilog: bool, index: usize) -> bool {
    let mut buffer = [0u8; 4096];
    let path = system.word(index, &mut buffer).unwrap_or(b"");
    sources::is_text(verilog, path)
}
