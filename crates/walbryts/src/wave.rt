// The file of a waveform or of a state. It is written under another name in the same folder, and takes the old one's place when the
// run is over and all is well; where the run is refused or fails, the old one stays as it is. A pipe or a device is written straight into.

use crate::files::flush;
use crate::report;
use crate::system::{Stream, System};
use options::Outcome;
use outputs::Aim;

// Where a file goes that a word names: nowhere, where there is no word; straight into a stream; or whole to its name's place. With the
// length of its name.
#[derive(Clone, Copy)]
pub enum Target {
    Nowhere,
    Straight(Stream, usize),
    Whole(usize),
}

impl Target {
    // How long the file's name is.
    pub fn length(&self) -> usize {
        match *self {
            Target::Nowhere => 0,
            Target::Straight(_, n) | Target::Whole(n) => n,
        }
    }
}

// The file: its name; its stream, where there is one; is it to take another's place; how much text waits; and was all written so far?
#[derive(Clone, Copy)]
pub struct Wave<'a> {
    path: &'a [u8],
    stream: Option<Stream>,
    whole: bool,
    pub pos: usize,
    pub good: bool,
}

// ---- which file it is

// Is a stream's file that of another, which has that name? A file whose name is not known is told by its device and number.
fn is_file(system: &System, stream: Stream, other: Stream, name: Option<&[u8]>) -> bool {
    let Some(name) = name else {
        return system.are_one(stream, other);
    };
    let mut buffer = [0u8; 4096];
    system
        .true_name(stream, &mut buffer)
        .is_some_and(|own| own == name)
}

// Is a file one that this command reads, or shows its table in?
fn is_own(
    system: &System,
    sheet: Stream,
    inputs: Stream,
    other: Stream,
    name: Option<&[u8]>,
) -> bool {
    is_file(system, sheet, other, name)
        || is_file(system, inputs, other, name)
        || is_file(system, Stream::Output, other, name)
}

// ---- where it goes

// A file that is there already, by a name of such a length: which one it is, by its true name; where this command reads it or shows its
// table in it, that is said.
fn present(
    system: &mut System,
    index: usize,
    sheet: Stream,
    inputs: Stream,
    stream: Stream,
    name: &mut [u8; 4096],
    length: usize,
) -> Result<Target, Outcome> {
    let mut buffer = [0u8; 4096];
    let known = system.true_name(stream, &mut buffer);
    let sought = system.is_seekable(stream);
    let own = sought && is_own(system, sheet, inputs, stream, known);
    match outputs::aim_of(own, true, sought) {
        Aim::Own => {
            system.close(stream);
            report::wrong_with(
                system,
                index,
                b": this command reads it or shows its table in it\n",
                0,
            );
            Err(Outcome::Mistaken)
        }
        Aim::Straight => Ok(Target::Straight(stream, length)),
        Aim::Whole => {
            let length = system
                .true_name(stream, name)
                .map_or(length, |path| path.len());
            system.close(stream);
            Ok(Target::Whole(length))
        }
    }
}

// Where the file goes that a word names, 0 where there is none: by the streams of the module and the inputs. Where it cannot be
// written, says why. Its name goes to the front of a buffer.
pub fn target_of(
    system: &mut System,
    index: usize,
    sheet: Stream,
    inputs: Stream,
    name: &mut [u8; 4096],
) -> Result<Target, Outcome> {
    // the word stays a number, 0 for none: `options` hands it over so (RunOptions)
    if index == 0 {
        return Ok(Target::Nowhere);
    }
    let Some(path) = system.word(index, name) else {
        system.fail(b"a file's name");
        return Err(Outcome::Mistaken);
    };
    let length = path.len();
    let found = system.open_append(path);
    if found.is_none() && !system.is_missing() {
        system.fail(path);
        return Err(Outcome::Mistaken);
    }
    match found {
        Some(stream) => present(system, index, sheet, inputs, stream, name, length),
        None => Ok(Target::Whole(length)),
    }
}

// The name that a file has until it is whole, out of a buffer: the process is known by what /proc/self says.
fn part_of<'a>(system: &System, path: &[u8], text: &'a mut [u8; 65536]) -> Option<&'a [u8]> {
    let mut buffer = [0u8; 4096];
    let id = system.process(&mut buffer).unwrap_or(b"");
    let n = outputs::put_part(path, id, text, 0);
    text.get(..n)
}

// The file, made, which is to have that name; where it cannot be, says why.
pub fn made<'a>(system: &mut System, t: Target, path: &'a [u8]) -> Result<Wave<'a>, Outcome> {
    let wave = Wave {
        path,
        stream: None,
        whole: false,
        pos: 0,
        good: true,
    };
    match t {
        Target::Nowhere => Ok(wave),
        Target::Straight(stream, _) => Ok(Wave {
            stream: Some(stream),
            ..wave
        }),
        Target::Whole(_) => {
            let stream = create(system, path);
            if stream.is_none() {
                system.fail(path);
                return Err(Outcome::Mistaken);
            }
            Ok(Wave {
                stream,
                whole: true,
                ..wave
            })
        }
    }
}

fn create(system: &mut System, path: &[u8]) -> Option<Stream> {
    let mut text = [0u8; 65536];
    let part = part_of(system, path, &mut text)?;
    system.create(part)
}

// ---- its end

// A file that is whole takes its name; where it can't, says why.
fn rename(system: &mut System, path: &[u8]) -> Result<(), Outcome> {
    let mut text = [0u8; 65536];
    let Some(part) = part_of(system, path, &mut text) else {
        system.fail(path);
        return Err(Outcome::Mistaken);
    };
    if system.rename(part, path) {
        return Ok(());
    }
    system.fail(path);
    system.remove(part);
    Err(Outcome::Mistaken)
}

// A file that did not become whole goes.
fn remove(system: &mut System, path: &[u8]) {
    let mut text = [0u8; 65536];
    if let Some(part) = part_of(system, path, &mut text) {
        system.remove(part);
    }
}

// A file is closed. Is all of it stored? What is written straight into needs no more than that.
fn shut(system: &mut System, stream: Stream, whole: bool) -> bool {
    if whole {
        return system.finish(stream);
    }
    system.close(stream);
    true
}

impl Wave<'_> {
    // What waits is written; where that fails, says why.
    pub fn spill(&mut self, system: &mut System, text: &[u8; 65536]) {
        let pos = self.pos;
        self.pos = 0;
        let Some(stream) = self.stream else {
            return;
        };
        if !self.good {
            return;
        }
        self.good = flush(system, stream, text, pos);
        if !self.good {
            system.fail(self.path);
        }
    }

    // The run is over, and ends so: the file is closed, and takes its name where all is well.
    pub fn close(&self, system: &mut System, ended: Result<(), Outcome>) -> Result<(), Outcome> {
        let Some(stream) = self.stream else {
            return ended;
        };
        let stored = shut(system, stream, self.whole);
        if !stored {
            system.fail(self.path);
        }
        let mine = if self.good && stored {
            Ok(())
        } else {
            Err(Outcome::Mistaken)
        };
        let all = ended.and(mine);
        if !self.whole {
            return all;
        }
        if all.is_ok() {
            return rename(system, self.path);
        }
        remove(system, self.path);
        all
    }
}

// ---- a file that is written at the end of the run

// Where it goes, once more: what is written straight into is still open.
pub fn target_again(
    system: &mut System,
    index: usize,
    t: Target,
    sheet: Stream,
    inputs: Stream,
    name: &mut [u8; 4096],
) -> Result<Target, Outcome> {
    let Target::Straight(stream, _) = t else {
        return target_of(system, index, sheet, inputs, name);
    };
    let length = system.word(index, name).map_or(0, |path| path.len());
    Ok(Target::Straight(stream, length))
}
