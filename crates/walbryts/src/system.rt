// The system as the command sees it: the words of its command line, the three standard streams, and files by their names. Only this
// module calls std's input and output. A call that fails leaves its error here, for `fail` to say.
ghost use Rattle.std.specs.Prelude.{◌≤◌, length, IfSome, IfOk};

use std::env::FillError;
use std::fs::{File, OpenOptions};
use std::io::{Error, ErrorKind, IsTerminal, Read, Seek, SeekFrom, Write};
use std::os::fd::AsRawFd;
use std::os::unix::fs::MetadataExt;
use std::rt::Env;
use std::{fs, io};

// One of the streams that a process begins with, or a file that was opened, by its number.
#[derive(Clone, Copy)]
pub enum Stream {
    Input,
    Output,
    Errors,
    Opened(usize),
}

// The streams, the files that were opened, and the error of the last call that failed.
#[derive(Drop)]
pub struct System {
    rt: HostRuntime,
    closed: bool,
    files: Vec<Option<File>>,
    error: Option<Error>,
}

// The numbers that the system gives to errors.
const BAD_DESCRIPTOR: i32 = 9;

const INVALID_ARGUMENT: i32 = 22;

const NAME_TOO_LONG: i32 = 36;

const ILLEGAL_BYTES: i32 = 84;

fn error_of(number: i32) -> Error {
    Error::from_raw_os_error(number)
}

// A path's text. std takes no other, so a name that is no UTF-8 can't be opened.
fn text_of(path: &[u8]) -> io::Result<&str> {
    match std::str::from_utf8(path) {
        Ok(text) => Ok(text),
        Err(_) => Err(error_of(ILLEGAL_BYTES)),
    }
}

// A text's first bytes go to the front of a buffer. Gives these.
fn copied<'a>(text: &str, out: &'a mut [u8; 4096]) -> &'a [u8]
    ensures { length result.now ≤ 4096 }
{
    let bytes = text.as_bytes();
    let n = bytes.len().min(4096);
    out[..n].copy_from_slice(&bytes[..n]);
    &out[..n]
}

// The number that stands behind a name in what the system tells of a descriptor, a line each.
fn number_after(text: &str, name: &str, base: u32) -> u64
    requires low { 2 ≤ base }
    requires high { base ≤ 36 }
{
    for line in text.lines() {
        if let Some(behind) = line.strip_prefix(name) {
            return u64::from_str_radix(behind.trim(), base).unwrap_or(0);
        }
    }
    0
}

impl System {
    pub fn new(rt: HostRuntime) -> System {
        System {
            rt,
            closed: false,
            files: Vec::new(rt.alloc()),
            error: None,
        }
    }

    // ---- errors

    fn has_kind(&self, kind: ErrorKind) -> bool {
        self.error.is_some_and(|e| e.kind() == kind)
    }

    // Was it for a file that is not there?
    pub fn is_missing(&self) -> bool {
        self.has_kind(ErrorKind::NotFound)
    }

    // Was it for a pipe that nobody reads any more?
    pub fn is_unread(&self) -> bool {
        self.has_kind(ErrorKind::BrokenPipe)
    }

    // What the system calls an error, without its number.
    fn say_reason(&mut self, e: Error) {
        let Ok(text) = e.to_string(self.rt.alloc()) else {
            self.write(Stream::Errors, b"Cannot allocate memory");
            return;
        };
        let words = text.as_str();
        let n = words.rfind(" (os error ").unwrap_or(words.len());
        if let Some(bytes) = words.as_bytes().get(..n) {
            self.write(Stream::Errors, bytes);
        }
    }

    // Says what failed, and why.
    pub fn fail(&mut self, what: &[u8]) {
        let error = self.error;
        self.write(Stream::Errors, what);
        self.write(Stream::Errors, b": ");
        match error {
            Some(e) => self.say_reason(e),
            None => {
                self.write(Stream::Errors, b"Success");
            }
        }
        self.write(Stream::Errors, b"\n");
    }

    // Was it done? If not, its error is kept.
    fn judge(&mut self, done: io::Result<()>) -> bool {
        match done {
            Ok(()) => true,
            Err(e) => {
                self.error = Some(e);
                false
            }
        }
    }

    // ---- words

    // A word of the command line, out of a buffer; nothing where there is none or it is too long.
    pub fn word<'a>(&mut self, index: usize, out: &'a mut [u8; 4096]) -> Option<&'a [u8]>
        ensures { IfSome result (λ w. length w.now ≤ 4096) }
    {
        match self.rt.arg(index, out) {
            Ok(n) => {
                self.error = None;
                out.get(..n)
            }
            Err(FillError::TooLong) => {
                self.error = Some(error_of(NAME_TOO_LONG));
                None
            }
            Err(FillError::NotPresent) => {
                self.error = Some(error_of(INVALID_ARGUMENT));
                None
            }
        }
    }

    // Is there such a word?
    pub fn has_word(&self, index: usize) -> bool {
        let mut front = [0u8; 1];
        !matches!(self.rt.arg(index, &mut front), Err(FillError::NotPresent))
    }

    // ---- reading and writing

    fn read_some(&mut self, stream: Stream, buffer: &mut [u8]) -> io::Result<usize>
        ensures { IfOk result (λ n. n ≤ length buffer.new) }
    {
        match stream {
            Stream::Input if !self.closed => self.rt.stdin().read(buffer),
            Stream::Opened(k) => match self.files.get_mut(k) {
                Some(Some(file)) => file.read(buffer),
                _ => Err(error_of(BAD_DESCRIPTOR)),
            },
            _ => Err(error_of(BAD_DESCRIPTOR)),
        }
    }

    // One read. Gives how many bytes came, nothing where it failed.
    pub fn read(&mut self, stream: Stream, buffer: &mut [u8]) -> Option<usize>
        ensures { IfSome result (λ n. n ≤ length buffer.new) }
    {
        match self.read_some(stream, buffer) {
            Ok(n) => Some(n),
            Err(e) => {
                self.error = Some(e);
                None
            }
        }
    }

    fn write_some(&mut self, stream: Stream, bytes: &[u8]) -> io::Result<usize>
        ensures { IfOk result (λ n. n ≤ length bytes.now) }
    {
        match stream {
            Stream::Output => self.rt.stdout().write(bytes),
            Stream::Errors => self.rt.stderr().write(bytes),
            Stream::Opened(k) => match self.files.get_mut(k) {
                Some(Some(file)) => file.write(bytes),
                _ => Err(error_of(BAD_DESCRIPTOR)),
            },
            _ => Err(error_of(BAD_DESCRIPTOR)),
        }
    }

    // Writes all bytes, or stops at the first write that fails or takes nothing. Were all written? A bool, for most callers go on either
    // way; why it failed is kept for `fail`.
    pub fn write(&mut self, stream: Stream, bytes: &[u8]) -> bool {
        let mut rest = bytes;
        for _ in 0..u64::MAX {
            if rest.is_empty() {
                return true;
            }
            match self.write_some(stream, rest) {
                Ok(0) => return false,
                Ok(n) => rest = &rest[n..],
                Err(e) => {
                    self.error = Some(e);
                    return false;
                }
            }
        }
        false
    }

    // ---- files

    fn stored(&mut self, opened: io::Result<File>) -> io::Result<usize> {
        let file = opened?;
        let k = self.files.len();
        self.files.push(Some(file))?;
        Ok(k)
    }

    // The stream of a file that was opened; nothing, where it could not be.
    fn kept(&mut self, opened: io::Result<File>) -> Option<Stream> {
        match self.stored(opened) {
            Ok(k) => Some(Stream::Opened(k)),
            Err(e) => {
                self.error = Some(e);
                None
            }
        }
    }

    fn opened(&self, how: &OpenOptions, path: &[u8]) -> io::Result<File> {
        how.open(&self.rt, text_of(path)?)
    }

    // A file to be read.
    pub fn open_read(&mut self, path: &[u8]) -> Option<Stream> {
        let opened = self.opened(OpenOptions::new().read(true), path);
        self.kept(opened)
    }

    // A file that is there, to be written behind its end.
    pub fn open_append(&mut self, path: &[u8]) -> Option<Stream> {
        let opened = self.opened(OpenOptions::new().append(true), path);
        self.kept(opened)
    }

    // A file that is not there, to be written.
    pub fn create(&mut self, path: &[u8]) -> Option<Stream> {
        let opened = self.opened(OpenOptions::new().write(true).create_new(true), path);
        self.kept(opened)
    }

    // Closes a stream.
    pub fn close(&mut self, stream: Stream) {
        match stream {
            Stream::Input => self.closed = true,
            Stream::Opened(k) => {
                if let Some(slot) = self.files.get_mut(k) {
                    *slot = None;
                }
            }
            _ => {}
        }
    }

    fn saved(&mut self, stream: Stream) -> io::Result<()> {
        match stream {
            Stream::Opened(k) => match self.files.get(k) {
                Some(Some(file)) => file.sync_all(),
                _ => Err(error_of(BAD_DESCRIPTOR)),
            },
            _ => Ok(()),
        }
    }

    // Closes a file that was written, behind all that waits to be stored. Was all of it?
    pub fn finish(&mut self, stream: Stream) -> bool {
        let saved = self.saved(stream);
        self.close(stream);
        self.judge(saved)
    }

    fn moved(&self, from: &[u8], to: &[u8]) -> io::Result<()> {
        fs::rename(&self.rt, text_of(from)?, text_of(to)?)
    }

    // A file takes another name. Did it?
    pub fn rename(&mut self, from: &[u8], to: &[u8]) -> bool {
        let done = self.moved(from, to);
        self.judge(done)
    }

    fn gone(&self, path: &[u8]) -> io::Result<()> {
        fs::remove_file(&self.rt, text_of(path)?)
    }

    // A file goes.
    pub fn remove(&mut self, path: &[u8]) -> bool {
        let done = self.gone(path);
        self.judge(done)
    }

    // ---- what is known of a stream

    pub fn is_terminal(&self, stream: Stream) -> bool {
        match stream {
            Stream::Output => self.rt.stdout().is_terminal(),
            Stream::Errors => self.rt.stderr().is_terminal(),
            _ => false,
        }
    }

    // Can a file be written at any place? A device may take every place and stay where it is.
    pub fn is_seekable(&mut self, stream: Stream) -> bool {
        match stream {
            Stream::Opened(k) => match self.files.get_mut(k) {
                Some(Some(file)) => matches!(file.seek(SeekFrom::Start(1)), Ok(1)),
                _ => false,
            },
            _ => false,
        }
    }

    // The number by which the system knows a stream; nothing, where it is closed.
    fn number(&self, stream: Stream) -> Option<i32> {
        match stream {
            Stream::Input if !self.closed => Some(0),
            Stream::Output => Some(1),
            Stream::Errors => Some(2),
            Stream::Opened(k) => match self.files.get(k) {
                Some(Some(file)) => Some(file.as_raw_fd()),
                _ => None,
            },
            _ => None,
        }
    }

    // Where the system shows a stream.
    fn place(&self, stream: Stream) -> io::Result<String> {
        let number = self.number(stream).ok_or(error_of(BAD_DESCRIPTOR))?;
        Ok(format!(in self.rt.alloc(); "/proc/self/fd/{number}")?)
    }

    fn link_of(&self, stream: Stream) -> io::Result<String> {
        let place = self.place(stream)?;
        Ok(fs::read_link(&self.rt, place)?.into_string())
    }

    // The name of the file that a stream is of, as the system knows it, out of a buffer; nothing where it is not known, or is no text.
    pub fn true_name<'a>(&self, stream: Stream, out: &'a mut [u8; 4096]) -> Option<&'a [u8]>
        ensures { IfSome result (λ w. length w.now ≤ 4096) }
    {
        match self.link_of(stream) {
            Ok(name) => Some(copied(name.as_str(), out)),
            Err(_) => None,
        }
    }

    // The device and the number of a stream's file.
    fn node(&self, stream: Stream) -> io::Result<(u64, u64)> {
        let place = self.place(stream)?;
        let known = fs::metadata(&self.rt, place)?;
        Ok((known.dev(), known.ino()))
    }

    // Are two streams of one file, by its device and number?
    pub fn are_one(&self, a: Stream, b: Stream) -> bool {
        match (self.node(a), self.node(b)) {
            (Ok(x), Ok(y)) => x == y,
            _ => false,
        }
    }

    // The number of this process, as /proc/self says it, out of a buffer.
    pub fn process<'a>(&self, out: &'a mut [u8; 4096]) -> Option<&'a [u8]>
        ensures { IfSome result (λ w. length w.now ≤ 4096) }
    {
        match fs::read_link(&self.rt, "/proc/self") {
            Ok(name) => Some(copied(name.as_str(), out)),
            Err(_) => None,
        }
    }

    // ---- the status

    // What the system tells of descriptor 3; nothing, where it is not open.
    fn told(&self) -> io::Result<Option<String>> {
        match fs::read_to_string(&self.rt, "/proc/self/fdinfo/3") {
            Ok(text) => Ok(Some(text)),
            Err(e) if e.kind() == ErrorKind::NotFound && fs::exists(&self.rt, "/proc/self")? => Ok(
                None,
            ),
            Err(e) => Err(e),
        }
    }

    // The file of descriptor 3, at its place, where it is open for writing.
    fn anew(&self, told: &str) -> io::Result<Option<File>> {
        let flags = number_after(told, "flags:", 8);
        if flags % 4 == 0 {
            return Ok(None);
        }
        let behind = flags / 1024 % 2 == 1;
        let mut how = OpenOptions::new();
        if behind {
            how.append(true);
        } else {
            how.write(true);
        }
        let mut file = how.open(&self.rt, "/proc/self/fd/3")?;
        if !behind {
            let _ = file.seek(SeekFrom::Start(number_after(told, "pos:", 10)));
        }
        Ok(Some(file))
    }

    // The stream on which the status is told: descriptor 3, which the process was given; nothing, where it was given none to write on.
    // std reaches it by its name alone, so it is opened anew, and before any other file, which might take its number. An error says
    // that it can't be.
    pub fn open_status(&mut self) -> io::Result<Option<Stream>> {
        let Some(told) = self.told()? else {
            return Ok(None);
        };
        match self.anew(told.as_str())? {
            Some(file) => Ok(Some(Stream::Opened(self.stored(Ok(file))?))),
            None => Ok(None),
        }
    }
}
