// `--expect`: the table is held to a file, byte by byte, as it goes out. The first difference is said.
use crate::files::{open_input, read_on, write_filled};
use crate::report::say_spot;
use crate::system::{Stream, System};
use options::Outcome;

// The file: the word that names it, its stream where there is one, how many lines were met, and what it failed by.
#[derive(Clone, Copy)]
pub struct Expected {
    index: usize,
    file: Option<Stream>,
    lines: usize,
    failure: Option<Outcome>,
}

// The file that a word names, 0 where there is none; where it cannot be read, says why.
pub fn opened(system: &mut System, index: usize) -> Result<Expected, Outcome> {
    let mut expected = Expected {
        index,
        file: None,
        lines: 0,
        failure: None,
    };
    // the word stays a number, 0 for none: `options` hands it over so (RunOptions)
    if index != 0 {
        let stream = open_input(system, index).ok_or(Outcome::Mistaken)?;
        expected.file = Some(stream);
    }
    Ok(expected)
}

// The line of the table or of the file where they differ.
fn say_line(system: &mut System, text: &[u8], place: usize) {
    write_filled(system, Stream::Errors, |out| {
        verilog_errors::put_line(text, place, out, 0)
    });
}

impl Expected {
    // The first difference, behind so many bytes: the place in the file, the table's line and the file's.
    fn say_difference(&self, system: &mut System, table: &[u8], file: &[u8], place: usize) {
        let s = verilog_errors::spot_of(table, place);
        let line = self.lines.wrapping_add(s.line);
        say_spot(system, Stream::Errors, self.index, line, s.column);
        system.write(
            Stream::Errors,
            b"the table is not as expected; its line, and that of this file:\n",
        );
        say_line(system, table, place);
        say_line(system, file, place);
    }

    // So many bytes of the buffer are filled: more of the file behind them. Gives how far it is filled.
    fn read_behind(
        &self,
        system: &mut System,
        stream: Stream,
        buffer: &mut [u8; 65536],
        at: usize,
    ) -> usize {
        let Some(rest) = buffer.get_mut(at..) else {
            return at;
        };
        let more = match read_on(system, self.index, stream, rest) {
            Ok(size) => size,
            Err(unread) => unread.size,
        };
        at.wrapping_add(more)
    }

    // A part of the table goes out: as many bytes of the file are to be the same.
    fn meet_part(
        &mut self,
        system: &mut System,
        stream: Stream,
        table: &[u8],
    ) -> Result<(), Outcome> {
        let mut buffer = [0u8; 65536];
        let part = buffer.get_mut(..table.len()).ok_or(Outcome::Mistaken)?;
        let Ok(size) = read_on(system, self.index, stream, part) else {
            return Err(Outcome::Mistaken);
        };
        let same = outputs::common(table, buffer.get(..size).unwrap_or(b""));
        if same == table.len() {
            let more = verilog_errors::spot_of(table, same).line.wrapping_sub(1);
            self.lines = self.lines.wrapping_add(more);
            return Ok(());
        }
        let behind = self.read_behind(system, stream, &mut buffer, size);
        if let Some(file) = buffer.get(..behind) {
            self.say_difference(system, table, file, same);
        }
        Err(Outcome::Different)
    }

    // The front of a text goes out.
    pub fn meet(&mut self, system: &mut System, text: &[u8; 65536], pos: usize) {
        let Some(stream) = self.file else {
            return;
        };
        if pos == 0 || self.failure.is_some() {
            return;
        }
        let met = match text.get(..pos) {
            Some(table) => self.meet_part(system, stream, table),
            None => Err(Outcome::Mistaken),
        };
        self.failure = met.err();
    }

    // The table is at its end, and so is the file to be. Gives how it went.
    pub fn end(&self, system: &mut System) -> Result<(), Outcome> {
        if let Some(outcome) = self.failure {
            return Err(outcome);
        }
        let Some(stream) = self.file else {
            return Ok(());
        };
        let mut byte = [0u8; 1];
        let Ok(size) = read_on(system, self.index, stream, &mut byte) else {
            return Err(Outcome::Mistaken);
        };
        if size == 0 {
            return Ok(());
        }
        let line = self.lines.wrapping_add(1);
        say_spot(system, Stream::Errors, self.index, line, 1);
        system.write(Stream::Errors, b"the table ends in front of this line\n");
        Err(Outcome::Different)
    }
}
