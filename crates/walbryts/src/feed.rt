// The rows of an inputs file, a line a cycle, read as the run goes on.
use crate::files::read_more;
use crate::report::wrong_inputs;
use crate::system::{Stream, System};
use options::Outcome;
use stimulus::Waiting;

// How far the file is read: the word that names it, its stream, the part of the buffer that waits, the line it begins with, and whether
// the file is at its end.
#[derive(Clone, Copy)]
pub struct Feed {
    pub index: usize,
    pub stream: Stream,
    from: usize,
    to: usize,
    line: usize,
    ended: bool,
}

// A row of inputs, the clock's slot in front.
#[derive(Clone, Copy)]
pub struct Row {
    pub value: [u32; 16],
    pub unknown: [u32; 16],
}

// Why a line is no row: the error of the line and its column.
#[derive(Clone, Copy)]
pub struct Fault {
    // stays a number: `stimulus` and `driving::line_of` speak of these
    pub error: u8,
    pub column: usize,
}

// The error of a blank line and of the file's end.
const NO_ROW: u8 = 1;

// The error of a line that is too long.
const TOO_LONG: u8 = 7;

pub fn over(index: usize, stream: Stream) -> Feed {
    Feed {
        index,
        stream,
        from: 0,
        to: 0,
        line: 0,
        ended: false,
    }
}

// What waits moves to the front of the buffer. Gives its length.
fn move_down(buffer: &mut [u8], from: usize, to: usize) -> usize {
    let end = to.min(buffer.len());
    if from > end {
        return 0;
    }
    buffer.copy_within(from..end, 0);
    end - from
}

// The row of a line.
fn row_of(line: &[u8], widths: &[u8; 80], inputs: u8) -> Result<Row, Fault> {
    let p = stimulus::parse(line, widths, inputs);
    if p.error != 0 {
        return Err(Fault {
            error: p.error,
            column: p.column,
        });
    }
    // arrays go through variables: a field's put straight into another's place gets no proof
    let value = p.value;
    let unknown = p.unknown;
    Ok(Row { value, unknown })
}

impl Feed {
    // ---- reading on

    // Is no whole line there, and more to be read?
    pub fn is_dry(&self, buffer: &[u8; 65536]) -> bool {
        matches!(
            stimulus::find_line(buffer, self.from, self.to, self.ended),
            Waiting::More
        )
    }

    // Is there nothing more to come?
    pub fn is_over(&self) -> bool {
        self.ended && self.to <= self.from
    }

    // How many bytes a byte order mark takes in front of the file, of which so many bytes are there.
    fn mark_size(&self, bytes: &[u8; 65536], to: usize) -> usize {
        match bytes.get(..to) {
            Some(front) if self.line == 0 && self.to == 0 => sources::mark_size(front),
            _ => 0,
        }
    }

    // More of the file behind what waits; where it cannot be read, says why.
    pub fn refill(&mut self, system: &mut System, buffer: &mut [u8; 65536]) -> Result<(), Outcome> {
        let n = move_down(buffer, self.from, self.to);
        let Some(to) = read_more(system, self.index, self.stream, buffer, n) else {
            return Err(Outcome::Mistaken);
        };
        self.from = self.mark_size(buffer, to);
        self.to = to;
        self.ended = to == n;
        Ok(())
    }

    // ---- lines

    // The line that waits first.
    pub fn next_row(
        &mut self,
        buffer: &[u8; 65536],
        widths: &[u8; 80],
        inputs: u8,
    ) -> Result<Row, Fault> {
        match stimulus::find_line(buffer, self.from, self.to, self.ended) {
            Waiting::Whole(end) => {
                let line = buffer.get(self.from..end).ok_or(Fault {
                    error: NO_ROW,
                    column: 0,
                })?;
                self.from = stimulus::counted(end);
                self.line = stimulus::counted(self.line);
                row_of(line, widths, inputs)
            }
            Waiting::Long => {
                self.line = stimulus::counted(self.line);
                Err(Fault {
                    error: TOO_LONG,
                    column: 1,
                })
            }
            Waiting::More | Waiting::Nothing => Err(Fault {
                error: NO_ROW,
                column: 0,
            }),
        }
    }

    // The rows that wait in the buffer, 32 at most, 16 slots each. Gives how many slots they fill. The line behind them that is none is
    // taken only where no row is in front of it.
    pub fn next_rows(
        &mut self,
        buffer: &[u8; 65536],
        widths: &[u8; 80],
        inputs: u8,
        value: &mut [u32; 512],
        unknown: &mut [u32; 512],
    ) -> Result<usize, Fault> {
        for k in 0..32 {
            let at = 16 * k;
            let mut ahead = *self;
            let next = ahead.next_row(buffer, widths, inputs);
            if k > 0 && next.is_err() {
                return Ok(at);
            }
            *self = ahead;
            let row = next?;
            value[at..at + 16].copy_from_slice(&row.value);
            unknown[at..at + 16].copy_from_slice(&row.unknown);
        }
        Ok(512)
    }

    // What is wrong with a line.
    pub fn say(&self, system: &mut System, fault: Fault) {
        wrong_inputs(system, self.index, self.line, fault.column, fault.error);
    }
}
