// The sheet: bytes to module (document 01, "The sheet", with document 02, [5]), numbers 1 to 11, 44 and 45.
#![tactic(auto)]

mod body;
pub mod bytes;
mod expr;
mod functions;
mod head;
mod scan;
mod stmt;

ghost use Rattle.std.specs.Prelude.{◌≡◌};
ghost use Rattle.sheet.specs.Expression.{located};
ghost use Rattle.sheet.specs.Module.{whole_sheet, read_sheet};
ghost use Rattle.sheet.specs.Answers.{sheet_answer};

pub use bytes::{byte_at, word_at};
pub use expr::definition_at;
use values::Edge;

// One pair of a wait: an edge and the variable that it is awaited on.
#[derive(Clone, Copy)]
pub struct EdgeTerm {
    pub edge: Edge,
    pub variable: u8,
}

// The sheet's bytes together with the next place in them.
#[derive(Clone, Copy)]
pub struct Reader<'a> {
    pub sheet: &'a [u8],
    pub at: usize,
}

// A byte that was read, or a refusal's number and place.
#[derive(Clone, Copy)]
pub enum ByteRead {
    Byte(u8),
    Refused { number: u8, place: usize },
}

// A number of four bytes that was read, or a refusal's number and place.
#[derive(Clone, Copy)]
pub enum WordRead {
    Word(u32),
    Refused { number: u8, place: usize },
}

// What reading an expression finds: the next place in the sheet and its width, or a refusal's number and place.
#[derive(Clone, Copy)]
pub enum ExprRead {
    Read { next: usize, width: u8 },
    Refused { number: u8, place: usize },
}

// What reading a call's arguments finds: the next place in the sheet and whether their widths are the parameters', or a
// refusal's number and place.
#[derive(Clone, Copy)]
pub enum ArgumentsRead {
    Read { next: usize, fits: bool },
    Refused { number: u8, place: usize },
}

// What reading a wait's pairs finds: whether each edge suits its variable's width, or a refusal's number and place.
#[derive(Clone, Copy)]
pub enum TermsRead {
    Read { narrow: bool },
    Refused { number: u8, place: usize },
}

// What reading a statement finds: the next place in the sheet and its size, or a refusal's number and place.
#[derive(Clone, Copy)]
pub enum StmtRead {
    Read { next: usize, size: usize },
    Refused { number: u8, place: usize },
}

// What reading the widths finds: all within range, or a refusal's number and place.
#[derive(Clone, Copy)]
pub enum WidthsRead {
    Fine,
    Refused { number: u8, place: usize },
}

// What reading a sheet's head finds: the counts, or a refusal's number and place.
#[derive(Clone, Copy)]
pub enum HeadRead {
    Read {
        inputs: u8,
        registers: u8,
        wires: u8,
        threads: u8,
        functions: u8,
    },
    Refused {
        number: u8,
        place: usize,
    },
}

// What reading a row of expressions or statements finds: the next place in the sheet, or a refusal's number and place.
#[derive(Clone, Copy)]
pub enum PlaceRead {
    At(usize),
    Refused { number: u8, place: usize },
}

// What reading the functions finds, and the place of each definition.
#[derive(Clone, Copy)]
pub struct FunctionsRead {
    pub read: PlaceRead,
    pub definitions: [usize; 8],
}

// What reading the wires finds, and the place of each expression.
#[derive(Clone, Copy)]
pub struct WiresRead {
    pub read: PlaceRead,
    pub starts: [usize; 32],
}

// Where things stand in a sheet that was read: the counts, the places of the first width, of each function's definition, of
// each wire's expression and of the first thread.
#[derive(Clone, Copy)]
pub struct Layout {
    pub inputs: u8,
    pub registers: u8,
    pub wires: u8,
    pub threads: u8,
    pub functions: u8,
    pub widths: usize,
    pub definitions: [usize; 8],
    pub starts: [usize; 32],
    pub body: usize,
}

// What reading a sheet finds: number 0 and the layout, or a refusal's number and place.
#[derive(Clone, Copy)]
pub struct SheetRead {
    pub number: u8,
    pub place: usize,
    pub layout: Layout,
}

// The whole sheet: one Reader over it reads the counts, the widths, the functions, the wires and the threads, each from its
// place on. What a part finds goes on to the next; the first refusal is the answer.
fn read_whole(sheet: &[u8]) -> SheetRead
    ensures { result ≡ sheet_answer (whole_sheet (located sheet.now) sheet.now) }
{
    let start = scan::over(sheet);
    let counts = scan::counts(start);
    let head = scan::widths(scan::moved(start, head::other_widths(counts)), counts);
    let all = scan::functions(scan::moved(start, head::head_end(head)), head);
    let row = scan::wires(scan::moved(start, functions::functions_end(all)), head, all);
    let behind = scan::moved(start, body::row_end(row));
    let body = scan::threads(behind, head, all, row);
    body::finished(head, all, row, scan::place(behind), body, scan::left(start))
}

// A sheet without functions: one whose first byte has 128 added is refused with 3.
pub fn read(sheet: &[u8]) -> SheetRead
    ensures { result ≡ sheet_answer (read_sheet (located sheet.now) sheet.now) }
{
    if 8192 < sheet.len() {
        return body::refused(1, 8192);
    }
    if 128 <= byte_at(sheet, 0) {
        return body::refused(3, 0);
    }
    read_whole(sheet)
}
