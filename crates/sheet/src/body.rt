// What follows the head and the functions of a sheet: the wires' expressions, the threads' statements, and nothing more.
ghost use Rattle.std.specs.Prelude.{◌≡◌, ◌+◌, ◌≤◌};
ghost use Rattle.sheet.specs.Reading.{no};
ghost use Rattle.sheet.specs.Expression.{located};
ghost use Rattle.sheet.specs.Module.{read_wires, read_threads};
ghost use Rattle.sheet.specs.Answers.{sheet_answer};
ghost use Rattle.sheet.specs.Parts.{scope_of, outlines, place_answer, functions_answer, wires_answer};
ghost use Rattle.sheet.specs.Reader.{head_read, functions_read, wires_from, wires_read, threads_from, row_end, finished_of};

use super::bytes::byte_at;
use super::expr::located;
use super::head::widths_at;
use super::stmt::read_stmt;
use super::{ExprRead, FunctionsRead, HeadRead, Layout, PlaceRead, SheetRead, StmtRead, WiresRead};

// The wires' expressions: each has its wire's width.
fn read_wires(
    sheet: &[u8],
    widths: &[u8],
    definitions: &[usize; 8],
    declared: u8,
    inputs: u8,
    registers: u8,
    count: u8,
    at: usize,
) -> WiresRead
    requires { count ≤ 32 }
    ensures { result ≡ wires_answer (read_wires (located sheet.now) (scope_of inputs registers widths.now declared (outlines sheet.now definitions.now declared)) sheet.now count (inputs + registers) at) }
{
    let blank = [0usize; 32];
    let mut starts = [0usize; 32];
    let mut variable = (inputs as usize) + (registers as usize);
    let mut place = at;
    for k in 0..count {
        let e = located(sheet, widths, definitions, declared, declared, place);
        match e {
            ExprRead::Refused { number, place } => {
                return WiresRead {
                    read: PlaceRead::Refused { number, place },
                    starts: blank,
                };
            }
            ExprRead::Read { next, width } => {
                if width != byte_at(widths, variable) {
                    return WiresRead {
                        read: PlaceRead::Refused { number: 8, place },
                        starts: blank,
                    };
                }
                starts[k as usize] = place;
                place = next;
                variable += 1;
            }
        }
    }
    WiresRead {
        read: PlaceRead::At(place),
        starts,
    }
}

// The threads' statements: each has at most 256 instructions, with the jump of its forever.
fn read_threads(
    sheet: &[u8],
    widths: &[u8],
    definitions: &[usize; 8],
    declared: u8,
    inputs: u8,
    registers: u8,
    count: u8,
    at: usize,
) -> PlaceRead
    ensures { result ≡ place_answer (read_threads (located sheet.now) (scope_of inputs registers widths.now declared (outlines sheet.now definitions.now declared)) sheet.now count at) }
{
    let mut place = at;
    for _ in 0..count {
        let b = read_stmt(
            sheet,
            widths,
            definitions,
            declared,
            inputs,
            registers,
            place,
            64,
        );
        match b {
            StmtRead::Refused { number, place } => {
                return PlaceRead::Refused { number, place };
            }
            StmtRead::Read { next, size } => {
                if 256 <= size {
                    return PlaceRead::Refused { number: 11, place };
                }
                place = next;
            }
        }
    }
    PlaceRead::At(place)
}

// The answer of a refused sheet.
pub(crate) fn refused(number: u8, place: usize) -> SheetRead
    ensures { result ≡ sheet_answer (no number place) }
{
    SheetRead {
        number,
        place,
        layout: Layout {
            inputs: 0,
            registers: 0,
            wires: 0,
            threads: 0,
            functions: 0,
            widths: 0,
            definitions: [0; 8],
            starts: [0; 32],
            body: 0,
        },
    }
}

// The wires' expressions from a place on, behind the head and the functions of this sheet.
pub(crate) fn wires_after(sheet: &[u8], at: usize, head: HeadRead, all: FunctionsRead) -> WiresRead
    requires { (head ≡ head_read sheet.now) × (all ≡ functions_answer (functions_read sheet.now)) }
    ensures { result ≡ wires_answer (wires_from sheet.now at) }
{
    if let PlaceRead::Refused { number, place } = all.read {
        return WiresRead {
            read: PlaceRead::Refused { number, place },
            starts: [0usize; 32],
        };
    }
    match head {
        HeadRead::Refused { number, place } => WiresRead {
            read: PlaceRead::Refused { number, place },
            starts: [0usize; 32],
        },
        HeadRead::Read {
            inputs,
            registers,
            wires,
            functions,
            ..
        } => {
            let start = widths_at(functions);
            let first = start + (inputs as usize) + (registers as usize) + (wires as usize);
            let widths = &sheet[start..first];
            read_wires(
                sheet,
                widths,
                &all.definitions,
                functions,
                inputs,
                registers,
                wires,
                at,
            )
        }
    }
}

// Where the wires' expressions end.
pub(crate) fn row_end(row: WiresRead) -> usize
    ensures { result ≡ row_end row }
{
    match row.read {
        PlaceRead::At(next) => next,
        PlaceRead::Refused { .. } => 0,
    }
}

// The threads' statements from a place on, behind the head, the functions and the wires of this sheet.
pub(crate) fn threads_after(
    sheet: &[u8],
    at: usize,
    head: HeadRead,
    all: FunctionsRead,
    row: WiresRead,
) -> PlaceRead
    requires { (head ≡ head_read sheet.now) × (all ≡ functions_answer (functions_read sheet.now)) × (row ≡ wires_answer (wires_read sheet.now)) }
    ensures { result ≡ place_answer (threads_from sheet.now at) }
{
    if let PlaceRead::Refused { number, place } = row.read {
        return PlaceRead::Refused { number, place };
    }
    match head {
        HeadRead::Refused { number, place } => PlaceRead::Refused { number, place },
        HeadRead::Read {
            inputs,
            registers,
            wires,
            threads,
            functions,
        } => {
            let start = widths_at(functions);
            let first = start + (inputs as usize) + (registers as usize) + (wires as usize);
            let widths = &sheet[start..first];
            read_threads(
                sheet,
                widths,
                &all.definitions,
                functions,
                inputs,
                registers,
                threads,
                at,
            )
        }
    }
}

// The answer, once everything was read: the threads end where the sheet does.
pub(crate) fn finished(
    head: HeadRead,
    all: FunctionsRead,
    row: WiresRead,
    body: usize,
    threads: PlaceRead,
    size: usize,
) -> SheetRead
    ensures { result ≡ finished_of head all row body threads size }
{
    let end = match threads {
        PlaceRead::At(end) => end,
        PlaceRead::Refused { number, place } => {
            return refused(number, place);
        }
    };
    if end != size {
        return refused(10, end);
    }
    match head {
        HeadRead::Refused { number, place } => refused(number, place),
        HeadRead::Read {
            inputs,
            registers,
            wires,
            threads,
            functions,
        } => {
            let definitions = all.definitions;
            let starts = row.starts;
            let layout = Layout {
                inputs,
                registers,
                wires,
                threads,
                functions,
                widths: widths_at(functions),
                definitions,
                starts,
                body,
            };
            SheetRead {
                number: 0,
                place: 0,
                layout,
            }
        }
    }
}
