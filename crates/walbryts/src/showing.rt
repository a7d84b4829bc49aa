// `list`, `check`, `explain`, `verilog` and `sheet`: what a module holds.
use crate::files::{show, show_filled, show_word};
use crate::report;
use crate::system::{Stream, System};
use options::Outcome;
use sheet::Layout;
use writing::put_word;

// `list`: the listing of a sheet that is read.
pub fn list(system: &mut System, sheet: &[u8]) -> Result<(), Outcome> {
    show_filled(system, |text| listings::list(sheet, text).length)
}

// A thread explained, where it meets rule 17; else that is said.
fn print_thread(
    system: &mut System,
    index: usize,
    sheet: &[u8],
    names: &[u8; 2560],
    thread: usize,
    text: &mut [u8; 65536],
) -> Result<(), Outcome> {
    let x = explaining::explain(sheet, names, thread, text);
    if x.number != 0 {
        report::unexplained(system, index, thread, x.number);
        return Err(Outcome::Refused);
    }
    show(system, text, x.length)
}

// `explain`: each thread as its statements, with what it does between two waits. A sheet has at most eight. The first that is not
// explained counts, and those behind it are explained nevertheless.
pub fn explain(
    system: &mut System,
    index: usize,
    sheet: &[u8],
    names: &[u8; 2560],
    threads: u8,
) -> Result<(), Outcome> {
    let mut text = [0u8; 65536];
    let mut ended = Ok(());
    for thread in 0..threads.min(8) {
        let shown = print_thread(system, index, sheet, names, usize::from(thread), &mut text);
        ended = ended.and(shown);
    }
    ended
}

// `verilog`: the module as Verilog text, with the names of its variables.
pub fn print_verilog(
    system: &mut System,
    index: usize,
    sheet: &[u8],
    names: &[u8; 2560],
) -> Result<(), Outcome> {
    let mut text = [0u8; 65536];
    let v = verilog::print(sheet, names, &mut text);
    if v.length >= 65536 {
        report::wrong_with(
            system,
            index,
            b": its Verilog is 65,536 bytes or longer\n",
            0,
        );
        return Err(Outcome::Refused);
    }
    show(system, &text, v.length)
}

// `sheet`: the module as a sheet, in hexadecimal text.
pub fn print_sheet(system: &mut System, sheet: &[u8]) -> Result<(), Outcome> {
    show_filled(system, |text| sources::put_sheet(sheet, text, 0))
}

// ---- waits

// Where the waits stand, for the rows of the extraction. Gives how many there are.
pub fn find_waits(sheet: &[u8], layout: Layout, heads: &mut [usize; 32]) -> usize {
    let mut code = [0u16; 4096];
    let sizes = pseudocode::compile(
        sheet,
        &layout.definitions,
        layout.threads,
        layout.body,
        &mut code,
    );
    overview::fill_heads(sheet, &code, &sizes, layout.threads, heads)
}

// ---- `check`

// The nodes and rows of a sheet. Does extraction accept it?
pub fn extracted(sheet: &[u8], nodes: &mut [u16; 16384], rows: &mut [u16; 1056]) -> bool {
    extraction::extract(sheet, nodes, rows) == 0
}

// Whether extraction accepts it, and how many nodes and rows there are.
fn say_extraction(
    system: &mut System,
    sheet: &[u8],
    names: &[u8; 2560],
    waits: usize,
) -> Result<(), Outcome> {
    let mut nodes = [0u16; 16384];
    let mut rows = [0u16; 1056];
    show_word(system, b"extraction: ")?;
    if !extracted(sheet, &mut nodes, &mut rows) {
        report::unextracted(system, Stream::Output, sheet, names)?;
        return Err(Outcome::Refused);
    }
    let count = netlist::node_count(&nodes);
    show_filled(system, |text| {
        let p = put_word(b"accepted, ", text, 0);
        overview::put_sizes(count, waits, text, p)
    })
}

// What the sheet declares, and what each thread holds.
fn say_counts(system: &mut System, sheet: &[u8], layout: Layout) -> Result<(), Outcome> {
    let mut code = [0u16; 4096];
    let sizes = pseudocode::compile(
        sheet,
        &layout.definitions,
        layout.threads,
        layout.body,
        &mut code,
    );
    show_filled(system, |text| {
        let p = overview::put_counts(sheet.len(), layout, text, 0);
        overview::put_threads(sheet, &code, &sizes, layout.threads, text, p)
    })
}

// `check`: what a sheet holds that is read.
pub fn check(system: &mut System, sheet: &[u8], names: &[u8; 2560]) -> Result<(), Outcome> {
    let layout = sheet::read(sheet).layout;
    say_counts(system, sheet, layout)?;
    let mut heads = [0usize; 32];
    let waits = find_waits(sheet, layout, &mut heads);
    say_extraction(system, sheet, names, waits)
}
