// The verdicts of `comparison` on rows that are made up: runs that agree, and runs that differ in a register, in a wire and in a place,
// which no run of a module that extraction accepts does. What it writes is held to the file `stdout`.
#![tactic(auto)]

use comparison::{Counts, Verdict};
use std::io::Print;

// A row of a trace of a module with a clock, a register, a wire and two threads.
fn row_of(register: u64, wire: u64, place: u64) -> [u64; 88] {
    let mut row = [0u64; 88];
    row[1] = register;
    row[2] = wire;
    row[81] = place;
    row
}

// A verdict with one cycle more, in which the three orders have these rows and the expressions register 5, wire 1 and place 2.
fn cycle(v: Verdict, plain: [u64; 88], first: [u64; 88], second: [u64; 88]) -> Verdict {
    let counts = Counts {
        inputs: 1,
        registers: 1,
        wires: 1,
        threads: 2,
    };
    let expressed = row_of(5, 1, 2);
    let found = comparison::compare(counts, &plain, &first, &second, &expressed);
    comparison::after(v, found)
}

// Writes the first bytes of a text; where nobody takes them, nothing is left to do.
fn flush(rt: &HostRuntime, text: &[u8; 65536], pos: usize) {
    if let Some(part) = text.get(..pos) {
        let _ = rt.write_all(part);
    }
}

// Writes a verdict in words, and its status.
fn show(rt: &HostRuntime, v: Verdict) {
    let widths = [1u8, 4, 1];
    let mut names = [0u8; 2560];
    naming::fill_plain(1, 1, &mut names);
    let mut text = [0u8; 65536];
    let pos = comparison::put_verdict(&widths, &names, v, &mut text, 0);
    flush(rt, &text, pos);
    let status = options::status_of(comparison::outcome_of(v));
    let _ = rt.println(status);
}

fn main(rt: HostRuntime) {
    let same = row_of(5, 1, 2);
    let begun = Verdict::Agreed(0);
    let one = cycle(begun, same, same, same);
    let two = cycle(one, same, same, same);
    show(&rt, begun);
    show(&rt, two);
    show(&rt, cycle(two, same, row_of(6, 0, 0), row_of(7, 1, 2)));
    show(&rt, cycle(one, row_of(5, 4294967296, 0), same, same));
    show(&rt, cycle(one, row_of(8589934596, 1, 2), same, same));
    let apart = cycle(begun, same, same, row_of(5, 1, 0));
    show(&rt, apart);
    show(&rt, cycle(apart, row_of(9, 1, 2), same, same));
}
