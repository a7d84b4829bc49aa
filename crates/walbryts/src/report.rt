// Refusals and errors in words, on standard error: the file, the place, the number, what was found and what is allowed. The words of the
// numbers come from the table in `reasons`, those of lines and rules from `findings` and `named_findings`, those of
// places from `overview`.
use crate::files::{flush, unshown, write_filled};
use crate::say::say;
use crate::system::{Stream, System};
use crate::texts;
use options::Outcome;
use witness::Witness;
use writing::{put_byte, put_word};

// The file that a word names.
pub fn say_file(system: &mut System, stream: Stream, index: usize) {
    let mut buffer = [0u8; 4096];
    let path = system.word(index, &mut buffer).unwrap_or(b"");
    system.write(stream, path);
}

// A line and a column of a file.
pub fn say_spot(system: &mut System, stream: Stream, index: usize, line: usize, column: usize) {
    say_file(system, stream, index);
    say(system, stream, b":#:#: ", line, column);
}

// Something wrong with hexadecimal text.
// Errors and refusals stay numbers: so `hextext`, `stimulus`, `labels` and the sheet's readers give them, and `findings` takes them.
pub fn wrong_hex(system: &mut System, index: usize, line: usize, column: usize, error: u8) {
    say_spot(system, Stream::Errors, index, line, column);
    write_filled(system, Stream::Errors, |text| {
        findings::put_hex_error(error, text, 0)
    });
}

// Something wrong with a line of inputs.
pub fn wrong_inputs(system: &mut System, index: usize, line: usize, column: usize, error: u8) {
    say_spot(system, Stream::Errors, index, line, column);
    match error {
        6 => system.write(
            Stream::Errors,
            b"an empty cell: a value in front of each comma and behind it is allowed\n",
        ),
        7 => system.write(
            Stream::Errors,
            b"a line that is too long: at most 65,535 bytes are allowed\n",
        ),
        _ => write_filled(system, Stream::Errors, |text| {
            findings::put_input_error(error, text, 0)
        }),
    };
}

// Something wrong with a line of names.
pub fn wrong_names(system: &mut System, index: usize, line: usize, column: usize, error: u8) {
    say_spot(system, Stream::Errors, index, line, column);
    write_filled(system, Stream::Errors, |text| {
        findings::put_name_error(error, text, 0)
    });
}

// Something wrong with a line of first values.
pub fn wrong_values(system: &mut System, index: usize, line: usize, column: usize, error: u8) {
    match error {
        1 => {
            say_spot(system, Stream::Errors, index, line, column);
            system.write(
                Stream::Errors,
                b"no value: a register's name and its value are allowed on a line\n",
            );
        }
        8 => {
            say_spot(system, Stream::Errors, index, line, column);
            system.write(
                Stream::Errors,
                b"no such register: names of the module's registers are allowed\n",
            );
        }
        _ => wrong_inputs(system, index, line, column, error),
    }
}

// Something wrong with the names of columns.
pub fn wrong_columns(system: &mut System, index: usize, column: usize, error: u8) {
    let fault: &[u8] = if error == 1 {
        b":#: no such variable: names of the module with commas between them are allowed\n"
    } else {
        b":#: one name too many: 80 columns are allowed\n"
    };
    say_file(system, Stream::Errors, index);
    say(system, Stream::Errors, fault, column, 0);
}

// Something wrong with a file as a whole, or in a cycle.
pub fn wrong_with(system: &mut System, index: usize, reason: &[u8], cycle: usize) {
    say_file(system, Stream::Errors, index);
    say(system, Stream::Errors, reason, cycle, 0);
}

// A number and its words.
pub fn say_number(system: &mut System, stream: Stream, number: u8) {
    say(system, stream, b"refused #: ", usize::from(number), 0);
    say_behind(system, stream, b"", |text, pos| {
        reasons::put_reason(number, text, pos)
    });
}

// A line: a word, and what a closure puts behind it.
pub fn say_behind<F: FnOnce(&mut [u8; 65536], usize) -> usize>(
    system: &mut System,
    stream: Stream,
    word: &[u8],
    put: F,
)
    requires { F.IsAlwaysCallable put }
{
    let mut text = [0u8; 65536];
    let p = put_word(word, &mut text, 0);
    let q = put(&mut text, p);
    let r = put_byte(b'\n', &mut text, q);
    flush(system, stream, &text, r);
}

// What is allowed in place of what a number refuses.
pub fn say_allowed(system: &mut System, stream: Stream, number: u8) {
    say_behind(system, stream, b"  allowed: ", |text, pos| {
        reasons::put_allowed(number, text, pos)
    });
}

// What stands at the place of a refusal.
fn say_found(system: &mut System, sheet: &[u8], number: u8, place: usize) {
    write_filled(system, Stream::Errors, |text| {
        overview::put_found(sheet, number, place, text, 0)
    });
}

// Where in its file a byte of the sheet stands.
fn say_place(system: &mut System, index: usize, view: &[u8], hex: bool, place: usize) {
    say_file(system, Stream::Errors, index);
    write_filled(system, Stream::Errors, |text| {
        overview::put_place(view, hex, place, text, 0)
    });
}

// A sheet that is not read.
pub fn refuse(
    system: &mut System,
    index: usize,
    sheet: &[u8],
    view: &[u8],
    hex: bool,
    number: u8,
    place: usize,
) {
    say_place(system, index, view, hex, place);
    say_number(system, Stream::Errors, number);
    say_found(system, sheet, number, place);
    say_allowed(system, Stream::Errors, number);
}

// ---- what breaks a rule of extraction

// What a rule finds. Registers follow the inputs, and wires the registers.
fn say_witness(system: &mut System, stream: Stream, sheet: &[u8], w: Witness, names: &[u8; 2560]) {
    let layout = sheet::read(sheet).layout;
    let wires = layout.inputs.wrapping_add(layout.registers);
    write_filled(system, stream, |text| {
        named_findings::put_witness(w, names, layout.inputs, wires, text, 0)
    });
}

// The witness and what is allowed.
fn say_broken(
    system: &mut System,
    stream: Stream,
    sheet: &[u8],
    w: Witness,
    names: &[u8; 2560],
) -> Result<(), Outcome> {
    system.write(stream, b"  found: ");
    say_witness(system, stream, sheet, w, names);
    if !system.write(stream, b"\n") {
        unshown(system);
        return Err(Outcome::Mistaken);
    }
    say_allowed(system, stream, w.number);
    Ok(())
}

// A run of a sheet that extraction refuses: what it shows.
pub fn one_order(system: &mut System, index: usize, sheet: &[u8], names: &[u8; 2560]) {
    refuse_extraction(system, index, sheet, names);
    system.write(
        Stream::Errors,
        b"  this table is one order among several; --any-order leaves this out\n",
    );
}

// A module that is read and not extracted: the number, in a text the place and its line, the witness and what is allowed.
pub fn unextracted(
    system: &mut System,
    stream: Stream,
    sheet: &[u8],
    names: &[u8; 2560],
) -> Result<(), Outcome> {
    let w = witness::witness_of(sheet);
    texts::say_rule(system, stream, 0, sheet, w);
    say_broken(system, stream, sheet, w, names)
}

// The same on standard error, behind the file.
pub fn refuse_extraction(system: &mut System, index: usize, sheet: &[u8], names: &[u8; 2560]) {
    let w = witness::witness_of(sheet);
    texts::say_rule(system, Stream::Errors, index, sheet, w);
    let _ = say_broken(system, Stream::Errors, sheet, w, names);
}

// ---- runs

// A file whose state is refused.
pub fn refuse_state(system: &mut System, index: usize, number: u8) {
    wrong_with(system, index, b": ", 0);
    say_number(system, Stream::Errors, number);
    say_allowed(system, Stream::Errors, number);
}

// A thread that is not explained.
pub fn unexplained(system: &mut System, index: usize, thread: usize, number: u8) {
    wrong_with(system, index, b": thread #: ", thread);
    say_number(system, Stream::Errors, number);
    say_allowed(system, Stream::Errors, number);
}

// Not at rest after so many choices.
fn say_restless(system: &mut System, most: usize) {
    write_filled(system, Stream::Errors, |text| {
        driving::put_restless(most, text, 0)
    });
}

// A cycle that did not come to rest.
pub fn restless(system: &mut System, index: usize, cycle: usize, most: usize) {
    wrong_with(system, index, b": cycle #: ", cycle);
    say_restless(system, most);
    system.write(Stream::Errors, b"\n");
}

// A sheet that did not come to rest from the start.
pub fn unstarted(system: &mut System, index: usize, most: usize) {
    wrong_with(system, index, b": ", 0);
    say_restless(system, most);
    system.write(Stream::Errors, b" from the start\n");
}

// A cycle that could not be run.
pub fn stopped(system: &mut System, index: usize, cycle: usize, number: u8) {
    wrong_with(system, index, b": cycle #: ", cycle);
    say_number(system, Stream::Errors, number);
    say_allowed(system, Stream::Errors, number);
}
