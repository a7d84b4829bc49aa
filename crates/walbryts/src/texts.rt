// Verilog text: the names that it gives, and what is said where it is refused, or its module by extraction. The words come from
// `verilog_errors`, the places from `verilog_origins`.
use crate::files::{behind_mark, flush, write_filled};
use crate::report::{say_allowed, say_behind, say_file, say_number, say_spot};
use crate::system::{Stream, System};
use crate::{files, words};
use options::Request;
use sources::Words;
use witness::Witness;
use writing::{put_byte, put_word};

// The names of a text that is read.
pub fn name(text: &[u8], names: &mut [u8; 2560]) {
    let mut places = [0u16; 80];
    let mut lengths = [0u16; 80];
    verilog_labels::names(text, &mut places, &mut lengths);
    sources::name_all(text, &places, &lengths, names);
}

// A place of a text with a number, and its line with a caret.
fn say_place(
    system: &mut System,
    stream: Stream,
    index: usize,
    text: &[u8],
    number: u8,
    place: usize,
) {
    let s = verilog_errors::spot_of(text, place);
    say_spot(system, stream, index, s.line, s.column);
    say_number(system, stream, number);
    write_filled(system, stream, |out| {
        verilog_errors::put_line(text, place, out, 0)
    });
}

// What is to be said of the token at a place, on a line of its own; nothing, where there is nothing to be said.
fn say_note(system: &mut System, text: &[u8], place: usize) {
    let mut out = [0u8; 65536];
    let a = put_word(b"  note: ", &mut out, 0);
    let b = verilog_errors::put_note(text, place, &mut out, a);
    if b == a {
        return;
    }
    let c = put_byte(b'\n', &mut out, b);
    flush(system, Stream::Errors, &out, c);
}

// A text that is none of the forms: what could have stood there.
fn underived(system: &mut System, index: usize, text: &[u8], place: usize) {
    say_place(system, Stream::Errors, index, text, 42, place);
    say_behind(system, Stream::Errors, b"  found: ", |out, a| {
        verilog_errors::put_found(text, place, out, a)
    });
    say_behind(system, Stream::Errors, b"  allowed: ", |out, a| {
        verilog_errors::put_choices(text, out, a)
    });
    say_note(system, text, place);
}

// A text in which a name breaks a rule.
fn misnamed(system: &mut System, index: usize, text: &[u8], number: u8, place: usize) {
    say_place(system, Stream::Errors, index, text, number, place);
    say_behind(system, Stream::Errors, b"  found: ", |out, a| {
        verilog_errors::put_fault(text, place, out, a)
    });
    say_allowed(system, Stream::Errors, number);
}

// A text that is too long.
fn unbounded(system: &mut System, index: usize, number: u8) {
    say_file(system, Stream::Errors, index);
    system.write(Stream::Errors, b": ");
    say_number(system, Stream::Errors, number);
    say_allowed(system, Stream::Errors, number);
}

// A text whose sheet is refused: the name that the byte comes before, or the item that it was written from.
fn unwritten(system: &mut System, index: usize, text: &[u8], number: u8, place: usize) {
    let at = verilog_origins::point(text, place);
    say_place(system, Stream::Errors, index, text, number, at);
    say_behind(system, Stream::Errors, b"  allowed: ", |out, a| {
        verilog_errors::put_permission(number, out, a)
    });
}

// A text that is not read.
pub fn refuse(system: &mut System, index: usize, text: &[u8], number: u8, place: usize) {
    match number {
        41 => unbounded(system, index, number),
        42 => underived(system, index, text, place),
        43 => misnamed(system, index, text, number, place),
        _ => unwritten(system, index, text, number, place),
    }
}

// ---- a module that is read and not extracted

// The word that names the module's file.
fn module_word(w: Words) -> usize {
    match options::judge(w.options) {
        Request::Asked(c) => options::sheet_of(c),
        _ => 0,
    }
}

// The number of a rule of extraction, behind the file that a word names; 0 is no word.
fn say_plain(system: &mut System, stream: Stream, file: usize, number: u8) {
    if file != 0 {
        say_file(system, stream, file);
        system.write(stream, b": ");
    }
    say_number(system, stream, number);
}

// The number behind the place in the text of what breaks the rule, and its line.
fn say_item(
    system: &mut System,
    stream: Stream,
    index: usize,
    sheet: &[u8],
    w: Witness,
    text: &[u8],
) {
    let registers = sheet::read(sheet).layout.inputs;
    let waits = named_findings::waits_before(sheet, w.thread, w.place);
    let item = named_findings::item_of(w, registers, waits);
    let place = verilog_origins::place_of(text, item);
    say_place(system, stream, index, text, w.number, place);
}

// The number of a rule of extraction; for a text with the place and the line of what breaks it, else behind a file's name where one is
// asked for. The text is read a second time, which standard input can't be.
pub fn say_rule(system: &mut System, stream: Stream, file: usize, sheet: &[u8], w: Witness) {
    let asked = words::asked(system);
    let index = module_word(asked);
    if !files::is_text(system, asked.verilog, index) {
        say_plain(system, stream, file, w.number);
        return;
    }
    let mut buffer = [0u8; 65536];
    let size = match files::read_whole(system, index, &mut buffer) {
        Ok(got) => got.size,
        Err(unread) => unread.size,
    };
    if size == 0 {
        say_plain(system, stream, file, w.number);
        return;
    }
    if let Some(text) = behind_mark(&buffer, size) {
        say_item(system, stream, index, sheet, w, text);
    }
}
