// The names of the variables out of a names file, which `labels` takes.
use crate::files::{behind_mark, read_whole};
use crate::report::{wrong_names, wrong_with};
use crate::system::System;
use options::Outcome;
use sheet::Layout;

// The names of a file's bytes; where one is wrong, says why.
fn take(
    system: &mut System,
    index: usize,
    bytes: &[u8],
    layout: Layout,
    names: &mut [u8; 2560],
) -> Result<(), Outcome> {
    let m = labels::take_lines(bytes, layout.inputs, layout.registers, layout.wires, names);
    if m.error != 0 {
        wrong_names(system, index, m.line, m.column, m.error);
        return Err(Outcome::Mistaken);
    }
    Ok(())
}

// Names out of the file that a word names, 0 where there is none; where they are not right, says why.
pub fn fill(
    system: &mut System,
    index: usize,
    layout: Layout,
    names: &mut [u8; 2560],
) -> Result<(), Outcome> {
    // the word stays a number, 0 for none: `options::names_of` gives it so
    if index == 0 {
        return Ok(());
    }
    let mut buffer = [0u8; 65536];
    let Ok(got) = read_whole(system, index, &mut buffer) else {
        return Err(Outcome::Mistaken);
    };
    system.close(got.stream);
    if got.size >= 65536 {
        wrong_with(
            system,
            index,
            b": a names file of 65,536 bytes or longer\n",
            0,
        );
        return Err(Outcome::Mistaken);
    }
    match behind_mark(&buffer, got.size) {
        Some(bytes) => take(system, index, bytes, layout, names),
        None => Ok(()),
    }
}
