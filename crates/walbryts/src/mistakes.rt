// What is wrong with the words of a command line: the word, and what is allowed in its place.
use crate::report::say_file;
use crate::system::{Stream, System};

// What a fault is, in words. It stays a number: `options::judge` gives it so.
fn words_of(fault: u8) -> &'static [u8] {
    match fault {
        1 =>
            b": no such command: list, check, run, extract, compare, explain, verilog, sheet and help are allowed\n",
        2 =>
            b": no such option: --wires, --inputs, --only A,B, --hex, --binary, --csv, --from N, --to N, --every N, --expect FILE, --seed N, --user N, --allowance A,B,C,D, --by-expressions, --last, --vcd FILE, --work, --init FILE, --save FILE, --load FILE, --progress, --any-order, --dot, --names FILE, --verilog, --help and --version are allowed\n",
        3 =>
            b": no such number: a decimal number from 0, for --every from 1, to 4294967295 is allowed\n",
        4 => b": one file too many: the module, and with run and compare the inputs, are allowed\n",
        5 => b": does not go with this command\n",
        6 => b": does not go with --seed\n",
        7 => b": the table goes to standard output, a waveform or a state to a file of its own\n",
        9 => b": does not go with --hex\n",
        10 => b": does not go with --work\n",
        11 => b": does not go with --by-expressions\n",
        _ => b": a word is to follow it\n",
    }
}

fn say_help(system: &mut System) {
    system.write(Stream::Errors, b"walbryts --help says what is allowed\n");
}

// A word that is out of place, by its fault.
pub fn wrong(system: &mut System, index: usize, fault: u8) {
    system.write(Stream::Errors, b"walbryts: ");
    say_file(system, Stream::Errors, index);
    system.write(Stream::Errors, words_of(fault));
    say_help(system);
}

// The command, the module or the inputs are missing, in words. A number too: `options::judge` gives it so.
fn words_of_missing(missing: u8) -> &'static [u8] {
    match missing {
        1 =>
            b"usage: walbryts list|check|extract|explain|verilog|sheet FILE, or run|compare FILE INPUTS\n",
        2 => b"walbryts: no module: its file is to follow the command\n",
        _ => b"walbryts: no inputs: their file is to follow the module's\n",
    }
}

// A word that is missing.
pub fn short(system: &mut System, missing: u8) {
    system.write(Stream::Errors, words_of_missing(missing));
    say_help(system);
}
