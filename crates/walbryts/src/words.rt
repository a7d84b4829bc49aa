// The words of the command line, handed to `sources` one by one.
use crate::system::System;
use sources::Words;

// One word of the command line.
fn take_word(system: &mut System, w: Words, i: usize) -> Words {
    let mut buffer = [0u8; 4096];
    let word = system.word(i, &mut buffer).unwrap_or(b"");
    sources::take(w, word)
}

// All of them.
pub fn asked(system: &mut System) -> Words {
    let mut w = sources::begin();
    for i in 1..usize::MAX {
        if !system.has_word(i) {
            return w;
        }
        w = take_word(system, w, i);
    }
    w
}
