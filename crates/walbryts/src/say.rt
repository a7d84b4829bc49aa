// Texts with numbers in them, written at once. By a form and not by `write!`, which makes a String: what is said of a failure takes no
// memory.
use crate::files::write_filled;
use crate::system::{Stream, System};
use writing::{put_byte, put_decimal};

// A form: its first # stands for `a`, a later one for `b`.
fn put_form(form: &[u8], a: usize, b: usize, text: &mut [u8; 65536]) -> usize {
    let mut pos = 0;
    let mut n = a;
    for &sign in form {
        if sign == b'#' {
            pos = put_decimal(n, text, pos);
            n = b;
        } else {
            pos = put_byte(sign, text, pos);
        }
    }
    pos
}

// Writes a form.
pub fn say(system: &mut System, stream: Stream, form: &[u8], a: usize, b: usize) {
    write_filled(system, stream, |text| put_form(form, a, b, text));
}
