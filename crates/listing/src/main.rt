// Document 01's listing program: a sheet on standard input; its listing, or `refused` and a number, on standard output.
#![tactic(auto)]

ghost use Rattle.std.specs.Prelude.{◌≤◌, length};

use std::io::{Print, Read};

// Fills the buffer from standard input, up to its end or to a read that fails. How many bytes were there?
fn read_full(rt: &HostRuntime, buffer: &mut [u8]) -> usize
    ensures { result ≤ length buffer.new }
{
    let mut input = rt.stdin();
    let mut done = 0;
    while done < buffer.len() {
        match input.read(&mut buffer[done..]) {
            Ok(0) => return done,
            Ok(n) => done += n,
            Err(_) => return done,
        }
    }
    done
}

fn main(rt: HostRuntime) {
    // One byte more than a sheet may have tells a longer one from the rest.
    let mut sheet = [0u8; 8193];
    let n = read_full(&rt, &mut sheet);
    let mut text = [0u8; 65536];
    let length = listings::print(&sheet[..n], &mut text);
    // Where nobody takes the listing, nothing is left to do.
    let _ = rt.write_all(&text[..length]);
}
