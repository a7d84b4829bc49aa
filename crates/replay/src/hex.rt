// Bytes and words in hexadecimal, gathered and written many at once: `{:02x}` writes each byte by itself.
use std::io::Print;

// One of the sixteen digits, by arithmetic: a table keeps the compiler from doing many bytes at a time.
fn digit(n: u8) -> u8 {
    let n = n % 16;
    if n < 10 { b'0' + n } else { b'a' + (n - 10) }
}

// Bytes as two digits each, up to the end of the text.
fn fill(text: &mut [u8], bytes: &[u8]) {
    for (pair, &b) in text.chunks_exact_mut(2).zip(bytes) {
        pair[0] = digit(b / 16);
        pair[1] = digit(b % 16);
    }
}

// Bytes in hexadecimal.
pub fn say_hex(rt: &HostRuntime, bytes: &[u8]) {
    let mut text = [0u8; 1024];
    for part in bytes.chunks(512) {
        fill(&mut text, part);
        if let Some(filled) = text.get(..2 * part.len()) {
            let _ = rt.write_all(filled);
        }
    }
}

// Words in hexadecimal, four digits each.
pub fn say_words(rt: &HostRuntime, words: &[u16]) {
    for part in words.chunks(256) {
        let mut bytes = [0u8; 512];
        for (pair, &w) in bytes.chunks_exact_mut(2).zip(part) {
            pair[0] = (w / 256) as u8;
            pair[1] = (w % 256) as u8;
        }
        if let Some(filled) = bytes.get(..2 * part.len()) {
            say_hex(rt, filled);
        }
    }
}
