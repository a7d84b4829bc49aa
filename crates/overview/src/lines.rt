// What a sheet declares and its threads hold.
ghost use Rattle.std.specs.Prelude.{◌≡◌};
ghost use Rattle.writing.specs.Buffer.{filled, puts};
ghost use Rattle.overview.specs.Shown.{labelled, counts_line, thread_line, thread_lines, sizes_line};

use rules::{size_of, waits_in};
use sheet::Layout;
use writing::{put_byte, put_decimal, put_word};

// A word with a number behind it.
pub fn put_labelled(word: &[u8], n: usize, text: &mut [u8; 65536], pos: usize) -> usize
    ensures { filled text.new result ≡ puts (filled text.old pos) (labelled word.now n) }
{
    let p = put_word(word, text, pos);
    put_decimal(n, text, p)
}

// What a sheet of so many bytes declares.
pub fn put_counts(size: usize, layout: Layout, text: &mut [u8; 65536], pos: usize) -> usize
    ensures { filled text.new result ≡ puts (filled text.old pos) (counts_line size layout) }
{
    let a = put_labelled(b"accepted: bytes ", size, text, pos);
    let b = put_labelled(b", inputs ", layout.inputs as usize, text, a);
    let c = put_labelled(b", registers ", layout.registers as usize, text, b);
    let d = put_labelled(b", wires ", layout.wires as usize, text, c);
    let e = put_labelled(b", threads ", layout.threads as usize, text, d);
    put_byte(b'\n', text, e)
}

// A thread, its instructions and its waits.
fn put_thread(i: usize, size: usize, waits: usize, text: &mut [u8; 65536], pos: usize) -> usize
    ensures { filled text.new result ≡ puts (filled text.old pos) (thread_line i size waits) }
{
    let a = put_labelled(b"thread ", i, text, pos);
    let b = put_labelled(b": instructions ", size, text, a);
    let c = put_labelled(b", waits ", waits, text, b);
    put_byte(b'\n', text, c)
}

// So many threads, a line each.
pub fn put_threads(
    sheet: &[u8],
    code: &[u16; 4096],
    sizes: &[usize; 8],
    threads: u8,
    text: &mut [u8; 65536],
    pos: usize,
) -> usize
    ensures { filled text.new result ≡ puts (filled text.old pos)
        (thread_lines sheet.now code.now sizes.now threads) }
{
    let mut p = pos;
    for i in 0..threads as usize {
        let n = size_of(sizes, i);
        let waits = waits_in(sheet, code, i, n);
        p = put_thread(i, n, waits, text, p);
    }
    p
}

// How many nodes and rows an extraction has.
pub fn put_sizes(nodes: usize, rows: usize, text: &mut [u8; 65536], pos: usize) -> usize
    ensures { filled text.new result ≡ puts (filled text.old pos) (sizes_line nodes rows) }
{
    let a = put_labelled(b"nodes ", nodes, text, pos);
    let b = put_labelled(b", rows ", rows, text, a);
    put_byte(b'\n', text, b)
}
