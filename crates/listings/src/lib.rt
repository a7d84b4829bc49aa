// The listing of a sheet (document 01, "Samples from the stands"): read, translated, and written into a lent buffer.
#![tactic(auto)]

ghost use Rattle.std.specs.Prelude.{◌≡◌, ◌≤◌, length, get_or};
ghost use Rattle.std.proofs.lemmas.List.Edits.{sets};
ghost use Rattle.writing.specs.Buffer.{filled, puts};
ghost use Rattle.sheet.specs.Module.{read};
ghost use Rattle.text.specs.Listing.{output};
ghost use Rattle.listings.specs.Lines.{code_lines, thread_lines, table_listing};
ghost use Rattle.listings.specs.Listing.{listed, laid_in};

// What `list` answers: the number of the sheet's refusal, 0 where it is read, and the listing's length.
#[derive(Clone, Copy)]
pub struct Listed {
    pub number: u8,
    pub length: usize,
}

// The lines of one thread.
fn print_code(
    sheet: &[u8],
    definitions: &[usize; 8],
    code: &[u16; 4096],
    thread: usize,
    size: usize,
    text: &mut [u8; 65536],
    pos: usize,
) -> usize
    ensures { filled text.new result ≡ puts (filled text.old pos) (code_lines sheet.now definitions.now code.now thread size 0) }
{
    let mut p = pos;
    for place in 0..size {
        let i = pseudocode::fetch(sheet, code, thread, place);
        p = text::print_line(sheet, definitions, thread, place, i, text, p);
    }
    p
}

// A thread's size, 0 past the last.
fn size_at(sizes: [usize; 8], thread: usize) -> usize
    ensures { result ≡ get_or sizes thread 0 }
{
    sizes.get(thread).copied().unwrap_or(0)
}

// The lines of the first threads.
fn print_threads(
    sheet: &[u8],
    definitions: &[usize; 8],
    code: &[u16; 4096],
    sizes: [usize; 8],
    threads: usize,
    text: &mut [u8; 65536],
    pos: usize,
) -> usize
    ensures { filled text.new result ≡ puts (filled text.old pos) (thread_lines sheet.now definitions.now code.now sizes threads 0) }
{
    let mut p = pos;
    for thread in 0..threads {
        let size = size_at(sizes, thread);
        p = print_code(sheet, definitions, code, thread, size, text, p);
    }
    p
}

// The listing of an accepted sheet with so many threads, the first one's statement at `body`.
fn print_listing(
    sheet: &[u8],
    definitions: &[usize; 8],
    threads: u8,
    body: usize,
    text: &mut [u8; 65536],
) -> usize
    ensures { filled text.new result ≡ puts (filled text.old 0) (table_listing sheet.now definitions.now threads body) }
{
    let mut code = [0u16; 4096];
    let sizes = pseudocode::compile(sheet, definitions, threads, body, &mut code);
    let count = threads as usize;
    let p = text::print_head(count, text, 0);
    print_threads(sheet, definitions, &code, sizes, count, text, p)
}

// The listing of a sheet is put at the front of the buffer, and what lies behind it stays. A refused sheet leaves the buffer as it was.
pub fn list(sheet: &[u8], text: &mut [u8; 65536]) -> Listed
    ensures value { result ≡ listed (read sheet.now) }
    ensures text_after { text.new ≡ laid_in text.old (read sheet.now) }
    ensures length_bound { result.length ≤ 65536 }
{
    let read = sheet::read(sheet);
    let number = read.number;
    if number != 0 {
        return Listed { number, length: 0 };
    }
    let layout = read.layout;
    let length = print_listing(
        sheet,
        &layout.definitions,
        layout.threads,
        layout.body,
        text,
    );
    Listed { number: 0, length }
}

// What the listing program prints for a sheet, its listing or `refused` and a number, is put at the front of the buffer. Gives its
// length.
pub fn print(sheet: &[u8], text: &mut [u8; 65536]) -> usize
    ensures value { result ≡ length (output sheet.now) }
    ensures text_after { text.new ≡ sets text.old 0 (output sheet.now) }
    ensures upper_bound { result ≤ 65536 }
{
    let l = list(sheet, text);
    let number = l.number;
    if number != 0 {
        return text::print_refusal(number, text, 0);
    }
    l.length
}
