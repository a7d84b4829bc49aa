// Words, from C and Rust: sheets as hexadecimal text, refusals in the words that the command prints, and what breaks the rule that
// extraction refuses a sheet by. A text is written to the front of 65,536 lent bytes; what lies behind it stays.
ghost use Rattle.std.specs.Prelude.{◌≡◌};
ghost use Rattle.hextext.specs.Decoding.{decoded};
ghost use Rattle.reasons.specs.Reasons.{reason, allowed};
ghost use Rattle.witness.specs.Witness.{witnessed};
ghost use Rattle.writing.specs.Buffer.{filled, puts};
ghost use Rattle.exports.specs.Words.{decoded_in, found_in};

// The bytes of a hexadecimal text, at the front of the lent ones; refused, these stay. `length` takes how many there are; `line` and
// `column` where decoding ended, or met what refuses it. Gives 0, 1 for a character that is no digit, 2 for a digit without its second.
#[unsafe(no_mangle)]
pub extern "C" fn walbryts_hex(
    text: &[u8],
    bytes: &mut [u8; 8193],
    length: &mut usize,
    line: &mut usize,
    column: &mut usize,
) -> u8
    ensures value { result ≡ (decoded text.now).error }
    ensures bytes_after { bytes.new ≡ decoded_in bytes.old text.now }
    ensures length_after { length.new ≡ (decoded text.now).length }
    ensures line_after { line.new ≡ (decoded text.now).line }
    ensures column_after { column.new ≡ (decoded text.now).column }
{
    let mut own = *bytes;
    let d = hextext::decode(text, &mut own);
    *length = d.length;
    *line = d.line;
    *column = d.column;
    if d.error != 0 {
        return d.error;
    }
    *bytes = own;
    d.error
}

// What a number refuses; nothing for one that there isn't. `length` takes the words' length.
#[unsafe(no_mangle)]
pub extern "C" fn walbryts_reason(number: u8, text: &mut [u8; 65536], length: &mut usize)
    ensures { filled text.new length.new ≡ puts (filled text.old 0) (reason number) }
{
    *length = reasons::put_reason(number, text, 0);
}

// What is allowed in its place.
#[unsafe(no_mangle)]
pub extern "C" fn walbryts_allowed(number: u8, text: &mut [u8; 65536], length: &mut usize)
    ensures { filled text.new length.new ≡ puts (filled text.old 0) (allowed number) }
{
    *length = reasons::put_allowed(number, text, 0);
}

// What breaks the rule that extraction refuses a sheet by: a thread, another one, a register, whether a wire reads it and no thread, that
// wire, the wire that it reads, a place of the thread; 0 for each that the rule doesn't name. Gives the rule's number, 12 to 21, or 0, or 1
// to 11 of a sheet that isn't read.
#[unsafe(no_mangle)]
pub extern "C" fn walbryts_witness(
    sheet: &[u8],
    thread: &mut usize,
    other: &mut usize,
    register: &mut usize,
    wired: &mut bool,
    wire: &mut usize,
    above: &mut usize,
    place: &mut usize,
) -> u8
    ensures value { result ≡ (witnessed sheet.now).number }
    ensures thread_after { thread.new ≡ (witnessed sheet.now).thread }
    ensures other_after { other.new ≡ (witnessed sheet.now).other }
    ensures register_after { register.new ≡ (witnessed sheet.now).register }
    ensures wired_after { wired.new ≡ (witnessed sheet.now).wired }
    ensures wire_after { wire.new ≡ (witnessed sheet.now).wire }
    ensures above_after { above.new ≡ (witnessed sheet.now).above }
    ensures place_after { place.new ≡ (witnessed sheet.now).place }
{
    let w = witness::witness_of(sheet);
    *thread = w.thread;
    *other = w.other;
    *register = w.register;
    *wired = w.wired;
    *wire = w.wire;
    *above = w.above;
    *place = w.place;
    w.number
}

// The same in words; there are none where extraction accepts the sheet or it isn't read.
#[unsafe(no_mangle)]
pub extern "C" fn walbryts_finding(sheet: &[u8], text: &mut [u8; 65536], length: &mut usize) -> u8
    ensures value { result ≡ (witnessed sheet.now).number }
    ensures length_after { filled text.new length.new ≡ found_in text.old (witnessed sheet.now) }
{
    let w = witness::witness_of(sheet);
    if w.number < 12 {
        *length = 0;
        return w.number;
    }
    *length = findings::put_witness(w, text, 0);
    w.number
}
