// A text written into a lent buffer of 65,536 bytes: bytes, words and numbers.
// Every contract says: buffer and new position are what putting the text at the old position gives.
#![tactic(auto)]

ghost use Rattle.std.specs.Prelude.{◌≡◌, ◌∷◌, [], replicate};
ghost use Rattle.writing.specs.Numbers.{decimal};
ghost use Rattle.writing.specs.Buffer.{filled, puts};

// A byte, past the end none.
pub fn put_byte(b: u8, text: &mut [u8; 65536], pos: usize) -> usize
    ensures { filled text.new result ≡ puts (filled text.old pos) (b ∷ []) }
{
    if pos < 65536 {
        text[pos] = b;
        return pos + 1;
    }
    pos
}

// A word.
pub fn put_word(word: &[u8], text: &mut [u8; 65536], pos: usize) -> usize
    ensures { filled text.new result ≡ puts (filled text.old pos) word.now }
{
    let mut p = pos;
    for &letter in word {
        p = put_byte(letter, text, p);
    }
    p
}

// A byte so many times.
pub fn put_many(b: u8, n: usize, text: &mut [u8; 65536], pos: usize) -> usize
    ensures { filled text.new result ≡ puts (filled text.old pos) (replicate n b) }
{
    let mut p = pos;
    for _ in 0..n {
        p = put_byte(b, text, p);
    }
    p
}

// A number in decimal.
pub fn put_decimal(n: usize, text: &mut [u8; 65536], pos: usize) -> usize
    ensures { filled text.new result ≡ puts (filled text.old pos) (decimal n) }
{
    if n < 10 {
        return put_byte(48 + n as u8, text, pos);
    }
    let p = put_decimal(n / 10, text, pos);
    put_byte(48 + (n % 10) as u8, text, p)
}

// A character and a number in decimal.
pub fn put_marked(mark: u8, n: usize, text: &mut [u8; 65536], pos: usize) -> usize
    ensures { filled text.new result ≡ puts (filled text.old pos) (mark ∷ decimal n) }
{
    let p = put_byte(mark, text, pos);
    put_decimal(n, text, p)
}
