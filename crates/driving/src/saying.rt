// What is said of a run that does not come to rest.
ghost use Rattle.std.specs.Prelude.{◌≡◌, ◌%◌};
ghost use Rattle.writing.specs.Numbers.{digit};
ghost use Rattle.writing.specs.Buffer.{filled, puts};
ghost use Rattle.driving.specs.Saying.{three, thousands, grouped, restless_words};

use writing::{put_decimal, put_word};

// The last digit of a number.
fn last_digit(n: usize) -> u8
    ensures { result ≡ digit (n % 10) }
{
    48 + (n % 10) as u8
}

// A comma, and a number's last three digits.
fn put_three(n: usize, text: &mut [u8; 65536], pos: usize) -> usize
    ensures { filled text.new result ≡ puts (filled text.old pos) (three n) }
{
    let word = [b',', last_digit(n / 100), last_digit(n / 10), last_digit(n)];
    put_word(&word, text, pos)
}

// A number below a million with its thousands apart.
fn put_thousands(n: usize, text: &mut [u8; 65536], pos: usize) -> usize
    ensures { filled text.new result ≡ puts (filled text.old pos) (thousands n) }
{
    if n < 1000 {
        return put_decimal(n, text, pos);
    }
    let p = put_decimal(n / 1000, text, pos);
    put_three(n, text, p)
}

// A number with its thousands and millions apart.
fn put_grouped(n: usize, text: &mut [u8; 65536], pos: usize) -> usize
    ensures { filled text.new result ≡ puts (filled text.old pos) (grouped n) }
{
    if n < 1000000 {
        return put_thousands(n, text, pos);
    }
    let p = put_thousands(n / 1000000, text, pos);
    let q = put_three(n / 1000, text, p);
    put_three(n, text, q)
}

// Not at rest after so many choices.
pub fn put_restless(n: usize, text: &mut [u8; 65536], pos: usize) -> usize
    ensures { filled text.new result ≡ puts (filled text.old pos) (restless_words n) }
{
    let p = put_word(b"not at rest after ", text, pos);
    let q = put_grouped(n, text, p);
    put_word(b" choices", text, q)
}
