// Tables of words: a text with a line for each.
ghost use Rattle.std.specs.Prelude.{◌≡◌, length};
ghost use Rattle.naming.specs.Naming.{same_text};
ghost use Rattle.verilog_tokens.specs.Words.{opens_with, first_of};
ghost use Rattle.verilog_tokens.specs.Rows.{rows_of, row_in};

use crate::Class;
use crate::characters::run_end;

// Are two words the same?
pub fn same(a: &[u8], b: &[u8]) -> bool
    ensures { result ≡ same_text a.now b.now }
{
    a == b
}

// The place of the first row that is such a word; the number of rows where none is.
pub fn place_in(table: &[u8], word: &[u8]) -> usize
    ensures { result ≡ row_in (rows_of table.now) word.now }
{
    let mut n = 0;
    let mut i = 0;
    while i < table.len() {
        let end = run_end(table, i, Class::Comment);
        if same(&table[i..end], word) {
            return n;
        }
        n += 1;
        if table.len() <= end {
            return n;
        }
        i = end + 1;
    }
    n
}

// Does a text open with a word?
fn opens_with(word: &[u8], text: &[u8]) -> bool
    ensures { result ≡ opens_with word.now text.now }
{
    let n = word.len();
    n <= text.len() && same(word, &text[..n])
}

// The length of the first row that a text opens with; 0 for none.
// Stays a number: a row can be empty, so 0 does not tell that none was found.
pub fn first_of(table: &[u8], text: &[u8]) -> usize
    ensures { result ≡ length (first_of (rows_of table.now) text.now) }
{
    let mut i = 0;
    while i < table.len() {
        let end = run_end(table, i, Class::Comment);
        if opens_with(&table[i..end], text) {
            return end - i;
        }
        if table.len() <= end {
            return 0;
        }
        i = end + 1;
    }
    0
}
