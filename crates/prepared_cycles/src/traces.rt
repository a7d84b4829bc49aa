// A trace's rows: what an instant and the run after it leave, written into an array that a caller lends.
ghost use Rattle.std.specs.Prelude.{◌≡◌, ◌+◌, ◌*◌, ◌≤◌, length};
ghost use Rattle.std.proofs.lemmas.List.Edits.{sets};
ghost use Rattle.prepared_cycles.specs.Traces.{word_in, words_in, places_in, row_in};

use plan::Cells;

// A variable's word: the cell of its value.
fn word_in(c: u64) -> u64
    ensures { result ≡ word_in c }
{
    values::store(values::load(c))
}

// The variables' words, from a place on.
fn put_words(cells: &Cells, out: &mut [u64], at: usize)
    requires { at + 80 ≤ length out.old }
    ensures { out.new ≡ sets out.old at (words_in cells.now) }
{
    for v in 0..80 {
        out[at + v] = word_in(cells[v]);
    }
}

// The threads' places, from a place on.
fn put_places(stood: &[u8; 8], out: &mut [u64], at: usize)
    requires { at + 8 ≤ length out.old }
    ensures { out.new ≡ sets out.old at (places_in stood.now) }
{
    for i in 0..8 {
        out[at + i] = stood[i] as u64;
    }
}

// Row `p`.
pub fn put_row<'a>(cells: &'a Cells, stood: &'a [u8; 8], out: &mut [u64], p: usize)
    requires { 88 * p + 88 ≤ length out.old }
    ensures { out.new ≡ sets out.old (88 * p) (row_in cells.now stood.now) }
{
    put_words(cells, out, 88 * p);
    put_places(stood, out, 88 * p + 80);
}
