// The variables that a table has columns for: in the sheet's order, or by their names. Each function equals its definition in specs/.
#![tactic(auto)]

ghost use Rattle.std.specs.Prelude.{◌≡◌};
ghost use Rattle.stimulus.specs.Counting.{found_below};
ghost use Rattle.columns.specs.Columns.{in_order, first_of, behind_of, variable_of, name_end, choice, chosen, all_chosen};

use stimulus::counted;

// How many columns there are, and what is wrong: error 0 nothing, 1 no such variable, 2 more than 80; with the place of that name. Stays a
// record with a number: what is refused keeps the columns before it (`chosen_from` of specs/Columns).
#[derive(Clone, Copy)]
pub struct Choice {
    pub count: usize,
    pub error: u8,
    pub column: usize,
}

// ---- in the sheet's order

// Place i has variable i.
pub fn put_in_order(places: &mut [u8; 80])
    ensures { places.new ≡ in_order places.old }
{
    for i in 0..80 {
        places[i] = i as u8;
    }
}

// The first column: input 1 where the inputs are shown, else the first register.
pub fn first_of(shown: bool, inputs: u8) -> usize
    ensures { result ≡ first_of shown inputs }
{
    if shown { 1 } else { inputs as usize }
}

// The one behind the last, which is a wire where the wires are shown, else a register.
pub fn behind_of(shown: bool, inputs: u8, registers: u8, wires: u8) -> usize
    ensures { result ≡ behind_of shown inputs registers wires }
{
    let n = inputs as usize + registers as usize;
    if shown { n + wires as usize } else { n }
}

// ---- by their names

// Which of n variables has a name.
fn variable_of(names: &[u8; 2560], n: u8, word: &[u8]) -> Option<u8>
    ensures { result ≡ found_below n (variable_of names.now n word.now) }
{
    for v in 0..n {
        if naming::same_name(names, v as usize, word) {
            return Some(v);
        }
    }
    None
}

// Where the name ends that starts at a place.
fn name_end(word: &[u8], from: usize) -> usize
    ensures { result ≡ name_end word.now from }
{
    for i in from..word.len() {
        if word[i] == b',' {
            return i;
        }
    }
    from.max(word.len())
}

fn told(count: usize, error: u8, column: usize) -> Choice
    ensures { result ≡ choice count error column }
{
    Choice {
        count,
        error,
        column,
    }
}

// The names of a word, with commas between them.
pub fn choose(names: &[u8; 2560], n: u8, word: &[u8], places: &mut [u8; 80]) -> Choice
    ensures { chosen places.new result
        ≡ all_chosen names.now n word.now places.old }
{
    let size = word.len();
    let mut from: usize = 0;
    for count in 0..80 {
        let end = name_end(word, from);
        let Some(v) = variable_of(names, n, &word[from..end]) else {
            return told(count, 1, counted(from));
        };
        places[count] = v;
        if size <= end {
            return told(count + 1, 0, 0);
        }
        from = end + 1;
    }
    told(80, 2, counted(from))
}
