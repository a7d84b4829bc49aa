// The tokens that could have stood where reading stopped.
ghost use Rattle.std.specs.Prelude.{◌≡◌, ◌<◌, true, false};
ghost use Rattle.values.specs.Values.{pick};
ghost use Rattle.writing.specs.Buffer.{filled, puts};
ghost use Rattle.verilog_errors.specs.Choices.{short, sample, reach, stop_in, could_stand, kind_of, spelled, choice};
ghost use Rattle.verilog_errors.specs.Choices.{row, could_row, choices_from, choice_words};

use verilog_items::read;
use verilog_scan::scan;
use writing::put_word;

// The number of tokens as the reader takes it.
#[tactic(auto, unfolding(crate::specs::Choices::short))]
pub(crate) fn short(n: usize) -> u16
    ensures { result ≡ short n }
{
    n.min(65535) as u16
}

// The number of a token of that kind that stands for others: 1 of one that opens with another digit than 0, else 0.
fn sample(kind: u8) -> u32
    ensures { result ≡ sample kind }
{
    if kind == 65 { 1 } else { 0 }
}

// How many tokens there are with one at that place: one more behind the last.
fn reach(count: u16, at: usize) -> u16
    requires { at < 16385 }
    ensures { result ≡ reach count at }
{
    if at < count as usize {
        return count;
    }
    at as u16 + 1
}

// The token at which reading stops.
fn stop_of(kinds: [u8; 16385], numbers: [u32; 16385], count: u16) -> usize
    ensures { result ≡ stop_in kinds numbers count }
{
    let mut out = [0u8; 65536];
    let mut roles = [0u8; 16385];
    let mut widths = [0u8; 16385];
    let end = read(&kinds, &numbers, count, &mut out, &mut roles, &mut widths);
    end.next
}

// Does reading go past a token where that kind stands in its place?
fn could_stand(kinds: [u8; 16385], numbers: [u32; 16385], count: u16, at: usize, kind: u8) -> bool
    ensures { result ≡ could_stand kinds numbers count at kind }
{
    if 16385 <= at {
        return false;
    }
    let mut ks = kinds;
    ks[at] = kind;
    let mut ns = numbers;
    ns[at] = sample(kind);
    let n = reach(count, at);
    stop_of(ks, ns, n) != at
}

// The kind of a row of the list of spellings.
fn kind_of(n: u8) -> u8
    ensures { result ≡ kind_of n }
{
    if n < 5 {
        return 64 + n;
    }
    if n < 44 {
        return n - 4;
    }
    0
}

// A row of the list of spellings.
fn put_spelled(n: u8, out: &mut [u8; 65536], pos: usize) -> usize
    ensures { filled out.new result ≡ puts (filled out.old pos) (spelled n) }
{
    reasons::put_line(
        b"a name\na number\n`0`\na value such as 'd5\nan unknown value such as 'bx\n`module`\n`endmodule`\n`input`\n`reg`\n`wire`\n`assign`\n`always`\n`begin`\n`end`\n`if`\n`else`\n`case`\n`endcase`\n`default`\n`while`\n`forever`\n`posedge`\n`negedge`\n`or`\n`(`\n`)`\n`[`\n`]`\n`:`\n`;`\n`,`\n`@`\n`=`\n`==`\n`<=`\n`<`\n`?`\n`~`\n`!`\n`&`\n`|`\n`^`\n`+`\n`-`\nthe end of the text",
        n as usize,
        out,
        pos,
    )
}

// One of the tokens, behind a comma where it is not the first.
fn put_choice(first: bool, n: u8, out: &mut [u8; 65536], pos: usize) -> usize
    ensures { filled out.new result ≡ puts (filled out.old pos) (choice first n) }
{
    if first {
        return put_spelled(n, out, pos);
    }
    let a = put_word(b", ", out, pos);
    put_spelled(n, out, a)
}

// A row of the list: one of the tokens, or none.
fn put_row(could: bool, first: bool, n: u8, out: &mut [u8; 65536], pos: usize) -> usize
    ensures { filled out.new result ≡ puts (filled out.old pos) (row could first n) }
{
    if could {
        return put_choice(first, n, out, pos);
    }
    pos
}

// Is the next one still the first?
fn still(could: bool, first: bool) -> bool
    ensures { result ≡ pick could false first }
{
    !could && first
}

// All of them.
fn put_list(
    kinds: [u8; 16385],
    numbers: [u32; 16385],
    count: u16,
    at: usize,
    out: &mut [u8; 65536],
    pos: usize,
) -> usize
    ensures { filled out.new result
        ≡ puts (filled out.old pos) (choices_from (could_row kinds numbers count at) 45 0 true) }
{
    let mut p = pos;
    let mut first = true;
    for n in 0u8..45 {
        let could = could_stand(kinds, numbers, count, at, kind_of(n));
        p = put_row(could, first, n, out, p);
        first = still(could, first);
    }
    p
}

// What could have stood where a text stops being one of the forms.
pub fn put_choices(text: &[u8], out: &mut [u8; 65536], pos: usize) -> usize
    ensures { filled out.new result ≡ puts (filled out.old pos) (choice_words text.now) }
{
    let mut kinds = [0u8; 16385];
    let mut numbers = [0u32; 16385];
    let mut places = [0u16; 16385];
    let count = short(scan(text, &mut kinds, &mut numbers, &mut places));
    let at = stop_of(kinds, numbers, count);
    put_list(kinds, numbers, count, at, out, pos)
}
