// Which waits there are.
ghost use Rattle.std.specs.Prelude.{◌≡◌, ◌∷◌, [], ◌+◌, ◌*◌, ◌≤◌};
ghost use Rattle.overview.specs.Heads.{noted, notes, head_of, heads_in, heads_of};

use pseudocode::Instruction;
use rules::size_of;

// One head more, at k.
fn note(head: usize, heads: &mut [usize; 32], k: usize) -> usize
    requires { k ≤ 65536 }
    ensures { noted heads.new result ≡ notes (noted heads.old k) (head ∷ []) }
{
    if k < 32 {
        heads[k] = head;
        return k + 1;
    }
    k + 1
}

// The head of an instruction, where it is a wait.
fn note_wait(
    x: Instruction,
    thread: usize,
    place: usize,
    heads: &mut [usize; 32],
    k: usize,
) -> usize
    requires { (thread ≤ 255) × (place ≤ 256) × (k ≤ 65536) }
    ensures { noted heads.new result ≡ notes (noted heads.old k) (head_of x thread place) }
{
    match x {
        Instruction::Wait(_) => note(256 * thread + place, heads, k),
        Instruction::Act(_) => k,
    }
}

// Those of a thread's first n instructions, from k on.
fn fill_thread(
    sheet: &[u8],
    code: &[u16; 4096],
    thread: usize,
    n: usize,
    heads: &mut [usize; 32],
    first: usize,
) -> usize
    requires { (thread ≤ 255) × (n ≤ 256) × (first ≤ 256 * thread) }
    ensures { noted heads.new result
        ≡ notes (noted heads.old first) (heads_in sheet.now code.now thread n) }
{
    let mut k = first;
    for p in 0..n {
        let x = pseudocode::fetch(sheet, code, thread, p);
        k = note_wait(x, thread, p, heads, k);
    }
    k
}

// The heads of all waits of so many threads, the first 32 of them stored. Gives how many there are.
pub fn fill_heads(
    sheet: &[u8],
    code: &[u16; 4096],
    sizes: &[usize; 8],
    threads: u8,
    heads: &mut [usize; 32],
) -> usize
    ensures { noted heads.new result ≡ notes (noted heads.old 0)
        (heads_of sheet.now code.now sizes.now threads) }
{
    let mut k: usize = 0;
    for i in 0..threads as usize {
        let n = size_of(sizes, i);
        k = fill_thread(sheet, code, i, n, heads, k);
    }
    k
}
