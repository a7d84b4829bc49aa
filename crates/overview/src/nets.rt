// Which nodes and entries of an extraction are shown.
ghost use Rattle.std.specs.Prelude.{◌≡◌};
ghost use Rattle.writing.specs.Buffer.{filled, puts};
ghost use Rattle.overview.specs.Shown.{shown_node, head_line, row_head, register_line, shown_entry};

use crate::lines::put_labelled;
use netlist::{is_named, print_definition, print_entry, print_place};
use sheet::Layout;
use writing::put_word;

// A node, where it has a line of its own.
pub fn put_shown_node(
    nodes: &[u16; 16384],
    uses: &[u8; 4096],
    names: &[u8; 2560],
    n: u16,
    text: &mut [u8; 65536],
    pos: usize,
) -> usize
    ensures { filled text.new result ≡ puts (filled text.old pos)
        (shown_node names.now nodes.now uses.now n) }
{
    if !is_named(nodes, uses, n) {
        return pos;
    }
    print_definition(nodes, uses, names, n, text, pos)
}

// The head of a row.
fn put_head(head: usize, text: &mut [u8; 65536], pos: usize) -> usize
    ensures { filled text.new result ≡ puts (filled text.old pos) (head_line head) }
{
    let a = put_labelled(b"thread ", head / 256, text, pos);
    let b = put_labelled(b", wait at place ", head % 256, text, a);
    put_word(b":\n", text, b)
}

// What stands in front of entry e of all rows: the head of the row that begins there.
pub fn put_row_head(heads: &[usize; 32], e: usize, text: &mut [u8; 65536], pos: usize) -> usize
    ensures { filled text.new result ≡ puts (filled text.old pos) (row_head heads.now e) }
{
    if e % 33 != 0 {
        return pos;
    }
    let k = e / 33;
    if 32 <= k {
        return pos;
    }
    put_head(heads[k], text, pos)
}

// Register k, whose next value is node n.
fn put_register(
    nodes: &[u16; 16384],
    uses: &[u8; 4096],
    names: &[u8; 2560],
    layout: Layout,
    k: usize,
    n: u16,
    text: &mut [u8; 65536],
    pos: usize,
) -> usize
    ensures { filled text.new result ≡ puts (filled text.old pos)
        (register_line names.now nodes.now uses.now layout k n) }
{
    let registers = layout.registers as usize;
    if registers <= k {
        return pos;
    }
    let target = layout.inputs as usize + k;
    if n as usize == target {
        return pos;
    }
    print_entry(nodes, uses, names, target, n, text, pos)
}

// Entry e of all rows, which is node n: the next value of a register, or the place.
pub fn put_shown_entry(
    nodes: &[u16; 16384],
    uses: &[u8; 4096],
    names: &[u8; 2560],
    layout: Layout,
    e: usize,
    n: u16,
    text: &mut [u8; 65536],
    pos: usize,
) -> usize
    ensures { filled text.new result ≡ puts (filled text.old pos)
        (shown_entry names.now nodes.now uses.now layout e n) }
{
    let k = e % 33;
    if k == 32 {
        return print_place(nodes, uses, names, n, text, pos);
    }
    put_register(nodes, uses, names, layout, k, n, text, pos)
}
