// Which item of a Verilog text breaks a rule of extraction.
ghost use Rattle.std.specs.Prelude.{◌≡◌};
ghost use Rattle.named_findings.specs.Items.{waits_with, waits_at, item_of};

use crate::variable;
use verilog_origins::Item;
use witness::Witness;

// How many waits there are in the threads before one, and before a place in it, by the sheet's code.
fn waits_with(
    sheet: &[u8],
    code: &[u16; 4096],
    sizes: &[usize; 8],
    thread: usize,
    place: usize,
) -> usize
    ensures { result ≡ waits_with sheet.now thread place code.now sizes.now }
{
    let n = rules::size_of(sizes, thread).min(place);
    let before = rules::waits_of(sheet, code, sizes, thread.min(8) as u8);
    before + rules::waits_in(sheet, code, thread, n)
}

// How many waits a sheet has in the threads before one, and before a place in it.
pub fn waits_before(sheet: &[u8], thread: usize, place: usize) -> usize
    ensures { result ≡ waits_at sheet.now thread place }
{
    let layout = sheet::read(sheet).layout;
    let mut code = [0u16; 4096];
    let sizes = pseudocode::compile(
        sheet,
        &layout.definitions,
        layout.threads,
        layout.body,
        &mut code,
    );
    waits_with(sheet, &code, &sizes, thread, place)
}

// What a witness concerns: a register where it is declared, a wire where it is assigned, a thread, or the wait that so many others stand
// before. Registers begin with this variable.
pub fn item_of(w: Witness, registers: u8, waits: usize) -> Item
    ensures { result ≡ item_of registers waits w }
{
    if w.number < 15 {
        return Item::Variable(variable(registers, w.register));
    }
    if w.wired {
        return Item::Assign(w.wire);
    }
    if w.number == 15 {
        return Item::Wait(waits);
    }
    if w.number < 20 {
        return Item::Thread(w.thread);
    }
    Item::Wait(waits)
}
