// The names of a Verilog text's variables (document 02, request [1]): where in the text each is declared. Each function equals its
// definition in specs/.
#![tactic(auto)]

mod rows;

ghost use Rattle.std.specs.Prelude.{◌≡◌, ◌≤◌, length};
ghost use Rattle.verilog_names.specs.Chosen.{capped};
ghost use Rattle.verilog_names.specs.Faults.{fault_of};
ghost use Rattle.verilog_labels.specs.Labels.{told, labels};
ghost use Rattle.verilog_labels.specs.Steps.{few, fault_in, derived_in, scanned_in};

use rows::rows;
use verilog_items::read;
use verilog_names::{first_fault, number};
use verilog_scan::scan;

// The number of tokens, which is at most 16,384.
#[tactic(auto, unfolding(crate::specs::Steps::few))]
fn few(n: usize) -> u16
    ensures { result ≡ few n }
{
    n.min(65535) as u16
}

// Names that aren't at fault, and where they are declared.
fn faultless(
    text: &[u8],
    kinds: &[u8; 16385],
    numbers: &[u32; 16385],
    begun: &[u16; 16385],
    roles: &[u8; 16385],
    count: u16,
    places: &mut [u16; 80],
    lengths: &mut [u16; 80],
) -> u8
    requires { length text.now ≤ 16384 }
    ensures { told result places.new lengths.new ≡ fault_in text.now kinds.now
        numbers.now begun.now count places.old lengths.old roles.now
        (fault_of kinds.now numbers.now begun.now roles.now (capped count)) }
{
    let n = count as usize;
    let fault = first_fault(kinds, numbers, begun, roles, n);
    if fault.found {
        return 43;
    }
    rows(text, begun, roles, n, places, lengths);
    0
}

// The module and its names. Before anything is declared each name has the number 0.
fn derived(
    text: &[u8],
    kinds: &[u8; 16385],
    numbers: &[u32; 16385],
    begun: &[u16; 16385],
    count: u16,
    places: &mut [u16; 80],
    lengths: &mut [u16; 80],
) -> u8
    requires { length text.now ≤ 16384 }
    ensures { told result places.new lengths.new ≡ derived_in text.now kinds.now
        numbers.now begun.now count places.old lengths.old }
{
    let none = [0u8; 16385];
    let mut table = [0u32; 16385];
    number(kinds, numbers, &none, count as usize, &mut table);
    let mut out = [0u8; 65536];
    let mut roles = [0u8; 16385];
    let mut widths = [0u8; 16385];
    let end = read(kinds, &table, count, &mut out, &mut roles, &mut widths);
    if !end.ok {
        return 42;
    }
    faultless(text, kinds, numbers, begun, &roles, count, places, lengths)
}

// The tables of a text that isn't too long, and what is made of them.
fn scanned(text: &[u8], places: &mut [u16; 80], lengths: &mut [u16; 80]) -> u8
    requires { length text.now ≤ 16384 }
    ensures { told result places.new lengths.new ≡ scanned_in text.now places.old
        lengths.old }
{
    let mut kinds = [0u8; 16385];
    let mut numbers = [0u32; 16385];
    let mut begun = [0u16; 16385];
    let count = scan(text, &mut kinds, &mut numbers, &mut begun);
    derived(text, &kinds, &numbers, &begun, few(count), places, lengths)
}

// For each number of a variable the place in the text of the name that declares it, and the name's length; 0 behind the last. Or the
// number 41, 42 or 43 of a refusal, which leaves both tables.
pub fn names(text: &[u8], places: &mut [u16; 80], lengths: &mut [u16; 80]) -> u8
    ensures { told result places.new lengths.new ≡ labels text.now places.old
        lengths.old }
{
    if text.len() > 16384 {
        return 41;
    }
    scanned(text, places, lengths)
}
