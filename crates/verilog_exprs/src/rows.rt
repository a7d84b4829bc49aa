// The rows of a table of tokens.
ghost use Rattle.std.specs.Prelude.{◌≡◌};
ghost use Rattle.verilog_exprs.specs.Rows.{row_at, expected};

use super::Put;

// A token's kind; 0 past the table's end.
pub fn kind_at(kinds: &[u8; 16385], i: usize) -> u8
    ensures { result ≡ row_at kinds.now i }
{
    if i < 16385 { kinds[i] } else { 0 }
}

// A token's number; 0 past the table's end.
pub fn number_at(numbers: &[u32; 16385], i: usize) -> u32
    ensures { result ≡ row_at numbers.now i }
{
    if i < 16385 { numbers[i] } else { 0 }
}

// A token of a kind, behind what was read; a refusal stays one.
#[tactic(auto, unfolding(crate::specs::Rows::expected, crate::specs::Rows::is_at))]
pub fn expect(kinds: &[u8; 16385], at: Put, kind: u8) -> Put
    ensures { result ≡ expected kinds.now kind at }
{
    let i = at.next;
    if at.ok && i < 16385 && kinds[i] == kind {
        return Put { next: i + 1, ..at };
    }
    Put { ok: false, ..at }
}
