// 25: are rows of inputs whole? The function equals its definition in events' specs/Rows, for every argument.
#![tactic(auto)]

ghost use Rattle.std.specs.Prelude.{◌≡◌};
ghost use Rattle.events.specs.Rows.{whole_rows};

// Do the numbers fill rows of 16, and has each its marks?
pub fn rows_whole(value: &[u32], unknown: &[u32]) -> bool
    ensures { result ≡ whole_rows value.now unknown.now }
{
    value.len() % 16 == 0 && unknown.len() == value.len()
}
