// Tokens in the order in which their bytes are written.
ghost use Rattle.std.specs.Prelude.{◌≡◌, ◌<◌};
ghost use Rattle.verilog_names.specs.Chosen.{capped};
ghost use Rattle.verilog_names.specs.Order.{next_of, is_target, target_of};

use crate::tokens::has_role;

// The first token of a role from a token on; the number of tokens where there is none.
pub fn next_of(roles: &[u8; 16385], count: usize, role: u8, from: usize) -> usize
    ensures { result ≡ next_of roles.now (capped count) role from }
{
    let n = count.min(16385);
    for i in from..n {
        if has_role(roles, role, i) {
            return i;
        }
    }
    n
}

// Is the token the target of an `assign` to a name?
fn is_target(numbers: &[u32; 16385], roles: &[u8; 16385], id: u32, i: usize) -> bool
    requires { i < 16385 }
    ensures { result ≡ is_target numbers.now roles.now id i }
{
    has_role(roles, 4, i) && numbers[i] == id
}

// The target of the first `assign` to a name; the number of tokens where there is none. Its expression begins two tokens behind.
pub fn target_of(numbers: &[u32; 16385], roles: &[u8; 16385], count: usize, id: u32) -> usize
    ensures { result ≡ target_of numbers.now roles.now (capped count) id }
{
    let n = count.min(16385);
    for i in 0..n {
        if is_target(numbers, roles, id, i) {
            return i;
        }
    }
    n
}
