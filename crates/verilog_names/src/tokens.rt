// Tokens by their tables.
ghost use Rattle.std.specs.Prelude.{◌≡◌, ◌≤◌, ◌<◌};
ghost use Rattle.verilog_grammar.specs.Meaning.{up_to};
ghost use Rattle.verilog_names.specs.Chosen.{count_of, has_role, is_used, is_declared, is_in};

use crate::Class;

// Is the token of that role?
pub(crate) fn has_role(roles: &[u8; 16385], role: u8, i: usize) -> bool
    requires { i < 16385 }
    ensures { result ≡ has_role roles.now role i }
{
    roles[i] == role
}

// Is it a name, and not the module's own, which is token 1?
#[tactic(auto, unfolding(crate::specs::Chosen::is_used))]
fn is_used(kinds: &[u8; 16385], i: usize) -> bool
    requires { i < 16385 }
    ensures { result ≡ is_used kinds.now i }
{
    kinds[i] == 64 && 1 < i
}

// Is it declared by one of the three words?
#[tactic(auto, unfolding(crate::specs::Chosen::is_declared))]
fn is_declared(roles: &[u8; 16385], i: usize) -> bool
    requires { i < 16385 }
    ensures { result ≡ is_declared roles.now i }
{
    roles[i] != 0 && roles[i] < 4
}

// Is the token of that kind?
pub(crate) fn is_in(kinds: &[u8; 16385], roles: &[u8; 16385], class: Class, i: usize) -> bool
    requires { i < 16385 }
    ensures { result ≡ is_in kinds.now roles.now class i }
{
    match class {
        Class::Used => is_used(kinds, i),
        Class::Declared => is_declared(roles, i),
        Class::Wire => has_role(roles, 3, i),
        Class::Target => has_role(roles, 4, i),
    }
}

// How many tokens of a role there are.
pub(crate) fn count_of(roles: &[u8; 16385], count: usize, role: u8) -> usize
    requires { count ≤ 16385 }
    ensures { result ≡ count_of roles.now count role }
{
    let mut n = 0;
    for i in 0..count {
        if has_role(roles, role, i) {
            n += 1;
        }
    }
    n
}

// "a count or width past 01's range is written as 255"
pub(crate) fn up_to(most: u8, n: usize) -> u8
    ensures { result ≡ up_to most n }
{
    if n <= most as usize { n as u8 } else { 255 }
}
