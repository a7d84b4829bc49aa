// Numbers of variables.
ghost use Rattle.std.specs.Prelude.{◌≡◌, ◌+◌, ◌≤◌, ◌<◌, length};
ghost use Rattle.verilog_names.specs.Chosen.{capped, here, chosen, has_role, count_of};
ghost use Rattle.verilog_names.specs.Numbers.{ordered, place_of, entry, entered, by_id, number_at, numbered};

use crate::tokens::{count_of, has_role, up_to};

// How many names of a role stand before the first that is such; how many there are where none is.
fn place_of(numbers: &[u32; 16385], roles: &[u8; 16385], count: usize, role: u8, id: u32) -> usize
    requires { count ≤ 16385 }
    ensures { result ≡ place_of numbers.now (chosen (has_role roles.now role) count 0) id }
{
    let mut k = 0;
    for i in 0..count {
        if has_role(roles, role, i) {
            if numbers[i] == id {
                return k;
            }
            k += 1;
        }
    }
    k
}

// The number of the variable that is named so.
fn variable_of(
    numbers: &[u32; 16385],
    roles: &[u8; 16385],
    count: usize,
    inputs: usize,
    registers: usize,
    id: u32,
) -> usize
    requires count_bound { count ≤ 16385 }
    requires inputs_value { inputs ≡ count_of roles.now count 1 }
    requires registers_value { registers ≡ count_of roles.now count 2 }
    ensures { result ≡ place_of numbers.now (ordered roles.now count) id }
{
    let a = place_of(numbers, roles, count, 1, id);
    if a < inputs {
        return a;
    }
    let b = place_of(numbers, roles, count, 2, id);
    if b < registers {
        return inputs + b;
    }
    let c = place_of(numbers, roles, count, 3, id);
    inputs + registers + c
}

// ---- a table by id

// Enters a number at an id that the table has.
pub(crate) fn enter_id(table: &mut [u8; 16385], id: u32, number: u8)
    ensures { table.new ≡ entry table.old id number }
{
    let k = id as usize;
    if k < 16385 {
        table[k] = number;
    }
}

// Enters the number below `above` for a token, where it has that role; the answer is the number that is above what comes next.
fn enter_at(
    numbers: &[u32; 16385],
    roles: &[u8; 16385],
    role: u8,
    i: usize,
    above: usize,
    table: &mut [u8; 16385],
) -> usize
    requires i_bound { i < 16385 }
    requires i_len_bound { length (here (has_role roles.now role) i) ≤ above }
    ensures { (result + length (here (has_role roles.now role) i) ≡ above) × (table.new
        ≡ entered numbers.now (here (has_role roles.now role) i) result table.old) }
{
    if !has_role(roles, role, i) {
        return above;
    }
    let v = above - 1;
    enter_id(table, numbers[i], up_to(255, v));
    v
}

// Enters the numbers below `above` for all tokens of a role; the answer is the first one's.
fn enter_role(
    numbers: &[u32; 16385],
    roles: &[u8; 16385],
    count: usize,
    role: u8,
    above: usize,
    table: &mut [u8; 16385],
) -> usize
    requires count_bound { count ≤ 16385 }
    requires role_bound { count_of roles.now count role ≤ above }
    ensures { (result + count_of roles.now count role ≡ above) × (table.new
        ≡ entered numbers.now (chosen (has_role roles.now role) count 0) result table.old) }
{
    let mut k = above;
    let mut i = count;
    // stays a while: the index goes down, and turning a range round (rev) is no plainer
    while i > 0 {
        i -= 1;
        k = enter_at(numbers, roles, role, i, k, table);
    }
    k
}

// Enters the numbers of all variables.
fn enter(
    numbers: &[u32; 16385],
    roles: &[u8; 16385],
    count: usize,
    all: usize,
    table: &mut [u8; 16385],
)
    requires count_bound { count ≤ 16385 }
    requires all_value { all ≡ length (ordered roles.now count) }
    ensures { table.new ≡ entered numbers.now (ordered roles.now count) 0 table.old }
{
    let a = enter_role(numbers, roles, count, 3, all, table);
    let b = enter_role(numbers, roles, count, 2, a, table);
    enter_role(numbers, roles, count, 1, b, table);
}

// What a token's number becomes.
fn number_at(
    kinds: &[u8; 16385],
    numbers: &[u32; 16385],
    roles: &[u8; 16385],
    count: usize,
    inputs: usize,
    registers: usize,
    table: &[u8; 16385],
    i: usize,
) -> u32
    requires count_bound { count ≤ 16385 }
    requires inputs_value { inputs ≡ count_of roles.now count 1 }
    requires registers_value { registers ≡ count_of roles.now count 2 }
    requires table_value { table.now ≡ by_id numbers.now roles.now count }
    requires i_bound { i < 16385 }
    ensures { result ≡ number_at kinds.now numbers.now roles.now count i }
{
    let id = numbers[i];
    if kinds[i] != 64 {
        return id;
    }
    let k = id as usize;
    if k < 16385 {
        return table[k] as u32;
    }
    let v = variable_of(numbers, roles, count, inputs, registers, id);
    up_to(255, v) as u32
}

// The numbers of the tokens, in which a name has its variable's number, into a lent table; behind the last token it stays as it is.
pub fn number(
    kinds: &[u8; 16385],
    numbers: &[u32; 16385],
    roles: &[u8; 16385],
    count: usize,
    out: &mut [u32; 16385],
)
    ensures { out.new ≡
        numbered kinds.now numbers.now roles.now (capped count) out.old }
{
    let n = count.min(16385);
    let inputs = count_of(roles, n, 1);
    let registers = count_of(roles, n, 2);
    let all = inputs + registers + count_of(roles, n, 3);
    let mut table = [up_to(255, all); 16385];
    enter(numbers, roles, n, all, &mut table);
    for i in 0..n {
        out[i] = number_at(kinds, numbers, roles, n, inputs, registers, &table, i);
    }
}
