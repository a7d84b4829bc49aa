// Binary operators by the kind of their sign.
ghost use Rattle.std.specs.Prelude.{◌≡◌};
ghost use Rattle.verilog_exprs.specs.Exprs.{precedence_of, operator_of};

use verilog_tokens::Kind;

const PLUS: u8 = Kind::Plus as u8;

const MINUS: u8 = Kind::Minus as u8;

const LESS: u8 = Kind::Less as u8;

const EQUAL: u8 = Kind::EqualEqual as u8;

const AND: u8 = Kind::Ampersand as u8;

const XOR: u8 = Kind::Caret as u8;

const OR: u8 = Kind::Bar as u8;

// How close an operator binds; 0 for what is none.
#[tactic(auto, unfolding(crate::specs::Exprs::precedence_of))]
pub fn precedence_of(kind: u8) -> u8
    ensures { result ≡ precedence_of kind }
{
    match kind {
        PLUS | MINUS => 7,
        LESS => 6,
        EQUAL => 5,
        AND => 4,
        XOR => 3,
        OR => 2,
        _ => 0,
    }
}

// An operator's number in a sheet.
#[tactic(auto, unfolding(crate::specs::Exprs::operator_of))]
pub fn operator_of(kind: u8) -> u8
    ensures { result ≡ operator_of kind }
{
    match kind {
        PLUS => 6,
        MINUS => 7,
        LESS => 9,
        EQUAL => 8,
        AND => 3,
        XOR => 5,
        _ => 4,
    }
}
