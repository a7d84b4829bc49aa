// The tokens of a Verilog text (document 02, request [1]): what they are is said in specs/. Each function equals its definition there,
// for every text and every place.
#![tactic(auto)]

mod characters;
mod constants;
mod gaps;
mod numbers;
mod rows;
mod tokens;
mod words;

pub use characters::run_end;
pub use gaps::gap_end;
pub use rows::same;
pub use tokens::token_at;

// Kinds of characters: white space; what a word goes on with; what a one-line comment holds; digits of each base with what may
// stand among them; underscores.
#[derive(Clone, Copy)]
pub enum Class {
    Space,
    Word,
    Comment,
    Decimal,
    Binary,
    Octal,
    Hexadecimal,
    Underscore,
}

// Kinds of tokens, as the table has them by number: the text's end; the keywords and signs that stand in a production; a name; a number,
// and one that opens with 0; a value of a base, and one that is all x; what stands in no production; another keyword or sign.
#[derive(Clone, Copy)]
pub enum Kind {
    TextEnd = 0,
    Module = 1,
    Endmodule = 2,
    Input = 3,
    Reg = 4,
    Wire = 5,
    Assign = 6,
    Always = 7,
    Begin = 8,
    End = 9,
    If = 10,
    Else = 11,
    Case = 12,
    Endcase = 13,
    Default = 14,
    While = 15,
    Forever = 16,
    Posedge = 17,
    Negedge = 18,
    Or = 19,
    OpenParen = 20,
    CloseParen = 21,
    OpenBracket = 22,
    CloseBracket = 23,
    Colon = 24,
    Semicolon = 25,
    Comma = 26,
    At = 27,
    Equal = 28,
    EqualEqual = 29,
    LessEqual = 30,
    Less = 31,
    Question = 32,
    Tilde = 33,
    Exclamation = 34,
    Ampersand = 35,
    Bar = 36,
    Caret = 37,
    Plus = 38,
    Minus = 39,
    Name = 64,
    Number = 65,
    ZeroFirst = 66,
    Known = 67,
    Unknown = 68,
    Broken = 69,
    Reserved = 70,
}

// A token's kind and number, as the table has them (a name's number is 0), and its length. Past the text's end all are 0.
#[derive(Clone, Copy)]
pub struct Piece {
    pub kind: u8,
    pub number: u32,
    pub size: usize,
}
