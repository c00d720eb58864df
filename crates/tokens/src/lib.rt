// The running lexer of path text (document 02, W-202): the next token, and what words and names are. One pass; names are scanned once.
#![tactic(auto)]

mod lexer;
mod naming;
mod runs;
mod words;

ghost use Rattle.std.specs.Prelude.{◌≡◌};
ghost use Rattle.text.specs.Tokens.{token};
ghost use Rattle.tokens.specs.Classes.{class_number};

pub use lexer::{is_due, next_token};
pub use naming::{has_prefix, is_star};
pub use runs::{byte_at, is_digit, run_end};
use text::Lexeme;
pub use words::{axis_number, function_number, type_number};

// The classes of tokens, each at its number from 0. Unknown is where no token can be read.
#[derive(Clone, Copy, PartialEq, Eq)]
pub enum Class {
    Opening,
    Closing,
    OpeningSquare,
    ClosingSquare,
    Dot,
    Dots,
    At,
    Comma,
    Colons,
    NameTest,
    NodeType,
    Instruction,
    FunctionName,
    AxisName,
    Literal,
    Number,
    Variable,
    Slash,
    Slashes,
    Bar,
    Plus,
    Minus,
    Equal,
    Unequal,
    Less,
    LessEqual,
    Greater,
    GreaterEqual,
    Multiply,
    And,
    Or,
    Div,
    Mod,
    Unknown,
}

impl Class {
    // The number of a class: the machine's table and the passes over a text go by numbers.
    pub fn number(self) -> usize
        ensures { result ≡ class_number self }
    {
        self as usize
    }

    // A token of this class that ends before a byte.
    fn token(self, end: usize) -> Lexeme
        ensures { result ≡ token (class_number self) end }
    {
        let kind = self.number();
        Lexeme { kind, end }
    }
}

// The number of the end of a text, which is no class.
pub const END: usize = 34;

// A token: the number of its class, its first byte and the byte behind it.
#[derive(Clone, Copy)]
pub struct Next {
    pub kind: usize,
    pub begin: usize,
    pub end: usize,
}
