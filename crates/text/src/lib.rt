// What a reader must believe of path text (document 02, W-202): the declared types, and under specs/ the lexical rules, the grammar, what of it
// is held, and what a text stands for. The laws of the definitions stand under proofs/. Of what runs there is only a conversion.
#![tactic(auto)]

ghost use Rattle.std.specs.Prelude.{◌≡◌};
ghost use Rattle.text.specs.Survey.{function_at};

// What a run of bytes is made of: spaces, digits, name bytes, or all bytes up to one.
#[derive(Clone, Copy, PartialEq, Eq)]
pub enum Run {
    Spaces,
    Digits,
    NameBytes,
    Until(u8),
}

// A token: the number of its class, and the byte behind it.
#[derive(Clone, Copy)]
pub struct Lexeme {
    pub kind: usize,
    pub end: usize,
}

// What is wrong in a text: the number, 23 to 26, and the byte. Of two faults at one byte the lower number is told, so it stays a number.
#[derive(Clone, Copy)]
pub struct Fault {
    pub number: u32,
    pub place: usize,
}

// The functions that document 01 holds, each at its number from 0, and any other.
#[derive(Clone, Copy, PartialEq, Eq)]
pub enum Function {
    PositionCall,
    LastCall,
    CountCall,
    NotCall,
    BooleanCall,
    OtherCall,
}

// The functions in the order of their numbers.
const FUNCTIONS: [Function; 5] = [
    Function::PositionCall,
    Function::LastCall,
    Function::CountCall,
    Function::NotCall,
    Function::BooleanCall,
];

// The function with a number: from 5 on another than those that are held.
impl From<usize> for Function {
    ghost from_gives = { λ n f. f ≡ function_at n };

    fn from(number: usize) -> Self {
        FUNCTIONS
            .get(number)
            .copied()
            .unwrap_or(Function::OtherCall)
    }
}

// The sort of an expression: a number, a truth, or a path, which gives nodes; what document 01 doesn't hold has none.
#[derive(Clone, Copy)]
pub enum Sort {
    Numeral,
    Truth,
    Nodes,
    Unheld,
}

// What the survey knows of an open bracket and of the operand in progress in it (specs/Survey.antt).
#[derive(Clone, Copy)]
pub struct Level {
    pub kind: usize,
    pub rank: usize,
    pub joined: bool,
    pub inpath: bool,
    pub andor: bool,
    pub e: usize,
    pub g: usize,
    pub m: usize,
}
