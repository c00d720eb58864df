// Classes of tokens by their numbers, as in the machine's table.
use tokens::Class;

pub const OPENING: usize = Class::Opening as usize;

pub const CLOSING: usize = Class::Closing as usize;

pub const OPENING_SQUARE: usize = Class::OpeningSquare as usize;

pub const CLOSING_SQUARE: usize = Class::ClosingSquare as usize;

pub const DOT: usize = Class::Dot as usize;

pub const DOTS: usize = Class::Dots as usize;

pub const AT: usize = Class::At as usize;

pub const COMMA: usize = Class::Comma as usize;

pub const COLONS: usize = Class::Colons as usize;

pub const NAME_TEST: usize = Class::NameTest as usize;

pub const NODE_TYPE: usize = Class::NodeType as usize;

pub const INSTRUCTION: usize = Class::Instruction as usize;

pub const FUNCTION_NAME: usize = Class::FunctionName as usize;

pub const AXIS_NAME: usize = Class::AxisName as usize;

pub const LITERAL: usize = Class::Literal as usize;

pub const NUMBER: usize = Class::Number as usize;

pub const VARIABLE: usize = Class::Variable as usize;

pub const SLASH: usize = Class::Slash as usize;

pub const SLASHES: usize = Class::Slashes as usize;

pub const BAR: usize = Class::Bar as usize;

pub const PLUS: usize = Class::Plus as usize;

pub const MINUS: usize = Class::Minus as usize;
