// Ops of a path's rows, and axes of steps, by their numbers, which stand in the rows.
use meaning::{Axis, Op};

pub const LITERAL_ROW: u32 = Op::Literal as u32;

pub const POSITION: u32 = Op::Position as u32;

pub const LAST: u32 = Op::Last as u32;

pub const ADD: u32 = Op::Add as u32;

pub const SUBTRACT: u32 = Op::Subtract as u32;

pub const MULTIPLY: u32 = Op::Multiply as u32;

pub const DIVIDE: u32 = Op::Divide as u32;

pub const REMAINDER: u32 = Op::Remainder as u32;

pub const NEGATE: u32 = Op::Negate as u32;

pub const EQUAL: u32 = Op::Equal as u32;

pub const UNEQUAL: u32 = Op::Unequal as u32;

pub const LESS: u32 = Op::Less as u32;

pub const LESS_EQUAL: u32 = Op::LessEqual as u32;

pub const GREATER: u32 = Op::Greater as u32;

pub const GREATER_EQUAL: u32 = Op::GreaterEqual as u32;

pub const AND: u32 = Op::And as u32;

pub const OR: u32 = Op::Or as u32;

pub const NEGATION: u32 = Op::Negation as u32;

pub const TRUTH_OF: u32 = Op::TruthOf as u32;

pub const EXISTS: u32 = Op::Exists as u32;

pub const COUNT: u32 = Op::Count as u32;

pub const RELATIVE: u32 = Op::Relative as u32;

pub const ABSOLUTE: u32 = Op::Absolute as u32;

pub const STEP: u32 = Op::Step as u32;

pub const PREDICATE: u32 = Op::Predicate as u32;

pub const ITSELF: u32 = Axis::Itself as u32;

pub const CHILD: u32 = Axis::Child as u32;

pub const PARENT: u32 = Axis::Parent as u32;

pub const DESCENDANT_OR_SELF: u32 = Axis::DescendantOrSelf as u32;

pub const ATTRIBUTE: u32 = Axis::Attribute as u32;
