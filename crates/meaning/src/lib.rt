// What a reader must believe: the types and the limits that document 01 names, and under specs/ the document as definitions.
// The laws of the definitions stand under proofs/. Of what runs there are only conversions.
#![tactic(auto)]

ghost use Rattle.std.specs.Prelude.{◌≡◌};
ghost use Rattle.meaning.specs.Axis.{axis_of, test_of};
ghost use Rattle.meaning.specs.Rows.{op_of};
ghost use Rattle.meaning.specs.Answers.{refused, told};

// The most rows of a table: document 01's limit, which `most_rows` names in the definitions.
pub const MOST_ROWS: usize = 8192;

// The number of the last axis, which `last_axis` names in the definitions.
pub const LAST_AXIS: usize = 11;

// The twelve axes, each at its number from 0.
#[derive(Clone, Copy, PartialEq, Eq)]
pub enum Axis {
    Itself,
    Child,
    Parent,
    Descendant,
    Ancestor,
    DescendantOrSelf,
    AncestorOrSelf,
    Following,
    Preceding,
    FollowingSibling,
    PrecedingSibling,
    Attribute,
}

// The axes in the order of their numbers.
static AXES: [Axis; 12] = [
    Axis::Itself,
    Axis::Child,
    Axis::Parent,
    Axis::Descendant,
    Axis::Ancestor,
    Axis::DescendantOrSelf,
    Axis::AncestorOrSelf,
    Axis::Following,
    Axis::Preceding,
    Axis::FollowingSibling,
    Axis::PrecedingSibling,
    Axis::Attribute,
];

// The axis with a number: above 11 self, which no accepted path names by such a number.
impl From<usize> for Axis {
    ghost from_gives = { λ n r. r ≡ axis_of n };

    #[tactic(auto, unfolding(crate::specs::Axis::axis_of))]
    fn from(number: usize) -> Self {
        AXES.get(number).copied().unwrap_or(Axis::Itself)
    }
}

// The tests of a step: tests 0 to 4, and a name's.
#[derive(Clone, Copy, PartialEq, Eq)]
pub enum Test {
    AnyNode,
    Star,
    Text,
    Comment,
    Instruction,
    Named(usize),
}

// The tests without a name, in the order of their numbers.
static TESTS: [Test; 5] = [
    Test::AnyNode,
    Test::Star,
    Test::Text,
    Test::Comment,
    Test::Instruction,
];

// The test with a number.
impl From<usize> for Test {
    ghost from_gives = { λ n r. r ≡ test_of n };

    #[tactic(auto, unfolding(crate::specs::Axis::test_of))]
    fn from(number: usize) -> Self {
        if number <= 4 {
            TESTS[number]
        } else {
            Test::Named(number.saturating_sub(16))
        }
    }
}

// The ops of a path's rows, 1 to 25 each at its number; any other number is unknown.
#[derive(Clone, Copy, PartialEq, Eq)]
pub enum Op {
    Unknown,
    Literal,
    Position,
    Last,
    Add,
    Subtract,
    Multiply,
    Divide,
    Remainder,
    Negate,
    Equal,
    Unequal,
    Less,
    LessEqual,
    Greater,
    GreaterEqual,
    And,
    Or,
    Negation,
    TruthOf,
    Exists,
    Count,
    Relative,
    Absolute,
    Step,
    Predicate,
}

// The ops in the order of their numbers.
static OPS: [Op; 26] = [
    Op::Unknown,
    Op::Literal,
    Op::Position,
    Op::Last,
    Op::Add,
    Op::Subtract,
    Op::Multiply,
    Op::Divide,
    Op::Remainder,
    Op::Negate,
    Op::Equal,
    Op::Unequal,
    Op::Less,
    Op::LessEqual,
    Op::Greater,
    Op::GreaterEqual,
    Op::And,
    Op::Or,
    Op::Negation,
    Op::TruthOf,
    Op::Exists,
    Op::Count,
    Op::Relative,
    Op::Absolute,
    Op::Step,
    Op::Predicate,
];

// The op with a number.
impl From<usize> for Op {
    ghost from_gives = { λ n r. r ≡ op_of n };

    #[tactic(auto, unfolding(crate::specs::Rows::op_of))]
    fn from(number: usize) -> Self {
        if number < OPS.len() {
            OPS[number]
        } else {
            Op::Unknown
        }
    }
}

// What a field holds: nothing, a literal index, an axis, a test, or a link to a row of a sort; the last two may be no link.
#[derive(Clone, Copy, PartialEq, Eq)]
pub enum Field {
    Unused,
    LiteralIndex,
    AxisNumber,
    TestNumber,
    NumberLink,
    TruthLink,
    ExpressionLink,
    PathLink,
    StepLink,
    StepOrNone,
    PredicateOrNone,
}

// What the fields of an op's rows hold.
#[derive(Clone, Copy)]
pub struct Fields {
    pub a: Field,
    pub b: Field,
    pub c: Field,
    pub d: Field,
}

// The value of an expression is either a truth or a number.
#[derive(Clone, Copy)]
pub enum Value {
    Truth(bool),
    Number(f64),
}

// The context of a predicate is a node, a position and a size.
#[derive(Clone, Copy)]
pub struct Context {
    pub node: usize,
    pub position: f64,
    pub size: f64,
}

// What an outcome is told as: a number of the documents, and its place. The definitions speak of it, and C is given it.
#[derive(Clone, Copy)]
pub struct Answer {
    pub number: u32,
    pub place: u32,
}

// A refusal as its number and place.
impl From<Refusal> for Answer {
    ghost from_gives = { λ r a. a ≡ refused r };

    fn from(refusal: Refusal) -> Self {
        let (number, place) = match refusal {
            Refusal::TableLength => (1, 0),
            Refusal::BrokenRow(row) => (2, row),
            Refusal::PathLength => (3, 0),
            Refusal::BadLiteral(index) => (4, index),
            Refusal::BrokenPathRow(row) => (5, row),
            Refusal::TooDeep => (6, 0),
            Refusal::NoSuchNode(node) => (7, node),
            Refusal::NoRoom(needed) => (8, needed),
            Refusal::StepCounts(step) => (9, step),
            Refusal::AbsolutePath => (10, 0),
            Refusal::NoRoomToTurn(needed) => (11, needed),
            Refusal::StepOnAttributes(step) => (13, step),
            Refusal::NoSuchEdition(edition) => (14, edition),
        };
        Answer { number, place }
    }
}

// An outcome as a number and a place.
impl From<Result<u32, Refusal>> for Answer {
    ghost from_gives = { λ r a. a ≡ told r };

    fn from(outcome: Result<u32, Refusal>) -> Self {
        match outcome {
            Ok(place) => Answer { number: 0, place },
            Err(refusal) => Answer::from(refusal),
        }
    }
}

// Why a public function refuses: a case for each number above 0 of document 01, and for 13 and 14 of document 02, with its place where that
// is not 0.
#[derive(Clone, Copy, PartialEq, Eq)]
pub enum Refusal {
    TableLength,
    BrokenRow(u32),
    PathLength,
    BadLiteral(u32),
    BrokenPathRow(u32),
    TooDeep,
    NoSuchNode(u32),
    NoRoom(u32),
    StepCounts(u32),
    AbsolutePath,
    NoRoomToTurn(u32),
    StepOnAttributes(u32),
    NoSuchEdition(u32),
}

// A part of a caller's list: where it begins, and how many entries it has.
#[derive(Clone, Copy)]
pub struct Part {
    pub begin: usize,
    pub length: usize,
}
