// Words: where one stands in a list, and the classes and numbers that words have.
ghost use Rattle.std.specs.Prelude.{◌≡◌, map, get_or};
ghost use Rattle.names.specs.Names.{position};
ghost use Rattle.text.specs.Tokens.{operator_name, node_type, axis_name};
ghost use Rattle.text.specs.Limited.{axis_number, function_names};
ghost use Rattle.text.specs.Reading.{type_number};
ghost use Rattle.tokens.specs.Classes.{class_number};

use crate::Class;

// Where a word stands first among some words; their number where it isn't one of them.
fn word_in(words: &[&str], word: &[u8]) -> usize
    ensures { result ≡ position (map (λ w. w.now) words.now) word.now }
{
    words
        .iter()
        .position(|w| w.as_bytes() == word)
        .unwrap_or(words.len())
}

// The class beside a word in a table; another class for any other word.
#[tactic(auto, using(crate::proofs::Sought::among_past, crate::proofs::Sought::among_here, crate::proofs::Sought::among_behind))]
fn class_among(table: &[(&str, Class)], other: Class, word: &[u8]) -> Class
    ensures { result ≡ get_or (map (λ e. e.1) table.now) (position (map (λ e. e.0.now) table.now) word.now) other }
{
    for (name, class) in table {
        if name.as_bytes() == word {
            return *class;
        }
    }
    other
}

// The operators' names.
const OPERATORS: [(&str, Class); 4] = [
    ("and", Class::And),
    ("or", Class::Or),
    ("mod", Class::Mod),
    ("div", Class::Div),
];

// The class of a name where an operator is due.
pub fn operator_kind(word: &[u8]) -> Class
    ensures { class_number result ≡ operator_name word.now }
{
    class_among(&OPERATORS, Class::Unknown, word)
}

// The node types.
const NODE_TYPES: [(&str, Class); 4] = [
    ("comment", Class::NodeType),
    ("text", Class::NodeType),
    ("processing-instruction", Class::Instruction),
    ("node", Class::NodeType),
];

// The class of a name before `(`.
pub fn type_kind(word: &[u8]) -> Class
    ensures { class_number result ≡ node_type word.now }
{
    class_among(&NODE_TYPES, Class::FunctionName, word)
}

// The axes in the Recommendation's order.
const AXES: [&str; 13] = [
    "ancestor",
    "ancestor-or-self",
    "attribute",
    "child",
    "descendant",
    "descendant-or-self",
    "following",
    "following-sibling",
    "namespace",
    "parent",
    "preceding",
    "preceding-sibling",
    "self",
];

// The class of a name before `::`.
#[tactic(auto, unfolding(text::specs::Tokens::axis_name, text::specs::Tokens::axis_names, text::specs::Tokens::code))]
pub fn axis_kind(word: &[u8]) -> Class
    ensures { class_number result ≡ axis_name word.now }
{
    if word_in(&AXES, word) < AXES.len() {
        Class::AxisName
    } else {
        Class::Unknown
    }
}

// The axes in the order of their numbers.
const NUMBERED_AXES: [&str; 12] = [
    "self",
    "child",
    "parent",
    "descendant",
    "ancestor",
    "descendant-or-self",
    "ancestor-or-self",
    "following",
    "preceding",
    "following-sibling",
    "preceding-sibling",
    "attribute",
];

// The number of an axis by its name, 12 for namespace and any other word.
#[tactic(auto, unfolding(text::specs::Limited::axis_number))]
pub fn axis_number(word: &[u8]) -> usize
    ensures { result ≡ axis_number word.now }
{
    word_in(&NUMBERED_AXES, word)
}

// The tests of a step in the order of their numbers.
const TESTS: [&str; 4] = ["node", "*", "text", "comment"];

// The number of a test by its node type.
#[tactic(auto, unfolding(text::specs::Reading::type_number))]
pub fn type_number(word: &[u8]) -> usize
    ensures { result ≡ type_number word.now }
{
    word_in(&TESTS, word)
}

// The functions in the order of their numbers.
const FUNCTIONS: [&str; 5] = ["position", "last", "count", "not", "boolean"];

// The number of a function by its name, 5 for any that is not held.
pub fn function_number(word: &[u8]) -> usize
    ensures { result ≡ position function_names word.now }
{
    word_in(&FUNCTIONS, word)
}
