// Reads of a node table's rows, each equal to its definition (document 01, "The node table"). A row that is read is there, so no read
// compares. The reads take a table and a row as they are, and no struct of both: docs/PROMISES.md promises them of any such two.
#![tactic(auto)]

ghost use Rattle.std.specs.Prelude.{◌≡◌, ◌<◌};
ghost use Rattle.meaning.specs.Table.{rows, kind, is_attribute, name, parent_of, size, end};
ghost use Rattle.table.specs.Kinds.{kind_of};

// What a node is: kinds 0 to 5, each at its number. Any other number is unknown.
#[derive(Clone, Copy, PartialEq, Eq)]
pub enum Kind {
    Root,
    Element,
    Text,
    Comment,
    Instruction,
    Attribute,
    Unknown,
}

// The kind with a number.
impl From<usize> for Kind {
    ghost from_gives = { λ n k. k ≡ kind_of n };

    #[tactic(auto, unfolding(crate::specs::Kinds::kind_of))]
    fn from(number: usize) -> Self {
        match number {
            0 => Kind::Root,
            1 => Kind::Element,
            2 => Kind::Text,
            3 => Kind::Comment,
            4 => Kind::Instruction,
            5 => Kind::Attribute,
            _ => Kind::Unknown,
        }
    }
}

pub fn row_count(table: &[u32]) -> usize
    ensures { result ≡ rows table.now }
{
    table.len() / 4
}

// The number of row i's kind, any number: what a table that is not yet checked holds, and what `passes_test` compares.
pub fn kind_at(table: &[u32], i: usize) -> usize
    requires { i < rows table.now }
    ensures { (result ≡ kind table.now i) × (result < 4294967296) }
{
    table[4 * i] as usize
}

// What row i is.
pub fn node_kind(table: &[u32], i: usize) -> Kind
    requires { i < rows table.now }
    ensures { result ≡ kind_of (kind table.now i) }
{
    Kind::from(kind_at(table, i))
}

// Is row i an attribute?
#[tactic(auto, using(crate::proofs::Numbers::same_kind))]
pub fn is_attribute(table: &[u32], i: usize) -> bool
    requires { i < rows table.now }
    ensures { result ≡ is_attribute table.now i }
{
    node_kind(table, i) == Kind::Attribute
}

pub fn name_at(table: &[u32], i: usize) -> usize
    requires { i < rows table.now }
    ensures { (result ≡ name table.now i) × (result < 4294967296) }
{
    table[4 * i + 1] as usize
}

pub fn parent_at(table: &[u32], i: usize) -> usize
    requires { i < rows table.now }
    ensures { (result ≡ parent_of table.now i) × (result < 4294967296) }
{
    table[4 * i + 2] as usize
}

pub fn size_at(table: &[u32], i: usize) -> usize
    requires { i < rows table.now }
    ensures { (result ≡ size table.now i) × (result < 4294967296) }
{
    table[4 * i + 3] as usize
}

// The last row of i's subtree: a sum of whole numbers, which 64 bits hold.
pub fn end_at(table: &[u32], i: usize) -> usize
    requires { (i < rows table.now) × (i < 4294967296) }
    ensures { (result ≡ end table.now i) × (result < 8589934592) }
{
    i + size_at(table, i)
}
