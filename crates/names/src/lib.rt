// The lent list of names (document 02, W-202): one pass indexes it and finds the first bad line; then the number of a word is looked up.
// Lines have numbers from 1. Those of one hash are chained from the last one back: `heads` has the last line of each hash, `nexts` the line
// before each, and at 0 how many lines there are; `starts` has the first byte of each 8th line. So a list of any length takes little room.
#![tactic(auto)]

ghost use Rattle.std.specs.Prelude.{◌≡◌, true, false, cond, ◌+◌, ◌-◌, ◌*◌, ◌/◌, ◌%◌, ◌<◌, ◌≤◌, eqb, length, get_or, take, drop, set, MatchResult, Option, Some, None};
ghost use Rattle.names.specs.Names.{is_letter, is_name_byte, all_name_bytes, good_name, same};
ghost use Rattle.names.specs.Names.{names_of, bad_line, bad_names, bad_line_number, is_named, number_of};
ghost use Rattle.names.specs.Index.{line_length, line_start, line_at, hash_of};
ghost use Rattle.names.specs.Index.{Roomy, IndexedTo, Indexed, Found, Placed, LineFrom, HasRoom};

// The most names of a list.
const MOST_NAMES: usize = 65535;

// The first lines of a list, of which the entry at 0 of `nexts` says how many, with their hash index. It is made by hand, in memory that the
// caller lends, and not a map of the library: no crate but a program has a heap.
#[derive(Clone, Copy)]
struct Part<'a> {
    list: &'a [u8],
    heads: &'a [u16],
    nexts: &'a [u16],
    starts: &'a [usize],
    ghost indexed: { IndexedTo list.now (get_or nexts.now 0 0) heads.now nexts.now starts.now },
}

// A list of names that is not refused, with all its lines indexed.
#[derive(Clone, Copy)]
pub struct Names<'a> {
    pub list: &'a [u8],
    pub heads: &'a [u16],
    pub nexts: &'a [u16],
    pub starts: &'a [usize],
    ghost indexed: { Indexed list.now heads.now nexts.now starts.now },
}

// An ASCII letter or `_`.
pub fn is_letter(b: u8) -> bool
    ensures { result ≡ is_letter b }
{
    b.is_ascii_alphabetic() || b == b'_'
}

// Such, a digit, `-` or `.`.
pub fn is_name_byte(b: u8) -> bool
    ensures { result ≡ is_name_byte b }
{
    is_letter(b) || b.is_ascii_digit() || b == b'-' || b == b'.'
}

// Is a word a name?
fn is_good(word: &[u8]) -> bool
    ensures { result ≡ good_name word.now }
{
    match word {
        [] => false,
        [first, rest @ ..] => is_letter(*first) && rest.iter().all(|b| is_name_byte(*b)),
    }
}

// The hash of a word, below so many.
fn hash(word: &[u8], size: usize) -> usize
    requires { 0 < size }
    ensures { (result ≡ hash_of size word.now) × (result < size) }
{
    let mut h = 0;
    for b in word {
        h = (h * 31 + *b as usize) % 65536;
    }
    h % size
}

// How many bytes stand before the first line feed, or before the end.
fn line_length(rest: &[u8]) -> usize
    ensures { (result ≡ line_length rest.now) × (result ≤ length rest.now) }
{
    rest.iter().position(|b| *b == b'\n').unwrap_or(rest.len())
}

impl<'a> Part<'a> {
    // Where a line begins: from the first byte of the 8th line at or before it, at most seven are passed.
    fn line_start(&self, line: usize) -> usize
        requires { Placed self.now.list.now line self.now.starts.now }
        ensures { result ≡ line_start self.now.list.now line }
    {
        let mut at = self.starts[line / 8];
        for _ in line / 8 * 8..line {
            at += line_length(&self.list[at..]) + 1;
        }
        at
    }

    // Is a line this word?
    fn is_line(&self, line: usize, word: &[u8]) -> bool
        requires { Placed self.now.list.now line self.now.starts.now }
        ensures { result ≡ same (line_at self.now.list.now line) word.now }
    {
        let at = self.line_start(line);
        let end = at + line_length(&self.list[at..]);
        &self.list[at..end] == word
    }

    // The number of a line that is this word: it goes along the chain of its hash, so the next number stands in the chain and no for loop counts.
    fn find(&self, word: &[u8]) -> Option<usize>
        ensures { Found self.now.list.now (get_or self.now.nexts.now 0 0) word.now result }
    {
        let slot = hash(word, self.heads.len());
        let mut number = self.heads[slot] as usize;
        while 0 < number {
            if self.is_line(number - 1, word) {
                return Some(number);
            }
            number = self.nexts[number] as usize;
        }
        None
    }

    // Is the line from one byte to before another bad? Those before it are indexed.
    fn is_bad_line(&self, line: usize, at: usize, end: usize) -> bool
        requires { (get_or self.now.nexts.now 0 0 ≡ line) × LineFrom self.now.list.now line at end }
        ensures { result ≡ bad_line (names_of self.now.list.now) line }
    {
        if end == self.list.len() || MOST_NAMES <= line {
            return true;
        }
        let word = &self.list[at..end];
        !is_good(word) || self.find(word).is_some()
    }
}

impl<'a> Names<'a> {
    // The number of a word that is one of the names: its place, from 1.
    pub fn number_of(&self, word: &[u8]) -> Option<usize>
        ensures { result ≡ cond (is_named (names_of self.now.list.now) word.now) (Some (number_of (names_of self.now.list.now) word.now)) None }
    {
        let lines = Part {
            list: self.list,
            heads: self.heads,
            nexts: self.nexts,
            starts: self.starts,
        };
        lines.find(word)
    }
}

// Notes where a line begins, if it is an 8th.
fn note_start(starts: &mut [usize], line: usize, at: usize)
    requires { line < length starts.old * 8 }
    ensures { starts.new ≡ cond (eqb (line % 8) 0) (set starts.old (line / 8) at) starts.old }
{
    if line % 8 == 0 {
        starts[line / 8] = at;
    }
}

// Indexes one line more. The slices are no struct with their fact: it does not hold between the writes.
fn add_line(
    list: &[u8],
    heads: &mut [u16],
    nexts: &mut [u16],
    starts: &mut [usize],
    line: usize,
    at: usize,
    end: usize,
)
    requires { IndexedTo list.now line heads.old nexts.old starts.old × LineFrom list.now line at end
        × HasRoom list.now line (length nexts.old) (length starts.old) }
    ensures { IndexedTo list.now (line + 1) heads.new nexts.new starts.new }
{
    note_start(starts, line, at);
    let slot = hash(&list[at..end], heads.len());
    let number = (line + 1) as u16;
    nexts[line + 1] = heads[slot];
    nexts[0] = number;
    heads[slot] = number;
}

// Indexes the list in slices that have room for it, or gives the number of its first bad line. What the slices held before does not matter.
// No for loop goes over the lines: where one begins is told by the end of the one before, which may not be ended.
pub fn index(
    list: &[u8],
    heads: &mut [u16],
    nexts: &mut [u16],
    starts: &mut [usize],
) -> Result<(), usize>
    requires { Roomy list.now (length heads.old) (length nexts.old) (length starts.old) }
    ensures indexed { MatchResult result (λ _. Indexed list.now heads.new nexts.new starts.new) (λ line. (bad_names (names_of list.now) ≡ true) × (line ≡ bad_line_number (names_of list.now))) }
    ensures lengths { (length heads.new ≡ length heads.old) × (length nexts.new ≡ length nexts.old) × (length starts.new ≡ length starts.old) }
{
    heads.fill(0);
    nexts[0] = 0;
    let mut line = 0;
    let mut at = 0;
    while at < list.len() {
        let end = at + line_length(&list[at..]);
        let lines = Part {
            list,
            heads,
            nexts,
            starts,
        };
        if lines.is_bad_line(line, at, end) {
            return Err(line + 1);
        }
        add_line(list, heads, nexts, starts, line, at, end);
        line += 1;
        at = end + 1;
    }
    Ok(())
}
