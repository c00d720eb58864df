// The reply: the line that is written, an answer as bare numbers, or for a line with a name the name and the answer in words.
ghost use Rattle.std.specs.Prelude.{◌<◌};

use crate::outcome::{Entry, Outcome};
use itoa::{Buffer, Integer};
use std::alloc::{AllocError, Global};
use std::io::Write;
use std::{fmt, io};

// Where the answers of lines with names begin.
const COLUMN: usize = 72;

// The most bytes of a line that are written, its end among them.
const MOST_LINE: usize = 65536;

// Room for a line, and for an entry and the words behind it that are put before it is cut.
const LINE_ROOM: usize = MOST_LINE + 256;

// What the place counts on 0.
#[derive(Clone, Copy)]
enum Unit {
    Row,
    Node,
    Number,
    Byte,
}

impl fmt::Display for Unit {
    fn fmt<W: fmt::Write>(&self, f: &mut fmt::Formatter<W>) -> fmt::Result {
        f.write_str(match self {
            Unit::Row => "row",
            Unit::Node => "node",
            Unit::Number => "number",
            Unit::Byte => "byte",
        })
    }
}

// So many of something.
#[derive(Drop)]
struct Count {
    n: u64,
    unit: Unit,
}

impl fmt::Display for Count {
    fn fmt<W: fmt::Write>(&self, f: &mut fmt::Formatter<W>) -> fmt::Result {
        let Count { n, unit } = self;
        write!(f, "{n} {unit}")?;
        if *n == 1 { Ok(()) } else { f.write_str("s") }
    }
}

// The entries that a call wrote, by what they are.
#[derive(Clone, Copy)]
pub enum Entries<'a> {
    Rows(&'a [u32]),
    Nodes(&'a [u32]),
    Numbers(&'a [u32]),
    Bytes(&'a [u8]),
}

// What a byte of a file is shown as: a slash for a line feed, since a file is shown on one line, and no byte that the library doesn't write.
fn shown(byte: &u8) -> u8 {
    match *byte {
        b'\n' => b'/',
        u8::UNTOUCHED => b'?',
        other => other,
    }
}

// A number behind a byte. Its digits are pushed one by one, which for so few is faster than a call that copies them.
fn put_number<T: Integer>(line: &mut Vec<u8>, before: u8, number: T) -> Result<(), AllocError> {
    let mut digits = Buffer::new();
    line.push(before)?;
    for digit in digits.format(number).as_bytes() {
        line.push(*digit)?;
    }
    Ok(())
}

// Has the line its most bytes? Entries behind them are left out, so that it never outgrows its room.
fn is_full(line: &Vec<u8>) -> bool {
    MOST_LINE <= line.len()
}

// Each number with a space before it.
fn put_numbers<T: Integer>(line: &mut Vec<u8>, numbers: &[T]) -> Result<(), AllocError> {
    for number in numbers {
        if is_full(line) {
            break;
        }
        put_number(line, b' ', *number)?;
    }
    Ok(())
}

// Rows of so many fields, each row in parentheses.
fn put_rows(line: &mut Vec<u8>, fields: usize, numbers: &[u32]) -> Result<(), AllocError>
    requires { 0 < fields }
{
    for row in numbers.chunks(fields) {
        if is_full(line) {
            break;
        }
        line.push(b' ')?;
        for (i, field) in row.iter().enumerate() {
            let before = if i == 0 { b'(' } else { b',' };
            put_number(line, before, *field)?;
        }
        line.push(b')')?;
    }
    Ok(())
}

// As much of a text as a line may have.
fn cut(text: &[u8]) -> &[u8] {
    &text[..text.len().min(MOST_LINE)]
}

impl Entries<'_> {
    // Has the call written none?
    fn is_empty(self) -> bool {
        match self {
            Entries::Rows(numbers) | Entries::Nodes(numbers) | Entries::Numbers(numbers) => {
                numbers.is_empty()
            }
            Entries::Bytes(bytes) => bytes.is_empty(),
        }
    }

    // What the place counts where the entries are these.
    fn unit(self) -> Unit {
        match self {
            Entries::Rows(_) => Unit::Row,
            Entries::Nodes(_) => Unit::Node,
            Entries::Numbers(_) => Unit::Number,
            Entries::Bytes(_) => Unit::Byte,
        }
    }

    // As bare numbers.
    fn put_bare(self, line: &mut Vec<u8>) -> Result<(), AllocError> {
        match self {
            Entries::Rows(numbers) | Entries::Nodes(numbers) | Entries::Numbers(numbers) => {
                put_numbers(line, numbers)
            }
            Entries::Bytes(bytes) => put_numbers(line, bytes),
        }
    }

    // As a reader wants them.
    fn put_words(self, line: &mut Vec<u8>) -> Result<(), AllocError> {
        match self {
            Entries::Rows(rows) => put_rows(line, 5, rows),
            Entries::Nodes(nodes) => put_numbers(line, nodes),
            Entries::Numbers(rows) => put_rows(line, 4, rows),
            Entries::Bytes(bytes) => {
                line.push(b' ')?;
                let room = MOST_LINE.saturating_sub(line.len());
                line.extend(bytes.iter().take(room).map(shown))
            }
        }
    }
}

// The line that is being written, and whether it has a name.
#[derive(Drop)]
pub struct Reply {
    line: Vec<u8>,
    named: bool,
}

impl Reply {
    // An empty reply, whose line is made anew for each question and has its room from the beginning.
    pub fn new(alloc: Global) -> Result<Self, AllocError> {
        Ok(Reply {
            line: Vec::with_capacity(alloc, LINE_ROOM)?,
            named: false,
        })
    }

    // What is to be written: nothing, or a line with its end.
    pub fn line(&self) -> &[u8] {
        &self.line
    }

    // Empties the line.
    pub fn clear(&mut self) {
        self.line.clear();
    }

    // The name, if there is one, up to the column of the answers.
    pub fn begin(&mut self, name: &[u8]) -> io::Result<()> {
        self.named = !name.is_empty();
        self.line.extend_from_slice(cut(name))?;
        if self.named && name.len() < COLUMN {
            self.line.resize(COLUMN, b' ')?;
        }
        Ok(())
    }

    // The end of the line. What is too long is left out.
    pub fn end(&mut self) -> io::Result<()> {
        self.line.push(b'\n')?;
        self.line.truncate(MOST_LINE);
        Ok(())
    }

    // A line of text alone.
    pub fn title(&mut self, text: &[u8]) -> io::Result<()> {
        self.line.extend_from_slice(cut(text))?;
        self.end()
    }

    // An outcome as its number, 0 where nothing was refused, and its place, and the entries.
    fn bare(&mut self, outcome: Outcome, entries: Entries<'_>) -> io::Result<()> {
        match outcome {
            Outcome::Done(place) => write!(self.line, "0 {place}")?,
            Outcome::Refused { number, place } => write!(self.line, "{number} {place}")?,
        }
        Ok(entries.put_bare(&mut self.line)?)
    }

    // An outcome in words: the number, then how many entries and each of them, or the place of a refusal.
    fn words(&mut self, outcome: Outcome, entries: Entries<'_>) -> io::Result<()> {
        match outcome {
            Outcome::Refused { number, place } => write!(self.line, "{number}  place {place}"),
            Outcome::Done(n) => {
                let unit = entries.unit();
                let count = Count { n, unit };
                write!(self.line, "0  {count}")?;
                if entries.is_empty() {
                    return Ok(());
                }
                self.line.push(b':')?;
                Ok(entries.put_words(&mut self.line)?)
            }
        }
    }

    // An outcome with the entries that the call wrote.
    pub fn outcome(&mut self, outcome: Outcome, entries: Entries<'_>) -> io::Result<()> {
        if self.named {
            self.words(outcome, entries)
        } else {
            self.bare(outcome, entries)
        }
    }

    // An outcome of a call with an output: the entries that it wrote, and whether it left the rest as it was.
    pub fn answer<T: Entry>(
        &mut self,
        outcome: Outcome,
        entries: Entries<'_>,
        rest: &[T],
    ) -> io::Result<()> {
        self.outcome(outcome, entries)?;
        let text = if rest.iter().any(|entry| *entry != T::UNTOUCHED) {
            " changed"
        } else if self.named && outcome.is_refusal() && !rest.is_empty() {
            ", nothing written"
        } else {
            ""
        };
        write!(self.line, "{text}")
    }

    // The program's own limit, which a table is above.
    pub fn own_limit(&mut self, most: usize) -> io::Result<()> {
        let count = Count {
            n: most as u64,
            unit: Unit::Row,
        };
        write!(self.line, "the program's limit: {count}")
    }

    // The library's limit, which a table is above, behind what the library answered.
    pub fn library_limit(&mut self, outcome: Outcome, most: usize) -> io::Result<()> {
        self.outcome(outcome, Entries::Rows(&[]))?;
        let count = Count {
            n: most as u64,
            unit: Unit::Row,
        };
        write!(self.line, ", the library's limit: {count}")
    }

    // A view's part: where it begins, how long it is and its entries, or `empty`; with a name the entries alone.
    pub fn part(&mut self, begin: usize, part: &[u32]) -> io::Result<()> {
        if part.is_empty() {
            return Ok(self.line.extend_from_slice(b"empty")?);
        }
        if self.named {
            self.line.extend_from_slice(b"part")?;
        } else {
            let length = part.len();
            write!(self.line, "{begin} {length}")?;
        }
        Ok(put_numbers(&mut self.line, part)?)
    }

    // A place; with a name in words.
    pub fn place(&mut self, place: u32) -> io::Result<()> {
        let before = if self.named { "place " } else { "" };
        write!(self.line, "{before}{place}")
    }
}
