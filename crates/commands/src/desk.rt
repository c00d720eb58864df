// The desk: what the lines have set, and what a line does with it.
use crate::command::{Command, Setting};
use crate::outcome::Outcome;
use crate::reply::Reply;
use lines::{Numbers, read_file, small, split_once};
use meaning::MOST_ROWS;
use std::alloc::{AllocError, Global};
use std::num::f64_from_bits_with_nan;
use std::{io, mem};

// The programs hold tables of so many rows; the library takes more.
pub const MOST_HELD: usize = 4096;

// The most numbers of a table that the library takes.
pub const MOST_NUMBERS: usize = 4 * MOST_ROWS;

// The most numbers, literals and bytes that a line may set.
const MOST_TABLE: usize = 4 * MOST_HELD;

const MOST_PATH: usize = 1300;

const MOST_LITERALS: usize = 66;

const MOST_FILE: usize = 4200;

// The most that a table's length is read as.
const MOST_LENGTH: usize = 2097152;

// Room for a table, and for one that the library refuses for its length.
const TABLE_ROOM: usize = MOST_NUMBERS + 4;

// What the lines have set; all of it is empty at first. There is room for the most that a line may set, so that setting takes no memory.
#[derive(Drop)]
pub struct Desk {
    pub alloc: Global,
    pub table: Vec<u32>,
    // The table's length where it is too long to be held. The library looks at that alone, so any numbers stand for such a table.
    pub too_long: Option<usize>,
    pub path: Vec<u32>,
    // What a path is turned into, before it takes its place.
    turned: Vec<u32>,
    pub literals: Vec<f64>,
    pub file: Vec<u8>,
}

// The name of a line: what stands behind its first colon and a space, nothing where it has none.
fn name_of(line: &[u8]) -> &[u8] {
    match split_once(line, b':') {
        Some((_, [_, name @ ..])) => name,
        _ => &[],
    }
}

// A list becomes so many numbers, each as a function gives it.
fn refill<T: Copy + Drop, F: Fn(u64) -> T>(
    list: &mut Vec<T>,
    count: usize,
    mut numbers: Numbers<'_>,
    read: F,
) -> Result<(), AllocError>
    requires { F.IsAlwaysCallable read }
{
    list.resize(count, read(0))?;
    numbers.fill(list, read);
    Ok(())
}

impl Desk {
    // A desk on which nothing is set.
    pub fn new(alloc: Global) -> Result<Self, AllocError> {
        Ok(Desk {
            alloc,
            table: Vec::with_capacity(alloc, TABLE_ROOM)?,
            too_long: None,
            path: Vec::with_capacity(alloc, MOST_PATH)?,
            turned: Vec::with_capacity(alloc, MOST_PATH)?,
            literals: Vec::with_capacity(alloc, MOST_LITERALS)?,
            file: Vec::with_capacity(alloc, MOST_FILE)?,
        })
    }

    // Does what a line says, with a reply to one that asks.
    pub fn run_line(&mut self, line: &[u8], reply: &mut Reply) -> io::Result<()> {
        reply.clear();
        let (word, rest) = split_once(line, b' ').unwrap_or((line, &[]));
        let numbers = Numbers { unread: rest };
        match Command::of(word) {
            None => Ok(()),
            Some(Command::Title) => reply.title(rest),
            Some(Command::Set(setting)) => Ok(self.set(setting, numbers)?),
            Some(Command::Ask(question)) => {
                reply.begin(name_of(line))?;
                self.answer(question, numbers, reply)?;
                reply.end()
            }
            Some(Command::AskTable(question)) => {
                reply.begin(name_of(line))?;
                self.answer_of_table(question, numbers, reply)?;
                reply.end()
            }
        }
    }

    // Sets what a line sets, as far as there is room: numbers, or for a file the text as it is.
    fn set(&mut self, setting: Setting, mut numbers: Numbers<'_>) -> Result<(), AllocError> {
        match setting {
            Setting::Table => self.set_table(numbers),
            Setting::Literals => {
                let count = numbers.count(MOST_LITERALS);
                refill(&mut self.literals, count, numbers, |bits| {
                    f64_from_bits_with_nan(bits)
                })
            }
            Setting::Path => {
                let count = numbers.count(MOST_PATH);
                refill(&mut self.path, count, numbers, small)
            }
            Setting::File => {
                let text = numbers.unread;
                self.file.resize(text.len().min(MOST_FILE), 0)?;
                read_file(text, &mut self.file);
                Ok(())
            }
            Setting::Turned => self.turn_path(),
            Setting::Filed => self.take_filed(),
        }
    }

    // A count and so many numbers, which are read only of a table that is held.
    fn set_table(&mut self, mut numbers: Numbers<'_>) -> Result<(), AllocError> {
        let length = numbers.count(MOST_LENGTH);
        self.too_long = (MOST_TABLE < length).then_some(length);
        if self.too_long.is_some() {
            return self.table.resize(length.min(TABLE_ROOM), 0);
        }
        refill(&mut self.table, length, numbers, small)
    }

    // The path becomes what turning it gives, a row more at most, and nothing where that is refused.
    fn turn_path(&mut self) -> Result<(), AllocError> {
        let room = (self.path.len() + 5).min(MOST_PATH);
        self.turned.resize(room, 0)?;
        let outcome = Outcome::from(turn::turn(&self.path, &self.literals, &mut self.turned));
        self.turned.truncate(outcome.written(5));
        mem::swap(&mut self.path, &mut self.turned);
        Ok(())
    }

    // The table becomes what reading the file gives, and nothing where that is refused. A file has four bytes or more for each number: a key,
    // `=`, a digit and the line's end.
    fn take_filed(&mut self) -> Result<(), AllocError> {
        self.table.resize(self.file.len() / 4, 0)?;
        let outcome = Outcome::from(files::read_table(&self.file, &mut self.table));
        self.table.truncate(outcome.written(1));
        self.too_long = None;
        Ok(())
    }
}
