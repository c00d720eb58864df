// Table files (document 02, W-201): node tables as key=value lines, read into numbers and written into bytes that the caller lends.
#![tactic(auto)]

mod reader;
mod writer;

ghost use Rattle.std.specs.Prelude.{◌≡◌};
ghost use Rattle.meaning.specs.Answers.{answer};
ghost use Rattle.files.specs.Answers.{file_refused, file_told};
ghost use Rattle.files.specs.declared.FileRefusal.TheVariants.{Table};

use meaning::{Answer, Refusal};
pub use reader::read_table;
pub use writer::write_table;

// Why a file is not read or a table not written: the first bad line from 1, how many numbers or bytes need room, or what the table checker
// refuses.
#[derive(Clone, Copy, PartialEq, Eq)]
pub enum FileRefusal {
    BadLine(u64),
    NoRoom(u64),
    Table(Refusal),
}

// What the table checker refuses is refused.
impl From<Refusal> for FileRefusal {
    ghost from_gives = { λ r f. f ≡ Table r };

    fn from(refusal: Refusal) -> Self {
        FileRefusal::Table(refusal)
    }
}

// An outcome as C has it: its number, and a place that counts lines, numbers, bytes or rows.
#[derive(Clone, Copy)]
pub struct WideAnswer {
    pub number: u32,
    pub place: u64,
}

// A refusal as its number and place.
impl From<FileRefusal> for WideAnswer {
    ghost from_gives = { λ r a. answer a.number a.place ≡ file_refused r };

    fn from(refusal: FileRefusal) -> Self {
        let (number, place) = match refusal {
            FileRefusal::BadLine(line) => (20, line),
            FileRefusal::NoRoom(needed) => (21, needed),
            FileRefusal::Table(broken) => {
                let answer = Answer::from(broken);
                (answer.number, answer.place as u64)
            }
        };
        WideAnswer { number, place }
    }
}

// An outcome as a number and a place.
impl From<Result<u64, FileRefusal>> for WideAnswer {
    ghost from_gives = { λ r a. answer a.number a.place ≡ file_told r };

    fn from(outcome: Result<u64, FileRefusal>) -> Self {
        match outcome {
            Ok(place) => WideAnswer { number: 0, place },
            Err(refusal) => WideAnswer::from(refusal),
        }
    }
}
