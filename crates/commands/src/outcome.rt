// What a call of the library gave: its outcome, and the entries of the output that it was lent.
use files::{FileRefusal, WideAnswer};
use meaning::{Answer, Refusal};

// A place, or a refusal as its number and place.
#[derive(Clone, Copy)]
pub enum Outcome {
    Done(u64),
    Refused { number: u32, place: u64 },
}

impl From<Result<u32, Refusal>> for Outcome {
    fn from(outcome: Result<u32, Refusal>) -> Self {
        match outcome {
            Ok(place) => Outcome::Done(u64::from(place)),
            Err(refusal) => {
                let Answer { number, place } = Answer::from(refusal);
                let place = u64::from(place);
                Outcome::Refused { number, place }
            }
        }
    }
}

impl From<Result<u64, FileRefusal>> for Outcome {
    fn from(outcome: Result<u64, FileRefusal>) -> Self {
        match outcome {
            Ok(place) => Outcome::Done(place),
            Err(refusal) => {
                let WideAnswer { number, place } = WideAnswer::from(refusal);
                Outcome::Refused { number, place }
            }
        }
    }
}

impl Outcome {
    // Has the call refused?
    pub fn is_refusal(self) -> bool {
        matches!(self, Outcome::Refused { .. })
    }

    // How many entries of its output the call has written, so many for each that the place counts: none where it refused.
    pub fn written(self, entries_each: usize) -> usize {
        match self {
            Outcome::Done(place) => (place as usize).saturating_mul(entries_each),
            Outcome::Refused { .. } => 0,
        }
    }

    // What the call has written of its output, and the rest, which it may not write.
    pub fn parts<T>(self, output: &[T], entries_each: usize) -> (&[T], &[T]) {
        output.split_at(self.written(entries_each).min(output.len()))
    }
}

// An entry of an output. Before a call each is one that the call never writes, so that a change shows.
pub trait Entry: Copy + PartialEq + Drop {
    const UNTOUCHED: Self;
}

impl Entry for u32 {
    const UNTOUCHED: u32 = u32::MAX;
}

// No table file has this byte.
impl Entry for u8 {
    const UNTOUCHED: u8 = u8::MAX;
}
