// The answers: each calls a public function of the library and puts what it gave into the reply.
use crate::command::{Question, TableQuestion};
use crate::desk::{Desk, MOST_HELD, MOST_NUMBERS};
use crate::outcome::{Entry, Outcome};
use crate::reply::{Entries, Reply};
use lines::{Numbers, small};
use meaning::MOST_ROWS;
use std::alloc::AllocError;
use std::io;

// The most entries of an output or of a list.
const MOST_ENTRIES: usize = 4200;

impl Desk {
    // Answers a question about the path or the file.
    pub fn answer(
        &self,
        question: Question,
        numbers: Numbers<'_>,
        reply: &mut Reply,
    ) -> io::Result<()> {
        match question {
            Question::CheckPath => {
                let outcome = path_check::check_path(&self.path, &self.literals);
                reply.outcome(Outcome::from(outcome), Entries::Rows(&[]))
            }
            Question::Turn => self.answer_turn(numbers, reply),
            Question::ReadTable => self.answer_read_table(numbers, reply),
        }
    }

    // Answers a question about the table. It is not inlined: a line that sets would pay for the room that `write!` keeps for errors.
    #[inline(never)]
    pub fn answer_of_table(
        &self,
        question: TableQuestion,
        numbers: Numbers<'_>,
        reply: &mut Reply,
    ) -> io::Result<()> {
        if let Some(length) = self.too_long {
            return self.answer_limit(length, reply);
        }
        let table = &self.table;
        match question {
            TableQuestion::Check => {
                let outcome = table_check::check_table(table);
                reply.outcome(Outcome::from(outcome), Entries::Rows(&[]))
            }
            TableQuestion::Place => answer_place(table, numbers, reply),
            TableQuestion::Evaluate => self.answer_evaluate(table, numbers, reply),
            TableQuestion::View => self.answer_view(table, numbers, reply),
            TableQuestion::Write => self.answer_write_table(table, numbers, reply),
        }
    }

    // Which limit the length of a table that is not held is above. Above its own the library is asked.
    fn answer_limit(&self, length: usize, reply: &mut Reply) -> io::Result<()> {
        if length <= MOST_NUMBERS {
            return reply.own_limit(MOST_HELD);
        }
        let outcome = table_check::check_table(&self.table);
        reply.library_limit(Outcome::from(outcome), MOST_ROWS)
    }

    // An output with the room that a line says, untouched.
    fn output<T: Entry>(&self, mut numbers: Numbers<'_>) -> Result<Vec<T>, AllocError> {
        vec![in self.alloc; T::UNTOUCHED; numbers.count(MOST_ENTRIES)]
    }

    // `evaluate edition start room`
    fn answer_evaluate(
        &self,
        table: &[u32],
        mut numbers: Numbers<'_>,
        reply: &mut Reply,
    ) -> io::Result<()> {
        let edition = numbers.small();
        let start = numbers.small();
        let mut output = self.output(numbers)?;
        let outcome = Outcome::from(select::evaluate(
            edition,
            table,
            &self.path,
            &self.literals,
            start,
            &mut output,
        ));
        let (nodes, rest) = outcome.parts(&output, 1);
        reply.answer(outcome, Entries::Nodes(nodes), rest)
    }

    // `turn room`
    fn answer_turn(&self, numbers: Numbers<'_>, reply: &mut Reply) -> io::Result<()> {
        let mut output = self.output(numbers)?;
        let outcome = Outcome::from(turn::turn(&self.path, &self.literals, &mut output));
        let (rows, rest) = outcome.parts(&output, 5);
        reply.answer(outcome, Entries::Rows(rows), rest)
    }

    // `view node n ...`: where the part begins, and the part itself.
    fn answer_view(
        &self,
        table: &[u32],
        mut numbers: Numbers<'_>,
        reply: &mut Reply,
    ) -> io::Result<()> {
        let node = numbers.small();
        let count = numbers.count(MOST_ENTRIES);
        let list = numbers.list(self.alloc, count, small)?;
        let ends = view::ends_of(table, &list, node);
        reply.part(ends.begin, view::view(table, &list, node))
    }

    // `read_table room`
    fn answer_read_table(&self, numbers: Numbers<'_>, reply: &mut Reply) -> io::Result<()> {
        let mut output = self.output(numbers)?;
        let outcome = Outcome::from(files::read_table(&self.file, &mut output));
        let (entries, rest) = outcome.parts(&output, 1);
        reply.answer(outcome, Entries::Numbers(entries), rest)
    }

    // `write_table room`
    fn answer_write_table(
        &self,
        table: &[u32],
        numbers: Numbers<'_>,
        reply: &mut Reply,
    ) -> io::Result<()> {
        let mut output = self.output(numbers)?;
        let outcome = Outcome::from(files::write_table(table, &mut output));
        let (bytes, rest) = outcome.parts(&output, 1);
        reply.answer(outcome, Entries::Bytes(bytes), rest)
    }
}

// `place axis x y`
fn answer_place(table: &[u32], mut numbers: Numbers<'_>, reply: &mut Reply) -> io::Result<()> {
    let axis = numbers.small();
    let x = numbers.small();
    let y = numbers.small();
    reply.place(place::axis_place(table, axis, x, y))
}
