// What is evaluated, and a step of it. The methods of an evaluation are the cycle.
ghost use Rattle.std.specs.Prelude.{◌≤◌};
ghost use Rattle.meaning.specs.Table.{rows, most_rows};
ghost use Rattle.reach.specs.Reach.{Rooted};
ghost use Rattle.select.specs.Rooted.{Rooted-prop};

use meaning::{Axis, Test};

// A path with its literals, on a table, in an edition: the table is not longer than the buffers, and no row's parent stands after it.
// The edition stays a number, since the definitions and every crate below take it as one: an enum would be turned into it at each use.
#[derive(Clone, Copy)]
pub struct Evaluation<'a> {
    pub edition: usize,
    pub table: &'a [u32],
    pub path: &'a [u32],
    pub literals: &'a [f64],
    pub ghost small: { rows table.now ≤ most_rows },
    pub ghost rooted: { Rooted table.now } by { Rooted-prop table.now },
}

// A step: the link of its chain of predicates, its axis and its test.
#[derive(Clone, Copy)]
pub struct Step {
    pub predicates: usize,
    pub axis: Axis,
    pub test: Test,
}
