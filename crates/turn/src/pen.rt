// What writes the rows of the turned path, from the output's front on: those of the given path, copied, and new ones.
ghost use Rattle.std.specs.Prelude.{◌≡◌, ◌+◌, ◌*◌, ◌≤◌, length};
ghost use Rattle.meaning.specs.Rows.{op_at, code};
ghost use Rattle.meaning.specs.Tree.{tree, index_or_axis, test_at};
ghost use Rattle.meaning.specs.Turning.{predicates, weight, written};
ghost use Rattle.meaning.specs.Turning as turn_specs;
ghost use Rattle.turn.specs.Parts.{Room, step_rows, chain};
ghost use Rattle.turn.specs.Wrote.{Wrote};

use super::{link_to, predicates_of, test_of};
use meaning::Op;
use path::{first_link, index_or_axis, inverse_axis, op_at, second_link, test_at};

// The output, and the number of its next row.
#[derive(Drop)]
pub struct Pen<'a> {
    pub out: &'a mut [u32],
    pub at: usize,
}

// An op's number.
#[tactic(auto, unfolding(meaning::specs::Rows::code))]
pub fn code_of(op: Op) -> u32
    ensures { result ≡ code op }
{
    op as u32
}

impl Pen<'_> {
    // Writes one row.
    pub fn put_row(&mut self, row: [u32; 5])
        requires { (self.old.at ≤ 256) × (5 * self.old.at + 5 ≤ length self.old.out.now) }
        ensures { Wrote self.old self.new row 1 }
    {
        let start = 5 * self.at;
        self.out[start..start + 5].copy_from_slice(&row);
        self.at += 1;
    }

    // Writes a row of the path, with these links.
    fn copy_row(&mut self, path: &[u32], row: usize, a: usize, b: usize)
        requires { (a ≤ 256) × (b ≤ 256) × (self.old.at ≤ 256) × (5 * self.old.at + 5 ≤ length self.old.out.now) }
        ensures { Wrote self.old self.new (turn_specs.row (op_at path.now row) a b (index_or_axis path.now row) (test_at path.now row)) 1 }
    {
        let op = op_at(path, row);
        let c = index_or_axis(path, row) as u32;
        let d = test_at(path, row) as u32;
        match op {
            Op::Literal => self.put_row([code_of(op), c, b as u32, 0, d]),
            _ => self.put_row([code_of(op), a as u32, b as u32, c, d]),
        }
    }

    // Copies what a link stands for: the whole of a, the whole of b, then the row itself.
    fn write(&mut self, path: &[u32], from: usize)
        requires { Room self.old.out.now (self.old.at + weight (tree path.now from)) }
        ensures { Wrote self.old self.new (written self.old.at (tree path.now from)) (weight (tree path.now from)) }
    {
        if from == 0 {
            return;
        }
        let row = from - 1;
        let a = first_link(path, row);
        let b = second_link(path, row);
        self.write(path, a);
        let first = link_to(a, self.at);
        self.write(path, b);
        let second = link_to(b, self.at);
        self.copy_row(path, row, first, second);
    }

    // One more step of the turned path, behind the rows that stand: on this axis, to where the chain's last step leads.
    fn write_step(&mut self, path: &[u32], last: usize, axis: usize)
        requires { (axis ≤ 10) × Room self.old.out.now (self.old.at + (weight (predicates (tree path.now last)) + 1)) }
        ensures { Wrote self.old self.new (step_rows self.old.at (tree path.now last) axis) (weight (predicates (tree path.now last)) + 1) }
    {
        let before = self.at as u32;
        let held = predicates_of(path, last);
        self.write(path, held);
        let own = link_to(held, self.at) as u32;
        let test = test_of(path, last) as u32;
        self.put_row([code_of(Op::Step), before, own, axis as u32, test]);
    }

    // The turned chain: self with the last step's test and predicates, then back along each step to the one before.
    pub fn write_chain(&mut self, path: &[u32], last: usize)
        requires { (self.old.at ≡ 0) × Room self.old.out.now (weight (tree path.now last) + 1) }
        ensures { Wrote self.old self.new (written 0 (chain (tree path.now last))) (weight (chain (tree path.now last))) }
    {
        self.write_step(path, last, 0);
        let mut from = last;
        while let Some(row) = from.checked_sub(1) {
            let axis = inverse_axis(index_or_axis(path, row));
            from = first_link(path, row);
            self.write_step(path, from, axis);
        }
    }
}
