// The cycle: an expression, a chain of predicates, a step, a chain of steps, a path, and how many nodes it selects; and the
// same over whole sets, where no position is counted: a step, a chain of predicates, a truth, and a chain of steps backwards.
// Each call goes to a lower row, but for those within one step, one truth and one path; so links, with room for three calls at
// the same link, bound the depth. Large arrays stand where no chain repeats a frame: once for each path inside a path.
ghost use Rattle.std.specs.Prelude.{◌≡◌, true, false, ◌||◌, cond, ℕ, ◌+◌, ◌-◌, ◌*◌, ◌<◌, ◌≤◌, length, get_or, take};
ghost use Rattle.meaning.specs.Lists.{has};
ghost use Rattle.meaning.specs.Table.{rows, most_rows};
ghost use Rattle.meaning.specs.declared.Op.TheVariants.{And, Exists, Negation, Or};
ghost use Rattle.meaning.specs.Axis.{axis_of, test_of};
ghost use Rattle.meaning.specs.Rows.{most_path_rows, op_at, second_link};
ghost use Rattle.meaning.specs.Tree.{tree, index_or_axis, test_at};
ghost use Rattle.meaning.specs.Turning as turning;
ghost use Rattle.meaning.specs.Meaning as Meaning;
ghost use Rattle.meaning.proofs.Marks.{listed};
ghost use Rattle.meaning.proofs.Evaluation.{step_to};
ghost use Rattle.meaning.proofs.Free.{true_at};
ghost use Rattle.meaning.proofs.Backward.{backs};
ghost use Rattle.sieve.specs.Sieve.{Sieved, Bounded};
ghost use Rattle.select.specs.Sets.{Narrowed, Thinned, Led, LedBy};

use crate::evaluation::{Evaluation, Step};
use candidates::list_candidates;
use counting::{counting, counts, is_heavy, is_over_path};
use cover::cover_active;
use marks::{add_marks, copy_marks, count_marks, meet, sift, start_mark};
use meaning::{Context, MOST_ROWS, Op, Value};
use path::{axis_at, first_link, index_or_axis, node_test_at, op_at, second_link};
use reach::{reach, reach_back};
use sieve::{choose, exchange, lower, put_out, raise, retain, settle, settle_all};
use table::row_count;
use values::{apply, float_of, is_decided, keeps, takes_first, takes_second, truth_of};

impl Step {
    // The step of a path's row.
    fn of_row(path: &[u32], row: usize) -> Self
        requires { row ≤ most_path_rows }
        ensures predicates { (result.predicates ≡ second_link path.now row) × (result.predicates ≤ row) }
        ensures axis { result.axis ≡ axis_of (index_or_axis path.now row) }
        ensures test { result.test ≡ test_of (test_at path.now row) }
    {
        Step {
            predicates: second_link(path, row),
            axis: axis_at(path, row),
            test: node_test_at(path, row),
        }
    }
}

impl Evaluation<'_> {
    // The value of the expression that a link names, in a context.
    #[cycle(selection)]
    fn expression(&self, link: usize, context: Context) -> Value
        requires { link ≤ most_path_rows }
        ensures { result ≡ Meaning.value self.now.edition self.now.table.now self.now.literals.now (tree self.now.path.now link) context }
    {
        let none = Value::Truth(false);
        if link == 0 {
            return none;
        }
        let row = link - 1;
        let op = op_at(self.path, row);
        let index = index_or_axis(self.path, row);
        let first = first_link(self.path, row);
        if is_over_path(op) {
            let n = self.tally(first, context.node);
            return apply(self.literals, op, index, none, none, n, context);
        }
        if takes_second(op) {
            let second = second_link(self.path, row);
            let u = self.expression(first, context);
            if is_decided(op, u) {
                return apply(self.literals, op, index, u, none, 0, context);
            }
            let v = self.expression(second, context);
            return apply(self.literals, op, index, u, v, 0, context);
        }
        if takes_first(op) {
            let u = self.expression(first, context);
            return apply(self.literals, op, index, u, none, 0, context);
        }
        apply(self.literals, op, index, none, none, 0, context)
    }

    // Filters a list of nodes, in place, by the chain of predicates that a link names, the first of them first, and gives how many it keeps:
    // they stand at the front. Positions run from 1 over what the predicates before it kept, and the size is how many they kept.
    #[cycle(selection)]
    fn keep(&self, link: usize, nodes: &mut [u16]) -> usize
        requires { (link ≤ most_path_rows) × (length nodes.old ≤ most_rows) }
        ensures { (take result nodes.new ≡ Meaning.filtered self.now.edition self.now.table.now self.now.literals.now (tree self.now.path.now link) nodes.old) × (result ≤ length nodes.old) }
    {
        if link == 0 {
            return nodes.len();
        }
        let row = link - 1;
        let before = first_link(self.path, row);
        let k = self.keep(before, nodes);
        let test = second_link(self.path, row);
        let size = float_of(k);
        let mut m = 0;
        for i in 0..k {
            let y = nodes[i];
            let node = y as usize;
            let position = float_of(i + 1);
            let context = Context {
                node,
                position,
                size,
            };
            let v = self.expression(test, context);
            if keeps(v, position) {
                nodes[m] = y;
                m += 1;
            }
        }
        m
    }

    // Marks what one step reaches from node x: the candidates that the predicates keep.
    #[cycle(selection)]
    fn spread(&self, step: Step, x: usize, next: &mut [bool], list: &mut [u16])
        requires { (step.predicates ≤ most_path_rows) × (x < 4294967296) × (length list.old ≡ most_rows) }
        ensures { (y : ℕ) → y < length next.old → get_or next.new y false ≡ (get_or next.old y false || has (step_to self.now.edition self.now.table.now self.now.literals.now self.now.path.now step.predicates step.axis step.test x) y) }
    {
        let k = list_candidates(self.edition, self.table, step.axis, step.test, x, list);
        let m = self.keep(step.predicates, &mut list[..k]);
        add_marks(list, m, next);
    }

    // Takes one step from every marked node: then the union of what they reach is marked.
    #[cycle(selection)]
    fn step(&self, step: Step, marks: &mut [bool])
        requires { (step.predicates ≤ most_path_rows) × (length marks.old ≡ most_rows) }
        ensures { listed self.now.table.now marks.new ≡ Meaning.union self.now.table.now (step_to self.now.edition self.now.table.now self.now.literals.now self.now.path.now step.predicates step.axis step.test) (listed self.now.table.now marks.old) }
    {
        let n = row_count(self.table);
        let mut next = [false; MOST_ROWS];
        let mut list = [0u16; MOST_ROWS];
        for x in 0..n {
            if marks[x] {
                self.spread(step, x, &mut next, &mut list);
            }
        }
        copy_marks(self.table, &next, marks);
    }

    // Decides the truth that a link names for the active rows, one by one.
    #[cycle(selection)]
    fn decide_each(&self, link: usize, active: u16, states: &mut [u16])
        requires { (link ≤ most_path_rows) × (active ≤ 1000) × (length states.old ≡ most_rows) }
        ensures { Sieved (true_at self.now.edition self.now.table.now self.now.literals.now (tree self.now.path.now link)) active (rows self.now.table.now) states.old states.new }
    {
        let n = row_count(self.table);
        let unasked = float_of(0);
        for node in 0..n {
            if states[node] == active {
                let context = Context {
                    node,
                    position: unasked,
                    size: unasked,
                };
                let v = self.expression(link, context);
                states[node] = choose(truth_of(v), active, active + 1);
            }
        }
    }

    // Decides an and, or where any an or, which differ in one state alone: the rows that the first operand leaves open are raised by a level for the second.
    #[cycle(selection)]
    fn decide_pair(&self, link: usize, any: bool, active: u16, states: &mut [u16])
        requires { (0 < link) × (link ≤ most_path_rows) × (active + 2 * link ≤ 1000) × (length states.old ≡ most_rows) × (op_at self.now.path.now (link - 1) ≡ cond any Or And) × Bounded (rows self.now.table.now) active states.old }
        ensures { Sieved (true_at self.now.edition self.now.table.now self.now.literals.now (tree self.now.path.now link)) active (rows self.now.table.now) states.old states.new }
    {
        let row = link - 1;
        let first = first_link(self.path, row);
        let second = second_link(self.path, row);
        let n = row_count(self.table);
        self.decide(first, active, states);
        raise(states, n, any, active);
        self.decide(second, active + 2, states);
        lower(states, n, active);
    }

    // Decides a not: the rows where its operand holds and those where it does not are exchanged.
    #[cycle(selection)]
    fn decide_not(&self, link: usize, active: u16, states: &mut [u16])
        requires { (0 < link) × (link ≤ most_path_rows) × (active + 2 * link ≤ 1000) × (length states.old ≡ most_rows) × (op_at self.now.path.now (link - 1) ≡ Negation) × Bounded (rows self.now.table.now) active states.old }
        ensures { Sieved (true_at self.now.edition self.now.table.now self.now.literals.now (tree self.now.path.now link)) active (rows self.now.table.now) states.old states.new }
    {
        let first = first_link(self.path, link - 1);
        self.decide(first, active, states);
        exchange(states, row_count(self.table), active);
    }

    // Takes one step back: from the marked nodes that are near, pass the test and hold to those whose axis they are on.
    #[cycle(selection)]
    fn step_back(&self, step: Step, near: &[bool], marks: &mut [bool])
        requires { (step.predicates ≤ most_path_rows) × (length near.now ≡ most_rows) × (length marks.old ≡ most_rows) }
        ensures { LedBy self.now.edition self.now.table.now self.now.literals.now near.now (tree self.now.path.now step.predicates) step.axis step.test marks.old marks.new }
    {
        meet(self.table, near, marks);
        sift(self.edition, self.table, step.axis, step.test, marks);
        self.narrow(step.predicates, marks);
        reach_back(self.table, step.axis, marks);
    }

    // Takes the chain of steps that a link names backwards, the last of them first: from the marked nodes to those from which it
    // leads to one of them, over nodes that are near alone.
    #[cycle(selection)]
    fn back(&self, link: usize, near: &[bool], marks: &mut [bool])
        requires { (link ≤ most_path_rows) × (length near.now ≡ most_rows) × (length marks.old ≡ most_rows) }
        ensures { Led self.now.edition self.now.table.now self.now.literals.now near.now (tree self.now.path.now link) marks.old marks.new }
    {
        if link == 0 {
            return;
        }
        let row = link - 1;
        self.step_back(Step::of_row(self.path, row), near, marks);
        let before = first_link(self.path, row);
        self.back(before, near, marks);
    }

    // Decides for the active rows whether the chain of steps that a link names leads from them to any node: backwards from all,
    // or, where its predicates need a look at each node, from those that it may come by.
    #[cycle(selection)]
    fn decide_back(&self, link: usize, active: u16, states: &mut [u16])
        requires { (link ≤ most_path_rows) × (active ≤ 1000) × (length states.old ≡ most_rows) }
        ensures { Sieved (backs self.now.edition self.now.table.now self.now.literals.now (tree self.now.path.now link) (λ z. true)) active (rows self.now.table.now) states.old states.new }
    {
        let n = row_count(self.table);
        let heavy = is_heavy(self.path, link);
        let mut near = [!heavy; MOST_ROWS];
        if heavy {
            cover_active(
                self.edition,
                self.table,
                self.path,
                link,
                active,
                states,
                &mut near,
            );
        }
        let mut marks = [true; MOST_ROWS];
        self.back(link, &near, &mut marks);
        settle(states, &marks, n, active);
    }

    // Decides an existence: of an absolute path once for all rows, of a relative path backwards, or row by row where a step counts.
    #[cycle(selection)]
    fn decide_path(&self, link: usize, active: u16, states: &mut [u16])
        requires { (0 < link) × (link ≤ most_path_rows) × (active ≤ 1000) × (length states.old ≡ most_rows) × (op_at self.now.path.now (link - 1) ≡ Exists) }
        ensures { Sieved (true_at self.now.edition self.now.table.now self.now.literals.now (tree self.now.path.now link)) active (rows self.now.table.now) states.old states.new }
    {
        let held = first_link(self.path, link - 1);
        if held == 0 {
            self.decide_each(link, active, states);
            return;
        }
        let top = held - 1;
        if let Op::Absolute = op_at(self.path, top) {
            let k = self.tally(held, 0);
            settle_all(states, row_count(self.table), active, 0 < k);
            return;
        }
        let steps = first_link(self.path, top);
        if counts(self.path, steps) {
            self.decide_each(link, active, states);
            return;
        }
        self.decide_back(steps, active, states);
    }

    // Decides the truth that a link names for the rows whose state is active: it stays where the truth holds, and becomes one
    // more where it does not.
    #[cycle(selection)]
    fn decide(&self, link: usize, active: u16, states: &mut [u16])
        requires { (link ≤ most_path_rows) × (active + 2 * link ≤ 1000) × (length states.old ≡ most_rows) × Bounded (rows self.now.table.now) active states.old }
        ensures { Sieved (true_at self.now.edition self.now.table.now self.now.literals.now (tree self.now.path.now link)) active (rows self.now.table.now) states.old states.new }
    {
        if link == 0 {
            self.decide_each(link, active, states);
            return;
        }
        match op_at(self.path, link - 1) {
            Op::And => self.decide_pair(link, false, active, states),
            Op::Or => self.decide_pair(link, true, active, states),
            Op::Negation => self.decide_not(link, active, states),
            Op::Exists => self.decide_path(link, active, states),
            _ => self.decide_each(link, active, states),
        }
    }

    // Of the rows that are active at the first level those stay so at which the predicates of the chain that a link names hold,
    // whatever their position: what the predicates before it left out, state 3, is left out of its own truth.
    #[cycle(selection)]
    fn thin(&self, link: usize, states: &mut [u16])
        requires { (link ≤ most_path_rows) × (length states.old ≡ most_rows) × Bounded (rows self.now.table.now) 3 states.old }
        ensures { Thinned self.now.edition self.now.table.now self.now.literals.now (tree self.now.path.now link) states.old states.new × Bounded (rows self.now.table.now) 3 states.new }
    {
        if link == 0 {
            return;
        }
        let row = link - 1;
        let before = first_link(self.path, row);
        self.thin(before, states);
        let held = second_link(self.path, row);
        put_out(states, row_count(self.table));
        self.decide(held, 2, states);
    }

    // Of the marked nodes those stay marked at which the predicates of the chain that a link names hold, whatever their position.
    #[cycle(selection)]
    fn narrow(&self, link: usize, marks: &mut [bool])
        requires { (link ≤ most_path_rows) × (length marks.old ≡ most_rows) }
        ensures { Narrowed self.now.edition self.now.table.now self.now.literals.now (tree self.now.path.now link) marks.old marks.new }
    {
        if link == 0 {
            return;
        }
        let n = row_count(self.table);
        let mut states = [2u16; MOST_ROWS];
        settle(&mut states, marks, n, 2);
        self.thin(link, &mut states);
        retain(&states, 2, marks, n);
    }

    // Takes one step that does not count from all marked nodes at once.
    #[cycle(selection)]
    fn stride(&self, step: Step, marks: &mut [bool])
        requires { (step.predicates ≤ most_path_rows) × (length marks.old ≡ most_rows) × (turning.counting (tree self.now.path.now step.predicates) ≡ false) }
        ensures { listed self.now.table.now marks.new ≡ Meaning.union self.now.table.now (step_to self.now.edition self.now.table.now self.now.literals.now self.now.path.now step.predicates step.axis step.test) (listed self.now.table.now marks.old) }
    {
        reach(self.table, step.axis, marks);
        sift(self.edition, self.table, step.axis, step.test, marks);
        self.narrow(step.predicates, marks);
    }

    // Takes the chain of steps that a link names from the marked nodes, the first of them first, and marks what it reaches.
    #[cycle(selection)]
    fn walk(&self, link: usize, marks: &mut [bool])
        requires { (link ≤ most_path_rows) × (length marks.old ≡ most_rows) }
        ensures { listed self.now.table.now marks.new ≡ Meaning.walk self.now.edition self.now.table.now self.now.literals.now (tree self.now.path.now link) (listed self.now.table.now marks.old) }
    {
        if link == 0 {
            return;
        }
        let last = link - 1;
        let before = first_link(self.path, last);
        self.walk(before, marks);
        let step = Step::of_row(self.path, last);
        if counting(self.path, step.predicates) {
            self.step(step, marks);
            return;
        }
        self.stride(step, marks);
    }

    // Marks what the path that a link names selects from a node, where nothing is marked yet.
    #[cycle(selection)]
    pub fn select(&self, link: usize, start: usize, marks: &mut [bool])
        requires { (link ≤ most_path_rows) × (length marks.old ≡ most_rows) × ((y : ℕ) → get_or marks.old y false ≡ false) }
        ensures { listed self.now.table.now marks.new ≡ Meaning.select self.now.edition self.now.table.now self.now.literals.now (tree self.now.path.now link) start }
    {
        if link == 0 {
            return;
        }
        let top = link - 1;
        start_mark(self.table, op_at(self.path, top), start, marks);
        let steps = first_link(self.path, top);
        self.walk(steps, marks);
    }

    // How many nodes the path that a link names selects from a node.
    #[cycle(selection)]
    fn tally(&self, link: usize, start: usize) -> usize
        requires { link ≤ most_path_rows }
        ensures { (result ≡ length (Meaning.select self.now.edition self.now.table.now self.now.literals.now (tree self.now.path.now link) start)) × (result ≤ most_rows) }
    {
        let mut marks = [false; MOST_ROWS];
        self.select(link, start, &mut marks);
        count_marks(self.table, &marks)
    }
}
