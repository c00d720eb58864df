// Truths decided for all rows of a set at once: a state for each row in one array, so that no nested operand needs a buffer.
// At nesting level l the rows in question have the state 2l, and all others a lower one; where the truth does not hold the
// state becomes 2l + 1. Tests are joined by &, which reads both sides, so that no branch hangs on a state or a mark.
// The arrays are as long as a table may be, and n says how many of them are rows: memory is fixed.
#![tactic(auto)]

ghost use Rattle.std.specs.Prelude.{◌≡◌, ℕ, false, cond, ◌+◌, ◌<◌, ◌≤◌, length, get_or, drop};
ghost use Rattle.sieve.specs.Sieve.{state, Recast, Lowered, Exchanged, Sieved, Retained};

// One of two states.
pub fn choose(test: bool, a: u16, b: u16) -> u16
    ensures { result ≡ cond test a b }
{
    if test { a } else { b }
}

// Each of the first n items, states or marks, becomes what f makes of it, by its row; the rest stays.
pub fn each<T: Copy, F: Fn(usize, T) -> T>(items: &mut [T], n: usize, f: F)
    requires room { n ≤ length items.old }
    requires callable { (y : ℕ) (x : T) → y < n → F.pre f y x }
    ensures made { (y : ℕ) (d : T) → y < n → F.post f y (get_or items.old y d) (get_or items.new y d) }
    ensures rest { drop n items.new ≡ drop n items.old }
{
    for (y, item) in items[..n].iter_mut().enumerate() {
        *item = f(y, *item);
    }
}

// Each of the first n states that is `from` becomes `to`.
pub fn recast(states: &mut [u16], n: usize, from: u16, to: u16)
    requires { n ≤ length states.old }
    ensures { Recast n from to states.old states.new }
{
    each(states, n, |_, s| if s == from { to } else { s });
}

// Puts out of the question what has failed at the first level: 3 becomes 0.
pub fn put_out(states: &mut [u16], n: usize)
    requires { n ≤ length states.old }
    ensures { Recast n 3 0 states.old states.new }
{
    recast(states, n, 3, 0);
}

// Raises by a level what the first operand of an and leaves open, what holds, or where any of an or, what does not.
pub fn raise(states: &mut [u16], n: usize, any: bool, active: u16)
    requires room { n ≤ length states.old }
    requires level { active < 65533 }
    ensures { Recast n (cond any (active + 1) active) (active + 2) states.old states.new }
{
    let open = if any { active + 1 } else { active };
    recast(states, n, open, active + 2);
}

// Lowers the two states of the level above to those of active's own.
pub fn lower(states: &mut [u16], n: usize, active: u16)
    requires room { n ≤ length states.old }
    requires level { active < 65532 }
    ensures { Lowered n active states.old states.new }
{
    let (next, held, failed) = (active + 1, active + 2, active + 3);
    each(
        states,
        n,
        |_, s| if s == held {
            active
        } else if s == failed {
            next
        } else {
            s
        },
    );
}

// Exchanges active and active + 1 among the first n states.
pub fn exchange(states: &mut [u16], n: usize, active: u16)
    requires room { n ≤ length states.old }
    requires level { active < 65535 }
    ensures { Exchanged n active states.old states.new }
{
    let next = active + 1;
    each(
        states,
        n,
        |_, s| if s == active {
            next
        } else if s == next {
            active
        } else {
            s
        },
    );
}

// An active state among the first n whose row is not marked becomes active + 1.
pub fn settle(states: &mut [u16], marks: &[bool], n: usize, active: u16)
    requires room { (n ≤ length states.old) × (n ≤ length marks.now) }
    requires level { active < 65535 }
    ensures { Sieved (λ y. get_or marks.now y false) active n states.old states.new }
{
    let next = active + 1;
    each(
        states,
        n,
        |y, s| if (s == active) & !marks[y] { next } else { s },
    );
}

// Where a truth that is the same for every row does not hold each active state among the first n becomes active + 1.
pub fn settle_all(states: &mut [u16], n: usize, active: u16, truth: bool)
    requires room { n ≤ length states.old }
    requires level { active < 65535 }
    ensures { Sieved (λ y. truth) active n states.old states.new }
{
    if !truth {
        recast(states, n, active, active + 1);
    }
}

// Of the first n marks those stay whose row is active.
pub fn retain(states: &[u16], active: u16, marks: &mut [bool], n: usize)
    requires { (n ≤ length states.now) × (n ≤ length marks.old) }
    ensures { Retained n active states.now marks.old marks.new }
{
    each(marks, n, |y, marked| marked & (states[y] == active));
}
