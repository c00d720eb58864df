// The rows, the literals and the depth of a path text without faults, in one pass over its tokens (document 02, W-202): the machine of
// crates/text/specs/Composing.antt with its rows and literals in slices and its frames in arrays. Memory is bounded: the pass stops once more rows are
// committed than a path may have.
#![tactic(auto)]

mod deal;
mod desk;
mod kinds;
mod mode;
mod ops;
mod pass;
mod pen;
mod read;
mod steps;
mod words;

ghost use Rattle.std.specs.Prelude.{◌≡◌, length};
ghost use Rattle.compose.specs.Standing.{row_room, value_room};
ghost use Rattle.compose.specs.Words.{Plain};
ghost use Rattle.compose.specs.Composes.{Composes};

use desk::settle_frames;
use names::Names;
use pass::pass_over;
use text::Sort;

// The link and the sort in hand, and the number of rows written.
#[derive(Clone, Copy)]
pub struct Hand {
    pub link: u32,
    pub sort: Sort,
    pub rows: usize,
}

// The same with the number of frames, which are rows to come.
#[derive(Clone, Copy)]
pub struct Bench {
    pub hand: Hand,
    pub height: usize,
}

// What was read last, the axis of the step to come, the number of literals, and the most paths around each other so far.
#[derive(Clone, Copy)]
pub struct State {
    pub mode: usize,
    pub axis: u32,
    pub literals: usize,
    pub deepest: usize,
    pub bench: Bench,
}

// The state behind the last token, or that too many rows are committed.
#[derive(Clone, Copy)]
pub struct Passed {
    pub full: bool,
    pub state: State,
}

// The rows of a text without faults, its literals, and the most paths around each other. Where there are more than 256 rows, more are told.
#[derive(Clone, Copy)]
pub struct Composed {
    pub rows: usize,
    pub literals: usize,
    pub depth: usize,
}

// 260 frames of four numbers, and two for the brackets that each counts.
const OPS: usize = 1040;

const OPENS: usize = 520;

// The stack of frames, and the brackets that they count (desk.rt).
#[derive(Drop)]
pub struct Stack {
    pub ops: [u32; OPS],
    pub opens: [usize; OPENS],
}

// Composes a text whose names are in the list and whose numbers have few digits. The slices have room for what one token may add where a path
// is full already.
pub fn compose(text: &[u8], names: &Names, rows: &mut [u32], values: &mut [f64]) -> Composed
    requires { Plain text.now names.now.list.now × (length rows.old ≡ row_room)
        × (length values.old ≡ value_room) }
    ensures { Composes text.now names.now.list.now rows.new values.new result }
{
    let mut frames = Stack {
        ops: [0; OPS],
        opens: [0; OPENS],
    };
    let passed = pass_over(text, names, rows, &mut frames, values);
    if passed.full {
        return Composed {
            rows: 257,
            literals: 0,
            depth: 0,
        };
    }
    let state = passed.state;
    let settled = settle_frames(state.bench, rows, &frames, 1);
    Composed {
        rows: settled.hand.rows,
        literals: state.literals,
        depth: state.deepest,
    }
}
