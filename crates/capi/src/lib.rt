// The C interface: the public functions, exported for a C host (include/bargetulip.h). A slice passes as a pointer and a length.
// Each returns the documents' number and stores its place, but for the two that have none; the contracts pass on what the library promises.
#![tactic(auto)]

ghost use Rattle.std.specs.Prelude.{◌≡◌};
ghost use Rattle.meaning.specs.Table.{most_rows};
ghost use Rattle.meaning.specs.Answers.{answer, told};
ghost use Rattle.meaning.specs.View.{part_from};
ghost use Rattle.meaning.specs.Promises.{ChecksTable, AnswersPlace, ChecksPath, EvaluatesPath, TurnsPath, FindsPart};
ghost use Rattle.files.specs.Answers.{ReadsTable, WritesTable};

use files::{WideAnswer, read_table, write_table};
use meaning::{Answer, Refusal};
use path_check::check_path;
use place::axis_place;
use select::evaluate;
use table_check::check_table;
use turn::turn;
use view::ends_of;

// Gives an outcome's number, and stores its place.
fn tell(outcome: Result<u32, Refusal>, place: &mut u32) -> u32
    ensures { answer result place.new ≡ told outcome }
{
    let outcome = Answer::from(outcome);
    *place = outcome.place;
    outcome.number
}

#[unsafe(no_mangle)]
pub extern "C" fn bt_check_table(table: &[u32], place: &mut u32) -> u32
    ensures { ChecksTable table.now (answer result place.new) }
{
    tell(check_table(table), place)
}

// The place itself: there is nothing to refuse.
#[unsafe(no_mangle)]
pub extern "C" fn bt_axis_place(table: &[u32], axis: u32, x: u32, y: u32) -> u32
    ensures { AnswersPlace table.now axis x y result }
{
    axis_place(table, axis, x, y)
}

#[unsafe(no_mangle)]
pub extern "C" fn bt_check_path(path: &[u32], literals: &[f64], place: &mut u32) -> u32
    ensures { ChecksPath path.now literals.now (answer result place.new) }
{
    tell(check_path(path, literals), place)
}

#[unsafe(no_mangle)]
pub extern "C" fn bt_evaluate(
    edition: u32,
    table: &[u32],
    path: &[u32],
    literals: &[f64],
    start: u32,
    out: &mut [u32],
    place: &mut u32,
) -> u32
    ensures { EvaluatesPath edition table.now path.now literals.now start out.old (answer result place.new) out.new }
{
    let outcome = evaluate(edition, table, path, literals, start, out);
    tell(outcome, place)
}

#[unsafe(no_mangle)]
pub extern "C" fn bt_turn(path: &[u32], literals: &[f64], out: &mut [u32], place: &mut u32) -> u32
    ensures { TurnsPath path.now literals.now out.old (answer result place.new) out.new }
{
    tell(turn(path, literals, out), place)
}

// The part of the list inside a node's subtree, by its two ends.
#[unsafe(no_mangle)]
pub extern "C" fn bt_view(
    table: &[u32],
    list: &[u32],
    node: u32,
    begin: &mut usize,
    count: &mut usize,
)
    ensures { FindsPart table.now list.now node (part_from begin.new count.new) }
{
    let part = ends_of(table, list, node);
    *begin = part.begin;
    *count = part.length;
}

// The places of files have 64 bits, so the next two don't use `tell`.
#[unsafe(no_mangle)]
pub extern "C" fn bt_read_table(file: &[u8], out: &mut [u32], place: &mut u64) -> u32
    ensures { ReadsTable most_rows file.now out.old (answer result place.new) out.new }
{
    let answer = WideAnswer::from(read_table(file, out));
    *place = answer.place;
    answer.number
}

#[unsafe(no_mangle)]
pub extern "C" fn bt_write_table(table: &[u32], out: &mut [u8], place: &mut u64) -> u32
    ensures { WritesTable table.now out.old (answer result place.new) out.new }
{
    let answer = WideAnswer::from(write_table(table, out));
    *place = answer.place;
    answer.number
}
