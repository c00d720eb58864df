// The evaluator: what a path selects from a node of a table (document 01, "Meaning" and "Numbers given back"), in an edition of the rule
// sheets (document 02, W-210).
#![tactic(auto)]

mod cycle;
mod evaluation;

ghost use Rattle.std.specs.Prelude.{◌≡◌, true};
ghost use Rattle.meaning.specs.Answers.{is_edition, table_answer, path_answer, told};
ghost use Rattle.meaning.specs.Promises.{EvaluatesPath};

use evaluation::Evaluation;
use marks::give_marks;
use meaning::{MOST_ROWS, Refusal};
use path_check::check_path;
use table::row_count;
use table_check::check_table;

// Is the number an edition of the rule sheets?
#[tactic(auto, unfolding(meaning::specs::Answers::is_edition))]
fn is_edition(edition: u32) -> bool
    ensures { result ≡ is_edition edition }
{
    edition == 1 || edition == 2
}

// Evaluation, in an edition, of a path and on a table that are accepted: refused for a start node that is none and where out has no room,
// else how many nodes are selected, and they stand at the front of out.
fn evaluate_accepted(
    edition: u32,
    table: &[u32],
    path: &[u32],
    literals: &[f64],
    start: u32,
    out: &mut [u32],
) -> Result<u32, Refusal>
    requires { (is_edition edition ≡ true) × ((table_answer table.now).number ≡ 0) × ((path_answer path.now literals.now).number ≡ 0) }
    ensures { EvaluatesPath edition table.now path.now literals.now start out.old (told result) out.new }
{
    if row_count(table) <= start as usize {
        return Err(Refusal::NoSuchNode(start));
    }
    let mut marks = [false; MOST_ROWS];
    let evaluation = Evaluation {
        edition: edition as usize,
        table,
        path,
        literals,
    };
    evaluation.select(path::row_count(path), start as usize, &mut marks);
    give_marks(table, &marks, out)
}

// Evaluates a path, in an edition, on a table from a start node, for any inputs. The edition is checked first, then the table, the path,
// the start node and the room. The selected nodes stand ascending at the front of out, and their count is given; the rest of out, and on
// each refusal all of it, is as it was.
pub fn evaluate(
    edition: u32,
    table: &[u32],
    path: &[u32],
    literals: &[f64],
    start: u32,
    out: &mut [u32],
) -> Result<u32, Refusal>
    ensures { EvaluatesPath edition table.now path.now literals.now start out.old (told result) out.new }
{
    if !is_edition(edition) {
        return Err(Refusal::NoSuchEdition(edition));
    }
    check_table(table)?;
    check_path(path, literals)?;
    evaluate_accepted(edition, table, path, literals, start, out)
}
