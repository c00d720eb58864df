// A path whose length is allowed, with its rows counted.
ghost use Rattle.std.specs.Prelude.{◌≡◌, ◌≤◌, true, false, MatchOption};
ghost use Rattle.meaning.specs.Rows.{rows_of, path_length_allowed};

use path::row_count;

const MOST_ROWS: usize = 256;

// A path of 1 to 256 rows, and how many it has.
#[derive(Clone, Copy)]
pub struct Rows<'a> {
    pub path: &'a [u32],
    pub count: usize,
    ghost counted: { (count ≡ rows_of path.now) × (count ≤ 256) },
}

impl<'a> Rows<'a> {
    // The rows of a path, where they are whole and no fewer and no more.
    pub fn of(path: &'a [u32]) -> Option<Self>
        ensures { MatchOption result (path_length_allowed path.now ≡ false) (λ r. (r.path.now ≡ path.now) × (path_length_allowed path.now ≡ true)) }
    {
        if is_length_allowed(path) {
            Some(Rows {
                path,
                count: row_count(path),
            })
        } else {
            None
        }
    }
}

// Whole rows, 1 to 256 of them.
#[tactic(auto, unfolding(meaning::specs::Rows::path_length_allowed))]
fn is_length_allowed(path: &[u32]) -> bool
    ensures { result ≡ path_length_allowed path.now }
{
    let rows = row_count(path);
    path.len() % 5 == 0 && 1 <= rows && rows <= MOST_ROWS
}
