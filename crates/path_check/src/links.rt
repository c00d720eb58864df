// The links that the first rows of a path hold, as marks.
ghost use Rattle.std.specs.Prelude.{◌≡◌, ◌+◌, ◌≤◌};
ghost use Rattle.meaning.specs.Rows.{linked_below};
ghost use Rattle.path_check.specs.Passes.{Marks};

use super::Rows;
use path::{first_link, second_link};

// The links of a path of the most rows, and 0 for no link.
pub const LINKS: usize = 257;

// The links that some first rows of a path hold, each with its mark.
#[derive(Drop)]
pub struct Linked<'a> {
    pub path: &'a [u32],
    pub rows: usize,
    marks: [bool; LINKS],
    ghost marked: { Marks path.now rows marks },
}

impl<'a> Linked<'a> {
    // Those of no row yet.
    pub fn by_none(path: &'a [u32]) -> Self
        ensures { (result.path.now ≡ path.now) × (result.rows ≡ 0) }
    {
        Linked {
            path,
            rows: 0,
            marks: [false; LINKS],
        }
    }

    // Marks the links of one row more.
    pub fn add_row(&mut self)
        requires { self.old.rows ≤ 256 }
        ensures { (self.new.path.now ≡ self.old.path.now) × (self.new.rows ≡ self.old.rows + 1) }
    {
        let a = first_link(self.path, self.rows);
        let b = second_link(self.path, self.rows);
        self.marks[a] = true;
        self.marks[b] = true;
        self.rows += 1;
    }

    // Marks the links of all rows.
    pub fn add_all(&mut self, rows: &Rows<'a>)
        requires { (self.old.rows ≡ 0) × (self.old.path.now ≡ rows.now.path.now) }
        ensures { (self.new.path.now ≡ rows.now.path.now) × (self.new.rows ≡ rows.now.count) }
    {
        for _ in 0..rows.count {
            self.add_row();
        }
    }

    // Does one of the rows hold this link?
    pub fn holds(&self, l: usize) -> bool
        ensures { result ≡ linked_below self.now.path.now self.now.rows l }
    {
        self.marks.get(l).copied().unwrap_or(false)
    }
}
