// The reader of path text (document 02, W-202): the names, then what is wrong in the text, then the limits and the rooms; without a refusal the
// rows and the literals. Nothing is written before all checks are passed.
#![tactic(auto)]

ghost use Rattle.std.specs.Prelude.{◌≡◌, ◌*◌, ◌<◌, ◌≤◌, length, IfErr};
ghost use Rattle.names.specs.Index.{Roomy};
ghost use Rattle.text.specs.Reading.{ReadsPath};
ghost use Rattle.reader.specs.Handing.{Clean, handed, literals_told, Hands};
ghost use Rattle.reader.specs.Told.{refused, HasOwnNumber, told, literals_of};

use basics::copy;
use compose::{Composed, compose};
use names::{Names, index};
use survey::survey_text;
use text::Fault;

// What was read: how many rows and how many literals stand at the front of the slices that were lent for them.
#[derive(Clone, Copy, PartialEq, Eq)]
pub struct Written {
    pub rows: u32,
    pub literals: u32,
}

// Why nothing is read: the list of names is bad, first in this line; the text is outside the grammar or has a fault; it has more rows, literals
// or paths around each other than a path may have; or there is no room for so many numbers of rows, or for so many literals.
#[derive(Clone, Copy)]
pub enum TextRefusal {
    BadNames(usize),
    Wrong(Fault),
    TooManyRows,
    TooManyLiterals,
    TooDeep,
    NoRoom(usize),
    NoRoomForLiterals(usize),
}

// What is refused of so many rows, literals and paths around each other: the limits but for that of rows, then the rooms.
#[tactic(auto, unfolding(crate::specs::Handing::handed, crate::specs::Handing::literals_told))]
fn limits(composed: Composed, room: usize, literal_room: usize) -> Result<Written, TextRefusal>
    requires { (composed.rows ≤ 256) × (composed.literals ≤ 256) }
    ensures { (told result ≡ handed composed.rows composed.literals composed.depth room literal_room)
        × (literals_of result ≡ literals_told (told result) composed.literals) × IfErr result (λ r. (0 < (refused r).number) × HasOwnNumber r) }
{
    let rows = composed.rows;
    let literals = composed.literals;
    if 64 < literals {
        return Err(TextRefusal::TooManyLiterals);
    }
    if 8 < composed.depth {
        return Err(TextRefusal::TooDeep);
    }
    if room < 5 * rows {
        return Err(TextRefusal::NoRoom(5 * rows));
    }
    if literal_room < literals {
        return Err(TextRefusal::NoRoomForLiterals(literals));
    }
    Ok(Written {
        rows: rows as u32,
        literals: literals as u32,
    })
}

// Hands over what was composed, if it is within the limits and there is room.
fn hand_over(
    composed: Composed,
    drafted: &[u32],
    values: &[f64],
    rows: &mut [u32],
    literals: &mut [f64],
) -> Result<Written, TextRefusal>
    requires { (composed.rows ≤ 256) × (composed.literals ≤ 256) × (5 * composed.rows ≤ length drafted.now)
        × (composed.literals ≤ length values.now) }
    ensures { Hands composed.rows composed.literals composed.depth drafted.now values.now rows.old literals.old (told result)
        (literals_of result) rows.new literals.new × IfErr result HasOwnNumber }
{
    let written = limits(composed, rows.len(), literals.len())?;
    copy(&drafted[..5 * composed.rows], rows);
    copy(&values[..composed.literals], literals);
    Ok(written)
}

// A text in which nothing is wrong: it is composed into buffers, checked, and handed over.
fn read_clean(
    text: &[u8],
    names: &Names,
    rows: &mut [u32],
    literals: &mut [f64],
) -> Result<Written, TextRefusal>
    requires { Clean text.now names.now.list.now }
    ensures { ReadsPath text.now names.now.list.now rows.old literals.old (told result) (literals_of result) rows.new literals.new
        × IfErr result HasOwnNumber }
{
    let mut drafted = [0u32; 2600];
    let mut values = [0.0f64; 258];
    let composed = compose(text, names, &mut drafted, &mut values);
    if 256 < composed.rows {
        return Err(TextRefusal::TooManyRows);
    }
    hand_over(composed, &drafted, &values, rows, literals)
}

// Reads a text by names of which so many lines of one hash and so many 8th lines have room in an index on the stack.
fn read_within<const LINES: usize, const EIGHTHS: usize>(
    text: &[u8],
    list: &[u8],
    rows: &mut [u32],
    literals: &mut [f64],
) -> Result<Written, TextRefusal>
    requires { Roomy list.now LINES LINES EIGHTHS × (LINES ≤ 65536) × (EIGHTHS ≤ 8192) }
    ensures { ReadsPath text.now list.now rows.old literals.old (told result) (literals_of result) rows.new literals.new
        × IfErr result HasOwnNumber }
{
    let mut heads = [0u16; LINES];
    let mut nexts = [0u16; LINES];
    let mut starts = [0usize; EIGHTHS];
    if let Err(line) = index(list, &mut heads, &mut nexts, &mut starts) {
        return Err(TextRefusal::BadNames(line));
    }
    let names = Names {
        list,
        heads: &heads,
        nexts: &nexts,
        starts: &starts,
    };
    match survey_text(text, &names) {
        Some(fault) => Err(TextRefusal::Wrong(fault)),
        None => read_clean(text, &names, rows, literals),
    }
}

// Reads a path text by a list of names, for any bytes and rooms. The names are checked first, then the grammar, the lowest fault, the limits
// and the rooms. What was read stands at the front of rows and of literals, and its counts are told; the rest of both, and on a refusal all
// of both, is as it was. A short list has a small index, so that little of the stack is cleared.
pub fn read_path(
    text: &[u8],
    list: &[u8],
    rows: &mut [u32],
    literals: &mut [f64],
) -> Result<Written, TextRefusal>
    ensures { ReadsPath text.now list.now rows.old literals.old (told result) (literals_of result) rows.new literals.new
        × IfErr result HasOwnNumber }
{
    if list.len() < 512 {
        return read_within::<256, 32>(text, list, rows, literals);
    }
    read_within::<65536, 8192>(text, list, rows, literals)
}
