// The reader of table files: one pass over the bytes, and one over the rows.
ghost use Rattle.std.specs.Prelude.{◌≡◌, ◌++◌, ◌*◌, ◌≤◌, length, get_or, drop, T, eqb, Ok};
ghost use Rattle.meaning.specs.Table.{most_rows};
ghost use Rattle.meaning.specs.Answers.{output};
ghost use Rattle.decimal.specs.Decimal.{ascii};
ghost use Rattle.files.specs.Files.{key, holdable, good};
ghost use Rattle.files.specs.Answers.{file_told, reading, ReadsTable};
ghost use Rattle.files.specs.Parts.{begins, LineAt, Passed, HeadOf, NumbersOf};

use crate::FileRefusal;
use basics::copy;
use meaning::MOST_ROWS;
use table_check::check_table;

// The numbers of the largest table.
const MOST_NUMBERS: usize = 4 * MOST_ROWS;

// Those of a table that has few rows.
const FEW_NUMBERS: usize = 4 * 1024;

// Do these bytes stand at an index of the text?
fn stands_at(text: &[u8], at: usize, word: &[u8]) -> bool
    requires { at ≤ length text.now }
    ensures { result ≡ begins word.now (drop at text.now) }
{
    text[at..].starts_with(word)
}

// Does a line feed stand at i?
fn feed_at(text: &[u8], i: usize) -> bool
    ensures { result ≡ eqb (get_or text.now i 0) 10 }
{
    text.get(i) == Some(&b'\n')
}

// Reads the line of this key, the = among its bytes, at an index of the file: its number, and the index behind the line.
fn read_line(file: &[u8], at: usize, word: &[u8]) -> Option<(u32, usize)>
    requires { at ≤ length file.now }
    ensures { LineAt word.now file.now at result }
{
    if !stands_at(file, at, word) {
        return None;
    }
    let (n, end) = decimal::read(file, at + word.len())?;
    if !feed_at(file, end) {
        return None;
    }
    Some((n, end + 1))
}

// Reads the line of number i of a table. Each word stands in its call: compared with one of a table of words files are read slower.
fn read_number(file: &[u8], at: usize, i: usize) -> Option<(u32, usize)>
    requires { at ≤ length file.now }
    ensures { LineAt (ascii (key i) ++ ascii "=") file.now at result }
{
    match i % 4 {
        0 => read_line(file, at, b"kind="),
        1 => read_line(file, at, b"name="),
        2 => read_line(file, at, b"parent="),
        _ => read_line(file, at, b"size="),
    }
}

// Reads the first two lines: how many rows follow, and where; or the one that is bad.
fn read_head(file: &[u8]) -> Result<(usize, usize), FileRefusal>
    ensures { HeadOf file.now result }
{
    if !stands_at(file, 0, b"edition=1\n") {
        return Err(FileRefusal::BadLine(1));
    }
    let (n, next) = read_line(file, 10, b"nodes=").ok_or(FileRefusal::BadLine(2))?;
    let count = n as usize;
    if count == 0 || MOST_ROWS < count {
        return Err(FileRefusal::BadLine(2));
    }
    Ok((count, next))
}

// Reads the lines of all numbers, from an index of the file on, to its end; or gives the first bad line.
fn read_numbers(file: &[u8], from: usize, numbers: &mut [u32]) -> Result<(), FileRefusal>
    requires { Passed file.now from 0 numbers.old }
    ensures { NumbersOf file.now result numbers.new }
{
    let mut at = from;
    for i in 0..numbers.len() {
        let (n, next) = read_number(file, at, i).ok_or(FileRefusal::BadLine(i as u64 + 3))?;
        numbers[i] = n;
        at = next;
    }
    if at < file.len() {
        return Err(FileRefusal::BadLine(numbers.len() as u64 + 3));
    }
    Ok(())
}

// Hands over the numbers of a good file: room first, then the rows. How many there are.
fn hand_over(numbers: &[u32], out: &mut [u32]) -> Result<u64, FileRefusal>
    requires { T (holdable most_rows numbers.now) }
    ensures { (file_told result ≡ reading (good numbers.now) (length out.old)) × (out.new ≡ output (file_told result) numbers.now out.old) }
{
    let count = numbers.len();
    if out.len() < count {
        return Err(FileRefusal::NoRoom(count as u64));
    }
    check_table(numbers)?;
    copy(numbers, out);
    Ok(count as u64)
}

// Reads the rows behind the first two lines. They are read into a buffer of N numbers, since a broken row leaves the output as it was.
fn read_rows<const N: usize>(
    file: &[u8],
    at: usize,
    count: usize,
    out: &mut [u32],
) -> Result<u64, FileRefusal>
    requires { HeadOf file.now (Ok (count, at)) × (4 * count ≤ N) × (N ≤ 4 * most_rows) }
    ensures { ReadsTable most_rows file.now out.old (file_told result) out.new }
{
    let mut buffer = [0u32; N];
    let numbers = &mut buffer[..4 * count];
    read_numbers(file, at, numbers)?;
    hand_over(numbers, out)
}

// How many numbers were written; else the first bad line, the numbers that need room, or the lowest broken row. Few rows are read into a
// short buffer, so that a small file does not wait for room for the largest to be cleared.
pub fn read_table(file: &[u8], out: &mut [u32]) -> Result<u64, FileRefusal>
    ensures { ReadsTable most_rows file.now out.old (file_told result) out.new }
{
    let (count, at) = read_head(file)?;
    if 4 * count <= FEW_NUMBERS {
        read_rows::<FEW_NUMBERS>(file, at, count, out)
    } else {
        read_rows::<MOST_NUMBERS>(file, at, count, out)
    }
}
