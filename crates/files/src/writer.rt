// The writer of table files: one pass over the rows for the bytes needed, and one that writes.
ghost use Rattle.std.specs.Prelude.{◌≡◌, ◌++◌, ◌+◌, ◌<◌, ◌≤◌, length, T};
ghost use Rattle.meaning.specs.Table.{length_allowed};
ghost use Rattle.decimal.specs.Decimal.{ascii, laid};
ghost use Rattle.files.specs.Files.{line, key, number_lines, joined, bytes_of};
ghost use Rattle.files.specs.Answers.{file_told, WritesTable};
ghost use Rattle.files.specs.Parts.{keyed};

use crate::FileRefusal;
use decimal::width;
use table_check::check_table;

// How many bytes the line of number i has.
fn line_length(i: usize, n: u32) -> usize
    ensures { (result ≡ length (line (key i) n)) × (result ≤ 18) }
{
    let around = if i % 4 == 2 { 8 } else { 6 };
    around + width(n)
}

// How many bytes the file of a table has.
fn bytes_needed(table: &[u32]) -> usize
    requires { T (length_allowed table.now) }
    ensures { result ≡ length (bytes_of table.now) }
{
    let mut sum = 17 + width((table.len() / 4) as u32);
    for (i, n) in table.iter().enumerate() {
        sum += line_length(i, *n);
    }
    sum
}

// Writes bytes from an index on, and gives the index behind them.
fn put(out: &mut [u8], at: usize, word: &[u8]) -> usize
    requires { at + length word.now ≤ length out.old }
    ensures { (result ≡ at + length word.now) × (out.new ≡ laid out.old at word.now) }
{
    let end = at + word.len();
    out[at..end].copy_from_slice(word);
    end
}

// Writes a line from an index on, and gives the index behind it.
fn put_line(out: &mut [u8], at: usize, word: &[u8], n: u32) -> usize
    requires { at + length (keyed word.now n) ≤ length out.old }
    ensures { (result ≡ at + length (keyed word.now n)) × (out.new ≡ laid out.old at (keyed word.now n)) }
{
    let behind = put(out, at, word);
    let end = decimal::write(n, out, behind);
    out[end] = b'\n';
    end + 1
}

// Writes the line of number i of a table. Each word stands in its call: copied from a table of words files are written slower.
fn put_number(out: &mut [u8], at: usize, i: usize, n: u32) -> usize
    requires { at + length (line (key i) n) ≤ length out.old }
    ensures { (result ≡ at + length (line (key i) n)) × (out.new ≡ laid out.old at (line (key i) n)) }
{
    match i % 4 {
        0 => put_line(out, at, b"kind=", n),
        1 => put_line(out, at, b"name=", n),
        2 => put_line(out, at, b"parent=", n),
        _ => put_line(out, at, b"size=", n),
    }
}

// Writes the lines of a table's numbers from an index on.
fn put_numbers(table: &[u32], out: &mut [u8], from: usize)
    requires { from + length (joined (number_lines 0 table.now)) ≤ length out.old }
    ensures { out.new ≡ laid out.old from (joined (number_lines 0 table.now)) }
{
    let mut at = from;
    for (i, n) in table.iter().enumerate() {
        at = put_number(out, at, i, *n);
    }
}

// Writes the file of a table to the front of an output that has room for it.
fn put_table(table: &[u32], out: &mut [u8])
    requires { T (length_allowed table.now) × (length (bytes_of table.now) ≤ length out.old) }
    ensures { out.new ≡ laid out.old 0 (bytes_of table.now) }
{
    let second = put_line(out, 0, b"edition=", 1);
    let third = put_line(out, second, b"nodes=", (table.len() / 4) as u32);
    put_numbers(table, out, third);
}

// How many bytes were written; else what the table checker refuses, or the bytes that need room.
pub fn write_table(table: &[u32], out: &mut [u8]) -> Result<u64, FileRefusal>
    ensures { WritesTable table.now out.old (file_told result) out.new }
{
    check_table(table)?;
    let needed = bytes_needed(table);
    if out.len() < needed {
        return Err(FileRefusal::NoRoom(needed as u64));
    }
    put_table(table, out);
    Ok(needed as u64)
}
