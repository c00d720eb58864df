// Reading lines of text for the programs: what stands before and behind a byte, and the decimal numbers of a text.
#![tactic(auto)]

ghost use Rattle.std.specs.Prelude.{◌≡◌, ℕ, ◌+◌, ◌*◌, ◌^◌, ◌<◌, ◌≤◌, ◌≢◌, ◌∷◌, ◌++◌, min, if◌then◌else◌, nat_le, IfOk, OnOk, MatchOption, All, vec_len, true, false, length, get_or, map, take, drop};
ghost use Rattle.std.specs.Char.{is_ascii_digit};
ghost use Rattle.lines.specs.Numbers.{number_of, behind_number, number_at, behind_numbers};
ghost use Rattle.lines.specs.Files.{file_byte};

use std::alloc::{AllocError, Global};

// What stands before the first such byte of a text, and what behind it.
pub fn split_once(text: &[u8], byte: u8) -> Option<(&[u8], &[u8])>
    ensures { MatchOption result (All (λ b. b ≢ byte) text.now) (λ h. (text.now ≡ h.0.now ++ (byte ∷ h.1.now)) × All (λ b. b ≢ byte) h.0.now) }
{
    let i = text.iter().position(|b| *b == byte)?;
    Some((&text[..i], &text[i + 1..]))
}

// The digit that a byte is.
fn digit_of(byte: u8) -> Option<u64>
    ensures { MatchOption result (is_ascii_digit byte ≡ false) (λ d. (is_ascii_digit byte ≡ true) × (byte ≡ 48 + d) × (d < 10)) }
{
    match byte {
        b'0'..=b'9' => Some(u64::from(byte - b'0')),
        _ => None,
    }
}

// One digit more; a number past 64 bits stays as it is.
fn extended(value: u64, digit: u64) -> u64
    ensures { 10 * value + digit < 2 ^ 64 → result ≡ 10 * value + digit }
{
    if value <= u64::MAX / 10 {
        (10 * value).wrapping_add(digit)
    } else {
        value
    }
}

// A number as 32 bits: the most that they hold where it is above that.
pub fn small(value: u64) -> u32
    ensures { result ≡ min value 4294967295 }
{
    u32::try_from(value).unwrap_or(u32::MAX)
}

// What a byte of a line stands for in a file: a slash for a line feed, which no line has.
fn file_byte(byte: u8) -> u8
    ensures { result ≡ file_byte byte }
{
    if byte == b'/' { b'\n' } else { byte }
}

// Reads a text as a file to the front of a slice, as much as it holds; gives back the file's length.
pub fn read_file(text: &[u8], into: &mut [u8]) -> usize
    ensures length { result ≡ min (length text.now) (length into.old) }
    ensures bytes { into.new ≡ map file_byte (take result text.now) ++ drop result into.old }
{
    let length = text.len().min(into.len());
    for (i, entry) in into[..length].iter_mut().enumerate() {
        *entry = file_byte(text[i]);
    }
    length
}

// The decimal numbers of a text. One byte behind each is passed, and a number that is missing is 0.
#[derive(Drop)]
pub struct Numbers<'a> {
    pub unread: &'a [u8],
}

impl Numbers<'_> {
    // The next number; a text that is used up has 0.
    pub fn number(&mut self) -> u64
        ensures value { number_of self.old.unread.now < 2 ^ 64 → result ≡ number_of self.old.unread.now }
        ensures unread { self.new.unread.now ≡ behind_number self.old.unread.now }
    {
        let mut value = 0;
        while let Some((byte, unread)) = self.unread.split_first() {
            self.unread = unread;
            match digit_of(*byte) {
                Some(digit) => value = extended(value, digit),
                None => return value,
            }
        }
        value
    }

    // The next number as 32 bits.
    pub fn small(&mut self) -> u32
        ensures value { number_of self.old.unread.now < 2 ^ 64 → result ≡ min (number_of self.old.unread.now) 4294967295 }
        ensures unread { self.new.unread.now ≡ behind_number self.old.unread.now }
    {
        small(self.number())
    }

    // The next number as a count, or the most that there is room for.
    pub fn count(&mut self, most: usize) -> usize
        ensures bound { result ≤ most }
        ensures value { number_of self.old.unread.now < 2 ^ 64 → result ≡ min (number_of self.old.unread.now) most }
        ensures unread { self.new.unread.now ≡ behind_number self.old.unread.now }
    {
        usize::try_from(self.number()).unwrap_or(most).min(most)
    }

    // The next numbers, one for each entry of a slice, as a function gives it.
    pub fn fill<T: Drop, F: Fn(u64) -> T>(&mut self, entries: &mut [T], read: F)
        requires { F.IsAlwaysCallable read }
        ensures length { length entries.new ≡ length entries.old }
        ensures values { (i : ℕ) (d : T) → i < length entries.old → number_at i self.old.unread.now < 2 ^ 64 → F.post read (number_at i self.old.unread.now) (get_or entries.new i d) }
        ensures unread { self.new.unread.now ≡ behind_numbers (length entries.old) self.old.unread.now }
    {
        for entry in entries.iter_mut() {
            *entry = read(self.number());
        }
    }

    // So many numbers, each as a function gives it.
    pub fn list<T: Drop, F: Fn(u64) -> T>(
        &mut self,
        alloc: Global,
        count: usize,
        read: F,
    ) -> Result<Vec<T>, AllocError>
        requires { (f : F) (x : _) → F.pre f x }
        ensures { IfOk result (λ v. vec_len v ≡ count) }
    {
        (0..count).map(|_| read(self.number())).collect(alloc)
    }
}

#[cfg(test)]
mod tests {
    use super::*;
    use std::test::Fail;

    #[test]
    fn reads_numbers(rt: HostRuntime) -> Result<(), Fail> {
        let mut numbers = Numbers {
            unread: b"9 7 18446744073709551615x4294967296, 5",
        };
        assert_eq!(rt; numbers.count(6), 6);
        let list = numbers.list(rt.alloc(), 6, small)?;
        let most = u32::MAX;
        assert_eq!(rt; list.as_slice(), [7, most, most, 0, 5, 0].as_slice());
        Ok(())
    }

    #[test]
    fn fills_what_is_lent(rt: HostRuntime) {
        let mut numbers = Numbers {
            unread: b"12 0034, 56 78",
        };
        let mut entries = [9; 4];
        numbers.fill(&mut entries, small);
        assert_eq!(rt; entries, [12, 34, 0, 56]);
        assert_eq!(rt; numbers.unread, b"78".as_slice());
    }

    #[test]
    fn reads_files(rt: HostRuntime) {
        let mut file = *b"123456";
        assert_eq!(rt; read_file(b"a=/b", &mut file), 4);
        assert_eq!(rt; file, *b"a=\nb56");
        assert_eq!(rt; read_file(b"/longer", &mut file[..2]), 2);
        assert_eq!(rt; file, *b"\nl\nb56");
    }
}
