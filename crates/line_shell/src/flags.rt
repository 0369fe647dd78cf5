// The flags of an `open`.
ghost use Rattle.std.specs.Prelude.{◌≡◌, nat_eq, nat_le, count_by};
ghost use Rattle.std.specs.List.{list_all};
ghost use Rattle.line_shell.specs.Commands.{letters, has, access_of, flags_of};

use posix_profile::{Access, OpenFlags};

const LETTERS: [u8; 6] = *b"rwcxta";

fn has(flags: &[u8], letter: u8) -> bool
    ensures { result ≡ has flags.now letter }
{
    flags.contains(&letter)
}

fn count(flags: &[u8], letter: u8) -> usize
    ensures { result ≡ count_by (λ flag. nat_eq flag letter) flags.now }
{
    flags.iter().filter(|flag| **flag == letter).count()
}

fn are_letters(word: &[u8]) -> bool
    ensures { result ≡ list_all (λ flag. has letters flag) word.now }
{
    for flag in word {
        if !has(&LETTERS, *flag) {
            return false;
        }
    }
    true
}

/// Whether each of the letters is in the word at most once.
fn are_apart(word: &[u8], letters: &[u8]) -> bool
    ensures { result ≡ list_all (λ letter. nat_le (count_by (λ flag. nat_eq flag letter) word.now) 1) letters.now }
{
    for letter in letters {
        if count(word, *letter) > 1 {
            return false;
        }
    }
    true
}

fn access_of(read: bool, write: bool) -> Option<Access>
    ensures { result ≡ access_of read write }
{
    match (read, write) {
        (true, true) => Some(Access::Both),
        (true, false) => Some(Access::Read),
        (false, true) => Some(Access::Write),
        (false, false) => None,
    }
}

/// The flags that a word is.
pub fn flags_of(word: &[u8]) -> Option<OpenFlags>
    ensures { result ≡ flags_of word.now }
{
    if !are_letters(word) || !are_apart(word, &LETTERS) {
        return None;
    }
    let access = access_of(has(word, b'r'), has(word, b'w'))?;
    Some(OpenFlags {
        access,
        create: has(word, b'c'),
        excl: has(word, b'x'),
        trunc: has(word, b't'),
        append: has(word, b'a'),
    })
}
