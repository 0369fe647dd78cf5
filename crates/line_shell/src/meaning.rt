// What a line asks for.
ghost use Rattle.std.specs.Prelude.{◌≡◌, IfOk};
ghost use Rattle.line_shell.specs.Commands.{issued, moment_of, meaning, line_of};

use crate::arguments::command_of;
use crate::line::Line;
use crate::number::number;
use crate::word::unescape_words;
use byte_pieces::pieces_of;
use posix_profile::{Bytes, Command};
use std::alloc::{AllocError, Global};

const GREATEST_MOMENT: u64 = i64::MAX as u64;

fn issued(command: Option<Command>) -> Line
    ensures { result ≡ issued command }
{
    match command {
        Some(command) => Line::Do(command),
        None => Line::Bad,
    }
}

/// The moment of `now N`, if the words are that.
fn moment_of(words: &[Bytes]) -> Option<u64>
    ensures { result ≡ moment_of words.now }
{
    match words {
        [name, word] if name.as_slice() == b"now".as_slice() => {
            number(word.as_slice(), GREATEST_MOMENT)
        }
        _ => None,
    }
}

/// What words ask for.
fn meaning(words: Vec<Bytes>) -> Line
    ensures { result ≡ meaning words.items }
{
    if words.is_empty() {
        return Line::Nothing;
    }
    match moment_of(&words) {
        Some(moment) => Line::Now(moment),
        None => issued(command_of(words)),
    }
}

/// What a line without its end asks for. It errs only where a growth of memory is refused.
#[tactic(auto, unfolding(crate::specs::Commands::line_of))]
pub fn parse(alloc: Global, line: &[u8]) -> Result<Line, AllocError>
    ensures { IfOk result (λ meant. meant ≡ line_of line.now) }
{
    let pieces = pieces_of(alloc, line, b' ')?;
    match unescape_words(alloc, &pieces)? {
        Some(words) => Ok(meaning(words)),
        None => Ok(Line::Bad),
    }
}
