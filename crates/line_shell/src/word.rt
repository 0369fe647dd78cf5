// The words of a line, and the bytes that they represent.
ghost use Rattle.std.specs.Prelude.{◌≡◌, ◌<◌, length, filter, map as list_map, nat_lt, option_map, MatchOption, IfOk, None};
ghost use Rattle.line_shell.specs.Words.{unescaped, all_unescaped, byte_of_digits};
ghost use Rattle.line_shell.specs.Pieces.{IsPiece};

use posix_profile::Bytes;
use std::alloc::{AllocError, Global};

/// A part at the front of a word that represents at most one byte, and its size in the word.
#[derive(Clone, Copy)]
struct Piece {
    byte: Option<u8>,
    size: usize,
}

/// The byte of two hexadecimal digits.
fn byte_of_digits(high: u8, low: u8) -> Option<u8>
    ensures { result ≡ byte_of_digits high low }
{
    let high = (high as char).to_digit(16)?;
    let low = (low as char).to_digit(16)?;
    Some((16 * high + low) as u8)
}

/// The first piece of a word, if it can be read.
fn first_piece(word: &[u8]) -> Option<Piece>
    requires { 0 < length word.now }
    ensures { MatchOption result (unescaped word.now ≡ None) (λ piece. IsPiece word.now piece.byte piece.size) }
{
    if word[0] != b'\\' {
        return Some(Piece {
            byte: Some(word[0]),
            size: 1,
        });
    }
    if word.len() < 2 {
        return None;
    }
    match word[1] {
        b'\\' => Some(Piece {
            byte: Some(b'\\'),
            size: 2,
        }),
        b'e' => Some(Piece {
            byte: None,
            size: 2,
        }),
        b'x' => {
            if word.len() < 4 {
                return None;
            }
            let byte = byte_of_digits(word[2], word[3])?;
            Some(Piece {
                byte: Some(byte),
                size: 4,
            })
        }
        _ => None,
    }
}

/// The bytes that a word represents, if it can be read.
fn unescape(alloc: Global, word: &[u8]) -> Result<Option<Bytes>, AllocError>
    ensures { IfOk result (λ text. text ≡ unescaped word.now) }
{
    let mut text = Vec::new(alloc);
    let mut at = 0;
    while at < word.len() {
        let Some(piece) = first_piece(&word[at..]) else {
            return Ok(None);
        };
        if let Some(byte) = piece.byte {
            text.push(byte)?;
        }
        at += piece.size;
    }
    Ok(Some(Bytes::new(text)))
}

/// The bytes that the words among the pieces of a line represent, if each can be read.
pub fn unescape_words(alloc: Global, pieces: &[&[u8]]) -> Result<Option<Vec<Bytes>>, AllocError>
    ensures { IfOk result (λ texts. option_map (λ all. all.items) texts
        ≡ all_unescaped (filter (λ word. nat_lt 0 (length word)) (list_map (λ piece. piece.now) pieces.now))) }
{
    let mut texts = Vec::new(alloc);
    for piece in pieces {
        if !piece.is_empty() {
            match unescape(alloc, piece)? {
                Some(text) => texts.push(text)?,
                None => return Ok(None),
            }
        }
    }
    Ok(Some(texts))
}
