//! Directives.

ghost use Rattle.std.specs.Prelude.{◌≡◌, false, ◌+◌, ◌<◌, ◌≤◌, length, drop, Option, Some, None};
ghost use Rattle.vera_lex.specs.Directives as spec;
ghost use Rattle.vera_lex.specs.Tokens.{directive_piece};
ghost use Rattle.vera_lex.specs.Seen.{found};

use crate::bytes::{byte_at, is_space, opens_word, space_length, word_length};
use crate::piece::{Found, Piece};

const HEADER: &[u8] = b"<vera_defines.vrh>";

/// How many bytes of blanks and comments, all on one line, the bytes begin with.
fn gap_length(bytes: &[u8]) -> usize
    ensures value { result ≡ spec.gap false bytes.now }
    ensures within { result ≤ length bytes.now }
{
    let mut at = 0;
    let mut inside = false;
    'gap: while at < bytes.len() {
        let first = bytes[at];
        let second = byte_at(bytes, at + 1);
        if inside {
            if first == b'*' && second == b'/' {
                at += 2;
                inside = false;
            } else if first == b'\n' {
                return at;
            } else {
                at += 1;
            }
        } else if is_space(first) {
            at += 1;
        } else if first == b'/' && second == b'*' {
            at += 2;
            inside = true;
        } else {
            return at;
        }
    }
    at
}

/// The `#include` at the front, with the bytes behind the word.
fn include_front<'a>(bytes: &[u8]) -> Result<Found<'a>, u8>
    ensures { found result ≡ directive_piece (spec.include_at bytes.now) }
{
    let spaces = space_length(bytes);
    if bytes[spaces..].starts_with(HEADER) {
        Ok(Found {
            piece: Piece::Include,
            count: 8 + spaces + 18,
        })
    } else {
        Err(4)
    }
}

/// The `#define` at the front, with the bytes behind the word.
fn define_front<'a>(bytes: &'a [u8]) -> Result<Found<'a>, u8>
    ensures { found result ≡ directive_piece (spec.define_at bytes.now) }
{
    let gap = gap_length(bytes);
    let behind = &bytes[gap..];
    if opens_word(byte_at(behind, 0)) {
        let count = word_length(behind);
        Ok(Found {
            piece: Piece::Define(&behind[..count]),
            count: 7 + gap + count,
        })
    } else {
        Err(4)
    }
}

/// The directive behind a `#`.
#[tactic(auto, unfolding(crate::specs::Directives::directive_behind))]
fn directive_behind<'a>(behind: &'a [u8]) -> Result<Found<'a>, u8>
    ensures { found result ≡ directive_piece (spec.directive_behind behind.now) }
{
    let (word, rest) = behind.split_at(word_length(behind));
    if word == b"include".as_slice() {
        return include_front(rest);
    }
    if word == b"define".as_slice() {
        return define_front(rest);
    }
    Err(4)
}

/// The directive at the front. E04 where it is another one, another include, or has no name.
pub fn directive_front<'a>(text: &'a [u8]) -> Result<Found<'a>, u8>
    requires { 0 < length text.now }
    ensures { found result ≡ directive_piece (spec.directive text.now) }
{
    directive_behind(&text[1..])
}
