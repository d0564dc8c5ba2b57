//! What stands at the front of a text.

ghost use Rattle.std.specs.Prelude.{◌≡◌, ◌<◌, length};
ghost use Rattle.vera_lex.specs.Reading.{front, other_front};
ghost use Rattle.vera_lex.specs.Seen.{found};

use crate::bytes::{byte_at, is_blank, is_digit, is_letter, line_length, opens_word, word_length};
use crate::directives::directive_front;
use crate::literals::number_front;
use crate::piece::{Found, Piece};
use crate::signs::sign_front;
use crate::strings::{comment_front, string_front};

/// The piece at the front, or the number of the refusal that the text itself gives there.
#[tactic(auto, unfolding(crate::specs::Reading::front, crate::specs::Reading::word_front))]
pub fn front<'a>(text: &'a [u8]) -> Result<Found<'a>, u8>
    requires some { 0 < length text.now }
    requires count { length text.now < 4294967295 }
    ensures { found result ≡ front text.now }
{
    let first = text[0];
    if is_blank(first) {
        return Ok(Found {
            piece: Piece::Gap,
            count: 1,
        });
    }
    if opens_word(first) {
        let count = word_length(text);
        return Ok(Found {
            piece: Piece::Word(&text[..count]),
            count,
        });
    }
    if is_digit(first) || first == b'\'' {
        return number_front(text);
    }
    if first == b'"' {
        return string_front(text);
    }
    other_front(text)
}

/// The comment, directive or sign at the front.
#[tactic(auto, unfolding(crate::specs::Reading::other_front))]
fn other_front<'a>(text: &'a [u8]) -> Result<Found<'a>, u8>
    requires { 0 < length text.now }
    ensures { found result ≡ other_front text.now }
{
    let first = text[0];
    let second = byte_at(text, 1);
    if first == b'/' && second == b'*' {
        return comment_front(text);
    }
    if first == b'/' && second == b'/' {
        return Ok(Found {
            piece: Piece::Gap,
            count: line_length(text),
        });
    }
    if first == b'#' && is_letter(second) {
        return directive_front(text);
    }
    sign_front(text)
}
