//! The signs, by the table of the language.

ghost use Rattle.std.specs.Prelude.{◌≡◌, ◌≤◌, ◌&&◌, length, take, nat_le, is_some, position};
ghost use Rattle.std.specs.Str.{bytes_eq};
ghost use Rattle.vera_lex.specs.Forms.{sign_number};
ghost use Rattle.vera_lex.specs.Reading.{sign_front, sign_length};
ghost use Rattle.vera_lex.specs.Seen.{found};

use crate::piece::{Found, Piece};

/// The 48 signs, each at its number.
const SIGNS: [&[u8]; 48] = [
    b"{", b"}", b"(", b")", b"[", b"]", b";", b",", b".", b":", b"?", b"#", b"@", b"@@", b"@@@",
    b"=", b"<=", b"==", b"!=", b"===", b"!==", b"=?=", b"!?=", b"<", b">", b">=", b"<<", b">>",
    b"+", b"-", b"*", b"/", b"%", b"!", b"~", b"&", b"|", b"^", b"~&", b"~|", b"~^", b"&&", b"||",
    b"+=", b"-=", b"++", b"--", b"->",
];

/// The first place of a word in a table.
fn place_in(table: &[&[u8]], word: &[u8]) -> Option<usize>
    ensures { result ≡ position (λ w. bytes_eq w.now word.now) table.now }
{
    table.iter().position(|entry| *entry == word)
}

/// The place of a sign in the table.
fn sign_place(word: &[u8]) -> Option<usize>
    ensures { result ≡ sign_number word.now }
{
    place_in(&SIGNS, word)
}

/// The number of a sign.
#[tactic(auto, using(crate::proofs::SignNumbers::sign_small))]
fn sign_number(word: &[u8]) -> Option<u8>
    ensures { result ≡ sign_number word.now }
{
    match sign_place(word) {
        None => None,
        Some(place) => Some(place as u8),
    }
}

/// Whether the first `count` bytes are there and are a sign.
fn is_sign(text: &[u8], count: usize) -> bool
    ensures { result ≡ (nat_le count (length text.now) && is_some (sign_number (take count text.now))) }
{
    match text.get(..count) {
        None => false,
        Some(word) => sign_number(word).is_some(),
    }
}

/// How many bytes the longest sign at the front has.
#[tactic(auto, unfolding(crate::specs::Reading::sign_length))]
fn sign_length(text: &[u8]) -> usize
    ensures value { result ≡ sign_length text.now }
    ensures within { result ≤ length text.now }
{
    if is_sign(text, 3) {
        return 3;
    }
    if is_sign(text, 2) {
        return 2;
    }
    if is_sign(text, 1) {
        return 1;
    }
    0
}

/// The sign at the front. E01 where none stands there.
#[tactic(auto, unfolding(crate::specs::Reading::sign_front))]
pub fn sign_front<'a>(text: &'a [u8]) -> Result<Found<'a>, u8>
    ensures { found result ≡ sign_front text.now }
{
    let count = sign_length(text);
    match sign_number(&text[..count]) {
        None => Err(1),
        Some(number) => Ok(Found {
            piece: Piece::Sign(number),
            count,
        }),
    }
}
