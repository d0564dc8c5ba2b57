//! The number of a token's kind.

ghost use Rattle.std.specs.Prelude.{◌≡◌, ◌≤◌, ◌<◌, length, get_or, []};
ghost use Rattle.vera_ast.specs.Codes as spec;
ghost use Rattle.vera_ast.specs.Slots as slots;
ghost use Rattle.vera_ast.specs.Words.{reserved_words};

use crate::codes::{FIRST_WORD, NAME, NO_SIGN, NUMBER, STRING_LITERAL, WORD_COUNT};
use crate::token::TokenKind;

/// The reserved words, in the order of their numbers.
static WORDS: [&[u8]; WORD_COUNT] = [
    b"enum",
    b"class",
    b"extends",
    b"virtual",
    b"task",
    b"new",
    b"function",
    b"var",
    b"integer",
    b"bit",
    b"reg",
    b"string",
    b"event",
    b"program",
    b"interface",
    b"input",
    b"output",
    b"CLOCK",
    b"PHOLD",
    b"PSAMPLE",
    b"NHOLD",
    b"NSAMPLE",
    b"coverage_group",
    b"sample_event",
    b"sync",
    b"ANY",
    b"sample",
    b"state",
    b"bad_state",
    b"trans",
    b"bad_trans",
    b"posedge",
    b"void",
    b"if",
    b"else",
    b"while",
    b"repeat",
    b"for",
    b"case",
    b"break",
    b"continue",
    b"return",
    b"terminate",
    b"fork",
    b"join",
    b"all",
    b"any",
    b"none",
    b"soft",
    b"default",
    b"null",
    b"this",
    b"super",
    b"printf",
    b"sprintf",
    b"exit",
    b"flag",
    b"get_cycle",
    b"alloc",
    b"semaphore_get",
    b"semaphore_put",
    b"mailbox_put",
    b"mailbox_get",
    b"region_enter",
    b"region_exit",
    b"trigger",
    b"wait_child",
    b"wait_var",
    b"cast_assign",
    b"WAIT",
    b"NO_WAIT",
    b"COPY_WAIT",
    b"COPY_NO_WAIT",
    b"SEMAPHORE",
    b"MAILBOX",
    b"REGION",
    b"ALL",
    b"ORDER",
    b"CHECK",
    b"ONE_SHOT",
    b"ONE_BLAST",
    b"HAND_SHAKE",
    b"ON",
    b"OFF",
];

/// For each slot the place of a word in the list of reserved words; 255 where the slot has none.
static PLACES: [u8; 256] = [
    255, 81, 255, 38, 16, 255, 255, 255, 255, 255, 255, 57, 255, 22, 255, 255, 24, 71, 255, 255,
    255, 255, 47, 255, 255, 255, 255, 255, 255, 12, 255, 255, 255, 255, 255, 75, 255, 255, 255, 65,
    255, 62, 255, 255, 255, 255, 25, 51, 255, 28, 83, 42, 255, 255, 255, 255, 255, 255, 255, 44,
    255, 23, 255, 255, 255, 55, 30, 255, 255, 255, 255, 255, 255, 255, 255, 11, 255, 17, 46, 21,
    255, 18, 26, 70, 255, 4, 255, 1, 48, 255, 255, 255, 255, 41, 255, 255, 255, 255, 43, 255, 255,
    39, 33, 34, 255, 66, 77, 255, 255, 9, 255, 255, 255, 60, 255, 255, 255, 255, 255, 255, 255,
    255, 255, 255, 255, 255, 255, 37, 255, 35, 255, 255, 255, 54, 255, 255, 255, 255, 255, 79, 3,
    255, 74, 255, 255, 63, 255, 32, 80, 255, 255, 255, 255, 31, 15, 255, 255, 7, 255, 255, 255, 27,
    255, 255, 255, 69, 255, 255, 50, 255, 255, 255, 255, 255, 255, 255, 255, 10, 255, 19, 255, 255,
    255, 13, 14, 255, 255, 56, 255, 255, 64, 255, 76, 255, 255, 36, 255, 255, 255, 255, 255, 61,
    255, 78, 255, 40, 255, 255, 255, 59, 255, 68, 255, 0, 82, 29, 255, 255, 58, 255, 255, 255, 255,
    49, 45, 255, 255, 255, 255, 255, 255, 8, 73, 5, 255, 67, 255, 20, 52, 255, 255, 255, 53, 255,
    255, 2, 6, 255, 255, 255, 255, 72, 255, 255, 255, 255,
];

/// Where the only reserved word that this word can be stands in their list. No two reserved words have one slot, so a
/// word is compared with one word alone.
fn place_of(word: &[u8]) -> u8
    requires not_short { 2 ≤ length word.now }
    requires not_long { length word.now ≤ 14 }
    ensures { result ≡ slots.place_of word.now }
{
    let count = word.len();
    let first = word[0] as usize;
    let middle = word[count / 2] as usize;
    let last_but_one = word[count - 2] as usize;
    PLACES[(50 * first + 13 * middle + 42 * last_but_one + 62 * count) % 256]
}

/// The reserved word at a place of the list, and no bytes where there is none.
fn word_at(place: u8) -> &'static [u8]
    ensures { result.now ≡ get_or reserved_words place [] }
{
    let place = place as usize;
    if place < WORD_COUNT {
        WORDS[place]
    } else {
        b""
    }
}

/// The number of a reserved word, and `NAME` for every other word.
fn word_code(word: &[u8]) -> u8
    ensures { result ≡ spec.word_code word.now }
{
    if word.len() < 2 || word.len() > 14 {
        return NAME;
    }
    let place = place_of(word);
    if word_at(place) == word {
        FIRST_WORD + place
    } else {
        NAME
    }
}

/// The number of a token's kind: of a sign, its number in the table of signs; of a reserved word, its own; and one
/// number each for names, number literals and strings.
pub fn code(kind: &TokenKind) -> u8
    ensures { result ≡ spec.code_of kind.now }
{
    match kind {
        TokenKind::Word(text) => word_code(text.as_slice()),
        TokenKind::Number(_, _) => NUMBER,
        TokenKind::Str(_) => STRING_LITERAL,
        TokenKind::Punct(sign) => { if *sign < NAME { *sign } else { NO_SIGN } }
    }
}
