//! The kinds of bytes, and runs of them.

ghost use Rattle.std.specs.Prelude.{◌≡◌, ◌≤◌, length, slice_index};
ghost use Rattle.vera_lex.specs.Bytes as spec;
ghost use Rattle.vera_lex.specs.Forms.{in_line};
ghost use Rattle.vera_lex.specs.Bytes.{run};

pub fn is_blank(byte: u8) -> bool
    ensures { result ≡ spec.is_blank byte }
{
    byte == 9 || byte == 10 || byte == 13 || byte == 32
}

pub fn is_space(byte: u8) -> bool
    ensures { result ≡ spec.is_space byte }
{
    byte == 9 || byte == 13 || byte == 32
}

pub fn is_digit(byte: u8) -> bool
    ensures { result ≡ spec.is_digit byte }
{
    48 <= byte && byte <= 57
}

pub fn is_letter(byte: u8) -> bool
    ensures { result ≡ spec.is_letter byte }
{
    (65 <= byte && byte <= 90) || (97 <= byte && byte <= 122)
}

/// A letter or `_`.
pub fn opens_word(byte: u8) -> bool
    ensures { result ≡ spec.opens_word byte }
{
    is_letter(byte) || byte == 95
}

fn in_word(byte: u8) -> bool
    ensures { result ≡ spec.in_word byte }
{
    opens_word(byte) || is_digit(byte)
}

fn in_decimal(byte: u8) -> bool
    ensures { result ≡ spec.in_decimal byte }
{
    is_digit(byte) || byte == 95
}

/// `b`, `o`, `d` or `h`, in either case.
pub fn is_base(byte: u8) -> bool
    ensures { result ≡ spec.is_base byte }
{
    byte == 98
        || byte == 66
        || byte == 111
        || byte == 79
        || byte == 100
        || byte == 68
        || byte == 104
        || byte == 72
}

/// The end of a line, for a string.
pub fn ends_line(byte: u8) -> bool
    ensures { result ≡ spec.ends_line byte }
{
    byte == 10 || byte == 13
}

/// What may follow a `\`.
pub fn is_escaped(byte: u8) -> bool
    ensures { result ≡ spec.is_escaped byte }
{
    byte == 110 || byte == 116 || byte == 92 || byte == 34
}

/// How many letters, digits and `_` the bytes begin with.
pub fn word_length(bytes: &[u8]) -> usize
    ensures value { result ≡ run spec.in_word bytes.now }
    ensures within { result ≤ length bytes.now }
{
    for (i, byte) in bytes.iter().enumerate() {
        if !in_word(*byte) {
            return i;
        }
    }
    bytes.len()
}

/// How many digits and `_` the bytes begin with.
pub fn decimal_length(bytes: &[u8]) -> usize
    ensures value { result ≡ run spec.in_decimal bytes.now }
    ensures within { result ≤ length bytes.now }
{
    for (i, byte) in bytes.iter().enumerate() {
        if !in_decimal(*byte) {
            return i;
        }
    }
    bytes.len()
}

/// How many blanks that end no line the bytes begin with.
pub fn space_length(bytes: &[u8]) -> usize
    ensures value { result ≡ run spec.is_space bytes.now }
    ensures within { result ≤ length bytes.now }
{
    for (i, byte) in bytes.iter().enumerate() {
        if !is_space(*byte) {
            return i;
        }
    }
    bytes.len()
}

/// The byte at a place, or 0 past the end.
pub fn byte_at(bytes: &[u8], at: usize) -> u8
    ensures { result ≡ slice_index bytes.now at }
{
    match bytes.get(at) {
        Some(byte) => *byte,
        None => 0,
    }
}

/// How many bytes the line has that the bytes begin with, without its newline.
pub fn line_length(bytes: &[u8]) -> usize
    ensures value { result ≡ run in_line bytes.now }
    ensures within { result ≤ length bytes.now }
{
    for (i, byte) in bytes.iter().enumerate() {
        if *byte == 10 {
            return i;
        }
    }
    bytes.len()
}
