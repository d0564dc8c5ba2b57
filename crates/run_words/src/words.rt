//! What one word is by itself.
ghost use Rattle.std.specs.Prelude.{◌≡◌, codes};
ghost use Rattle.std.specs.Str.{bytes_eq};
ghost use Rattle.std.specs.Option.{option_map};
ghost use Rattle.run_words.specs.Views.{seen_word};
ghost use Rattle.run_words.specs.Words as spec;

use crate::modes::{Mode, OptionName};

/// What a word is by itself.
#[derive(Clone, Copy)]
pub enum Word<'a> {
    /// `--`, which ends the options.
    End,
    /// `--name`, whose value is the word behind it.
    Named(OptionName),
    /// `--name=value`.
    Set(OptionName, &'a str),
    /// The mode, or a file's name.
    Operand(&'a str),
    /// A word that can't stand anywhere but behind `--name`.
    Other,
}

/// What a word is by itself.
pub fn word_of<'a>(word: &'a str) -> Word<'a>
    ensures { seen_word result ≡ spec.word_of word.now }
{
    if word == "--" {
        return Word::End;
    }
    match option_in(word) {
        Some(option) => option,
        None if is_file_name(word) => Word::Operand(word),
        None => Word::Other,
    }
}

/// `--name`, or `--name=value` up to its first `=`.
fn option_in<'a>(word: &'a str) -> Option<Word<'a>>
    ensures { option_map seen_word result ≡ spec.option_in word.now }
{
    match word.split_once('=') {
        Some((name, value)) => set(name, value),
        None => named(word),
    }
}

fn set<'a>(name: &str, value: &'a str) -> Option<Word<'a>>
    ensures { option_map seen_word result ≡ spec.set name.now value.now }
{
    match option_named(name) {
        Some(option) => Some(Word::Set(option, value)),
        None => None,
    }
}

fn named<'a>(name: &str) -> Option<Word<'a>>
    ensures { option_map seen_word result ≡ spec.named name.now }
{
    match option_named(name) {
        Some(option) => Some(Word::Named(option)),
        None => None,
    }
}

/// The option of this name, which begins with two dashes.
fn option_named(name: &str) -> Option<OptionName>
    ensures { result ≡ spec.option_named name.now }
{
    if name == "--cycles" {
        return Some(OptionName::Cycles);
    }
    if name == "--budget" {
        return Some(OptionName::Budget);
    }
    if name == "--turns" {
        return Some(OptionName::Turns);
    }
    None
}

/// The mode of this name.
pub fn mode_named(name: &str) -> Option<Mode>
    ensures { result ≡ spec.mode_named name.now }
{
    if name == "check" {
        return Some(Mode::Check);
    }
    if name == "plain" {
        return Some(Mode::Plain);
    }
    None
}

/// Whether a word is a file name: 1 to 255 bytes, of which the first is no dash.
pub fn is_file_name(word: &str) -> bool
    ensures { result ≡ spec.is_file_name word.now }
{
    word.len() >= 1 && word.len() <= 255 && word.as_bytes()[0] != b'-'
}
