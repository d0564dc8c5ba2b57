//! Numbers among the words, and the numbers that options take.
ghost use Rattle.std.specs.Prelude.{◌≡◌};
ghost use Rattle.run_words.specs.Words as spec;

use crate::modes::OptionName;

/// The number of one to ten decimal digits.
pub fn number(word: &str) -> Option<u64>
    ensures { result ≡ spec.number_of word.now }
{
    if word.len() < 1 || word.len() > 10 || word.as_bytes()[0] == b'+' {
        return None;
    }
    match word.parse::<u64>() {
        Ok(number) => Some(number),
        Err(_) => None,
    }
}

/// The number that a word gives to an option, where it is in the option's range.
pub fn number_for(name: OptionName, word: &str) -> Option<u64>
    ensures { result ≡ spec.number_for name word.now }
{
    match number(word) {
        Some(number) if number >= least(name) && number <= most(name) => Some(number),
        _ => None,
    }
}

/// The least number that an option takes.
fn least(name: OptionName) -> u64
    ensures { result ≡ spec.least name }
{
    match name {
        OptionName::Cycles => 0,
        OptionName::Budget => 1,
        OptionName::Turns => 1,
    }
}

/// The greatest number that an option takes.
fn most(name: OptionName) -> u64
    ensures { result ≡ spec.most name }
{
    match name {
        OptionName::Cycles => 1_000_000,
        OptionName::Budget => 1_000_000_000,
        OptionName::Turns => 1_000_000_000,
    }
}

/// The number that counts where an option isn't given.
pub fn usual(name: OptionName) -> u64
    ensures { result ≡ spec.usual name }
{
    match name {
        OptionName::Cycles => 1_000,
        OptionName::Budget => 1_000_000,
        OptionName::Turns => 1_000_000,
    }
}
