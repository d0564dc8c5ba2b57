ghost use Rattle.std.specs.Prelude.{◌≡◌, ℕ, ◌==◌, ◌<◌, OnOk, Some, option_map, if◌then◌else◌};
ghost use Rattle.store_api.specs.declared.loc.Loc.TheVariants as locs;
ghost use Rattle.store_api.specs.declared.val.Val.TheVariants.{Bits};
ghost use Rattle.store_api.specs.Places.{nothing_written};
ghost use Rattle.slice_core.specs.Walks.{put_at};
ghost use Rattle.vera_meaning.specs.Expressions.{place_of};
ghost use Rattle.plain_run.specs.Values.{contents_of, value_at, found_at, written};

use four_state::{NoMemory, Vec4};
use std::alloc::Global;
use vera_ast::VariablePlace;

/// The values of program variables, and the latest samples of signals, by their numbers. What was never written or
/// sampled has none.
#[derive(Drop)]
pub struct Values {
    pub variables: Vec<Option<Vec4>>,
    pub samples: Vec<Option<Vec4>>,
}

impl Values {
    /// Nothing was written. It takes no memory.
    pub fn new(alloc: Global) -> Values
        ensures { contents_of result ≡ nothing_written }
    {
        Values {
            variables: Vec::new(alloc),
            samples: Vec::new(alloc),
        }
    }

    /// The value of a variable, where it was written. One that isn't built has none.
    pub fn variable(&self, place: VariablePlace) -> Option<Vec4>
        ensures { option_map Bits result ≡ found_at (contents_of self.now) (place_of place) }
    {
        match place {
            VariablePlace::Program(number) => at(self.variables.as_slice(), number),
            _ => None,
        }
    }

    /// The latest sample of a signal, where there is one.
    pub fn sample(&self, signal: u32) -> Option<Vec4>
        ensures { option_map Bits result ≡ contents_of self.now (locs.Sample signal) }
    {
        at(self.samples.as_slice(), signal)
    }

    /// Writes a variable, where it is built. It takes memory where the variable's number is above all that were written.
    pub fn set_variable(&mut self, place: VariablePlace, value: Vec4) -> Result<(), NoMemory>
        ensures { OnOk result (contents_of self.new ≡ written (place_of place) value (contents_of self.old)) }
    {
        match place {
            VariablePlace::Program(number) => put(&mut self.variables, number as usize, value),
            _ => Ok(()),
        }
    }

    /// Takes a sample of a signal. It takes memory where the signal's number is above all that were sampled.
    pub fn set_sample(&mut self, signal: usize, value: Vec4) -> Result<(), NoMemory>
        requires { signal < usize.MAX }
        ensures { OnOk result (contents_of self.new ≡ put_at (contents_of self.old) (locs.Sample signal) (Bits value)) }
    {
        put(&mut self.samples, signal, value)
    }
}

/// The value with this number, where there is one.
fn at(values: &[Option<Vec4>], number: u32) -> Option<Vec4>
    ensures { result ≡ value_at values.now number }
{
    values.get(number as usize).copied().flatten()
}

/// Puts a value at a number.
fn put(values: &mut Vec<Option<Vec4>>, number: usize, value: Vec4) -> Result<(), NoMemory>
    requires { number < usize.MAX }
    ensures { OnOk result ((n : ℕ) → value_at values.new.items n ≡ (if n == number then Some value else value_at values.old.items n)) }
{
    if number >= values.len() {
        values.resize(number + 1, None)?;
    }
    values[number] = Some(value);
    Ok(())
}
