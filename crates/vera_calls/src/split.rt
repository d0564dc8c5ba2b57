//! The arguments of a built-in call, taken apart: its values and its variables, each in their order.

ghost use Rattle.std.specs.Prelude.{◌≡◌, ◌++◌, ◌∷◌, [], IfOk};
ghost use Rattle.vera_calls.specs.Splitting as spec;

use four_state::{List, NoMemory};
use std::alloc::Global;
use typing_rules::head::{Argument, Typed};
use vera_ast::{TypedExpr, TypedPlace, with};
use vera_values::heads::place;

/// What a built-in call takes of its arguments.
#[derive(Drop)]
pub struct Split {
    /// The values in front of a format.
    pub values: List<TypedExpr>,
    /// The values behind it.
    pub behind: List<TypedExpr>,
    /// The variables.
    pub places: List<TypedPlace>,
    /// Whether a format was met.
    pub is_behind: bool,
}

impl Split {
    fn with_value(self, value: Typed) -> Result<Split, NoMemory>
        ensures { IfOk result (λ new. new ≡ spec.put_value self value) }
    {
        let mut split = self;
        let pushed = if split.is_behind {
            split.behind.push(value.expr)
        } else {
            split.values.push(value.expr)
        };
        let (split, ()) = with(split, pushed)?;
        Ok(split)
    }

    fn with_place(self, target: TypedPlace) -> Result<Split, NoMemory>
        ensures { IfOk result (λ new. new ≡ record self { places = self.places ++ target ∷ [] }) }
    {
        let mut split = self;
        let pushed = split.places.push(target);
        let (split, ()) = with(split, pushed)?;
        Ok(split)
    }

    /// With one more argument.
    fn with(self, argument: Argument) -> Result<Split, NoMemory>
        ensures { IfOk result (λ new. new ≡ spec.put self argument) }
    {
        match argument {
            Argument::Value(value) => self.with_value(value),
            Argument::Whole(whole) => self.with_place(place(whole)),
            Argument::Literal(_) => Ok(Split {
                is_behind: true,
                ..self
            }),
            _ => Ok(self),
        }
    }
}

/// Arguments, taken apart.
pub fn taken_apart(alloc: Global, arguments: Vec<Argument>) -> Result<Split, NoMemory>
    ensures { IfOk result (λ split. split ≡ spec.split_from spec.nothing arguments.items) }
{
    let mut split = Split {
        values: List::empty(alloc),
        behind: List::empty(alloc),
        places: List::empty(alloc),
        is_behind: false,
    };
    for argument in arguments {
        split = split.with(argument)?;
    }
    Ok(split)
}

/// One list behind the other.
pub fn joined<T: Drop>(first: List<T>, second: List<T>) -> Result<List<T>, NoMemory>
    ensures { IfOk result (λ all. all ≡ first ++ second) }
{
    let mut all = first.into_vec();
    let mut more = second.into_vec();
    all.append(&mut more)?;
    Ok(List::of(all))
}
