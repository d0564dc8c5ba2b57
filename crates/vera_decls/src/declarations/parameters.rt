//! The parameters of a task or function.

ghost use Rattle.std.specs.Prelude.{◌≡◌, ◌≤◌, ◌∷◌, [], List as ListOf};
ghost use Rattle.typing_rules.specs.DataTypes as types;
ghost use Rattle.typing_rules.specs.Declarations as spec;
ghost use Rattle.typing_rules.specs.Scopes.{Name};
ghost use Rattle.vera_decls.specs.Walks.{Walks, CountsTo, parameter_part};
ghost use Rattle.vera_names.specs.NameSets.{SameNames};

use super::counting::{Walked, one_more};
use std::alloc::Global;
use vera_ast::{FrontError, Parameter};
use vera_names::codes::{DECLARED_TWICE, PAST_LIMIT, refused};
use vera_names::data_types::data_type;
use vera_names::name_sets::{has_name, with_name};
use vera_names::scope::{Scope, Scopes};

/// The name of a parameter, behind so many others: there are 64 at most.
fn parameter_name<'a>(
    names: Scope<'a>,
    count: u32,
    at: usize,
    parameter: &'a Parameter,
) -> Result<Walked<'a>, FrontError>
    ensures { (before : ListOf Name) → SameNames before names.entry → Walks (λ w. w.count) (λ w. SameNames (parameter.now.name ∷ before) w.names) count (parameter_part at before parameter.now ∷ []) result }
{
    if has_name(&names, parameter.name.as_slice()) {
        return Err(refused(DECLARED_TWICE, parameter.line));
    }
    if at >= 64 {
        return Err(refused(PAST_LIMIT, parameter.line));
    }
    let count = one_more(count, parameter.line)?;
    let names = with_name(names, parameter.name.as_slice())?;
    Ok(Walked { names, count })
}

/// One parameter: its type, and its name.
fn parameter<'a>(
    alloc: Global,
    scopes: &Scopes<'_>,
    names: Scope<'a>,
    count: u32,
    at: usize,
    parameter: &'a Parameter,
) -> Result<Walked<'a>, FrontError>
    requires { count ≤ 65535 }
    ensures { (before : ListOf Name) → SameNames before names.entry → Walks (λ w. w.count) (λ w. SameNames (parameter.now.name ∷ before) w.names) count (spec.rules parameter.now.line (spec.unit (types.data_type scopes.now parameter.now.of)) ∷ parameter_part at before parameter.now ∷ []) result }
{
    data_type(alloc, scopes, &parameter.of)?;
    parameter_name(names, count, at, parameter)
}

/// The parameters of a task or function, whose types don't see them.
pub fn parameters(
    alloc: Global,
    scopes: &Scopes<'_>,
    count: u32,
    parameters: &[Parameter],
) -> Result<u32, FrontError>
    requires { count ≤ 65535 }
    ensures { CountsTo count (spec.parameter_parts scopes.now 0 [] parameters.now) result }
{
    let mut walked = Walked {
        names: Scope::new(alloc),
        count,
    };
    for (at, next) in parameters.iter().enumerate() {
        let Walked { names, count } = walked;
        walked = parameter(alloc, scopes, names, count, at, next)?;
    }
    Ok(walked.count)
}
