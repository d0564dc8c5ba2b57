//! Names of one scope while its declarations are walked through: which stand so far, and the scope of variables whose
//! types aren't told yet.

ghost use Rattle.std.specs.Prelude.{◌≡◌, ◌++◌, ◌∷◌, [], List as ListOf, map, IfOk};
ghost use Rattle.typing_rules.specs.DataTypes as types;
ghost use Rattle.typing_rules.specs.Declarations as declarations;
ghost use Rattle.typing_rules.specs.Scopes as spec;
ghost use Rattle.vera_names.specs.NameSets.{SameNames};

use crate::scope::Scope;
use four_state::NoMemory;
use std::alloc::Global;
use typing_rules::names::Meaning;
use vera_ast::{Decl, Parameter, Variable};

/// Whether a name stands among these.
pub fn has_name(names: &Scope<'_>, name: &[u8]) -> bool
    ensures { (before : ListOf spec.Name) → SameNames before names.now → result ≡ spec.is_among before name.now }
{
    names.meaning(name).is_some()
}

/// The names with one more.
pub fn with_name<'a>(names: Scope<'a>, name: &'a [u8]) -> Result<Scope<'a>, NoMemory>
    ensures { IfOk result (λ new. (before : ListOf spec.Name) → SameNames before names.entry → SameNames (name.now ∷ before) new) }
{
    names.with(name, Meaning::Later)
}

/// The scope with the names of some variables.
fn with_variables<'a>(scope: Scope<'a>, variables: &'a [Variable]) -> Result<Scope<'a>, NoMemory>
    ensures { IfOk result (λ new. new ≡ scope.entry ++ spec.later (map (λ v. v.name) variables.now)) }
{
    let mut scope = scope;
    for variable in variables {
        scope = scope.with(variable.name.as_slice(), Meaning::Later)?;
    }
    Ok(scope)
}

/// The scope of the variables of some declarations.
pub fn variables_later<'a>(alloc: Global, decls: &'a [Decl]) -> Result<Scope<'a>, NoMemory>
    ensures { IfOk result (λ scope. scope ≡ spec.later (types.names_in decls.now)) }
{
    let mut scope = Scope::new(alloc);
    for decl in decls {
        scope = with_variables(scope, decl.variables.as_slice())?;
    }
    Ok(scope)
}

/// The scope of some parameters.
pub fn parameters_later<'a>(
    alloc: Global,
    parameters: &'a [Parameter],
) -> Result<Scope<'a>, NoMemory>
    ensures { IfOk result (λ scope. scope ≡ spec.later (declarations.parameter_names parameters.now)) }
{
    let mut scope = Scope::new(alloc);
    for parameter in parameters {
        scope = scope.with(parameter.name.as_slice(), Meaning::Later)?;
    }
    Ok(scope)
}

/// The scope of one name.
pub fn name_later<'a>(alloc: Global, name: &'a [u8]) -> Result<Scope<'a>, NoMemory>
    ensures { IfOk result (λ scope. scope ≡ spec.later (name.now ∷ [])) }
{
    Scope::new(alloc).with(name, Meaning::Later)
}
