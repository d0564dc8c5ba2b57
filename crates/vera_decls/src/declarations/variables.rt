//! The declarations of a block: their types and names.

ghost use Rattle.std.specs.Prelude.{◌≡◌, ◌≤◌, ◌++◌, ◌∷◌, [], List as ListOf, Ok as OkOf, map};
ghost use Rattle.vera_ast.specs.declared.tree.declarations.DataType.{DataType as DataTypeOf};
ghost use Rattle.typing_rules.specs.DataTypes as types;
ghost use Rattle.typing_rules.specs.Declarations as spec;
ghost use Rattle.typing_rules.specs.Scopes.{Name};
ghost use Rattle.vera_decls.specs.Walks.{Walks, CountsTo, variable_part};
ghost use Rattle.vera_names.specs.NameSets.{SameNames};

use super::counting::{Walked, one_more};
use crate::variables::variable_type;
use std::alloc::Global;
use vera_ast::{Decl, FrontError, ValueType, Variable};
use vera_names::data_types::data_type;
use vera_names::name_sets::with_name;
use vera_names::scope::{Scope, Scopes};

/// One variable of a declared type.
fn variable<'a>(
    alloc: Global,
    scopes: &Scopes<'_>,
    names: Scope<'a>,
    count: u32,
    of: ValueType,
    variable: &'a Variable,
) -> Result<Walked<'a>, FrontError>
    ensures { (d : DataTypeOf) → types.data_type scopes.now d ≡ OkOf of → (before : ListOf Name) → SameNames before names.entry → Walks (λ w. w.count) (λ w. SameNames (variable.now.name ∷ before) w.names) count (variable_part scopes.now before d variable.now ∷ []) result }
{
    variable_type(alloc, scopes, &names, of, variable)?;
    let count = one_more(count, variable.line)?;
    let names = with_name(names, variable.name.as_slice())?;
    Ok(Walked { names, count })
}

/// The variables of one declaration.
fn variables<'a>(
    alloc: Global,
    scopes: &Scopes<'_>,
    before: Scope<'a>,
    count: u32,
    of: ValueType,
    variables: &'a [Variable],
) -> Result<Walked<'a>, FrontError>
    requires { count ≤ 65535 }
    ensures { (d : DataTypeOf) → types.data_type scopes.now d ≡ OkOf of → (stand : ListOf Name) → SameNames stand before.entry → Walks (λ w. w.count) (λ w. SameNames (map (λ v. v.name) variables.now ++ stand) w.names) count (spec.variable_parts scopes.now stand d variables.now) result }
{
    let mut walked = Walked {
        names: before,
        count,
    };
    for next in variables {
        let Walked { names, count } = walked;
        walked = variable(alloc, scopes, names, count, of, next)?;
    }
    Ok(walked)
}

/// One declaration: its type, and its variables.
fn decl<'a>(
    alloc: Global,
    scopes: &Scopes<'_>,
    names: Scope<'a>,
    count: u32,
    decl: &'a Decl,
) -> Result<Walked<'a>, FrontError>
    requires { count ≤ 65535 }
    ensures { (before : ListOf Name) → SameNames before names.entry → Walks (λ w. w.count) (λ w. SameNames (types.names_of decl.now ++ before) w.names) count (spec.rules decl.now.line (spec.unit (types.data_type scopes.now decl.now.of)) ∷ spec.variable_parts scopes.now before decl.now.of decl.now.variables) result }
{
    let of = data_type(alloc, scopes, &decl.of)?;
    variables(alloc, scopes, names, count, of, decl.variables.as_slice())
}

/// The declarations of a block, whose variables are in sight in these scopes already.
pub fn decls(
    alloc: Global,
    scopes: &Scopes<'_>,
    count: u32,
    decls: &[Decl],
) -> Result<u32, FrontError>
    requires { count ≤ 65535 }
    ensures { CountsTo count (spec.decl_parts scopes.now [] decls.now) result }
{
    let mut walked = Walked {
        names: Scope::new(alloc),
        count,
    };
    for next in decls {
        let Walked { names, count } = walked;
        walked = decl(alloc, scopes, names, count, next)?;
    }
    Ok(walked.count)
}
