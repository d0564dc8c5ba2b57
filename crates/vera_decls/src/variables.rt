//! The types of declared variables.

ghost use Rattle.std.specs.Prelude.{◌≡◌, ℕ, ◌++◌, [], List as ListOf, map};
ghost use Rattle.vera_ast.specs.declared.tree.declarations.Bracket.TheVariants as bracket;
ghost use Rattle.typing_rules.specs.Answers.{Answers};
ghost use Rattle.typing_rules.specs.DataTypes as spec;
ghost use Rattle.typing_rules.specs.Scopes.{Name};
ghost use Rattle.vera_decls.specs.Walks.{AnswersBy};
ghost use Rattle.vera_names.specs.NameSets.{SameNames};

use four_state::List;
use std::alloc::Global;
use vera_ast::{ArrayLength, Bracket, Decl, Expr, FrontError, ValueType, Variable, VariableType};
use vera_names::codes::{DECLARED_TWICE, PAST_LIMIT, WRONG_TYPE, refused};
use vera_names::constants::constant;
use vera_names::data_types::data_type;
use vera_names::name_sets::{has_name, with_name};
use vera_names::scope::{Scope, Scopes};

/// How many elements a number between brackets declares.
fn fixed_elements(
    alloc: Global,
    scopes: &Scopes<'_>,
    count: &Expr,
) -> Result<Option<u32>, FrontError>
    ensures { (line : ℕ) → Answers (spec.elements scopes.now line (bracket.Fixed count.now)) result }
{
    let count = constant(alloc, scopes, count)?;
    Ok(Some(count))
}

/// How many elements are declared, where it is an array.
#[tactic(auto, unfolding(typing_rules::specs::Checked::refuse))]
fn elements(
    alloc: Global,
    scopes: &Scopes<'_>,
    line: u32,
    bracket: &Bracket,
) -> Result<Option<u32>, FrontError>
    ensures { Answers (spec.elements scopes.now line bracket.now) result }
{
    match bracket {
        Bracket::None => Ok(None),
        Bracket::Fixed(count) => fixed_elements(alloc, scopes, count),
        Bracket::Keys => Err(refused(WRONG_TYPE, line)),
    }
}

/// Whether arrays hold values of this type: vectors, strings, values of enumerations, and objects.
fn is_element_type(of: ValueType) -> bool
    ensures { result ≡ spec.is_element_type of }
{
    !matches!(of, ValueType::Event | ValueType::Group(_))
}

/// Whether it is an array of what arrays don't hold.
fn is_wrong_array(of: ValueType, count: Option<u32>) -> bool
    ensures { result ≡ spec.is_wrong_array of count }
{
    match count {
        Some(_) => !is_element_type(of),
        None => false,
    }
}

/// Whether it is an array without elements, or with more than 65,536.
fn is_wrong_length(count: Option<u32>) -> bool
    ensures { result ≡ spec.is_wrong_length count }
{
    match count {
        Some(count) => count == 0 || count > 65536,
        None => false,
    }
}

/// The type of a variable of a declared type, where it is an array of so many elements or none.
fn variable_of(of: ValueType, count: Option<u32>) -> VariableType
    ensures { result ≡ spec.variable_of of count }
{
    match count {
        Some(count) => VariableType::Array(of, ArrayLength::Fixed(count)),
        None => VariableType::Value(of),
    }
}

/// The type of a variable, behind variables with these names in its scope.
pub fn variable_type(
    alloc: Global,
    scopes: &Scopes<'_>,
    names: &Scope<'_>,
    of: ValueType,
    variable: &Variable,
) -> Result<VariableType, FrontError>
    ensures { (before : ListOf Name) → SameNames before names.now → Answers (spec.variable_type scopes.now before of variable.now) result }
{
    let count = elements(alloc, scopes, variable.line, &variable.bracket)?;
    if has_name(names, variable.name.as_slice()) {
        return Err(refused(DECLARED_TWICE, variable.line));
    }
    if is_wrong_array(of, count) {
        return Err(refused(WRONG_TYPE, variable.line));
    }
    if is_wrong_length(count) {
        return Err(refused(PAST_LIMIT, variable.line));
    }
    Ok(variable_of(of, count))
}

/// The types of the variables of one declaration, and the names in their scope with theirs.
#[derive(Drop)]
struct Told<'a> {
    names: Scope<'a>,
    types: List<VariableType>,
}

/// The types of the variables of one declaration, behind variables with these names in its scope.
fn variable_types<'a>(
    alloc: Global,
    scopes: &Scopes<'_>,
    before: Scope<'a>,
    of: ValueType,
    variables: &'a [Variable],
) -> Result<Told<'a>, FrontError>
    ensures { (stand : ListOf Name) → SameNames stand before.entry → AnswersBy (λ told. told.types) (λ told. SameNames (map (λ v. v.name) variables.now ++ stand) told.names) (spec.variable_types scopes.now stand of variables.now) result }
{
    let mut names = before;
    let mut types = Vec::new(alloc);
    for variable in variables {
        let next = variable_type(alloc, scopes, &names, of, variable)?;
        types.push(next)?;
        names = with_name(names, variable.name.as_slice())?;
    }
    Ok(Told {
        names,
        types: List::of(types),
    })
}

/// The types of the variables of each declaration.
pub fn decl_types(
    alloc: Global,
    scopes: &Scopes<'_>,
    decls: &[Decl],
) -> Result<List<List<VariableType>>, FrontError>
    ensures { Answers (spec.decl_types scopes.now [] decls.now) result }
{
    let mut names = Scope::new(alloc);
    let mut all = Vec::new(alloc);
    for decl in decls {
        let of = data_type(alloc, scopes, &decl.of)?;
        let told = variable_types(alloc, scopes, names, of, decl.variables.as_slice())?;
        names = told.names;
        all.push(told.types)?;
    }
    Ok(List::of(all))
}
