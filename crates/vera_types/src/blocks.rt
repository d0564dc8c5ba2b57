//! The declarations of a block: the places and types of its variables, and what is in sight inside.

ghost use Rattle.std.specs.Prelude.{◌≡◌, ◌+◌, ◌++◌, ◌∷◌, [], length, map, IfOk};
ghost use Rattle.typing_rules.specs.Answers.{Answers};
ghost use Rattle.typing_rules.specs.Blocks as spec;
ghost use Rattle.typing_rules.specs.Checked as checked;
ghost use Rattle.typing_rules.specs.DataTypes as types;
ghost use Rattle.vera_types.specs.StmtForms as lists;

use four_state::{List, NoMemory};
use std::alloc::Global;
use std::marker::Model;
use typing_rules::names::Meaning;
use vera_ast::{
    Decl, DeclaredVariable, FrontError, TypedDecl, Variable, VariablePlace, VariableType, with,
};
use vera_decls::variables::decl_types;
use vera_names::name_sets::variables_later;
use vera_names::scope::{Scope, Scopes};
use vera_steps::assignments::declared_value;
use vera_values::lists::list_with;
use vera_values::sight::Sight;

/// Whose variables a block declares.
#[derive(Clone, Copy)]
pub enum Owner {
    /// The program's: those of its outermost block, which are seen everywhere.
    Program,
    /// A body's.
    Body,
}

/// The place of a variable by its number.
fn place_at(owner: Owner, number: u32) -> VariablePlace
    ensures { result ≡ lists.place_at owner number }
{
    match owner {
        Owner::Program => VariablePlace::Program(number),
        Owner::Body => VariablePlace::Local(number),
    }
}

/// A variable with its place and type.
#[derive(Drop)]
pub struct Placed<'a> {
    variable: &'a Variable,
    place: VariablePlace,
    of: VariableType,
}

impl<'a> Model for Placed<'a> {
    ghost use Rattle.std.specs.Coded.{codes};
    ghost use Rattle.vera_ast.specs.contracts.tree.expressions.Expr as expr;
    ghost use Rattle.typing_rules.specs.Blocks.{Placed};

    ghost Value = { Placed };

    ghost coded = { Prim.hlevel (codes, expr.the_row.coded) };

    ghost view = { λ p. record { variable = p.variable.now; place = p.place; of = p.of } };
}

/// A declaration whose variables have their places and types.
#[derive(Drop)]
pub struct PlacedDecl<'a> {
    line: u32,
    variables: List<Placed<'a>>,
}

impl<'a> Model for PlacedDecl<'a> {
    ghost use Rattle.std.specs.Coded.{codes};
    ghost use Rattle.vera_ast.specs.contracts.tree.expressions.Expr as expr;
    ghost use Rattle.typing_rules.specs.Blocks.{PlacedDecl};

    ghost Value = { PlacedDecl };

    ghost coded = { Prim.hlevel (codes, expr.the_row.coded) };

    ghost view = { λ d. record { line = d.line; variables = d.variables } };
}

impl<'a> PlacedDecl<'a> {
    /// Its variables, in text order.
    fn variables(&self) -> &[Placed<'a>]
        ensures { result.now ≡ self.now.variables }
    {
        self.variables.as_slice()
    }
}

/// A count as a number. More than there are numbers aren't held in memory.
pub fn number_of(count: usize) -> Result<u32, NoMemory>
    ensures { IfOk result (λ number. number ≡ count) }
{
    if count > 0xffff_ffff {
        return Err(NoMemory);
    }
    Ok(count as u32)
}

/// The number so many behind another one. More than there are numbers aren't held in memory.
pub fn number_behind(first: u32, count: usize) -> Result<u32, NoMemory>
    ensures { IfOk result (λ number. number ≡ first + count) }
{
    if count > 0xffff_ffff {
        return Err(NoMemory);
    }
    let number = u64::from(first) + count as u64;
    if number > 0xffff_ffff {
        return Err(NoMemory);
    }
    Ok(number as u32)
}

/// A variable with its number and type.
fn placed_at<'a>(owner: Owner, number: u32, variable: &'a Variable, of: VariableType) -> Placed<'a>
    ensures { result ≡ record { variable = variable.now; place = lists.place_at owner number; of = of } }
{
    Placed {
        variable,
        place: place_at(owner, number),
        of,
    }
}

/// Variables numbered from a number on, in text order.
fn placed_variables<'a>(
    alloc: Global,
    owner: Owner,
    first: u32,
    variables: &'a [Variable],
    types: &[VariableType],
) -> Result<List<Placed<'a>>, NoMemory>
    ensures { IfOk result (λ done. done ≡ spec.placed (lists.place_at owner) first variables.now types.now) }
{
    let mut done = List::empty(alloc);
    for (at, variable) in variables.iter().enumerate() {
        match types.get(at) {
            Some(of) => {
                let number = number_behind(first, at)?;
                done.push(placed_at(owner, number, variable, *of))?;
            }
            None => return Ok(done),
        }
    }
    Ok(done)
}

/// A declaration whose variables are numbered from a number on.
fn placed_decl<'a>(
    alloc: Global,
    owner: Owner,
    number: u32,
    decl: &'a Decl,
    types: &List<VariableType>,
) -> Result<PlacedDecl<'a>, NoMemory>
    ensures { IfOk result (λ done. done ≡ record { line = decl.now.line; variables = spec.placed (lists.place_at owner) number decl.now.variables types.now }) }
{
    let variables = placed_variables(
        alloc,
        owner,
        number,
        decl.variables.as_slice(),
        types.as_slice(),
    )?;
    Ok(PlacedDecl {
        line: decl.line,
        variables,
    })
}

/// The variables of declarations, numbered from a number on, in text order.
fn placed_decls<'a>(
    alloc: Global,
    owner: Owner,
    first: u32,
    decls: &'a [Decl],
    types: &[List<VariableType>],
) -> Result<List<PlacedDecl<'a>>, NoMemory>
    ensures { IfOk result (λ done. done ≡ spec.placed_decls (lists.place_at owner) first decls.now types.now) }
{
    let mut done = List::empty(alloc);
    let mut number = first;
    for (at, decl) in decls.iter().enumerate() {
        match types.get(at) {
            Some(of) => {
                done.push(placed_decl(alloc, owner, number, decl, of)?)?;
                number = number_behind(number, of.len())?;
            }
            None => return Ok(done),
        }
    }
    Ok(done)
}

/// The types of variables, where these names of theirs are in sight beside the names around them.
fn types_among<'a>(
    alloc: Global,
    later: &'a Scope<'a>,
    outer: &'a Scopes<'a>,
    decls: &[Decl],
) -> Result<List<List<VariableType>>, FrontError>
    ensures { Answers (types.decl_types (later.now ∷ outer.now) [] decls.now) result }
{
    let scopes = Scopes::inside(alloc, later, outer)?;
    decl_types(alloc, &scopes, decls)
}

/// The variables of declarations, where these scopes surround them; they are in sight in all of them.
#[tactic(auto, unfolding(vera_names::proofs::StepsOpened::rules, typing_rules::specs::Blocks::declared_in))]
pub fn declared_in<'a>(
    alloc: Global,
    outer: &Scopes<'_>,
    owner: Owner,
    first: u32,
    decls: &'a [Decl],
) -> Result<List<PlacedDecl<'a>>, FrontError>
    ensures { Answers (spec.declared_in outer.now (lists.place_at owner) first decls.now) result }
{
    let later = variables_later(alloc, decls)?;
    let types = types_among(alloc, &later, outer, decls)?;
    Ok(placed_decls(alloc, owner, first, decls, types.as_slice())?)
}

/// A scope with more variables.
fn with_variables<'a>(scope: Scope<'a>, variables: &[Placed<'a>]) -> Result<Scope<'a>, NoMemory>
    ensures { IfOk result (λ new. new ≡ scope.entry ++ map spec.name_of variables.now) }
{
    let mut scope = scope;
    for placed in variables {
        scope = scope.with(
            placed.variable.name.as_slice(),
            Meaning::Variable(placed.place, placed.of),
        )?;
    }
    Ok(scope)
}

/// The variables of declarations, as the names of a scope.
pub fn scope_of<'a>(alloc: Global, decls: &[PlacedDecl<'a>]) -> Result<Scope<'a>, NoMemory>
    ensures { IfOk result (λ scope. scope ≡ spec.scope_of decls.now) }
{
    let mut scope = Scope::new(alloc);
    for decl in decls {
        scope = with_variables(scope, decl.variables())?;
    }
    Ok(scope)
}

/// A block's own variables, behind those that are in sight.
#[tactic(auto, unfolding(vera_names::proofs::StepsOpened::rules, typing_rules::specs::Blocks::local_decls))]
pub fn local_decls<'a>(
    alloc: Global,
    sight: &Sight<'_>,
    decls: &'a [Decl],
) -> Result<List<PlacedDecl<'a>>, FrontError>
    ensures { Answers (spec.local_decls sight.now decls.now) result }
{
    declared_in(alloc, sight.scopes(), Owner::Body, sight.slots(), decls)
}

#[tactic(auto, unfolding(vera_names::proofs::StepsOpened::rules, typing_rules::specs::Blocks::declared_variable))]
fn declared_variable(
    alloc: Global,
    sight: &Sight<'_>,
    placed: &Placed<'_>,
) -> Result<DeclaredVariable, FrontError>
    ensures { Answers (spec.declared_variable sight.now placed.now) result }
{
    let variable = placed.variable;
    let value = declared_value(alloc, sight, variable.line, placed.of, &variable.value)?;
    Ok(DeclaredVariable {
        place: placed.place,
        of: placed.of,
        value,
    })
}

fn declared_variables(
    alloc: Global,
    sight: &Sight<'_>,
    variables: &[Placed<'_>],
) -> Result<List<DeclaredVariable>, FrontError>
    ensures { Answers (checked.each (spec.declared_variable sight.now) variables.now) result }
{
    let mut typed = List::empty(alloc);
    for variable in variables {
        let (before, next) = with(typed, declared_variable(alloc, sight, variable))?;
        typed = list_with(before, next)?;
    }
    Ok(typed)
}

/// A declaration with values is a statement.
#[tactic(auto, unfolding(vera_names::proofs::StepsOpened::rules, typing_rules::specs::Blocks::typed_decl))]
fn typed_decl(
    alloc: Global,
    sight: &Sight<'_>,
    decl: &PlacedDecl<'_>,
) -> Result<TypedDecl, FrontError>
    ensures { Answers (spec.typed_decl sight.now decl.now) result }
{
    let vars = declared_variables(alloc, sight, decl.variables())?;
    Ok(TypedDecl {
        line: decl.line,
        vars,
    })
}

pub fn typed_decls(
    alloc: Global,
    sight: &Sight<'_>,
    decls: &[PlacedDecl<'_>],
) -> Result<List<TypedDecl>, FrontError>
    ensures { Answers (spec.typed_decls sight.now decls.now) result }
{
    let mut typed = List::empty(alloc);
    for decl in decls {
        let (before, next) = with(typed, typed_decl(alloc, sight, decl))?;
        typed = list_with(before, next)?;
    }
    Ok(typed)
}
