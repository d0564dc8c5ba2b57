//! The whole walk: the number of programs, then the declarations, then the bodies, each in text order.

ghost use Rattle.std.specs.Prelude.{◌≡◌, ◌∷◌, []};
ghost use Rattle.typing_rules.specs.Answers.{Answers};
ghost use Rattle.typing_rules.specs.Bodies as bodies;
ghost use Rattle.typing_rules.specs.Checked as checked;
ghost use Rattle.typing_rules.specs.DataTypes as types;
ghost use Rattle.typing_rules.specs.Declarations as names;
ghost use Rattle.typing_rules.specs.FileNames as files;
ghost use Rattle.typing_rules.specs.Scopes as scopes_of;
ghost use Rattle.typing_rules.specs.Typing as spec;
ghost use Rattle.vera_types.specs.OutlineForms as lists;

use crate::blocks::{Owner, PlacedDecl, declared_in, scope_of};
use crate::bodies::item_of;
use crate::outlines::outline_of;
use four_state::List;
use std::alloc::Global;
use vera_ast::{FrontError, Item, Program, Tree, TypedItem, TypedTree, with};
use vera_decls::declarations::declarations;
use vera_decls::file_names::{file_scope, one_program};
use vera_names::name_sets::variables_later;
use vera_names::outline::FileOutline;
use vera_names::scope::{Scope, Scopes};
use vera_values::lists::list_with;

/// The walk through the declarations, where these names of the program's variables stand inside the names around them.
fn declared_behind<'a>(
    alloc: Global,
    later: &'a Scope<'a>,
    outer: &'a Scopes<'a>,
    items: &[Item],
) -> Result<(), FrontError>
    ensures { Answers (names.declarations (later.now ∷ outer.now) items.now) result }
{
    let scopes = Scopes::inside(alloc, later, outer)?;
    declarations(alloc, &scopes, items)
}

/// The walk through the declarations of a file with this program.
fn declared_among(
    alloc: Global,
    outer: &Scopes<'_>,
    main: &Program,
    items: &[Item],
) -> Result<(), FrontError>
    ensures { Answers (names.declarations (scopes_of.later (types.names_in main.now.block.decls) ∷ outer.now) items.now) result }
{
    let later = variables_later(alloc, main.block.decls.as_slice())?;
    declared_behind(alloc, &later, outer, items)
}

/// The items with their bodies, in text order.
fn typed_items(
    alloc: Global,
    outline: &FileOutline<'_>,
    scopes: &Scopes<'_>,
    variables: &[PlacedDecl<'_>],
    items: &[Item],
) -> Result<List<TypedItem>, FrontError>
    ensures { Answers (checked.each (bodies.item_of outline.now scopes.now variables.now) items.now) result }
{
    let mut typed = List::empty(alloc);
    for item in items {
        let next = item_of(alloc, outline, scopes, variables, item);
        let (before, next) = with(typed, next)?;
        typed = list_with(before, next)?;
    }
    Ok(typed)
}

/// The items, where the program's variables are in sight already.
#[tactic(auto, unfolding(vera_names::proofs::StepsOpened::rules, crate::specs::OutlineForms::items_in))]
fn items_in(
    alloc: Global,
    scopes: &Scopes<'_>,
    variables: &[PlacedDecl<'_>],
    items: &[Item],
) -> Result<List<TypedItem>, FrontError>
    ensures { Answers (lists.items_in scopes.now variables.now items.now) result }
{
    let outline = outline_of(alloc, scopes, items)?;
    typed_items(alloc, &outline, scopes, variables, items)
}

/// The items, where this scope of the program's variables stands inside the names around them.
fn items_among<'a>(
    alloc: Global,
    scope: &'a Scope<'a>,
    outer: &'a Scopes<'a>,
    variables: &[PlacedDecl<'_>],
    items: &[Item],
) -> Result<List<TypedItem>, FrontError>
    ensures { Answers (lists.items_in (scope.now ∷ outer.now) variables.now items.now) result }
{
    let scopes = Scopes::inside(alloc, scope, outer)?;
    items_in(alloc, &scopes, variables, items)
}

/// The items of a file with this program, whose variables are numbered in text order and seen everywhere.
#[tactic(auto, unfolding(vera_names::proofs::StepsOpened::rules, crate::specs::OutlineForms::items_behind))]
fn items_behind(
    alloc: Global,
    outer: &Scopes<'_>,
    main: &Program,
    items: &[Item],
) -> Result<List<TypedItem>, FrontError>
    ensures { Answers (lists.items_behind outer.now main.now items.now) result }
{
    let variables = declared_in(alloc, outer, Owner::Program, 0, main.block.decls.as_slice())?;
    let scope = scope_of(alloc, variables.as_slice())?;
    items_among(alloc, &scope, outer, variables.as_slice(), items)
}

/// The declarations and then the items of a file with this program.
#[tactic(auto, unfolding(vera_names::proofs::StepsOpened::rules, crate::specs::OutlineForms::file_items))]
fn file_items(
    alloc: Global,
    outer: &Scopes<'_>,
    main: &Program,
    items: &[Item],
) -> Result<List<TypedItem>, FrontError>
    ensures { Answers (lists.file_items outer.now main.now items.now) result }
{
    declared_among(alloc, outer, main, items)?;
    items_behind(alloc, outer, main, items)
}

/// The items of a file with this program, where this scope of the names of the file is outermost.
fn typed_file(
    alloc: Global,
    file: &Scope<'_>,
    main: &Program,
    items: &[Item],
) -> Result<List<TypedItem>, FrontError>
    ensures { Answers (lists.file_items (file.now ∷ []) main.now items.now) result }
{
    let outer = Scopes::outermost(alloc, file)?;
    file_items(alloc, &outer, main, items)
}

/// The items of a file with this program.
fn typed_with(alloc: Global, main: &Program, items: &[Item]) -> Result<List<TypedItem>, FrontError>
    ensures { Answers (lists.file_items (files.file_scope items.now ∷ []) main.now items.now) result }
{
    let file = file_scope(alloc, items)?;
    typed_file(alloc, &file, main, items)
}

/// The items of a file, where it has exactly one program.
fn checked_items(alloc: Global, items: &[Item]) -> Result<List<TypedItem>, FrontError>
    ensures { Answers (lists.checked_items items.now) result }
{
    match one_program(items) {
        Ok(main) => typed_with(alloc, main, items),
        Err(refusal) => Err(FrontError::Refused(refusal)),
    }
}

/// The typed tree of a testbench's tree, or the first refusal of the walk: first the number of programs (E36), then the
/// declarations and then the bodies in text order (E30 to E35, E37 and E39), each with the line of the first token of
/// what breaks the rule. A class or coverage group among the bodies is E90, since they aren't checked yet.
#[tactic(auto, using(crate::proofs::OutlineSteps::check_refused, crate::proofs::OutlineSteps::check_ok))]
pub fn check(alloc: Global, tree: &Tree) -> Result<TypedTree, FrontError>
    ensures { Answers (spec.typed tree.now) result }
{
    let items = checked_items(alloc, tree.items.as_slice())?;
    Ok(TypedTree { items })
}
