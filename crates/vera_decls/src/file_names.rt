//! The names of a file: those of its items and of the values of its enumerations, and its programs.

ghost use Rattle.std.specs.Prelude.{◌≡◌, ◌++◌, ◌∷◌, [], IfOk, MatchResult, Err as ErrOf, List as ListOf};
ghost use Rattle.vera_ast.specs.declared.tree.items.Item.{Item as ItemOf};
ghost use Rattle.typing_rules.specs.FileNames as spec;
ghost use Rattle.vera_decls.specs.Files.{AreCounted, one_seen, found_in};
ghost use Rattle.typing_rules.specs.Typing as typing;
ghost use Rattle.typing_rules.specs.declared.names.Meaning.TheVariants as means;

use four_state::{NoMemory, Text};
use std::alloc::Global;
use typing_rules::names::Meaning;
use vera_ast::{EnumName, Enumeration, Item, Program, Refusal, TaskName};
use vera_names::codes::NOT_ONE_PROGRAM;
use vera_names::numbers::following;
use vera_names::scope::Scope;

/// How many items of each kind there are so far.
#[derive(Clone, Copy)]
pub struct Counts {
    enumerations: u32,
    classes: u32,
    interfaces: u32,
    groups: u32,
    tasks: u32,
    functions: u32,
}

/// Counts of no items.
fn none_yet() -> Counts
    ensures { AreCounted [] result }
{
    Counts {
        enumerations: 0,
        classes: 0,
        interfaces: 0,
        groups: 0,
        tasks: 0,
        functions: 0,
    }
}

/// The counts with one more item.
fn counted(counts: Counts, item: &Item) -> Result<Counts, NoMemory>
    ensures { IfOk result (λ new. (before : ListOf ItemOf) → AreCounted before counts → AreCounted (before ++ item.now ∷ []) new) }
{
    match item {
        Item::Enumeration(_) => Ok(Counts {
            enumerations: following(counts.enumerations)?,
            ..counts
        }),
        Item::Class(_) => Ok(Counts {
            classes: following(counts.classes)?,
            ..counts
        }),
        Item::Interface(_) => Ok(Counts {
            interfaces: following(counts.interfaces)?,
            ..counts
        }),
        Item::Group(_) => Ok(Counts {
            groups: following(counts.groups)?,
            ..counts
        }),
        Item::Task(_) => Ok(Counts {
            tasks: following(counts.tasks)?,
            ..counts
        }),
        Item::Function(_) => Ok(Counts {
            functions: following(counts.functions)?,
            ..counts
        }),
        Item::Program(_) => Ok(counts),
    }
}

/// The name of a task. `new` is declared like a name, though none can name it.
pub fn task_name(name: &TaskName) -> &[u8]
    ensures { result.now ≡ spec.task_name name.now }
{
    match name {
        TaskName::Named(name) => name.as_slice(),
        TaskName::New => b"new",
    }
}

/// The scope with the values 0, 1, 2 and so on of an enumeration.
fn with_values<'a>(
    scope: Scope<'a>,
    enumeration: u32,
    values: &'a [Text],
) -> Result<Scope<'a>, NoMemory>
    ensures { IfOk result (λ new. new ≡ scope.entry ++ spec.values_from enumeration 0 values.now) }
{
    let mut scope = scope;
    let mut value = 0;
    for name in values {
        scope = scope.with(
            name.as_slice(),
            Meaning::EnumName(EnumName { enumeration, value }),
        )?;
        value = following(value)?;
    }
    Ok(scope)
}

/// The scope with the names of an enumeration.
fn with_enumeration<'a>(
    scope: Scope<'a>,
    number: u32,
    of: &'a Enumeration,
) -> Result<Scope<'a>, NoMemory>
    ensures { IfOk result (λ new. new ≡ scope.entry ++ spec.declared (means.Enumeration number) of.now.name ∷ spec.values_from number 0 of.now.values) }
{
    let scope = scope.with(of.name.as_slice(), Meaning::Enumeration(number))?;
    with_values(scope, number, of.values.as_slice())
}

/// The scope with the names of an item, behind so many items of each kind.
fn with_item<'a>(scope: Scope<'a>, counts: Counts, item: &'a Item) -> Result<Scope<'a>, NoMemory>
    ensures { IfOk result (λ new. (before : ListOf ItemOf) → AreCounted before counts → new ≡ scope.entry ++ spec.declared_by before item.now) }
{
    match item {
        Item::Enumeration(of) => with_enumeration(scope, counts.enumerations, of),
        Item::Class(of) => scope.with(of.name.as_slice(), Meaning::Class(counts.classes)),
        Item::Interface(of) => scope.with(
            of.name.as_slice(),
            Meaning::Interface(counts.interfaces),
        ),
        Item::Group(of) => scope.with(of.name.as_slice(), Meaning::Group(counts.groups)),
        Item::Task(of) => scope.with(task_name(&of.name), Meaning::Task(counts.tasks)),
        Item::Function(of) => scope.with(of.name.as_slice(), Meaning::Function(counts.functions)),
        Item::Program(of) => scope.with(of.name.as_slice(), Meaning::Program),
    }
}

/// The outermost scope: the names of all items, each with what it stands for.
pub fn file_scope<'a>(alloc: Global, items: &'a [Item]) -> Result<Scope<'a>, NoMemory>
    ensures { IfOk result (λ scope. scope ≡ spec.file_scope items.now) }
{
    let mut scope = Scope::new(alloc);
    let mut counts = none_yet();
    for item in items {
        scope = with_item(scope, counts, item)?;
        counts = counted(counts, item)?;
    }
    Ok(scope)
}

/// The program that was found, behind one more item: a second one is refused.
fn found_behind<'a>(
    found: Option<&'a Program>,
    item: &'a Item,
) -> Result<Option<&'a Program>, Refusal>
    ensures { (left : ListOf ItemOf) → MatchResult result (λ new. typing.one_of (found_in found.entry ++ spec.programs_in (item.now ∷ left)) ≡ typing.one_of (found_in new ++ spec.programs_in left)) (λ r. typing.one_of (found_in found.entry ++ spec.programs_in (item.now ∷ left)) ≡ ErrOf r) }
{
    match item {
        Item::Program(program) => {
            if found.is_some() {
                return Err(Refusal {
                    code: NOT_ONE_PROGRAM,
                    line: program.line,
                });
            }
            Ok(Some(program))
        }
        Item::Enumeration(_) => Ok(found),
        Item::Class(_) => Ok(found),
        Item::Interface(_) => Ok(found),
        Item::Group(_) => Ok(found),
        Item::Task(_) => Ok(found),
        Item::Function(_) => Ok(found),
    }
}

/// The one program of a file. A file without one is refused on line 1, one with more at the second one.
#[tactic(auto, unfolding(typing_rules::specs::Checked::refuse))]
pub fn one_program(items: &[Item]) -> Result<&Program, Refusal>
    ensures { one_seen result ≡ typing.one_program items.now }
{
    let mut found = None;
    for item in items {
        found = found_behind(found, item)?;
    }
    match found {
        Some(program) => Ok(program),
        None => Err(Refusal {
            code: NOT_ONE_PROGRAM,
            line: 1,
        }),
    }
}
