//! What a file declares, as its bodies see it: the signals of its interfaces, its tasks and its functions.

ghost use Rattle.std.specs.Prelude.{◌≡◌, ◌++◌, ◌∷◌, [], IfOk, List as ListOf};
ghost use Rattle.typing_rules.specs.Answers.{Answers, with_items};
ghost use Rattle.typing_rules.specs.Checked as checked;
ghost use Rattle.typing_rules.specs.Typing as spec;
ghost use Rattle.vera_ast.specs.declared.tree.items.Item.{Item as ItemOf};
ghost use Rattle.vera_names.specs.Lists.{behind};
ghost use Rattle.vera_types.specs.OutlineForms as lists;
ghost use Rattle.vera_types.specs.OutlineForms.{Leads};

use crate::blocks::number_behind;
use four_state::{List, NoMemory};
use std::alloc::Global;
use typing_rules::names::{Expected, Routine};
use vera_ast::{FrontError, Function, Item, Parameter, Signal, Task};
use vera_decls::interfaces::known_signals;
use vera_names::data_types::data_type;
use vera_names::outline::{FileOutline, Signals};
use vera_names::scope::Scopes;

/// A parameter as its calls see it.
#[tactic(auto, unfolding(vera_names::proofs::StepsOpened::rules, typing_rules::specs::Typing::expected))]
fn expected(
    alloc: Global,
    scopes: &Scopes<'_>,
    parameter: &Parameter,
) -> Result<Expected, FrontError>
    ensures { Answers (spec.expected scopes.now parameter.now) result }
{
    let of = data_type(alloc, scopes, &parameter.of)?;
    Ok(Expected {
        is_var: parameter.is_var,
        of,
    })
}

fn all_expected(
    alloc: Global,
    scopes: &Scopes<'_>,
    parameters: &[Parameter],
) -> Result<List<Expected>, FrontError>
    ensures { Answers (checked.each (spec.expected scopes.now) parameters.now) result }
{
    let mut found = List::empty(alloc);
    for parameter in parameters {
        found.push(expected(alloc, scopes, parameter)?)?;
    }
    Ok(found)
}

#[tactic(auto, unfolding(vera_names::proofs::StepsOpened::rules, crate::specs::OutlineForms::task_routine))]
fn task_routine(alloc: Global, scopes: &Scopes<'_>, task: &Task) -> Result<Routine, FrontError>
    ensures { Answers (lists.task_routine scopes.now task.now) result }
{
    let parameters = all_expected(alloc, scopes, task.parameters.as_slice())?;
    Ok(Routine {
        parameters,
        gives: None,
    })
}

#[tactic(auto, unfolding(vera_names::proofs::StepsOpened::rules, crate::specs::OutlineForms::function_routine))]
fn function_routine(
    alloc: Global,
    scopes: &Scopes<'_>,
    function: &Function,
) -> Result<Routine, FrontError>
    ensures { Answers (lists.function_routine scopes.now function.now) result }
{
    let of = data_type(alloc, scopes, &function.result)?;
    let parameters = all_expected(alloc, scopes, function.parameters.as_slice())?;
    Ok(Routine {
        parameters,
        gives: Some(of),
    })
}

fn with_routine(routines: Vec<Routine>, routine: Routine) -> Result<Vec<Routine>, NoMemory>
    ensures { IfOk result (λ new. new.items ≡ routines.items ++ routine ∷ []) }
{
    let mut routines = routines;
    routines.push(routine)?;
    Ok(routines)
}

/// The tasks with one more, if the item is one.
#[tactic(auto, unfolding(typing_rules::specs::Typing::tasks_in))]
fn with_task(
    alloc: Global,
    scopes: &Scopes<'_>,
    routines: Vec<Routine>,
    item: &Item,
) -> Result<Vec<Routine>, FrontError>
    ensures { (left : ListOf ItemOf) → Leads (behind routines.items (spec.tasks_in scopes.now (item.now ∷ left))) (λ new. behind new.items (spec.tasks_in scopes.now left)) result }
{
    match item {
        Item::Task(task) => {
            let routine = task_routine(alloc, scopes, task)?;
            Ok(with_routine(routines, routine)?)
        }
        Item::Enumeration(_) => Ok(routines),
        Item::Class(_) => Ok(routines),
        Item::Interface(_) => Ok(routines),
        Item::Group(_) => Ok(routines),
        Item::Function(_) => Ok(routines),
        Item::Program(_) => Ok(routines),
    }
}

/// The functions with one more, if the item is one.
#[tactic(auto, unfolding(typing_rules::specs::Typing::functions_in))]
fn with_function(
    alloc: Global,
    scopes: &Scopes<'_>,
    routines: Vec<Routine>,
    item: &Item,
) -> Result<Vec<Routine>, FrontError>
    ensures { (left : ListOf ItemOf) → Leads (behind routines.items (spec.functions_in scopes.now (item.now ∷ left))) (λ new. behind new.items (spec.functions_in scopes.now left)) result }
{
    match item {
        Item::Function(function) => {
            let routine = function_routine(alloc, scopes, function)?;
            Ok(with_routine(routines, routine)?)
        }
        Item::Enumeration(_) => Ok(routines),
        Item::Class(_) => Ok(routines),
        Item::Interface(_) => Ok(routines),
        Item::Group(_) => Ok(routines),
        Item::Task(_) => Ok(routines),
        Item::Program(_) => Ok(routines),
    }
}

/// The tasks of a file, in text order.
fn tasks_in(alloc: Global, scopes: &Scopes<'_>, items: &[Item]) -> Result<Vec<Routine>, FrontError>
    ensures { Answers (spec.tasks_in scopes.now items.now) (with_items result) }
{
    let mut routines = Vec::new(alloc);
    for item in items {
        routines = with_task(alloc, scopes, routines, item)?;
    }
    Ok(routines)
}

/// The functions of a file, in text order.
fn functions_in(
    alloc: Global,
    scopes: &Scopes<'_>,
    items: &[Item],
) -> Result<Vec<Routine>, FrontError>
    ensures { Answers (spec.functions_in scopes.now items.now) (with_items result) }
{
    let mut routines = Vec::new(alloc);
    for item in items {
        routines = with_function(alloc, scopes, routines, item)?;
    }
    Ok(routines)
}

/// The interfaces so far, and how many signals they have.
#[derive(Drop)]
struct KnownInterfaces<'a> {
    interfaces: Vec<Signals<'a>>,
    count: u32,
}

fn with_known<'a>(
    interfaces: Vec<Signals<'a>>,
    signals: Signals<'a>,
) -> Result<Vec<Signals<'a>>, NoMemory>
    ensures { IfOk result (λ new. new.items ≡ interfaces.entry.items ++ signals.entry ∷ []) }
{
    let mut interfaces = interfaces;
    interfaces.push(signals)?;
    Ok(interfaces)
}

/// The interfaces with one more, of these signals.
fn with_signals<'a>(
    alloc: Global,
    scopes: &Scopes<'_>,
    known: KnownInterfaces<'a>,
    signals: &'a [Signal],
) -> Result<KnownInterfaces<'a>, FrontError>
    ensures { (left : ListOf ItemOf) → Leads (behind known.entry.interfaces.items (lists.signals_and scopes.now known.entry.count signals.now left)) (λ new. behind new.interfaces.items (spec.interfaces_in scopes.now new.count left)) result }
{
    let KnownInterfaces { interfaces, count } = known;
    let found = known_signals(alloc, scopes, count, signals)?;
    let count = number_behind(count, found.as_slice().len())?;
    Ok(KnownInterfaces {
        interfaces: with_known(interfaces, found)?,
        count,
    })
}

/// The interfaces with one more, if the item is one.
#[tactic(auto, unfolding(typing_rules::specs::Typing::interfaces_in, crate::specs::OutlineForms::signals_and))]
fn with_interface<'a>(
    alloc: Global,
    scopes: &Scopes<'_>,
    known: KnownInterfaces<'a>,
    item: &'a Item,
) -> Result<KnownInterfaces<'a>, FrontError>
    ensures { (left : ListOf ItemOf) → Leads (behind known.entry.interfaces.items (spec.interfaces_in scopes.now known.entry.count (item.now ∷ left))) (λ new. behind new.interfaces.items (spec.interfaces_in scopes.now new.count left)) result }
{
    match item {
        Item::Interface(interface) => {
            with_signals(alloc, scopes, known, interface.signals.as_slice())
        }
        Item::Enumeration(_) => Ok(known),
        Item::Class(_) => Ok(known),
        Item::Group(_) => Ok(known),
        Item::Task(_) => Ok(known),
        Item::Function(_) => Ok(known),
        Item::Program(_) => Ok(known),
    }
}

/// The signals of each interface of a file, in text order. They are numbered over all interfaces.
fn interfaces_in<'a>(
    alloc: Global,
    scopes: &Scopes<'_>,
    items: &'a [Item],
) -> Result<Vec<Signals<'a>>, FrontError>
    ensures { Answers (spec.interfaces_in scopes.now 0 items.now) (with_items result) }
{
    let mut known = KnownInterfaces {
        interfaces: Vec::new(alloc),
        count: 0,
    };
    for item in items {
        known = with_interface(alloc, scopes, known, item)?;
    }
    Ok(known.interfaces)
}

/// What a file declares, as all its bodies see it.
#[tactic(auto, unfolding(vera_names::proofs::StepsOpened::rules, typing_rules::specs::Typing::outline_of))]
pub fn outline_of<'a>(
    alloc: Global,
    scopes: &Scopes<'_>,
    items: &'a [Item],
) -> Result<FileOutline<'a>, FrontError>
    ensures { Answers (spec.outline_of scopes.now items.now) result }
{
    let interfaces = interfaces_in(alloc, scopes, items)?;
    let tasks = tasks_in(alloc, scopes, items)?;
    let functions = functions_in(alloc, scopes, items)?;
    Ok(FileOutline::new(Vec::new(alloc), interfaces, tasks, functions))
}
