//! The walk through the declarations, in text order: names that are declared twice, the types of what is declared,
//! and the limits on numbers.

ghost use Rattle.std.specs.Prelude.{◌≡◌, ◌≤◌, ◌++◌, ◌∷◌, [], List as ListOf};
ghost use Rattle.vera_ast.specs.declared.tree.interfaces.Signal.{Signal as SignalOf};
ghost use Rattle.vera_ast.specs.declared.tree.items.Item.{Item as ItemOf};
ghost use Rattle.vera_ast.specs.declared.tree.items.Item.TheVariants as item_of;
ghost use Rattle.typing_rules.specs.Answers.{Answers};
ghost use Rattle.typing_rules.specs.DataTypes as types;
ghost use Rattle.typing_rules.specs.Declarations as spec;
ghost use Rattle.typing_rules.specs.FileNames as files;
ghost use Rattle.typing_rules.specs.Scopes as scopes_of;
ghost use Rattle.vera_decls.specs.Walks.{Walks, CountsTo, OutputsStand, own_parts};
ghost use Rattle.vera_names.specs.NameSets.{SameNames};

mod blocks;
mod counting;
mod parameters;
mod signals;
mod variables;

use crate::file_names::task_name;
use counting::{Walked, new_name};
use four_state::Text;
use signals::Signalled;
use std::alloc::Global;
use vera_ast::{Block, Enumeration, FrontError, Function, Item, Parameter, Program, Task};
use vera_names::data_types::data_type;
use vera_names::name_sets::{name_later, parameters_later};
use vera_names::scope::{Scope, Scopes};

/// Some names of one line.
fn names_of_line<'a>(
    before: Scope<'a>,
    count: u32,
    line: u32,
    names: &'a [Text],
) -> Result<Walked<'a>, FrontError>
    requires { count ≤ 65535 }
    ensures { (stand : ListOf scopes_of.Name) → SameNames stand before.entry → Walks (λ w. w.count) (λ w. SameNames (stand ++ names.now) w.names) count (spec.name_parts line stand names.now) result }
{
    let mut walked = Walked {
        names: before,
        count,
    };
    for next in names {
        let Walked { names, count } = walked;
        walked = new_name(names, count, line, next.as_slice())?;
    }
    Ok(walked)
}

/// An enumeration: its name, and those of its values.
fn enumeration<'a>(
    names: Scope<'a>,
    count: u32,
    of: &'a Enumeration,
) -> Result<Walked<'a>, FrontError>
    requires { count ≤ 65535 }
    ensures { (stand : ListOf scopes_of.Name) → SameNames stand names.entry → Walks (λ w. w.count) (λ w. SameNames (stand ++ of.now.name ∷ of.now.values) w.names) count (spec.name_parts of.now.line stand (of.now.name ∷ of.now.values)) result }
{
    let first = new_name(names, count, of.line, of.name.as_slice())?;
    let Walked { names, count } = first;
    names_of_line(names, count, of.line, of.values.as_slice())
}

/// An item that declares its name alone.
fn only_name<'a>(
    names: Scope<'a>,
    count: u32,
    line: u32,
    of: &'a [u8],
) -> Result<Walked<'a>, FrontError>
    ensures { (stand : ListOf scopes_of.Name) → SameNames stand names.entry → Walks (λ w. w.count) (λ w. SameNames (stand ++ of.now ∷ []) w.names) count (spec.name_parts line stand (of.now ∷ [])) result }
{
    new_name(names, count, line, of)
}

/// The block of a task or function with these parameters, where they are in sight beside the names around them.
fn body_among<'a>(
    alloc: Global,
    parameters: &'a Scope<'a>,
    outer: &'a Scopes<'a>,
    count: u32,
    block: &Block,
) -> Result<u32, FrontError>
    requires { count ≤ 65535 }
    ensures { CountsTo count (spec.body_parts (parameters.now ∷ outer.now) block.now) result }
{
    let inner = Scopes::inside(alloc, parameters, outer)?;
    blocks::body(alloc, &inner, count, block)
}

/// The block of a task or function, which sees its parameters.
fn body_behind(
    alloc: Global,
    outer: &Scopes<'_>,
    count: u32,
    parameters: &[Parameter],
    block: &Block,
) -> Result<u32, FrontError>
    requires { count ≤ 65535 }
    ensures { CountsTo count (spec.body_parts (scopes_of.later (spec.parameter_names parameters.now) ∷ outer.now) block.now) result }
{
    let names = parameters_later(alloc, parameters)?;
    body_among(alloc, &names, outer, count, block)
}

/// A task: its name, its parameters, and its block.
fn task<'a>(
    alloc: Global,
    scopes: &Scopes<'_>,
    names: Scope<'a>,
    count: u32,
    of: &'a Task,
) -> Result<Walked<'a>, FrontError>
    requires { count ≤ 65535 }
    ensures { (stand : ListOf scopes_of.Name) → SameNames stand names.entry → Walks (λ w. w.count) (λ w. SameNames (stand ++ files.task_name of.now.name ∷ []) w.names) count (own_parts scopes.now stand (item_of.Task of.now)) result }
{
    let first = only_name(names, count, of.line, task_name(&of.name))?;
    let Walked { names, count } = first;
    let count = parameters::parameters(alloc, scopes, count, of.parameters.as_slice())?;
    let count = body_behind(alloc, scopes, count, of.parameters.as_slice(), &of.block)?;
    Ok(Walked { names, count })
}

/// The block of a function, which sees the variable of its name and its parameters.
fn function_among<'a>(
    alloc: Global,
    named: &'a Scope<'a>,
    scopes: &'a Scopes<'a>,
    count: u32,
    of: &Function,
) -> Result<u32, FrontError>
    requires { count ≤ 65535 }
    ensures { CountsTo count (spec.body_parts (scopes_of.later (spec.parameter_names of.now.parameters) ∷ named.now ∷ scopes.now) of.now.block) result }
{
    let outer = Scopes::inside(alloc, named, scopes)?;
    body_behind(alloc, &outer, count, of.parameters.as_slice(), &of.block)
}

/// The block of a function.
fn function_body(
    alloc: Global,
    scopes: &Scopes<'_>,
    count: u32,
    of: &Function,
) -> Result<u32, FrontError>
    requires { count ≤ 65535 }
    ensures { CountsTo count (spec.body_parts (scopes_of.later (spec.parameter_names of.now.parameters) ∷ scopes_of.later (of.now.name ∷ []) ∷ scopes.now) of.now.block) result }
{
    let names = name_later(alloc, of.name.as_slice())?;
    function_among(alloc, &names, scopes, count, of)
}

/// A function: the type of its result, its name, its parameters, and its block.
fn function<'a>(
    alloc: Global,
    scopes: &Scopes<'_>,
    names: Scope<'a>,
    count: u32,
    of: &'a Function,
) -> Result<Walked<'a>, FrontError>
    requires { count ≤ 65535 }
    ensures { (stand : ListOf scopes_of.Name) → SameNames stand names.entry → Walks (λ w. w.count) (λ w. SameNames (stand ++ of.now.name ∷ []) w.names) count (own_parts scopes.now stand (item_of.Function of.now)) result }
{
    data_type(alloc, scopes, &of.result)?;
    let first = only_name(names, count, of.line, of.name.as_slice())?;
    let Walked { names, count } = first;
    let count = parameters::parameters(alloc, scopes, count, of.parameters.as_slice())?;
    let count = function_body(alloc, scopes, count, of)?;
    Ok(Walked { names, count })
}

/// A program: its name, and its block, whose variables are in sight everywhere.
fn program<'a>(
    alloc: Global,
    scopes: &Scopes<'_>,
    names: Scope<'a>,
    count: u32,
    of: &'a Program,
) -> Result<Walked<'a>, FrontError>
    requires { count ≤ 65535 }
    ensures { (stand : ListOf scopes_of.Name) → SameNames stand names.entry → Walks (λ w. w.count) (λ w. SameNames (stand ++ of.now.name ∷ []) w.names) count (own_parts scopes.now stand (item_of.Program of.now)) result }
{
    let first = only_name(names, count, of.line, of.name.as_slice())?;
    let Walked { names, count } = first;
    let count = blocks::block(alloc, scopes, count, &of.block)?;
    Ok(Walked { names, count })
}

/// An item, but for the signals of an interface.
fn own<'a>(
    alloc: Global,
    scopes: &Scopes<'_>,
    names: Scope<'a>,
    count: u32,
    of: &'a Item,
) -> Result<Walked<'a>, FrontError>
    requires { count ≤ 65535 }
    ensures { (stand : ListOf scopes_of.Name) → SameNames stand names.entry → Walks (λ w. w.count) (λ w. SameNames (stand ++ files.item_names of.now) w.names) count (own_parts scopes.now stand of.now) result }
{
    match of {
        Item::Enumeration(of) => enumeration(names, count, of),
        Item::Class(of) => only_name(names, count, of.line, of.name.as_slice()),
        Item::Interface(of) => only_name(names, count, of.line, of.name.as_slice()),
        Item::Group(of) => only_name(names, count, of.line, of.name.as_slice()),
        Item::Task(of) => task(alloc, scopes, names, count, of),
        Item::Function(of) => function(alloc, scopes, names, count, of),
        Item::Program(of) => program(alloc, scopes, names, count, of),
    }
}

/// The signals of an item, if it is an interface.
fn with_signals<'a>(
    alloc: Global,
    scopes: &Scopes<'_>,
    outputs: Scope<'a>,
    signals: u32,
    count: u32,
    of: &'a Item,
) -> Result<Signalled<'a>, FrontError>
    requires { count ≤ 65535 }
    ensures { (before : ListOf SignalOf) → OutputsStand before outputs.entry signals → Walks (λ s. s.count) (λ s. OutputsStand (before ++ files.signals_of of.now) s.outputs s.signals) count (spec.signal_parts scopes.now before [] (files.signals_of of.now)) result }
{
    match of {
        Item::Interface(of) => signals::signals(
            alloc,
            scopes,
            outputs,
            signals,
            count,
            of.signals.as_slice(),
        ),
        _ => signals::signals(alloc, scopes, outputs, signals, count, &[]),
    }
}

/// What the file declares so far: its names, those of its outputs, and the numbers of signals and of all names.
#[derive(Drop)]
struct Filed<'a> {
    names: Scope<'a>,
    outputs: Scope<'a>,
    signals: u32,
    count: u32,
}

/// One more item.
fn item<'a>(
    alloc: Global,
    scopes: &Scopes<'_>,
    filed: Filed<'a>,
    of: &'a Item,
) -> Result<Filed<'a>, FrontError>
    requires { filed.count ≤ 65535 }
    ensures { (before : ListOf ItemOf) → SameNames (files.file_names before) filed.entry.names → OutputsStand (files.signals_in before) filed.entry.outputs filed.entry.signals → Walks (λ f. f.count) (λ f. SameNames (files.file_names (before ++ of.now ∷ [])) f.names × OutputsStand (files.signals_in (before ++ of.now ∷ [])) f.outputs f.signals) filed.entry.count (spec.item_parts scopes.now before of.now) result }
{
    let Filed {
        names,
        outputs,
        signals,
        count,
    } = filed;
    let walked = own(alloc, scopes, names, count, of)?;
    let Walked { names, count } = walked;
    let next = with_signals(alloc, scopes, outputs, signals, count, of)?;
    let Signalled {
        outputs,
        signals,
        count,
        ..
    } = next;
    Ok(Filed {
        names,
        outputs,
        signals,
        count,
    })
}

/// The walk through the declarations of all items.
pub fn declarations(alloc: Global, scopes: &Scopes<'_>, items: &[Item]) -> Result<(), FrontError>
    ensures { Answers (spec.declarations scopes.now items.now) result }
{
    let mut filed = Filed {
        names: Scope::new(alloc),
        outputs: Scope::new(alloc),
        signals: 0,
        count: 0,
    };
    for next in items {
        filed = item(alloc, scopes, filed, next)?;
    }
    Ok(())
}
