//! The bodies of items, where the names of the file are in sight.

ghost use Rattle.std.specs.Prelude.{◌≡◌, ◌++◌, ◌∷◌, [], suc, length, map, IfOk};
ghost use Rattle.typing_rules.specs.Answers.{Answers};
ghost use Rattle.typing_rules.specs.Bodies as spec;
ghost use Rattle.typing_rules.specs.Bodies.{block as block_of};
ghost use Rattle.typing_rules.specs.declared.context.Body.TheVariants as body;

use crate::blocks::{PlacedDecl, number_behind, number_of};
use crate::statements::{block, block_with};
use four_state::{List, NoMemory, Text};
use std::alloc::Global;
use typing_rules::context::Body;
use typing_rules::names::Meaning;
use vera_ast::{
    Block, Enumeration, FrontError, Function, Item, Parameter, Program, Task, TaskName, TypedBlock,
    TypedEnumeration, TypedFunction, TypedItem, TypedParameter, TypedProgram, TypedTask,
    TypedVariable, ValueType, VariablePlace, VariableType, with,
};
use vera_decls::interfaces::typed_interface;
use vera_names::codes::refused;
use vera_names::data_types::data_type;
use vera_names::outline::FileOutline;
use vera_names::scope::{Scope, Scopes};
use vera_values::sight::Sight;

/// A tree with classes or coverage groups is refused before.
const NOT_BUILT: u8 = 90;

fn parameter_place(is_var: bool, number: u32) -> VariablePlace
    ensures { result ≡ spec.parameter_place is_var number }
{
    if is_var {
        VariablePlace::Reference(number)
    } else {
        VariablePlace::Local(number)
    }
}

/// A parameter with its number and type.
fn typed_parameter(parameter: &Parameter, number: u32, of: ValueType) -> TypedParameter
    ensures { result ≡ record { line = parameter.now.line; place = spec.parameter_place parameter.now.is_var number; of = of } }
{
    TypedParameter {
        line: parameter.line,
        place: parameter_place(parameter.is_var, number),
        of,
    }
}

/// Parameters take the first slots; a `var` parameter stands for its argument's variable.
fn typed_parameters(
    alloc: Global,
    scopes: &Scopes<'_>,
    parameters: &[Parameter],
) -> Result<List<TypedParameter>, FrontError>
    ensures { Answers (spec.typed_parameters scopes.now 0 parameters.now) result }
{
    let mut typed = List::empty(alloc);
    for parameter in parameters {
        let of = data_type(alloc, scopes, &parameter.of)?;
        let number = number_of(typed.len())?;
        typed.push(typed_parameter(parameter, number, of))?;
    }
    Ok(typed)
}

/// The parameters as the names of a scope.
fn parameter_scope<'a>(
    alloc: Global,
    parameters: &'a [Parameter],
    typed: &[TypedParameter],
) -> Result<Scope<'a>, NoMemory>
    ensures { IfOk result (λ scope. scope ≡ spec.parameter_scope parameters.now typed.now) }
{
    let mut scope = Scope::new(alloc);
    for (at, parameter) in parameters.iter().enumerate() {
        match typed.get(at) {
            Some(of) => {
                let means = Meaning::Variable(of.place, VariableType::Value(of.of));
                scope = scope.with(parameter.name.as_slice(), means)?;
            }
            None => return Ok(scope),
        }
    }
    Ok(scope)
}

/// `new` is checked like a function.
fn task_body(name: &TaskName) -> Body
    ensures { result ≡ spec.task_body name.now }
{
    match name {
        TaskName::Named(_) => Body::Task,
        TaskName::New => Body::Function,
    }
}

fn copy_name(name: &TaskName) -> Result<TaskName, NoMemory>
    ensures { IfOk result (λ copy. copy ≡ name.now) }
{
    match name {
        TaskName::Named(name) => Ok(TaskName::Named(name.copy()?)),
        TaskName::New => Ok(TaskName::New),
    }
}

/// The block of a body where these scopes are in sight, and so many variables of it.
fn body_in<'a>(
    alloc: Global,
    outline: &'a FileOutline<'a>,
    scopes: &'a Scopes<'a>,
    slots: u32,
    of: Body,
    inner: &Block,
) -> Result<TypedBlock, FrontError>
    ensures { Answers (block_of (spec.in_body outline.now scopes.now slots of) inner.now) result }
{
    let sight = Sight::new(outline, scopes, slots, of);
    block(alloc, &sight, inner)
}

/// The block of a body whose parameters are in sight beside the names around them, and so many variables of it.
fn body_among<'a>(
    alloc: Global,
    outline: &'a FileOutline<'a>,
    scope: &'a Scope<'a>,
    outer: &'a Scopes<'a>,
    slots: u32,
    of: Body,
    inner: &Block,
) -> Result<TypedBlock, FrontError>
    ensures { Answers (block_of (spec.in_body outline.now (scope.now ∷ outer.now) slots of) inner.now) result }
{
    let scopes = Scopes::inside(alloc, scope, outer)?;
    body_in(alloc, outline, &scopes, slots, of, inner)
}

/// `task = "task" ( name | "new" ) "(" [ params ] ")" block`.
#[tactic(auto, unfolding(vera_names::proofs::StepsOpened::rules, typing_rules::specs::Bodies::task))]
fn task(
    alloc: Global,
    outline: &FileOutline<'_>,
    scopes: &Scopes<'_>,
    task: &Task,
) -> Result<TypedTask, FrontError>
    ensures { Answers (spec.task outline.now scopes.now task.now) result }
{
    let parameters = typed_parameters(alloc, scopes, task.parameters.as_slice())?;
    let slots = number_of(parameters.len())?;
    let scope = parameter_scope(alloc, task.parameters.as_slice(), parameters.as_slice())?;
    let of = task_body(&task.name);
    let block = body_among(alloc, outline, &scope, scopes, slots, of, &task.block)?;
    let (block, name) = with(block, copy_name(&task.name))?;
    Ok(TypedTask {
        line: task.line,
        name,
        parameters,
        block,
    })
}

fn result_variable(number: u32, of: ValueType) -> TypedVariable
    ensures { result ≡ spec.result_variable number of }
{
    TypedVariable {
        place: VariablePlace::Local(number),
        of,
    }
}

/// The scope of the variable of a function's name.
#[tactic(auto, unfolding(vera_names::proofs::StepsOpened::rules))]
fn result_scope(alloc: Global, name: &[u8], variable: TypedVariable) -> Result<Scope<'_>, NoMemory>
    ensures { IfOk result (λ scope. scope ≡ spec.result_scope name.now variable) }
{
    Scope::new(alloc).with(name, Meaning::Result(variable))
}

/// The block of a function whose parameters have these names: behind them stands the variable of its own name.
fn function_among<'a>(
    alloc: Global,
    outline: &'a FileOutline<'a>,
    scope: &'a Scope<'a>,
    named: &'a Scope<'a>,
    scopes: &'a Scopes<'a>,
    slots: u32,
    inner: &Block,
) -> Result<TypedBlock, FrontError>
    ensures { Answers (block_of (spec.in_body outline.now (scope.now ∷ named.now ∷ scopes.now) slots body.Function) inner.now) result }
{
    let outer = Scopes::inside(alloc, named, scopes)?;
    body_among(alloc, outline, scope, &outer, slots, Body::Function, inner)
}

/// `func = "function" type name "(" [ params ] ")" block`.
#[tactic(auto, unfolding(vera_names::proofs::StepsOpened::rules, typing_rules::specs::Bodies::function))]
fn function(
    alloc: Global,
    outline: &FileOutline<'_>,
    scopes: &Scopes<'_>,
    function: &Function,
) -> Result<TypedFunction, FrontError>
    ensures { Answers (spec.function outline.now scopes.now function.now) result }
{
    let of = data_type(alloc, scopes, &function.result)?;
    let parameters = typed_parameters(alloc, scopes, function.parameters.as_slice())?;
    let number = number_of(parameters.len())?;
    let slots = number_behind(number, 1)?;
    let variable = result_variable(number, of);
    let scope = parameter_scope(alloc, function.parameters.as_slice(), parameters.as_slice())?;
    let named = result_scope(alloc, function.name.as_slice(), variable)?;
    let block = function_among(
        alloc,
        outline,
        &scope,
        &named,
        scopes,
        slots,
        &function.block,
    )?;
    let (block, name) = with(block, function.name.copy())?;
    Ok(TypedFunction {
        line: function.line,
        name,
        result: variable,
        parameters,
        block,
    })
}

/// `prog = "program" name block`: its variables are in these scopes already.
#[tactic(auto, unfolding(vera_names::proofs::StepsOpened::rules, typing_rules::specs::Bodies::program))]
fn program<'a>(
    alloc: Global,
    outline: &'a FileOutline<'a>,
    scopes: &'a Scopes<'a>,
    variables: &[PlacedDecl<'_>],
    program: &Program,
) -> Result<TypedProgram, FrontError>
    ensures { Answers (spec.program outline.now scopes.now variables.now program.now) result }
{
    let sight = Sight::new(outline, scopes, 0, Body::Program);
    let block = block_with(alloc, &sight, variables, &program.block)?;
    let (block, name) = with(block, program.name.copy())?;
    Ok(TypedProgram {
        line: program.line,
        name,
        block,
    })
}

fn copy_names(alloc: Global, names: &[Text]) -> Result<List<Text>, NoMemory>
    ensures { IfOk result (λ copies. copies ≡ names.now) }
{
    let mut copies = List::empty(alloc);
    for name in names {
        copies.push(name.copy()?)?;
    }
    Ok(copies)
}

fn enumeration(alloc: Global, enumeration: &Enumeration) -> Result<TypedEnumeration, NoMemory>
    ensures { IfOk result (λ typed. typed ≡ record { line = enumeration.now.line; name = enumeration.now.name; values = enumeration.now.values }) }
{
    Ok(TypedEnumeration {
        line: enumeration.line,
        name: enumeration.name.copy()?,
        values: copy_names(alloc, enumeration.values.as_slice())?,
    })
}

/// `item = enum | class | iface | group | task | func | prog`, where these are the program's variables.
#[tactic(auto, unfolding(vera_names::proofs::StepsOpened::rules))]
pub fn item_of(
    alloc: Global,
    outline: &FileOutline<'_>,
    scopes: &Scopes<'_>,
    variables: &[PlacedDecl<'_>],
    item: &Item,
) -> Result<TypedItem, FrontError>
    ensures { Answers (spec.item_of outline.now scopes.now variables.now item.now) result }
{
    match item {
        Item::Enumeration(found) => Ok(TypedItem::Enumeration(enumeration(alloc, found)?)),
        Item::Class(class) => Err(refused(NOT_BUILT, class.line)),
        Item::Interface(interface) => {
            Ok(TypedItem::Interface(typed_interface(alloc, scopes, interface)?))
        }
        Item::Group(group) => Err(refused(NOT_BUILT, group.line)),
        Item::Task(found) => Ok(TypedItem::Task(task(alloc, outline, scopes, found)?)),
        Item::Function(found) => Ok(TypedItem::Function(function(alloc, outline, scopes, found)?)),
        Item::Program(found) => {
            Ok(TypedItem::Program(program(alloc, outline, scopes, variables, found)?))
        }
    }
}
