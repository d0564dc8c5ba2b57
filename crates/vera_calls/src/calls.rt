//! Calls: their rules, once what is called and all arguments were walked.

ghost use Rattle.std.specs.Prelude.{◌≡◌, ◌++◌, ◌&&◌, ◌||◌, not, Some as SomeOf, IfOk};
ghost use Rattle.vera_ast.specs.declared.typed.expr.TypedExpr.TheVariants as expr;
ghost use Rattle.typing_rules.specs.Answers.{Answers, answered};
ghost use Rattle.typing_rules.specs.Arguments as arguments_spec;
ghost use Rattle.typing_rules.specs.Calls as spec;
ghost use Rattle.typing_rules.specs.Checked as checked;
ghost use Rattle.typing_rules.specs.Operands as operands;
ghost use Rattle.typing_rules.specs.Signatures as signatures;
ghost use Rattle.typing_rules.specs.declared.head.Head.TheVariants as head;
ghost use Rattle.vera_calls.specs.CallForms as forms;
ghost use Rattle.vera_calls.specs.Wanting.{wants_told};

use crate::given::meets;
use crate::operands::{behind_format, count_in, format_in, is_printed, mode_in, typed_arguments};
use crate::outcomes::{gives_a_number, is_for_tasks, may_wait, outcome};
use crate::signatures::counts;
use crate::split::{Split, joined, taken_apart};
use crate::wanted::{Wanted, wanted_in};
use four_state::{List, NoMemory};
use sqlite_items::{Boxed, Items};
use std::alloc::Global;
use typing_rules::context::Body;
use typing_rules::head::{Argument, Head, Stand, Typed};
use typing_rules::names::{Expected, Meaning, Routine};
use typing_rules::words::{BuiltIn, Mode, Outcome};
use vera_ast::{
    BuiltInFunction, BuiltInTask, FormatPart, FrontError, TypedCall, TypedCallee, TypedExpr,
    TypedPlace, ValueType, VectorType, WaitingCall, WaitingFunction, with,
};
use vera_names::codes::{NOT_ASSIGNABLE, NOT_HERE, WRONG_COUNT, WRONG_TYPE, refuse, refused};
use vera_names::rules::{answered, keeps};
use vera_values::arguments::{is_settable, suits, type_of};
use vera_values::lists::items_with;
use vera_values::sight::Sight;

fn is_statement(stand: Stand) -> bool
    ensures { result ≡ spec.is_statement stand }
{
    matches!(stand, Stand::Statement)
}

/// Whether a call that may wait can stand there: as a statement, or as the whole right side of an assignment.
fn may_wait_here(stand: Stand) -> bool
    ensures { result ≡ spec.may_wait_here stand }
{
    !matches!(stand, Stand::Inside | Stand::Place)
}

/// Whether it belongs to a function or `new`.
pub fn is_function(body: Body) -> bool
    ensures { result ≡ spec.is_function body }
{
    matches!(body, Body::Function)
}

fn integer_value(expr: TypedExpr) -> Head
    ensures { result ≡ spec.integer_value expr }
{
    Head::Value(Typed {
        expr,
        of: ValueType::Vector(VectorType::Integer),
    })
}

/// Whether each argument is of the kind that its call wants there.
#[tactic(auto, using(crate::proofs::Wants::meet_none))]
fn all_meet(call: BuiltIn, mode: Option<Mode>, arguments: &[Argument]) -> bool
    ensures { result ≡ arguments_spec.all_meet (signatures.wants_in call mode) arguments.now }
{
    for (at, argument) in arguments.iter().enumerate() {
        if !meets(wanted_in(call, mode, at), argument) {
            return false;
        }
    }
    true
}

/// Whether each argument can be assigned where its call assigns it.
#[tactic(auto, using(crate::proofs::Wants::settable_none))]
fn all_settable(wanted: &Wanted<'_>, arguments: &[Argument]) -> bool
    ensures { result ≡ arguments_spec.all_settable (wants_told wanted.now) arguments.now }
{
    for (at, argument) in arguments.iter().enumerate() {
        if !is_settable(wanted.at(at), argument) {
            return false;
        }
    }
    true
}

/// Whether each argument is taken by the parameter at its place; their numbers aren't compared here.
#[tactic(auto, using(crate::proofs::Wants::suit_none))]
fn all_suit(parents: &[Option<u32>], parameters: &[Expected], arguments: &[Argument]) -> bool
    ensures { result ≡ arguments_spec.all_suit parents.now parameters.now arguments.now }
{
    for (at, argument) in arguments.iter().enumerate() {
        match parameters.get(at) {
            Some(parameter) if !suits(parents, parameter, type_of(argument)) => return false,
            Some(_) => {}
            None => return true,
        }
    }
    true
}

fn is_wrong_stand(stand: Stand, outcome: Outcome) -> bool
    ensures { result ≡ spec.is_wrong_stand stand outcome }
{
    !gives_a_number(outcome) && !is_statement(stand)
}

fn is_refused_here(body: Body, stand: Stand, outcome: Outcome) -> bool
    ensures { result ≡ spec.is_refused_here body stand outcome }
{
    is_function(body) && is_for_tasks(outcome) || may_wait(outcome) && !may_wait_here(stand)
}

/// Whether a type doesn't fit, or a call that gives no number isn't a statement.
fn is_wrong_type(meets: bool, prints: bool, stand: Stand, outcome: Outcome) -> bool
    ensures { result ≡ (not (meets && prints) || spec.is_wrong_stand stand outcome) }
{
    !(meets && prints) || is_wrong_stand(stand, outcome)
}

fn not_both(left: bool, right: bool) -> bool
    ensures { result ≡ not (left && right) }
{
    !(left && right)
}

/// The rules of a built-in call.
fn keeps_built_in(
    alloc: Global,
    body: Body,
    stand: Stand,
    line: u32,
    call: BuiltIn,
    format: &Option<List<FormatPart>>,
    arguments: &[Argument],
) -> Result<(), FrontError>
    requires { format.now ≡ operands.format_in arguments.now }
    ensures { Answers (spec.keeps_built_in body stand line call arguments.now) result }
{
    let mode = mode_in(arguments);
    let count = count_in(arguments);
    let outcome = outcome(call, mode, count);
    let printed = is_printed(alloc, format, behind_format(arguments))?;
    let meets = all_meet(call, mode, arguments);
    let is_wrong_type = is_wrong_type(meets, printed.types, stand, outcome);
    let is_wrong_count = not_both(counts(call, mode, count), printed.count);
    let is_settable = all_settable(&Wanted::BuiltIn(call), arguments);
    let is_refused = is_refused_here(body, stand, outcome);
    answered(keeps(
        line,
        &[
            (WRONG_TYPE, is_wrong_type),
            (WRONG_COUNT, is_wrong_count),
            (NOT_ASSIGNABLE, !is_settable),
            (NOT_HERE, is_refused),
        ],
    ))
}

/// The one there is.
fn only(places: List<TypedPlace>) -> Option<TypedPlace>
    ensures { result ≡ spec.only places }
{
    let mut places = places.into_vec();
    if places.len() == 1 {
        places.pop()
    } else {
        None
    }
}

fn boxed(alloc: Global, place: Option<TypedPlace>) -> Result<Option<Boxed<TypedPlace>>, NoMemory>
    ensures { IfOk result (λ boxed. boxed ≡ place) }
{
    match place {
        Some(place) => Ok(Some(Boxed::new(alloc, place)?)),
        None => Ok(None),
    }
}

/// A built-in call that gives a number and doesn't wait.
fn given(alloc: Global, function: BuiltInFunction, split: Split) -> Result<Option<Head>, NoMemory>
    ensures { IfOk result (λ made. made ≡ SomeOf (spec.integer_value (expr.BuiltIn function (split.values ++ split.behind) (spec.only split.places)))) }
{
    let (places, operands) = with(split.places, joined(split.values, split.behind))?;
    let (operands, target) = with(operands, boxed(alloc, only(places)))?;
    Ok(Some(integer_value(TypedExpr::BuiltIn {
        function,
        operands: Items::from_vec(operands.into_vec()),
        target,
    })))
}

/// A built-in call that may wait.
fn waiting(function: WaitingFunction, split: Split) -> Result<Option<Head>, NoMemory>
    ensures { IfOk result (λ made. made ≡ SomeOf (head.Waits (record { function = function; operands = split.values ++ split.behind; target = spec.only split.places }))) }
{
    let (places, operands) = with(split.places, joined(split.values, split.behind))?;
    Ok(Some(Head::Waits(WaitingCall {
        function,
        operands,
        target: only(places),
    })))
}

/// A built-in call that gives nothing.
fn done(task: BuiltInTask, split: Split) -> Result<Option<Head>, NoMemory>
    ensures { IfOk result (λ made. made ≡ SomeOf (head.BuiltIn task (split.values ++ split.behind) split.places)) }
{
    let (places, operands) = with(split.places, joined(split.values, split.behind))?;
    Ok(Some(Head::BuiltIn(task, operands, places)))
}

fn printed(format: Option<List<FormatPart>>, operands: List<TypedExpr>) -> Option<Head>
    ensures { result ≡ spec.printing format operands }
{
    Some(Head::Prints(format?, operands))
}

fn printed_into(
    places: List<TypedPlace>,
    format: Option<List<FormatPart>>,
    operands: List<TypedExpr>,
) -> Option<Head>
    ensures { result ≡ spec.printing_into places format operands }
{
    match (only(places), format) {
        (Some(target), Some(parts)) => Some(Head::PrintsInto(target, parts, operands)),
        _ => None,
    }
}

/// A built-in call, by what becomes of it.
#[tactic(auto, using(crate::proofs::Splits::values_all, crate::proofs::Splits::values_behind, crate::proofs::Splits::places_all))]
fn built_by(
    alloc: Global,
    outcome: Outcome,
    format: Option<List<FormatPart>>,
    arguments: Vec<Argument>,
) -> Result<Option<Head>, NoMemory>
    requires { format ≡ operands.format_in arguments.items }
    ensures { IfOk result (λ head. head ≡ spec.built_by outcome arguments.items) }
{
    let (format, split) = with(format, taken_apart(alloc, arguments))?;
    match outcome {
        Outcome::Gives(function) => given(alloc, function, split),
        Outcome::MayWait(function) => waiting(function, split),
        Outcome::Does(task) => done(task, split),
        Outcome::Prints => Ok(printed(format, split.behind)),
        Outcome::PrintsInto => Ok(printed_into(split.places, format, split.behind)),
    }
}

/// A built-in call whose rules are kept, by what becomes of it.
#[tactic(auto, unfolding(typing_rules::specs::Checked::known, typing_rules::specs::Checked::refuse))]
fn built(
    alloc: Global,
    line: u32,
    outcome: Outcome,
    format: Option<List<FormatPart>>,
    arguments: Vec<Argument>,
) -> Result<Head, FrontError>
    requires { format ≡ operands.format_in arguments.items }
    ensures { Answers (checked.known checked.wrong_count line (spec.built_by outcome arguments.items)) result }
{
    match built_by(alloc, outcome, format, arguments)? {
        Some(head) => Ok(head),
        None => Err(refused(WRONG_COUNT, line)),
    }
}

/// A built-in call with its arguments.
#[tactic(auto, using(crate::proofs::CallSteps::built_in_refused, crate::proofs::CallSteps::built_in_kept))]
fn built_in_call(
    alloc: Global,
    body: Body,
    stand: Stand,
    line: u32,
    call: BuiltIn,
    arguments: Vec<Argument>,
) -> Result<Head, FrontError>
    ensures { Answers (spec.built_in_call body stand line call arguments.items) result }
{
    let format = format_in(alloc, arguments.as_slice());
    let (arguments, format) = with(arguments, format)?;
    let outcome = outcome(
        call,
        mode_in(arguments.as_slice()),
        count_in(arguments.as_slice()),
    );
    let kept = keeps_built_in(
        alloc,
        body,
        stand,
        line,
        call,
        &format,
        arguments.as_slice(),
    );
    let ((arguments, format), ()) = with((arguments, format), kept)?;
    built(alloc, line, outcome, format, arguments)
}

fn is_task(routine: &Routine) -> bool
    ensures { result ≡ spec.is_task routine.now }
{
    routine.gives.is_none()
}

/// Whether an argument doesn't suit, or a call of a task isn't a statement.
fn is_wrong_use(suit: bool, is_task: bool, stand: Stand) -> bool
    ensures { result ≡ (not suit || (is_task && not (spec.is_statement stand))) }
{
    !suit || is_task && !is_statement(stand)
}

fn both(left: bool, right: bool) -> bool
    ensures { result ≡ (left && right) }
{
    left && right
}

/// The rules of a call of a user's task or function.
fn keeps_user(
    sight: &Sight<'_>,
    stand: Stand,
    line: u32,
    routine: &Routine,
    arguments: &[Argument],
) -> Result<(), FrontError>
    ensures { result ≡ answered (spec.keeps_user sight.now.outline sight.now.body stand line routine.now arguments.now) }
{
    let parameters = routine.parameters.as_slice();
    let suit = all_suit(sight.outline().classes(), parameters, arguments);
    let is_task = is_task(routine);
    let is_settable = all_settable(&Wanted::User(parameters), arguments);
    answered(keeps(
        line,
        &[
            (WRONG_TYPE, is_wrong_use(suit, is_task, stand)),
            (WRONG_COUNT, parameters.len() != arguments.len()),
            (NOT_ASSIGNABLE, !is_settable),
            (NOT_HERE, both(is_function(sight.body()), is_task)),
        ],
    ))
}

/// The number of a task or function.
fn number_of_routine(means: Meaning) -> u32
    ensures { result ≡ spec.number_of_routine means }
{
    match means {
        Meaning::Task(number) | Meaning::Function(number) => number,
        _ => 0,
    }
}

/// A call of a user's task or function, whose rules are kept.
fn user_head(
    alloc: Global,
    means: Meaning,
    number: u32,
    gives: Option<ValueType>,
    arguments: Vec<Argument>,
) -> Result<Head, NoMemory>
    ensures { IfOk result (λ head. head ≡ spec.user_head means number gives arguments.items) }
{
    let arguments = typed_arguments(alloc, arguments)?;
    match gives {
        None => Ok(Head::Task(TypedCall {
            callee: TypedCallee::Task(number),
            arguments,
        })),
        Some(of) => Ok(Head::Value(Typed {
            expr: TypedExpr::Call(
                TypedCall {
                    callee: TypedCallee::Function(number),
                    arguments,
                },
                of,
            ),
            of,
        })),
    }
}

/// A call of what a name stands for.
#[tactic(auto, using(crate::proofs::CallSteps::named_refused, crate::proofs::CallSteps::named_kept, crate::proofs::CallSteps::named_none))]
fn call_named(
    alloc: Global,
    sight: &Sight<'_>,
    stand: Stand,
    line: u32,
    means: Meaning,
    arguments: Vec<Argument>,
) -> Result<Head, FrontError>
    ensures { Answers (spec.call_named sight.now.outline sight.now.body stand line means (spec.routine_of sight.now.outline means) arguments.items) result }
{
    match sight.outline().routine_of(means) {
        Some(routine) => {
            let kept = keeps_user(sight, stand, line, routine, arguments.as_slice());
            let (arguments, ()) = with(arguments, kept)?;
            let number = number_of_routine(means);
            Ok(user_head(alloc, means, number, routine.gives, arguments)?)
        }
        None => refuse(arguments, WRONG_TYPE, line),
    }
}

/// The length of a string, called.
#[tactic(auto, using(crate::proofs::CallSteps::length_wrong, crate::proofs::CallSteps::length_right))]
fn length_call(
    alloc: Global,
    line: u32,
    text: TypedExpr,
    arguments: &[Argument],
) -> Result<Head, FrontError>
    ensures { Answers (forms.called_length line text arguments.now) result }
{
    if !arguments.is_empty() {
        return refuse(text, WRONG_COUNT, line);
    }
    let operands = items_with(Items::new(alloc), text)?;
    Ok(integer_value(TypedExpr::BuiltIn {
        function: BuiltInFunction::Length,
        operands,
        target: None,
    }))
}

/// A call of what stands before its arguments.
#[tactic(auto, unfolding(typing_rules::specs::Calls::call, typing_rules::specs::Checked::refuse))]
pub fn call(
    alloc: Global,
    sight: &Sight<'_>,
    stand: Stand,
    line: u32,
    head: Head,
    arguments: Vec<Argument>,
) -> Result<Head, FrontError>
    ensures { Answers (spec.call sight.now.outline sight.now.body stand line head arguments.items) result }
{
    match head {
        Head::Word(call) => built_in_call(alloc, sight.body(), stand, line, call, arguments),
        Head::Named(means) => call_named(alloc, sight, stand, line, means, arguments),
        Head::Length(text) => length_call(alloc, line, text, arguments.as_slice()),
        Head::New => Ok(Head::New),
        head => refuse((head, arguments), WRONG_TYPE, line),
    }
}
