//! The walk over expressions, from left to right and inner parts first.

ghost use Rattle.std.specs.Prelude.{◌≡◌, ◌+◌, ◌<◌, length, drop};
ghost use Rattle.vera_ast.specs.declared.tree.expressions.Expr.TheVariants as view;
ghost use Rattle.typing_rules.specs.Answers.{Answers, with_items};
ghost use Rattle.typing_rules.specs.Expressions as spec;
ghost use Rattle.typing_rules.specs.Posts as posts;
ghost use Rattle.vera_exprs.specs.WalkLists as lists;
ghost use Rattle.vera_calls.specs.Wanting.{wants_told, modes_told};

use std::alloc::Global;
use typing_rules::head::{Argument, Head, Stand, Typed};
use typing_rules::words::Want;
use vera_ast::{
    ChainOperator, Conditional, Expr, FrontError, Link, Postfix, PrimaryForm, Suffix, TypedExpr,
    Unary, ValueType,
};
use vera_calls::calls::call;
use vera_calls::given::{argument, wants_variable};
use vera_calls::wanted::{Wanted, wanted_of};
use vera_names::codes::{WRONG_TYPE, refused};
use vera_names::constants::constant;
use vera_values::posts::{bits, index, member, name};
use vera_values::productions::{chain, concatenation, conditional, replication, unary};
use vera_values::sight::Sight;
use vera_values::values::value_of;

/// Where what a suffix follows stands: inside, but for a place.
fn part_stand(stand: Stand) -> Stand
    ensures { result ≡ spec.part_stand stand }
{
    match stand {
        Stand::Place => Stand::Place,
        _ => Stand::Inside,
    }
}

/// Where what some suffixes follow stands.
fn stand_of(stand: Stand, suffixes: &[Suffix]) -> Stand
    ensures { result ≡ lists.stand_of stand suffixes.now }
{
    if suffixes.is_empty() {
        stand
    } else {
        part_stand(stand)
    }
}

/// Where the part before the suffixes behind a place stands.
fn stand_before(stand: Stand, suffixes: &[Suffix], at: usize) -> Stand
    requires { at < length suffixes.now }
    ensures { result ≡ lists.stand_of stand (drop (at + 1) suffixes.now) }
{
    stand_of(stand, &suffixes[at + 1..])
}

/// Where an argument stands.
fn argument_stand(want: Want) -> Stand
    ensures { result ≡ spec.argument_stand want }
{
    if wants_variable(want) {
        Stand::Place
    } else {
        Stand::Inside
    }
}

fn is_call(suffix: &Suffix) -> bool
    ensures { result ≡ spec.is_call suffix.now }
{
    matches!(suffix, Suffix::Call(_))
}

/// Whether arguments follow.
fn calls_first(suffixes: &[Suffix]) -> bool
    ensures { result ≡ lists.calls_first suffixes.now }
{
    match suffixes.first() {
        Some(suffix) => is_call(suffix),
        None => false,
    }
}

/// What a name stands for, where it is the first part of a `post`.
#[tactic(auto, using(vera_names::proofs::Answering::answered_is))]
fn named(sight: &Sight<'_>, is_callee: bool, line: u32, word: &[u8]) -> Result<Head, FrontError>
    ensures { Answers (posts.name sight.now is_callee line word.now) result }
{
    name(sight, is_callee, line, word)
}

/// What a name behind a dot stands for.
#[tactic(auto, using(vera_names::proofs::Answering::answered_is))]
fn member_named(sight: &Sight<'_>, line: u32, head: Head, word: &[u8]) -> Result<Head, FrontError>
    ensures { Answers (posts.member sight.now line head word.now) result }
{
    member(sight, line, head, word)
}

/// The ends of a range.
#[tactic(auto, unfolding(vera_names::proofs::StepsOpened::steps, crate::specs::WalkLists::range_form))]
fn range(
    alloc: Global,
    sight: &Sight<'_>,
    high: &Expr,
    low: &Expr,
) -> Result<(u32, u32), FrontError>
    ensures { Answers (lists.range_form sight.now high.now low.now) result }
{
    let high = constant(alloc, sight.scopes(), high)?;
    let low = constant(alloc, sight.scopes(), low)?;
    Ok((high, low))
}

/// Some bits of what stands before them.
#[tactic(auto, unfolding(vera_names::proofs::StepsOpened::steps, crate::specs::WalkLists::bits_form))]
fn bits_between(
    alloc: Global,
    sight: &Sight<'_>,
    stand: Stand,
    line: u32,
    head: Head,
    high: &Expr,
    low: &Expr,
) -> Result<Head, FrontError>
    ensures { Answers (lists.bits_form sight.now stand line head high.now low.now) result }
{
    match range(alloc, sight, high, low) {
        Ok((high, low)) => bits(alloc, stand, line, head, high, low),
        Err(error) => {
            drop(head);
            Err(error)
        }
    }
}

/// The value of an expression that is read where it stands.
#[tactic(auto, unfolding(vera_names::proofs::StepsOpened::steps, typing_rules::specs::Expressions::expr, typing_rules::specs::Expressions::read_as))]
#[cycle(walk)]
pub fn expr(alloc: Global, sight: &Sight<'_>, expr: &Expr) -> Result<Typed, FrontError>
    ensures { Answers (spec.expr sight.now expr.now) result }
{
    let head = walk(alloc, &*sight, Stand::Inside, expr)?;
    value_of(alloc, expr.line(), head)
}

/// What an expression stands for where it stands.
#[tactic(auto, using(crate::proofs::WalkViews::conditional_walked, crate::proofs::WalkViews::chain_walked, crate::proofs::WalkViews::unary_walked, crate::proofs::WalkViews::post_walked), unfolding(vera_names::proofs::StepsOpened::steps))]
#[cycle(walk)]
pub fn walk(alloc: Global, sight: &Sight<'_>, stand: Stand, tree: &Expr) -> Result<Head, FrontError>
    ensures { Answers (spec.walk sight.now stand tree.now) result }
{
    match tree {
        Expr::Conditional(choice) => walk_conditional(alloc, &*sight, choice),
        Expr::Chain { line, first, links } => {
            let first = expr(alloc, &*sight, first.get())?;
            walk_chain(alloc, &*sight, *line, links.as_slice(), first)
        }
        Expr::Unary(part) => walk_unary(alloc, &*sight, part),
        Expr::Postfix(post) => walk_post(alloc, &*sight, stand, post),
    }
}

#[tactic(auto, unfolding(vera_names::proofs::StepsOpened::steps, crate::specs::WalkLists::conditional_form))]
#[cycle(walk)]
fn walk_conditional(
    alloc: Global,
    sight: &Sight<'_>,
    choice: &Conditional,
) -> Result<Head, FrontError>
    ensures { Answers (lists.conditional_form sight.now choice.now) result }
{
    let condition = expr(alloc, &*sight, choice.condition.get())?;
    match walk_choices(alloc, &*sight, choice) {
        Ok((when_true, when_false)) => {
            conditional(alloc, choice.line, condition, when_true, when_false)
        }
        Err(error) => {
            drop(condition);
            Err(error)
        }
    }
}

/// Both sides of a condition.
#[tactic(auto, unfolding(vera_names::proofs::StepsOpened::steps, crate::specs::WalkLists::choices_form))]
#[cycle(walk)]
fn walk_choices(
    alloc: Global,
    sight: &Sight<'_>,
    choice: &Conditional,
) -> Result<(Typed, Typed), FrontError>
    ensures { Answers (lists.choices_form sight.now choice.now) result }
{
    let when_true = expr(alloc, &*sight, choice.when_true.get())?;
    match expr(alloc, &*sight, choice.when_false.get()) {
        Ok(when_false) => Ok((when_true, when_false)),
        Err(error) => {
            drop(when_true);
            Err(error)
        }
    }
}

/// A chain, from its first operand on.
#[tactic(auto, unfolding(vera_names::proofs::StepsOpened::steps, crate::specs::WalkLists::chain_form))]
#[cycle(walk)]
fn walk_chain(
    alloc: Global,
    sight: &Sight<'_>,
    line: u32,
    links: &[Link],
    first: Typed,
) -> Result<Head, FrontError>
    ensures { Answers (lists.chain_form sight.now line first links.now) result }
{
    match walk_links(alloc, &*sight, links) {
        Ok(rest) => chain(alloc, sight.outline().classes(), line, first, rest),
        Err(error) => {
            drop(first);
            Err(error)
        }
    }
}

#[tactic(auto, unfolding(vera_names::proofs::StepsOpened::steps, crate::specs::WalkLists::unary_form))]
#[cycle(walk)]
fn walk_unary(alloc: Global, sight: &Sight<'_>, part: &Unary) -> Result<Head, FrontError>
    ensures { Answers (lists.unary_form sight.now part.now) result }
{
    let operand = expr(alloc, &*sight, part.operand.get())?;
    unary(alloc, part.line, part.operator, operand)
}

/// What a `post` stands for where it stands.
#[tactic(auto, using(crate::proofs::WalkViews::post_walked), unfolding(vera_names::proofs::StepsOpened::steps, crate::specs::WalkLists::post_form))]
#[cycle(walk)]
pub fn walk_post(
    alloc: Global,
    sight: &Sight<'_>,
    stand: Stand,
    post: &Postfix,
) -> Result<Head, FrontError>
    ensures { Answers (spec.walk sight.now stand (view.Postfix post.now)) result }
{
    let suffixes = post.suffixes.as_slice();
    let is_callee = calls_first(suffixes);
    let first = walk_form(alloc, &*sight, is_callee, post.line, &post.primary.form)?;
    walk_suffixes(alloc, &*sight, stand, post.line, suffixes, first)
}

#[tactic(auto, using(crate::proofs::WalkSteps::links_more, crate::proofs::WalkSteps::links_refused, crate::proofs::WalkSteps::links_done))]
#[cycle(walk)]
fn walk_links(
    alloc: Global,
    sight: &Sight<'_>,
    links: &[Link],
) -> Result<Vec<(ChainOperator, Typed)>, FrontError>
    ensures { Answers (lists.links_walked sight.now links.now) (with_items result) }
{
    let mut walked = Vec::new(alloc);
    for link in links {
        let operand = expr(alloc, &*sight, &link.operand)?;
        walked.push((link.operator, operand))?;
    }
    Ok(walked)
}

#[tactic(auto, using(crate::proofs::WalkSteps::exprs_more, crate::proofs::WalkSteps::exprs_refused, crate::proofs::WalkSteps::exprs_done))]
#[cycle(walk)]
fn walk_values(alloc: Global, sight: &Sight<'_>, exprs: &[Expr]) -> Result<Vec<Typed>, FrontError>
    ensures { Answers (lists.exprs_walked sight.now exprs.now) (with_items result) }
{
    let mut walked = Vec::new(alloc);
    for part in exprs {
        let value = expr(alloc, &*sight, part)?;
        walked.push(value)?;
    }
    Ok(walked)
}

/// What the first part of a `post` stands for, by whether arguments follow it.
#[tactic(auto, using(crate::proofs::WalkViews::number_walked, crate::proofs::WalkViews::str_walked, crate::proofs::WalkViews::name_walked, crate::proofs::WalkViews::null_walked, crate::proofs::WalkViews::this_walked, crate::proofs::WalkViews::super_walked, crate::proofs::WalkViews::new_walked, crate::proofs::WalkViews::parentheses_walked, crate::proofs::WalkViews::concatenation_walked, crate::proofs::WalkViews::replication_walked), unfolding(vera_names::proofs::StepsOpened::steps))]
#[cycle(walk)]
fn walk_form(
    alloc: Global,
    sight: &Sight<'_>,
    is_callee: bool,
    line: u32,
    form: &PrimaryForm,
) -> Result<Head, FrontError>
    ensures { Answers (spec.walk_form sight.now is_callee line form.now) result }
{
    match form {
        PrimaryForm::Number(number) => Ok(Head::Number(*number)),
        PrimaryForm::Str(text) => Ok(Head::Str(text.copy()?)),
        PrimaryForm::Name(word) => named(&*sight, is_callee, line, word.as_slice()),
        PrimaryForm::Null => Ok(Head::Value(Typed {
            expr: TypedExpr::Null,
            of: ValueType::Null,
        })),
        PrimaryForm::This | PrimaryForm::Super => Err(refused(WRONG_TYPE, line)),
        PrimaryForm::New => Ok(Head::New),
        PrimaryForm::Parentheses(inner) => Ok(Head::Value(expr(alloc, &*sight, inner.get())?)),
        PrimaryForm::Concatenation(parts) => {
            walk_concatenation(alloc, &*sight, line, parts.as_slice())
        }
        PrimaryForm::Replication(count, parts) => {
            let count = constant(alloc, sight.scopes(), count.get())?;
            walk_replication(alloc, &*sight, line, count, parts.as_slice())
        }
    }
}

#[tactic(auto, unfolding(vera_names::proofs::StepsOpened::steps, crate::specs::WalkLists::concatenation_form))]
#[cycle(walk)]
fn walk_concatenation(
    alloc: Global,
    sight: &Sight<'_>,
    line: u32,
    parts: &[Expr],
) -> Result<Head, FrontError>
    ensures { Answers (lists.concatenation_form sight.now line parts.now) result }
{
    let values = walk_values(alloc, &*sight, parts)?;
    concatenation(alloc, line, values)
}

/// A replication whose count is known.
#[tactic(auto, unfolding(vera_names::proofs::StepsOpened::steps, crate::specs::WalkLists::replication_form))]
#[cycle(walk)]
fn walk_replication(
    alloc: Global,
    sight: &Sight<'_>,
    line: u32,
    count: u32,
    parts: &[Expr],
) -> Result<Head, FrontError>
    ensures { Answers (lists.replication_form sight.now line count parts.now) result }
{
    let values = walk_values(alloc, &*sight, parts)?;
    replication(alloc, line, count, values)
}

#[tactic(auto, using(crate::proofs::WalkSteps::suffixes_done))]
#[cycle(walk)]
fn walk_suffixes(
    alloc: Global,
    sight: &Sight<'_>,
    stand: Stand,
    line: u32,
    suffixes: &[Suffix],
    first: Head,
) -> Result<Head, FrontError>
    ensures { Answers (lists.suffixes_walked sight.now stand line first suffixes.now) result }
{
    let mut head = first;
    for (at, suffix) in suffixes.iter().enumerate() {
        let before = stand_before(stand, suffixes, at);
        head = walk_suffix(alloc, &*sight, before, line, suffix, head)?;
    }
    Ok(head)
}

/// What a suffix makes of what stands before it.
#[tactic(auto, using(crate::proofs::WalkViews::member_walked, crate::proofs::WalkViews::made_walked, crate::proofs::WalkViews::index_walked, crate::proofs::WalkViews::bits_walked, crate::proofs::WalkViews::call_walked), unfolding(vera_names::proofs::StepsOpened::steps))]
#[cycle(walk)]
fn walk_suffix(
    alloc: Global,
    sight: &Sight<'_>,
    stand: Stand,
    line: u32,
    suffix: &Suffix,
    head: Head,
) -> Result<Head, FrontError>
    ensures { Answers (spec.walk_suffix sight.now stand line head suffix.now) result }
{
    match suffix {
        Suffix::Member(word) => member_named(&*sight, line, head, word.as_slice()),
        Suffix::New => {
            drop(head);
            Err(refused(WRONG_TYPE, line))
        }
        Suffix::Index(place) => walk_index(alloc, &*sight, stand, line, place.get(), head),
        Suffix::Bits(high, low) => {
            bits_between(alloc, &*sight, stand, line, head, high.get(), low.get())
        }
        Suffix::Call(arguments) => {
            walk_call(alloc, &*sight, stand, line, arguments.as_slice(), head)
        }
    }
}

#[tactic(auto, unfolding(vera_names::proofs::StepsOpened::steps, crate::specs::WalkLists::index_form))]
#[cycle(walk)]
fn walk_index(
    alloc: Global,
    sight: &Sight<'_>,
    stand: Stand,
    line: u32,
    place: &Expr,
    head: Head,
) -> Result<Head, FrontError>
    ensures { Answers (lists.index_form sight.now stand line head place.now) result }
{
    match expr(alloc, &*sight, place) {
        Ok(value) => index(alloc, stand, line, head, value),
        Err(error) => {
            drop(head);
            Err(error)
        }
    }
}

#[tactic(auto, unfolding(vera_names::proofs::StepsOpened::steps, crate::specs::WalkLists::call_form))]
#[cycle(walk)]
fn walk_call(
    alloc: Global,
    sight: &Sight<'_>,
    stand: Stand,
    line: u32,
    exprs: &[Expr],
    head: Head,
) -> Result<Head, FrontError>
    ensures { Answers (lists.call_form sight.now stand line head exprs.now) result }
{
    let wanted = wanted_of(sight.outline(), &head);
    match walk_arguments(alloc, &*sight, &wanted, exprs) {
        Ok(arguments) => call(alloc, sight, stand, line, head, arguments),
        Err(error) => {
            drop(head);
            Err(error)
        }
    }
}

/// The arguments, each by what its call wants there.
#[tactic(auto, using(crate::proofs::WalkSteps::arguments_refused, crate::proofs::WalkSteps::arguments_done, vera_calls::proofs::Wants::after_from))]
#[cycle(walk)]
fn walk_arguments(
    alloc: Global,
    sight: &Sight<'_>,
    wanted: &Wanted<'_>,
    exprs: &[Expr],
) -> Result<Vec<Argument>, FrontError>
    ensures { Answers (lists.arguments_walked sight.now (modes_told wanted.now) (wants_told wanted.now) exprs.now) (with_items result) }
{
    let mut given = Vec::new(alloc);
    for (place, expr) in exprs.iter().enumerate() {
        let want = wanted.at(place);
        let next = walk_argument(alloc, &*sight, wanted, want, expr)?;
        given.push(next)?;
    }
    Ok(given)
}

/// An argument where this is wanted.
#[tactic(auto, unfolding(vera_names::proofs::StepsOpened::steps))]
#[cycle(walk)]
fn walk_argument(
    alloc: Global,
    sight: &Sight<'_>,
    wanted: &Wanted<'_>,
    want: Want,
    expr: &Expr,
) -> Result<Argument, FrontError>
    ensures { Answers (lists.argument_at sight.now (modes_told wanted.now) want expr.now) result }
{
    let head = walk(alloc, &*sight, argument_stand(want), expr)?;
    argument(alloc, wanted, want, expr.line(), head)
}
