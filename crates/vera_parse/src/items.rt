//! Items.

ghost use Rattle.grammar_laws.specs.Readers.{Reads};
ghost use Rattle.vera_ast.specs.declared.codes.TheConstants as code;
ghost use Rattle.parse_stmts.specs.DeclarationReading as declarations;
ghost use Rattle.parse_exprs.specs.ExpressionReading.{expr};
ghost use Rattle.vera_parse.specs.ItemReading as reading;
ghost use Rattle.parse_cursor.specs.ListReading as lists;
ghost use Rattle.vera_parse.specs.Reading as whole;
ghost use Rattle.parse_cursor.specs.TokenReading.{maybe};
ghost use Rattle.std.specs.Prelude.{[], ◌∷◌};

use crate::coverage::group;
use crate::interfaces::iface;
use four_state::{List, Text};
use grammar_laws::Fault;
use parse_cursor::cursor::Cursor;
use parse_cursor::repeats::{listed, title};
use parse_cursor::turns::list;
use parse_stmts::decls::{data_type, decl, params};
use parse_stmts::stmts::block;
use std::alloc::Global;
use vera_ast::codes::{
    BIT, CLASS, COMMA, COVERAGE_GROUP, ENUM, EQUALS, EVENT, EXTENDS, FUNCTION, INTEGER, INTERFACE,
    LEFT_BRACE, LEFT_PARENTHESIS, NAME, NEW, PROGRAM, REG, RIGHT_BRACE, RIGHT_PARENTHESIS,
    SEMICOLON, STRING, TASK, VAR, VIRTUAL,
};
use vera_ast::{
    Class, DataType, Enumeration, Function, Item, Member, Parameter, Program, Task, TaskName, Tree,
    with,
};

/// The words with which a parameter begins.
const FIRST_PARAM: [u8; 7] = [VAR, INTEGER, BIT, REG, STRING, EVENT, NAME];

/// The words with which a class's member begins.
const FIRST_MEMBER: [u8; 9] = [
    VIRTUAL, TASK, FUNCTION, INTEGER, BIT, REG, STRING, EVENT, NAME,
];

/// The words with which an item begins.
const FIRST_ITEM: [u8; 7] = [
    ENUM,
    CLASS,
    INTERFACE,
    COVERAGE_GROUP,
    TASK,
    FUNCTION,
    PROGRAM,
];

/// `name { "," name }`.
#[tactic(auto)]
fn titles(alloc: Global, tokens: &mut Cursor<'_>) -> Result<List<Text>, Fault>
    ensures { Reads (lists.listed code.COMMA lists.title tokens.old.rest.now) result tokens.new.rest.now }
{
    listed(
        alloc,
        tokens,
        COMMA,
        |tokens: &mut Cursor<'_>| title(alloc, tokens),
    )
}

/// `enum = "enum" name "=" name { "," name } ";"`.
#[tactic(auto, unfolding(crate::specs::ItemReading::enumeration, grammar_laws::specs::Readers::and_then))]
fn enumeration(alloc: Global, tokens: &mut Cursor<'_>) -> Result<Enumeration, Fault>
    ensures { Reads (reading.enumeration tokens.old.rest.now) result tokens.new.rest.now }
{
    let line = tokens.word(ENUM)?;
    let name = title(alloc, tokens)?;
    let (name, _) = with(name, tokens.word(EQUALS))?;
    let (name, values) = with(name, titles(alloc, tokens))?;
    let enumeration = Enumeration { line, name, values };
    let (enumeration, _) = with(enumeration, tokens.word(SEMICOLON))?;
    Ok(enumeration)
}

/// What a task is called: a name, or `new`.
#[tactic(auto, unfolding(crate::specs::ItemReading::task_name, grammar_laws::specs::Readers::and_then, grammar_laws::specs::Readers::either))]
fn task_name(alloc: Global, tokens: &mut Cursor<'_>) -> Result<TaskName, Fault>
    ensures { Reads (reading.task_name tokens.old.rest.now) result tokens.new.rest.now }
{
    if tokens.begins(&[NAME]) {
        let name = title(alloc, tokens)?;
        return Ok(TaskName::Named(name));
    }
    tokens.word(NEW)?;
    Ok(TaskName::New)
}

/// Parameters, where there are any.
#[tactic(auto, unfolding(grammar_laws::specs::Readers::either))]
fn any_params(
    alloc: Global,
    tokens: &mut Cursor<'_>,
    depth: usize,
) -> Result<List<Parameter>, Fault>
    ensures { Reads (reading.any_params (declarations.params (expr depth)) tokens.old.rest.now) result tokens.new.rest.now }
{
    if tokens.begins(&FIRST_PARAM) {
        params(alloc, tokens, depth)
    } else {
        Ok(List::empty(alloc))
    }
}

/// `"(" [ params ] ")"`.
#[tactic(auto, unfolding(crate::specs::ItemReading::parameters, grammar_laws::specs::Readers::and_then))]
fn parameters(
    alloc: Global,
    tokens: &mut Cursor<'_>,
    depth: usize,
) -> Result<List<Parameter>, Fault>
    ensures { Reads (reading.parameters (declarations.params (expr depth)) tokens.old.rest.now) result tokens.new.rest.now }
{
    tokens.word(LEFT_PARENTHESIS)?;
    let all = any_params(alloc, tokens, depth)?;
    let (all, _) = with(all, tokens.word(RIGHT_PARENTHESIS))?;
    Ok(all)
}

/// `( name | "new" ) "(" [ params ] ")"`.
#[tactic(auto, unfolding(crate::specs::ItemReading::task_head, grammar_laws::specs::Readers::and_then))]
fn task_head(
    alloc: Global,
    tokens: &mut Cursor<'_>,
    depth: usize,
) -> Result<(TaskName, List<Parameter>), Fault>
    ensures { Reads (whole.task_head depth tokens.old.rest.now) result tokens.new.rest.now }
{
    let name = task_name(alloc, tokens)?;
    with(name, parameters(alloc, tokens, depth))
}

/// `task = "task" ( name | "new" ) "(" [ params ] ")" block`.
#[tactic(auto, unfolding(crate::specs::ItemReading::task, grammar_laws::specs::Readers::and_then))]
fn task(alloc: Global, tokens: &mut Cursor<'_>, depth: usize) -> Result<Task, Fault>
    ensures { Reads (whole.task depth tokens.old.rest.now) result tokens.new.rest.now }
{
    let line = tokens.word(TASK)?;
    let head = task_head(alloc, tokens, depth)?;
    let ((name, parameters), block) = with(head, block(alloc, tokens, depth))?;
    Ok(Task {
        line,
        name,
        parameters,
        block,
    })
}

/// `type name "(" [ params ] ")"`.
#[tactic(auto, unfolding(crate::specs::ItemReading::signature, grammar_laws::specs::Readers::and_then))]
fn signature(
    alloc: Global,
    tokens: &mut Cursor<'_>,
    depth: usize,
) -> Result<(DataType, (Text, List<Parameter>)), Fault>
    ensures { Reads (whole.signature depth tokens.old.rest.now) result tokens.new.rest.now }
{
    let result = data_type(alloc, tokens, depth)?;
    let (result, name) = with(result, title(alloc, tokens))?;
    let ((result, name), parameters) = with((result, name), parameters(alloc, tokens, depth))?;
    Ok((result, (name, parameters)))
}

/// `func = "function" type name "(" [ params ] ")" block`.
#[tactic(auto, unfolding(crate::specs::ItemReading::func, grammar_laws::specs::Readers::and_then))]
fn func(alloc: Global, tokens: &mut Cursor<'_>, depth: usize) -> Result<Function, Fault>
    ensures { Reads (whole.func depth tokens.old.rest.now) result tokens.new.rest.now }
{
    let line = tokens.word(FUNCTION)?;
    let head = signature(alloc, tokens, depth)?;
    let (head, block) = with(head, block(alloc, tokens, depth))?;
    Ok(Function {
        line,
        result: head.0,
        name: head.1.0,
        parameters: head.1.1,
        block,
    })
}

/// `prog = "program" name block`.
#[tactic(auto, unfolding(crate::specs::ItemReading::prog, grammar_laws::specs::Readers::and_then))]
fn prog(alloc: Global, tokens: &mut Cursor<'_>, depth: usize) -> Result<Program, Fault>
    ensures { Reads (whole.prog depth tokens.old.rest.now) result tokens.new.rest.now }
{
    let line = tokens.word(PROGRAM)?;
    let name = title(alloc, tokens)?;
    let (name, block) = with(name, block(alloc, tokens, depth))?;
    Ok(Program { line, name, block })
}

/// A method of a class, after its `virtual` where there is one.
#[tactic(auto, unfolding(crate::specs::ItemReading::method, grammar_laws::specs::Readers::and_then, grammar_laws::specs::Readers::either))]
fn method(
    alloc: Global,
    tokens: &mut Cursor<'_>,
    depth: usize,
    is_virtual: bool,
) -> Result<Member, Fault>
    ensures { Reads (whole.method depth is_virtual tokens.old.rest.now) result tokens.new.rest.now }
{
    if tokens.begins(&[TASK]) {
        let task = task(alloc, tokens, depth)?;
        return Ok(Member::Task(is_virtual, task));
    }
    let func = func(alloc, tokens, depth)?;
    Ok(Member::Function(is_virtual, func))
}

/// `decl | [ "virtual" ] task | [ "virtual" ] func`.
#[tactic(auto, unfolding(crate::specs::ItemReading::class_member, grammar_laws::specs::Readers::and_then, grammar_laws::specs::Readers::either))]
fn class_member(alloc: Global, tokens: &mut Cursor<'_>, depth: usize) -> Result<Member, Fault>
    ensures { Reads (whole.class_member depth tokens.old.rest.now) result tokens.new.rest.now }
{
    if tokens.begins(&[VIRTUAL]) {
        tokens.word(VIRTUAL)?;
        return method(alloc, tokens, depth, true);
    }
    if tokens.begins(&[TASK, FUNCTION]) {
        return method(alloc, tokens, depth, false);
    }
    let field = decl(alloc, tokens, depth)?;
    Ok(Member::Field(field))
}

/// `"extends" name`.
#[tactic(auto, unfolding(parse_cursor::specs::ListReading::after, grammar_laws::specs::Readers::and_then))]
fn parent_name(alloc: Global, tokens: &mut Cursor<'_>) -> Result<Text, Fault>
    ensures { Reads (lists.after code.EXTENDS lists.title tokens.old.rest.now) result tokens.new.rest.now }
{
    tokens.word(EXTENDS)?;
    title(alloc, tokens)
}

/// `[ "extends" name ]`.
#[tactic(auto, unfolding(grammar_laws::specs::Readers::and_then, grammar_laws::specs::Readers::either))]
fn parent(alloc: Global, tokens: &mut Cursor<'_>) -> Result<Option<Text>, Fault>
    ensures { Reads (maybe (code.EXTENDS ∷ []) (lists.after code.EXTENDS lists.title) tokens.old.rest.now) result tokens.new.rest.now }
{
    if !tokens.begins(&[EXTENDS]) {
        return Ok(None);
    }
    let name = parent_name(alloc, tokens)?;
    Ok(Some(name))
}

/// `{ decl | [ "virtual" ] task | [ "virtual" ] func }`.
#[tactic(auto)]
fn all_members(alloc: Global, tokens: &mut Cursor<'_>, depth: usize) -> Result<List<Member>, Fault>
    ensures { Reads (whole.all_members depth tokens.old.rest.now) result tokens.new.rest.now }
{
    list(
        alloc,
        tokens,
        &FIRST_MEMBER,
        |tokens: &mut Cursor<'_>| class_member(alloc, tokens, depth),
    )
}

/// `"{" { decl | [ "virtual" ] task | [ "virtual" ] func } "}"`.
#[tactic(auto, unfolding(crate::specs::ItemReading::class_body, grammar_laws::specs::Readers::and_then))]
fn class_body(alloc: Global, tokens: &mut Cursor<'_>, depth: usize) -> Result<List<Member>, Fault>
    ensures { Reads (whole.class_body depth tokens.old.rest.now) result tokens.new.rest.now }
{
    tokens.word(LEFT_BRACE)?;
    let all = all_members(alloc, tokens, depth)?;
    let (all, _) = with(all, tokens.word(RIGHT_BRACE))?;
    Ok(all)
}

/// `class = "class" name [ "extends" name ] "{" { decl | [ "virtual" ] task | [ "virtual" ] func } "}"`.
#[tactic(auto, unfolding(crate::specs::ItemReading::class, grammar_laws::specs::Readers::and_then))]
fn class(alloc: Global, tokens: &mut Cursor<'_>, depth: usize) -> Result<Class, Fault>
    ensures { Reads (whole.class depth tokens.old.rest.now) result tokens.new.rest.now }
{
    let line = tokens.word(CLASS)?;
    let name = title(alloc, tokens)?;
    let (name, parent) = with(name, parent(alloc, tokens))?;
    let head = (name, parent);
    let ((name, parent), members) = with(head, class_body(alloc, tokens, depth))?;
    Ok(Class {
        line,
        name,
        parent,
        members,
    })
}

/// `task | func | prog`.
#[tactic(auto, unfolding(crate::specs::ItemReading::routine_item, grammar_laws::specs::Readers::and_then, grammar_laws::specs::Readers::either))]
fn routine_item(alloc: Global, tokens: &mut Cursor<'_>, depth: usize) -> Result<Item, Fault>
    ensures { Reads (whole.routine_item depth tokens.old.rest.now) result tokens.new.rest.now }
{
    if tokens.begins(&[TASK]) {
        return Ok(Item::Task(task(alloc, tokens, depth)?));
    }
    if tokens.begins(&[FUNCTION]) {
        return Ok(Item::Function(func(alloc, tokens, depth)?));
    }
    Ok(Item::Program(prog(alloc, tokens, depth)?))
}

/// `iface | group | task | func | prog`.
#[tactic(auto, unfolding(crate::specs::ItemReading::design_item, grammar_laws::specs::Readers::and_then, grammar_laws::specs::Readers::either))]
fn design_item(alloc: Global, tokens: &mut Cursor<'_>, depth: usize) -> Result<Item, Fault>
    ensures { Reads (whole.design_item depth tokens.old.rest.now) result tokens.new.rest.now }
{
    if tokens.begins(&[INTERFACE]) {
        return Ok(Item::Interface(iface(alloc, tokens, depth)?));
    }
    if tokens.begins(&[COVERAGE_GROUP]) {
        return Ok(Item::Group(group(alloc, tokens, depth)?));
    }
    routine_item(alloc, tokens, depth)
}

/// `item = enum | class | iface | group | task | func | prog`.
#[tactic(auto, unfolding(crate::specs::ItemReading::any_item, grammar_laws::specs::Readers::and_then, grammar_laws::specs::Readers::either))]
fn any_item(alloc: Global, tokens: &mut Cursor<'_>, depth: usize) -> Result<Item, Fault>
    ensures { Reads (whole.any_item depth tokens.old.rest.now) result tokens.new.rest.now }
{
    if tokens.begins(&[ENUM]) {
        return Ok(Item::Enumeration(enumeration(alloc, tokens)?));
    }
    if tokens.begins(&[CLASS]) {
        return Ok(Item::Class(class(alloc, tokens, depth)?));
    }
    design_item(alloc, tokens, depth)
}

/// `{ item }`.
#[tactic(auto)]
fn all_items(alloc: Global, tokens: &mut Cursor<'_>, depth: usize) -> Result<List<Item>, Fault>
    ensures { Reads (whole.all_items depth tokens.old.rest.now) result tokens.new.rest.now }
{
    list(
        alloc,
        tokens,
        &FIRST_ITEM,
        |tokens: &mut Cursor<'_>| any_item(alloc, tokens, depth),
    )
}

/// Any number of items.
#[tactic(auto, unfolding(crate::specs::Reading::file_items, crate::specs::ItemReading::items, grammar_laws::specs::Readers::and_then))]
pub fn items(alloc: Global, tokens: &mut Cursor<'_>, depth: usize) -> Result<Tree, Fault>
    ensures { Reads (whole.file_items depth tokens.old.rest.now) result tokens.new.rest.now }
{
    let items = all_items(alloc, tokens, depth)?;
    Ok(Tree { items })
}
