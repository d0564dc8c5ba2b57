//! Types, declarations and parameters. Each function reads where so many levels of depth are left.

ghost use Rattle.std.specs.Prelude.{◌≡◌, Ok, [], ◌∷◌};
ghost use Rattle.vera_ast.specs.declared.codes.TheConstants as code;
ghost use Rattle.grammar_laws.specs.Readers.{Reads, and_then};
ghost use Rattle.parse_cursor.specs.TokenReading as reading_of;
ghost use Rattle.parse_cursor.specs.TokenReading.{word};
ghost use Rattle.parse_stmts.specs.Declarations as grammar;
ghost use Rattle.parse_stmts.specs.DeclarationReading as reading;
ghost use Rattle.parse_exprs.specs.ExpressionReading as expr_reading;

use four_state::List;
use grammar_laws::Fault;
use parse_cursor::cursor::Cursor;
use parse_cursor::trees::list_from;
use parse_cursor::turns::list;
use parse_exprs::exprs::expr;
use std::alloc::Global;
use vera_ast::codes::{
    BIT, COLON, COMMA, EQUALS, EVENT, INTEGER, LEFT_BRACKET, REG, RIGHT_BRACKET, SEMICOLON, STRING,
    VAR,
};
use vera_ast::{Bracket, DataType, Decl, Expr, Parameter, Range, TypeForm, Variable, with};

/// What stands in brackets behind a variable's name.
fn bracket_of(size: Option<Expr>) -> Bracket
    ensures { result ≡ grammar.bracket_of size }
{
    match size {
        None => Bracket::None,
        Some(size) => Bracket::Fixed(size),
    }
}

/// A parameter's line: that of `var` where it is there.
fn first_line(mark: Option<u32>, other: u32) -> u32
    ensures { result ≡ grammar.first_line mark other }
{
    match mark {
        Some(line) => line,
        None => other,
    }
}

/// `"[" expr ":" expr "]"`.
#[tactic(auto, unfolding(crate::specs::DeclarationReading::range, grammar_laws::specs::Readers::and_then))]
fn range(alloc: Global, tokens: &mut Cursor<'_>, depth: usize) -> Result<Range, Fault>
    ensures { Reads (reading.range (expr_reading.expr depth) tokens.old.rest.now) result tokens.new.rest.now }
{
    let line = tokens.word(LEFT_BRACKET)?;
    let high = expr(alloc, tokens, depth)?;
    let (high, _) = with(high, tokens.word(COLON))?;
    let (high, low) = with(high, expr(alloc, tokens, depth))?;
    let (range, _) = with(Range { line, high, low }, tokens.word(RIGHT_BRACKET))?;
    Ok(range)
}

/// `[ range ]`.
#[tactic(auto, unfolding(grammar_laws::specs::Readers::either, grammar_laws::specs::Readers::and_then))]
pub fn any_range(
    alloc: Global,
    tokens: &mut Cursor<'_>,
    depth: usize,
) -> Result<Option<Range>, Fault>
    ensures { Reads (reading_of.maybe (code.LEFT_BRACKET ∷ []) (reading.range (expr_reading.expr depth)) tokens.old.rest.now) result tokens.new.rest.now }
{
    if !tokens.begins(&[LEFT_BRACKET]) {
        return Ok(None);
    }
    let range = range(alloc, tokens, depth)?;
    Ok(Some(range))
}

#[tactic(auto, unfolding(crate::specs::DeclarationReading::bit, grammar_laws::specs::Readers::and_then))]
fn bit(alloc: Global, tokens: &mut Cursor<'_>, depth: usize) -> Result<DataType, Fault>
    ensures { Reads (reading.bit (expr_reading.expr depth) tokens.old.rest.now) result tokens.new.rest.now }
{
    let line = tokens.word(BIT)?;
    let range = any_range(alloc, tokens, depth)?;
    Ok(DataType {
        line,
        form: TypeForm::Bit(range),
    })
}

#[tactic(auto, unfolding(crate::specs::DeclarationReading::reg, grammar_laws::specs::Readers::and_then))]
fn reg(alloc: Global, tokens: &mut Cursor<'_>, depth: usize) -> Result<DataType, Fault>
    ensures { Reads (reading.reg (expr_reading.expr depth) tokens.old.rest.now) result tokens.new.rest.now }
{
    let line = tokens.word(REG)?;
    let range = any_range(alloc, tokens, depth)?;
    Ok(DataType {
        line,
        form: TypeForm::Reg(range),
    })
}

/// A type of one word.
#[tactic(auto, unfolding(grammar_laws::specs::Readers::and_then))]
fn fixed(tokens: &mut Cursor<'_>, code: u8, form: TypeForm) -> Result<DataType, Fault>
    ensures { Reads (and_then (word code tokens.old.rest.now) (λ line rest. Ok (grammar.type_at form line, rest))) result tokens.new.rest.now }
{
    let (form, line) = with(form, tokens.word(code))?;
    Ok(DataType { line, form })
}

#[tactic(auto, unfolding(crate::specs::DeclarationReading::named, grammar_laws::specs::Readers::and_then))]
fn named(alloc: Global, tokens: &mut Cursor<'_>, depth: usize) -> Result<DataType, Fault>
    ensures { Reads (reading.named (expr_reading.expr depth) tokens.old.rest.now) result tokens.new.rest.now }
{
    let name = tokens.name(alloc)?;
    Ok(DataType {
        line: name.line,
        form: TypeForm::Named(name.text),
    })
}

/// A type.
#[tactic(auto, unfolding(crate::specs::DeclarationReading::data_type, crate::specs::DeclarationReading::integer, crate::specs::DeclarationReading::string_type, crate::specs::DeclarationReading::event, grammar_laws::specs::Readers::either))]
pub fn data_type(alloc: Global, tokens: &mut Cursor<'_>, depth: usize) -> Result<DataType, Fault>
    ensures { Reads (reading.data_type (expr_reading.expr depth) tokens.old.rest.now) result tokens.new.rest.now }
{
    if tokens.begins(&[INTEGER]) {
        fixed(tokens, INTEGER, TypeForm::Integer)
    } else if tokens.begins(&[BIT]) {
        bit(alloc, tokens, depth)
    } else if tokens.begins(&[REG]) {
        reg(alloc, tokens, depth)
    } else if tokens.begins(&[STRING]) {
        fixed(tokens, STRING, TypeForm::Str)
    } else if tokens.begins(&[EVENT]) {
        fixed(tokens, EVENT, TypeForm::Event)
    } else {
        named(alloc, tokens, depth)
    }
}

#[tactic(auto, unfolding(crate::specs::DeclarationReading::size, grammar_laws::specs::Readers::and_then))]
fn size(alloc: Global, tokens: &mut Cursor<'_>, depth: usize) -> Result<Expr, Fault>
    ensures { Reads (reading.size (expr_reading.expr depth) tokens.old.rest.now) result tokens.new.rest.now }
{
    tokens.word(LEFT_BRACKET)?;
    let size = expr(alloc, tokens, depth)?;
    let (size, _) = with(size, tokens.word(RIGHT_BRACKET))?;
    Ok(size)
}

#[tactic(auto, unfolding(crate::specs::DeclarationReading::initial, grammar_laws::specs::Readers::and_then))]
fn initial(alloc: Global, tokens: &mut Cursor<'_>, depth: usize) -> Result<Expr, Fault>
    ensures { Reads (reading.initial (expr_reading.expr depth) tokens.old.rest.now) result tokens.new.rest.now }
{
    tokens.word(EQUALS)?;
    expr(alloc, tokens, depth)
}

/// `[ "[" expr "]" ]`.
#[tactic(auto, unfolding(grammar_laws::specs::Readers::either, grammar_laws::specs::Readers::and_then))]
fn any_size(alloc: Global, tokens: &mut Cursor<'_>, depth: usize) -> Result<Option<Expr>, Fault>
    ensures { Reads (reading_of.maybe (code.LEFT_BRACKET ∷ []) (reading.size (expr_reading.expr depth)) tokens.old.rest.now) result tokens.new.rest.now }
{
    if !tokens.begins(&[LEFT_BRACKET]) {
        return Ok(None);
    }
    let size = size(alloc, tokens, depth)?;
    Ok(Some(size))
}

/// `[ "=" expr ]`.
#[tactic(auto, unfolding(grammar_laws::specs::Readers::either, grammar_laws::specs::Readers::and_then))]
fn any_initial(alloc: Global, tokens: &mut Cursor<'_>, depth: usize) -> Result<Option<Expr>, Fault>
    ensures { Reads (reading_of.maybe (code.EQUALS ∷ []) (reading.initial (expr_reading.expr depth)) tokens.old.rest.now) result tokens.new.rest.now }
{
    if !tokens.begins(&[EQUALS]) {
        return Ok(None);
    }
    let value = initial(alloc, tokens, depth)?;
    Ok(Some(value))
}

/// `name [ "[" expr "]" ] [ "=" expr ]`.
#[tactic(auto, unfolding(crate::specs::DeclarationReading::variable, grammar_laws::specs::Readers::and_then))]
pub fn variable(alloc: Global, tokens: &mut Cursor<'_>, depth: usize) -> Result<Variable, Fault>
    ensures { Reads (reading.variable (expr_reading.expr depth) tokens.old.rest.now) result tokens.new.rest.now }
{
    let name = tokens.name(alloc)?;
    let declared = with(name, any_size(alloc, tokens, depth))?;
    let (declared, value) = with(declared, any_initial(alloc, tokens, depth))?;
    let (name, size) = declared;
    Ok(Variable {
        line: name.line,
        name: name.text,
        bracket: bracket_of(size),
        value,
    })
}

#[tactic(auto, unfolding(crate::specs::DeclarationReading::further_variable, grammar_laws::specs::Readers::and_then))]
fn further_variable(alloc: Global, tokens: &mut Cursor<'_>, depth: usize) -> Result<Variable, Fault>
    ensures { Reads (reading.further_variable (expr_reading.expr depth) tokens.old.rest.now) result tokens.new.rest.now }
{
    tokens.word(COMMA)?;
    variable(alloc, tokens, depth)
}

/// `{ "," variable }`.
#[tactic(auto)]
fn further_variables(
    alloc: Global,
    tokens: &mut Cursor<'_>,
    depth: usize,
) -> Result<List<Variable>, Fault>
    ensures { Reads (reading_of.many (code.COMMA ∷ []) (reading.further_variable (expr_reading.expr depth)) tokens.old.rest.now) result tokens.new.rest.now }
{
    list(
        alloc,
        tokens,
        &[COMMA],
        |tokens: &mut Cursor<'_>| further_variable(alloc, tokens, depth),
    )
}

#[tactic(auto, unfolding(crate::specs::DeclarationReading::variables, grammar_laws::specs::Readers::and_then))]
fn variables(alloc: Global, tokens: &mut Cursor<'_>, depth: usize) -> Result<List<Variable>, Fault>
    ensures { Reads (reading.variables (expr_reading.expr depth) tokens.old.rest.now) result tokens.new.rest.now }
{
    let first = variable(alloc, tokens, depth)?;
    let (first, more) = with(first, further_variables(alloc, tokens, depth))?;
    Ok(list_from(alloc, first, more)?)
}

/// The variables of a declaration, behind its type.
#[tactic(auto, unfolding(crate::specs::DeclarationReading::declared, grammar_laws::specs::Readers::and_then))]
fn declared(
    alloc: Global,
    tokens: &mut Cursor<'_>,
    depth: usize,
    of: DataType,
) -> Result<Decl, Fault>
    ensures { Reads (reading.declared (expr_reading.expr depth) of tokens.old.rest.now) result tokens.new.rest.now }
{
    let (of, variables) = with(of, variables(alloc, tokens, depth))?;
    let decl = Decl {
        line: of.line,
        of,
        variables,
    };
    let (decl, _) = with(decl, tokens.word(SEMICOLON))?;
    Ok(decl)
}

/// A declaration.
#[tactic(auto, unfolding(crate::specs::DeclarationReading::decl, grammar_laws::specs::Readers::and_then))]
pub fn decl(alloc: Global, tokens: &mut Cursor<'_>, depth: usize) -> Result<Decl, Fault>
    ensures { Reads (reading.decl (expr_reading.expr depth) tokens.old.rest.now) result tokens.new.rest.now }
{
    let of = data_type(alloc, tokens, depth)?;
    declared(alloc, tokens, depth, of)
}

/// The line of a parameter's `var`, where it is there.
#[tactic(auto, unfolding(crate::specs::DeclarationReading::var_mark, grammar_laws::specs::Readers::either, grammar_laws::specs::Readers::and_then))]
fn mark(tokens: &mut Cursor<'_>, depth: usize) -> Result<Option<u32>, Fault>
    ensures { Reads (reading_of.maybe (code.VAR ∷ []) (reading.var_mark (expr_reading.expr depth)) tokens.old.rest.now) result tokens.new.rest.now }
{
    if !tokens.begins(&[VAR]) {
        return Ok(None);
    }
    let line = tokens.word(VAR)?;
    Ok(Some(line))
}

/// `[ "var" ] type name`.
#[tactic(auto, unfolding(crate::specs::DeclarationReading::param, grammar_laws::specs::Readers::and_then))]
pub fn param(alloc: Global, tokens: &mut Cursor<'_>, depth: usize) -> Result<Parameter, Fault>
    ensures { Reads (reading.param (expr_reading.expr depth) tokens.old.rest.now) result tokens.new.rest.now }
{
    let mark = mark(tokens, depth)?;
    let of = data_type(alloc, tokens, depth)?;
    let (of, name) = with(of, tokens.name(alloc))?;
    Ok(Parameter {
        line: first_line(mark, of.line),
        is_var: mark.is_some(),
        of,
        name: name.text,
    })
}

#[tactic(auto, unfolding(crate::specs::DeclarationReading::further_param, grammar_laws::specs::Readers::and_then))]
fn further_param(alloc: Global, tokens: &mut Cursor<'_>, depth: usize) -> Result<Parameter, Fault>
    ensures { Reads (reading.further_param (expr_reading.expr depth) tokens.old.rest.now) result tokens.new.rest.now }
{
    tokens.word(COMMA)?;
    param(alloc, tokens, depth)
}

/// `{ "," param }`.
#[tactic(auto)]
fn further_params(
    alloc: Global,
    tokens: &mut Cursor<'_>,
    depth: usize,
) -> Result<List<Parameter>, Fault>
    ensures { Reads (reading_of.many (code.COMMA ∷ []) (reading.further_param (expr_reading.expr depth)) tokens.old.rest.now) result tokens.new.rest.now }
{
    list(
        alloc,
        tokens,
        &[COMMA],
        |tokens: &mut Cursor<'_>| further_param(alloc, tokens, depth),
    )
}

/// `param { "," param }`.
#[tactic(auto, unfolding(crate::specs::DeclarationReading::params, grammar_laws::specs::Readers::and_then))]
pub fn params(
    alloc: Global,
    tokens: &mut Cursor<'_>,
    depth: usize,
) -> Result<List<Parameter>, Fault>
    ensures { Reads (reading.params (expr_reading.expr depth) tokens.old.rest.now) result tokens.new.rest.now }
{
    let first = param(alloc, tokens, depth)?;
    let (first, more) = with(first, further_params(alloc, tokens, depth))?;
    Ok(list_from(alloc, first, more)?)
}
