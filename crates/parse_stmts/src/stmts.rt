//! Statements: one function for each production, and the one that nests.

ghost use Rattle.std.specs.Prelude.{◌≡◌, ℕ};
ghost use Rattle.grammar_laws.specs.Readers.{Reads};
ghost use Rattle.parse_stmts.specs.DeclarationReading.{decl as decl_of};
ghost use Rattle.parse_exprs.specs.ExpressionReading.{expr as expr_at};
ghost use Rattle.parse_cursor.specs.Nesting.{Nests};
ghost use Rattle.parse_stmts.specs.PartReading.{post_at, free_at};
ghost use Rattle.parse_stmts.specs.StatementReading as reading;
ghost use Rattle.parse_stmts.specs.StatementSets.{first_stmt};
ghost use Rattle.parse_cursor.specs.TokenReading.{many, maybe};
ghost use Rattle.vera_ast.specs.declared.codes.TheConstants as codes;
ghost use Rattle.std.specs.Prelude.{[], ◌∷◌};

use crate::decls::decl;
use crate::kinds::{begins_decl, is_stray};
use crate::parts::step;
use crate::simple::simple_stmt;
use crate::statement_sets::{FIRST_ARM, FIRST_STMT};
use four_state::List;
use grammar_laws::{Fault, Why};
use parse_cursor::cursor::Cursor;
use parse_cursor::repeats::some_items;
use parse_cursor::trees::list_from;
use parse_cursor::turns::{list, many};
use parse_exprs::exprs::{expr, free};
use parse_exprs::sets::FIRST_EXPR;
use sqlite_items::{Boxed, Items};
use std::alloc::Global;
use vera_ast::codes::{
    ALL, ANY, BREAK, CASE, COLON, COMMA, CONTINUE, DEFAULT, ELSE, EQUALS, FOR, FORK, IF, JOIN,
    LEFT_BRACE, LEFT_PARENTHESIS, NONE, REPEAT, RETURN, RIGHT_BRACE, RIGHT_PARENTHESIS, SEMICOLON,
    TERMINATE, VOID, WHILE,
};
use vera_ast::{
    Arm, ArmLabel, Block, Decl, Expr, For, Fork, If, Join, Repeat, Step, Stmt, Void, While,
};

/// `";"`.
#[tactic(auto, unfolding(crate::specs::StatementReading::empty, grammar_laws::specs::Readers::and_then))]
fn empty(tokens: &mut Cursor<'_>) -> Result<Stmt, Fault>
    ensures { Reads (reading.empty tokens.old.rest.now) result tokens.new.rest.now }
{
    let line = tokens.word(SEMICOLON)?;
    Ok(Stmt::Empty(line))
}

/// A keyword and `";"`: its line.
#[tactic(auto, unfolding(crate::specs::StatementReading::lone, grammar_laws::specs::Readers::and_then))]
fn lone(tokens: &mut Cursor<'_>, keyword: u8) -> Result<u32, Fault>
    ensures { Reads (reading.lone keyword tokens.old.rest.now) result tokens.new.rest.now }
{
    let line = tokens.word(keyword)?;
    tokens.word(SEMICOLON)?;
    Ok(line)
}

/// `"break" ";" | "continue" ";" | "return" ";" | "terminate" ";"`.
#[tactic(auto, unfolding(crate::specs::StatementReading::jump, grammar_laws::specs::Readers::and_then, grammar_laws::specs::Readers::either))]
fn jump(tokens: &mut Cursor<'_>) -> Result<Stmt, Fault>
    ensures { Reads (reading.jump tokens.old.rest.now) result tokens.new.rest.now }
{
    if tokens.begins(&[BREAK]) {
        Ok(Stmt::Break(lone(tokens, BREAK)?))
    } else if tokens.begins(&[CONTINUE]) {
        Ok(Stmt::Continue(lone(tokens, CONTINUE)?))
    } else if tokens.begins(&[RETURN]) {
        Ok(Stmt::Return(lone(tokens, RETURN)?))
    } else {
        Ok(Stmt::Terminate(lone(tokens, TERMINATE)?))
    }
}

/// `[ "all" | "any" | "none" ]`.
#[tactic(auto, unfolding(crate::specs::StatementReading::join_mode, grammar_laws::specs::Readers::and_then, grammar_laws::specs::Readers::either))]
fn join_mode(tokens: &mut Cursor<'_>) -> Result<Join, Fault>
    ensures { Reads (reading.join_mode tokens.old.rest.now) result tokens.new.rest.now }
{
    if tokens.begins(&[ALL]) {
        tokens.word(ALL)?;
        return Ok(Join::All);
    }
    if tokens.begins(&[ANY]) {
        tokens.word(ANY)?;
        return Ok(Join::Any);
    }
    if tokens.begins(&[NONE]) {
        tokens.word(NONE)?;
        return Ok(Join::None);
    }
    Ok(Join::All)
}

/// `"void" "=" post ";"`.
#[tactic(auto, unfolding(crate::specs::StatementReading::void_stmt, grammar_laws::specs::Readers::and_then))]
fn void_stmt(alloc: Global, tokens: &mut Cursor<'_>, depth: usize) -> Result<Stmt, Fault>
    ensures { Reads (reading.void_stmt (free_at depth) tokens.old.rest.now) result tokens.new.rest.now }
{
    let line = tokens.word(VOID)?;
    tokens.word(EQUALS)?;
    let value = free(alloc, tokens, depth)?;
    tokens.word(SEMICOLON)?;
    Ok(Stmt::Void(Void { line, value }))
}

/// `"(" expr ")"`.
#[tactic(auto, unfolding(crate::specs::StatementReading::condition, grammar_laws::specs::Readers::and_then))]
fn condition(alloc: Global, tokens: &mut Cursor<'_>, depth: usize) -> Result<Expr, Fault>
    ensures { Reads (reading.condition (expr_at depth) (reading.stmt depth) tokens.old.rest.now) result tokens.new.rest.now }
{
    tokens.word(LEFT_PARENTHESIS)?;
    let value = expr(alloc, tokens, depth)?;
    tokens.word(RIGHT_PARENTHESIS)?;
    Ok(value)
}

/// `"," expr`.
#[tactic(auto, unfolding(crate::specs::StatementReading::next_value, grammar_laws::specs::Readers::and_then))]
fn next_value(alloc: Global, tokens: &mut Cursor<'_>, depth: usize) -> Result<Expr, Fault>
    ensures { Reads (reading.next_value (expr_at depth) (reading.stmt depth) tokens.old.rest.now) result tokens.new.rest.now }
{
    tokens.word(COMMA)?;
    expr(alloc, tokens, depth)
}

/// `expr { "," expr } | "default"`, with the line of its first token.
#[tactic(auto, unfolding(crate::specs::StatementReading::arm_label, grammar_laws::specs::Readers::and_then, grammar_laws::specs::Readers::either))]
fn arm_label(alloc: Global, tokens: &mut Cursor<'_>, depth: usize) -> Result<(u32, ArmLabel), Fault>
    ensures { Reads (reading.arm_label (expr_at depth) (reading.stmt depth) tokens.old.rest.now) result tokens.new.rest.now }
{
    if !tokens.begins(&FIRST_EXPR) {
        let line = tokens.word(DEFAULT)?;
        return Ok((line, ArmLabel::Default));
    }
    let first = expr(alloc, tokens, depth)?;
    let more = list(
        alloc,
        tokens,
        &[COMMA],
        |tokens: &mut Cursor<'_>| next_value(alloc, tokens, depth),
    )?;
    let line = first.line();
    Ok((line, ArmLabel::Values(list_from(alloc, first, more)?)))
}

/// A step and this token.
#[tactic(auto, unfolding(crate::specs::StatementReading::step_then, grammar_laws::specs::Readers::and_then))]
fn step_then(
    alloc: Global,
    tokens: &mut Cursor<'_>,
    depth: usize,
    closing: u8,
) -> Result<Step, Fault>
    ensures { Reads (reading.step_then (expr_at depth) (reading.stmt depth) (free_at depth) closing tokens.old.rest.now) result tokens.new.rest.now }
{
    let step = step(alloc, tokens, depth)?;
    tokens.word(closing)?;
    Ok(step)
}

/// `expr ";"`.
#[tactic(auto, unfolding(crate::specs::StatementReading::for_condition, grammar_laws::specs::Readers::and_then))]
fn for_condition(alloc: Global, tokens: &mut Cursor<'_>, depth: usize) -> Result<Expr, Fault>
    ensures { Reads (reading.for_condition (expr_at depth) (reading.stmt depth) tokens.old.rest.now) result tokens.new.rest.now }
{
    let value = expr(alloc, tokens, depth)?;
    tokens.word(SEMICOLON)?;
    Ok(value)
}

/// `expr ";" step ")"`.
#[tactic(auto, unfolding(crate::specs::StatementReading::turn, grammar_laws::specs::Readers::and_then))]
fn turn(alloc: Global, tokens: &mut Cursor<'_>, depth: usize) -> Result<(Expr, Step), Fault>
    ensures { Reads (reading.turn (expr_at depth) (reading.stmt depth) (free_at depth) tokens.old.rest.now) result tokens.new.rest.now }
{
    let condition = for_condition(alloc, tokens, depth)?;
    let step = step_then(alloc, tokens, depth, RIGHT_PARENTHESIS)?;
    Ok((condition, step))
}

/// `"(" step ";"`.
#[tactic(auto, unfolding(crate::specs::StatementReading::start, grammar_laws::specs::Readers::and_then))]
fn start(alloc: Global, tokens: &mut Cursor<'_>, depth: usize) -> Result<Step, Fault>
    ensures { Reads (reading.start (expr_at depth) (reading.stmt depth) (free_at depth) tokens.old.rest.now) result tokens.new.rest.now }
{
    tokens.word(LEFT_PARENTHESIS)?;
    step_then(alloc, tokens, depth, SEMICOLON)
}

/// `"(" step ";" expr ";" step ")"`.
#[tactic(auto, unfolding(crate::specs::StatementReading::turns, grammar_laws::specs::Readers::and_then))]
fn turns(
    alloc: Global,
    tokens: &mut Cursor<'_>,
    depth: usize,
) -> Result<(Step, (Expr, Step)), Fault>
    ensures { Reads (reading.turns (expr_at depth) (reading.stmt depth) (free_at depth) tokens.old.rest.now) result tokens.new.rest.now }
{
    let start = start(alloc, tokens, depth)?;
    let each = turn(alloc, tokens, depth)?;
    Ok((start, each))
}

/// `( expr { "," expr } | "default" ) ":"`.
#[tactic(auto, unfolding(crate::specs::StatementReading::labelled, grammar_laws::specs::Readers::and_then))]
fn labelled(alloc: Global, tokens: &mut Cursor<'_>, depth: usize) -> Result<(u32, ArmLabel), Fault>
    ensures { Reads (reading.labelled (expr_at depth) (reading.stmt depth) tokens.old.rest.now) result tokens.new.rest.now }
{
    let label = arm_label(alloc, tokens, depth)?;
    tokens.word(COLON)?;
    Ok(label)
}

/// `"join" [ "all" | "any" | "none" ]`.
#[tactic(auto, unfolding(crate::specs::StatementReading::joined, grammar_laws::specs::Readers::and_then))]
fn joined(tokens: &mut Cursor<'_>) -> Result<Join, Fault>
    ensures { Reads (reading.joined tokens.old.rest.now) result tokens.new.rest.now }
{
    tokens.word(JOIN)?;
    join_mode(tokens)
}

/// `{ decl }`.
fn decls(alloc: Global, tokens: &mut Cursor<'_>, depth: usize) -> Result<List<Decl>, Fault>
    ensures { Reads (reading.decls (decl_of (expr_at depth)) tokens.old.rest.now) result tokens.new.rest.now }
{
    let mut found = Vec::new(alloc);
    for _turn in 0..tokens.rest.len() {
        if !begins_decl(tokens) {
            return Ok(List::of(found));
        }
        found.push(decl(alloc, tokens, depth)?)?;
    }
    Ok(List::of(found))
}

/// The statements that nest statements, at a depth.
#[derive(Clone, Copy)]
pub struct Statements<F> {
    alloc: Global,
    /// How deep productions may still nest.
    depth: usize,
    stmt: F,
}

impl<F: Fn(Global, &mut Cursor<'_>, usize) -> Result<Stmt, Fault>> Statements<F> {
    fn stmt(&self, tokens: &mut Cursor<'_>) -> Result<Stmt, Fault>
        requires { Nests (reading.stmt self.now.depth) self.now.depth (F.pre self.now.stmt) (F.post self.now.stmt) }
        ensures { Reads (reading.stmt self.now.depth tokens.old.rest.now) result tokens.new.rest.now }
    {
        (self.stmt)(self.alloc, tokens, self.depth)
    }

    /// `{ stmt }`.
    #[tactic(auto)]
    fn all_stmts(&self, tokens: &mut Cursor<'_>) -> Result<Items<Stmt>, Fault>
        requires { Nests (reading.stmt self.now.depth) self.now.depth (F.pre self.now.stmt) (F.post self.now.stmt) }
        ensures { Reads (many first_stmt (reading.stmt self.now.depth) tokens.old.rest.now) result tokens.new.rest.now }
    {
        many(
            self.alloc,
            tokens,
            &FIRST_STMT,
            |tokens: &mut Cursor<'_>| self.stmt(tokens),
        )
    }

    /// The statements of a block, behind its declarations.
    #[tactic(auto, unfolding(grammar_laws::specs::Readers::past_stray))]
    fn stmts(&self, tokens: &mut Cursor<'_>) -> Result<Items<Stmt>, Fault>
        requires { Nests (reading.stmt self.now.depth) self.now.depth (F.pre self.now.stmt) (F.post self.now.stmt) }
        ensures { Reads (reading.stmts (reading.stmt self.now.depth) tokens.old.rest.now) result tokens.new.rest.now }
    {
        if is_stray(tokens) {
            return Err(tokens.behind().stop(Why::Syntax));
        }
        self.all_stmts(tokens)
    }

    /// A statement, in a box.
    #[tactic(auto)]
    fn boxed(&self, tokens: &mut Cursor<'_>) -> Result<Boxed<Stmt>, Fault>
        requires { Nests (reading.stmt self.now.depth) self.now.depth (F.pre self.now.stmt) (F.post self.now.stmt) }
        ensures { Reads (reading.stmt self.now.depth tokens.old.rest.now) result tokens.new.rest.now }
    {
        let stmt = self.stmt(tokens)?;
        Ok(Boxed::new(self.alloc, stmt)?)
    }

    /// `{ decl } { stmt }`.
    #[tactic(auto, unfolding(grammar_laws::specs::Readers::and_then))]
    fn items(&self, tokens: &mut Cursor<'_>) -> Result<(List<Decl>, Items<Stmt>), Fault>
        requires { Nests (reading.stmt self.now.depth) self.now.depth (F.pre self.now.stmt) (F.post self.now.stmt) }
        ensures { Reads (reading.items (decl_of (expr_at self.now.depth)) (reading.stmt self.now.depth) tokens.old.rest.now) result tokens.new.rest.now }
    {
        let decls = decls(self.alloc, tokens, self.depth)?;
        let stmts = self.stmts(tokens)?;
        Ok((decls, stmts))
    }

    /// `"{" { decl } { stmt } "}"`.
    #[tactic(auto, unfolding(crate::specs::StatementReading::block, grammar_laws::specs::Readers::and_then))]
    fn block(&self, tokens: &mut Cursor<'_>) -> Result<Block, Fault>
        requires { Nests (reading.stmt self.now.depth) self.now.depth (F.pre self.now.stmt) (F.post self.now.stmt) }
        ensures { Reads (reading.block (decl_of (expr_at self.now.depth)) (reading.stmt self.now.depth) tokens.old.rest.now) result tokens.new.rest.now }
    {
        let line = tokens.word(LEFT_BRACE)?;
        let (decls, stmts) = self.items(tokens)?;
        tokens.word(RIGHT_BRACE)?;
        Ok(Block { line, decls, stmts })
    }

    /// `stmt { stmt }`.
    #[tactic(auto, unfolding(crate::specs::StatementReading::branches, parse_cursor::specs::ListReading::some))]
    fn branches(&self, tokens: &mut Cursor<'_>) -> Result<Items<Stmt>, Fault>
        requires { Nests (reading.stmt self.now.depth) self.now.depth (F.pre self.now.stmt) (F.post self.now.stmt) }
        ensures { Reads (reading.branches (reading.stmt self.now.depth) tokens.old.rest.now) result tokens.new.rest.now }
    {
        some_items(
            self.alloc,
            tokens,
            &FIRST_STMT,
            |tokens: &mut Cursor<'_>| self.stmt(tokens),
        )
    }

    /// `"fork" stmt { stmt } "join" [ "all" | "any" | "none" ]`.
    #[tactic(auto, unfolding(crate::specs::StatementReading::fork_stmt, grammar_laws::specs::Readers::and_then))]
    fn fork_stmt(&self, tokens: &mut Cursor<'_>) -> Result<Stmt, Fault>
        requires { Nests (reading.stmt self.now.depth) self.now.depth (F.pre self.now.stmt) (F.post self.now.stmt) }
        ensures { Reads (reading.fork_stmt (reading.stmt self.now.depth) tokens.old.rest.now) result tokens.new.rest.now }
    {
        let line = tokens.word(FORK)?;
        let branches = self.branches(tokens)?;
        let join = joined(tokens)?;
        Ok(Stmt::Fork(Fork {
            line,
            branches,
            join,
        }))
    }

    /// `"else" stmt`.
    #[tactic(auto, unfolding(crate::specs::StatementReading::otherwise, grammar_laws::specs::Readers::and_then))]
    fn otherwise(&self, tokens: &mut Cursor<'_>) -> Result<Stmt, Fault>
        requires { Nests (reading.stmt self.now.depth) self.now.depth (F.pre self.now.stmt) (F.post self.now.stmt) }
        ensures { Reads (reading.otherwise (expr_at self.now.depth) (reading.stmt self.now.depth) tokens.old.rest.now) result tokens.new.rest.now }
    {
        tokens.word(ELSE)?;
        self.stmt(tokens)
    }

    /// `[ "else" stmt ]`.
    #[tactic(auto, unfolding(grammar_laws::specs::Readers::and_then, grammar_laws::specs::Readers::either))]
    fn other(&self, tokens: &mut Cursor<'_>) -> Result<Option<Boxed<Stmt>>, Fault>
        requires { Nests (reading.stmt self.now.depth) self.now.depth (F.pre self.now.stmt) (F.post self.now.stmt) }
        ensures { Reads (maybe (codes.ELSE ∷ []) (reading.otherwise (expr_at self.now.depth) (reading.stmt self.now.depth)) tokens.old.rest.now) result tokens.new.rest.now }
    {
        if !tokens.begins(&[ELSE]) {
            return Ok(None);
        }
        let other = self.otherwise(tokens)?;
        Ok(Some(Boxed::new(self.alloc, other)?))
    }

    /// `stmt [ "else" stmt ]`.
    #[tactic(auto, unfolding(crate::specs::StatementReading::choices, grammar_laws::specs::Readers::and_then))]
    fn choices(&self, tokens: &mut Cursor<'_>) -> Result<(Boxed<Stmt>, Option<Boxed<Stmt>>), Fault>
        requires { Nests (reading.stmt self.now.depth) self.now.depth (F.pre self.now.stmt) (F.post self.now.stmt) }
        ensures { Reads (reading.choices (expr_at self.now.depth) (reading.stmt self.now.depth) tokens.old.rest.now) result tokens.new.rest.now }
    {
        let when_true = self.boxed(tokens)?;
        let when_false = self.other(tokens)?;
        Ok((when_true, when_false))
    }

    /// `"if" "(" expr ")" stmt [ "else" stmt ]`.
    #[tactic(auto, unfolding(crate::specs::StatementReading::if_stmt, grammar_laws::specs::Readers::and_then))]
    fn if_stmt(&self, tokens: &mut Cursor<'_>) -> Result<Stmt, Fault>
        requires { Nests (reading.stmt self.now.depth) self.now.depth (F.pre self.now.stmt) (F.post self.now.stmt) }
        ensures { Reads (reading.if_stmt (expr_at self.now.depth) (reading.stmt self.now.depth) tokens.old.rest.now) result tokens.new.rest.now }
    {
        let line = tokens.word(IF)?;
        let condition = condition(self.alloc, tokens, self.depth)?;
        let (when_true, when_false) = self.choices(tokens)?;
        Ok(Stmt::If(If {
            line,
            condition,
            when_true,
            when_false,
        }))
    }

    /// `"while" "(" expr ")" stmt`.
    #[tactic(auto, unfolding(crate::specs::StatementReading::while_stmt, grammar_laws::specs::Readers::and_then))]
    fn while_stmt(&self, tokens: &mut Cursor<'_>) -> Result<Stmt, Fault>
        requires { Nests (reading.stmt self.now.depth) self.now.depth (F.pre self.now.stmt) (F.post self.now.stmt) }
        ensures { Reads (reading.while_stmt (expr_at self.now.depth) (reading.stmt self.now.depth) tokens.old.rest.now) result tokens.new.rest.now }
    {
        let line = tokens.word(WHILE)?;
        let condition = condition(self.alloc, tokens, self.depth)?;
        let body = self.boxed(tokens)?;
        Ok(Stmt::While(While {
            line,
            condition,
            body,
        }))
    }

    /// `"repeat" "(" expr ")" stmt`.
    #[tactic(auto, unfolding(crate::specs::StatementReading::repeat_stmt, grammar_laws::specs::Readers::and_then))]
    fn repeat_stmt(&self, tokens: &mut Cursor<'_>) -> Result<Stmt, Fault>
        requires { Nests (reading.stmt self.now.depth) self.now.depth (F.pre self.now.stmt) (F.post self.now.stmt) }
        ensures { Reads (reading.repeat_stmt (expr_at self.now.depth) (reading.stmt self.now.depth) tokens.old.rest.now) result tokens.new.rest.now }
    {
        let line = tokens.word(REPEAT)?;
        let count = condition(self.alloc, tokens, self.depth)?;
        let body = self.boxed(tokens)?;
        Ok(Stmt::Repeat(Repeat { line, count, body }))
    }

    /// `"for" "(" step ";" expr ";" step ")" stmt`.
    #[tactic(auto, unfolding(crate::specs::StatementReading::for_stmt, grammar_laws::specs::Readers::and_then))]
    fn for_stmt(&self, tokens: &mut Cursor<'_>) -> Result<Stmt, Fault>
        requires { Nests (reading.stmt self.now.depth) self.now.depth (F.pre self.now.stmt) (F.post self.now.stmt) }
        ensures { Reads (reading.for_stmt (expr_at self.now.depth) (reading.stmt self.now.depth) (free_at self.now.depth) tokens.old.rest.now) result tokens.new.rest.now }
    {
        let line = tokens.word(FOR)?;
        let all = turns(self.alloc, tokens, self.depth)?;
        let body = self.boxed(tokens)?;
        Ok(Stmt::For(For {
            line,
            start: all.0,
            condition: all.1.0,
            step: all.1.1,
            body,
        }))
    }

    /// `"while" .. | "repeat" .. | "for" ..`.
    #[tactic(auto, unfolding(crate::specs::StatementReading::loop_stmt, grammar_laws::specs::Readers::either))]
    fn loop_stmt(&self, tokens: &mut Cursor<'_>) -> Result<Stmt, Fault>
        requires { Nests (reading.stmt self.now.depth) self.now.depth (F.pre self.now.stmt) (F.post self.now.stmt) }
        ensures { Reads (reading.loop_stmt (expr_at self.now.depth) (reading.stmt self.now.depth) (free_at self.now.depth) tokens.old.rest.now) result tokens.new.rest.now }
    {
        if tokens.begins(&[WHILE]) {
            self.while_stmt(tokens)
        } else if tokens.begins(&[REPEAT]) {
            self.repeat_stmt(tokens)
        } else {
            self.for_stmt(tokens)
        }
    }

    /// `( expr { "," expr } | "default" ) ":" stmt`.
    #[tactic(auto, unfolding(crate::specs::StatementReading::arm, grammar_laws::specs::Readers::and_then))]
    fn arm(&self, tokens: &mut Cursor<'_>) -> Result<Arm, Fault>
        requires { Nests (reading.stmt self.now.depth) self.now.depth (F.pre self.now.stmt) (F.post self.now.stmt) }
        ensures { Reads (reading.arm (expr_at self.now.depth) (reading.stmt self.now.depth) tokens.old.rest.now) result tokens.new.rest.now }
    {
        let (line, label) = labelled(self.alloc, tokens, self.depth)?;
        let body = self.stmt(tokens)?;
        Ok(Arm { line, label, body })
    }

    /// `{ arm }`.
    #[tactic(auto, unfolding(crate::specs::StatementReading::all_arms))]
    fn all_arms(&self, tokens: &mut Cursor<'_>) -> Result<Items<Arm>, Fault>
        requires { Nests (reading.stmt self.now.depth) self.now.depth (F.pre self.now.stmt) (F.post self.now.stmt) }
        ensures { Reads (reading.all_arms (expr_at self.now.depth) (reading.stmt self.now.depth) tokens.old.rest.now) result tokens.new.rest.now }
    {
        many(
            self.alloc,
            tokens,
            &FIRST_ARM,
            |tokens: &mut Cursor<'_>| self.arm(tokens),
        )
    }

    /// `"{" { arm } "}"`.
    #[tactic(auto, unfolding(crate::specs::StatementReading::arms, grammar_laws::specs::Readers::and_then))]
    fn arms(&self, tokens: &mut Cursor<'_>) -> Result<Items<Arm>, Fault>
        requires { Nests (reading.stmt self.now.depth) self.now.depth (F.pre self.now.stmt) (F.post self.now.stmt) }
        ensures { Reads (reading.arms (expr_at self.now.depth) (reading.stmt self.now.depth) tokens.old.rest.now) result tokens.new.rest.now }
    {
        tokens.word(LEFT_BRACE)?;
        let arms = self.all_arms(tokens)?;
        tokens.word(RIGHT_BRACE)?;
        Ok(arms)
    }

    /// `"case" "(" expr ")" "{" { arm } "}"`.
    #[tactic(auto, unfolding(crate::specs::StatementReading::case_stmt, grammar_laws::specs::Readers::and_then))]
    fn case_stmt(&self, tokens: &mut Cursor<'_>) -> Result<Stmt, Fault>
        requires { Nests (reading.stmt self.now.depth) self.now.depth (F.pre self.now.stmt) (F.post self.now.stmt) }
        ensures { Reads (reading.case_stmt (expr_at self.now.depth) (reading.stmt self.now.depth) tokens.old.rest.now) result tokens.new.rest.now }
    {
        let line = tokens.word(CASE)?;
        let value = condition(self.alloc, tokens, self.depth)?;
        let arms = self.arms(tokens)?;
        Ok(Stmt::Case { line, value, arms })
    }

    /// A block, as a statement.
    #[tactic(auto, unfolding(crate::specs::StatementReading::block_stmt, grammar_laws::specs::Readers::and_then))]
    fn block_stmt(&self, tokens: &mut Cursor<'_>) -> Result<Stmt, Fault>
        requires { Nests (reading.stmt self.now.depth) self.now.depth (F.pre self.now.stmt) (F.post self.now.stmt) }
        ensures { Reads (reading.block_stmt (expr_at self.now.depth) (post_at self.now.depth) (free_at self.now.depth) (decl_of (expr_at self.now.depth)) (reading.stmt self.now.depth) tokens.old.rest.now) result tokens.new.rest.now }
    {
        let block = self.block(tokens)?;
        Ok(Stmt::Block(block))
    }

    /// The alternatives of `stmt` that begin with none of the words of `body`.
    #[tactic(auto, unfolding(crate::specs::StatementReading::other_body, grammar_laws::specs::Readers::either))]
    fn other_body(&self, tokens: &mut Cursor<'_>) -> Result<Stmt, Fault>
        requires { Nests (reading.stmt self.now.depth) self.now.depth (F.pre self.now.stmt) (F.post self.now.stmt) }
        ensures { Reads (reading.other_body (expr_at self.now.depth) (post_at self.now.depth) (free_at self.now.depth) (decl_of (expr_at self.now.depth)) (reading.stmt self.now.depth) tokens.old.rest.now) result tokens.new.rest.now }
    {
        if tokens.begins(&[CASE]) {
            self.case_stmt(tokens)
        } else if tokens.begins(&[BREAK, CONTINUE, RETURN, TERMINATE]) {
            jump(tokens)
        } else if tokens.begins(&[FORK]) {
            self.fork_stmt(tokens)
        } else {
            simple_stmt(self.alloc, tokens, self.depth)
        }
    }

    /// The alternatives of `stmt`.
    #[tactic(auto, unfolding(crate::specs::StatementReading::body, grammar_laws::specs::Readers::either))]
    fn body(&self, tokens: &mut Cursor<'_>) -> Result<Stmt, Fault>
        requires { Nests (reading.stmt self.now.depth) self.now.depth (F.pre self.now.stmt) (F.post self.now.stmt) }
        ensures { Reads (reading.body (expr_at self.now.depth) (post_at self.now.depth) (free_at self.now.depth) (decl_of (expr_at self.now.depth)) (reading.stmt self.now.depth) tokens.old.rest.now) result tokens.new.rest.now }
    {
        if tokens.begins(&[LEFT_BRACE]) {
            self.block_stmt(tokens)
        } else if tokens.begins(&[SEMICOLON]) {
            empty(tokens)
        } else if tokens.begins(&[VOID]) {
            void_stmt(self.alloc, tokens, self.depth)
        } else if tokens.begins(&[IF]) {
            self.if_stmt(tokens)
        } else if tokens.begins(&[WHILE, REPEAT, FOR]) {
            self.loop_stmt(tokens)
        } else {
            self.other_body(tokens)
        }
    }
}

/// A statement. So many levels are left.
pub fn stmt(alloc: Global, tokens: &mut Cursor<'_>, depth: usize) -> Result<Stmt, Fault>
    ensures { Reads (reading.stmt depth tokens.old.rest.now) result tokens.new.rest.now }
{
    if depth == 0 {
        return Err(tokens.fault(&FIRST_STMT));
    }
    Statements {
        alloc,
        depth: depth - 1,
        stmt,
    }
    .body(tokens)
}

/// A block. So many levels are left for what nests in it.
pub fn block(alloc: Global, tokens: &mut Cursor<'_>, depth: usize) -> Result<Block, Fault>
    ensures { Reads (reading.block (decl_of (expr_at depth)) (reading.stmt depth) tokens.old.rest.now) result tokens.new.rest.now }
{
    Statements { alloc, depth, stmt }.block(tokens)
}
