//! Expressions: operators by levels, and the two productions that nest.

ghost use Rattle.std.specs.Prelude.{◌≡◌, IfOk, [], ◌∷◌};
ghost use Rattle.vera_ast.specs.declared.codes.TheConstants as code;
ghost use Rattle.grammar_laws.specs.Readers.{Reads};
ghost use Rattle.parse_exprs.specs.Expressions as grammar;
ghost use Rattle.parse_cursor.specs.TokenReading.{maybe};
ghost use Rattle.parse_exprs.specs.ExpressionReading as reading;
ghost use Rattle.parse_cursor.specs.Nesting.{Nests};

use crate::grammar::Grammar;
use crate::operators::{
    BIT_AND, BIT_OR, BIT_XOR, EQUALITY, LOGICAL_AND, LOGICAL_OR, ORDER, PRODUCT, SHIFT, SUM, UNARY,
    level,
};
use crate::sets::{FIRST_EXPR, FIRST_UNARY};
use grammar_laws::Fault;
use parse_cursor::cursor::Cursor;
use sqlite_items::Boxed;
use std::alloc::{AllocError, Global};
use vera_ast::codes::{COLON, QUESTION};
use vera_ast::{Conditional, Expr, Postfix, Unary, UnaryOperator, with};

/// A condition's expression alone, or with its two branches.
fn chosen(
    alloc: Global,
    condition: Expr,
    branches: Option<(Boxed<Expr>, Boxed<Expr>)>,
) -> Result<Expr, AllocError>
    ensures { IfOk result (λ x. x ≡ grammar.chosen condition branches) }
{
    match branches {
        None => Ok(condition),
        Some(branches) => {
            let line = condition.line();
            let (branches, condition) = with(branches, Boxed::new(alloc, condition))?;
            let (when_true, when_false) = branches;
            Ok(Expr::Conditional(Conditional {
                line,
                condition,
                when_true,
                when_false,
            }))
        }
    }
}

impl<
    F: Fn(Global, &mut Cursor<'_>, usize) -> Result<Expr, Fault>,
    G: Fn(Global, &mut Cursor<'_>, usize) -> Result<Expr, Fault>,
> Grammar<F, G> {
    #[tactic(auto, unfolding(crate::specs::ExpressionReading::unary_sign))]
    fn unary_sign(&self, tokens: &mut Cursor<'_>) -> Result<(u32, UnaryOperator), Fault>
        ensures { Reads (reading.unary_sign (reading.expr self.now.depth) (reading.unary self.now.depth) tokens.old.rest.now) result tokens.new.rest.now }
    {
        tokens.sign(&UNARY)
    }

    #[tactic(auto, unfolding(crate::specs::ExpressionReading::prefixed, grammar_laws::specs::Readers::and_then))]
    fn prefixed(&self, tokens: &mut Cursor<'_>) -> Result<Expr, Fault>
        requires { Nests (reading.unary self.now.depth) self.now.depth (G.pre self.now.unary) (G.post self.now.unary) }
        ensures { Reads (reading.prefixed (reading.expr self.now.depth) (reading.unary self.now.depth) tokens.old.rest.now) result tokens.new.rest.now }
    {
        let (line, operator) = self.unary_sign(tokens)?;
        let operand = self.unary(tokens)?;
        Ok(Expr::Unary(Unary {
            line,
            operator,
            operand: Boxed::new(self.alloc, operand)?,
        }))
    }

    #[tactic(auto, unfolding(crate::specs::ExpressionReading::operand, grammar_laws::specs::Readers::and_then, grammar_laws::specs::Readers::either))]
    fn operand(&self, tokens: &mut Cursor<'_>) -> Result<Expr, Fault>
        requires expr { Nests (reading.expr self.now.depth) self.now.depth (F.pre self.now.expr) (F.post self.now.expr) }
        requires unary { Nests (reading.unary self.now.depth) self.now.depth (G.pre self.now.unary) (G.post self.now.unary) }
        ensures { Reads (reading.operand (reading.expr self.now.depth) (reading.unary self.now.depth) tokens.old.rest.now) result tokens.new.rest.now }
    {
        if tokens.begins(&FIRST_UNARY) {
            return self.prefixed(tokens);
        }
        let postfix = self.free(tokens)?;
        Ok(Expr::Postfix(postfix))
    }

    #[tactic(auto, unfolding(crate::specs::ExpressionReading::product))]
    fn product(&self, tokens: &mut Cursor<'_>) -> Result<Expr, Fault>
        requires { Nests (reading.unary self.now.depth) self.now.depth (G.pre self.now.unary) (G.post self.now.unary) }
        ensures { Reads (reading.product (reading.expr self.now.depth) (reading.unary self.now.depth) tokens.old.rest.now) result tokens.new.rest.now }
    {
        level(
            self.alloc,
            tokens,
            &PRODUCT,
            |tokens: &mut Cursor<'_>| self.unary(tokens),
        )
    }

    #[tactic(auto, unfolding(crate::specs::ExpressionReading::sum))]
    fn sum(&self, tokens: &mut Cursor<'_>) -> Result<Expr, Fault>
        requires { Nests (reading.unary self.now.depth) self.now.depth (G.pre self.now.unary) (G.post self.now.unary) }
        ensures { Reads (reading.sum (reading.expr self.now.depth) (reading.unary self.now.depth) tokens.old.rest.now) result tokens.new.rest.now }
    {
        level(
            self.alloc,
            tokens,
            &SUM,
            |tokens: &mut Cursor<'_>| self.product(tokens),
        )
    }

    #[tactic(auto, unfolding(crate::specs::ExpressionReading::shift))]
    fn shift(&self, tokens: &mut Cursor<'_>) -> Result<Expr, Fault>
        requires { Nests (reading.unary self.now.depth) self.now.depth (G.pre self.now.unary) (G.post self.now.unary) }
        ensures { Reads (reading.shift (reading.expr self.now.depth) (reading.unary self.now.depth) tokens.old.rest.now) result tokens.new.rest.now }
    {
        level(
            self.alloc,
            tokens,
            &SHIFT,
            |tokens: &mut Cursor<'_>| self.sum(tokens),
        )
    }

    #[tactic(auto, unfolding(crate::specs::ExpressionReading::order))]
    fn order(&self, tokens: &mut Cursor<'_>) -> Result<Expr, Fault>
        requires { Nests (reading.unary self.now.depth) self.now.depth (G.pre self.now.unary) (G.post self.now.unary) }
        ensures { Reads (reading.order (reading.expr self.now.depth) (reading.unary self.now.depth) tokens.old.rest.now) result tokens.new.rest.now }
    {
        level(
            self.alloc,
            tokens,
            &ORDER,
            |tokens: &mut Cursor<'_>| self.shift(tokens),
        )
    }

    #[tactic(auto, unfolding(crate::specs::ExpressionReading::equality))]
    fn equality(&self, tokens: &mut Cursor<'_>) -> Result<Expr, Fault>
        requires { Nests (reading.unary self.now.depth) self.now.depth (G.pre self.now.unary) (G.post self.now.unary) }
        ensures { Reads (reading.equality (reading.expr self.now.depth) (reading.unary self.now.depth) tokens.old.rest.now) result tokens.new.rest.now }
    {
        level(
            self.alloc,
            tokens,
            &EQUALITY,
            |tokens: &mut Cursor<'_>| self.order(tokens),
        )
    }

    #[tactic(auto, unfolding(crate::specs::ExpressionReading::bit_and))]
    fn bit_and(&self, tokens: &mut Cursor<'_>) -> Result<Expr, Fault>
        requires { Nests (reading.unary self.now.depth) self.now.depth (G.pre self.now.unary) (G.post self.now.unary) }
        ensures { Reads (reading.bit_and (reading.expr self.now.depth) (reading.unary self.now.depth) tokens.old.rest.now) result tokens.new.rest.now }
    {
        level(
            self.alloc,
            tokens,
            &BIT_AND,
            |tokens: &mut Cursor<'_>| self.equality(tokens),
        )
    }

    #[tactic(auto, unfolding(crate::specs::ExpressionReading::bit_xor))]
    fn bit_xor(&self, tokens: &mut Cursor<'_>) -> Result<Expr, Fault>
        requires { Nests (reading.unary self.now.depth) self.now.depth (G.pre self.now.unary) (G.post self.now.unary) }
        ensures { Reads (reading.bit_xor (reading.expr self.now.depth) (reading.unary self.now.depth) tokens.old.rest.now) result tokens.new.rest.now }
    {
        level(
            self.alloc,
            tokens,
            &BIT_XOR,
            |tokens: &mut Cursor<'_>| self.bit_and(tokens),
        )
    }

    #[tactic(auto, unfolding(crate::specs::ExpressionReading::bit_or))]
    fn bit_or(&self, tokens: &mut Cursor<'_>) -> Result<Expr, Fault>
        requires { Nests (reading.unary self.now.depth) self.now.depth (G.pre self.now.unary) (G.post self.now.unary) }
        ensures { Reads (reading.bit_or (reading.expr self.now.depth) (reading.unary self.now.depth) tokens.old.rest.now) result tokens.new.rest.now }
    {
        level(
            self.alloc,
            tokens,
            &BIT_OR,
            |tokens: &mut Cursor<'_>| self.bit_xor(tokens),
        )
    }

    #[tactic(auto, unfolding(crate::specs::ExpressionReading::logical_and))]
    fn logical_and(&self, tokens: &mut Cursor<'_>) -> Result<Expr, Fault>
        requires { Nests (reading.unary self.now.depth) self.now.depth (G.pre self.now.unary) (G.post self.now.unary) }
        ensures { Reads (reading.logical_and (reading.expr self.now.depth) (reading.unary self.now.depth) tokens.old.rest.now) result tokens.new.rest.now }
    {
        level(
            self.alloc,
            tokens,
            &LOGICAL_AND,
            |tokens: &mut Cursor<'_>| self.bit_or(tokens),
        )
    }

    #[tactic(auto, unfolding(crate::specs::ExpressionReading::logical_or))]
    fn logical_or(&self, tokens: &mut Cursor<'_>) -> Result<Expr, Fault>
        requires { Nests (reading.unary self.now.depth) self.now.depth (G.pre self.now.unary) (G.post self.now.unary) }
        ensures { Reads (reading.logical_or (reading.expr self.now.depth) (reading.unary self.now.depth) tokens.old.rest.now) result tokens.new.rest.now }
    {
        level(
            self.alloc,
            tokens,
            &LOGICAL_OR,
            |tokens: &mut Cursor<'_>| self.logical_and(tokens),
        )
    }

    #[tactic(auto, unfolding(crate::specs::ExpressionReading::branches, grammar_laws::specs::Readers::and_then))]
    fn branches(&self, tokens: &mut Cursor<'_>) -> Result<(Boxed<Expr>, Boxed<Expr>), Fault>
        requires { Nests (reading.expr self.now.depth) self.now.depth (F.pre self.now.expr) (F.post self.now.expr) }
        ensures { Reads (reading.branches (reading.expr self.now.depth) (reading.unary self.now.depth) tokens.old.rest.now) result tokens.new.rest.now }
    {
        tokens.word(QUESTION)?;
        let when_true = self.boxed(tokens)?;
        let (when_true, _) = with(when_true, tokens.word(COLON))?;
        with(when_true, self.boxed(tokens))
    }

    #[tactic(auto, unfolding(grammar_laws::specs::Readers::either, grammar_laws::specs::Readers::and_then))]
    fn question(&self, tokens: &mut Cursor<'_>) -> Result<Option<(Boxed<Expr>, Boxed<Expr>)>, Fault>
        requires { Nests (reading.expr self.now.depth) self.now.depth (F.pre self.now.expr) (F.post self.now.expr) }
        ensures { Reads (maybe (code.QUESTION ∷ []) (reading.branches (reading.expr self.now.depth) (reading.unary self.now.depth)) tokens.old.rest.now) result tokens.new.rest.now }
    {
        if !tokens.begins(&[QUESTION]) {
            return Ok(None);
        }
        let branches = self.branches(tokens)?;
        Ok(Some(branches))
    }

    #[tactic(auto, unfolding(crate::specs::ExpressionReading::whole, grammar_laws::specs::Readers::and_then))]
    fn whole(&self, tokens: &mut Cursor<'_>) -> Result<Expr, Fault>
        requires expr { Nests (reading.expr self.now.depth) self.now.depth (F.pre self.now.expr) (F.post self.now.expr) }
        requires unary { Nests (reading.unary self.now.depth) self.now.depth (G.pre self.now.unary) (G.post self.now.unary) }
        ensures { Reads (reading.whole (reading.expr self.now.depth) (reading.unary self.now.depth) tokens.old.rest.now) result tokens.new.rest.now }
    {
        let condition = self.logical_or(tokens)?;
        let (condition, branches) = with(condition, self.question(tokens))?;
        Ok(chosen(self.alloc, condition, branches)?)
    }
}

/// An expression. So many levels are left.
#[cycle(expr)]
pub fn expr(alloc: Global, tokens: &mut Cursor<'_>, depth: usize) -> Result<Expr, Fault>
    ensures { Reads (reading.expr depth tokens.old.rest.now) result tokens.new.rest.now }
{
    if depth == 0 {
        return Err(tokens.fault(&FIRST_EXPR));
    }
    Grammar {
        alloc,
        depth: depth - 1,
        expr,
        unary,
    }
    .whole(tokens)
}

/// A unary expression. So many levels are left.
#[cycle(expr)]
fn unary(alloc: Global, tokens: &mut Cursor<'_>, depth: usize) -> Result<Expr, Fault>
    ensures { Reads (reading.unary depth tokens.old.rest.now) result tokens.new.rest.now }
{
    if depth == 0 {
        return Err(tokens.fault(&FIRST_EXPR));
    }
    Grammar {
        alloc,
        depth: depth - 1,
        expr,
        unary,
    }
    .operand(tokens)
}

/// A postfix expression. So many levels are left.
pub fn free(alloc: Global, tokens: &mut Cursor<'_>, depth: usize) -> Result<Postfix, Fault>
    ensures { Reads (reading.free (reading.expr depth) (reading.unary depth) tokens.old.rest.now) result tokens.new.rest.now }
{
    Grammar {
        alloc,
        depth,
        expr,
        unary,
    }
    .free(tokens)
}

/// A postfix expression at the start of a statement. So many levels are left.
pub fn post(alloc: Global, tokens: &mut Cursor<'_>, depth: usize) -> Result<Postfix, Fault>
    ensures { Reads (reading.post (reading.expr depth) (reading.unary depth) tokens.old.rest.now) result tokens.new.rest.now }
{
    Grammar {
        alloc,
        depth,
        expr,
        unary,
    }
    .post(tokens)
}
