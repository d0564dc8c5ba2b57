//! The grammar of expressions at a depth, with the two productions that nest.

ghost use Rattle.grammar_laws.specs.Readers.{Reads};
ghost use Rattle.parse_exprs.specs.ExpressionReading as reading;
ghost use Rattle.parse_cursor.specs.Nesting.{Nests};

use grammar_laws::Fault;
use parse_cursor::cursor::Cursor;
use sqlite_items::Boxed;
use std::alloc::Global;
use vera_ast::Expr;

/// The grammar of expressions, at a depth.
#[derive(Clone, Copy)]
pub struct Grammar<F, G> {
    pub alloc: Global,
    /// How deep productions may still nest.
    pub depth: usize,
    pub expr: F,
    pub unary: G,
}

impl<
    F: Fn(Global, &mut Cursor<'_>, usize) -> Result<Expr, Fault>,
    G: Fn(Global, &mut Cursor<'_>, usize) -> Result<Expr, Fault>,
> Grammar<F, G> {
    pub fn expr(&self, tokens: &mut Cursor<'_>) -> Result<Expr, Fault>
        requires { Nests (reading.expr self.now.depth) self.now.depth (F.pre self.now.expr) (F.post self.now.expr) }
        ensures { Reads (reading.expr self.now.depth tokens.old.rest.now) result tokens.new.rest.now }
    {
        (self.expr)(self.alloc, tokens, self.depth)
    }

    /// An expression, boxed for the tree that it becomes a part of.
    #[tactic(auto)]
    pub fn boxed(&self, tokens: &mut Cursor<'_>) -> Result<Boxed<Expr>, Fault>
        requires { Nests (reading.expr self.now.depth) self.now.depth (F.pre self.now.expr) (F.post self.now.expr) }
        ensures { Reads (reading.expr self.now.depth tokens.old.rest.now) result tokens.new.rest.now }
    {
        Ok(Boxed::new(self.alloc, self.expr(tokens)?)?)
    }

    pub fn unary(&self, tokens: &mut Cursor<'_>) -> Result<Expr, Fault>
        requires { Nests (reading.unary self.now.depth) self.now.depth (G.pre self.now.unary) (G.post self.now.unary) }
        ensures { Reads (reading.unary self.now.depth tokens.old.rest.now) result tokens.new.rest.now }
    {
        (self.unary)(self.alloc, tokens, self.depth)
    }
}
