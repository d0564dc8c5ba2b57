//! Postfix expressions.

ghost use Rattle.std.specs.Prelude.{◌≡◌, [], ◌∷◌};
ghost use Rattle.vera_ast.specs.declared.codes.TheConstants as code;
ghost use Rattle.parse_cursor.specs.TokenReading as tokens_of;
ghost use Rattle.parse_exprs.specs.Sets.{first_suffix};
ghost use Rattle.grammar_laws.specs.Readers.{Reads};
ghost use Rattle.parse_exprs.specs.Expressions as grammar;
ghost use Rattle.parse_exprs.specs.ExpressionReading as reading;
ghost use Rattle.parse_cursor.specs.Nesting.{Nests};

use crate::grammar::Grammar;
use crate::sets::FIRST_EXPR;
use grammar_laws::Fault;
use parse_cursor::cursor::Cursor;
use parse_cursor::turns::many;
use sqlite_items::{Boxed, Items};
use std::alloc::Global;
use vera_ast::codes::{
    COLON, DOT, LEFT_BRACKET, LEFT_PARENTHESIS, NAME, NEW, RIGHT_BRACKET, RIGHT_PARENTHESIS,
};
use vera_ast::{Expr, Postfix, Primary, Suffix, with};

/// What stands in brackets behind a value.
fn bracketed(at: Boxed<Expr>, low: Option<Boxed<Expr>>) -> Suffix
    ensures { result ≡ grammar.bracketed at low }
{
    match low {
        None => Suffix::Index(at),
        Some(low) => Suffix::Bits(at, low),
    }
}

impl<
    F: Fn(Global, &mut Cursor<'_>, usize) -> Result<Expr, Fault>,
    G: Fn(Global, &mut Cursor<'_>, usize) -> Result<Expr, Fault>,
> Grammar<F, G> {
    #[tactic(auto, unfolding(crate::specs::ExpressionReading::member, grammar_laws::specs::Readers::and_then))]
    fn member(&self, tokens: &mut Cursor<'_>) -> Result<Suffix, Fault>
        ensures { Reads (reading.member (reading.expr self.now.depth) (reading.unary self.now.depth) tokens.old.rest.now) result tokens.new.rest.now }
    {
        let name = tokens.name(self.alloc)?;
        Ok(Suffix::Member(name.text))
    }

    #[tactic(auto, unfolding(crate::specs::ExpressionReading::made, grammar_laws::specs::Readers::and_then))]
    fn made(&self, tokens: &mut Cursor<'_>) -> Result<Suffix, Fault>
        ensures { Reads (reading.made (reading.expr self.now.depth) (reading.unary self.now.depth) tokens.old.rest.now) result tokens.new.rest.now }
    {
        tokens.word(NEW)?;
        Ok(Suffix::New)
    }

    #[tactic(auto, unfolding(crate::specs::ExpressionReading::dotted, grammar_laws::specs::Readers::and_then, grammar_laws::specs::Readers::either))]
    fn dotted(&self, tokens: &mut Cursor<'_>) -> Result<Suffix, Fault>
        ensures { Reads (reading.dotted (reading.expr self.now.depth) (reading.unary self.now.depth) tokens.old.rest.now) result tokens.new.rest.now }
    {
        tokens.word(DOT)?;
        if tokens.begins(&[NAME]) {
            self.member(tokens)
        } else {
            self.made(tokens)
        }
    }

    #[tactic(auto, unfolding(crate::specs::ExpressionReading::low_bit, grammar_laws::specs::Readers::and_then))]
    fn low_bit(&self, tokens: &mut Cursor<'_>) -> Result<Boxed<Expr>, Fault>
        requires { Nests (reading.expr self.now.depth) self.now.depth (F.pre self.now.expr) (F.post self.now.expr) }
        ensures { Reads (reading.low_bit (reading.expr self.now.depth) (reading.unary self.now.depth) tokens.old.rest.now) result tokens.new.rest.now }
    {
        tokens.word(COLON)?;
        self.boxed(tokens)
    }

    #[tactic(auto, unfolding(grammar_laws::specs::Readers::either, grammar_laws::specs::Readers::and_then))]
    fn low(&self, tokens: &mut Cursor<'_>) -> Result<Option<Boxed<Expr>>, Fault>
        requires { Nests (reading.expr self.now.depth) self.now.depth (F.pre self.now.expr) (F.post self.now.expr) }
        ensures { Reads (tokens_of.maybe (code.COLON ∷ []) (reading.low_bit (reading.expr self.now.depth) (reading.unary self.now.depth)) tokens.old.rest.now) result tokens.new.rest.now }
    {
        if !tokens.begins(&[COLON]) {
            return Ok(None);
        }
        let low = self.low_bit(tokens)?;
        Ok(Some(low))
    }

    #[tactic(auto, unfolding(crate::specs::ExpressionReading::bits, grammar_laws::specs::Readers::and_then))]
    fn bits(&self, tokens: &mut Cursor<'_>) -> Result<Suffix, Fault>
        requires { Nests (reading.expr self.now.depth) self.now.depth (F.pre self.now.expr) (F.post self.now.expr) }
        ensures { Reads (reading.bits (reading.expr self.now.depth) (reading.unary self.now.depth) tokens.old.rest.now) result tokens.new.rest.now }
    {
        tokens.word(LEFT_BRACKET)?;
        let at = self.boxed(tokens)?;
        let (at, low) = with(at, self.low(tokens))?;
        let (suffix, _) = with(bracketed(at, low), tokens.word(RIGHT_BRACKET))?;
        Ok(suffix)
    }

    #[tactic(auto, unfolding(crate::specs::ExpressionReading::arguments, grammar_laws::specs::Readers::either))]
    fn arguments(&self, tokens: &mut Cursor<'_>) -> Result<Items<Expr>, Fault>
        requires { Nests (reading.expr self.now.depth) self.now.depth (F.pre self.now.expr) (F.post self.now.expr) }
        ensures { Reads (reading.arguments (reading.expr self.now.depth) (reading.unary self.now.depth) tokens.old.rest.now) result tokens.new.rest.now }
    {
        if tokens.begins(&FIRST_EXPR) {
            self.exprs(tokens)
        } else {
            Ok(Items::new(self.alloc))
        }
    }

    #[tactic(auto, unfolding(crate::specs::ExpressionReading::call, grammar_laws::specs::Readers::and_then))]
    fn call(&self, tokens: &mut Cursor<'_>) -> Result<Suffix, Fault>
        requires { Nests (reading.expr self.now.depth) self.now.depth (F.pre self.now.expr) (F.post self.now.expr) }
        ensures { Reads (reading.call (reading.expr self.now.depth) (reading.unary self.now.depth) tokens.old.rest.now) result tokens.new.rest.now }
    {
        tokens.word(LEFT_PARENTHESIS)?;
        let arguments = self.arguments(tokens)?;
        let (arguments, _) = with(arguments, tokens.word(RIGHT_PARENTHESIS))?;
        Ok(Suffix::Call(arguments))
    }

    #[tactic(auto, unfolding(crate::specs::ExpressionReading::suffix, grammar_laws::specs::Readers::either))]
    fn suffix(&self, tokens: &mut Cursor<'_>) -> Result<Suffix, Fault>
        requires { Nests (reading.expr self.now.depth) self.now.depth (F.pre self.now.expr) (F.post self.now.expr) }
        ensures { Reads (reading.suffix (reading.expr self.now.depth) (reading.unary self.now.depth) tokens.old.rest.now) result tokens.new.rest.now }
    {
        if tokens.begins(&[DOT]) {
            self.dotted(tokens)
        } else if tokens.begins(&[LEFT_BRACKET]) {
            self.bits(tokens)
        } else {
            self.call(tokens)
        }
    }

    #[tactic(auto)]
    fn suffixes(&self, tokens: &mut Cursor<'_>) -> Result<Items<Suffix>, Fault>
        requires { Nests (reading.expr self.now.depth) self.now.depth (F.pre self.now.expr) (F.post self.now.expr) }
        ensures { Reads (tokens_of.many first_suffix (reading.suffix (reading.expr self.now.depth) (reading.unary self.now.depth)) tokens.old.rest.now) result tokens.new.rest.now }
    {
        many(
            self.alloc,
            tokens,
            &[DOT, LEFT_BRACKET, LEFT_PARENTHESIS],
            |tokens: &mut Cursor<'_>| self.suffix(tokens),
        )
    }

    #[tactic(auto, unfolding(crate::specs::ExpressionReading::suffixed, grammar_laws::specs::Readers::and_then))]
    fn suffixed(&self, tokens: &mut Cursor<'_>, primary: Primary) -> Result<Postfix, Fault>
        requires { Nests (reading.expr self.now.depth) self.now.depth (F.pre self.now.expr) (F.post self.now.expr) }
        ensures { Reads (reading.suffixed (reading.expr self.now.depth) (reading.unary self.now.depth) primary tokens.old.rest.now) result tokens.new.rest.now }
    {
        let (primary, suffixes) = with(primary, self.suffixes(tokens))?;
        Ok(Postfix {
            line: primary.line,
            primary,
            suffixes,
        })
    }

    /// A postfix expression.
    #[tactic(auto, unfolding(crate::specs::ExpressionReading::free, grammar_laws::specs::Readers::and_then))]
    pub fn free(&self, tokens: &mut Cursor<'_>) -> Result<Postfix, Fault>
        requires { Nests (reading.expr self.now.depth) self.now.depth (F.pre self.now.expr) (F.post self.now.expr) }
        ensures { Reads (reading.free (reading.expr self.now.depth) (reading.unary self.now.depth) tokens.old.rest.now) result tokens.new.rest.now }
    {
        let primary = self.prim(tokens)?;
        self.suffixed(tokens, primary)
    }

    /// A postfix expression at the start of a statement.
    #[tactic(auto, unfolding(crate::specs::ExpressionReading::post, grammar_laws::specs::Readers::and_then))]
    pub fn post(&self, tokens: &mut Cursor<'_>) -> Result<Postfix, Fault>
        requires { Nests (reading.expr self.now.depth) self.now.depth (F.pre self.now.expr) (F.post self.now.expr) }
        ensures { Reads (reading.post (reading.expr self.now.depth) (reading.unary self.now.depth) tokens.old.rest.now) result tokens.new.rest.now }
    {
        let primary = self.start(tokens)?;
        self.suffixed(tokens, primary)
    }
}
