//! Primary expressions.

ghost use Rattle.std.specs.Prelude.{◌≡◌, [], ◌∷◌, Ok};
ghost use Rattle.grammar_laws.specs.Readers.{Reads, and_then};
ghost use Rattle.parse_exprs.specs.Expressions.{primary_at};
ghost use Rattle.parse_cursor.specs.TokenReading as tokens_of;
ghost use Rattle.vera_ast.specs.declared.codes.TheConstants as code;
ghost use Rattle.parse_exprs.specs.ExpressionReading as reading;
ghost use Rattle.parse_cursor.specs.Nesting.{Nests};

use crate::grammar::Grammar;
use crate::sets::{FIRST_POST, NAME_WORDS};
use grammar_laws::Fault;
use parse_cursor::cursor::Cursor;
use parse_cursor::trees::items_from;
use parse_cursor::turns::many;
use sqlite_items::{Boxed, Items};
use std::alloc::Global;
use vera_ast::codes::{
    COMMA, LEFT_BRACE, LEFT_PARENTHESIS, NEW, NULL, NUMBER, RIGHT_BRACE, RIGHT_PARENTHESIS,
    STRING_LITERAL, SUPER, THIS,
};
use vera_ast::{Expr, Primary, PrimaryForm, with};

/// A primary expression of one word.
#[tactic(auto, unfolding(grammar_laws::specs::Readers::and_then))]
fn fixed(tokens: &mut Cursor<'_>, keyword: u8, form: PrimaryForm) -> Result<Primary, Fault>
    ensures { Reads (and_then (tokens_of.word keyword tokens.old.rest.now) (λ line rest. Ok (primary_at form line, rest))) result tokens.new.rest.now }
{
    let (form, line) = with(form, tokens.word(keyword))?;
    Ok(Primary { line, form })
}

impl<
    F: Fn(Global, &mut Cursor<'_>, usize) -> Result<Expr, Fault>,
    G: Fn(Global, &mut Cursor<'_>, usize) -> Result<Expr, Fault>,
> Grammar<F, G> {
    #[tactic(auto, unfolding(crate::specs::ExpressionReading::literal, grammar_laws::specs::Readers::and_then))]
    fn literal(&self, tokens: &mut Cursor<'_>) -> Result<Primary, Fault>
        ensures { Reads (reading.literal (reading.expr self.now.depth) (reading.unary self.now.depth) tokens.old.rest.now) result tokens.new.rest.now }
    {
        let numeral = tokens.number()?;
        Ok(Primary {
            line: numeral.line,
            form: PrimaryForm::Number(numeral.number),
        })
    }

    #[tactic(auto, unfolding(crate::specs::ExpressionReading::text, grammar_laws::specs::Readers::and_then))]
    fn text(&self, tokens: &mut Cursor<'_>) -> Result<Primary, Fault>
        ensures { Reads (reading.text (reading.expr self.now.depth) (reading.unary self.now.depth) tokens.old.rest.now) result tokens.new.rest.now }
    {
        let string = tokens.string(self.alloc)?;
        Ok(Primary {
            line: string.line,
            form: PrimaryForm::Str(string.text),
        })
    }

    #[tactic(auto, unfolding(crate::specs::ExpressionReading::named, grammar_laws::specs::Readers::and_then))]
    fn named(&self, tokens: &mut Cursor<'_>) -> Result<Primary, Fault>
        ensures { Reads (reading.named (reading.expr self.now.depth) (reading.unary self.now.depth) tokens.old.rest.now) result tokens.new.rest.now }
    {
        let name = tokens.name_of(self.alloc, &NAME_WORDS)?;
        Ok(Primary {
            line: name.line,
            form: PrimaryForm::Name(name.text),
        })
    }

    #[tactic(auto, unfolding(crate::specs::ExpressionReading::group, grammar_laws::specs::Readers::and_then))]
    fn group(&self, tokens: &mut Cursor<'_>) -> Result<Primary, Fault>
        requires { Nests (reading.expr self.now.depth) self.now.depth (F.pre self.now.expr) (F.post self.now.expr) }
        ensures { Reads (reading.group (reading.expr self.now.depth) (reading.unary self.now.depth) tokens.old.rest.now) result tokens.new.rest.now }
    {
        let line = tokens.word(LEFT_PARENTHESIS)?;
        let inner = self.boxed(tokens)?;
        let (inner, _) = with(inner, tokens.word(RIGHT_PARENTHESIS))?;
        Ok(Primary {
            line,
            form: PrimaryForm::Parentheses(inner),
        })
    }

    #[tactic(auto, unfolding(crate::specs::ExpressionReading::start, crate::specs::ExpressionReading::null, crate::specs::ExpressionReading::this, crate::specs::ExpressionReading::parent, crate::specs::ExpressionReading::fresh, grammar_laws::specs::Readers::either))]
    pub fn start(&self, tokens: &mut Cursor<'_>) -> Result<Primary, Fault>
        requires { Nests (reading.expr self.now.depth) self.now.depth (F.pre self.now.expr) (F.post self.now.expr) }
        ensures { Reads (reading.start (reading.expr self.now.depth) (reading.unary self.now.depth) tokens.old.rest.now) result tokens.new.rest.now }
    {
        if tokens.begins(&[NUMBER]) {
            self.literal(tokens)
        } else if tokens.begins(&[STRING_LITERAL]) {
            self.text(tokens)
        } else if tokens.begins(&NAME_WORDS) {
            self.named(tokens)
        } else if tokens.begins(&[NULL]) {
            fixed(tokens, NULL, PrimaryForm::Null)
        } else if tokens.begins(&[THIS]) {
            fixed(tokens, THIS, PrimaryForm::This)
        } else if tokens.begins(&[SUPER]) {
            fixed(tokens, SUPER, PrimaryForm::Super)
        } else if tokens.begins(&[NEW]) {
            fixed(tokens, NEW, PrimaryForm::New)
        } else {
            self.group(tokens)
        }
    }

    #[tactic(auto, unfolding(crate::specs::ExpressionReading::further, grammar_laws::specs::Readers::and_then))]
    fn further(&self, tokens: &mut Cursor<'_>) -> Result<Expr, Fault>
        requires { Nests (reading.expr self.now.depth) self.now.depth (F.pre self.now.expr) (F.post self.now.expr) }
        ensures { Reads (reading.further (reading.expr self.now.depth) (reading.unary self.now.depth) tokens.old.rest.now) result tokens.new.rest.now }
    {
        tokens.word(COMMA)?;
        self.expr(tokens)
    }

    /// `{ "," expr }`.
    #[tactic(auto)]
    fn others(&self, tokens: &mut Cursor<'_>) -> Result<Items<Expr>, Fault>
        requires { Nests (reading.expr self.now.depth) self.now.depth (F.pre self.now.expr) (F.post self.now.expr) }
        ensures { Reads (tokens_of.many (code.COMMA ∷ []) (reading.further (reading.expr self.now.depth) (reading.unary self.now.depth)) tokens.old.rest.now) result tokens.new.rest.now }
    {
        many(
            self.alloc,
            tokens,
            &[COMMA],
            |tokens: &mut Cursor<'_>| self.further(tokens),
        )
    }

    #[tactic(auto, unfolding(crate::specs::ExpressionReading::exprs, grammar_laws::specs::Readers::and_then))]
    pub fn exprs(&self, tokens: &mut Cursor<'_>) -> Result<Items<Expr>, Fault>
        requires { Nests (reading.expr self.now.depth) self.now.depth (F.pre self.now.expr) (F.post self.now.expr) }
        ensures { Reads (reading.exprs (reading.expr self.now.depth) (reading.unary self.now.depth) tokens.old.rest.now) result tokens.new.rest.now }
    {
        let first = self.expr(tokens)?;
        let (first, more) = with(first, self.others(tokens))?;
        Ok(items_from(self.alloc, first, more)?)
    }

    #[tactic(auto, unfolding(crate::specs::ExpressionReading::concatenated, grammar_laws::specs::Readers::and_then))]
    fn concatenated(
        &self,
        tokens: &mut Cursor<'_>,
        line: u32,
        first: Expr,
    ) -> Result<Primary, Fault>
        requires { Nests (reading.expr self.now.depth) self.now.depth (F.pre self.now.expr) (F.post self.now.expr) }
        ensures { Reads (reading.concatenated (reading.expr self.now.depth) (reading.unary self.now.depth) line first tokens.old.rest.now) result tokens.new.rest.now }
    {
        let (first, more) = with(first, self.others(tokens))?;
        let parts = items_from(self.alloc, first, more)?;
        let (parts, _) = with(parts, tokens.word(RIGHT_BRACE))?;
        Ok(Primary {
            line,
            form: PrimaryForm::Concatenation(parts),
        })
    }

    #[tactic(auto, unfolding(crate::specs::ExpressionReading::replicated, grammar_laws::specs::Readers::and_then))]
    fn replicated(&self, tokens: &mut Cursor<'_>, line: u32, count: Expr) -> Result<Primary, Fault>
        requires { Nests (reading.expr self.now.depth) self.now.depth (F.pre self.now.expr) (F.post self.now.expr) }
        ensures { Reads (reading.replicated (reading.expr self.now.depth) (reading.unary self.now.depth) line count tokens.old.rest.now) result tokens.new.rest.now }
    {
        let count = Boxed::new(self.alloc, count)?;
        let (count, _) = with(count, tokens.word(LEFT_BRACE))?;
        let (count, parts) = with(count, self.exprs(tokens))?;
        let form = PrimaryForm::Replication(count, parts);
        let (form, _) = with(form, tokens.word(RIGHT_BRACE))?;
        let (form, _) = with(form, tokens.word(RIGHT_BRACE))?;
        Ok(Primary { line, form })
    }

    #[tactic(auto, unfolding(crate::specs::ExpressionReading::braces, grammar_laws::specs::Readers::and_then, grammar_laws::specs::Readers::either))]
    fn braces(&self, tokens: &mut Cursor<'_>) -> Result<Primary, Fault>
        requires { Nests (reading.expr self.now.depth) self.now.depth (F.pre self.now.expr) (F.post self.now.expr) }
        ensures { Reads (reading.braces (reading.expr self.now.depth) (reading.unary self.now.depth) tokens.old.rest.now) result tokens.new.rest.now }
    {
        let line = tokens.word(LEFT_BRACE)?;
        let first = self.expr(tokens)?;
        if tokens.begins(&[LEFT_BRACE]) {
            self.replicated(tokens, line, first)
        } else {
            self.concatenated(tokens, line, first)
        }
    }

    #[tactic(auto, unfolding(crate::specs::ExpressionReading::prim, grammar_laws::specs::Readers::either))]
    pub fn prim(&self, tokens: &mut Cursor<'_>) -> Result<Primary, Fault>
        requires { Nests (reading.expr self.now.depth) self.now.depth (F.pre self.now.expr) (F.post self.now.expr) }
        ensures { Reads (reading.prim (reading.expr self.now.depth) (reading.unary self.now.depth) tokens.old.rest.now) result tokens.new.rest.now }
    {
        if tokens.begins(&FIRST_POST) {
            self.start(tokens)
        } else {
            self.braces(tokens)
        }
    }
}
