//! What is known where an expression or a statement stands.

ghost use Rattle.std.specs.Prelude.{◌≡◌, false, true};
ghost use Rattle.typing_rules.specs.Statements as statements;

use std::marker::Model;
use typing_rules::context::Body;
use vera_names::outline::FileOutline;
use vera_names::scope::Scopes;

/// What is known where an expression or a statement stands.
#[derive(Drop)]
pub struct Sight<'a> {
    outline: &'a FileOutline<'a>,
    scopes: &'a Scopes<'a>,
    slots: u32,
    body: Body,
    is_in_loop: bool,
}

impl<'a> Model for Sight<'a> {
    ghost use Rattle.typing_rules.specs.declared.context.Context.{Context};

    ghost Value = { Context };

    ghost view = { λ s. record { outline = s.outline.now; scopes = s.scopes.now; slots = s.slots; body = s.body; is_in_loop = s.is_in_loop } };
}

impl<'a> Sight<'a> {
    /// What is known at the head of a body, where so many variables of it are in sight.
    pub fn new(
        outline: &'a FileOutline<'a>,
        scopes: &'a Scopes<'a>,
        slots: u32,
        body: Body,
    ) -> Sight<'a>
        ensures { result ≡ record { outline = outline.now; scopes = scopes.now; slots = slots; body = body; is_in_loop = false } }
    {
        Sight {
            outline,
            scopes,
            slots,
            body,
            is_in_loop: false,
        }
    }

    /// What the file declares.
    pub fn outline(&self) -> &FileOutline<'a>
        ensures { result.now ≡ self.now.outline }
    {
        self.outline
    }

    /// The names in sight.
    pub fn scopes(&self) -> &Scopes<'a>
        ensures { result.now ≡ self.now.scopes }
    {
        self.scopes
    }

    /// How many variables of this body are in sight: the slot of the next one.
    pub fn slots(&self) -> u32
        ensures { result ≡ self.now.slots }
    {
        self.slots
    }

    /// What the body belongs to.
    pub fn body(&self) -> Body
        ensures { result ≡ self.now.body }
    {
        self.body
    }

    /// Whether a loop surrounds it in its own thread's part.
    pub fn is_in_loop(&self) -> bool
        ensures { result ≡ self.now.is_in_loop }
    {
        self.is_in_loop
    }

    /// In the body of a loop.
    pub fn in_loop(&self) -> Sight<'a>
        ensures { result ≡ statements.in_loop self.now }
    {
        Sight {
            outline: self.outline,
            scopes: self.scopes,
            slots: self.slots,
            body: self.body,
            is_in_loop: true,
        }
    }

    /// In a branch of a fork, where its own loops alone count.
    pub fn in_branch(&self) -> Sight<'a>
        ensures { result ≡ statements.in_branch self.now }
    {
        Sight {
            outline: self.outline,
            scopes: self.scopes,
            slots: self.slots,
            body: self.body,
            is_in_loop: false,
        }
    }

    /// Where these names are in sight and so many variables of the body.
    pub fn inside<'b>(&'b self, scopes: &'b Scopes<'b>, slots: u32) -> Sight<'b>
        ensures { result ≡ record self.now { scopes = scopes.now; slots = slots } }
    {
        Sight {
            outline: self.outline,
            scopes,
            slots,
            body: self.body,
            is_in_loop: self.is_in_loop,
        }
    }
}
