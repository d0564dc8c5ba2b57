//! Names as the walk through the declarations counts and keeps them.

ghost use Rattle.std.specs.Prelude.{◌≡◌, ◌+◌, ◌<◌, ◌≤◌, ◌∷◌, [], List as ListOf, MatchResult};
ghost use Rattle.vera_ast.specs.declared.refusal.FrontError.TheVariants.{Refused};
ghost use Rattle.typing_rules.specs.Scopes.{Name};
ghost use Rattle.vera_decls.specs.Walks.{Walks, name_part};
ghost use Rattle.vera_names.specs.NameSets.{SameNames};

use vera_ast::FrontError;
use vera_names::codes::{DECLARED_TWICE, PAST_LIMIT, refused};
use vera_names::name_sets::{has_name, with_name};
use vera_names::scope::Scope;

/// The names of a scope so far, and how many names the file declares so far, 65,535 at most.
#[derive(Drop)]
pub struct Walked<'a> {
    pub names: Scope<'a>,
    pub count: u32,
}

/// One more name of the file, which declares 65,535 at most.
pub fn one_more(count: u32, line: u32) -> Result<u32, FrontError>
    ensures { MatchResult result (λ more. (count < 65535) × (more ≡ count + 1)) (λ e. (65535 ≤ count) × (e ≡ Refused (record { code = 39; line = line }))) }
{
    if count >= 65535 {
        return Err(refused(PAST_LIMIT, line));
    }
    Ok(count + 1)
}

/// One more name of a scope, where it isn't among them.
pub fn new_name<'a>(
    names: Scope<'a>,
    count: u32,
    line: u32,
    name: &'a [u8],
) -> Result<Walked<'a>, FrontError>
    ensures { (before : ListOf Name) → SameNames before names.entry → Walks (λ w. w.count) (λ w. SameNames (name.now ∷ before) w.names) count (name_part line before name.now ∷ []) result }
{
    if has_name(&names, name) {
        return Err(refused(DECLARED_TWICE, line));
    }
    let count = one_more(count, line)?;
    let names = with_name(names, name)?;
    Ok(Walked { names, count })
}
