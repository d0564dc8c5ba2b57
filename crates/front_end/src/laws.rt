ghost use Rattle.std.specs.Prelude.{◌≡◌, ℕ, List, Result, Ok};
ghost use Rattle.vera_ast.specs.declared.refusal.Refusal.{Refusal};
ghost use Rattle.vera_ast.specs.declared.typed.file.TypedTree.{TypedTree};
ghost use Rattle.vera_ast.specs.Signals.{signals_in, AreApart};
ghost use Rattle.typing_laws.specs.Trees.{HasOneProgram, NamesItsSignals};
ghost use Rattle.front_end.specs.declared.purpose.Purpose.{Purpose};
ghost use Rattle.front_end.specs.Sources.{IsSource};

/// The bytes of a testbench have one answer: a typed tree, or one refusal with its number and line.
pub fn one_answer()
    ensures { (purpose : Purpose) (bytes : List ℕ) (a b : Result TypedTree Refusal) → IsSource purpose bytes a → IsSource purpose bytes b → a ≡ b }
{}

/// A typed tree has one program; each of its drives names an output; no two outputs have one name, and no name of a
/// signal has a bracket.
pub fn signals_are_ready()
    ensures program { (purpose : Purpose) (bytes : List ℕ) (tree : TypedTree) → IsSource purpose bytes (Ok tree) → HasOneProgram tree }
    ensures names { (purpose : Purpose) (bytes : List ℕ) (tree : TypedTree) → IsSource purpose bytes (Ok tree) → NamesItsSignals tree }
    ensures apart { (purpose : Purpose) (bytes : List ℕ) (tree : TypedTree) → IsSource purpose bytes (Ok tree) → AreApart (signals_in tree.items) }
{}
