ghost use Rattle.std.specs.Prelude.{◌≡◌, Ok};
ghost use Rattle.vera_ast.specs.declared.tree.items.Tree.{Tree};
ghost use Rattle.vera_ast.specs.declared.typed.file.TypedTree.{TypedTree};
ghost use Rattle.vera_ast.specs.Signals.{signals_in, AreApart};
ghost use Rattle.typing_rules.specs.Typing.{typed};
ghost use Rattle.typing_laws.specs.Trees.{HasOneProgram, NamesItsSignals, OutputsDiffer, HasPlainSignals};

/// A typed tree has one program.
pub fn there_is_one_program()
    ensures { (tree : Tree) (t : TypedTree) → typed tree ≡ Ok t → HasOneProgram t }
{}

/// Each drive of a typed tree, in its program and in its tasks, names an output signal of the tree, with its width.
pub fn drives_name_outputs()
    ensures { (tree : Tree) (t : TypedTree) → typed tree ≡ Ok t → NamesItsSignals t }
{}

/// No two output signals of a typed tree have one name.
pub fn output_names_differ()
    ensures { (tree : Tree) (t : TypedTree) → typed tree ≡ Ok t → OutputsDiffer (signals_in t.items) }
{}

/// No two output signals have one name, and all names are plain, where those of the source are.
pub fn signals_are_apart()
    ensures { (tree : Tree) (t : TypedTree) → HasPlainSignals tree → typed tree ≡ Ok t → AreApart (signals_in t.items) }
{}
