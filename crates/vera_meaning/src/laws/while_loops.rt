ghost use Rattle.std.specs.Prelude.{◌≡◌, ℕ, suc, List, ◌∷◌, if◌then◌else◌};
ghost use Rattle.slice_core.specs.Tree.{Ends, Spent};
ghost use Rattle.vera_ast.specs.declared.typed.expr.TypedExpr.{TypedExpr};
ghost use Rattle.vera_ast.specs.declared.typed.stmt.TypedStmt.{TypedStmt};
ghost use Rattle.vera_ast.specs.declared.typed.stmt.TypedStmt.TheViews.{While};
ghost use Rattle.vera_ast.specs.declared.typed.stmt.TypedWhile.{TypedWhile};
ghost use Rattle.vera_meaning.specs.Rests.{Here, Item, Do, Again, nothing_left};
ghost use Rattle.vera_meaning.specs.Operators.{is_true};
ghost use Rattle.vera_meaning.specs.Expressions.{value};
ghost use Rattle.vera_meaning.specs.Slices.{slice_of};

/// A `while` takes a tick, and comes to its first test. Where there is no tick, the slice is spent.
pub fn loop_begins_with_its_test()
    ensures spent { (here : Here) (w : TypedWhile) (rest : List Item) → slice_of here (record { agenda = Do (While w) ∷ rest }) 0 ≡ Ends Spent nothing_left }
    ensures begun { (here : Here) (w : TypedWhile) (rest : List Item) (ticks : ℕ) → slice_of here (record { agenda = Do (While w) ∷ rest }) (suc ticks) ≡ slice_of here (record { agenda = Again w.line w.condition w.body ∷ rest }) ticks }
{}

/// A test takes a tick, and evaluates the condition. Where it holds, the body comes next and then the test again;
/// else the loop is left. Where there is no tick, the slice is spent.
pub fn loop_goes_on_while_its_condition_holds()
    ensures spent { (here : Here) (line : ℕ) (condition : TypedExpr) (body : TypedStmt) (rest : List Item) → slice_of here (record { agenda = Again line condition body ∷ rest }) 0 ≡ Ends Spent nothing_left }
    ensures tested { (here : Here) (line : ℕ) (condition : TypedExpr) (body : TypedStmt) (rest : List Item) (ticks : ℕ) → slice_of here (record { agenda = Again line condition body ∷ rest }) (suc ticks) ≡ value condition ticks (λ bits left. slice_of here (record { agenda = if is_true bits then Do body ∷ Again line condition body ∷ rest else rest }) left) }
{}
