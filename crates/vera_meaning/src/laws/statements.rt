ghost use Rattle.std.specs.Prelude.{◌≡◌, ℕ, suc, List, ◌∷◌, ◌++◌, map, Some, None};
ghost use Rattle.store_api.specs.declared.loc.Loc.{Loc};
ghost use Rattle.store_api.specs.declared.val.Val.TheVariants.{Bits};
ghost use Rattle.slice_core.specs.Tree.{Puts, Emits, Prints, Drives, Ends, Spent, Cycle};
ghost use Rattle.vera_ast.specs.declared.typed.expr.TypedExpr.{TypedExpr};
ghost use Rattle.vera_ast.specs.declared.typed.names.TypedVariable.{TypedVariable};
ghost use Rattle.vera_ast.specs.declared.typed.place.TypedPlace.TheVariants.{Variable};
ghost use Rattle.vera_ast.specs.declared.typed.stmt.TypedBlock.{TypedBlock};
ghost use Rattle.vera_ast.specs.declared.typed.stmt.TypedChange.TheVariants.{Assign};
ghost use Rattle.vera_ast.specs.declared.typed.stmt.TypedDrive.{TypedDrive};
ghost use Rattle.vera_ast.specs.declared.typed.stmt.TypedEdge.{TypedEdge};
ghost use Rattle.vera_ast.specs.declared.typed.stmt.TypedPrintf.{TypedPrintf};
ghost use Rattle.vera_ast.specs.declared.typed.stmt.TypedStep.{TypedStep};
ghost use Rattle.vera_ast.specs.declared.typed.stmt.TypedStmt.TheVariants.{Step, Printf, Drive, Edge};
ghost use Rattle.vera_ast.specs.declared.typed.stmt.TypedStmt.TheViews.{Block};
ghost use Rattle.vera_ast.specs.declared.typed.types.ValueType.TheVariants.{Vector};
ghost use Rattle.vera_ast.specs.declared.typed.types.VectorType.TheVariants as types;
ghost use Rattle.vera_ast.specs.ExprTypes.{type_of};
ghost use Rattle.vera_meaning.specs.Rests.{Here, Item, Do, nothing_left};
ghost use Rattle.vera_meaning.specs.Operators.{fitted};
ghost use Rattle.vera_meaning.specs.Formats.{formatted};
ghost use Rattle.vera_meaning.specs.Expressions.{place_of, value, arguments};
ghost use Rattle.vera_meaning.specs.Slices.{slice_of};

/// A block takes no tick: its statements stand in its place, in front of what follows it.
pub fn block_is_its_statements()
    ensures { (here : Here) (b : TypedBlock) (rest : List Item) (budget : ℕ) → slice_of here (record { agenda = Do (Block b) ∷ rest }) budget ≡ slice_of here (record { agenda = map Do b.stmts ++ rest }) budget }
{}

/// An assignment to a variable that has a place takes a tick, evaluates its value, and puts it, cut or extended to the
/// variable's width, at that place. Where there is no tick for a step, the slice is spent.
pub fn assignment_puts_its_value()
    ensures spent { (here : Here) (s : TypedStep) (rest : List Item) → slice_of here (record { agenda = Do (Step s) ∷ rest }) 0 ≡ Ends Spent nothing_left }
    ensures done { (here : Here) (line : ℕ) (v : TypedVariable) (l : Loc) (e : TypedExpr) (rest : List Item) (ticks : ℕ) → place_of v.place ≡ Some l → slice_of here (record { agenda = Do (Step (record { line = line; target = Variable v; change = Assign e })) ∷ rest }) (suc ticks) ≡ value e ticks (λ bits left. Puts l (Bits (fitted (type_of e) v.of bits)) (slice_of here (record { agenda = rest }) left)) }
{}

/// A `printf` takes a tick, evaluates its arguments in order, and prints its format with them. Where there is no
/// tick, the slice is spent.
pub fn printf_prints_its_text()
    ensures spent { (here : Here) (p : TypedPrintf) (rest : List Item) → slice_of here (record { agenda = Do (Printf p) ∷ rest }) 0 ≡ Ends Spent nothing_left }
    ensures done { (here : Here) (p : TypedPrintf) (rest : List Item) (ticks : ℕ) → slice_of here (record { agenda = Do (Printf p) ∷ rest }) (suc ticks) ≡ arguments p.arguments ticks (λ args left. Emits (Prints (formatted p.format args)) (slice_of here (record { agenda = rest }) left)) }
{}

/// A drive without a delay takes a tick, evaluates its value, and is due in the present cycle with the value, cut or
/// extended to the signal's width. Where there is no tick, the slice is spent.
pub fn drive_is_due_in_its_cycle()
    ensures spent { (here : Here) (d : TypedDrive) (rest : List Item) → slice_of here (record { agenda = Do (Drive d) ∷ rest }) 0 ≡ Ends Spent nothing_left }
    ensures done { (here : Here) (d : TypedDrive) (rest : List Item) (ticks : ℕ) → d.delay ≡ None → slice_of here (record { agenda = Do (Drive d) ∷ rest }) (suc ticks) ≡ value d.value ticks (λ bits left. Emits (Drives here.cycle d.target.number (fitted (type_of d.value) (Vector (types.Bits d.target.width)) bits)) (slice_of here (record { agenda = rest }) left)) }
{}

/// An edge takes a tick and ends the slice: the thread waits for one edge, and goes on behind it. Where there is no
/// tick, the slice is spent.
pub fn edge_waits_for_one()
    ensures spent { (here : Here) (e : TypedEdge) (rest : List Item) → slice_of here (record { agenda = Do (Edge e) ∷ rest }) 0 ≡ Ends Spent nothing_left }
    ensures waits { (here : Here) (e : TypedEdge) (rest : List Item) (ticks : ℕ) → slice_of here (record { agenda = Do (Edge e) ∷ rest }) (suc ticks) ≡ Ends (Cycle 1) (record { agenda = rest }) }
{}
