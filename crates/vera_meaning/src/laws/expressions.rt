ghost use Rattle.std.specs.Prelude.{◌≡◌, ℕ, List, [], ◌∷◌, ◌++◌, Some};
ghost use Rattle.four_state.specs.declared.bit.Bit.{Bit};
ghost use Rattle.store_api.specs.Places.{Contents};
ghost use Rattle.store_api.specs.declared.loc.Loc.{Loc};
ghost use Rattle.store_api.specs.declared.loc.Loc.TheVariants as locs;
ghost use Rattle.slice_core.specs.Slices.{Notes, Writes, on_from};
ghost use Rattle.slice_core.specs.Tree.{Asks, Effect};
ghost use Rattle.vera_ast.specs.declared.typed.expr.TypedExpr.{TypedExpr};
ghost use Rattle.vera_ast.specs.declared.typed.expr.TypedExpr.TheVariants.{Number, Variable, Sample};
ghost use Rattle.vera_ast.specs.declared.typed.expr.TypedExpr.TheViews.{Chain};
ghost use Rattle.vera_ast.specs.declared.typed.expr.TypedLink.{TypedLink};
ghost use Rattle.vera_ast.specs.declared.typed.names.TypedSignalName.{TypedSignalName};
ghost use Rattle.vera_ast.specs.declared.typed.names.TypedVariable.{TypedVariable};
ghost use Rattle.vera_ast.specs.declared.typed.names.VariablePlace.TheVariants.{Program};
ghost use Rattle.vera_ast.specs.declared.typed.types.ValueType.TheVariants.{Vector};
ghost use Rattle.vera_ast.specs.declared.typed.types.VectorType.{VectorType};
ghost use Rattle.vera_ast.specs.declared.typed.types.VectorType.TheVariants as types;
ghost use Rattle.vera_ast.specs.ExprTypes.{type_of};
ghost use Rattle.vera_ast.specs.Types.{chain_type};
ghost use Rattle.vera_meaning.specs.Operators.{fitted, applied};
ghost use Rattle.vera_meaning.specs.Expressions.{bits_at, place_of, value, Next};

/// A literal is its bits, and has its own type.
pub fn literal_is_its_bits()
    ensures value { (bits : List Bit) (ty : VectorType) (ticks : ℕ) (next : Next) → value (Number bits ty) ticks next ≡ next bits ticks }
    ensures of { (bits : List Bit) (ty : VectorType) → type_of (Number bits ty) ≡ Vector ty }
{}

/// A variable that has a place, as one of the program has, is asked there, once. It has its declared type.
pub fn variable_is_asked_once()
    ensures place { (n : ℕ) → place_of (Program n) ≡ Some (locs.Global n) }
    ensures value { (v : TypedVariable) (l : Loc) (ticks : ℕ) (next : Next) → place_of v.place ≡ Some l → value (Variable v) ticks next ≡ Asks l (λ found. next (bits_at v.of found) ticks) }
    ensures of { (v : TypedVariable) → type_of (Variable v) ≡ v.of }
{}

/// An input signal is asked for its latest sample, once, and is a vector of the signal's width without a sign.
pub fn signal_is_asked_for_its_sample()
    ensures value { (s : TypedSignalName) (ticks : ℕ) (next : Next) → value (Sample s) ticks next ≡ Asks (locs.Sample s.number) (λ found. next (bits_at (Vector (types.Bits s.width)) found) ticks) }
    ensures of { (s : TypedSignalName) → type_of (Sample s) ≡ Vector (types.Bits s.width) }
{}

/// The operators of a chain are done from the left to the right: the last works on the value of the chain without
/// it, and its right operand is evaluated after that chain.
pub fn operators_group_from_the_left()
    ensures alone { (first : TypedExpr) (ticks : ℕ) (next : Next) → value (Chain first []) ticks next ≡ value first ticks next }
    ensures last { (first : TypedExpr) (links : List TypedLink) (l : TypedLink) (ticks : ℕ) (next : Next) → value (Chain first (links ++ l ∷ [])) ticks next ≡ value (Chain first links) ticks (λ bits left. value l.operand left (λ other left'. next (applied l.operator l.works_in (fitted (type_of (Chain first links)) l.works_in bits) (fitted (type_of l.operand) l.works_in other)) left')) }
    ensures of_alone { (first : TypedExpr) → type_of (Chain first []) ≡ type_of first }
    ensures of_last { (first : TypedExpr) (links : List TypedLink) (l : TypedLink) → type_of (Chain first (links ++ l ∷ [])) ≡ chain_type l.operator l.works_in }
{}

/// An expression has one value in given contents, behind given writes. Evaluating it notes what it asks, and does
/// nothing else: it puts and prints nothing, and takes no tick.
pub fn evaluation_only_asks()
    ensures { (e : TypedExpr) (c : Contents) (ns : Notes) (ws : Writes) → (bits : List Bit) × (after : Notes) × ((ticks : ℕ) (next : Next) (es : List Effect) → on_from (value e ticks next) c ns ws es ≡ on_from (next bits ticks) c after ws es) }
{}
