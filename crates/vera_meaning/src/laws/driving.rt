ghost use Rattle.std.specs.Prelude.{◌≡◌, ℕ, List, [], ◌∷◌, ◌++◌, map};
ghost use Rattle.store_api.specs.Places.{Contents};
ghost use Rattle.slice_core.specs.Slices.{on};
ghost use Rattle.slice_core.specs.Walks.{walked};
ghost use Rattle.vera_ast.specs.declared.typed.stmt.TypedBlock.{TypedBlock};
ghost use Rattle.vera_ast.specs.declared.typed.stmt.TypedStmt.TheViews.{Block};
ghost use Rattle.vera_ast.specs.Signals.{NamedSignal, DrivesOutputs};
ghost use Rattle.vera_meaning.specs.Rests.{Here, Item, Do};
ghost use Rattle.vera_meaning.specs.Slices.{slice_of};
ghost use Rattle.vera_meaning.specs.Driving.{ItemsDrive, EffectsFit};

/// Where what a slice has to do drives output signals alone, each of its drives is due in the cycle of the slice,
/// names an output signal, and has that signal's width; and what the slice leaves drives output signals alone. It
/// is so in all contents, whether puts are done at once or kept until the slice's end.
pub fn drives_fit_their_signals()
    ensures in_place { (signals : List NamedSignal) (here : Here) (items : List Item) (budget : ℕ) (c : Contents) → ItemsDrive signals items → EffectsFit signals here.cycle (walked (slice_of here (record { agenda = items }) budget) c).effects × ItemsDrive signals (walked (slice_of here (record { agenda = items }) budget) c).rest.agenda }
    ensures in_contents { (signals : List NamedSignal) (here : Here) (items : List Item) (budget : ℕ) (c : Contents) → ItemsDrive signals items → EffectsFit signals here.cycle (on (slice_of here (record { agenda = items }) budget) c).effects × ItemsDrive signals (on (slice_of here (record { agenda = items }) budget) c).rest.agenda }
{}

/// The drives of a block are those of its statements.
pub fn block_drives_what_its_statements_drive()
    ensures into { (signals : List NamedSignal) (b : TypedBlock) (rest : List Item) → DrivesOutputs signals (Block b) → ItemsDrive signals rest → ItemsDrive signals (map Do b.stmts ++ rest) }
    ensures alone { (signals : List NamedSignal) (b : TypedBlock) → DrivesOutputs signals (Block b) → ItemsDrive signals (map Do b.stmts) }
    ensures from { (signals : List NamedSignal) (b : TypedBlock) (rest : List Item) → ItemsDrive signals (map Do b.stmts ++ rest) → DrivesOutputs signals (Block b) × ItemsDrive signals rest }
{}
