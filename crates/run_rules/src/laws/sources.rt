ghost use Rattle.std.specs.Prelude.{◌≡◌, Some};
ghost use Rattle.blif_read.specs.Netlists.{Parts};
ghost use Rattle.blif_device.specs.Settled.{HasOneSettled};
ghost use Rattle.vera_ast.specs.declared.typed.file.TypedProgram.{TypedProgram};
ghost use Rattle.vera_ast.specs.declared.typed.file.TypedTree.{TypedTree};
ghost use Rattle.vera_ast.specs.Signals.{program_in};
ghost use Rattle.vera_meaning.specs.Rests.{Rest};
ghost use Rattle.run_rules.specs.States.{State, Limits, End};
ghost use Rattle.run_rules.specs.Sources.{RunEnds};

/// The run of a testbench against a netlist that always has one settled valuation ends in one way, and in one state.
pub fn one_end_of_a_testbench()
    ensures state { (tree : TypedTree) (netlist : Parts) (limits : Limits) (e f : End) (s t : State Rest) → HasOneSettled netlist → RunEnds tree netlist limits e s → RunEnds tree netlist limits f t → s ≡ t }
    ensures end { (tree : TypedTree) (netlist : Parts) (limits : Limits) (e f : End) (s t : State Rest) → HasOneSettled netlist → RunEnds tree netlist limits e s → RunEnds tree netlist limits f t → e ≡ f }
{}

/// The run of each testbench that has a program ends, against each netlist that always has a settled valuation.
pub fn every_program_ends()
    ensures { (program : TypedProgram) (tree : TypedTree) (netlist : Parts) (limits : Limits) → program_in tree.items ≡ Some program → HasOneSettled netlist → (e : End) × (s : State Rest) × RunEnds tree netlist limits e s }
{}
