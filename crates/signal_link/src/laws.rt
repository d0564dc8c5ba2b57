//! What the rules of linking come to.
ghost use Rattle.std.specs.Prelude.{◌≡◌, ◌↔◌};
ghost use Rattle.vera_ast.specs.declared.typed.interface.TypedSignalKind.TheVariants.{Clock};
ghost use Rattle.vera_ast.specs.declared.tree.interfaces.Direction.TheVariants.{Input};
ghost use Rattle.vera_ast.specs.declared.typed.interface.TypedSignal.{TypedSignal};
ghost use Rattle.blif_read.specs.Netlists.{Parts};
ghost use Rattle.run_rules.specs.Links.{Links};
ghost use Rattle.signal_link.specs.Empty.{HasNoNets};

/// Without a netlist, which is against an empty one, every signal but a CLOCK is refused, and a CLOCK links.
pub fn only_clocks_link_without_a_netlist()
    ensures { (p : Parts) (s : TypedSignal) → HasNoNets p → Links p s ↔ (s.kind ≡ Clock) × (s.direction ≡ Input) }
{}
