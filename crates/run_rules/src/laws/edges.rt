ghost use Rattle.std.specs.Prelude.{◌≡◌, ◌≢◌, [], Some, None};
ghost use Rattle.slice_core.specs.Starts.{Meaning};
ghost use Rattle.run_rules.specs.Designs.{Design};
ghost use Rattle.run_rules.specs.States.{State, Limits, Finished, Limit};
ghost use Rattle.run_rules.specs.Moves.{move, drives_applied, next_cycle, limited};

/// At an edge, where no thread is ready, the drives of the cycle are applied, and a run without a live thread
/// finishes, in its last cycle too.
pub fn edge_finishes<R>()
    ensures { (meaning : Meaning R) (design : Design) (limits : Limits) (s : State R) → s.ended ≡ None → s.ready ≡ [] → s.live ≡ [] → move meaning design limits s ≡ record (drives_applied s) { ended = Some Finished } }
{}

/// At the edge of the last cycle the drives of the cycle are applied, and a run with a live thread is at its limit.
pub fn edge_ends_at_the_last_cycle<R>()
    ensures { (meaning : Meaning R) (design : Design) (limits : Limits) (s : State R) → s.ended ≡ None → s.ready ≡ [] → s.live ≢ [] → s.cycle ≡ limits.cycles → move meaning design limits s ≡ record (drives_applied s) { ended = Some Limit } }
{}

/// At any other edge the drives of the cycle are applied, and the next cycle begins. Then the limits are looked at.
pub fn edge_begins_the_next_cycle<R>()
    ensures { (meaning : Meaning R) (design : Design) (limits : Limits) (s : State R) → s.ended ≡ None → s.ready ≡ [] → s.live ≢ [] → s.cycle ≢ limits.cycles → move meaning design limits s ≡ limited limits (next_cycle design (drives_applied s)) }
{}
