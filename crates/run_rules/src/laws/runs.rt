ghost use Rattle.std.specs.Prelude.{◌≡◌, ℕ, ◌≤◌, Some};
ghost use Rattle.slice_core.specs.Starts.{Meaning};
ghost use Rattle.run_rules.specs.Designs.{Design};
ghost use Rattle.run_rules.specs.States.{State, Limits, End};
ghost use Rattle.run_rules.specs.Moves.{move};
ghost use Rattle.run_rules.specs.Runs.{run, IsFinal};

/// After its end a run stays as it is: a move changes nothing, and so does any number of moves.
pub fn ended_stays<R>()
    ensures once { (meaning : Meaning R) (design : Design) (limits : Limits) (s : State R) (e : End) → s.ended ≡ Some e → move meaning design limits s ≡ s }
    ensures ever { (meaning : Meaning R) (design : Design) (limits : Limits) (rest : R) (n m : ℕ) (e : End) → n ≤ m → (run meaning design limits rest n).ended ≡ Some e → run meaning design limits rest m ≡ run meaning design limits rest n }
{}

/// A run has one final state at most, and one end.
pub fn one_final<R>()
    ensures state { (meaning : Meaning R) (design : Design) (limits : Limits) (rest : R) (e f : End) (s t : State R) → IsFinal meaning design limits rest e s → IsFinal meaning design limits rest f t → s ≡ t }
    ensures end { (meaning : Meaning R) (design : Design) (limits : Limits) (rest : R) (e f : End) (s t : State R) → IsFinal meaning design limits rest e s → IsFinal meaning design limits rest f t → e ≡ f }
{}

/// Each run ends, whatever its slices mean: a cycle has only so many turns, and the run only so many cycles.
pub fn every_run_ends<R>()
    ensures { (meaning : Meaning R) (design : Design) (limits : Limits) (rest : R) → (e : End) × (s : State R) × IsFinal meaning design limits rest e s }
{}
