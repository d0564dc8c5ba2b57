ghost use Rattle.std.specs.Prelude.{◌≡◌, ◌≢◌, ◌↔◌, ℕ, ◌+◌, ◌*◌, ◌<◌, ◌≤◌, List, [], ◌∷◌, length, Some, None};
ghost use Rattle.slice_core.specs.Slices.{on};
ghost use Rattle.slice_core.specs.Starts.{Meaning};
ghost use Rattle.run_rules.specs.Designs.{Design};
ghost use Rattle.run_rules.specs.States.{State, Entry, Limits, Fault, SpentTurns};
ghost use Rattle.run_rules.specs.Moves.{move, after, limited, text_limited, turns_limited, most_text};
ghost use Rattle.run_rules.specs.Runs.{run};

/// A turn runs one slice of the first ready thread, in the contents as they stand: its entry leaves the ready
/// threads, the turns rise by one, and what the slice did is taken. Then the limit of turns is looked at.
pub fn turn_of_the_first_ready<R>()
    ensures { (meaning : Meaning R) (design : Design) (limits : Limits) (s : State R) (e : Entry R) (es : List (Entry R)) → s.ended ≡ None → s.ready ≡ e ∷ es → move meaning design limits s ≡ limited limits (after (record s { ready = es; turns = s.turns + 1 }) e.thread (on (meaning (record { rest = e.rest; thread = e.thread; cycle = s.cycle; budget = limits.budget })) s.contents)) }
{}

/// A run without an end is spent by turns exactly where as many slices as a cycle may have were run, and a thread is
/// still ready. Else looking at the limit changes nothing.
pub fn spent_by_turns<R>()
    ensures spent { (limits : Limits) (s : State R) → s.ended ≡ None → (turns_limited limits s).ended ≡ Some SpentTurns ↔ (limits.turns ≤ s.turns) × (s.ready ≢ []) }
    ensures only { (limits : Limits) (s : State R) → s.ended ≡ None → (limits.turns ≤ s.turns) × (s.ready ≢ []) → turns_limited limits s ≡ record s { ended = Some SpentTurns } }
    ensures same { (limits : Limits) (s : State R) → (turns_limited limits s).ended ≢ Some SpentTurns → turns_limited limits s ≡ s }
{}

/// A run without an end ends as fault F09 of no line exactly where what it printed and its drives, each as 64 bytes,
/// are more than 64 MiB together. Else looking at the limit changes nothing.
pub fn text_has_a_limit<R>()
    ensures fault { (s : State R) → s.ended ≡ None → most_text < length s.printed + 64 * length s.applied → text_limited s ≡ record s { ended = Some (Fault 9 0) } }
    ensures same { (s : State R) → length s.printed + 64 * length s.applied ≤ most_text → text_limited s ≡ s }
    ensures ended { (s : State R) → s.ended ≢ None → text_limited s ≡ s }
{}

/// A run stays within its limits: its cycle is never above the last, and, where a cycle may have a slice at all, no
/// cycle has more slices than it may.
pub fn within_limits<R>()
    ensures cycles { (meaning : Meaning R) (design : Design) (limits : Limits) (rest : R) (n : ℕ) → (run meaning design limits rest n).cycle ≤ limits.cycles }
    ensures turns { (meaning : Meaning R) (design : Design) (limits : Limits) (rest : R) (n : ℕ) → 0 < limits.turns → (run meaning design limits rest n).turns ≤ limits.turns }
{}
