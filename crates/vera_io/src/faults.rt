ghost use Rattle.std.specs.Prelude.{◌≡◌, ◌⊎◌, ◌↔◌, ◌+◌, ◌^◌, ◌<◌, ◌≤◌, ℕ};
ghost use Rattle.vera_io.specs.Faults.{Rose};

/// A count of faults, which has 64 bits, rose exactly where it is higher than before or stands at its end.
/// A rise in a part of a run is a rise in the whole, since a count never falls.
pub fn rise_of_a_count()
    ensures meaning { (old new : ℕ) → new < 2 ^ 64 →
        (Rose old new ↔ ((old < new) ⊎ (new + 1 ≡ 2 ^ 64))) }
    ensures part { (first before after last : ℕ) →
        first ≤ before → Rose before after → after ≤ last → Rose first last }
{}
