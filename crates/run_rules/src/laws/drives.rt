ghost use Rattle.std.specs.Prelude.{◌≡◌, ◌≢◌, ℕ, List, [], ◌∷◌, ◌++◌, length, Some, None};
ghost use Rattle.four_state.specs.declared.bit.Bit.{Bit};
ghost use Rattle.vera_ast.specs.Signals.{NamedSignal};
ghost use Rattle.run_rules.specs.Drives.{Drive, Driven, meet, given_to, driven_by, with_value};
ghost use Rattle.vera_meaning.specs.Driving.{FitsSignal};
ghost use Rattle.run_rules.specs.Fits.{AllFit, FitsDriven};

/// Where nothing is driven, each signal keeps its value.
pub fn no_drive_changes_nothing()
    ensures { (driven : Driven) → driven_by [] driven ≡ driven }
{}

/// One more drive changes its signal alone: it gives its bits where it is the first drive of the signal, and else
/// meets the signal's value.
pub fn one_more_drive()
    ensures first { (done : List Drive) (d : Drive) (driven : Driven) → given_to d.signal done ≡ [] → driven_by (done ++ d ∷ []) driven ≡ with_value (driven_by done driven) d.signal d.bits }
    ensures meets { (done : List Drive) (d : Drive) (driven : Driven) (value : List Bit) → given_to d.signal done ≢ [] → driven_by done driven d.signal ≡ Some value → driven_by (done ++ d ∷ []) driven ≡ with_value (driven_by done driven) d.signal (meet value d.bits) }
{}

/// A signal is given something by a drive of it and by what gave it something before, and then it has a value.
pub fn one_more_is_given()
    ensures this { (done : List Drive) (d : Drive) → given_to d.signal (done ++ d ∷ []) ≢ [] }
    ensures others { (done : List Drive) (d : Drive) (signal : ℕ) → signal ≢ d.signal → given_to signal (done ++ d ∷ []) ≡ given_to signal done }
    ensures value { (done : List Drive) (driven : Driven) (signal : ℕ) → given_to signal done ≢ [] → (value : List Bit) × (driven_by done driven signal ≡ Some value) }
{}

/// Values of one width meet in a value of this width. So where all drives and all former values have their signals'
/// widths, the new values have them too.
pub fn drives_fit()
    ensures length { (a b : List Bit) → length a ≡ length b → length (meet a b) ≡ length a }
    ensures meet { (signals : List NamedSignal) (n : ℕ) (a b : List Bit) → FitsSignal signals n a → FitsSignal signals n b → FitsSignal signals n (meet a b) }
    ensures driven { (signals : List NamedSignal) (drives : List Drive) (driven : Driven) → AllFit signals drives → FitsDriven signals driven → FitsDriven signals (driven_by drives driven) }
    ensures nothing { (signals : List NamedSignal) → FitsDriven signals (λ n. None) }
    ensures value { (signals : List NamedSignal) (driven : Driven) (n : ℕ) (bits : List Bit) → FitsDriven signals driven → FitsSignal signals n bits → FitsDriven signals (with_value driven n bits) }
{}
