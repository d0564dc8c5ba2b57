ghost use Rattle.std.specs.Prelude.{◌≡◌};
ghost use Rattle.run_rules.specs.declared.status.Status.{Status};
ghost use Rattle.run_rules.specs.Statuses.{number_of};

/// No two statuses have one number.
pub fn each_status_has_its_own_number()
    ensures { (one other : Status) → number_of one ≡ number_of other → one ≡ other }
{}
