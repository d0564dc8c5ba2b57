ghost use Rattle.std.specs.Prelude.{◌≡◌, ◌↔◌, IsTrue, List};
ghost use Rattle.four_state.specs.declared.bit.Bit.{Bit};
ghost use Rattle.four_state.specs.declared.bit.Bit3.TheVariants as logical;
ghost use Rattle.four_state.specs.Logic.{logic_of};
ghost use Rattle.vera_meaning.specs.Operators.{is_true};

/// A condition holds exactly where its logical value is 1: neither 0 nor x is enough.
pub fn condition_holds_at_one()
    ensures { (bits : List Bit) → IsTrue (is_true bits) ↔ logic_of bits ≡ logical.One }
{}
