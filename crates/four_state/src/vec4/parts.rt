ghost use Rattle.std.specs.Prelude.{◌≡◌, ◌+◌, ◌<◌, ◌≤◌, ◌↔◌, length, IsSome, IfSome};
ghost use Rattle.four_state.specs.Parts.{joined, selected};

use super::{Vec4, mask};

impl Vec4 {
    /// `{self, low}`: the bits of `low` below those of `self`. None exactly where they are more than 128.
    pub fn concat(&self, low: &Vec4) -> Option<Vec4>
        ensures fits { IsSome result ↔ (length self.now + length low.now ≤ 128) }
        ensures value { IfSome result (λ v. v ≡ joined self.now low.now) }
    {
        if self.width > 128 - low.width {
            return None;
        }
        Some(Vec4 {
            width: self.width + low.width,
            ones: (self.ones << low.width) | low.ones,
            unknown: (self.unknown << low.width) | low.unknown,
        })
    }

    /// `v[high:low]`: the bits from place `low` to place `high`, x outside the width.
    pub fn select(&self, high: u8, low: u8) -> Vec4
        requires order { low ≤ high }
        requires within { high < 128 }
        ensures { result ≡ selected high low self.now }
    {
        let width = high - low + 1;
        let outside = !mask(self.width);
        Vec4 {
            width,
            ones: (self.ones >> low) & mask(width),
            unknown: ((self.unknown | outside) >> low) & mask(width),
        }
    }
}
