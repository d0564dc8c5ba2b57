ghost use Rattle.std.specs.Prelude.{◌≡◌, ◌<◌, length, drop};
ghost use Rattle.four_state.specs.Shifts.{shifted_left, shifted_right};

use super::{Vec4, mask};

impl Vec4 {
    /// `<<` by an unsigned amount, signed or not: filled with 0; all x where the amount has an x or z.
    pub fn shl(&self, by: &Vec4, _signed: bool) -> Vec4
        ensures { result ≡ shifted_left self.now by.now }
    {
        let width = self.width;
        if !by.is_known() {
            return Vec4::all_x(self.width);
        }
        let by = by.number();
        if by >= u128::from(width) {
            return Vec4::of_number(width, 0);
        }
        Vec4 {
            width,
            ones: (self.ones << by) & mask(width),
            unknown: (self.unknown << by) & mask(width),
        }
    }

    /// `>>` by an unsigned amount: filled with the top bit where `signed`, else with 0; all x where the amount has an x or z.
    pub fn shr(&self, by: &Vec4, signed: bool) -> Vec4
        ensures { result ≡ shifted_right signed self.now by.now }
    {
        let width = self.width;
        if !by.is_known() {
            return Vec4::all_x(width);
        }
        let by = by.number();
        if by < u128::from(width) {
            self.upper(by as u8).extend(width, signed)
        } else if signed {
            self.upper(width - 1).extend(width, true)
        } else {
            Vec4::of_number(width, 0)
        }
    }

    /// The bits from a place on.
    fn upper(&self, from: u8) -> Vec4
        requires { from < length self.now }
        ensures { result ≡ drop from self.now }
    {
        Vec4 {
            width: self.width - from,
            ones: self.ones >> from,
            unknown: self.unknown >> from,
        }
    }
}
