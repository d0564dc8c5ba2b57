//! The operators that give a vector for one vector or for two. None: there is no such operator, or the widths differ.

ghost use Rattle.std.specs.Prelude.{◌≡◌, length};

use four_state::Vec4;

pub fn single(name: &str, a: &Vec4) -> Option<Vec4> {
    match name {
        "neg" => Some(a.neg()),
        "bit_not" => Some(a.bit_not()),
        "logic_not" => Some(a.logic_not()),
        "red_and" => Some(a.red_and()),
        "red_or" => Some(a.red_or()),
        "red_xor" => Some(a.red_xor()),
        "red_nand" => Some(a.red_nand()),
        "red_nor" => Some(a.red_nor()),
        "red_xnor" => Some(a.red_xnor()),
        _ => None,
    }
}

pub fn pair(name: &str, a: &Vec4, b: &Vec4, signed: bool) -> Option<Vec4> {
    match name {
        "logic_and" => Some(a.logic_and(b)),
        "logic_or" => Some(a.logic_or(b)),
        "shl" => Some(a.shl(b, signed)),
        "shr" => Some(a.shr(b, signed)),
        _ if a.width() == b.width() => of_one_width(name, a, b, signed),
        _ => None,
    }
}

fn of_one_width(name: &str, a: &Vec4, b: &Vec4, signed: bool) -> Option<Vec4>
    requires { length a.now ≡ length b.now }
{
    match name {
        "add" => Some(a.add(b, signed)),
        "sub" => Some(a.sub(b, signed)),
        "mul" => Some(a.mul(b, signed)),
        "div" => Some(a.div(b, signed)),
        "rem" => Some(a.rem(b, signed)),
        "bit_and" => Some(a.bit_and(b, signed)),
        "bit_or" => Some(a.bit_or(b, signed)),
        "bit_xor" => Some(a.bit_xor(b, signed)),
        "bit_xnor" => Some(a.bit_xnor(b, signed)),
        _ => comparison(name, a, b, signed),
    }
}

fn comparison(name: &str, a: &Vec4, b: &Vec4, signed: bool) -> Option<Vec4>
    requires { length a.now ≡ length b.now }
{
    match name {
        "less" => Some(a.less(b, signed)),
        "less_equal" => Some(a.less_equal(b, signed)),
        "greater" => Some(a.greater(b, signed)),
        "greater_equal" => Some(a.greater_equal(b, signed)),
        "equal" => Some(a.equal(b, signed)),
        "not_equal" => Some(a.not_equal(b, signed)),
        "case_eq" => Some(a.case_eq(b, signed)),
        "case_ne" => Some(a.case_ne(b, signed)),
        "wild_eq" => Some(a.wild_eq(b, signed)),
        "wild_ne" => Some(a.wild_ne(b, signed)),
        _ => None,
    }
}
