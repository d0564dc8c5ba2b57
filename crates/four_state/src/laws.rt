//! Laws of the definitions that contracts cite. These functions do nothing: each is there for its clauses.

ghost use Rattle.std.specs.Prelude.{◌≡◌, ℕ, ◌+◌, ◌-◌, ◌%◌, ◌^◌, Bool, List, length, IsTrue, ℤ};
ghost use Rattle.four_state.specs.Arithmetic.{sum_of, difference_of, product_of, negated_of, quotient_of, remainder_of};
ghost use Rattle.four_state.specs.Bits.{all_known, all_x, extended};
ghost use Rattle.four_state.specs.Bitwise.{each_pair, not_of};
ghost use Rattle.four_state.specs.Numbers.{number_of, signed_number_of, vector_of, vector_of_integer};
ghost use Rattle.four_state.specs.Parts.{selected};
ghost use Rattle.four_state.specs.Shifts.{shifted_left, shifted_right};
ghost use Rattle.four_state.specs.Words.{bits_of, ones_of, unknown_of};
ghost use Rattle.four_state.specs.declared.bit.Bit.{Bit};

/// A vector is told by its width, `ones` and `unknown`.
pub fn parts_tell_the_vector()
    ensures { (bits : List Bit) → bits_of (length bits) (ones_of bits) (unknown_of bits) ≡ bits }
{}

/// A vector whose bits are known is told by its width and its number, signed or not.
pub fn numbers_tell_the_vector()
    ensures there { (width n : ℕ) → number_of (vector_of width n) ≡ n % 2 ^ width }
    ensures back { (bits : List Bit) → IsTrue (all_known bits) → vector_of (length bits) (number_of bits) ≡ bits }
    ensures signed_back { (bits : List Bit)
        → IsTrue (all_known bits) → vector_of_integer (length bits) (signed_number_of bits) ≡ bits }
{}

/// The width of each result.
pub fn widths_of_results()
    ensures all_x { (width : ℕ) → length (all_x width) ≡ width }
    ensures vector { (width n : ℕ) → length (vector_of width n) ≡ width }
    ensures integer_vector { (width : ℕ) (z : ℤ) → length (vector_of_integer width z) ≡ width }
    ensures extended { (width : ℕ) (signed : Bool) (bits : List Bit) → length (extended width signed bits) ≡ width }
    ensures sum { (a b : List Bit) → length (sum_of a b) ≡ length a }
    ensures difference { (a b : List Bit) → length (difference_of a b) ≡ length a }
    ensures product { (a b : List Bit) → length (product_of a b) ≡ length a }
    ensures negated { (a : List Bit) → length (negated_of a) ≡ length a }
    ensures quotient { (signed : Bool) (a b : List Bit) → length (quotient_of signed a b) ≡ length a }
    ensures remainder { (signed : Bool) (a b : List Bit) → length (remainder_of signed a b) ≡ length a }
    ensures each_pair { (op : Bit → Bit → Bit) (a b : List Bit)
        → length a ≡ length b → length (each_pair op a b) ≡ length a }
    ensures not { (a : List Bit) → length (not_of a) ≡ length a }
    ensures shifted_left { (bits by : List Bit) → length (shifted_left bits by) ≡ length bits }
    ensures shifted_right { (signed : Bool) (bits by : List Bit) → length (shifted_right signed bits by) ≡ length bits }
    ensures selected { (high low : ℕ) (bits : List Bit) → length (selected high low bits) ≡ high + 1 - low }
{}
