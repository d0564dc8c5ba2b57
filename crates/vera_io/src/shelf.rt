ghost use Rattle.std.specs.Prelude.{◌≡◌, ◌<◌, ◌≤◌, ◌^◌, ℕ, List, Option, length, drop, IfOk, IfSome, OnErr};
ghost use Rattle.vera_io.specs.Faults.{Rose};
ghost use Rattle.vera_io.specs.Shelf.{ReadsFrom};

use thiserror::Error;

/// A shelf couldn't read; its count of faults of that name rose.
#[derive(Clone, Copy, Debug, PartialEq, Eq, Error)]
#[error("the shelf failed")]
pub struct ShelfFailed;

/// Files by their names, which are bytes of any kind.
pub trait Shelf {
    /// The bytes of each name, where the shelf tells them.
    ghost bytes_of: { Self → List ℕ → Option (List ℕ) };

    /// How often reading this name has failed, counted up to 2^64 - 1.
    ghost faults_of: { Self → List ℕ → ℕ };

    /// Reads bytes of the named file from a place on, counted in bytes from 0, into the front of the
    /// buffer, and gives how many. The rest of the buffer stays as it was; after a failure the buffer may
    /// be anything.
    fn read_at(&mut self, name: &[u8], at: u64, buf: &mut [u8]) -> Result<usize, ShelfFailed>
        ensures within { IfOk result (λ n. n ≤ length buf.old) }
        ensures rest { IfOk result (λ n. drop n buf.new ≡ drop n buf.old) }
        ensures read { IfOk result (λ n.
            IfSome (bytes_of self.old name.now) (λ file. ReadsFrom file at n buf.new)) }
        ensures failed { OnErr result
            (Rose (faults_of self.old name.now) (faults_of self.new name.now)) }

        // What a shelf holds, and whether it tells it, stays; a count never falls.
        ensures kept { (other : List ℕ) → bytes_of self.new other ≡ bytes_of self.old other }
        ensures counts { (other : List ℕ) → faults_of self.old other ≤ faults_of self.new other };

    /// A count has 64 bits.
    ghost counts_fit: { (shelf : Self) (name : List ℕ) → faults_of shelf name < 2 ^ 64 };
}
