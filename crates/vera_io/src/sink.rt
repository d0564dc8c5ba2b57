ghost use Rattle.std.specs.Prelude.{◌≡◌, ◌<◌, ◌≤◌, ◌^◌, ℕ, List, Option, length, take, IfOk, OnErr};
ghost use Rattle.vera_io.specs.Faults.{Rose};
ghost use Rattle.vera_io.specs.Sink.{taken_more};

use thiserror::Error;

/// A sink couldn't take more bytes; its count of faults rose.
#[derive(Clone, Copy, Debug, PartialEq, Eq, Error)]
#[error("the sink failed")]
pub struct SinkFailed;

/// Takes bytes, one piece after another.
pub trait Sink {
    /// The bytes taken so far, where the sink tells them.
    ghost bytes_taken: { Self → Option (List ℕ) };

    /// How often a call has failed, counted up to 2^64 - 1.
    ghost faults: { Self → ℕ };

    /// Takes bytes from the front of the piece, and gives how many: at least one, unless the piece is
    /// empty. A call that fails takes nothing.
    fn write(&mut self, piece: &[u8]) -> Result<usize, SinkFailed>
        ensures within { IfOk result (λ n. n ≤ length piece.now) }
        ensures some { IfOk result (λ n. 0 < length piece.now → 0 < n) }
        ensures took { IfOk result (λ n.
            bytes_taken self.new ≡ taken_more (bytes_taken self.old) (take n piece.now)) }
        ensures failed { OnErr result (Rose (faults self.old) (faults self.new)) }
        ensures untouched { OnErr result (bytes_taken self.new ≡ bytes_taken self.old) }

        // A count never falls.
        ensures counts { faults self.old ≤ faults self.new };

    /// A count has 64 bits.
    ghost counts_fit: { (sink : Self) → faults sink < 2 ^ 64 };
}
