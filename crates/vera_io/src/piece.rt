ghost use Rattle.std.specs.Prelude.{◌≡◌, vec_len, IfOk};

use std::alloc::{AllocError, Global};

/// How many bytes of a file are read at once.
pub(crate) const PIECE: usize = 65536;

/// A buffer of so many bytes.
pub(crate) fn zeros(alloc: Global, count: usize) -> Result<Vec<u8>, AllocError>
    ensures { IfOk result (λ bytes. vec_len bytes ≡ count) }
{
    vec![in alloc; 0; count]
}
