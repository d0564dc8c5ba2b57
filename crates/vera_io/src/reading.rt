ghost use Rattle.std.specs.Prelude.{◌≡◌, ◌⊎◌, ◌+◌, ◌<◌, ◌≤◌, ℕ, List, length, vec_len, IfOk, IfSome, OnOk, IsErrOf};
ghost use Rattle.vera_io.specs.declared.reading.ReadAll.TheVariants.{Failed, NoMemory};
ghost use Rattle.vera_io.specs.Faults.{Rose};
ghost use Rattle.vera_io.specs.Shelf.{IsFrontOf};

use crate::piece::{PIECE, zeros};
use crate::{Shelf, ShelfFailed};
use std::alloc::{AllocError, Global};
use thiserror::Error;

/// Why a file wasn't read whole.
#[derive(Clone, Copy, Debug, PartialEq, Eq, Error)]
pub enum ReadAll {
    /// The shelf failed; its count of faults of the file's name rose.
    #[error("the file couldn't be read")]
    Failed,
    /// The file has more bytes than the limit.
    #[error("the file is too long")]
    TooLong,
    #[error("out of memory")]
    NoMemory,
}

impl From<ShelfFailed> for ReadAll {
    ghost from_gives = { λ _ e. e ≡ Failed };

    fn from(_failure: ShelfFailed) -> ReadAll {
        ReadAll::Failed
    }
}

impl From<AllocError> for ReadAll {
    ghost from_gives = { λ _ e. e ≡ NoMemory };

    fn from(_error: AllocError) -> ReadAll {
        ReadAll::NoMemory
    }
}

/// Reads the whole named file, which may have at most `limit` bytes. It asks for no byte behind the first
/// past the limit. Each turn reads at least one byte, so there are at most `limit` turns and one more.
pub fn read_all<S: Shelf>(
    alloc: Global,
    shelf: &mut S,
    name: &[u8],
    limit: u64,
) -> Result<Vec<u8>, ReadAll>
    ensures read { IfOk result (λ bytes.
        IfSome (S.bytes_of shelf.old name.now) (λ file. bytes.items ≡ file)) }
    ensures short { IfOk result (λ bytes. vec_len bytes ≤ limit) }
    ensures failed { IsErrOf result ReadAll.Failed →
        Rose (S.faults_of shelf.old name.now) (S.faults_of shelf.new name.now) }
    ensures too_long { IsErrOf result ReadAll.TooLong →
        IfSome (S.bytes_of shelf.old name.now) (λ file. limit < length file) }

    // Too long a file is told as such, but for a fault of the shelf and want of memory.
    ensures too_long_always { IfSome (S.bytes_of shelf.old name.now) (λ file. limit < length file →
        IsErrOf result ReadAll.TooLong ⊎ IsErrOf result ReadAll.NoMemory
        ⊎ Rose (S.faults_of shelf.old name.now) (S.faults_of shelf.new name.now)) }

    // What a shelf holds, and whether it tells it, stays; a count never falls.
    ensures kept { (other : List ℕ) → S.bytes_of shelf.new other ≡ S.bytes_of shelf.old other }
    ensures counts { (other : List ℕ) →
        S.faults_of shelf.old other ≤ S.faults_of shelf.new other }
{
    let mut piece = zeros(alloc, PIECE)?;
    let mut bytes = Vec::new(alloc);
    while bytes.len() as u64 <= limit {
        // One byte past the limit shows that the file is too long.
        let room = limit - bytes.len() as u64;
        let wanted = room.min(PIECE as u64 - 1) as usize + 1;
        if read_more(shelf, name, &mut piece[..wanted], &mut bytes)? == 0 {
            return Ok(bytes);
        }
    }
    Err(ReadAll::TooLong)
}

/// Reads the bytes of the file that follow those which are there already, and adds them. It gives how many
/// came; none come at the file's end.
fn read_more<S: Shelf>(
    shelf: &mut S,
    name: &[u8],
    piece: &mut [u8],
    bytes: &mut Vec<u8>,
) -> Result<usize, ReadAll>
    requires room { 0 < length piece.old }
    requires front { IsFrontOf bytes.old.items (S.bytes_of shelf.old name.now) }

    ensures added { IfOk result (λ n. vec_len bytes.new ≡ vec_len bytes.old + n) }
    ensures within { IfOk result (λ n. n ≤ length piece.old) }
    ensures front { OnOk result (IsFrontOf bytes.new.items (S.bytes_of shelf.old name.now)) }
    ensures end { IfOk result (λ n. n ≡ 0 →
        IfSome (S.bytes_of shelf.old name.now) (λ file. bytes.new.items ≡ file)) }
    ensures failed { IsErrOf result ReadAll.Failed →
        Rose (S.faults_of shelf.old name.now) (S.faults_of shelf.new name.now) }
    ensures too_long { ¬ (IsErrOf result ReadAll.TooLong) }
    ensures kept { (other : List ℕ) → S.bytes_of shelf.new other ≡ S.bytes_of shelf.old other }
    ensures counts { (other : List ℕ) →
        S.faults_of shelf.old other ≤ S.faults_of shelf.new other }
{
    let came = shelf.read_at(name, bytes.len() as u64, piece)?;
    bytes.extend_from_slice(&piece[..came])?;
    Ok(came)
}
