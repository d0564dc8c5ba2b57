ghost use Rattle.std.specs.Prelude.{◌≡◌, ◌≢◌, ◌↔◌, ◌≤◌, length, drop, None, Some, if◌then◌else◌, is_ok, IsSome, IfOk, IfSome};
ghost use Rattle.std.specs.Result.{result_ok};
ghost use Rattle.vera_io.specs.DirShelf.{kept_of, kept_after, MovedTo};
ghost use Rattle.vera_io.specs.Faults.{capped, capped-fits, raised};

use crate::piece::{PIECE, zeros};
use crate::{Shelf, ShelfFailed};
use four_state::NoMemory;
use std::alloc::Global;
use std::fs;
use std::io::{Read, Seek, SeekFrom};
use std::marker::Model;
use std::rt::Files;

/// How long a name is at most whose file stays open between two calls.
const KEPT_NAME: usize = 4096;

/// The files of the system, by paths that begin at the present folder. It tells nothing of their bytes, and
/// has one count of faults for all names. Contracts see it as that count, and as the name and the place of
/// the file that it keeps open.
#[derive(Drop)]
pub struct DirShelf<R: Files> {
    rt: R,
    faults: u64,
    // Bytes on their way from a file to a caller's buffer.
    piece: Vec<u8>,
    // The file of the last call, with its name and the place that it stands at, so that a file which is
    // read from its front to its end is opened once. At its end it is closed.
    file: Option<R::File>,
    name: Vec<u8>,
    place: u64,
}

impl<R: Files> Model for DirShelf<R> {
    ghost use Rattle.std.specs.Prelude.{◌≤◌, vec_capacity};
    ghost use Rattle.std.specs.Option.{option_map};
    ghost use Rattle.vera_io.specs.DirShelf.{DirState};

    ghost Value = { DirState };

    ghost view = { λ s. record {
      faults = s.faults;
      kept = option_map (λ _. (s.name.items, s.place)) s.file;
    } };

    // A name that is kept needs no memory.
    ghost invariant = { λ s. 4096 ≤ vec_capacity s.name };
}

impl<R: Files + Drop> DirShelf<R> {
    /// The shelf of the system that `rt` stands for. All its memory is made here.
    pub fn new(alloc: Global, rt: R) -> Result<DirShelf<R>, NoMemory>
        ensures { IfOk result (λ shelf. shelf ≡ record { faults = 0; kept = None }) }
    {
        Ok(DirShelf {
            rt,
            faults: 0,
            piece: zeros(alloc, PIECE)?,
            file: None,
            name: Vec::with_capacity(alloc, KEPT_NAME)?,
            place: 0,
        })
    }
}

impl<R: Files> DirShelf<R> {
    /// Reads a piece of a file; nothing where the system fails, or where the name is no path.
    fn read_piece(&mut self, name: &[u8], at: u64, buf: &mut [u8]) -> Option<usize>
        ensures faults { self.new.faults ≡ self.old.faults }
        ensures kept { self.new.kept ≡ kept_after name.now at result }
        ensures within { IfSome result (λ n. n ≤ length buf.old) }
        ensures rest { IfSome result (λ n. drop n buf.new ≡ drop n buf.old) }
    {
        let mut file = match self.kept_at(name, at) {
            Some(file) => file,
            None => open_at(&self.rt, name, at)?,
        };
        let wanted = buf.len().min(self.piece.len());
        let count = file.read(&mut self.piece[..wanted]).ok()?;
        buf[..count].copy_from_slice(&self.piece[..count]);
        if count > 0 {
            self.keep(file, name, at.saturating_add(count as u64));
        }
        Some(count)
    }

    /// Takes the file that is kept, if it is the one of this name and stands at this place. Another one is
    /// closed.
    fn kept_at(&mut self, name: &[u8], at: u64) -> Option<R::File>
        ensures found { IsSome result ↔ (self.old.kept ≡ Some (name.now, at)) }
        ensures taken { self.new ≡ record { faults = self.old.faults; kept = None } }
    {
        if self.place != at || self.name.as_slice() != name {
            self.file = None;
        }
        self.file.take()
    }

    /// Leaves the file open for a call that goes on at this place, if the name isn't too long.
    fn keep(&mut self, file: R::File, name: &[u8], place: u64)
        ensures { self.new ≡ record { faults = self.old.faults; kept = kept_of name.now place } }
    {
        self.file = None;
        self.name.clear();
        if name.len() <= KEPT_NAME {
            self.name.extend_from_slice(name).unwrap();
            self.file = Some(file);
            self.place = place;
        }
    }
}

impl<R: Files> Shelf for DirShelf<R> {
    ghost bytes_of = { λ shelf name. None };

    ghost faults_of = { λ shelf name. capped shelf.faults };

    ghost counts_fit = { λ shelf name. capped-fits _ };

    /// Reads as every shelf does. It fails where the name isn't UTF-8, and where the system can't open the
    /// file, go to the place or read.
    fn read_at(&mut self, name: &[u8], at: u64, buf: &mut [u8]) -> Result<usize, ShelfFailed>
        ensures within { IfOk result (λ n. n ≤ length buf.old) }
        ensures rest { IfOk result (λ n. drop n buf.new ≡ drop n buf.old) }
        ensures faults { self.new.faults
            ≡ (if is_ok result then self.old.faults else raised self.old.faults) }
        ensures kept { self.new.kept ≡ kept_after name.now at (result_ok result) }
    {
        match self.read_piece(name, at, buf) {
            Some(count) => Ok(count),
            None => {
                self.faults = self.faults.saturating_add(1);
                Err(ShelfFailed)
            }
        }
    }
}

/// Opens a file to be read from a place on. A file that is read from its front on isn't moved, since some,
/// as a pipe, can't be.
fn open_at<R: Files>(rt: &R, name: &[u8], at: u64) -> Option<R::File>
    ensures { IfSome result (λ file. at ≢ 0 → MovedTo R.File.Seek.stream_position at file) }
{
    let path = str::from_utf8(name).ok()?;
    let file = fs::open(rt, path).ok()?;
    if at == 0 {
        return Some(file);
    }
    move_to(file, at)
}

/// Moves a file to a place.
fn move_to<F: Seek + Drop>(mut file: F, at: u64) -> Option<F>
    ensures { IfSome result (λ moved.
        IfSome (F.stream_position file) (λ _. F.stream_position moved ≡ Some at)) }
{
    file.seek(SeekFrom::Start(at)).ok()?;
    Some(file)
}
