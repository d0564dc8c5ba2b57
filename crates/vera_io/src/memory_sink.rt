ghost use Rattle.std.specs.Prelude.{◌≡◌, [], is_ok, IfOk, Some};
ghost use Rattle.vera_io.specs.Faults.{capped, capped-fits};

use crate::{Sink, SinkFailed};
use four_state::NoMemory;
use std::alloc::Global;
use std::marker::Model;

/// Keeps what is written in memory, and can be told to fail: for tests, and for whoever wants the bytes.
#[derive(Debug, Drop)]
pub struct MemorySink {
    taken: Vec<u8>,
    room: usize,
    step: usize,
    failing: Vec<u64>,
    calls: u64,
    faults: u64,
}

impl Model for MemorySink {
    ghost use Rattle.std.specs.Prelude.{◌≤◌, vec_len, vec_capacity};
    ghost use Rattle.vera_io.specs.MemorySink.{SinkState};

    ghost Value = { SinkState };

    ghost view = { λ s. record {
      taken = s.taken.items;
      room = s.room;
      step = s.step;
      failing = s.failing.items;
      calls = s.calls;
      faults = s.faults;
    } };

    ghost invariant = { λ s. (vec_len s.taken ≤ s.room) × (s.room ≤ vec_capacity s.taken) };
}

impl MemorySink {
    /// A sink that takes at most `room` bytes in all and `step` bytes in a call. Calls are counted from 1,
    /// and those whose numbers are in `failing` fail. Its room is made here, so that writing takes no memory.
    pub fn new(
        alloc: Global,
        room: usize,
        step: usize,
        failing: Vec<u64>,
    ) -> Result<MemorySink, NoMemory>
        ensures { IfOk result (λ sink. sink ≡ record {
          taken = [];
          room = room;
          step = step;
          failing = failing.items;
          calls = 0;
          faults = 0;
        }) }
    {
        Ok(MemorySink {
            taken: Vec::with_capacity(alloc, room)?,
            room,
            step,
            failing,
            calls: 0,
            faults: 0,
        })
    }

    /// The bytes taken so far.
    pub fn taken(&self) -> &[u8]
        ensures { result.now ≡ self.now.taken }
    {
        &self.taken
    }
}

impl Sink for MemorySink {
    ghost use Rattle.vera_io.specs.MemorySink.{can_take, share_of, after_call};

    ghost bytes_taken = { λ sink. Some sink.taken };

    ghost faults = { λ sink. capped sink.faults };

    ghost counts_fit = { λ sink. capped-fits _ };

    /// Takes at most `step` bytes of the piece. It fails exactly where the call's number is among the failing
    /// ones, where the bytes would pass the room, and where `step` is 0 and the piece isn't empty.
    fn write(&mut self, piece: &[u8]) -> Result<usize, SinkFailed>
        ensures ok { is_ok result ≡ can_take self.old piece.now }
        ensures count { IfOk result (λ n. n ≡ share_of self.old piece.now) }
        ensures after { self.new ≡ after_call self.old piece.now }
    {
        self.calls = self.calls.saturating_add(1);
        let share = self.step.min(piece.len());
        let is_due = self.failing.contains(&self.calls);
        if is_due || share > self.room - self.taken.len() || self.step == 0 && !piece.is_empty() {
            self.faults = self.faults.saturating_add(1);
            return Err(SinkFailed);
        }
        self.taken.extend_from_slice(&piece[..share]).unwrap();
        Ok(share)
    }
}
