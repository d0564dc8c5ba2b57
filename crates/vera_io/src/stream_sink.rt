ghost use Rattle.std.specs.Prelude.{◌≡◌, ◌<◌, ◌≤◌, length, take, None, if◌then◌else◌, is_ok, IfOk};
ghost use Rattle.std.specs.Io.KnownBytes.{Appends};
ghost use Rattle.vera_io.specs.Faults.{capped, capped-fits, raised};

use crate::{Sink, SinkFailed};
use std::io;
use std::io::Write;
use std::marker::Model;

/// Writes to a stream, as standard output. It tells nothing of what the stream has taken.
#[derive(Drop)]
pub struct StreamSink<W: Write> {
    stream: W,
    faults: u64,
}

impl<W: Write> Model for StreamSink<W> {
    ghost use Rattle.vera_io.specs.Stream.{StreamState};

    ghost Value = { StreamState W };

    ghost view = { λ s. record { stream = s.stream; faults = s.faults } };
}

impl<W: Write> StreamSink<W> {
    /// A sink that writes to this stream.
    pub fn new(stream: W) -> StreamSink<W>
        ensures { result ≡ record { stream = stream; faults = 0 } }
    {
        StreamSink { stream, faults: 0 }
    }

    /// Gives the stream back.
    pub fn into_stream(self) -> W
        ensures { result ≡ self.stream }
    {
        let StreamSink { stream, faults: _ } = self;
        stream
    }
}

impl<W: Write> Sink for StreamSink<W> {
    ghost bytes_taken = { λ sink. None };

    ghost faults = { λ sink. capped sink.faults };

    ghost counts_fit = { λ sink. capped-fits _ };

    /// Writes to the stream and flushes it, so that nothing that is counted is lost. It fails where the
    /// stream fails, or takes nothing of a piece that isn't empty.
    fn write(&mut self, piece: &[u8]) -> Result<usize, SinkFailed>
        ensures within { IfOk result (λ n. n ≤ length piece.now) }
        ensures some { IfOk result (λ n. 0 < length piece.now → 0 < n) }
        ensures written { IfOk result (λ n.
            Appends (W.contents self.old.stream) (W.contents self.new.stream) (take n piece.now)) }
        ensures faults { self.new.faults
            ≡ (if is_ok result then self.old.faults else raised self.old.faults) }
    {
        match write_through(&mut self.stream, piece) {
            Ok(count) if count > 0 || piece.is_empty() => Ok(count),
            _ => {
                self.faults = self.faults.saturating_add(1);
                Err(SinkFailed)
            }
        }
    }
}

fn write_through<W: Write>(stream: &mut W, piece: &[u8]) -> io::Result<usize>
    ensures within { IfOk result (λ n. n ≤ length piece.now) }
    ensures written { IfOk result (λ n.
        Appends (W.contents stream.old) (W.contents stream.new) (take n piece.now)) }
{
    let count = stream.write(piece)?;
    stream.flush()?;
    Ok(count)
}
