ghost use Rattle.std.specs.Prelude.{◌≡◌, ◌≤◌, OnOk, OnErr};
ghost use Rattle.vera_io.specs.Faults.{Rose};
ghost use Rattle.vera_io.specs.Sink.{taken_more, TookPart};

use crate::{Sink, SinkFailed};

/// Writes all the bytes to the sink, in as many pieces as it takes. Where the sink fails, it has taken some
/// of them from the front, but not all. No memory is taken.
pub fn write_all<K: Sink>(sink: &mut K, bytes: &[u8]) -> Result<(), SinkFailed>
    ensures written { OnOk result
        (K.bytes_taken sink.new ≡ taken_more (K.bytes_taken sink.old) bytes.now) }
    ensures part { OnErr result
        (TookPart (K.bytes_taken sink.old) (K.bytes_taken sink.new) bytes.now) }
    ensures failed { OnErr result (Rose (K.faults sink.old) (K.faults sink.new)) }
    ensures counts { K.faults sink.old ≤ K.faults sink.new }
{
    let mut rest = bytes;
    while !rest.is_empty() {
        let taken = sink.write(rest)?;
        rest = &rest[taken..];
    }
    Ok(())
}
