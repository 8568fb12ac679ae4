ghost use Rattle.std.specs.Prelude.{◌≡◌, ◌+◌, ◌≤◌, length, OnOk, OnErr, IsOk};
ghost use Rattle.std.specs.Io.KnownBytes.{Appends};
ghost use Rattle.edge_io.specs.Counts.{HasRisen};
ghost use Rattle.edge_io.specs.Writes.{AppendsPart};

use crate::failed::Failed;
use crate::sink::Sink;

/// Writes all of `bytes`, in as few writes as the sink allows.
///
/// [`Failed`] comes only where the sink's count of faults rose, and never where the sink is sure to have room for
/// `bytes`. The sink has then taken a front of `bytes`, but not all. Where all were written, the count is as it was.
pub fn write_whole<K: Sink>(sink: &mut K, bytes: &[u8]) -> Result<(), Failed>
    ensures ok { OnOk result (Appends (K.taken sink.old) (K.taken sink.new) bytes.now) }
    ensures err { OnErr result (AppendsPart (K.taken sink.old) (K.taken sink.new) bytes.now) }
    ensures empty { length bytes.now ≡ 0 → IsOk result × (sink.new ≡ sink.old) }

    ensures later { K.faults sink.old ≤ K.faults sink.new }
    ensures fault { OnErr result (HasRisen (K.faults sink.old) (K.faults sink.new)) }
    ensures uncounted { OnOk result (K.faults sink.new ≡ K.faults sink.old) }
    ensures sure { length bytes.now ≤ K.room sink.old → IsOk result }
    ensures room { OnOk result (K.room sink.old ≤ K.room sink.new + length bytes.now) }
{
    let mut rest = bytes;
    while !rest.is_empty() {
        let count = sink.write(rest)?;
        rest = &rest[count..];
    }
    Ok(())
}
