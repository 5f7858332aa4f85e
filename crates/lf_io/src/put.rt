ghost use Rattle.std.specs.Prelude.{◌≤◌, OnOk, OnErr};
ghost use Rattle.lf_io.specs.Count.{Rose};
ghost use Rattle.lf_io.specs.Taken.{Takes, TakesPrefix};

use crate::failed::Failed;
use crate::sink::Sink;

/// Writes the whole piece, and takes no memory. After a fault the sink has taken a part of it.
pub fn put_all<K: Sink>(out: &mut K, piece: &[u8]) -> Result<(), Failed>
    ensures whole { OnOk result (Takes (K.taken out.old) (K.taken out.new) piece.now) }
    ensures part { OnErr result (TakesPrefix (K.taken out.old) (K.taken out.new) piece.now) }
    ensures cause { OnErr result (Rose (K.faults out.old) (K.faults out.new)) }
    ensures never_falls { K.faults out.old ≤ K.faults out.new }
{
    let mut at = 0;
    while at < piece.len() {
        at += out.write(&piece[at..])?;
    }
    Ok(())
}
