//! Whole texts out.
ghost use Rattle.std.specs.Prelude.{◌<◌, OnErr, OnOk, IsErr, length};
ghost use Rattle.wz_base.specs.Outside.{RisesOnly};
ghost use Rattle.wz_base.specs.Whole.{Appends, AppendsFront};

use crate::outside::Sink;

/// Why a text was not written whole.
#[derive(Clone, Copy, Debug, PartialEq, Eq)]
pub enum WriteError {
    /// A call of the sink failed, and its count of faults rose.
    WriteFault,
}

/// Writes all the bytes, in order. It makes no call for an empty text.
///
/// # Errors
/// `WriteFault` only where the sink's count of faults rose. A prefix of the bytes was then written.
pub fn write_all<K: Sink>(sink: &mut K, bytes: &[u8]) -> Result<(), WriteError>
    ensures ok { OnOk result (Appends (K.written sink.old) bytes.now (K.written sink.new)) }
    ensures err { OnErr result (AppendsFront (K.written sink.old) bytes.now (K.written sink.new)) }
    ensures some { OnErr result (0 < length bytes.now) }
    ensures faults { RisesOnly (IsErr result) (K.faults sink.old) (K.faults sink.new) }
{
    let mut done = 0;
    while done < bytes.len() {
        match sink.write(&bytes[done..]) {
            Ok(count) => done += count,
            Err(_) => return Err(WriteError::WriteFault),
        }
    }
    Ok(())
}
