//! Writing all of a piece.

ghost use Rattle.std.specs.Prelude.{◌≡◌, ◌≢◌, ℕ, ◌≤◌, List, Err, length, take, IsOk, OnOk, OnErr};
ghost use Rattle.std.specs.Io.KnownBytes.{Appends};
ghost use Rattle.df_base.specs.Outside.{AppendsKnownPrefix};
ghost use Rattle.df_base.specs.declared.sink.SinkFault.TheVariants.{Memory};

use super::SinkFault;
use std::io::Write;

/// Writes all of these bytes.
///
/// `Failed`: a write failed, or took none of the bytes that were left. A prefix was written then.
pub(crate) fn write_all<W: Write>(writer: &mut W, bytes: &[u8]) -> Result<(), SinkFault>
    ensures all { OnOk result (Appends (W.contents writer.old) (W.contents writer.new) bytes.now) }
    ensures prefix { OnErr result (AppendsKnownPrefix (W.contents writer.old) (W.contents writer.new) bytes.now) }
    ensures empty { length bytes.now ≡ 0 → IsOk result }
    ensures kind { result ≢ Err Memory }
{
    let mut done = 0;
    while done < bytes.len() {
        match writer.write(&bytes[done..]) {
            Ok(0) => return Err(SinkFault::Failed),
            Ok(count) => done += count,
            Err(_) => return Err(SinkFault::Failed),
        }
    }
    Ok(())
}
