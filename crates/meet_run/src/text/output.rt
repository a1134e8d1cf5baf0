//! Writing a text whole.

ghost use Rattle.std.specs.Prelude.{◌≡◌, [], IsOk, OnOk, OnErr, IfErr};
ghost use Rattle.std.specs.Io.KnownBytes.{Appends};
ghost use Rattle.meet_run.specs.Texts.Writing.{AppendsPrefix, AppendsLess};

use meet_tickets::Refusal;
use std::io::Write;

/// Writes these bytes, by as many writes as it takes, and by none if there are none.
///
/// # Errors
/// - WriteFault, if a write fails or takes no byte: what was written until then stays written, and isn't all.
pub fn write_whole<W: Write>(writer: &mut W, bytes: &[u8]) -> Result<(), Refusal>
    ensures ok { OnOk result (Appends (W.contents writer.old) (W.contents writer.new) bytes.now) }
    ensures prefix { AppendsPrefix (W.contents writer.old) (W.contents writer.new) bytes.now }
    ensures less { OnErr result (AppendsLess (W.contents writer.old) (W.contents writer.new) bytes.now) }
    ensures fault { IfErr result (λ why. why ≡ Refusal.WriteFault) }
    ensures nothing { bytes.now ≡ [] → IsOk result }
{
    let mut written = 0;
    while written < bytes.len() {
        match writer.write(&bytes[written..]) {
            Ok(0) => return Err(Refusal::WriteFault),
            Ok(more) => written += more,
            Err(_) => return Err(Refusal::WriteFault),
        }
    }
    Ok(())
}
