//! Writing a whole text to a sink that may take it piece by piece.

ghost use Rattle.std.specs.{Prelude.{◌≡◌, true, OnOk, OnErr}, Io.KnownBytes.Appends};
ghost use Rattle.event_log.specs.Stream.{counted};
ghost use Rattle.record_lines.specs.Output.{AppendsBeginning};

use event_log::Sink;

/// A write failed, or took none of some bytes.
#[derive(Clone, Copy, Debug, PartialEq, Eq, Drop)]
pub struct WriteFailed;

/// Writes the whole text, in as many calls as the sink wants, and takes no memory.
pub fn write_text<W: Sink>(text: &[u8], out: &mut W) -> Result<(), WriteFailed>
    ensures ok { OnOk result (Appends (W.contents out.old) (W.contents out.new) text.now) }
    ensures none_failed { OnOk result (W.failed out.new ≡ W.failed out.old) }
    ensures err { OnErr result (AppendsBeginning (W.contents out.old) (W.contents out.new) text.now) }
    ensures one_failed { OnErr result (W.failed out.new ≡ counted true (W.failed out.old)) }
{
    let mut rest = text;
    while !rest.is_empty() {
        let Ok(count) = out.write(rest) else {
            return Err(WriteFailed);
        };
        if count == 0 {
            return Err(WriteFailed);
        }
        rest = &rest[count..];
    }
    Ok(())
}
