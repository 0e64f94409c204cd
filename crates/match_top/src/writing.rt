// Writes a whole text to a sink that may take any part of a piece.
ghost use Rattle.std.specs.Prelude.{OnOk, take};
ghost use Rattle.std.specs.Io.KnownBytes.{Appends};
ghost use Rattle.match_io.specs.Causes.{HasCause};
ghost use Rattle.match_top.specs.Writing.{AppendsPart};

use match_io::{Failed, Sink};

/// Writes the text to its end, or to the first fault of the sink. It takes no memory.
pub(crate) fn write_text<K: Sink>(sink: &mut K, text: &[u8]) -> Result<(), Failed>
    ensures whole { OnOk result (Appends (K.written sink.old) (K.written sink.new) text.now) }
    ensures part { AppendsPart (K.written sink.old) (K.written sink.new) text.now }
    ensures cause { HasCause (K.faults sink.old) (K.faults sink.new) result }
{
    let mut rest = text;
    while !rest.is_empty() {
        let count = sink.write(rest)?;
        rest = &rest[count..];
    }
    Ok(())
}
