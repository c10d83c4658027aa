//! Writing a text to a sink.
ghost use Rattle.std.specs.Prelude.{OnOk};
ghost use Rattle.squawk_show.specs.Edge.{AppendsAll, AppendsPrefix, HasCause};

use crate::{Failed, Sink};

/// Writes a whole text, and allocates nothing. `Failed` comes only if the sink failed, and a prefix
/// of the text was written then.
pub fn write_whole<K: Sink>(sink: &mut K, text: &[u8]) -> Result<(), Failed>
    ensures ok { OnOk result (AppendsAll (K.view sink.old) (K.view sink.new) text.now) }
    ensures prefix { AppendsPrefix (K.view sink.old) (K.view sink.new) text.now }
    ensures cause { HasCause (K.view sink.old).faults (K.view sink.new).faults result }
{
    let mut done = 0;
    while done < text.len() {
        done += sink.write(&text[done..])?;
    }
    Ok(())
}
