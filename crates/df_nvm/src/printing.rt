//! What is printed.

ghost use Rattle.std.specs.Prelude.{◌≡◌, ◌≢◌, [], false, IsTrue, OnOk, Err};
ghost use Rattle.df_base.specs.Outside.{Appends, AppendsPrefix, HasCause};
ghost use Rattle.df_nmach.specs.View.{value_of};
ghost use Rattle.df_nmach.specs.Value as machine;
ghost use Rattle.df_nvm.specs.Quiet.{is_some};
ghost use Rattle.df_nvm.specs.mirror.Quiet.{prints};
ghost use Rattle.df_nvm.specs.mirror.Turns.{Prints};

use crate::halt::Halt;
use df_base::{Sink, SinkFault};
use df_nmach::{Shape, Value};
use itoa::Buffer;

/// Puts a text, if it is not empty.
fn put<S: Sink>(sink: &mut S, text: &[u8]) -> Result<(), SinkFault>
    ensures took { OnOk result (Appends (S.taken sink.old) (S.taken sink.new) text.now) }
    ensures cut { result ≡ Err SinkFault.Failed → AppendsPrefix (S.taken sink.old) (S.taken sink.new) text.now }
    ensures some { result ≡ Err SinkFault.Failed → text.now ≢ [] }
    ensures quiet { is_some text.now ≡ false → sink.new ≡ sink.old }
    ensures memory { result ≡ Err SinkFault.Memory → S.taken sink.new ≡ S.taken sink.old }
    ensures from_memory { result ≡ Err SinkFault.Memory → IsTrue (S.takes_memory sink.old) }
    ensures cause { HasCause (S.fault_count sink.old) (S.fault_count sink.new) (result ≡ Err SinkFault.Failed) }
    ensures stays { S.takes_memory sink.new ≡ S.takes_memory sink.old }
{
    if text.is_empty() {
        return Ok(());
    }
    sink.put(text)
}

/// Puts the text of a value by a shape, of whose kind it has to be.
pub(crate) fn print<S: Sink>(shape: Shape, value: &Value, sink: &mut S) -> Result<(), Halt>
    ensures prints { Prints result (S.taken sink.old) (S.taken sink.new) (machine.text_of shape (value_of value.now)) }
    ensures quiet { prints (machine.text_of shape (value_of value.now)) ≡ false → sink.new ≡ sink.old }
    // Only the sink takes memory.
    ensures from_memory { result ≡ Err Halt.Memory → IsTrue (S.takes_memory sink.old) }
    ensures cause { HasCause (S.fault_count sink.old) (S.fault_count sink.new) (result ≡ Err Halt.Write) }
    ensures stays { S.takes_memory sink.new ≡ S.takes_memory sink.old }
{
    match (shape, value) {
        (Shape::Number, Value::Number(number)) => {
            put(sink, Buffer::new().format(*number).as_bytes())?;
        }
        (Shape::Truth, Value::Truth(true)) => put(sink, b"true")?,
        (Shape::Truth, Value::Truth(false)) => put(sink, b"false")?,
        (Shape::Char, Value::Char(character)) => put(sink, &[*character])?,
        (Shape::Text, Value::Text(text)) => put(sink, text.as_slice())?,
        _ => return Err(Halt::Broken),
    }
    Ok(())
}
