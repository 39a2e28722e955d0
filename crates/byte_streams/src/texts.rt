//! Whole texts, numbers and lines written to a sink.

ghost use Rattle.std.specs.Prelude.{◌≡◌, ◌++◌, codes, decimal, OnOk, OnErr};
ghost use Rattle.byte_streams.specs.Written.{Goes, IsIntact, HasFailed};

use crate::sink::{Sink, WriteFailed};
use itoa::Buffer;

/// Writes the text to a sink that has not failed, and nothing to one that has.
pub fn push_text<S: Sink>(sink: &mut S, text: &[u8])
    ensures { Goes (S.state sink.old) (S.state sink.new) text.now }
{
    if sink.failed() {
        return;
    }
    let mut done = 0;
    while done < text.len() {
        let count = sink.put(&text[done..]);
        if count == 0 {
            return;
        }
        done += count;
    }
}

/// Writes the number in decimal digits, with no leading zero.
pub fn push_number<S: Sink>(sink: &mut S, number: u64)
    ensures { Goes (S.state sink.old) (S.state sink.new) (decimal number) }
{
    let mut buffer = Buffer::new();
    push_text(sink, buffer.format(number).as_bytes());
}

/// Writes the text and a line feed.
pub fn push_line<S: Sink>(sink: &mut S, text: &[u8])
    ensures { Goes (S.state sink.old) (S.state sink.new) (text.now ++ codes "\n") }
{
    push_text(sink, text);
    push_text(sink, b"\n");
}

/// The answer of a call that wrote by the functions above: an error where the sink has failed.
pub fn finish<S: Sink>(sink: &S) -> Result<(), WriteFailed>
    ensures ok { OnOk result (IsIntact (S.state sink.now)) }
    ensures err { OnErr result (HasFailed (S.state sink.now)) }
{
    if sink.failed() {
        return Err(WriteFailed);
    }
    Ok(())
}
