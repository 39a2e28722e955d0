//! What a run answers, and the remark behind it.

ghost use Rattle.std.specs.Prelude.{◌++◌};
ghost use Rattle.rtlsim_commands.specs.Answered.{TellsText};
ghost use Rattle.rtlsim_remarked_runs.specs.Remarking.{told_text};

use byte_streams::{Sink, push_text};
use rtlsim_command_faults::{Status, push_memory};
use rtlsim_commands::Answer;

/// What a run answers, and the line of the remark behind it, if there is one; `None` where memory
/// for it was refused.
#[derive(Drop)]
pub struct Remarked<A: Drop> {
    pub answer: A,
    pub remark: Option<Vec<u8>>,
}

impl<A: Answer> Answer for Remarked<A> {
    ghost text = { λ told. A.text told.answer ++ told_text told.remark };

    ghost said = { λ told. A.said told.answer };

    fn tell<E: Sink>(&self, err: &mut E) -> Status {
        let said = self.answer.tell(err);
        push_remark(&self.remark, err);
        said
    }
}

/// Tells the line of a remark, if there is one, or that memory for it was refused.
fn push_remark<E: Sink>(remark: &Option<Vec<u8>>, err: &mut E)
    ensures { TellsText (told_text remark.now) (E.state err.old) (E.state err.new) }
{
    match remark {
        Some(text) => push_some(text, err),
        None => push_memory(err),
    }
}

/// Writes a text, if it isn't empty.
fn push_some<E: Sink>(text: &[u8], err: &mut E)
    ensures { TellsText text.now (E.state err.old) (E.state err.new) }
{
    if !text.is_empty() {
        push_text(err, text);
    }
}
