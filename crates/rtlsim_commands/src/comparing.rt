//! Runs that are compared with what is expected of them.

ghost use Rattle.std.specs.Prelude.{◌≡◌, option_map};
ghost use Rattle.rtlsim_commands.specs.Expected as spec;
ghost use Rattle.rtlsim_commands.specs.Expected.{Comparing};
ghost use Rattle.vhdl_slips.specs.Words.{read_of};

use crate::both::Both;
use crate::command::{Command, Run, Site};
use byte_streams::{Sink, Watch};
use rtl_expect::{Expectations, FirstDifferences};
use rtlsim_command_faults::Fault;
use vhdl_literals::SourceLiterals;
use vhdl_slips::Lexed;

/// A run that is compared with what the lines of `expected` say, if these are given. Literals are
/// those of the source, by its tokens. It takes memory for each line.
///
/// # Errors
///
/// - `Expect`: the first bad line of `expected`, before anything is simulated.
/// - `Differs`: the first values that aren't the expected ones, once the whole trace was written.
/// - Else as the run.
#[derive(Drop)]
pub struct Compared<'a, R: Run + Drop> {
    pub run: R,
    pub source: Lexed<'a>,
    pub expected: Option<&'a [u8]>,
}

impl<R: Run + Drop> Command for Compared<'_, R> {
    type Answer = R::Answer;

    ghost does = { λ command. Comparing (R.sight command.run) (R.does command.run) (read_of command.source)
        (option_map (λ text. text.now) command.expected) };

    ghost sight = { λ command. R.sight command.run };

    fn on_net<V: Watch, S: Sink>(
        &mut self,
        site: Site<'_>,
        watch: &mut V,
        out: &mut S,
    ) -> Result<R::Answer, Fault> {
        let Some(expected) = self.expected else {
            return self.run.on_net(site, watch, out);
        };
        let literals = SourceLiterals {
            source: self.source,
        };
        let expected = Expectations::read(site.alloc, site.net, &literals, expected)?;
        let mut both = Both {
            watch: expected,
            other: watch,
        };
        let answer = self.run.on_net(site, &mut both, out);
        let Both {
            watch: expected,
            other: _watch,
        } = both;
        unless_differs(answer, expected.differences())
    }
}

/// The answer of a run, unless a value isn't the expected one.
fn unless_differs<A: Drop>(
    answer: Result<A, Fault>,
    differences: Option<FirstDifferences>,
) -> Result<A, Fault>
    ensures { result ≡ spec.unless_differs answer differences }
{
    let Some(differences) = differences else {
        return answer;
    };
    match answer {
        Ok(_answer) => Err(Fault::Differs(differences)),
        Err(fault) => Err(fault),
    }
}
