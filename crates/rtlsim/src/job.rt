//! What commands are given.

ghost use Rattle.std.specs.Prelude.{◌≡◌};
ghost use Rattle.rtlsim.specs.Served.{asked_in, choice_in};
ghost use Rattle.rtlsim_commands.specs.Tracing.{choice_view};
ghost use Rattle.vhdl_front_rules.specs.Asking.{asked_view};

use rtlsim_command_line::Request;
use rtlsim_commands::{Asked, Choice, Telling};
use vhdl_expand_rules::{Setting, Top};

/// A source, and what is done with it.
#[derive(Clone, Copy)]
pub(crate) struct Job<'a> {
    pub request: Request,
    pub source: &'a [u8],
    /// The name of the top, and what is set of its generics.
    pub top: &'a [u8],
    pub generics: &'a [Setting<'a>],
    pub telling: &'a Telling<'a>,
    /// The words that set inputs.
    pub sets: &'a [&'a [u8]],
    /// The text of the stimulus, which is empty where there is none.
    pub stimulus: &'a [u8],
    /// The names of what the trace of a run shows; none where it shows all.
    pub traced: &'a [&'a [u8]],
    /// Whether a run writes no trace.
    pub is_untraced: bool,
    /// The text of what is expected of a run, if that is given.
    pub expected: Option<&'a [u8]>,
}

impl<'a> Job<'a> {
    /// What the front is asked for.
    pub(crate) fn asked(&self) -> Asked<'a>
        ensures { asked_view result ≡ asked_in self.now }
    {
        let top = Top {
            name: self.top,
            generics: self.generics,
        };
        Asked {
            language: self.telling.language,
            source: self.source,
            top,
        }
    }

    /// What is asked of the trace of a run.
    pub(crate) fn choice(&self) -> Choice<'a>
        ensures { choice_view result ≡ choice_in self.now }
    {
        if self.is_untraced {
            return Choice::Nothing;
        }
        match self.traced {
            [] => Choice::Whole,
            names => Choice::Named(names),
        }
    }
}
