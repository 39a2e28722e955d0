//! Commands that print what is known of a netlist without a run.

ghost use Rattle.std.specs.Prelude.{map};
ghost use Rattle.rtlsim_commands.specs.Listed.{AnswersVerdict, ListsNet, form_text};
ghost use Rattle.rtlsim_commands.specs.Machine.{EvaluatesMachine};
ghost use Rattle.rtlsim_commands.specs.Sights.{nothing};

use crate::command::{Command, Site};
use crate::listing::{Form, check_net, list_net};
use crate::running::answered;
use byte_streams::{Sink, Watch};
use rtl_run;
use rtlsim_command_faults::Fault;

/// `net`: the lines of a netlist.
#[derive(Drop)]
pub struct ListNet;

impl Command for ListNet {
    type Answer = ();

    ghost does = { λ command. ListsNet };

    ghost sight = { λ command. nothing };

    fn on_net<V: Watch, S: Sink>(
        &mut self,
        site: Site<'_>,
        _watch: &mut V,
        out: &mut S,
    ) -> Result<(), Fault> {
        list_net(site.net, out)
    }
}

/// `check`: the verdict in this form.
#[derive(Drop)]
pub struct CheckNet<'a, 'b> {
    pub form: Form<'a, 'b>,
}

impl Command for CheckNet<'_, '_> {
    type Answer = bool;

    ghost does = { λ command. AnswersVerdict (form_text command.form) };

    ghost sight = { λ command. nothing };

    fn on_net<V: Watch, S: Sink>(
        &mut self,
        site: Site<'_>,
        _watch: &mut V,
        out: &mut S,
    ) -> Result<bool, Fault> {
        check_net(site.alloc, &self.form, site.net, out)
    }
}

/// `eval`: the values of the out ports.
#[derive(Drop)]
pub struct EvalNet<'a, 'b> {
    pub sets: &'a [&'b [u8]],
}

impl Command for EvalNet<'_, '_> {
    type Answer = ();

    ghost does = { λ command. EvaluatesMachine (map (λ set. set.now) command.sets.now) };

    ghost sight = { λ command. nothing };

    fn on_net<V: Watch, S: Sink>(
        &mut self,
        site: Site<'_>,
        _watch: &mut V,
        out: &mut S,
    ) -> Result<(), Fault> {
        answered(rtl_run::eval(site.alloc, site.net, self.sets, out))
    }
}
