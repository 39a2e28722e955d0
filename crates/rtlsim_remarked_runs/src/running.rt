//! Runs in which integers are looked at.

ghost use Rattle.std.specs.Prelude.{◌≡◌, map};
ghost use Rattle.rtlsim_remarked_runs.specs.Remarking.{Remarking, WithRemark};
ghost use Rattle.vhdl_source_files.specs.Files as sources;
ghost use Rattle.vhdl_source_files.specs.Files.{file_view};

use crate::answering::Remarked;
use byte_streams::{Sink, Watch};
use rtl_lost_integers::{Integers, LostInteger, lost_text};
use rtlsim_command_faults::{Fault, Telling};
use rtlsim_commands::{Both, Command, Site};
use vhdl_source_files::SourceFile;

/// A run that ends with a remark on the first integer that is lost in it, where explanations are
/// asked for. It takes memory for the digits of the netlist's integers, and for the remark.
///
/// # Errors
///
/// As the run.
#[derive(Drop)]
pub struct RemarkedRun<'a, R: Command + Drop> {
    pub run: R,
    pub telling: &'a Telling<'a>,
}

impl<R: Command + Drop> Command for RemarkedRun<'_, R> {
    type Answer = Remarked<R::Answer>;

    ghost does = { λ command. Remarking (R.sight command.run) (R.does command.run) command.telling.now };

    ghost sight = { λ command. R.sight command.run };

    fn on_net<V: Watch, S: Sink>(
        &mut self,
        site: Site<'_>,
        watch: &mut V,
        out: &mut S,
    ) -> Result<Remarked<R::Answer>, Fault> {
        let integers = Integers::of(site.alloc, site.net, self.telling.explains)?;
        let mut both = Both {
            watch: integers,
            other: watch,
        };
        let answer = self.run.on_net(site, &mut both, out);
        let Both {
            watch: integers,
            other: _watch,
        } = both;
        with_remark(site, self.telling, answer, integers.lost())
    }
}

/// The answer of a run, with the remark on the integer that was lost first.
fn with_remark<A: Drop>(
    site: Site<'_>,
    telling: &Telling<'_>,
    answer: Result<A, Fault>,
    lost: Option<LostInteger>,
) -> Result<Remarked<A>, Fault>
    ensures { WithRemark telling.now site.entry.net.now lost answer result }
{
    match answer {
        Ok(answer) => {
            let file = source_name(telling.files);
            let remark = lost_text(site.alloc, file, site.net, lost).ok();
            Ok(Remarked { answer, remark })
        }
        Err(fault) => Err(fault),
    }
}

/// The name by which the source as a whole is told: that of its last file.
fn source_name<'a>(files: &[SourceFile<'a>]) -> &'a [u8]
    ensures { result.now ≡ sources.source_name (map file_view files.now) }
{
    let mut name: &[u8] = &[];
    for file in files {
        name = file.name;
    }
    name
}
