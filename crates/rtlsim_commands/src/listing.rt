//! The lines of a netlist, and of the checker's judgement of it.

ghost use Rattle.std.specs.Prelude.{◌≡◌, [], if◌then◌else◌, IfErr, OnOk};
ghost use Rattle.rtl_check.specs.Verdicts.{accepts};
ghost use Rattle.byte_streams.specs.Written.{HasFailed, IsIntact};
ghost use Rattle.rtlsim_commands.specs.Listed.{AnswersVerdict, ListsNet, form_text, path_and_remarks};
ghost use Rattle.rtlsim_command_faults.specs.Explanations.{faults_explained};
ghost use Rattle.rtlsim_command_faults.specs.declared.faults.Fault.TheVariants.{Output};
ghost use Rattle.rtlsim_listing.specs.Printing.{Prints};

use byte_streams::{Sink, push_text};
use rtl_check::{Judgement, judge};
use rtl_net::{Net, NoMemory};
use rtlsim_circles::path_text;
use rtlsim_command_faults::{Fault, Telling};
use rtlsim_findings_text::{explain_rejection, show_check_json, show_remarks};
use rtlsim_listing::{show_check, show_net};
use std::alloc::Global;

/// Writes the lines of a netlist. It takes memory for one name at a time.
///
/// # Errors
///
/// `Memory` and `Output`, where a beginning of the lines was written.
pub(crate) fn list_net<S: Sink>(net: &Net, out: &mut S) -> Result<(), Fault>
    requires intact { IsIntact (S.state out.old) }
    ensures { ListsNet net.now result (S.state out.old) (S.state out.new) }
{
    show_net(net, out)?;
    went_out(out)
}

/// Refuses a sink that took less than the whole.
fn went_out<S: Sink>(out: &S) -> Result<(), Fault>
    ensures whole { OnOk result (IsIntact (S.state out.now)) }
    ensures failed { IfErr result (λ fault. (fault ≡ Output) × HasFailed (S.state out.now)) }
{
    if out.failed() {
        return Err(Fault::Output);
    }
    Ok(())
}

/// In which form a judgement is written.
#[derive(Clone, Copy)]
pub enum Form<'a, 'b> {
    /// Its lines.
    Lines,
    /// The graph of the levels where it is yes, and else its lines.
    Graph,
    /// Its lines, and below them the explanation of its faults and the remarks on the netlist,
    /// where these are asked for.
    ToldLines(&'a Telling<'b>),
    /// The graph, or the lines and the explanation of its faults, where that is asked for.
    ToldGraph(&'a Telling<'b>),
    /// An object of JSON, in which places are told by the files.
    Object(&'a Telling<'b>),
}

/// Checks a netlist, writes the judgement in this form, and answers whether it is accepted. It
/// takes memory in proportion to the netlist.
///
/// # Errors
///
/// `Memory` and `Output`, where a beginning of the text was written.
pub(crate) fn check_net<S: Sink>(
    alloc: Global,
    form: &Form<'_, '_>,
    net: &Net,
    out: &mut S,
) -> Result<bool, Fault>
    requires intact { IsIntact (S.state out.old) }
    ensures { AnswersVerdict (form_text form.now) net.now result (S.state out.old) (S.state out.new) }
{
    let judgement = judge(alloc, net)?;
    show_judgement(alloc, form, net, &judgement, out)?;
    went_out(out)?;
    Ok(is_accepted(&judgement))
}

/// Writes a judgement in this form.
fn show_judgement<S: Sink>(
    alloc: Global,
    form: &Form<'_, '_>,
    net: &Net,
    judgement: &Judgement,
    out: &mut S,
) -> Result<(), NoMemory>
    ensures { Prints result (S.state out.old) (S.state out.new) (form_text form.now net.now judgement.now) }
{
    match form {
        Form::Lines => show_check(alloc, net, judgement, false, out),
        Form::Graph => show_check(alloc, net, judgement, true, out),
        Form::ToldLines(telling) => {
            show_check(alloc, net, judgement, false, out)?;
            show_explanation(alloc, telling, net, judgement, out)?;
            show_behind(alloc, telling, net, judgement, out)
        }
        Form::ToldGraph(telling) => {
            show_check(alloc, net, judgement, true, out)?;
            show_explanation(alloc, telling, net, judgement, out)
        }
        Form::Object(telling) => {
            show_check_json(alloc, telling.files, telling.source, net, judgement, out)
        }
    }
}

/// Writes the path to the greatest level and the remarks on a netlist, where explanations are asked
/// for.
fn show_behind<S: Sink>(
    alloc: Global,
    telling: &Telling<'_>,
    net: &Net,
    judgement: &Judgement,
    out: &mut S,
) -> Result<(), NoMemory>
    ensures { Prints result (S.state out.old) (S.state out.new)
        (if telling.now.explains then path_and_remarks telling.now net.now judgement.now else []) }
{
    if telling.explains {
        let path = path_text(alloc, net, judgement)?;
        push_text(out, &path);
        show_remarks(alloc, telling.files, net, out)
    } else {
        Ok(())
    }
}

/// Writes the explanation of a judgement's faults where that is asked for.
fn show_explanation<S: Sink>(
    alloc: Global,
    telling: &Telling<'_>,
    net: &Net,
    judgement: &Judgement,
    out: &mut S,
) -> Result<(), NoMemory>
    ensures { Prints result (S.state out.old) (S.state out.new)
        (if telling.now.explains then faults_explained telling.now net.now judgement.now else []) }
{
    match judgement {
        Judgement::Faulty(faults) if telling.explains => {
            explain_rejection(alloc, telling.files, telling.source, net, faults, out)
        }
        _ => Ok(()),
    }
}

/// Whether a netlist that is judged so is accepted.
fn is_accepted(judgement: &Judgement) -> bool
    ensures { result ≡ accepts judgement.now }
{
    !matches!(judgement, Judgement::Faulty(_))
}
