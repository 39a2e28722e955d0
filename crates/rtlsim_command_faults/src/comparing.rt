//! Explanations of what differs from what is expected, and of names that no signal has.

ghost use Rattle.std.specs.Prelude.{◌≡◌, ◌++◌, codes, decimal};
ghost use Rattle.byte_streams.specs.Written.{Goes};
ghost use Rattle.fault_rules.specs.Rules.{words_of};
ghost use Rattle.fault_rules.specs.declared.expecting.ExpectRule.TheVariants.{NotASignal};
ghost use Rattle.fault_rules.specs.declared.report.Rule.TheVariants as rule;
ghost use Rattle.fault_rules.specs.declared.settling.RunRule.TheVariants.{NotTraced};
ghost use Rattle.rtlsim_command_faults.specs.Explanations as spec;
ghost use Rattle.rtlsim_command_faults.specs.Lines.{rule_words};
ghost use Rattle.rtlsim_listing.specs.Printing.{Prints};

use crate::lines::push_rule_words;
use crate::telling::{Site, Telling};
use byte_streams::{Sink, push_number, push_text};
use fault_rules::{ExpectRule, Rule, RunRule};
use rtl_expect::{FirstDifferences, push_differences, word_in};
use rtl_net::NoMemory;
use rtlsim_nearest::{nearest, push_nearest};
use vhdl_literals::SourceLiterals;

/// Writes a line for each difference that is told, and how many more there are.
pub(crate) fn explain_differences<S: Sink>(
    site: &Site<'_>,
    differences: &FirstDifferences,
    sink: &mut S,
)
    ensures { Goes (S.state sink.old) (S.state sink.new)
        (spec.differing_said site.now.telling.now site.now.net.now differences.now) }
{
    let telling = site.telling;
    let literals = SourceLiterals {
        source: telling.source,
    };
    push_differences(&literals, telling.expected, site.net, differences, sink);
}

/// Explains that no signal has the name in a line of what is expected. It takes the memory of the
/// text's lines and of the line's words.
pub(crate) fn explain_unnamed<S: Sink>(
    site: &Site<'_>,
    line: usize,
    sink: &mut S,
) -> Result<(), NoMemory>
    ensures { let telling = site.now.telling.now in Prints result (S.state sink.old) (S.state sink.new)
        (spec.name_said telling.expected.now (rule.Expect NotASignal) line site.now.net.now
        (spec.expected_name telling line)) }
{
    let telling = site.telling;
    let text = telling.expected_text.unwrap_or(&[]);
    let name = word_in(site.alloc, text, line, 2)?;
    let rule = Rule::Expect(ExpectRule::NotASignal);
    explain_name(site, telling.expected, rule, line, name, sink)
}

/// Explains that a name of a trace chooses nothing.
pub(crate) fn explain_untraced<S: Sink>(
    site: &Site<'_>,
    place: usize,
    sink: &mut S,
) -> Result<(), NoMemory>
    ensures { let telling = site.now.telling.now in Prints result (S.state sink.old) (S.state sink.new)
        (spec.name_said (codes "--trace") (rule.Run NotTraced) place site.now.net.now
        (spec.traced_name telling place)) }
{
    let name = traced_name(site.telling, place);
    let rule = Rule::Run(RunRule::NotTraced);
    explain_name(site, b"--trace", rule, place, name, sink)
}

/// The name at a place, from 1, of those that a trace is to show; nothing where there is none.
fn traced_name<'a>(telling: &Telling<'a>, place: usize) -> &'a [u8]
    ensures { result.now ≡ spec.traced_name telling.now place }
{
    let place = place.saturating_sub(1);
    if place < telling.trace.len() {
        return telling.trace[place];
    }
    &[]
}

/// Explains that no signal has a name, and writes the nearest that one has. It takes the memory of
/// two names.
fn explain_name<S: Sink>(
    site: &Site<'_>,
    file: &[u8],
    rule: Rule,
    line: usize,
    name: &[u8],
    sink: &mut S,
) -> Result<(), NoMemory>
    ensures { Prints result (S.state sink.old) (S.state sink.new)
        (spec.name_said file.now rule line site.now.net.now name.now) }
{
    let nearest = nearest(site.alloc, site.net, name)?;
    push_unnamed(file, rule, line, name, sink);
    push_nearest(&nearest, sink);
    Ok(())
}

/// Writes which rule a name breaks, and the name.
fn push_unnamed<S: Sink>(file: &[u8], rule: Rule, line: usize, name: &[u8], sink: &mut S)
    ensures { Goes (S.state sink.old) (S.state sink.new)
        (file.now ++ codes ":" ++ decimal line ++ codes ": " ++ rule_words rule ++ codes ": "
        ++ (words_of rule).middle.now ++ codes ": " ++ name.now ++ codes "\n") }
{
    push_text(sink, file);
    push_text(sink, b":");
    push_number(sink, line as u64);
    push_text(sink, b": ");
    push_rule_words(rule, sink);
    push_text(sink, b": ");
    push_text(sink, rule.words().middle.as_bytes());
    push_text(sink, b": ");
    push_text(sink, name);
    push_text(sink, b"\n");
}
