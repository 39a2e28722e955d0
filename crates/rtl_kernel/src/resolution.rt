//! The values of nets from those of their sources.

ghost use Rattle.std.specs.Prelude.{◌≡◌, ◌<◌, ℕ, All, fold, length, map};
ghost use Rattle.vhdl_values.specs.Scalar.{code_of, value_of_code};
ghost use Rattle.vhdl_values.specs.Resolution.{resolution_table};
ghost use Rattle.vhdl_values.specs.declared.scalar.Nine.TheVariants as nine;
ghost use Rattle.rtl_model.specs.nets.CoreNetlist.{core_resolve};
ghost use Rattle.rtl_model.specs.simulation.Cycle as cycle;
ghost use Rattle.rtl_net.specs.Nets.{source_view};
ghost use Rattle.rtl_kernel.specs.drivers.Rows.{rows, IsSourceThere};

use rtl_eval::nine;
use rtl_net::Source;
use vhdl_values::{Nine, resolve};

/// The value that a source has.
fn source_value(source: &Source, drivers: &[Vec<u8>]) -> u8
    requires { IsSourceThere (rows drivers.now) (source_view source.now) }
    ensures { result ≡ cycle.source_value (rows drivers.now) (source_view source.now) }
{
    match source {
        Source::Driven { process, place } => drivers[*process][*place],
        Source::Idle { start } => *start,
    }
}

/// The value that these sources, of which there is one at least, give their net (IEEE 1076-2008,
/// 14.7.3.2).
pub fn resolution(sources: &[Source], drivers: &[Vec<u8>]) -> u8
    requires some { 0 < length sources.now }
    requires there { All (λ source. IsSourceThere (rows drivers.now) (source_view source)) sources.now }
    ensures { result ≡ core_resolve (map (λ source. cycle.source_value (rows drivers.now) (source_view source))
        sources.now) }
{
    if sources.len() == 1 {
        return source_value(&sources[0], drivers);
    }
    several(sources, drivers)
}

/// The resolution of several values.
fn several(sources: &[Source], drivers: &[Vec<u8>]) -> u8
    requires there { All (λ source. IsSourceThere (rows drivers.now) (source_view source)) sources.now }
    ensures { result ≡ code_of (fold resolution_table nine.Z
        (map value_of_code (map (λ source. cycle.source_value (rows drivers.now) (source_view source)) sources.now))) }
{
    let mut value = Nine::Z;
    for source in sources {
        value = resolve(&[value, nine(source_value(source, drivers))]);
    }
    value.code()
}
