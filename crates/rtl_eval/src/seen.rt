//! What a run sees.

ghost use Rattle.std.specs.Prelude.{◌≡◌};
ghost use Rattle.rtl_eval.specs.Seeing.{seen_of};
ghost use Rattle.rtl_eval.specs.Running.{seen_by};

use rtl_drives::Drives;

/// The codes of all nets now and before the last update, and of the process's variable elements.
#[derive(Clone, Copy)]
pub struct SeenValues<'a> {
    pub current: &'a [u8],
    pub previous: &'a [u8],
    pub variables: &'a [u8],
}

/// The codes of all nets now and before the last update.
#[derive(Clone, Copy)]
pub struct Valuations<'a> {
    pub current: &'a [u8],
    pub previous: &'a [u8],
}

/// What a run sees that has come this far.
pub fn seeing<'a>(nets: Valuations<'a>, out: &'a Drives) -> SeenValues<'a>
    ensures { seen_of result ≡ seen_by nets.entry out.now }
{
    SeenValues {
        current: nets.current,
        previous: nets.previous,
        variables: out.variables(),
    }
}
