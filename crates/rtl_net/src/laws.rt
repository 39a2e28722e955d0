//! What holds of every netlist, over `specs/Laws.antt`.

ghost use Rattle.rtl_net.specs.Laws.{EachNetMeetsTheLaws};

use rtl_model::net_laws;

/// Each netlist has what the laws of rtl_model ask, so that these hold of it with no premise but
/// acceptance.
pub fn nets_meet_the_laws()
    ensures { EachNetMeetsTheLaws }
{
    net_laws::connected_is_elaborated();
    net_laws::bodies_keep_range();
    net_laws::sources_keep_range();
}
