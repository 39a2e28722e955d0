//! The nets' values in an update.

ghost use Rattle.std.specs.Prelude.{◌≡◌, ◌<◌, ℕ, All, length, Contains};
ghost use Rattle.rtl_model.specs.nets.FlatNetlist.{flat_sources};
ghost use Rattle.rtl_model.specs.nets.CoreNetlist.{core_netlist};
ghost use Rattle.rtl_model.specs.simulation.Netlist as core;
ghost use Rattle.rtl_net.specs.Nets.{flat};
ghost use Rattle.rtl_kernel.specs.drivers.Resolved.{AreResolved};
ghost use Rattle.rtl_kernel.specs.drivers.Rows.{rows, IsSourceThere};
ghost use Rattle.rtl_kernel.specs.values.TwoValues.{group_of};

use crate::resolution::resolution;
use crate::values::Values;
use rtl_net::Net;

/// Gives the nets of these groups the resolution of their sources (IEEE 1076-2008, 14.7.3.2). Those
/// without a source keep their values.
pub fn resolve_groups(groups: &[usize], net: &Net, drivers: &[Vec<u8>], values: &mut Values)
    requires groups { All (λ g. g < length values.old.groups.listed) groups.now }
    requires as_many { length values.old.current ≡ length net.now.types }
    requires there { (n : ℕ) (source : core.Source) → Contains (flat_sources (flat net.now) n) source
        → IsSourceThere (rows drivers.now) source }
    ensures groups { values.new.groups ≡ values.old.groups }
    ensures before { values.new.before ≡ values.old.before }
    ensures current { AreResolved (core_netlist (flat net.now)) (rows drivers.now)
        (λ n. Contains groups.now (group_of values.old n))
        values.old.current values.new.current }
{
    for group in groups {
        resolve_group(*group, net, drivers, values);
    }
}

/// Gives the nets of a group the resolution of their sources.
fn resolve_group(group: usize, net: &Net, drivers: &[Vec<u8>], values: &mut Values)
    requires group { group < length values.old.groups.listed }
    requires as_many { length values.old.current ≡ length net.now.types }
    requires there { (n : ℕ) (source : core.Source) → Contains (flat_sources (flat net.now) n) source
        → IsSourceThere (rows drivers.now) source }
    ensures groups { values.new.groups ≡ values.old.groups }
    ensures before { values.new.before ≡ values.old.before }
    ensures current { AreResolved (core_netlist (flat net.now)) (rows drivers.now) (λ n. group_of values.old n ≡ group)
        values.old.current values.new.current }
{
    let first = values.groups().first(group);
    let end = values.groups().end(group);
    for each in first..end {
        let sources = net.sources(each);
        if !sources.is_empty() {
            values.set(each, resolution(sources, drivers));
        }
    }
}
