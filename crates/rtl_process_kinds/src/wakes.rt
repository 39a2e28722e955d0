//! What processes are sensitive to.

ghost use Rattle.std.specs.Prelude.{◌≡◌, ◌<◌, All, length};
ghost use Rattle.rtl_model.specs.simulation.Netlist as m;
ghost use Rattle.rtl_net.specs.Core.{core};

use rtl_net::Net;

/// The nets that a process is sensitive to.
pub fn wakes_of(net: &Net, process: usize) -> &[usize]
    requires { process < length net.now.processes }
    ensures value { result.now ≡ (m.process (core net.now) process).wakes }
    ensures there { All (λ n. n < length net.now.types) result.now }
{
    net.is_elaborated();
    let processes = net.processes();
    processes[process].wakes.as_slice()
}
