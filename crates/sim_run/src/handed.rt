ghost use Rattle.std.specs.Prelude.{◌≡◌, IfOk};
ghost use Rattle.mig_base.specs.Boards.{is_handed as handed_by};
ghost use Rattle.sim_run.specs.ScriptText.{port_on, ports_of};

use crate::keeping::keep;
use mig_base::{Name, Net, NetLine, NoMemory, Port};
use std::alloc::Global;

/// An Input or Both port: its name, its direction, and the number of its net.
#[derive(Clone, Copy)]
pub(crate) struct HandedPort {
    pub name: Name,
    pub port: Port,
    pub net: u32,
}

/// The Input and Both ports of a wiring, in board order. A net whose number is no `u32` counts as want of memory.
pub(crate) fn handed_ports(alloc: Global, net: &Net) -> Result<Vec<HandedPort>, NoMemory>
    ensures { IfOk result (λ ports. ports.items ≡ ports_of net.now) }
{
    let mut ports = Vec::new(alloc);
    let nets = net.nets.items();
    for (k, line) in nets.iter().enumerate() {
        let Ok(number) = u32::try_from(k + 2) else {
            return Err(NoMemory);
        };
        keep(&mut ports, handed_port(number, line))?;
    }
    Ok(ports)
}

/// The port of the net of this number.
fn handed_port(net: u32, line: &NetLine) -> Option<HandedPort>
    ensures { result ≡ port_on net line.now }
{
    is_handed(line.port).then_some(HandedPort {
        name: line.name,
        port: line.port,
        net,
    })
}

/// Whether a port of this direction is handed a level.
pub(crate) fn is_handed(port: Port) -> bool
    ensures { result ≡ handed_by port }
{
    match port {
        Port::Input | Port::Both => true,
        Port::Inner | Port::Output => false,
    }
}
