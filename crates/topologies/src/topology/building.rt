ghost use Rattle.std.specs.Prelude.{◌≡◌, ◌<◌, ◌≤◌, true, replicate, is_ok, IfOk, if◌then◌else◌, OnOk};
ghost use Rattle.std.specs.Result.{result_err};
ghost use Rattle.refusals.specs.Tests.{unless};
ghost use Rattle.topologies.specs.declared.spot.PortUse.TheVariants.{Unused};
ghost use Rattle.topologies.specs.Ports.{within, index, use_of, is_unused, links_back};
ghost use Rattle.topologies.specs.Building.{switches_fault, port_fault, used_fault, edge_fault, link_fault, with_edge, with_link, edge_use, link_use, Uses};

use crate::fault::TopologyFault;
use crate::spot::{PortUse, Spot};
use crate::topology::Topology;
use patterns::port::Port;

// Each port is used once.
fn check_unused(at: Spot, port_use: PortUse) -> Result<(), TopologyFault>
    ensures refusal { result_err result ≡ unless (is_unused port_use) (TopologyFault.Used at) }
    ensures unused { OnOk result (is_unused port_use ≡ true) }
{
    match port_use {
        PortUse::Unused => Ok(()),
        _ => Err(TopologyFault::Used(at)),
    }
}

impl Topology {
    // Switches with no port in use.
    pub fn new(switches: u8) -> Result<Topology, TopologyFault>
        ensures refusal { result_err result ≡ switches_fault switches }
        ensures value { IfOk result (λ t. (t.switches ≡ switches) × (t.ports ≡ replicate 256 Unused)) }
    {
        if switches < 1 || switches > 16 {
            return Err(TopologyFault::Switches(switches));
        }
        Ok(Topology {
            switches,
            ports: [PortUse::Unused; 256],
        })
    }

    // Where the use of a port lies.
    fn place(&self, at: Spot) -> Result<usize, TopologyFault>
        ensures refusal { result_err result ≡ port_fault self.now.switches at }
        ensures inside { OnOk result (within self.now.switches at ≡ true) }
        ensures value { IfOk result (λ i. i ≡ index at) }
        ensures bound { IfOk result (λ i. i < 256) }
    {
        match Port::new(at.port) {
            Some(port) if at.switch < self.switches => {
                Ok(usize::from(at.switch) * 16 + usize::from(port.number() - 1))
            }
            _ => Err(TopologyFault::NoPort(at)),
        }
    }

    // Makes an unused port an edge port, with a host.
    pub fn edge(&mut self, at: Spot) -> Result<(), TopologyFault>
        ensures refusal { result_err result ≡ edge_fault self.old.switches self.old.ports at }
        ensures after { (self.new.switches ≡ self.old.switches) × (self.new.ports ≡ (if is_ok result then with_edge self.old.ports at else self.old.ports)) }
        ensures uses { OnOk result (Uses self.old.switches self.new.ports (edge_use self.old.ports at)) }
    {
        let i = self.place(at)?;
        check_unused(at, self.ports[i])?;
        self.ports[i] = PortUse::Edge;
        Ok(())
    }

    // Links two unused ports.
    pub fn link(&mut self, a: Spot, b: Spot) -> Result<(), TopologyFault>
        ensures refusal { result_err result ≡ link_fault self.old.switches self.old.ports a b }
        ensures after { (self.new.switches ≡ self.old.switches) × (self.new.ports ≡ (if is_ok result then with_link self.old.ports a b else self.old.ports)) }
        ensures uses { OnOk result (Uses self.old.switches self.new.ports (link_use self.old.ports a b)) }
    {
        let i = self.place(a)?;
        let j = self.place(b)?;
        check_unused(a, self.ports[i])?;
        check_unused(b, self.ports[j])?;
        if a == b {
            return Err(TopologyFault::Used(b));
        }
        self.ports[i] = PortUse::Linked(b);
        self.ports[j] = PortUse::Linked(a);
        Ok(())
    }

    // What a port is used for. A link's other end is a port of the topology, another one, and linked with this one.
    pub fn port_use(&self, at: Spot) -> Result<PortUse, TopologyFault>
        ensures refusal { result_err result ≡ port_fault self.now.switches at }
        ensures value { IfOk result (λ u. u ≡ use_of self.now.ports at) }
        ensures back { IfOk result (λ u. links_back self.now.switches self.now.ports at u ≡ true) }
    {
        let i = self.place(at)?;
        Ok(self.ports[i])
    }
}
