ghost use Rattle.std.specs.Prelude.{◌≡◌, ◌*◌, ◌/◌, ◌%◌, ◌<◌, ◌≤◌, Bool, true, length, take, IfSome};
ghost use Rattle.std.specs.List.{slice_get};
ghost use Rattle.topologies.specs.declared.spot.PortUse.{PortUse};
ghost use Rattle.topologies.specs.declared.spot.Spot.{Spot};
ghost use Rattle.topologies.specs.Ports.{within, spot_at, is_edge, is_first_end, AnswersAs, ports_that, edge_ports_of, links};

use crate::spot::{PortUse, Spot};
use crate::topology::Topology;

fn is_edge(_at: Spot, port_use: PortUse) -> bool
    ensures { result ≡ is_edge _at port_use }
{
    port_use == PortUse::Edge
}

// Each link is counted at the first of its two ends.
fn is_first_end(at: Spot, port_use: PortUse) -> bool
    ensures { result ≡ is_first_end at port_use }
{
    matches!(port_use, PortUse::Linked(other) if at < other)
}

// The port whose use lies at a place.
fn spot_at(place: usize) -> Spot
    requires { place < 256 }
    ensures { result ≡ spot_at place }
{
    Spot {
        switch: (place / 16) as u8,
        port: (place % 16 + 1) as u8,
    }
}

impl Topology {
    // What the ports are used for, by switch and port.
    fn uses(&self) -> &[PortUse]
        ensures { result.now ≡ take (self.now.switches * 16) self.now.ports }
    {
        &self.ports[..usize::from(self.switches) * 16]
    }

    // How many ports pass a test. A loop, since the compiler makes faster code of it than of a chain through `filter`.
    fn count<F: Fn(Spot, PortUse) -> bool>(&self, test: F) -> usize
        requires { F.IsAlwaysCallable test }
        ensures value { (passes : Spot → PortUse → Bool) → AnswersAs (F.post test) passes → result ≡ length (ports_that passes self.now.switches self.now.ports) }
        ensures bound { result ≤ 256 }
    {
        let mut count = 0;
        for (index, port_use) in self.uses().iter().enumerate() {
            if test(spot_at(index), *port_use) {
                count += 1;
            }
        }
        count
    }

    pub fn edge_count(&self) -> usize
        ensures value { result ≡ length (edge_ports_of self.now.switches self.now.ports) }
        ensures bound { result ≤ 256 }
    {
        self.count(is_edge)
    }

    pub fn link_count(&self) -> usize
        ensures { result ≡ length (links self.now.switches self.now.ports) }
    {
        self.count(is_first_end)
    }

    // The edge port at a place of their order by switch and port, counted from 0. A loop for the same reason, and one of its
    // own, since it stops at the place.
    pub fn edge_port(&self, place: usize) -> Option<Spot>
        ensures value { result ≡ slice_get (edge_ports_of self.now.switches self.now.ports) place }
        ensures inside { IfSome result (λ s. within self.now.switches s ≡ true) }
    {
        let mut left = place;
        for (index, port_use) in self.uses().iter().enumerate() {
            let at = spot_at(index);
            if is_edge(at, *port_use) {
                if left == 0 {
                    return Some(at);
                }
                left -= 1;
            }
        }
        None
    }
}
