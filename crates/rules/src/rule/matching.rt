ghost use Rattle.std.specs.Prelude.{◌≡◌, ◌-◌, false, is_some, MatchBool};
ghost use Rattle.rules.specs.Limits.{in_port_fault, length_fault, bits_fault};
ghost use Rattle.rules.specs.Admits.{admits, Meeting, Clash};
ghost use Rattle.rules.specs.Written.{port_numbers, block_of, numbers_of};

use crate::header::Header;
use crate::row::Block;
use crate::rule::Rule;
use patterns::pair::Pair;
use patterns::pattern::{Pattern, overlap};
use patterns::port::Port;
use patterns::prefix::Prefix;

// In-port, source, destination, protocol and destination port.
pub type RulePattern = Pair<
    Option<Port>,
    Pair<Prefix, Pair<Prefix, Pair<Option<u8>, Option<u16>>>>,
>;

fn port_pattern(in_port: Option<u8>) -> Option<Port>
    requires { is_some (in_port_fault in_port) ≡ false }
    ensures { port_numbers result ≡ in_port }
{
    in_port.and_then(Port::new)
}

fn prefix(block: Block) -> Prefix
    requires length { is_some (length_fault block) ≡ false }
    requires bits { is_some (bits_fault block) ≡ false }
    ensures { block_of result ≡ block }
{
    Prefix::new(block.address, block.length).unwrap()
}

// Whether some packet is admitted by both patterns.
fn meet_somewhere(a: RulePattern, b: RulePattern) -> bool
    ensures { MatchBool result (Meeting (numbers_of a) (numbers_of b)) (Meeting (numbers_of a) (numbers_of b) → ⊥) }
{
    overlap(&a, &b)
}

impl Rule {
    // The rule's pattern, whose numbers are those of its row.
    pub fn pattern(self) -> RulePattern
        ensures { numbers_of result ≡ self.row.pattern }
    {
        let p = self.row.pattern;
        let rest = Pair(prefix(p.destination), Pair(p.protocol, p.destination_port));
        Pair(port_pattern(p.in_port), Pair(prefix(p.source), rest))
    }

    // Whether the rule admits a packet with this header that came in at this port.
    pub fn admits(self, in_port: Port, header: Header) -> bool
        ensures { result ≡ admits self.row.pattern in_port.number header }
    {
        let transport = (header.protocol, header.destination_port);
        self.pattern().admits(&(in_port, (header.source, (header.destination, transport))))
    }

    // Whether some packet is admitted by both rules.
    pub fn meets(self, other: Rule) -> bool
        ensures { MatchBool result (Meeting self.row.pattern other.row.pattern) (Meeting self.row.pattern other.row.pattern → ⊥) }
    {
        meet_somewhere(self.pattern(), other.pattern())
    }

    // Whether the two rules may not stand in one configuration.
    pub fn clashes(self, other: Rule) -> bool
        ensures { MatchBool result (Clash self.row other.row) (Clash self.row other.row → ⊥) }
    {
        self.row.switch == other.row.switch
            && self.row.priority == other.row.priority
            && self.meets(other)
    }
}
