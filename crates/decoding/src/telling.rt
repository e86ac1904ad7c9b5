ghost use Rattle.std.specs.Prelude.{◌≡◌, ℕ, ◌-◌, ◌/◌, ◌%◌, ◌^◌, ◌<◌, ◌≤◌, Bool, true, false, IsTrue, is_some, IfSome, if◌then◌else◌, Some, nat_eq};
ghost use Rattle.patterns.specs.declared.port.Port.{Port};
ghost use Rattle.rules.specs.Limits.{out_port_fault, Makes};
ghost use Rattle.rules.specs.declared.row.Action.{Action};
ghost use Rattle.rules.specs.declared.row.Row.{Row};
ghost use Rattle.rules.specs.declared.rule.Rule.{Rule};
ghost use Rattle.rules.specs.declared.tag.Tag.{Tag};
ghost use Rattle.messages.specs.Marks.{goes_out};
ghost use Rattle.messages.specs.Sent.{sent, switch_of};
ghost use Rattle.messages.specs.declared.add.Add.{Add};
ghost use Rattle.messages.specs.declared.message.Message.{Message};
ghost use Rattle.openflow.specs.Fields.{add_actions, add_fields, stamp_fields, remove_fields, HasFields};

use crate::wildcards::{DESTINATION, DESTINATION_PORT, IN_PORT, PROTOCOL, SOURCE, Wildcards};
use messages::add::Add;
use messages::message::Message;
use openflow::action::Actions;
use openflow::flow_mod::FlowMod;
use patterns::port::Port;
use rules::row::{Action, Block, PatternRow, Row};
use rules::rule::Rule;
use rules::switch::Switch;
use rules::tag::Tag;

// A number pattern, from whether any number goes.
fn number<T: Drop>(any: bool, value: T) -> Option<T>
    ensures { result ≡ (if any then None else Some value) }
{
    (!any).then_some(value)
}

// A port is below 256; of any other number, some port.
fn low_byte(x: u16) -> u8
    ensures { result ≡ x % 256 }
{
    (x % 256) as u8
}

fn tag(number: u16) -> Option<Tag>
    ensures { (t : Tag) → t.number ≡ number → result ≡ Some t }
{
    Tag::new(number).ok()
}

fn port(number: u16) -> Option<Port>
    ensures { (p : Port) → p.number ≡ number → result ≡ Some p }
{
    Port::new(low_byte(number))
}

fn rule(row: Row) -> Option<Rule>
    ensures told { (q : Rule) → q.row ≡ row → result ≡ Some q }
    ensures value { IfSome result (λ q. q.row ≡ row) }
{
    Rule::new(row).ok()
}

// The action of the add whose actions these are; of others, some action.
fn action(list: Actions) -> Action
    ensures { (a : Action) (strip : Bool) → is_some (out_port_fault a) ≡ false → add_actions a strip ≡ list → result ≡ a }
{
    match list {
        Actions::Output(port) | Actions::StripOutput(port) => Action::Out(low_byte(port)),
        Actions::Empty | Actions::SetVlan(_) => Action::Drop,
    }
}

// The mark of the add whose actions these are.
fn strips(list: Actions) -> bool
    ensures { (a : Action) (strip : Bool) → (IsTrue strip → goes_out a ≡ true) → add_actions a strip ≡ list → result ≡ strip }
{
    matches!(list, Actions::StripOutput(_))
}

// The fields of a flow-mod, and the switch that it goes to.
#[derive(Clone, Copy)]
pub struct Addressed {
    pub fields: FlowMod,
    pub switch: Switch,
}

// That a message goes to its switch is a promise about each result: the switch is a field of the message's own.
impl Addressed {
    // The row of the add whose fields these are; of others, some row.
    fn row(self) -> Row
        ensures told { (rule : Row) (tag : ℕ) (strip : Bool) → Makes rule → rule.switch ≡ self.switch.number → add_fields tag rule strip ≡ self.fields → result ≡ rule }
        ensures to { result.switch ≡ self.switch.number }
    {
        let f = self.fields;
        let wildcards = Wildcards(f.wildcards);
        Row {
            switch: self.switch.number(),
            priority: f.priority,
            pattern: PatternRow {
                in_port: number(wildcards.is_open(IN_PORT), low_byte(f.in_port)),
                source: Block {
                    address: f.source,
                    length: wildcards.prefix_length(SOURCE),
                },
                destination: Block {
                    address: f.destination,
                    length: wildcards.prefix_length(DESTINATION),
                },
                protocol: number(wildcards.is_open(PROTOCOL), f.protocol),
                destination_port: number(wildcards.is_open(DESTINATION_PORT), f.destination_port),
            },
            action: action(f.actions),
        }
    }

    fn add(self) -> Option<Message>
        ensures told { (a : Add) → a.rule.row.switch ≡ self.switch.number → add_fields a.tag.number a.rule.row a.strip ≡ self.fields → result ≡ Some (Message.Add a) }
        ensures to { IfSome result (λ m. switch_of (sent m) ≡ self.switch.number) }
    {
        let tag = tag(self.fields.vlan)?;
        let rule = rule(self.row())?;
        Some(Message::Add(Add::new(tag, rule, strips(self.fields.actions))))
    }

    fn stamp(self) -> Option<Message>
        ensures told { (port : Port) (tag : Tag) → stamp_fields port.number tag.number ≡ self.fields → result ≡ Some (Message.Stamp self.switch port tag) }
        ensures to { IfSome result (λ m. switch_of (sent m) ≡ self.switch.number) }
    {
        let Actions::SetVlan(vlan) = self.fields.actions else {
            return None;
        };
        let port = port(self.fields.in_port)?;
        let tag = tag(vlan)?;
        Some(Message::Stamp {
            switch: self.switch,
            port,
            tag,
        })
    }

    fn remove(self) -> Option<Message>
        ensures told { (tag : Tag) → remove_fields tag.number ≡ self.fields → result ≡ Some (Message.Remove self.switch tag) }
        ensures to { IfSome result (λ m. switch_of (sent m) ≡ self.switch.number) }
    {
        let tag = tag(self.fields.vlan)?;
        Some(Message::Remove {
            switch: self.switch,
            tag,
        })
    }

    // The message whose fields these are. Fields of no message may give one too: its bytes will differ.
    pub fn message(self) -> Option<Message>
        ensures told { (m : Message) → switch_of (sent m) ≡ self.switch.number → HasFields (sent m) self.fields → result ≡ Some m }
        ensures to { IfSome result (λ m. switch_of (sent m) ≡ self.switch.number) }
    {
        // By the number on the wire, as the layout's table has it.
        match self.fields.command {
            3 => self.remove(),
            0 if self.fields.vlan == 0xffff => self.stamp(),
            0 => self.add(),
            _ => None,
        }
    }
}
