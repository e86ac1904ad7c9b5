ghost use Rattle.std.specs.Prelude.{◌≡◌};
ghost use Rattle.openflow.specs.Kinds.{action_number};

// The types of action on the wire.
#[derive(Clone, Copy, PartialEq, Eq)]
pub enum ActionType {
    Output,
    SetVlan,
    StripVlan,
}

impl From<ActionType> for u16 {
    ghost from_gives = { λ action number. number ≡ action_number action };

    fn from(action: ActionType) -> u16 {
        match action {
            ActionType::Output => 0,
            ActionType::SetVlan => 1,
            ActionType::StripVlan => 3,
        }
    }
}

// The lists of actions that messages have, with their numbers on the wire.
#[derive(Clone, Copy, PartialEq, Eq)]
pub enum Actions {
    // Drop what matches; a remove has none either.
    Empty,
    Output(u16),
    // Take the tag off, then send.
    StripOutput(u16),
    SetVlan(u16),
}
