ghost use Rattle.std.specs.Prelude.{◌≡◌, ◌-◌};
ghost use Rattle.plans.specs.Versions.{version_tag, other};

use rules::tag::Tag;

// The two versions whose tags take turns: while one is in force, the other is free for the next configuration.
#[derive(Clone, Copy, PartialEq, Eq)]
pub enum Version {
    First,
    Second,
}

impl Version {
    pub fn tag(self) -> Tag
        ensures { result.number ≡ version_tag self }
    {
        let number = match self {
            Version::First => 1,
            Version::Second => 2,
        };
        Tag::new(number).unwrap()
    }

    pub fn other(self) -> Version
        ensures value { result ≡ other self }
        ensures tag { version_tag result ≡ 3 - version_tag self }
    {
        match self {
            Version::First => Version::Second,
            Version::Second => Version::First,
        }
    }
}
