ghost use Rattle.std.specs.Prelude.{◌≡◌, ◌<◌, ◌≤◌, true, [], length, is_ok, MatchResult};
ghost use Rattle.std.specs.Option.{option_map};
ghost use Rattle.std.specs.List.{slice_get};
ghost use Rattle.rules.specs.declared.rule.Rule.{Rule};
ghost use Rattle.configurations.specs.Settings.{MakeBefore, ClearBefore, ClearOf, Stands, Sound, Refused};

use crate::configuration::Configuration;
use crate::configuration::made::Made;
use crate::fault::ConfigurationFault;
use rules::row::Row;
use rules::rule::Rule;

fn check(rows: &[Row]) -> Result<(), ConfigurationFault>
    ensures { MatchResult result (λ _. Sound rows.now) (Refused rows.now) }
{
    Made::new(rows)?.check_pairs()
}

impl<'a> Configuration<'a> {
    // The empty configuration.
    pub fn new() -> Configuration<'a>
        ensures { result.rows.now ≡ [] }
    {
        Configuration { rows: &[] }
    }

    // Borrows another list in place of the present one, or refuses and stays as it was.
    pub fn set(&mut self, rows: &'a [Row]) -> Result<(), ConfigurationFault>
        ensures answer { MatchResult result (λ _. Sound rows.now × (self.new.rows.now ≡ rows.now)) (λ e. Refused rows.now e × (self.new ≡ self.old)) }
        ensures granted { Sound rows.now → is_ok result ≡ true }
    {
        check(rows)?;
        self.rows = rows;
        Ok(())
    }

    // How many rules it has.
    pub fn len(&self) -> usize
        ensures value { result ≡ length self.now.rows.now }
        ensures bound { result ≤ 256 }
    {
        self.rows.len()
    }

    // The rows of its rules.
    pub fn rows(&self) -> &'a [Row]
        ensures { result.now ≡ self.now.rows.now }
    {
        let Configuration { rows } = *self;
        rows
    }

    // The rule at a place, counted from 0.
    pub fn rule(&self, place: usize) -> Option<Rule>
        ensures { option_map (λ (rule : Rule). rule.row) result ≡ slice_get self.now.rows.now place }
    {
        Rule::new(*self.rows.get(place)?).ok()
    }
}
