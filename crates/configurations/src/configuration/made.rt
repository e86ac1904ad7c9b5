ghost use Rattle.std.specs.Prelude.{◌≡◌, ◌<◌, ◌≤◌, length, MatchOption, MatchResult};
ghost use Rattle.configurations.specs.Settings.{MakeBefore, ClashAt, ClearOf, Stands, Sound, Refused};

use crate::fault::ConfigurationFault;
use rules::row::Row;
use rules::rule::Rule;

// The most rules that a configuration has.
const MOST_RULES: usize = 256;

// Rows that all make a rule, and no more than a configuration may have.
#[derive(Clone, Copy)]
pub struct Made<'a> {
    rows: &'a [Row],
    ghost few: { length rows.now ≤ 256 },
    ghost made: { MakeBefore rows.now (length rows.now) },
}

// Each row makes a rule. A loop of its own, since the test and the refusal are other ones than a plan's.
fn check_rows(rows: &[Row]) -> Result<(), ConfigurationFault>
    requires { length rows.now ≤ 256 }
    ensures { MatchResult result (λ _. MakeBefore rows.now (length rows.now)) (Refused rows.now) }
{
    for (place, row) in rows.iter().enumerate() {
        if let Err(fault) = Rule::new(*row) {
            return Err(ConfigurationFault::Row { place, fault });
        }
    }
    Ok(())
}

impl<'a> Made<'a> {
    pub fn new(rows: &'a [Row]) -> Result<Made<'a>, ConfigurationFault>
        ensures { MatchResult result (λ m. m.rows.now ≡ rows.now) (Refused rows.now) }
    {
        if rows.len() > MOST_RULES {
            return Err(ConfigurationFault::TooMany(rows.len()));
        }
        check_rows(rows)?;
        Ok(Made { rows })
    }

    // Inlined, since the loop over pairs makes each rule anew: as a call that took twice as long.
    #[inline(always)]
    fn rule(&self, place: usize) -> Rule
        requires { place < length self.now.rows.now }
        ensures { Stands self.now.rows.now place result.row }
    {
        Rule::new(self.rows[place]).unwrap()
    }

    // The lowest place before `later` whose rule clashes with the one there.
    fn clashing(&self, later: usize) -> Option<usize>
        requires { later < length self.now.rows.now }
        ensures { MatchOption result (ClearOf self.now.rows.now later later) (λ k. (k < later) × ClearOf self.now.rows.now later k × ClashAt self.now.rows.now k later) }
    {
        let rule = self.rule(later);
        (0..later).find(|&earlier| self.rule(earlier).clashes(rule))
    }

    // No two rules clash.
    pub fn check_pairs(&self) -> Result<(), ConfigurationFault>
        ensures { MatchResult result (λ _. Sound self.now.rows.now) (Refused self.now.rows.now) }
    {
        // Over places, since a place is what is asked about and what is answered.
        for later in 0..self.rows.len() {
            if let Some(earlier) = self.clashing(later) {
                return Err(ConfigurationFault::Clash { later, earlier });
            }
        }
        Ok(())
    }
}
