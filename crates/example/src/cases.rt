ghost use Rattle.example.specs.Cases.{Worked};

// Holds the table of worked cases, each a theorem under the definitions.
pub fn worked_cases()
    ensures { Worked }
{}
