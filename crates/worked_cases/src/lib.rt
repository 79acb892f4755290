// Worked examples as a theorem of the definitions that the contracts of the other crates cite.
#![tactic(auto)]

ghost use Rattle.worked_cases.specs.Cases.{Cases};

// Holds a contract; there is nothing to run.
pub fn cases_stand()
    ensures { Cases }
{}
