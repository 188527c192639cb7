// Worked cases that are shown from the rules.
#![tactic(auto)]

ghost use Rattle.std.specs.List.{AllByRecursion};
ghost use Rattle.specimens.specs.Specimens.{Stands, specimens};

// Each specimen of the list stands.
pub fn specimens_stand()
    ensures { AllByRecursion Stands specimens }
{}
