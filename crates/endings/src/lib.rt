// Endings: what holds of their exact chances, lengths and places.
#![tactic(auto)]

ghost use Rattle.endings.specs.Laws.{Laws};
ghost use Rattle.endings.specs.PlaceLaws.{PlaceLaws};

// Exact chances, lengths and places are as their laws say.
pub fn laws_stand()
    ensures chances { Laws }
    ensures places { PlaceLaws }
{}
