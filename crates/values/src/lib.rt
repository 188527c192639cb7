// Entries of a table: what holds of them, for every kind.
#![tactic(auto)]

ghost use Rattle.values.specs.Laws.{EntriesLaw};

use chance::kind::Chance;

// The entries hold the exact chances.
pub fn entries_hold<K: Chance>()
    ensures { EntriesLaw K.Chance }
{}
