// What the count trellis counts.
#![tactic(auto)]

ghost use Rattle.paths.specs.Theorems.{PathsCounted};

// Single steps of the count trellis count the admitted paths.
pub fn paths_counted()
    ensures { PathsCounted }
{}
