// What survivors say of paths, and which path is decoded.
#![tactic(auto)]

ghost use Rattle.frame_paths.specs.Paths.{OneCheapest};
ghost use Rattle.frame_paths.specs.Survivors.{SurvivorsBest};

// Each entry of a block's matrix is the survivor of the paths over its symbols, however they are bracketed.
pub fn survivors_best()
    ensures { SurvivorsBest }
{}

// The rule of cost and ties selects one path at most.
pub fn one_cheapest()
    ensures { OneCheapest }
{}
