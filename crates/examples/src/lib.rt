// The worked examples of the rules, as one proved statement over the definitions that the contracts use.
#![tactic(auto)]

ghost use Rattle.examples.specs.Examples.{Examples};

pub fn examples_hold()
    ensures { Examples }
{}
