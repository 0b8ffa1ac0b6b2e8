// The worked examples of frames, as one proved statement over the definitions that their contracts use.
#![tactic(auto)]

ghost use Rattle.examples_frames.specs.Examples.{FrameExamples};

pub fn frame_examples_hold()
    ensures { FrameExamples }
{}
