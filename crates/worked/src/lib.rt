// The worked examples, as theorems over the definitions of the model.
#![tactic(auto)]

ghost use Rattle.worked.specs.Worked.{WorkedExamples};

// Each of the worked examples breaks the rules that it should break and no others, by the round that it should have; where it keeps them
// all, the first precedence table is as it should be.
pub fn worked_examples_stand() -> u8
    ensures { WorkedExamples }
{
    0
}
