// The worked examples of places, homes and distances, as theorems about the definitions that the contracts use, and the limits by their numbers.
#![tactic(auto)]

ghost use Rattle.cases.specs.LimitValues.{LimitValues};
ghost use Rattle.cases.specs.Worked.{WorkedExamples};

// Each of the examples holds, and each limit is the number that the rules give it; answers how many examples there are.
pub fn worked_examples() -> u8
    ensures examples { WorkedExamples }
    ensures limits { LimitValues }
{
    14
}
