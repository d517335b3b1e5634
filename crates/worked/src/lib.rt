// The worked examples of the rules, on the definitions that the contracts use.
#![tactic(auto)]

ghost use Rattle.worked.specs.Worked.{WorkedExamples};

use toom::laws::only_the_torus_counts;

// Each example holds. There is nothing to run: the examples are the contract.
pub fn worked_examples()
    ensures { WorkedExamples }
{
    only_the_torus_counts();
}
