// The theorems on the braking distance. Nothing is computed: the contract is what is proved.
ghost use Rattle.braking.specs.Laws.{BrakingLeaves, LessSpeed, Most, Rule, WorkedExample};

pub fn distance_laws()
    ensures rule { Rule }
    ensures less_speed { LessSpeed }
    ensures braking_leaves { BrakingLeaves }
    ensures most { Most }
    ensures worked_example { WorkedExample }
{}
