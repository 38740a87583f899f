// The theorems on a line. Nothing is computed: the contract is what is proved.
ghost use Rattle.safety.specs.Day.{WorkedDay};
ghost use Rattle.safety.specs.Promises.{PromisesKept};

pub fn safety_laws()
    ensures promises_kept { PromisesKept }
    ensures worked_day { WorkedDay }
{}
