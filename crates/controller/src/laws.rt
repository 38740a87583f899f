// The theorems on controllers. Nothing is computed: the contract is what is proved.
ghost use Rattle.controller.specs.Laws.{FarthestKnown, GrantInNumbers, HearInNumbers, InRangeAnswers, InRangeStays, OrderFree, SilentInRange, SilentKnowsNothing, TellInNumbers};

pub fn controller_laws()
    ensures farthest_known { FarthestKnown }
    ensures order_free { OrderFree }
    ensures silent_knows_nothing { SilentKnowsNothing }
    ensures silent_in_range { SilentInRange }
    ensures in_range_stays { InRangeStays }
    ensures in_range_answers { InRangeAnswers }
    ensures hear_in_numbers { HearInNumbers }
    ensures tell_in_numbers { TellInNumbers }
    ensures grant_in_numbers { GrantInNumbers }
{}
