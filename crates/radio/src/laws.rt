// The theorems on both ends of the radio. Nothing is computed: the contract is what is proved.
ghost use Rattle.radio.specs.Laws.{FreshEnd, FreshIfTaken, GrantBytesInNumbers, GrantHeard, HearBytesInNumbers, ReportBytesInNumbers, ReportHeard, TakeBytesInNumbers, TellBytesInNumbers, TellHeard};

pub fn radio_laws()
    ensures report_heard { ReportHeard }
    ensures tell_heard { TellHeard }
    ensures grant_heard { GrantHeard }
    ensures take_in_numbers { TakeBytesInNumbers }
    ensures hear_in_numbers { HearBytesInNumbers }
    ensures report_in_numbers { ReportBytesInNumbers }
    ensures tell_in_numbers { TellBytesInNumbers }
    ensures grant_in_numbers { GrantBytesInNumbers }
    ensures fresh_end { FreshEnd }
    ensures fresh_if_taken { FreshIfTaken }
{}
