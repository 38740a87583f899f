// The theorems on units. Nothing is computed: the contract is what is proved.
ghost use Rattle.onboard.specs.Day.{WorkedDay};
ghost use Rattle.onboard.specs.Laws.{BrakesOnlyIfNeeded, CanStopStays, KnownStays, KnownWithinBlur, RearPastStays, ReportTrue, SoundAnswers, SoundStays, StandingSound};

pub fn unit_laws()
    ensures brakes_only_if_needed { BrakesOnlyIfNeeded }
    ensures known_stays { KnownStays }
    ensures known_within_blur { KnownWithinBlur }
    ensures can_stop_stays { CanStopStays }
    ensures standing_sound { StandingSound }
    ensures sound_stays { SoundStays }
    ensures sound_answers { SoundAnswers }
    ensures report_true { ReportTrue }
    ensures rear_past_stays { RearPastStays }
    ensures worked_day { WorkedDay }
{}
