// The theorems on how scenarios are read and written. Nothing is computed: the contract is what is proved.
ghost use Rattle.scenario.specs.Laws.{OneEntry, OneReading, ReadBack, WordsWritten};

#[tactic(auto, using(crate::proofs::OneReading::one_entry, crate::proofs::ReadBack::words_written))]
pub fn scenario_laws()
    ensures one_entry { OneEntry }
    ensures one_reading { OneReading }
    ensures words_written { WordsWritten }
    ensures read_back { ReadBack }
{}
