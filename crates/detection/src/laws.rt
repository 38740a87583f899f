// The theorem on changed bits. Nothing is computed when it is called: the contract is what is proved.
ghost use Rattle.detection.specs.Laws.{FewBitsFound};

#[tactic(auto, using(crate::proofs::Few::few_bits_found))]
pub fn detection_laws()
    ensures { FewBitsFound }
{}
