//! The theorems on scales. Nothing is computed: the contract is what is proved.
ghost use Rattle.page.specs.Laws.{FillsTheFrame, HeightRises, InsideTheFrame, StepsGoRight};

#[tactic(auto, using(crate::proofs::Scales::height_rises, crate::proofs::Scales::across_right))]
pub fn scale_laws()
    ensures rises { HeightRises }
    ensures right { StepsGoRight }
    ensures fills { FillsTheFrame }
    ensures inside { InsideTheFrame }
{}
