// The theorems on the check. Nothing is computed: the contract is what is proved.
ghost use Rattle.crc.specs.Laws.{PublishedCheck, PublishedPolynomial};

#[tactic(auto, unfolding(crate::specs::Crc::after_bytes, crate::specs::Crc::after_byte))]
pub fn crc_laws()
    ensures published_polynomial { PublishedPolynomial }
    ensures published_check { PublishedCheck }
{}
