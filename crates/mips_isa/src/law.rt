//! What `decode` and `encode` are to each other.
ghost use Rattle.std.specs.Prelude.{◌≡◌};
ghost use Rattle.base_words.specs.OpcodeMap.{decoded};
ghost use Rattle.mips_isa.specs.Encoding.{encoded};

/// The word of the instruction that a word is, is that word: what `encode` answers for what `decode` answered.
#[tactic(auto, using(crate::proofs::RoundTrip::round_trip))]
pub fn round_trip(word: u32)
    ensures { encoded (decoded word) ≡ word }
{
    let _word = word;
}
