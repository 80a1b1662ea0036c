ghost use Rattle.std.specs.Prelude.{◌≡◌};
ghost use Rattle.lf_latency.specs.Arrivals.{word_of};

use rand_chacha::ChaCha20Rng;
use rand_core::SeedableRng;
use rand_core::utils::NextWord;

/// The word at a place of a stream of ChaCha20, whose key is the seed.
///
/// The words are those of the block function of RFC 8439 with a 64-bit block counter, where the
/// stream's number is the 64-bit nonce. A place counts words of 32 bits, sixteen to a block.
#[tactic(auto, unfolding(crate::specs::Arrivals::word_of))]
pub fn word(seed: &[u8; 32], stream: u64, place: u64) -> u32
    ensures { result ≡ word_of seed.now stream place }
{
    let mut rng = ChaCha20Rng::from_seed(*seed);
    // The stream comes first: setting the place already computes the block.
    rng.set_stream(stream);
    rng.set_word_pos(u128::from(place));
    rng.next_word()
}
