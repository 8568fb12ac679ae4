ghost use Rattle.std.specs.Prelude.{◌≡◌};
ghost use Rattle.demo_make.specs.LastWords.{word_if, state_if};

use rand_xoshiro::SplitMix64;
use rand_xoshiro::rand_core::utils::NextWord;

/// The words of a player's last three commands.
#[derive(Clone, Copy)]
pub struct LastWords {
    /// That of two frames before, where there is such a frame.
    pub two_back: Option<u64>,
    /// That of the frame before, where there is one.
    pub one_back: Option<u64>,
    /// That of the frame which is open.
    pub newest: u64,
}

/// The next word, where one is drawn.
pub fn next_word_if(words: &mut SplitMix64, draws: bool) -> Option<u64>
    ensures word { result ≡ word_if draws words.old }
    ensures state { words.new ≡ state_if draws words.old }
{
    if draws { Some(words.next_word()) } else { None }
}
