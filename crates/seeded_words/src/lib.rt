//! The words of a seed: the same ones for the same seed, everywhere.
#![tactic(auto)]

ghost use Rattle.std.specs.Prelude.{◌≡◌, ℕ, ◌+◌};
ghost use Rattle.seeded_words.specs.Words.{word};

#[cfg(test)]
mod tests;

use rand_core::SeedableRng;
use rand_core::utils::NextWord;
use rand_pcg::Pcg32;

/// Draws the words of a seed, one after the other.
///
/// The words, of 32 bits, are those of the generator `Pcg32` (O'Neill, 2014), made by
/// `seed_from_u64` of the seed.
#[derive(Drop)]
pub struct Words {
    generator: Pcg32,
}

impl Words {
    ghost use Rattle.seeded_words.specs.Drawn.{HasDrawn};

    /// The words of this seed, of which none is drawn yet.
    pub fn of_seed(seed: u64) -> Words
        ensures { HasDrawn seed 0 result }
    {
        Words {
            generator: Pcg32::seed_from_u64(seed),
        }
    }

    /// The next word.
    pub fn draw(&mut self) -> u32
        ensures word { (seed n : ℕ) → HasDrawn seed n self.old → result ≡ word seed n }
        ensures drawn { (seed n : ℕ) → HasDrawn seed n self.old → HasDrawn seed (n + 1) self.new }
    {
        self.generator.next_word()
    }
}
