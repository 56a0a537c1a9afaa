//! A word of the command line.

ghost use Rattle.std.specs.Prelude.{◌≡◌, IfOk};

use stale_model::Memory;
use std::alloc::Global;
use std::convert::AsStr;
use std::marker::Model;

/// A word of the command line. Contracts see it as the list of its bytes.
#[derive(Drop, Debug)]
pub struct Word {
    text: String,
}

impl Model for Word {
    ghost use Rattle.std.specs.Prelude.{List, ℕ};
    ghost use Rattle.std.specs.String.{string_bytes};

    ghost Value = { List ℕ };

    ghost view = { λ word. string_bytes word.text };
}

impl Word {
    /// A copy of a word.
    pub fn of(alloc: Global, text: &str) -> Result<Word, Memory>
        ensures { IfOk result (λ word. word ≡ text.now) }
    {
        match String::from_str(alloc, text) {
            Ok(text) => Ok(Word { text }),
            Err(_) => Err(Memory),
        }
    }
}

impl AsStr for Word {
    ghost text = { λ word. word };

    fn as_str(&self) -> &str {
        self.text.as_str()
    }
}
