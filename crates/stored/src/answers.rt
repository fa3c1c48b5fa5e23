// An answer in a list: its number and its step.
ghost use Rattle.std.specs.Prelude.{◌≡◌};
ghost use Rattle.stored.specs.Answers.{is_stored};

use crate::words::Words;

// Whether the answer of this number and step is the one that is stored.
pub fn is_stored(words: Words, number: u8, step: u8) -> bool
    ensures { result ≡ is_stored words.entry.list.now words.entry.at number step }
{
    words.word(0) == u32::from(number) && words.word(1) == u32::from(step)
}
