// The one assignment to a lent word.
ghost use Rattle.std.specs.Prelude.{◌≡◌, ◌<◌, length, set};

use crate::board::Word;

// Nothing else in the monitor stores into the lent memory: whoever changes it calls this, one word at a time. An edit calls it in
// `entries::put::put_next` alone.
pub fn store_word(words: &mut [Word], at: usize, word: Word)
    requires { at < length words.old }
    ensures { words.new ≡ set words.old at word }
{
    words[at] = word;
}
