// A page of the lent memory, zeroed.
ghost use Rattle.std.specs.Prelude.{◌≡◌, ◌+◌, ◌≤◌, length};
ghost use Rattle.slots.specs.ZeroPage.{zeroed};
ghost use Rattle.table.specs.Board.{PAGE-WORDS};

use table::board::{PAGE_WORDS, Word};
use table::store::store_word;

// The words of the page that starts at word at, one store each: by number, since whoever stores calls `store_word`.
pub fn zero_page(words: &mut [Word], at: usize)
    requires { at + PAGE-WORDS ≤ length words.old }
    ensures { words.new ≡ zeroed words.old at }
{
    for i in 0..PAGE_WORDS {
        store_word(words, at + i, 0);
    }
}
