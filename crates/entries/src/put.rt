// One store, if the limit allows one more.
ghost use Rattle.std.specs.Prelude.{◌≡◌, List, [], ◌∷◌, ◌<◌, eqb, length, get_or, if◌then◌else◌};
ghost use Rattle.shapes.specs.Ahead.{Ahead, NextStore};
ghost use Rattle.shapes.specs.Run.{all_made, out, run};
ghost use Rattle.table.specs.Stored.{store_of};
ghost use Rattle.model.specs.Stores.{Store};

use table::board::Word;
use table::store::store_word;
use types::Budget;

// One store, where one more may be made: the next of an edit's list. Every store of an edit is made here.
pub fn put_next(words: &mut [Word], left: Budget, at: usize, word: Word) -> Budget
    requires { let ss = store_of at word ∷ [] in
        (at < length words.old) × (0 < left.more) × Ahead words.old ss }
    ensures { let ss = store_of at word ∷ [] in
        (all_made result words.new ≡ run left ss words.old) × NextStore words.old ss words.new }
{
    store_word(words, at, word);
    let more = left.more;
    Budget {
        more: more - 1,
        last: at,
    }
}

// One store, if one more may be made.
pub fn put(words: &mut [Word], left: Budget, at: usize, word: Word) -> Option<Budget>
    requires { let ss = store_of at word ∷ [] in
        (at < length words.old) × Ahead words.old ss }
    ensures { let ss = store_of at word ∷ [] in
        out result words.new ≡ run left ss words.old }
{
    if left.more == 0 {
        return None;
    }
    Some(put_next(words, left, at, word))
}

// A store, if it changes the word.
pub fn put_changed(words: &mut [Word], left: Budget, at: usize, word: Word) -> Option<Budget>
    requires { let ss = if eqb (get_or words.old at 0) word then [] else store_of at word ∷ [] in
        (at < length words.old) × Ahead words.old ss }
    ensures { let ss = if eqb (get_or words.old at 0) word then [] else store_of at word ∷ [] in
        out result words.new ≡ run left ss words.old }
{
    if words[at] == word {
        return Some(left);
    }
    put(words, left, at, word)
}
