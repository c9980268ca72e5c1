// A block that gets a new L1 page: the stores that fill the page, and then the one that links it.
ghost use Rattle.std.specs.Prelude.{◌≡◌, true, List, [], ◌∷◌, ◌<◌, ◌^◌};
ghost use Rattle.table.specs.Board.{board, frame_of};
ghost use Rattle.shapes.specs.Ahead.{Ahead};
ghost use Rattle.shapes.specs.Run.{out, run};
ghost use Rattle.model.specs.Entry.{table, encode};
ghost use Rattle.model.specs.Frame.{lent};
ghost use Rattle.model.specs.Stores.{Store, store_l2, link_table};
ghost use Rattle.types.specs.Views.{entry_of, request_of};
ghost use Rattle.shapes.specs.Rooted.{Good};

use crate::fresh;
use crate::new_page::NewPage;
use crate::put::put;
use table::board::{TABLE_ENTRY, Word, narrow};
use table::lent::page_at;
use types::{Budget, Edit};

// The L2 entry of the block that names the page.
fn link_page(edit: Edit, words: &mut [Word], new: NewPage, left: Budget) -> Option<Budget>
    requires { let ss = store_l2 (frame_of edit.f words.old) edit.root.0 new.block.b (encode board (table new.page.0)) ∷ [] in
        (lent (frame_of edit.f words.old) edit.root.0 ≡ true) × (new.page.0 < 2 ^ board.info_bits) × Ahead words.old ss }
    ensures { let ss = store_l2 (frame_of edit.f words.old) edit.root.0 new.block.b (encode board (table new.page.0)) ∷ [] in
        out result words.new ≡ run left ss words.old }
{
    let at = page_at(edit.f, words, edit.root) + new.block.b as usize;
    put(words, left, at, narrow(TABLE_ENTRY + new.page.0))
}

// A new page, and then the L2 entry that names it.
pub fn link_table(edit: Edit, words: &mut [Word], new: NewPage, left: Budget) -> Option<Budget>
    requires { let ss = link_table (frame_of edit.f words.old) words.old (request_of edit.q) edit.root.0 (entry_of new.block.e) new.block.b new.page.0 in
        Good (frame_of edit.f words.old) words.old (entry_of new.block.e) × (lent (frame_of edit.f words.old) new.page.0 ≡ true)
        × (lent (frame_of edit.f words.old) edit.root.0 ≡ true) × (new.page.0 < 2 ^ board.info_bits) × Ahead words.old ss }
    ensures { let ss = link_table (frame_of edit.f words.old) words.old (request_of edit.q) edit.root.0 (entry_of new.block.e) new.block.b new.page.0 in
        out result words.new ≡ run left ss words.old }
{
    let filled = fresh::fill_page(edit, words, new, left)?;
    link_page(edit, words, new, filled)
}
