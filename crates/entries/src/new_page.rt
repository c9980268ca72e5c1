// A block that gets a new L1 page: the block, which has none and so needs one, and the page.
ghost use Rattle.std.specs.Prelude.{◌≡◌, true};
ghost use Rattle.model.specs.Forms.{want_table};
ghost use Rattle.model.specs.Stores.{needs_page};
ghost use Rattle.types.specs.Views.{entry_of};

use forms::block::Block;
use types::PageNumber;

#[derive(Clone, Copy)]
pub struct NewPage {
    pub block: Block,
    pub page: PageNumber,
    pub ghost needs: { needs_page want_table (entry_of block.e) ≡ true },
}
