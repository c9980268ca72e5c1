// The L1 entries of a block that the range of an edit can meet. As in `types::pages`, a request is enough.
ghost use Rattle.table.specs.Board.{MAX-BLOCKS, PAGE-WORDS};
ghost use Rattle.std.specs.Prelude.{◌+◌, ◌≤◌, ◌<◌};
ghost use Rattle.range.specs.EntryBounds.{Below, Past};
ghost use Rattle.types.specs.Views.{request_of};
ghost use Rattle.types.specs.Range.{Fair};

use table::board::{FIELDS, PAGE_WORDS};
use types::Request;
use types::pages::{PAGE_BYTES, cut};

// The bytes that an L1 entry speaks for.
const ENTRY_SPAN: u64 = FIELDS * PAGE_BYTES;

const ENTRY_ROUND_UP: u64 = FIELDS * PAGE_BYTES - 1;

// The first L1 entry of block b that the range can meet: no page of an entry below it lies in the range.
pub fn first_entry(q: Request, b: u64) -> u64
    requires { (b < MAX-BLOCKS) × Fair q }
    ensures { (result ≤ PAGE-WORDS) × Below (request_of q) b result }
{
    cut(
        q.start.0 / ENTRY_SPAN,
        b * PAGE_WORDS as u64,
        PAGE_WORDS as u64,
    )
}

// The L1 entry of block b from which on no page lies in the range.
pub fn past_entry(q: Request, b: u64) -> u64
    requires { (b < MAX-BLOCKS) × Fair q }
    ensures { (result ≤ PAGE-WORDS) × Past (request_of q) b result }
{
    let past = (q.start.0 + q.size + ENTRY_ROUND_UP) / ENTRY_SPAN;
    cut(past, b * PAGE_WORDS as u64, PAGE_WORDS as u64)
}
