// New pages of blocks: which block takes one, and which page it is.
ghost use Rattle.std.specs.Prelude.{◌≡◌, ◌+◌, ◌<◌, ◌^◌, drop, length, if◌then◌else◌};
ghost use mathlib.Core.List.{head_d};
ghost use Rattle.model.specs.Stores.{needs_page};
ghost use Rattle.types.specs.Views.{entry_of, form_of, free_list};

use crate::{Entry, Form, Free, PageNumber};

// A block that is to have an L1 page and has none.
#[tactic(auto, unfolding(model::specs::Stores::needs_page))]
pub fn needs_page(form: Form, e: Entry) -> bool
    ensures { result ≡ needs_page (form_of form) (entry_of e) }
{
    match (form, e) {
        (Form::Table, Entry::Table(_)) => false,
        (Form::Table, _) => true,
        _ => false,
    }
}

// The place of the next new page among the free ones.
pub fn next_page(form: Form, e: Entry, next: u64) -> u64
    requires { next < 2 ^ 32 }
    ensures { result ≡ (if needs_page (form_of form) (entry_of e) then next + 1 else next) }
{
    if needs_page(form, e) {
        return next + 1;
    }
    next
}

// How many free pages an edit may take: two at the most.
pub fn count(free: Free) -> u64
    ensures { result ≡ length (free_list free) }
{
    match (free.first, free.second) {
        (Some(_), Some(_)) => 2,
        (Some(_), None) => 1,
        (None, _) => 0,
    }
}

// The first of the free pages that are left. An `Option` would be no plainer: a block that takes none is handed page 0, which is never lent, and never
// looks at it, and one that takes a page would have to show again that there is one.
pub fn page_from(free: Free, next: u64) -> PageNumber
    ensures { result.0 ≡ head_d (drop next (free_list free)) 0 }
{
    let page = match next {
        0 => free.first,
        1 => free.first.and(free.second),
        _ => None,
    };
    page.unwrap_or(PageNumber(0))
}
