// The types of the monitor, the same on every board, and what is said of them alone.
#![tactic(auto)]

ghost use Rattle.types.specs.Range.{Fair};

pub mod bits;
pub mod code;
pub mod needed_page;
pub mod number;
pub mod pages;
pub mod rights;
pub mod text;

// A page number, an address and an SDID are different kinds.
#[derive(Clone, Copy)]
pub struct PageNumber(pub u64);

#[derive(Clone, Copy)]
pub struct Address(pub u64);

#[derive(Clone, Copy)]
pub struct Sdid(pub u64);

// The physical address width and the first lent page. The lent memory stands beside it, as words of one entry each.
#[derive(Clone, Copy)]
pub struct Frame {
    pub paw: u64,
    pub first: PageNumber,
}

#[derive(Clone, Copy, PartialEq, Eq)]
pub enum Permission {
    None,
    Rx,
    Rw,
    Rwx,
}

#[derive(Clone, Copy)]
pub enum Need {
    Read,
    Write,
    Execute,
}

#[derive(Clone, Copy)]
pub enum Access {
    Fetch,
    Load,
    Store,
}

// An access itself, or a page-table read or an A/D update on behalf of one.
#[derive(Clone, Copy)]
pub enum Kind {
    Itself(Access),
    TableRead(Access),
    Update(Access),
}

// The effective privilege.
#[derive(Clone, Copy, PartialEq, Eq)]
pub enum Privilege {
    Machine,
    Supervisor,
    User,
}

// The access whose fault it is: 1, 5 and 7. A type beside `Access`: what is asked is never taken for what is answered, and only this has numbers.
#[derive(Clone, Copy)]
pub enum Cause {
    Fetch,
    Load,
    Store,
}

// Why the monitor says no: 1 to 8 in this order, and 10.
#[derive(Clone, Copy)]
pub enum Refusal {
    Frame,
    Register,
    NotSound,
    Slot,
    Range,
    LentPages,
    NoRoom,
    Sdid,
    WriteExecute,
}

// What a lookup answers that is not refused. No Result: a fault is as much its answer as leave is.
#[derive(Clone, Copy)]
pub enum Answer {
    Allowed,
    Fault(Cause),
}

// The fence that a call asks for: none, the whole domain, or one address of it. SDID 0 and address 0 are values like any other. None is one of the
// three, and no `Option` of the other two: whoever asks takes the three apart.
#[derive(Clone, Copy)]
pub enum Fence {
    Nothing,
    Domain(Sdid),
    One(Address, Sdid),
}

// What an L2 entry says of its block: one permission, as its two bits; a permission for each piece; an L1 page; or nothing. Nothing is one of the
// four, as in the definition, and no `None`: every use takes the four apart.
#[derive(Clone, Copy)]
pub enum Entry {
    Flat(u64),
    Pieces(u64),
    Table(PageNumber),
    Invalid,
}

// ---- calls

// What an edit asks. The permission is its two bits, as an entry holds them, here, in an `Entry` and a `Form`, and wherever an edit works with one: they
// are spread over words and spliced, and a `Permission` would be turned into them at each use.
#[derive(Clone, Copy)]
pub struct Request {
    pub slot: u64,
    pub start: Address,
    pub size: u64,
    pub permission: u64,
}

// An edit: its frame, what it asks, and the root page of its slot. What it asks is fair: that is tested before there is an edit.
#[derive(Clone, Copy)]
pub struct Edit {
    pub f: Frame,
    pub q: Request,
    pub root: PageNumber,
    pub ghost fair: { Fair q },
}

// What a call did that was not refused.
#[derive(Clone, Copy)]
pub enum Reply {
    Opened,
    Closed,
    // How many stores were made, and whether that was all: both are told either way, so this is no `Option`.
    Edited(u64, bool),
}

// ---- blocks

// Where a run of pages lies, seen from the range.
#[derive(Clone, Copy)]
pub enum Place {
    Inside,
    Outside,
    Across,
}

// The finished form of a block.
#[derive(Clone, Copy)]
pub enum Form {
    Flat(u64),
    Pieces(u64),
    Table,
}

// ---- stores up to a limit

// How many more stores may be made, and which word the last one went to: word 0 before the first, where nobody asks for it, since no store is left to
// tell of. An `Option` there would be tested at each store.
#[derive(Clone, Copy)]
pub struct Budget {
    pub more: u64,
    pub last: usize,
}

// A row of entries: how many of them were taken, and what is left of the limit; none if it cut them.
#[derive(Clone, Copy)]
pub struct RowProgress {
    pub left: Option<Budget>,
    pub count: usize,
}

// Some blocks: how many were taken, the next new page, and what is left of the limit; none if it cut their stores.
#[derive(Clone, Copy)]
pub struct BlocksProgress {
    pub left: Option<Budget>,
    pub next: u64,
    pub count: u64,
}

// What an edit answers: how many stores it made, whether that was all, and the fence. All three are told either way, so `all` makes no `Option` of
// another.
#[derive(Clone, Copy)]
pub struct StoresMade {
    pub count: u64,
    pub fence: Fence,
    pub all: bool,
}

// The two lowest of the free pages: an edit takes no more than two. Where there is no first, there is no second.
#[derive(Clone, Copy)]
pub struct Free {
    pub first: Option<PageNumber>,
    pub second: Option<PageNumber>,
}

// ---- are the domains kept apart?

// How much is asked: that no page is open to two domains, nor a table page to any; or that domains share no page that one of them may write,
// and that none may write a table page.
#[derive(Clone, Copy)]
pub enum Strength {
    Strict,
    Sharing,
}

// What is answered that is not refused: apart; or of the lowest page at fault its number, the lowest slot that reaches a table page, or the lowest
// two that share a page, and whether a slot that is told may write it.
#[derive(Clone, Copy)]
pub enum Separation {
    Apart,
    TableOpen(PageNumber, u64, bool),
    PageShared(PageNumber, u64, u64, bool),
}

// What some slots have of a run of pages, a bit for each page: it is open to one or more of them; to two or more; one or more reach it.
#[derive(Clone, Copy)]
pub struct Masks {
    pub once: u64,
    pub twice: u64,
    pub reached: u64,
}

// What the slots have of a block: the masks, by pieces, of those that have no L1 page there; and where the words of the others' L1 pages
// begin, as many as count says: the memory is fixed, so this is no `Vec`.
#[derive(Clone, Copy)]
pub struct Shares {
    pub even: Masks,
    pub tables: [usize; 8],
    pub count: usize,
}

// ---- codes

// A code that names no privilege, no kind of access, no permission or no strength.
#[derive(Clone, Copy)]
pub struct UnknownCode;
