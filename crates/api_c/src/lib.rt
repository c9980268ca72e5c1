// What C calls: each function here is the function of `api` of the same name, exported, and promises what that promises. `mpt.h` declares
// them. A static library exports what is marked so in its own crate alone, and no crate can stand on one: so the calls themselves stand in
// `api`, where other crates of Rattle can use them too.
#![tactic(auto)]

ghost use Rattle.std.specs.Prelude.{◌≡◌, ◌/◌, length};
ghost use Rattle.model.specs.Calls.{open_slot, close_slot};
ghost use Rattle.types.specs.Codes.{privilege_at, kind_at, permission_at, strength_at};
ghost use Rattle.api.specs.CallWords.{version, opened_word, done_word, lookup_word, sound_word, apart_word, edit_word, edit_memory};
ghost use Rattle.table.specs.Board.{board_frame, PAGE-WORDS};

use table::board::Word;

// The version of this interface, as `mpt.h` numbers it: 65,536 times the major number, and the minor one.
#[unsafe(no_mangle)]
pub extern "C" fn mpt_version() -> u64
    ensures { result ≡ version }
{
    api::mpt_version()
}

#[unsafe(no_mangle)]
pub extern "C" fn mpt_lookup(
    paw: u64,
    first: u64,
    words: &[Word],
    mmpt: Word,
    privilege: u64,
    kind: u64,
    address: u64,
) -> u64
    ensures { result ≡ lookup_word (board_frame paw first (length words.now / PAGE-WORDS)) words.now mmpt (privilege_at privilege) (kind_at kind) address }
{
    api::mpt_lookup(paw, first, words, mmpt, privilege, kind, address)
}

#[unsafe(no_mangle)]
pub extern "C" fn mpt_sound(paw: u64, first: u64, words: &[Word], slots: &[Word; 8]) -> u64
    ensures { result ≡ sound_word (board_frame paw first (length words.now / PAGE-WORDS)) words.now slots.now }
{
    api::mpt_sound(paw, first, words, slots)
}

#[unsafe(no_mangle)]
pub extern "C" fn mpt_apart(
    paw: u64,
    first: u64,
    words: &[Word],
    slots: &[Word; 8],
    strength: u64,
) -> u64
    ensures { result ≡ apart_word (board_frame paw first (length words.now / PAGE-WORDS)) words.now slots.now (strength_at strength) }
{
    api::mpt_apart(paw, first, words, slots, strength)
}

#[unsafe(no_mangle)]
pub extern "C" fn mpt_open(
    paw: u64,
    first: u64,
    words: &mut [Word],
    slots: &[Word; 8],
    slot: u64,
    sdid: u64,
) -> u64
    ensures { (result ≡ opened_word (open_slot (board_frame paw first (length words.old / PAGE-WORDS)) words.old slots.now slot sdid) slot)
        × (words.new ≡ (open_slot (board_frame paw first (length words.old / PAGE-WORDS)) words.old slots.now slot sdid).memory) }
{
    api::mpt_open(paw, first, words, slots, slot, sdid)
}

#[unsafe(no_mangle)]
pub extern "C" fn mpt_close(
    paw: u64,
    first: u64,
    words: &[Word],
    slots: &[Word; 8],
    slot: u64,
) -> u64
    ensures { result ≡ done_word (close_slot (board_frame paw first (length words.now / PAGE-WORDS)) words.now slots.now slot) }
{
    api::mpt_close(paw, first, words, slots, slot)
}

#[unsafe(no_mangle)]
pub extern "C" fn mpt_edit(
    paw: u64,
    first: u64,
    words: &mut [Word],
    slots: &[Word; 8],
    slot: u64,
    start: u64,
    size: u64,
    permission: u64,
    limit: u64,
) -> u64
    ensures { (result ≡ edit_word (board_frame paw first (length words.old / PAGE-WORDS)) words.old slots.now slot start size (permission_at permission) limit)
        × (words.new ≡ edit_memory (board_frame paw first (length words.old / PAGE-WORDS)) words.old slots.now slot start size (permission_at permission) limit) }
{
    api::mpt_edit(
        paw, first, words, slots, slot, start, size, permission, limit,
    )
}
