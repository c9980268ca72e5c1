// Codes and words: what C asks and is answered. The interface for C has numbers: here codes become what they name, and answers become words.
ghost use Rattle.std.specs.Prelude.{◌≡◌, ℕ, ◌≤◌, ◌<◌, ◌^◌, if◌then◌else◌};
ghost use Rattle.model.specs.Access.{fault, cause_of, original_of};
ghost use Rattle.types.specs.Views.{privilege_of, kind_of, permission_number, strength_of, answer_of, fence_of, reply_of, separation_of};
ghost use Rattle.types.specs.Codes.{privilege_at, kind_at, permission_at, strength_at, named_by, answer_word, fence_word, reply_word, separation_word};

use crate::{
    Access, Answer, Fence, Kind, Permission, Privilege, Refusal, Reply, Separation, Strength,
    UnknownCode, rights,
};

// The privilege, as RISC-V encodes it.
impl TryFrom<u64> for Privilege {
    type Error = UnknownCode;

    ghost try_from_gives = { λ code r. named_by privilege_of r ≡ privilege_at code };

    #[tactic(auto, unfolding(crate::specs::Codes::privilege_at))]
    fn try_from(code: u64) -> Result<Self, UnknownCode> {
        match code {
            0 => Ok(Privilege::User),
            1 => Ok(Privilege::Supervisor),
            3 => Ok(Privilege::Machine),
            _ => Err(UnknownCode),
        }
    }
}

impl TryFrom<u64> for Kind {
    type Error = UnknownCode;

    ghost try_from_gives = { λ code r. named_by kind_of r ≡ kind_at code };

    #[tactic(auto, unfolding(crate::specs::Codes::kind_at))]
    fn try_from(code: u64) -> Result<Self, UnknownCode> {
        match code {
            0 => Ok(Kind::Itself(Access::Fetch)),
            1 => Ok(Kind::Itself(Access::Load)),
            2 => Ok(Kind::Itself(Access::Store)),
            3 => Ok(Kind::TableRead(Access::Fetch)),
            4 => Ok(Kind::TableRead(Access::Load)),
            5 => Ok(Kind::TableRead(Access::Store)),
            6 => Ok(Kind::Update(Access::Fetch)),
            7 => Ok(Kind::Update(Access::Load)),
            8 => Ok(Kind::Update(Access::Store)),
            _ => Err(UnknownCode),
        }
    }
}

impl TryFrom<u64> for Permission {
    type Error = UnknownCode;

    ghost try_from_gives = { λ code r. named_by permission_number r ≡ permission_at code };

    #[tactic(auto, unfolding(crate::specs::Codes::permission_at))]
    fn try_from(code: u64) -> Result<Self, UnknownCode> {
        match code {
            0 => Ok(Permission::None),
            1 => Ok(Permission::Rx),
            2 => Ok(Permission::Rw),
            3 => Ok(Permission::Rwx),
            _ => Err(UnknownCode),
        }
    }
}

impl TryFrom<u64> for Strength {
    type Error = UnknownCode;

    ghost try_from_gives = { λ code r. named_by strength_of r ≡ strength_at code };

    #[tactic(auto, unfolding(crate::specs::Codes::strength_at))]
    fn try_from(code: u64) -> Result<Self, UnknownCode> {
        match code {
            0 => Ok(Strength::Sharing),
            1 => Ok(Strength::Strict),
            _ => Err(UnknownCode),
        }
    }
}

// The fault that an access of this kind can be answered.
pub fn fault_word(kind: Kind) -> u64
    ensures { result ≡ answer_word (fault (cause_of (original_of (kind_of kind)))) }
{
    256 + u64::from(rights::cause_of(kind))
}

// What a lookup answers. no: its access's fault, which is at hand before the lookup, so that the answer is a choice of two words.
pub fn answer_word(a: Result<Answer, Refusal>, no: u64) -> u64
    requires { (cause : ℕ) → answer_of a ≡ fault cause → no ≡ answer_word (fault cause) }
    ensures { result ≡ answer_word (answer_of a) }
{
    match a {
        Ok(Answer::Allowed) => 0,
        Ok(Answer::Fault(_)) => no,
        Err(why) => u64::from(why),
    }
}

fn fence_word(f: Fence) -> u64
    ensures { (result ≡ fence_word (fence_of f)) × (result < 2 ^ 18) }
{
    match f {
        Fence::Nothing => 0,
        Fence::Domain(sdid) => 1024 + sdid.0 % 64 * 4096,
        Fence::One(_, sdid) => 2048 + sdid.0 % 64 * 4096,
    }
}

// A bit of a word, if it is so.
fn flag(is: bool, bit: u64) -> u64
    ensures { (result ≡ (if is then bit else 0)) × (result ≤ bit) }
{
    if is {
        return bit;
    }
    0
}

pub fn reply_word(reply: Result<Reply, Refusal>, fence: Fence, register: u64) -> u64
    ensures { result ≡ reply_word (reply_of reply) (fence_of fence) register }
{
    match reply {
        Ok(Reply::Opened) => register,
        Ok(Reply::Closed) => 256 + fence_word(fence),
        Ok(Reply::Edited(count, all)) => {
            256 + flag(all, 512) + fence_word(fence) + count % 0x100_0000_0000 * 0x4_0000
        }
        Err(why) => u64::from(why),
    }
}

pub fn separation_word(s: Result<Separation, Refusal>) -> u64
    ensures { result ≡ separation_word (separation_of s) }
{
    match s {
        Err(why) => u64::from(why),
        Ok(Separation::Apart) => 0,
        Ok(Separation::TableOpen(page, slot, written)) => {
            256 + 512
                + flag(written, 1024)
                + slot % 8 * 0x1000
                + page.0 % 0x100_0000_0000 * 0x10_0000
        }
        Ok(Separation::PageShared(page, slot, other, written)) => {
            256 + flag(written, 1024)
                + slot % 8 * 0x1000
                + other % 8 * 0x1_0000
                + page.0 % 0x100_0000_0000 * 0x10_0000
        }
    }
}
