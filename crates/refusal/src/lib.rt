// What a call answers when it refuses, and the number that FreeBSD's errno.h has for it.
#![tactic(auto)]

ghost use Rattle.std.specs.Prelude.{◌≡◌};
ghost use Rattle.refusal.specs.Refusal.{number_of};
ghost use Rattle.refusal.specs.declared.Refusal.TheVariants.{Damaged};

#[derive(Clone, Copy)]
pub enum Refusal {
    // The name is not in the directory.
    NoEntry = 2,
    // A block is asked of a link whose text is in the inode.
    TextInInode = 5,
    // The inode's bit is free, but the record's link count is not 0.
    LinkedInode = 14,
    // The target name is found by lookup.
    Exists = 17,
    // The inode is not a directory.
    NotDirectory = 20,
    // Either end of a rename is a directory.
    IsDirectory = 21,
    // An inode, number, size, run, index or name that is not taken.
    Invalid = 22,
    // The end of a write or truncate overflows, or lies past the triple zone.
    TooBig = 27,
    // There is no block or inode to give.
    NoSpace = 28,
    // A writing call meets a read-only volume.
    ReadOnly = 30,
    // A link count at 65,535 must rise.
    TooManyLinks = 31,
    // The output buffer is too small.
    BufferTooSmall = 34,
    // A held tail would grow, or a shrink would end in the triple zone.
    NotSupported = 45,
    // The name has over 255 bytes.
    NameTooLong = 63,
    // The directory to be removed is not empty.
    NotEmpty = 66,
    // There is no such attribute.
    NoAttribute = 87,
    // The volume is not sound, or damage is met.
    Damaged = 97,
}

// What work refuses with that can only meet damage.
#[derive(Clone, Copy)]
pub struct Damage;

impl From<Damage> for Refusal {
    ghost from_gives = { λ _ r. r ≡ Damaged };

    fn from(_d: Damage) -> Refusal {
        Refusal::Damaged
    }
}

#[tactic(auto, unfolding(crate::specs::Refusal::number_of))]
pub fn number(r: Refusal) -> u32
    ensures { result ≡ number_of r }
{
    r as u32
}
