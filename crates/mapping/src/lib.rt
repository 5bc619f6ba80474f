// inode.rs (decode_blkidx, inode_resolve_block): from a block's index in its file to its address on the disk.
#![tactic(auto)]

ghost use Rattle.std.specs.Prelude.{◌≡◌, true, ◌+◌, ◌^◌, ◌≤◌, ◌<◌, length};
ghost use Rattle.frame.specs.Frame.{Frame};
ghost use Rattle.mapping.specs.Zones.{place_of};
ghost use Rattle.mapping.specs.Mapping.{per_list, entry_at, list_ok, down, mapped};

use field::Number;
use volume::{BlockIdx, FragNum, Geometry};

// Where an index leads: the address in the record, how many lists are gone down, and the place under that address.
#[derive(Clone, Copy)]
pub enum Place {
    Under {
        root: u64,
        level: u32,
        rest: BlockIdx,
    },
    Past,
}

// What the mapping finds.
#[derive(Clone, Copy)]
pub enum Mapped {
    At(FragNum),
    Hole,
    Bad,
    Past,
}

// How many addresses a list holds.
pub fn per_list(geo: Geometry) -> u64
    requires { geo.bsize ≤ 65536 }
    ensures { (result ≡ per_list geo) × (result ≤ 8192) }
{
    geo.bsize as u64 / 8
}

// How many blocks stand under an address that is `level` lists above them.
pub fn span(p: u64, level: u32) -> u64
    requires { (p ≤ 8192) × (level ≤ 3) }
    ensures { (result ≡ p ^ level) × (result ≤ 549755813888) }
{
    p.pow(level)
}

// The same of this volume's lists.
pub fn span_of(geo: Geometry, level: u32) -> u64
    requires { (geo.bsize ≤ 65536) × (level ≤ 3) }
    ensures { (result ≡ per_list geo ^ level) × (result ≤ 549755813888) }
{
    span(per_list(geo), level)
}

// decode_blkidx: the zone of an index, and its place in it.
pub fn place_of(p: u64, i: BlockIdx) -> Place
    requires { p ≤ 8192 }
    ensures { result ≡ place_of p i.0 }
{
    let n = i.0;
    if n < 12 {
        return Place::Under {
            root: n,
            level: 0,
            rest: BlockIdx(0),
        };
    }
    let second = 12 + span(p, 1);
    if n < second {
        return Place::Under {
            root: 12,
            level: 1,
            rest: BlockIdx(n - 12),
        };
    }
    let third = second + span(p, 2);
    if n < third {
        return Place::Under {
            root: 13,
            level: 2,
            rest: BlockIdx(n - second),
        };
    }
    let end = third + span(p, 3);
    if n < end {
        return Place::Under {
            root: 14,
            level: 3,
            rest: BlockIdx(n - third),
        };
    }
    Place::Past
}

// An address of the list at a.
pub fn entry(img: &[u8], geo: Geometry, a: FragNum, slot: u64) -> FragNum
    requires { Frame geo img.now × (list_ok geo img.now a.0 ≡ true) × (slot < per_list geo) }
    ensures { result.0 ≡ entry_at geo img.now a.0 slot }
{
    let o = geo.order;
    let at = volume::address_at(geo, a) + slot as usize * 8;
    FragNum(u64::get(o, img, at))
}

// Down one list per level, until there is none left.
pub fn resolve(img: &[u8], geo: Geometry, a: FragNum, level: u32, rest: BlockIdx) -> Mapped
    requires { Frame geo img.now × (level ≤ 3) × (rest.0 < per_list geo ^ level) }
    ensures { result ≡ down geo img.now level a.0 rest.0 }
{
    if a.0 == 0 {
        return Mapped::Hole;
    }
    if level == 0 {
        return Mapped::At(a);
    }
    if !frame::run_ok(img, geo, a, geo.frag as u64) {
        return Mapped::Bad;
    }
    let below = level - 1;
    let each = span_of(geo, below);
    let next = entry(img, geo, a, rest.0 / each);
    resolve(img, geo, next, below, BlockIdx(rest.0 % each))
}

// inode_resolve_block: the address of a block of the inode whose record is at `at`.
pub fn resolve_block(img: &[u8], geo: Geometry, at: usize, i: BlockIdx) -> Mapped
    requires { Frame geo img.now × (at + 256 ≤ length img.now) }
    ensures { result ≡ mapped geo at img.now i.0 }
{
    let o = geo.order;
    match place_of(per_list(geo), i) {
        Place::Under { root, level, rest } => {
            resolve(img, geo, inode::read_address(img, o, at, root), level, rest)
        }
        Place::Past => Mapped::Past,
    }
}
