// ialloc.rs (inode_shrink, inode_truncate): the blocks past a file's new end given back, and its record stored.
#![tactic(auto)]

ghost use Rattle.std.specs.Prelude.{◌≡◌, ◌+◌, ◌-◌, ◌*◌, ◌≤◌, ◌<◌, length, [], ◌∷◌};
ghost use Rattle.store.specs.Store.{apply};
ghost use Rattle.store.specs.Act.{leaves};
ghost use Rattle.sound.specs.Test.{Sized};
ghost use Rattle.frame.specs.Frame.{Frame};
ghost use Rattle.mapping.specs.Zones.{zone_start};
ghost use Rattle.mapping.specs.Mapping.{per_list};
ghost use Rattle.ialloc_tree.specs.Tree.{freed_out};
ghost use Rattle.inode_truncate.specs.Truncate.{keep_of, shrink_direct, shrink_low, shrink_mid, shrink, first_gone, shrunk_store, truncate_work, truncated_out};

use inode::Shape;
use refusal::Refusal;
use volume::{BlockIdx, Geometry};

// How many blocks a file of that size keeps.
pub fn keep_of(geo: Geometry, size: u64) -> u64
    requires { Sized geo }
    ensures { result ≡ keep_of geo size }
{
    let e = inode::size_in(geo, size);
    if 0 < e.frags { e.blocks + 1 } else { e.blocks }
}

// The direct addresses of the record at `at`, from keep on: the units of 512 bytes that stay.
fn shrink_direct(
    img: &mut [u8],
    geo: Geometry,
    at: usize,
    s: Shape,
    keep: u64,
    held: u64,
) -> Result<u64, Refusal>
    requires { Frame geo img.old × (at + 256 ≤ length img.old) }
    ensures { (img.new, freed_out result) ≡ leaves (shrink_direct geo at s keep held) img.old }
{
    let o = geo.order;
    let mut left = held;
    for i in keep..12 {
        let a = inode::read_address(img, o, at, i);
        left = ialloc_tree::free_address(img, geo, s, 0, a, BlockIdx(i), left)?;
    }
    Ok(left)
}

// The list of the first zone freed whole, and then direct addresses.
fn shrink_small(
    img: &mut [u8],
    geo: Geometry,
    at: usize,
    s: Shape,
    keep: u64,
    held: u64,
) -> Result<u64, Refusal>
    requires { Frame geo img.old × (at + 256 ≤ length img.old) × (keep < 12) }
    ensures { (img.new, freed_out result) ≡ leaves (shrink_low geo at s keep held) img.old }
{
    let o = geo.order;
    let a = inode::read_address(img, o, at, 12);
    let n = ialloc_tree::free_address(img, geo, s, 1, a, BlockIdx(0), held)?;
    shrink_direct(img, geo, at, s, keep, n)
}

// The first zone and what lies below it.
fn shrink_low(
    img: &mut [u8],
    geo: Geometry,
    at: usize,
    s: Shape,
    keep: u64,
    held: u64,
) -> Result<u64, Refusal>
    requires { Frame geo img.old × (at + 256 ≤ length img.old) × (keep < zone_start (per_list geo) 2) }
    ensures { (img.new, freed_out result) ≡ leaves (shrink_low geo at s keep held) img.old }
{
    if keep < 12 {
        return shrink_small(img, geo, at, s, keep, held);
    }
    let o = geo.order;
    let a = inode::read_address(img, o, at, 12);
    inode_shrink::shrink_list(img, geo, s, a, 12, keep - 12, held)
}

// The lists of the second zone freed whole, and then what lies below it.
fn shrink_below(
    img: &mut [u8],
    geo: Geometry,
    at: usize,
    s: Shape,
    keep: u64,
    held: u64,
) -> Result<u64, Refusal>
    requires { Frame geo img.old × (at + 256 ≤ length img.old) × (keep < zone_start (per_list geo) 2) }
    ensures { (img.new, freed_out result) ≡ leaves (shrink_mid geo at s keep held) img.old }
{
    let o = geo.order;
    let a = inode::read_address(img, o, at, 13);
    let n = ialloc_tree::free_address(img, geo, s, 2, a, BlockIdx(0), held)?;
    shrink_low(img, geo, at, s, keep, n)
}

// The second zone and what lies below it.
fn shrink_mid(
    img: &mut [u8],
    geo: Geometry,
    at: usize,
    s: Shape,
    keep: u64,
    held: u64,
) -> Result<u64, Refusal>
    requires { Frame geo img.old × (at + 256 ≤ length img.old) × (keep < zone_start (per_list geo) 3) }
    ensures { (img.new, freed_out result) ≡ leaves (shrink_mid geo at s keep held) img.old }
{
    let second = 12 + mapping::span_of(geo, 1);
    if keep < second {
        return shrink_below(img, geo, at, s, keep, held);
    }
    let o = geo.order;
    let a = inode::read_address(img, o, at, 13);
    inode_shrink::shrink_lists(img, geo, s, a, second, keep - second, held)
}

// inode_shrink: the blocks past the first `keep`.
pub fn shrink(img: &mut [u8], geo: Geometry, at: usize, s: Shape, keep: u64) -> Result<u64, Refusal>
    requires { Frame geo img.old × (at + 256 ≤ length img.old) × (keep < zone_start (per_list geo) 3) }
    ensures { (img.new, freed_out result) ≡ leaves (shrink geo at s keep) img.old }
{
    let o = geo.order;
    let a = inode::read_address(img, o, at, 14);
    let n = ialloc_tree::free_address(img, geo, s, 3, a, BlockIdx(0), s.blocks)?;
    shrink_mid(img, geo, at, s, keep, n)
}

// The first of the 15 addresses that leads nowhere any more.
fn first_gone(geo: Geometry, keep: u64) -> u64
    requires { geo.bsize ≤ 65536 }
    ensures { (result ≡ first_gone geo keep) × (result ≤ 14) }
{
    if keep < 12 {
        return keep;
    }
    if keep < 12 + mapping::span_of(geo, 1) {
        return 13;
    }
    14
}

// Size, blocks and addresses of the record at `at`, once the blocks past the new end are given back.
fn put_shrunk(img: &mut [u8], geo: Geometry, at: usize, new: u64, held: u64)
    requires { Frame geo img.old × (at + 256 ≤ length img.old) }
    ensures { img.new ≡ apply (shrunk_store geo at new held) img.old }
{
    let o = geo.order;
    let k = first_gone(geo, keep_of(geo, new));
    inode::put_size(img, o, at, new);
    inode::put_blocks(img, o, at, held);
    field::zero_bytes(img, at + 112 + k as usize * 8, (15 - k) as usize * 8);
}

// inode_truncate, for calls that have judged it.
pub fn truncate_work(
    img: &mut [u8],
    geo: Geometry,
    at: usize,
    s: Shape,
    new: u64,
) -> Result<(), Refusal>
    requires { Frame geo img.old × (at + 256 ≤ length img.old) × (new < s.size → keep_of geo new < zone_start (per_list geo) 3) }
    ensures { (img.new, truncated_out result) ≡ leaves (truncate_work geo at s new) img.old }
{
    if new < s.size {
        let n = shrink(img, geo, at, s, keep_of(geo, new))?;
        put_shrunk(img, geo, at, new, n);
        return Ok(());
    }
    let o = geo.order;
    inode::put_size(img, o, at, new);
    Ok(())
}
