// ialloc.rs (inode_free_block, inode_free_l1, inode_free_l2, inode_free_l3): freeing a block, and a tree of lists.
#![tactic(auto)]

ghost use Rattle.std.specs.Prelude.{◌≡◌, true, ◌+◌, ◌-◌, ◌≤◌, ◌<◌};
ghost use Rattle.store.specs.Act.{leaves};
ghost use Rattle.frame.specs.Frame.{Frame};
ghost use Rattle.mapping.specs.Mapping.{list_ok};
ghost use Rattle.ialloc_tree.specs.Tree.{free_block, free_own, free_tree, free_list, freed_out};

use inode::Shape;
use refusal::Refusal;
use volume::{BlockIdx, FragNum, Geometry};

// inode_free_block: the block at an index of its file. Each of these answers the units of 512 bytes that the inode still holds.
pub fn free_block(
    img: &mut [u8],
    geo: Geometry,
    s: Shape,
    a: FragNum,
    i: BlockIdx,
    held: u64,
) -> Result<u64, Refusal>
    requires { Frame geo img.old }
    ensures { (img.new, freed_out result) ≡ leaves (free_block geo s a.0 i.0 held) img.old }
{
    if !inode::is_sized(s) {
        return Err(Refusal::Damaged);
    }
    let n = inode::get_block_size(geo, s.size, i).ok_or(Refusal::Damaged)?;
    balloc_back::blk_take(img, geo, a, n, u64::MAX).map_err(|_| Refusal::Damaged)?;
    Ok(held.saturating_sub(n / 512))
}

// The own block of a list whose addresses are freed.
pub fn free_own(img: &mut [u8], geo: Geometry, a: FragNum, held: u64) -> Result<u64, Refusal>
    requires { Frame geo img.old }
    ensures { (img.new, freed_out result) ≡ leaves (free_own geo a.0 held) img.old }
{
    balloc_back::blk_take(img, geo, a, geo.bsize as u64, u64::MAX).map_err(|_| Refusal::Damaged)?;
    Ok(held)
}

// What an address leads to, `level` lists down.
#[cycle(free_address_free_list)]
pub fn free_address(
    img: &mut [u8],
    geo: Geometry,
    s: Shape,
    level: u32,
    a: FragNum,
    place: BlockIdx,
    held: u64,
) -> Result<u64, Refusal>
    requires { Frame geo img.old }
    ensures { (img.new, freed_out result) ≡ leaves (free_tree geo s level a.0 place.0 held) img.old }
{
    if a.0 == 0 {
        return Ok(held);
    }
    if level == 0 {
        return free_block(img, geo, s, a, place, held);
    }
    if !frame::run_ok(img, geo, a, geo.frag as u64) {
        return Err(Refusal::Damaged);
    }
    free_list(img, geo, s, level, a, held)
}

// Each address of the list at a, one level lower, and then the list's own block.
#[cycle(free_address_free_list)]
pub fn free_list(
    img: &mut [u8],
    geo: Geometry,
    s: Shape,
    level: u32,
    a: FragNum,
    held: u64,
) -> Result<u64, Refusal>
    requires { Frame geo img.old × (list_ok geo img.old a.0 ≡ true) × (1 ≤ level) }
    ensures { (img.new, freed_out result) ≡ leaves (free_list geo s (level - 1) a.0 held) img.old }
{
    let per = mapping::per_list(geo);
    let mut left = held;
    for i in 0..per {
        let next = mapping::entry(img, geo, a, i);
        left = free_address(img, geo, s, level - 1, next, BlockIdx(i), left)?;
    }
    free_own(img, geo, a, left)
}
