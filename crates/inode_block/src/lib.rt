// inode.rs: the calls that ask where and how large the blocks of a file are.
#![tactic(auto)]

ghost use Rattle.std.specs.Prelude.{◌≡◌, ◌+◌, ◌≤◌, length, ltb};
ghost use Rattle.sound.specs.Test.{Sized};
ghost use Rattle.frame.specs.Frame.{Frame};
ghost use Rattle.mapping.specs.Zones.{zones_end};
ghost use Rattle.mapping.specs.Mapping.{per_list};
ghost use Rattle.inode_read.specs.Calls.{size_out, inode_get_block_size, size_answer, landing_out, resolve_out, inode_resolve_block, resolved_answer};

use inode::Shape;
use inode_run::{Run, Spot};
use refusal::Refusal;
use volume::{BlockIdx, FragNum, Geometry, InodeNum};

// How many bytes the block at an index of an inode of this shape holds.
fn size_of_block(geo: Geometry, s: Shape, i: BlockIdx) -> Result<u64, Refusal>
    requires { Sized geo }
    ensures { result ≡ size_answer (size_out geo s i.0) }
{
    if !inode::is_sized(s) {
        return Err(Refusal::Damaged);
    }
    // Not `ok_or`, so that a must-fail edit can change what is answered here.
    let Some(n) = inode::get_block_size(geo, s.size, i) else {
        return Err(Refusal::Invalid); // past the end
    };
    Ok(n)
}

// inode_get_block_size: how many bytes the block at an index holds.
pub fn inode_get_block_size(img: &[u8], inr: InodeNum, i: BlockIdx) -> Result<u64, Refusal>
    ensures { result ≡ size_answer (inode_get_block_size img.now inr.0 i.0) }
{
    let (geo, s) = inode_read::know_inode(img, inr)?;
    size_of_block(geo, s.shape, i)
}

// Whether an index lies in one of the zones.
fn in_zones(geo: Geometry, i: BlockIdx) -> bool
    requires { geo.bsize ≤ 65536 }
    ensures { result ≡ ltb i.0 (zones_end (per_list geo)) }
{
    let end = 12 + mapping::span_of(geo, 1) + mapping::span_of(geo, 2) + mapping::span_of(geo, 3);
    i.0 < end
}

// Where a block of the file lies.
fn land(img: &[u8], geo: Geometry, s: Spot, i: BlockIdx) -> Result<Option<FragNum>, Refusal>
    requires { Frame geo img.now × (s.at + 256 ≤ length img.now) }
    ensures { result ≡ resolved_answer (landing_out geo s img.now i.0) }
{
    if inode::is_in_place(s.shape) {
        return Err(Refusal::TextInInode);
    }
    let size = s.shape.size;
    match inode_run::run_of(img, geo, s.at, size, i) {
        Run::At(a, n) => Ok(Some(a)),
        Run::Hole(n) => Ok(None),
        Run::Past => Err(Refusal::Damaged),
        Run::Bad => Err(Refusal::Damaged),
    }
}

// Where the block at an index lies, if it is one of the file.
fn resolve_in(img: &[u8], geo: Geometry, s: Spot, i: BlockIdx) -> Result<Option<FragNum>, Refusal>
    requires { Frame geo img.now × (s.at + 256 ≤ length img.now) }
    ensures { result ≡ resolved_answer (resolve_out geo s img.now i.0) }
{
    if !in_zones(geo, i) {
        return Err(Refusal::Invalid);
    }
    let _n = size_of_block(geo, s.shape, i)?;
    land(img, geo, s, i)
}

// inode_resolve_block: the address of the block at an index, or a hole.
pub fn inode_resolve_block(
    img: &[u8],
    inr: InodeNum,
    i: BlockIdx,
) -> Result<Option<FragNum>, Refusal>
    ensures { result ≡ resolved_answer (inode_resolve_block img.now inr.0 i.0) }
{
    let (geo, s) = inode_read::know_inode(img, inr)?;
    resolve_in(img, geo, s, i)
}
