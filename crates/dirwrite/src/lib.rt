// dir.rs (dir_newlink, dir_unlink) and inode.rs (inode_copy_range): a directory's blocks written, moved and cut off.
#![tactic(auto)]

ghost use Rattle.std.specs.Prelude.{◌≡◌, ◌+◌, ◌-◌, ◌*◌, ◌≤◌, ◌<◌, length};
ghost use Rattle.field.specs.Field.{zeros};
ghost use Rattle.store.specs.Act.{leaves};
ghost use Rattle.frame.specs.Frame.{Frame};
ghost use Rattle.books.specs.Work.{or_damaged};
ghost use Rattle.truncate.specs.Call.{judged_work};
ghost use Rattle.inode_setblock.specs.Set.{InTable, written_out};
ghost use Rattle.dirwrite.specs.Write.{link_block, unlink_block, sole_block, link_grown, move_block, close_up, cut_to, drop_block, bump_found, free_found};

use dirblock::Entry;
use field::Order;
use inode_run::Spot;
use refusal::Refusal;
use volume::{Geometry, InodeNum};

// Block k with the name linked into it. A block with no room is written as it was: the search went before.
pub fn link_block(
    img: &mut [u8],
    geo: Geometry,
    at: usize,
    size: u64,
    k: u64,
    inr: u32,
    kind: u8,
    name: &[u8],
) -> Result<(), Refusal>
    requires { Frame geo img.old × (at + 256 ≤ length img.old) × InTable geo at × (k * 512 + 512 ≤ size) × (length name.now < 256) }
    ensures { (img.new, written_out result) ≡ leaves (link_block geo at size k inr kind name.now) img.old }
{
    let o = geo.order;
    let mut block = [0u8; 512];
    dirfile::read_block(img, geo, at, size, k, &mut block)?;
    let _ = dirblock_link::link_in(o, &mut block, inr, kind, name);
    inode_write::write_at(img, geo, at, size, k * 512, &block)
}

// Block k with the name unlinked from it.
pub fn unlink_block(
    img: &mut [u8],
    geo: Geometry,
    at: usize,
    size: u64,
    k: u64,
    name: &[u8],
) -> Result<(), Refusal>
    requires { Frame geo img.old × (at + 256 ≤ length img.old) × InTable geo at × (k * 512 + 512 ≤ size) }
    ensures { (img.new, written_out result) ≡ leaves (unlink_block geo at size k name.now) img.old }
{
    let o = geo.order;
    let mut block = [0u8; 512];
    dirfile::read_block(img, geo, at, size, k, &mut block)?;
    let _ = dirblock_link::unlink_in(o, &mut block, name);
    inode_write::write_at(img, geo, at, size, k * 512, &block)
}

// A record that fills a block.
fn sole_block(o: Order, block: &mut [u8], inr: u32, kind: u8, name: &[u8])
    requires { (block.old ≡ zeros 512) × (length name.now < 256) }
    ensures { block.new ≡ sole_block o inr kind name.now }
{
    let e = Entry {
        inr,
        reclen: 512,
        kind,
        namelen: name.len() as u8,
    };
    dirblock_write::put_rec(o, block, 0, e, name);
}

// inode_truncate in the work, of an inode that is found: what it refuses is damage.
fn resize(img: &mut [u8], geo: Geometry, s: Spot, new: u64) -> Result<(), Refusal>
    requires { Frame geo img.old × (s.at + 256 ≤ length img.old) }
    ensures { (img.new, written_out result) ≡ leaves (or_damaged (judged_work geo s.at s.shape new)) img.old }
{
    truncate::truncate_found(img, geo, s.at, s.shape, new).map_err(|_| Refusal::Damaged)
}

// The directory grows by one block, which the new record fills.
pub fn link_grown(
    img: &mut [u8],
    geo: Geometry,
    s: Spot,
    inr: u32,
    kind: u8,
    name: &[u8],
) -> Result<(), Refusal>
    requires { Frame geo img.old × (s.at + 256 ≤ length img.old) × InTable geo s.at × (s.shape.size + 1024 ≤ 18446744073709551616) × (length name.now < 256) }
    ensures { (img.new, written_out result) ≡ leaves (link_grown geo s inr kind name.now) img.old }
{
    let o = geo.order;
    let size = s.shape.size;
    resize(img, geo, s, size + 512)?;
    let mut block = [0u8; 512];
    sole_block(o, &mut block, inr, kind, name);
    inode_write::write_at(img, geo, s.at, size + 512, size, &block)
}

// Block q goes to the place before it.
fn move_block(img: &mut [u8], geo: Geometry, at: usize, size: u64, q: u64) -> Result<(), Refusal>
    requires { Frame geo img.old × (at + 256 ≤ length img.old) × InTable geo at × (0 < q) × (q * 512 + 512 ≤ size) }
    ensures { (img.new, written_out result) ≡ leaves (move_block geo at size q) img.old }
{
    let mut block = [0u8; 512];
    dirfile::read_block(img, geo, at, size, q, &mut block)?;
    inode_write::write_at(img, geo, at, size, (q - 1) * 512, &block)
}

// inode_copy_range: all blocks behind block k, upward.
fn close_up(img: &mut [u8], geo: Geometry, at: usize, size: u64, k: u64) -> Result<(), Refusal>
    requires { Frame geo img.old × (at + 256 ≤ length img.old) × InTable geo at × (k * 512 + 512 ≤ size) }
    ensures { (img.new, written_out result) ≡ leaves (close_up geo at size k) img.old }
{
    let n = size / 512;
    for q in k + 1..n {
        move_block(img, geo, at, size, q)?;
    }
    Ok(())
}

// inode_truncate in the work: the inode is read again.
pub fn cut_to(img: &mut [u8], geo: Geometry, inr: InodeNum, new: u64) -> Result<(), Refusal>
    requires { Frame geo img.old }
    ensures { (img.new, written_out result) ≡ leaves (cut_to geo inr.0 new) img.old }
{
    let Ok(s) = inode_run::find_inode(img, geo, inr) else {
        return Err(Refusal::Damaged);
    };
    resize(img, geo, s, new)
}

// A block that goes: those behind it close up, and the directory is one block shorter.
pub fn drop_block(
    img: &mut [u8],
    geo: Geometry,
    inr: InodeNum,
    at: usize,
    size: u64,
    k: u64,
) -> Result<(), Refusal>
    requires { Frame geo img.old × (at + 256 ≤ length img.old) × InTable geo at × (k * 512 + 512 ≤ size) }
    ensures { (img.new, written_out result) ≡ leaves (drop_block geo inr.0 at size k) img.old }
{
    close_up(img, geo, at, size, k)?;
    cut_to(img, geo, inr, size - 512)
}

// inode_bump of an inode that is found again.
pub fn bump_found(img: &mut [u8], geo: Geometry, inr: InodeNum) -> Result<(), Refusal>
    requires { Frame geo img.old }
    ensures { (img.new, written_out result) ≡ leaves (bump_found geo inr.0) img.old }
{
    let Ok(_) = inode_run::find_inode(img, geo, inr) else {
        return Err(Refusal::Damaged);
    };
    ialloc_give::inode_bump(img, geo, inr)
}

// inode_free of an inode that is found again.
pub fn free_found(img: &mut [u8], geo: Geometry, inr: InodeNum) -> Result<(), Refusal>
    requires { Frame geo img.old }
    ensures { (img.new, written_out result) ≡ leaves (free_found geo inr.0) img.old }
{
    let Ok(_) = inode_run::find_inode(img, geo, inr) else {
        return Err(Refusal::Damaged);
    };
    ialloc_free::inode_free(img, geo, inr)
}
