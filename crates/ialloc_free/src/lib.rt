// ialloc.rs (inode_free): an inode loses a link, and is freed with its last one.
#![tactic(auto)]

ghost use Rattle.std.specs.Prelude.{◌≡◌, ◌-◌, ◌*◌, ◌/◌, ◌%◌, ◌≤◌, ◌<◌, length};
ghost use Rattle.store.specs.Act.{leaves};
ghost use Rattle.frame.specs.Frame.{Frame};
ghost use Rattle.ialloc_free.specs.Free.{clear_used, free_addresses, free_data, free_unlinked, free_inode, unlinked_out};

use inode::Shape;
use refusal::Refusal;
use volume::{BlockIdx, Geometry, InodeNum};

// The bit of inode k of group g made clear.
fn clear_used(img: &mut [u8], geo: Geometry, g: u32, k: usize) -> Result<(), Refusal>
    requires { Frame geo img.old × (g < geo.ncg) × (k < geo.ipg) }
    ensures { (img.new, unlinked_out result) ≡ leaves (clear_used geo g k) img.old }
{
    let at = ialloc_give::used_at(img, geo, g);
    if bits::isfreefrag(img, at, k) {
        ialloc_give::mark_used(img, geo, g, k, false);
        return Ok(());
    }
    Err(Refusal::Damaged)
}

// How many lists the k-th address leads down.
fn lists_of(k: u64) -> u32
    requires { k < 15 }
    ensures { result ≡ k - 11 }
{
    k.saturating_sub(11) as u32
}

// The 15 addresses of the record, one after another.
fn free_addresses(img: &mut [u8], geo: Geometry, s: Shape, rec: &[u8]) -> Result<(), Refusal>
    requires { Frame geo img.old × (256 ≤ length rec.now) }
    ensures { (img.new, unlinked_out result) ≡ leaves (free_addresses geo s rec.now) img.old }
{
    let o = geo.order;
    let mut held = s.blocks;
    for k in 0..15 {
        let a = inode::read_address(rec, o, 0, k);
        held = ialloc_tree::free_address(img, geo, s, lists_of(k), a, BlockIdx(k), held)?;
    }
    Ok(())
}

// What the record leads to.
fn free_data(img: &mut [u8], geo: Geometry, rec: &[u8]) -> Result<(), Refusal>
    requires { Frame geo img.old × (256 ≤ length rec.now) }
    ensures { (img.new, unlinked_out result) ≡ leaves (free_data geo rec.now) img.old }
{
    let o = geo.order;
    let s = inode::read_shape(rec, o, 0);
    if inode::is_in_place(s) {
        return Ok(());
    }
    free_addresses(img, geo, s, rec)
}

// The inode that no link leads to any more; rec is its record as it was.
fn free_unlinked(img: &mut [u8], geo: Geometry, inr: InodeNum, rec: &[u8]) -> Result<(), Refusal>
    requires { Frame geo img.old × (0 < inr.0) × (inr.0 < geo.ncg * geo.ipg) × (256 ≤ length rec.now) }
    ensures { (img.new, unlinked_out result) ≡ leaves (free_unlinked geo inr.0 rec.now) img.old }
{
    let at = frame::inode_spot(img, geo, inr);
    field::zero_bytes(img, at, 256);
    let g = volume::ino_to_cg(geo, inr);
    let i = inr.0;
    let ipg = geo.ipg;
    clear_used(img, geo, g, (i % ipg) as usize)?;
    ialloc_give::count_inode(img, geo, g, true);
    free_data(img, geo, rec)
}

// inode_free: one link fewer.
pub fn inode_free(img: &mut [u8], geo: Geometry, inr: InodeNum) -> Result<(), Refusal>
    requires { Frame geo img.old × (0 < inr.0) × (inr.0 < geo.ncg * geo.ipg) }
    ensures { (img.new, unlinked_out result) ≡ leaves (free_inode geo inr.0) img.old }
{
    let at = frame::inode_spot(img, geo, inr);
    let o = geo.order;
    let n = inode::read_nlink(img, o, at);
    if n == 0 {
        return Err(Refusal::Damaged);
    }
    let mut rec = [0u8; 256];
    field::copy_bytes(&mut rec, 0, img, at, 256);
    inode::put_nlink(img, o, at, n - 1);
    if n == 1 {
        return free_unlinked(img, geo, inr, &rec);
    }
    Ok(())
}
