// ialloc.rs (inode_alloc, inode_setup, inode_bump), inode.rs (Inode::new): an inode is given out, and one more link is counted.
#![tactic(auto)]

ghost use Rattle.std.specs.Prelude.{◌≡◌, ◌+◌, ◌*◌, ◌/◌, ◌<◌, ◌≤◌, [], ◌∷◌, length};
ghost use Rattle.store.specs.Store.{apply};
ghost use Rattle.store.specs.Act.{got, leaves};
ghost use Rattle.bits.specs.Upto.{as_bit};
ghost use Rattle.sound.specs.Sound.{used_at};
ghost use Rattle.frame.specs.Frame.{Frame};
ghost use Rattle.ialloc_give.specs.Marks.{used_write, counted, count_inode};
ghost use Rattle.ialloc_give.specs.Choose.{in_group, chosen};
ghost use Rattle.ialloc_give.specs.Give.{new_inode, with_link, set_up, give_at, give_inode, bump, new_out, stored_out};

use inode::{Inode, InodeType, Times};
use refusal::Refusal;
use volume::{Count, Geometry, InodeNum};

// Where group g's inode map begins.
pub fn used_at(img: &[u8], geo: Geometry, g: u32) -> usize
    requires { Frame geo img.now × (g < geo.ncg) }
    ensures { (result ≡ used_at geo g img.now) × (result + geo.ipg / 8 ≤ length img.now) }
{
    let r = frame::group_at(img, geo, g);
    frame::cg_addr(img, geo, g) + r.iusedoff as usize
}

// The lowest clear bit of group g, if the group counts a free inode.
fn inode_in_group(img: &[u8], geo: Geometry, g: u32) -> Option<usize>
    requires { Frame geo img.now × (g < geo.ncg) }
    ensures { result ≡ in_group geo img.now g }
{
    let n = frame::group_count(img, geo, g, Count::Nifree);
    if (0 < n) & (n < 2147483648) {
        let at = used_at(img, geo, g);
        return bits_find::first_clear_bit(img, at, geo.ipg as usize);
    }
    None
}

// The first group that counts an inode and has one, and its lowest clear bit.
pub fn inode_choose(img: &[u8], geo: Geometry) -> Option<(u32, usize)>
    requires { Frame geo img.now }
    ensures { result ≡ chosen geo img.now }
{
    for g in 0..geo.ncg {
        if let Some(k) = inode_in_group(img, geo, g) {
            return Some((g, k));
        }
    }
    None
}

// The bit of inode k of group g, made used or not.
pub fn mark_used(img: &mut [u8], geo: Geometry, g: u32, k: usize, used: bool)
    requires { Frame geo img.old × (g < geo.ncg) × (k < geo.ipg) }
    ensures { img.new ≡ apply (used_write (as_bit used) geo g k img.old ∷ []) img.old }
{
    let at = used_at(img, geo, g);
    bits::setfrag(img, at, k, used);
}

// A group's count once an inode is freed, or given out.
fn count_after(n: u32, freed: bool) -> u32
    ensures { result ≡ counted freed 4 n }
{
    if freed {
        std::num::wrapping_add_u32(n, 1)
    } else {
        std::num::wrapping_add_u32(n, 4294967295)
    }
}

// The same of a total.
fn total_after(n: u64, freed: bool) -> u64
    ensures { result ≡ counted freed 8 n }
{
    if freed {
        std::num::wrapping_add_u64(n, 1)
    } else {
        std::num::wrapping_add_u64(n, 18446744073709551615)
    }
}

// An inode of group g more or less, in the group's count and in the total.
pub fn count_inode(img: &mut [u8], geo: Geometry, g: u32, freed: bool)
    requires { Frame geo img.old × (g < geo.ncg) }
    ensures { (img.new, got tt) ≡ leaves (count_inode freed geo g) img.old }
{
    let n = frame::group_count(img, geo, g, Count::Nifree);
    frame::put_count_if(img, true, geo, g, Count::Nifree, count_after(n, freed));
    let o = geo.order;
    let t = volume::read_total(img, o, Count::Nifree);
    frame::put_total_if(img, true, geo, Count::Nifree, total_after(t, freed));
}

// Inode::new: the record of an inode that is to be given out; its link and its generation come when it is.
pub fn new_inode(
    geo: Geometry,
    kind: InodeType,
    perm: u16,
    uid: u32,
    gid: u32,
    times: Times,
) -> Inode
    ensures { result ≡ new_inode geo kind perm uid gid times }
{
    Inode {
        mode: inode::type_number(kind) as u16 * 4096 + perm % 4096,
        nlink: 0,
        uid,
        gid,
        blksize: geo.bsize,
        size: 0,
        blocks: 0,
        times,
        generation: 0,
        kernflags: 0,
        flags: 0,
        extsize: 0,
        extb: [0; 2],
        direct: [0; 12],
        indirect: [0; 3],
        modrev: 0,
        ignored: 0,
        ckhash: 0,
        spare: [0; 2],
    }
}

// The record with one link, and the generation n.
fn with_link(new: Inode, n: u32) -> Inode
    ensures { result ≡ with_link n new }
{
    Inode {
        nlink: 1,
        generation: n,
        ..new
    }
}

// inode_setup: the record of an inode that is given out.
pub fn inode_setup(img: &mut [u8], geo: Geometry, inr: InodeNum, new: Inode) -> Result<(), Refusal>
    requires { Frame geo img.old × (inr.0 < geo.ncg * geo.ipg) }
    ensures { (img.new, stored_out result) ≡ leaves (set_up geo new inr.0) img.old }
{
    let at = frame::inode_spot(img, geo, inr);
    let o = geo.order;
    if inode::read_nlink(img, o, at) != 0 {
        return Err(Refusal::LinkedInode);
    }
    let old = inode::read_generation(img, o, at);
    if old == 4294967295 {
        return Err(Refusal::Damaged);
    }
    inode_record::write_inode(img, o, at, with_link(new, old + 1));
    Ok(())
}

// Inode k of group g given out.
fn give_at(img: &mut [u8], geo: Geometry, g: u32, k: usize, new: Inode) -> Result<InodeNum, Refusal>
    requires { Frame geo img.old × (g < geo.ncg) × (k < geo.ipg) }
    ensures { (img.new, new_out result) ≡ leaves (give_at geo new g k) img.old }
{
    mark_used(img, geo, g, k, true);
    let i = (volume::product(g, geo.ipg) + k) as u32;
    inode_setup(img, geo, InodeNum(i), new)?;
    count_inode(img, geo, g, false);
    Ok(InodeNum(i))
}

// inode_alloc: an inode given out, with the record `new`.
pub fn inode_alloc(img: &mut [u8], geo: Geometry, new: Inode) -> Result<InodeNum, Refusal>
    requires { Frame geo img.old }
    ensures { (img.new, new_out result) ≡ leaves (give_inode geo new) img.old }
{
    let (g, k) = inode_choose(img, geo).ok_or(Refusal::NoSpace)?;
    give_at(img, geo, g, k, new)
}

// inode_bump: one link more.
pub fn inode_bump(img: &mut [u8], geo: Geometry, inr: InodeNum) -> Result<(), Refusal>
    requires { Frame geo img.old × (inr.0 < geo.ncg * geo.ipg) }
    ensures { (img.new, stored_out result) ≡ leaves (bump geo inr.0) img.old }
{
    let at = frame::inode_spot(img, geo, inr);
    let o = geo.order;
    let n = inode::read_nlink(img, o, at);
    if n == 65535 {
        return Err(Refusal::Damaged);
    }
    inode::put_nlink(img, o, at, n + 1);
    Ok(())
}
