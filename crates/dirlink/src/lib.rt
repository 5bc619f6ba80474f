// dir.rs: dir_newlink and dir_unlink, a name linked into a directory and one unlinked from it.
#![tactic(auto)]

ghost use Rattle.std.specs.Prelude.{◌≡◌, ◌+◌, ◌*◌, ◌≤◌, ◌<◌, length};
ghost use Rattle.store.specs.Act.{leaves};
ghost use Rattle.frame.specs.Frame.{Frame};
ghost use Rattle.inode_setblock.specs.Set.{InTable, written_out};
ghost use Rattle.dirlink.specs.Link.{link_into, link_name, take_hit, unlink_hit, unlink_from, unlink_name, gone_out};

use dirwalk::Hit;
use inode_run::Spot;
use refusal::Refusal;
use volume::{Geometry, InodeNum};

// The name goes into the first block with room; where none has, into a new one.
fn link_into(
    img: &mut [u8],
    geo: Geometry,
    s: Spot,
    inr: u32,
    kind: u8,
    name: &[u8],
) -> Result<(), Refusal>
    requires { Frame geo img.old × (s.at + 256 ≤ length img.old) × InTable geo s.at × (length name.now < 256) }
    ensures { (img.new, written_out result) ≡ leaves (link_into geo s inr kind name.now) img.old }
{
    let at = s.at;
    let shape = s.shape;
    let size = shape.size;
    if let Some(k) = dirwalk::room_dir(img, geo, at, size, name.len() as u8)? {
        return dirwrite::link_block(img, geo, at, size, k, inr, kind, name);
    }
    if inode_grow::zones_bytes(geo) < size {
        return Err(Refusal::Damaged);
    }
    dirwrite::link_grown(img, geo, s, inr, kind, name)
}

// dir_newlink: the inode gets the name in the directory.
pub fn link_name(
    img: &mut [u8],
    geo: Geometry,
    dinr: InodeNum,
    inr: u32,
    kind: u8,
    name: &[u8],
) -> Result<(), Refusal>
    requires { Frame geo img.old × (length name.now < 256) }
    ensures { (img.new, written_out result) ≡ leaves (link_name geo dinr.0 inr kind name.now) img.old }
{
    let Ok(s) = dirfile::find_dir(img, geo, dinr) else {
        return Err(Refusal::Damaged);
    };
    link_into(img, geo, s, inr, kind, name)
}

// The record that was found goes, and with it its block where it stands alone.
fn take_hit(
    img: &mut [u8],
    geo: Geometry,
    dinr: InodeNum,
    s: Spot,
    name: &[u8],
    h: Hit,
) -> Result<(), Refusal>
    requires { Frame geo img.old × (s.at + 256 ≤ length img.old) × InTable geo s.at × (h.block * 512 + 512 ≤ s.shape.size) }
    ensures { (img.new, written_out result) ≡ leaves (take_hit geo dinr.0 s name.now h) img.old }
{
    let at = s.at;
    let shape = s.shape;
    let size = shape.size;
    if h.alone {
        return dirwrite::drop_block(img, geo, dinr, at, size, h.block);
    }
    dirwrite::unlink_block(img, geo, at, size, h.block, name)
}

// The answer is the inode of the record that went.
fn unlink_hit(
    img: &mut [u8],
    geo: Geometry,
    dinr: InodeNum,
    s: Spot,
    name: &[u8],
    h: Hit,
) -> Result<u32, Refusal>
    requires { Frame geo img.old × (s.at + 256 ≤ length img.old) × InTable geo s.at × (h.block * 512 + 512 ≤ s.shape.size) }
    ensures { (img.new, gone_out result) ≡ leaves (unlink_hit geo dinr.0 s name.now h) img.old }
{
    take_hit(img, geo, dinr, s, name, h)?;
    Ok(h.inr)
}

fn unlink_from(
    img: &mut [u8],
    geo: Geometry,
    dinr: InodeNum,
    s: Spot,
    name: &[u8],
) -> Result<u32, Refusal>
    requires { Frame geo img.old × (s.at + 256 ≤ length img.old) × InTable geo s.at }
    ensures { (img.new, gone_out result) ≡ leaves (unlink_from geo dinr.0 s name.now) img.old }
{
    let shape = s.shape;
    let Some(h) = dirwalk::find_dir(img, geo, s.at, shape.size, name)? else {
        return Err(Refusal::Damaged);
    };
    unlink_hit(img, geo, dinr, s, name, h)
}

// dir_unlink: the directory loses the name.
pub fn unlink_name(
    img: &mut [u8],
    geo: Geometry,
    dinr: InodeNum,
    name: &[u8],
) -> Result<u32, Refusal>
    requires { Frame geo img.old }
    ensures { (img.new, gone_out result) ≡ leaves (unlink_name geo dinr.0 name.now) img.old }
{
    let Ok(s) = dirfile::find_dir(img, geo, dinr) else {
        return Err(Refusal::Damaged);
    };
    unlink_from(img, geo, dinr, s, name)
}
