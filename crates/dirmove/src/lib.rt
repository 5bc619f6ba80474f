// dir.rs: the work of rename.
#![tactic(auto)]

ghost use Rattle.std.specs.Prelude.{◌≡◌, ◌<◌, length};
ghost use Rattle.store.specs.Act.{leaves};
ghost use Rattle.frame.specs.Frame.{Frame};
ghost use Rattle.inode_setblock.specs.Set.{written_out};
ghost use Rattle.dirlink.specs.Link.{gone_out};
ghost use Rattle.dirmove.specs.Move.{clear_way, add_name, drop_name, relink, move_name};

use refusal::Refusal;
use volume::{Geometry, InodeNum};

// What has the new name goes, if something has.
fn clear_way(
    img: &mut [u8],
    geo: Geometry,
    dinr: InodeNum,
    name: &[u8],
    clears: bool,
) -> Result<(), Refusal>
    requires { Frame geo img.old }
    ensures { (img.new, written_out result) ≡ leaves (clear_way geo dinr.0 name.now clears) img.old }
{
    if clears {
        return dirtake::take_name(img, geo, dinr, name);
    }
    Ok(())
}

// The file gets a link more and its new name.
fn add_name(
    img: &mut [u8],
    geo: Geometry,
    dinr: InodeNum,
    name: &[u8],
    inr: u32,
    kind: u8,
) -> Result<(), Refusal>
    requires { Frame geo img.old × (length name.now < 256) }
    ensures { (img.new, written_out result) ≡ leaves (add_name geo dinr.0 name.now inr kind) img.old }
{
    dirwrite::bump_found(img, geo, InodeNum(inr))?;
    dirlink::link_name(img, geo, dinr, inr, kind, name)
}

// And loses its old one.
fn drop_name(
    img: &mut [u8],
    geo: Geometry,
    dinr: InodeNum,
    name: &[u8],
    inr: u32,
) -> Result<u32, Refusal>
    requires { Frame geo img.old }
    ensures { (img.new, gone_out result) ≡ leaves (drop_name geo dinr.0 name.now inr) img.old }
{
    dirtake::take_name(img, geo, dinr, name)?;
    Ok(inr)
}

fn relink(
    img: &mut [u8],
    geo: Geometry,
    ddinr: InodeNum,
    dname: &[u8],
    sdinr: InodeNum,
    sname: &[u8],
    inr: u32,
    kind: u8,
) -> Result<u32, Refusal>
    requires { Frame geo img.old × (length dname.now < 256) }
    ensures { (img.new, gone_out result) ≡ leaves (relink geo ddinr.0 dname.now sdinr.0 sname.now inr kind) img.old }
{
    add_name(img, geo, ddinr, dname, inr, kind)?;
    drop_name(img, geo, sdinr, sname, inr)
}

// rename's work: what stands in the way goes, the new name is linked, the old one goes.
pub fn move_name(
    img: &mut [u8],
    geo: Geometry,
    ddinr: InodeNum,
    dname: &[u8],
    sdinr: InodeNum,
    sname: &[u8],
    clears: bool,
    inr: u32,
    kind: u8,
) -> Result<u32, Refusal>
    requires { Frame geo img.old × (length dname.now < 256) }
    ensures { (img.new, gone_out result) ≡ leaves (move_name geo ddinr.0 dname.now sdinr.0 sname.now clears inr kind) img.old }
{
    clear_way(img, geo, ddinr, dname, clears)?;
    relink(img, geo, ddinr, dname, sdinr, sname, inr, kind)
}
