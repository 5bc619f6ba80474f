// dir.rs: rmdir.
#![tactic(auto)]

ghost use Rattle.std.specs.Prelude.{◌≡◌};
ghost use Rattle.store.specs.Act.{leaves};
ghost use Rattle.frame.specs.Frame.{Frame};
ghost use Rattle.inode_setblock.specs.Set.{written_out};
ghost use Rattle.rmdir.specs.Rmdir.{own_gone, emptied, remove_dir, rmdir_for, rmdir_call};

use refusal::Refusal;
use volume::{Geometry, InodeNum, Volume};

// "." goes with a link, then the directory's own link.
fn take_own(img: &mut [u8], geo: Geometry, inr: u32) -> Result<(), Refusal>
    requires { Frame geo img.old }
    ensures { (img.new, written_out result) ≡ leaves (own_gone geo inr) img.old }
{
    dirtake::take_name(img, geo, InodeNum(inr), b".")?;
    dirwrite::free_found(img, geo, InodeNum(inr))
}

// ".." goes first, with a link of its parent's.
fn empty_out(img: &mut [u8], geo: Geometry, inr: u32) -> Result<(), Refusal>
    requires { Frame geo img.old }
    ensures { (img.new, written_out result) ≡ leaves (emptied geo inr) img.old }
{
    dirtake::take_name(img, geo, InodeNum(inr), b"..")?;
    take_own(img, geo, inr)
}

// And before both its name in its parent.
fn remove_dir(
    img: &mut [u8],
    geo: Geometry,
    dinr: InodeNum,
    name: &[u8],
    inr: u32,
) -> Result<(), Refusal>
    requires { Frame geo img.old }
    ensures { (img.new, written_out result) ≡ leaves (remove_dir geo dinr.0 name.now inr) img.old }
{
    dirlink::unlink_name(img, geo, dinr, name)?;
    empty_out(img, geo, inr)
}

fn rmdir_in(img: &mut [u8], geo: Geometry, dinr: InodeNum, name: &[u8]) -> Result<(), Refusal>
    requires { Frame geo img.old }
    ensures { (img.new, written_out result) ≡ leaves (rmdir_for dinr.0 name.now geo) img.old }
{
    // Not a `?`, so that a must-fail edit can change what is answered here.
    match rmdir_judge::judge_rmdir(img, geo, dinr, name) {
        Ok(i) => remove_dir(img, geo, dinr, name, i),
        Err(e) => Err(e),
    }
}

// rmdir: the empty directory of that name goes.
pub fn rmdir(img: &mut [u8], vol: Volume, dinr: InodeNum, name: &[u8]) -> Result<(), Refusal>
    ensures { (img.new, written_out result) ≡ leaves (rmdir_call vol dinr.0 name.now) img.old }
{
    // Not a `?`, so that a must-fail edit can change what is answered here.
    let Ok(geo) = sound::take_volume(img) else {
        return Err(Refusal::Damaged);
    };
    if !vol.writable {
        return Err(Refusal::ReadOnly);
    }
    rmdir_in(img, geo, dinr, name)
}
