// dir.rs: unlink. Its inode may be a directory, as in the Rust.
#![tactic(auto)]

ghost use Rattle.std.specs.Prelude.{◌≡◌};
ghost use Rattle.store.specs.Act.{leaves};
ghost use Rattle.frame.specs.Frame.{Frame};
ghost use Rattle.inode_setblock.specs.Set.{written_out};
ghost use Rattle.unlink.specs.Unlink.{unlink_for, unlink_call};

use refusal::Refusal;
use volume::{Geometry, InodeNum, Volume};

fn unlink_in(img: &mut [u8], geo: Geometry, dinr: InodeNum, name: &[u8]) -> Result<(), Refusal>
    requires { Frame geo img.old }
    ensures { (img.new, written_out result) ≡ leaves (unlink_for dinr.0 name.now geo) img.old }
{
    // Not a `?`, so that a must-fail edit can change what is answered here.
    match unlink_judge::judge_unlink(img, geo, dinr, name) {
        Ok(()) => dirtake::take_name(img, geo, dinr, name),
        Err(e) => Err(e),
    }
}

// unlink: the name goes from the directory, and with its last name the inode.
pub fn unlink(img: &mut [u8], vol: Volume, dinr: InodeNum, name: &[u8]) -> Result<(), Refusal>
    ensures { (img.new, written_out result) ≡ leaves (unlink_call vol dinr.0 name.now) img.old }
{
    let geo = sound::take_volume(img)?;
    if !vol.writable {
        return Err(Refusal::ReadOnly);
    }
    unlink_in(img, geo, dinr, name)
}
