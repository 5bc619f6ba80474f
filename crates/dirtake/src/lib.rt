// dir.rs: unlink's work, a name taken away and with its last name the inode; rename and rmdir take names away too.
#![tactic(auto)]

ghost use Rattle.std.specs.Prelude.{◌≡◌};
ghost use Rattle.store.specs.Act.{leaves};
ghost use Rattle.frame.specs.Frame.{Frame};
ghost use Rattle.inode_setblock.specs.Set.{written_out};
ghost use Rattle.dirtake.specs.Take.{take_name};

use refusal::Refusal;
use volume::{Geometry, InodeNum};

// The name goes, then its inode loses a link.
pub fn take_name(img: &mut [u8], geo: Geometry, dinr: InodeNum, name: &[u8]) -> Result<(), Refusal>
    requires { Frame geo img.old }
    ensures { (img.new, written_out result) ≡ leaves (take_name geo dinr.0 name.now) img.old }
{
    // Not a `?`, so that a must-fail edit can change what is answered here.
    match dirlink::unlink_name(img, geo, dinr, name) {
        Ok(i) => dirwrite::free_found(img, geo, InodeNum(i)),
        Err(e) => Err(e),
    }
}
