// What unlink is judged by, before any store.
#![tactic(auto)]

ghost use Rattle.std.specs.Prelude.{◌≡◌, ◌+◌, ◌*◌, ◌≤◌, ◌<◌, length};
ghost use Rattle.frame.specs.Frame.{Frame};
ghost use Rattle.inode_grow.specs.Grow.{growth_out};
ghost use Rattle.stages.specs.Stages.{in_order, both_out};
ghost use Rattle.dirwalk.specs.Walk.{find_dir};
ghost use Rattle.dirjudge.specs.Judge.{drop_end, drop_tail};
ghost use Rattle.unlink_judge.specs.Unlink.{found_ok, fall_out, left_of, unlink_stages};

use dirwalk::Hit;
use inode_run::Spot;
use refusal::Refusal;
use volume::{Geometry, InodeNum};

// Whether an inode that a record names is one of the volume's and has a type.
pub fn found_ok(img: &[u8], geo: Geometry, inr: u32) -> bool
    requires { Frame geo img.now }
    ensures { result ≡ found_ok geo img.now inr }
{
    inode_run::find_inode(img, geo, InodeNum(inr)).is_ok()
}

// Whether its link count can fall.
pub fn can_fall(img: &[u8], geo: Geometry, inr: u32) -> Result<(), Refusal>
    requires { Frame geo img.now × (inr < geo.ncg * geo.ipg) }
    ensures { growth_out result ≡ fall_out geo img.now inr }
{
    let o = geo.order;
    let at = frame::inode_spot(img, geo, InodeNum(inr));
    if inode::read_nlink(img, o, at) == 0 {
        return Err(Refusal::Damaged);
    }
    Ok(())
}

// The record that was found: its inode's count, then 27 and 45.
fn judge_hit(img: &[u8], geo: Geometry, size: u64, h: Hit) -> Result<(), Refusal>
    requires { Frame geo img.now × (h.inr < geo.ncg * geo.ipg) × (512 ≤ size) }
    ensures { growth_out result ≡ both_out (fall_out geo img.now h.inr) (both_out (drop_end geo size h) (drop_tail geo size h)) }
{
    can_fall(img, geo, h.inr)?;
    dirjudge::judge_drop(geo, size, h)
}

// The name sought in the directory, and its inode, which is judged before the directory's kind could be: 22 before 20, and both before 2.
fn judge_in(img: &[u8], geo: Geometry, s: Spot, name: &[u8]) -> Result<(), Refusal>
    requires { Frame geo img.now × (s.at + 256 ≤ length img.now) }
    ensures { growth_out result ≡ left_of geo img.now s.shape.size (find_dir geo s.at s.shape.size img.now name.now) }
{
    let shape = s.shape;
    // Not a `?`, so that a must-fail edit can change what is answered here.
    let found = match dirwalk::find_dir(img, geo, s.at, shape.size, name) {
        Ok(found) => found,
        Err(_) => return Err(Refusal::Damaged), // what is behind it may have the name
    };
    let Some(h) = found else {
        return Err(Refusal::NoEntry);
    };
    if !found_ok(img, geo, h.inr) {
        return Err(Refusal::Invalid);
    }
    judge_hit(img, geo, shape.size, h)
}

// All tests of unlink.
pub fn judge_unlink(img: &[u8], geo: Geometry, dinr: InodeNum, name: &[u8]) -> Result<(), Refusal>
    requires { Frame geo img.now }
    ensures { growth_out result ≡ in_order (unlink_stages geo img.now dinr.0 name.now) }
{
    if !dirnames::is_taken(name, false) {
        return Err(Refusal::Invalid);
    }
    if !dirnames::is_short(name) {
        return Err(Refusal::NameTooLong);
    }
    let s = dirfile::find_dir(img, geo, dinr)?;
    judge_in(img, geo, s, name)
}
