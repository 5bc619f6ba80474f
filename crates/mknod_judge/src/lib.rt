// What mknod and mkdir are judged by, before any store. The Rust never looked whether the name was taken.
#![tactic(auto)]

ghost use Rattle.std.specs.Prelude.{◌≡◌, ◌+◌, ◌≤◌, ◌<◌, length};
ghost use Rattle.frame.specs.Frame.{Frame};
ghost use Rattle.inode_grow.specs.Grow.{growth_out};
ghost use Rattle.stages.specs.Stages.{in_order, both_out};
ghost use Rattle.dirwalk.specs.Walk.{lookup_dir, room_dir};
ghost use Rattle.dirjudge.specs.Judge.{link_end, link_tail};
ghost use Rattle.mknod_judge.specs.Make.{absent_out, raise_out, make_stages};

use inode_run::Spot;
use refusal::Refusal;
use volume::{Geometry, InodeNum};

// 31, then 27 and 45: a name that is not there yet.
fn judge_room(img: &[u8], geo: Geometry, s: Spot, name: &[u8], raises: bool) -> Result<(), Refusal>
    requires { Frame geo img.now × (s.at + 256 ≤ length img.now) × (length name.now < 256) }
    ensures { growth_out result ≡ both_out (raise_out geo s img.now raises) (both_out (link_end geo s.shape.size (room_dir geo s.at s.shape.size img.now (length name.now))) (link_tail geo s img.now (room_dir geo s.at s.shape.size img.now (length name.now)))) }
{
    let o = geo.order;
    let shape = s.shape;
    if raises & (inode::read_nlink(img, o, s.at) == 65535) {
        return Err(Refusal::TooManyLinks);
    }
    let room = dirwalk::room_dir(img, geo, s.at, shape.size, name.len() as u8);
    dirjudge::judge_link(img, geo, s, room)
}

// 17 for a name that lookup finds, before anything else that the directory itself could refuse.
fn judge_in(img: &[u8], geo: Geometry, s: Spot, name: &[u8], raises: bool) -> Result<(), Refusal>
    requires { Frame geo img.now × (s.at + 256 ≤ length img.now) × (length name.now < 256) }
    ensures { growth_out result ≡ both_out (absent_out (lookup_dir geo s.at s.shape.size img.now name.now)) (both_out (raise_out geo s img.now raises) (both_out (link_end geo s.shape.size (room_dir geo s.at s.shape.size img.now (length name.now))) (link_tail geo s img.now (room_dir geo s.at s.shape.size img.now (length name.now))))) }
{
    let shape = s.shape;
    if dirwalk::lookup_dir(img, geo, s.at, shape.size, name)?.is_some() {
        return Err(Refusal::Exists);
    }
    judge_room(img, geo, s, name, raises)
}

// All tests of mknod, and of mkdir, whose new directory raises its parent's link count.
pub fn judge_make(
    img: &[u8],
    geo: Geometry,
    dinr: InodeNum,
    name: &[u8],
    raises: bool,
) -> Result<(), Refusal>
    requires { Frame geo img.now }
    ensures { growth_out result ≡ in_order (make_stages geo img.now dinr.0 name.now raises) }
{
    if !dirnames::is_taken(name, true) {
        return Err(Refusal::Invalid);
    }
    if !dirnames::is_short(name) {
        return Err(Refusal::NameTooLong);
    }
    let s = dirfile::find_dir(img, geo, dinr)?;
    judge_in(img, geo, s, name, raises)
}
