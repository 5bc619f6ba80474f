// ialloc.rs: inode_truncate, the public call.
#![tactic(auto)]

ghost use Rattle.std.specs.Prelude.{◌≡◌, ◌+◌, ◌≤◌, length, ltb};
ghost use Rattle.store.specs.Act.{leaves};
ghost use Rattle.sound.specs.Test.{Sized};
ghost use Rattle.frame.specs.Frame.{Frame};
ghost use Rattle.mapping.specs.Zones.{zone_start};
ghost use Rattle.mapping.specs.Mapping.{per_list};
ghost use Rattle.inode_grow.specs.Grow.{growth_out};
ghost use Rattle.inode_truncate.specs.Truncate.{keep_of, truncated_out};
ghost use Rattle.truncate.specs.Call.{truncate_judged, judged_work, inode_truncate};

use inode::Shape;
use refusal::Refusal;
use volume::{Geometry, InodeNum, Volume};

// Whether a shrinking file keeps no block of the triple zone.
pub fn ends_before(geo: Geometry, new: u64) -> bool
    requires { Sized geo }
    ensures { result ≡ ltb (keep_of geo new) (zone_start (per_list geo) 3) }
{
    let third = 12 + mapping::span_of(geo, 1) + mapping::span_of(geo, 2);
    inode_truncate::keep_of(geo, new) < third
}

// The tests before the work.
fn judge(img: &[u8], geo: Geometry, at: usize, s: Shape, new: u64) -> Result<(), Refusal>
    requires { Frame geo img.now × (at + 256 ≤ length img.now) }
    ensures { growth_out result ≡ truncate_judged geo at s new img.now }
{
    if inode::is_in_place(s) & (new < s.size) {
        return Err(Refusal::Invalid);
    }
    if inode_grow::zones_bytes(geo) < new {
        return Err(Refusal::TooBig);
    }
    if new < s.size {
        if ends_before(geo, new) {
            return Ok(());
        }
        return Err(Refusal::NotSupported);
    }
    inode_grow::grow_rule(img, geo, at, s, new)
}

// The call on an inode that is found.
pub fn truncate_found(
    img: &mut [u8],
    geo: Geometry,
    at: usize,
    s: Shape,
    new: u64,
) -> Result<(), Refusal>
    requires { Frame geo img.old × (at + 256 ≤ length img.old) }
    ensures { (img.new, truncated_out result) ≡ leaves (judged_work geo at s new) img.old }
{
    judge(img, geo, at, s, new)?;
    inode_truncate::truncate_work(img, geo, at, s, new)
}

// inode_truncate: the file is as long as asked for, and blocks past its end are given back.
pub fn inode_truncate(img: &mut [u8], vol: Volume, inr: InodeNum, new: u64) -> Result<(), Refusal>
    ensures { (img.new, truncated_out result) ≡ leaves (inode_truncate vol inr.0 new) img.old }
{
    let geo = sound::take_volume(img)?;
    if !vol.writable {
        return Err(Refusal::ReadOnly);
    }
    let spot = inode_run::find_inode(img, geo, inr)?;
    let s = spot.shape;
    truncate_found(img, geo, spot.at, s, new)
}
