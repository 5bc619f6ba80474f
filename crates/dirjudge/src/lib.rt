// What dir_newlink and dir_unlink would meet in inode_truncate, judged before any store.
#![tactic(auto)]

ghost use Rattle.std.specs.Prelude.{◌≡◌, ◌+◌, ◌≤◌, length};
ghost use Rattle.store.specs.Act.{got};
ghost use Rattle.sound.specs.Test.{Sized};
ghost use Rattle.frame.specs.Frame.{Frame};
ghost use Rattle.inode_grow.specs.Grow.{growth_out};
ghost use Rattle.stages.specs.Stages.{both_out};
ghost use Rattle.dirwalk.specs.Walk.{space_out};
ghost use Rattle.dirjudge.specs.Judge.{link_end, link_tail, drop_end, drop_tail};

use dirwalk::Hit;
use inode_run::Spot;
use refusal::{Damage, Refusal};
use volume::Geometry;

// Whether a directory of that size may grow by one block of 512 bytes.
pub fn link_end(geo: Geometry, size: u64, room: Result<Option<u64>, Damage>) -> Result<(), Refusal>
    requires { Sized geo }
    ensures { growth_out result ≡ link_end geo size (space_out room) }
{
    if room?.is_some() {
        return Ok(());
    }
    if inode_grow::zones_bytes(geo) - 512 < size {
        return Err(Refusal::TooBig);
    }
    Ok(())
}

// Whether its tail lets it; the end was judged before.
pub fn link_tail(
    img: &[u8],
    geo: Geometry,
    s: Spot,
    room: Result<Option<u64>, Damage>,
) -> Result<(), Refusal>
    requires { Frame geo img.now × (s.at + 256 ≤ length img.now) × (link_end geo s.shape.size (space_out room) ≡ got (tt {0})) }
    ensures { growth_out result ≡ link_tail geo s img.now (space_out room) }
{
    let Ok(None) = room else {
        return Ok(());
    };
    let shape = s.shape;
    inode_grow::grow_rule(img, geo, s.at, shape, shape.size + 512)
}

// Both, of a call that links one name.
pub fn judge_link(
    img: &[u8],
    geo: Geometry,
    s: Spot,
    room: Result<Option<u64>, Damage>,
) -> Result<(), Refusal>
    requires { Frame geo img.now × (s.at + 256 ≤ length img.now) }
    ensures { growth_out result ≡ both_out (link_end geo s.shape.size (space_out room)) (link_tail geo s img.now (space_out room)) }
{
    let shape = s.shape;
    link_end(geo, shape.size, room)?;
    link_tail(img, geo, s, room)
}

// Whether a directory of that size may shrink by one block of 512 bytes, where the record stands alone.
pub fn drop_end(geo: Geometry, size: u64, h: Hit) -> Result<(), Refusal>
    requires { Sized geo × (512 ≤ size) }
    ensures { growth_out result ≡ drop_end geo size h }
{
    if h.alone & (inode_grow::zones_bytes(geo) < size - 512) {
        return Err(Refusal::TooBig);
    }
    Ok(())
}

pub fn drop_tail(geo: Geometry, size: u64, h: Hit) -> Result<(), Refusal>
    requires { Sized geo × (512 ≤ size) }
    ensures { growth_out result ≡ drop_tail geo size h }
{
    if h.alone & !truncate::ends_before(geo, size - 512) {
        return Err(Refusal::NotSupported);
    }
    Ok(())
}

// Both, of a call that unlinks one name.
pub fn judge_drop(geo: Geometry, size: u64, h: Hit) -> Result<(), Refusal>
    requires { Sized geo × (512 ≤ size) }
    ensures { growth_out result ≡ both_out (drop_end geo size h) (drop_tail geo size h) }
{
    drop_end(geo, size, h)?;
    drop_tail(geo, size, h)
}
