// dir.rs: rename, the walks, the name that is taken, and the link counts in step order.
ghost use Rattle.std.specs.Prelude.{◌≡◌, true, ◌*◌, ◌<◌};
ghost use Rattle.frame.specs.Frame.{Frame};
ghost use Rattle.inode_grow.specs.Grow.{growth_out};
ghost use Rattle.stages.specs.Stages.{both_out};
ghost use Rattle.dirwalk.specs.Walk.{looked_out, seen_out};
ghost use Rattle.unlink_judge.specs.Unlink.{there_out, hit_where, on_hit, found_ok};
ghost use Rattle.rename_judge.specs.Rename.{met_facts, hit_ok, unhurt, walk_out, untaken, way_falls, is_of, rises_out, source_falls, counts_out};

use crate::Met;
use dirwalk::Hit;
use refusal::{Damage, Refusal};
use volume::Geometry;

// ---- 2 and 17, and damage on the way

pub fn there(l: Result<Option<u32>, Damage>) -> Result<(), Refusal>
    ensures { growth_out result ≡ there_out (looked_out l) }
{
    match l? {
        Some(_) => Ok(()),
        None => Err(Refusal::NoEntry),
    }
}

fn is_unhurt(s: Result<Option<Hit>, Damage>) -> Result<(), Refusal>
    ensures { growth_out result ≡ unhurt (seen_out s) }
{
    s?;
    Ok(())
}

// The old name is there, and no damage was met in looking for the records that go.
pub fn walk_out(m: Met) -> Result<(), Refusal>
    ensures { growth_out result ≡ walk_out (met_facts m) }
{
    there(m.moved)?;
    is_unhurt(m.source)?;
    is_unhurt(m.target)
}

// 17, which is asked only without replace.
pub fn is_untaken(replace: bool, way: Result<Option<u32>, Damage>) -> Result<(), Refusal>
    ensures { growth_out result ≡ untaken replace (looked_out way) }
{
    if replace {
        return Ok(());
    }
    match way? {
        Some(_) => Err(Refusal::Exists),
        None => Ok(()),
    }
}

// ---- 31, and 97 for a count of 0 that must fall

fn way_falls(img: &[u8], geo: Geometry, target: Result<Option<Hit>, Damage>) -> Result<(), Refusal>
    requires { Frame geo img.now × (hit_where (seen_out target) (hit_ok geo img.now) ≡ true) }
    ensures { growth_out result ≡ way_falls geo img.now (seen_out target) }
{
    let Ok(Some(t)) = target else {
        return Ok(());
    };
    unlink_judge::can_fall(img, geo, t.inr)
}

fn is_of(i: u32, target: Result<Option<Hit>, Damage>) -> bool
    ensures { result ≡ is_of i (seen_out target) }
{
    let Ok(Some(h)) = target else {
        return false;
    };
    h.inr == i
}

// 31 for the moved file, unless it loses a link first by standing in the way itself.
fn can_rise(
    img: &[u8],
    geo: Geometry,
    target: Result<Option<Hit>, Damage>,
    i: u32,
) -> Result<(), Refusal>
    requires { Frame geo img.now × (i < geo.ncg * geo.ipg) }
    ensures { growth_out result ≡ rises_out geo img.now (seen_out target) i }
{
    if !(crate::found::links_of(img, geo, i) == 65535) | is_of(i, target) {
        return Ok(());
    }
    Err(Refusal::TooManyLinks)
}

// The old record's inode has a link: the moved file itself rose before.
fn source_falls(
    img: &[u8],
    geo: Geometry,
    i: u32,
    source: Result<Option<Hit>, Damage>,
) -> Result<(), Refusal>
    requires { Frame geo img.now × (hit_where (seen_out source) (hit_ok geo img.now) ≡ true) }
    ensures { growth_out result ≡ on_hit (seen_out source) (source_falls geo img.now i) }
{
    let Ok(Some(w)) = source else {
        return Ok(());
    };
    if (w.inr == i) | (0 < crate::found::links_of(img, geo, w.inr)) {
        return Ok(());
    }
    Err(Refusal::Damaged)
}

// The moved file rises before its old record's inode falls.
fn moved_counts(
    img: &[u8],
    geo: Geometry,
    target: Result<Option<Hit>, Damage>,
    i: u32,
    source: Result<Option<Hit>, Damage>,
) -> Result<(), Refusal>
    requires { Frame geo img.now × (i < geo.ncg * geo.ipg) × (hit_where (seen_out source) (hit_ok geo img.now) ≡ true) }
    ensures { growth_out result ≡ both_out (rises_out geo img.now (seen_out target) i) (on_hit (seen_out source) (source_falls geo img.now i)) }
{
    can_rise(img, geo, target, i)?;
    source_falls(img, geo, i, source)
}

pub fn counts_out(img: &[u8], geo: Geometry, m: Met) -> Result<(), Refusal>
    requires { Frame geo img.now × (hit_where (looked_out m.moved) (found_ok geo img.now) ≡ true) × (hit_where (seen_out m.source) (hit_ok geo img.now) ≡ true) × (hit_where (seen_out m.target) (hit_ok geo img.now) ≡ true) }
    ensures { growth_out result ≡ counts_out geo img.now (met_facts m) }
{
    way_falls(img, geo, m.target)?;
    let Ok(Some(i)) = m.moved else {
        return Ok(());
    };
    moved_counts(img, geo, m.target, i, m.source)
}
