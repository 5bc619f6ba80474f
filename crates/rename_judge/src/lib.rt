// dir.rs: what rename is judged by, before any store.
#![tactic(auto)]

ghost use Rattle.std.specs.Prelude.{◌≡◌, true, ◌&&◌, ◌+◌, ◌*◌, ◌≤◌, ◌<◌, length};
ghost use Rattle.frame.specs.Frame.{Frame};
ghost use Rattle.inode.specs.Shape.{type_of};
ghost use Rattle.inode_grow.specs.Grow.{growth_out};
ghost use Rattle.dirwalk.specs.Walk.{looked_out, seen_out};
ghost use Rattle.unlink_judge.specs.Unlink.{hit_where, found_ok};
ghost use Rattle.rename_judge.specs.Rename.{met_facts, hit_ok, late_out, own_out, moving_out, is_there, Holds, InWay, same_of, move_of, verdict_by, verdict_in, verdict_of};

use dirwalk::Hit;
use inode_run::Spot;
use refusal::{Damage, Refusal};
use volume::{Geometry, InodeNum};

pub mod counts;
pub mod found;
pub mod room;

// What is to be done: nothing, or the inode of that type moved, and whether a record in the way goes first.
#[derive(Clone, Copy)]
pub enum Verdict {
    Same(u32),
    Move(u32, u8, bool),
}

// What the call finds: the file by its old name, the record of that name, with replace the record in the way, and the inode in the way.
#[derive(Clone, Copy)]
pub struct Met {
    pub moved: Result<Option<u32>, Damage>,
    pub source: Result<Option<Hit>, Damage>,
    pub target: Result<Option<Hit>, Damage>,
    pub way: Result<Option<u32>, Damage>,
}

// ---- all of it

// From the walk on.
fn judge_late(
    img: &[u8],
    geo: Geometry,
    to: Spot,
    old: u64,
    n: u8,
    replace: bool,
    m: Met,
) -> Result<(), Refusal>
    requires { Frame geo img.now × (to.at + 256 ≤ length img.now) × Holds to.shape.size (seen_out m.target) × Holds old (seen_out m.source) × (hit_where (looked_out m.moved) (found_ok geo img.now) ≡ true) × (hit_where (seen_out m.source) (hit_ok geo img.now) ≡ true) × (hit_where (seen_out m.target) (hit_ok geo img.now) ≡ true) }
    ensures { growth_out result ≡ late_out geo img.now to old n replace (met_facts m) }
{
    crate::counts::walk_out(m)?;
    crate::counts::is_untaken(replace, m.way)?;
    crate::counts::counts_out(img, geo, m)?;
    crate::room::room_out(img, geo, to, old, n, m.source, m.target)
}

// All that is asked where both names are the same.
fn judge_own(
    img: &[u8],
    geo: Geometry,
    to: Spot,
    from: Spot,
    moved: Result<Option<u32>, Damage>,
) -> Result<(), Refusal>
    requires { Frame geo img.now }
    ensures { growth_out result ≡ own_out geo img.now to from (looked_out moved) }
{
    let one = from.shape;
    let other = to.shape;
    if !crate::found::own_ok(img, geo, to, from, moved) {
        return Err(Refusal::Invalid);
    }
    if !(inode::is_dir(one) & inode::is_dir(other)) {
        return Err(Refusal::NotDirectory);
    }
    if !crate::found::is_file(img, geo, moved) {
        return Err(Refusal::IsDirectory);
    }
    if !crate::found::has_kind(img, geo, moved) {
        return Err(Refusal::Damaged);
    }
    crate::counts::there(moved)
}

// 22, 20, 21 and 97 for a kind that has no name, each over all steps; then the rest.
fn judge_moving(
    img: &[u8],
    geo: Geometry,
    ddinr: InodeNum,
    sdinr: InodeNum,
    to: Spot,
    from: Spot,
    n: u8,
    replace: bool,
    m: Met,
) -> Result<(), Refusal>
    requires { Frame geo img.now × (to.at + 256 ≤ length img.now) × Holds to.shape.size (seen_out m.target) × Holds from.shape.size (seen_out m.source) × InWay (seen_out m.target) (looked_out m.way) }
    ensures { growth_out result ≡ moving_out geo img.now ddinr.0 sdinr.0 to from n replace (met_facts m) }
{
    let new = to.shape;
    let old = from.shape;
    let moved = m.moved;
    let way = m.way;
    if !(crate::found::own_ok(img, geo, to, from, moved)
        & crate::found::others_ok(img, geo, ddinr, sdinr, m))
    {
        return Err(Refusal::Invalid);
    }
    let dirs = inode::is_dir(old) & inode::is_dir(new);
    let files = crate::found::is_file(img, geo, moved) & crate::found::is_file(img, geo, way);
    if !dirs {
        return Err(Refusal::NotDirectory);
    }
    if !files {
        return Err(Refusal::IsDirectory);
    }
    if !crate::found::has_kind(img, geo, moved) {
        return Err(Refusal::Damaged);
    }
    judge_late(img, geo, to, old.size, n, replace, m)
}

fn is_there(l: Result<Option<u32>, Damage>) -> bool
    ensures { result ≡ is_there (looked_out l) }
{
    matches!(l, Ok(Some(_)))
}

fn same_verdict(moved: Result<Option<u32>, Damage>) -> Result<Verdict, Refusal>
    ensures { result ≡ same_of (looked_out moved) }
{
    let i = moved?.ok_or(Refusal::Damaged)?;
    Ok(Verdict::Same(i))
}

// The kind, as a directory record has it.
fn type_byte(mode: u16) -> u8
    ensures { result ≡ type_of mode }
{
    (mode / 4096) as u8
}

fn move_verdict(
    img: &[u8],
    geo: Geometry,
    clears: bool,
    moved: Result<Option<u32>, Damage>,
) -> Result<Verdict, Refusal>
    requires { Frame geo img.now × (hit_where (looked_out moved) (found_ok geo img.now) ≡ true) }
    ensures { result ≡ move_of geo img.now clears (looked_out moved) }
{
    let i = moved?.ok_or(Refusal::Damaged)?;
    let s = crate::found::spot_at(img, geo, InodeNum(i));
    let shape = s.shape;
    Ok(Verdict::Move(i, type_byte(shape.mode), clears))
}

// Both names are the same: nothing else is looked at.
fn judge_same(
    img: &[u8],
    geo: Geometry,
    to: Spot,
    from: Spot,
    moved: Result<Option<u32>, Damage>,
) -> Result<Verdict, Refusal>
    requires { Frame geo img.now }
    ensures { result ≡ verdict_by (own_out geo img.now to from (looked_out moved)) (same_of (looked_out moved)) }
{
    judge_own(img, geo, to, from, moved)?;
    same_verdict(moved)
}

// What was met is judged, and then told.
fn judge_met(
    img: &[u8],
    geo: Geometry,
    ddinr: InodeNum,
    sdinr: InodeNum,
    to: Spot,
    from: Spot,
    n: u8,
    replace: bool,
    m: Met,
) -> Result<Verdict, Refusal>
    requires { Frame geo img.now × (to.at + 256 ≤ length img.now) × Holds to.shape.size (seen_out m.target) × Holds from.shape.size (seen_out m.source) × InWay (seen_out m.target) (looked_out m.way) }
    ensures { result ≡ verdict_by (moving_out geo img.now ddinr.0 sdinr.0 to from n replace (met_facts m)) (move_of geo img.now (replace && is_there (looked_out m.way)) (looked_out m.moved)) }
{
    judge_moving(img, geo, ddinr, sdinr, to, from, n, replace, m)?;
    move_verdict(img, geo, replace & is_there(m.way), m.moved)
}

// The numbers are the volume's: both directories are found, and the file by its old name.
fn judge_in(
    img: &[u8],
    geo: Geometry,
    ddinr: InodeNum,
    dname: &[u8],
    sdinr: InodeNum,
    sname: &[u8],
    replace: bool,
) -> Result<Verdict, Refusal>
    requires { Frame geo img.now × (ddinr.0 < geo.ncg * geo.ipg) × (sdinr.0 < geo.ncg * geo.ipg) × (length dname.now < 256) }
    ensures { result ≡ verdict_in geo img.now (record { to = ddinr.0; new = dname.now; from = sdinr.0; old = sname.now; replace = replace }) }
{
    let to = crate::found::spot_at(img, geo, ddinr);
    let from = crate::found::spot_at(img, geo, sdinr);
    let moved = crate::found::inode_in(img, geo, from, sname);
    if (ddinr.0 == sdinr.0) & crate::found::same_name(dname, sname) {
        return judge_same(img, geo, to, from, moved);
    }
    let m = crate::found::meet(img, geo, to, from, dname, sname, replace, moved);
    judge_met(
        img,
        geo,
        ddinr,
        sdinr,
        to,
        from,
        dname.len() as u8,
        replace,
        m,
    )
}

// All tests of rename, each over all its steps.
pub fn judge_rename(
    img: &[u8],
    geo: Geometry,
    ddinr: InodeNum,
    dname: &[u8],
    sdinr: InodeNum,
    sname: &[u8],
    replace: bool,
) -> Result<Verdict, Refusal>
    requires { Frame geo img.now }
    ensures { result ≡ verdict_of geo img.now (record { to = ddinr.0; new = dname.now; from = sdinr.0; old = sname.now; replace = replace }) }
{
    if !(dirnames::is_taken(dname, true) & dirnames::is_taken(sname, true)) {
        return Err(Refusal::Invalid);
    }
    if !(dirnames::is_short(dname) & dirnames::is_short(sname)) {
        return Err(Refusal::NameTooLong);
    }
    if !(inode_run::number_ok(geo, sdinr) & inode_run::number_ok(geo, ddinr)) {
        return Err(Refusal::Invalid);
    }
    judge_in(img, geo, ddinr, dname, sdinr, sname, replace)
}
