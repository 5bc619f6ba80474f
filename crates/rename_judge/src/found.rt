// dir.rs: rename, what it finds of both names, and the inodes that it would meet.
ghost use Rattle.std.specs.Prelude.{◌≡◌, true, not, ◌+◌, ◌*◌, ◌≤◌, ◌<◌, length};
ghost use Rattle.frame.specs.Frame.{Frame};
ghost use Rattle.inode_run.specs.Find.{typed, spot_of};
ghost use Rattle.dirblock.specs.Search.{same_name};
ghost use Rattle.dirwalk.specs.Walk.{looked_out, seen_out};
ghost use Rattle.unlink_judge.specs.Unlink.{hit_where, found_ok};
ghost use Rattle.rename_judge.specs.Rename.{inode_in, record_in, inode_of_hit, facts_in, met_facts, links_of, is_file, has_kind, hit_ok, freed_first, not_freed, own_ok, others_ok, InWay};

use crate::Met;
use dirwalk::Hit;
use inode::Shape;
use inode_run::Spot;
use refusal::Damage;
use volume::{Geometry, InodeNum};

// ---- finding

// Whether two names are the same bytes.
pub fn same_name(a: &[u8], b: &[u8]) -> bool
    ensures { result ≡ same_name a.now b.now }
{
    if a.len() == b.len() {
        return field::same_bytes(a, 0, b);
    }
    false
}

// An inode of the volume, whether it has a type or not.
pub fn spot_at(img: &[u8], geo: Geometry, inr: InodeNum) -> Spot
    requires { Frame geo img.now × (inr.0 < geo.ncg * geo.ipg) }
    ensures { (result ≡ spot_of geo img.now inr.0) × (result.at + 256 ≤ length img.now) }
{
    let at = frame::inode_spot(img, geo, inr);
    let o = geo.order;
    let s = inode::read_shape(img, o, at);
    Spot { at: at, shape: s }
}

pub fn links_of(img: &[u8], geo: Geometry, inr: u32) -> u16
    requires { Frame geo img.now × (inr < geo.ncg * geo.ipg) }
    ensures { result ≡ links_of geo img.now inr }
{
    let at = frame::inode_spot(img, geo, InodeNum(inr));
    let o = geo.order;
    inode::read_nlink(img, o, at)
}

// A name as lookup finds it.
pub fn inode_in(img: &[u8], geo: Geometry, s: Spot, name: &[u8]) -> Result<Option<u32>, Damage>
    requires { Frame geo img.now × (s.at + 256 ≤ length img.now) }
    ensures { looked_out result ≡ inode_in geo img.now s name.now }
{
    let shape = s.shape;
    if inode::is_dir(shape) {
        return dirwalk::lookup_dir(img, geo, s.at, shape.size, name);
    }
    Ok(None)
}

// The record of that name, whiteouts too.
fn record_in(img: &[u8], geo: Geometry, s: Spot, name: &[u8]) -> Result<Option<Hit>, Damage>
    requires { Frame geo img.now × (s.at + 256 ≤ length img.now) }
    ensures { seen_out result ≡ record_in geo img.now s name.now }
{
    let shape = s.shape;
    if inode::is_dir(shape) {
        return dirwalk::find_dir(img, geo, s.at, shape.size, name);
    }
    Ok(None)
}

fn inode_of(s: Result<Option<Hit>, Damage>) -> Result<Option<u32>, Damage>
    ensures { looked_out result ≡ inode_of_hit (seen_out s) }
{
    Ok(s?.map(|h| h.inr))
}

// The old record, and what has the new name: the Rust looked it up in the source directory.
pub fn meet(
    img: &[u8],
    geo: Geometry,
    to: Spot,
    from: Spot,
    dname: &[u8],
    sname: &[u8],
    replace: bool,
    moved: Result<Option<u32>, Damage>,
) -> Met
    requires { Frame geo img.now × (to.at + 256 ≤ length img.now) × (from.at + 256 ≤ length img.now) × (looked_out moved ≡ inode_in geo img.now from sname.now) }
    ensures { met_facts result ≡ facts_in geo img.now to from dname.now sname.now replace }
{
    let source = record_in(img, geo, from, sname);
    if replace {
        let target = record_in(img, geo, to, dname);
        let way = inode_of(target);
        return Met {
            moved: moved,
            source: source,
            target: target,
            way: way,
        };
    }
    let none = Ok(None);
    let way = inode_in(img, geo, to, dname);
    Met {
        moved: moved,
        source: source,
        target: none,
        way: way,
    }
}

// ---- 22

fn is_typed(s: Shape) -> bool
    ensures { result ≡ typed s }
{
    !(inode::type_of(s.mode) == 0)
}

// Whether an inode that lookup found is one of the volume's and has a type.
fn where_ok(img: &[u8], geo: Geometry, l: Result<Option<u32>, Damage>) -> bool
    requires { Frame geo img.now }
    ensures { result ≡ hit_where (looked_out l) (found_ok geo img.now) }
{
    let Ok(Some(i)) = l else {
        return true;
    };
    unlink_judge::found_ok(img, geo, i)
}

// The same of the inode of a record.
fn hit_ok(img: &[u8], geo: Geometry, s: Result<Option<Hit>, Damage>) -> bool
    requires { Frame geo img.now }
    ensures { result ≡ hit_where (seen_out s) (hit_ok geo img.now) }
{
    let Ok(Some(h)) = s else {
        return true;
    };
    unlink_judge::found_ok(img, geo, h.inr)
}

pub fn own_ok(
    img: &[u8],
    geo: Geometry,
    to: Spot,
    from: Spot,
    moved: Result<Option<u32>, Damage>,
) -> bool
    requires { Frame geo img.now }
    ensures { result ≡ own_ok geo img.now to from (looked_out moved) }
{
    let new = to.shape;
    let old = from.shape;
    is_typed(old) & is_typed(new) & where_ok(img, geo, moved)
}

// Whether inode t, once it lost its only link, is one that a later step asks for.
fn freed_first(
    img: &[u8],
    geo: Geometry,
    to: InodeNum,
    from: InodeNum,
    t: u32,
    i: u32,
    w: u32,
) -> bool
    requires { Frame geo img.now × (t < geo.ncg * geo.ipg) }
    ensures { result ≡ freed_first geo img.now to.0 from.0 t i w }
{
    let last = links_of(img, geo, t) == 1;
    last & ((t == i) | (t == to.0) | (t == from.0) | (t == w))
}

// Nothing that a later step asks for is freed by the first.
fn left_for(
    img: &[u8],
    geo: Geometry,
    to: InodeNum,
    from: InodeNum,
    t: u32,
    i: u32,
    source: Result<Option<Hit>, Damage>,
) -> bool
    requires { Frame geo img.now × (t < geo.ncg * geo.ipg) }
    ensures { result ≡ hit_where (seen_out source) (λ w. not (freed_first geo img.now to.0 from.0 t i w.inr)) }
{
    let Ok(Some(w)) = source else {
        return true;
    };
    !freed_first(img, geo, to, from, t, i, w.inr)
}

fn not_freed(img: &[u8], geo: Geometry, to: InodeNum, from: InodeNum, m: Met) -> bool
    requires { Frame geo img.now × (hit_where (seen_out m.target) (hit_ok geo img.now) ≡ true) }
    ensures { result ≡ not_freed geo img.now to.0 from.0 (met_facts m) }
{
    let Ok(Some(t)) = m.target else {
        return true;
    };
    let Ok(Some(i)) = m.moved else {
        return true;
    };
    left_for(img, geo, to, from, t.inr, i, m.source)
}

// What is asked of the other inodes where the names differ.
pub fn others_ok(img: &[u8], geo: Geometry, to: InodeNum, from: InodeNum, m: Met) -> bool
    requires { Frame geo img.now × InWay (seen_out m.target) (looked_out m.way) }
    ensures { result ≡ others_ok geo img.now to.0 from.0 (met_facts m) }
{
    let source = m.source;
    let way = m.way;
    if hit_ok(img, geo, source) & where_ok(img, geo, way) {
        return not_freed(img, geo, to, from, m);
    }
    false
}

// ---- 21, and a kind that has no name

// Whether what was found is no directory.
pub fn is_file(img: &[u8], geo: Geometry, l: Result<Option<u32>, Damage>) -> bool
    requires { Frame geo img.now × (hit_where (looked_out l) (found_ok geo img.now) ≡ true) }
    ensures { result ≡ hit_where (looked_out l) (is_file geo img.now) }
{
    let Ok(Some(i)) = l else {
        return true;
    };
    let s = spot_at(img, geo, InodeNum(i));
    !inode::is_dir(s.shape)
}

pub fn has_kind(img: &[u8], geo: Geometry, l: Result<Option<u32>, Damage>) -> bool
    requires { Frame geo img.now × (hit_where (looked_out l) (found_ok geo img.now) ≡ true) }
    ensures { result ≡ hit_where (looked_out l) (has_kind geo img.now) }
{
    let Ok(Some(i)) = l else {
        return true;
    };
    let s = spot_at(img, geo, InodeNum(i));
    let shape = s.shape;
    inode::kind_of(shape.mode).is_some()
}
