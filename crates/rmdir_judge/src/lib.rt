// What rmdir is judged by, before any store: the name in its directory, and the "." and ".." of the directory that is to go.
#![tactic(auto)]

ghost use Rattle.std.specs.Prelude.{◌≡◌, ◌+◌, ◌*◌, ◌≤◌, ◌<◌, length};
ghost use Rattle.sound.specs.Test.{Sized};
ghost use Rattle.frame.specs.Frame.{Frame};
ghost use Rattle.inode_run.specs.Judge.{and_then};
ghost use Rattle.inode_grow.specs.Grow.{growth_out};
ghost use Rattle.stages.specs.Stages.{in_order};
ghost use Rattle.dirfile.specs.Block.{dir_block};
ghost use Rattle.dirwalk.specs.Walk.{lookup_dir, seen_out};
ghost use Rattle.dirother.specs.Other.{others_dir};
ghost use Rattle.dirjudge.specs.Judge.{drop_end, drop_tail};
ghost use Rattle.unlink_judge.specs.Unlink.{hit_where, found_ok};
ghost use Rattle.rmdir_judge.specs.Rmdir.{falls, remains, remain_all, own_ok, empty_out, counts_out, alone_in, own_after, size_after, drops_out, gone_in, rmdir_stages, Numbers, hits_out, dirs_out, gone_out, found_out, removal_of};

use dirblock::Unlinked;
use dirwalk::Hit;
use inode_run::Spot;
use refusal::{Damage, Refusal};
use volume::{Geometry, InodeNum};

// How often inode x falls where y does.
fn falls_with(x: u32, y: u32) -> u16
    ensures { (result ≡ falls x y) × (result ≤ 1) }
{
    if x == y {
        return 1;
    }
    0
}

// Whether inode x is still there after n falls of its count.
fn remains_after(img: &[u8], geo: Geometry, x: u32, n: u16) -> bool
    requires { Frame geo img.now × (x < geo.ncg * geo.ipg) }
    ensures { result ≡ remains geo img.now x n }
{
    let o = geo.order;
    let at = frame::inode_spot(img, geo, InodeNum(x));
    let links = inode::read_nlink(img, o, at);
    !((0 < links) & (links <= n))
}

// Whether every inode is still there when a step meets it: ".." falls, the directory is read, "." falls, the directory falls.
fn remain_all(img: &[u8], geo: Geometry, i: u32, up: u32, own: u32) -> bool
    requires { Frame geo img.now × Numbers geo i up own }
    ensures { result ≡ remain_all geo img.now i up own }
{
    let by_up = falls_with(i, up);
    let by_own = falls_with(i, own);
    remains_after(img, geo, i, by_up)
        & remains_after(img, geo, own, falls_with(own, up))
        & remains_after(img, geo, i, by_up + by_own)
}

// The inode of a record that was found.
fn hit_ok(img: &[u8], geo: Geometry, x: Result<Option<Hit>, Damage>) -> bool
    requires { Frame geo img.now }
    ensures { result ≡ hit_where (seen_out x) (λ h. found_ok geo img.now h.inr) }
{
    let Ok(Some(h)) = x else {
        return true;
    };
    unlink_judge::found_ok(img, geo, h.inr)
}

// The inodes of ".." and ".", as the steps meet them.
fn own_ok(
    img: &[u8],
    geo: Geometry,
    i: u32,
    up: Result<Option<Hit>, Damage>,
    own: Result<Option<Hit>, Damage>,
) -> bool
    requires { Frame geo img.now × (i < geo.ncg * geo.ipg) }
    ensures { result ≡ own_ok geo img.now i (seen_out up) (seen_out own) }
{
    if !hit_ok(img, geo, up) {
        return false;
    }
    if !hit_ok(img, geo, own) {
        return false;
    }
    let Some(q) = up.unwrap_or(None) else {
        return true;
    };
    let Some(c) = own.unwrap_or(None) else {
        return true;
    };
    remain_all(img, geo, i, q.inr, c.inr)
}

// 66: a directory that holds more than its "." and "..".
fn judge_empty(img: &[u8], geo: Geometry, e: Spot) -> Result<(), Refusal>
    requires { Frame geo img.now × (e.at + 256 ≤ length img.now) }
    ensures { growth_out result ≡ empty_out (others_dir geo e.at e.shape.size img.now) }
{
    let shape = e.shape;
    if dirother::others_dir(img, geo, e.at, shape.size)? {
        return Err(Refusal::NotEmpty);
    }
    Ok(())
}

// 97: a count of 0 that must fall.
fn judge_counts(img: &[u8], geo: Geometry, i: u32, up: u32, own: u32) -> Result<(), Refusal>
    requires { Frame geo img.now × Numbers geo i up own }
    ensures { growth_out result ≡ counts_out geo img.now i up own }
{
    unlink_judge::can_fall(img, geo, up)?;
    unlink_judge::can_fall(img, geo, own)?;
    unlink_judge::can_fall(img, geo, i)
}

// Whether "." stands alone in block k once ".." is unlinked from it.
fn alone_after(img: &[u8], geo: Geometry, e: Spot, k: u64) -> bool
    requires { Frame geo img.now × (e.at + 256 ≤ length img.now) × (k * 512 + 512 ≤ e.shape.size) }
    ensures { result ≡ alone_in geo.order (dir_block geo e.at e.shape.size img.now k) }
{
    let o = geo.order;
    let shape = e.shape;
    let mut block = [0u8; 512];
    let Ok(()) = dirfile::read_block(img, geo, e.at, shape.size, k, &mut block) else {
        return false;
    };
    let gone = dirblock_link::unlink_in(o, &mut block, b"..");
    match dirblock_link::unlink_in(o, &mut block, b".") {
        Ok(Unlinked::Alone(_)) => true,
        _ => false,
    }
}

// "." as its step meets it, after ".." went.
fn own_after(img: &[u8], geo: Geometry, e: Spot, up: Hit, own: Hit) -> Hit
    requires { Frame geo img.now × (e.at + 256 ≤ length img.now) × (own.block * 512 + 512 ≤ e.shape.size) }
    ensures { result ≡ own_after geo img.now e up own }
{
    if !up.alone & (up.block == own.block) {
        return Hit {
            block: own.block,
            inr: own.inr,
            alone: alone_after(img, geo, e, own.block),
        };
    }
    own
}

// How long the directory then is.
fn size_after(size: u64, up: Hit) -> u64
    requires { 512 ≤ size }
    ensures { result ≡ size_after size up }
{
    if up.alone {
        return size - 512;
    }
    size
}

// 27 of one record that goes; a directory shorter than a block of 512 bytes has none to lose.
fn drop_end(geo: Geometry, size: u64, h: Hit) -> Result<(), Refusal>
    requires { Sized geo }
    ensures { growth_out result ≡ drop_end geo size h }
{
    if size < 512 {
        return Ok(());
    }
    dirjudge::drop_end(geo, size, h)
}

// 45 of one, in the same way.
fn drop_tail(geo: Geometry, size: u64, h: Hit) -> Result<(), Refusal>
    requires { Sized geo }
    ensures { growth_out result ≡ drop_tail geo size h }
{
    if size < 512 {
        return Ok(());
    }
    dirjudge::drop_tail(geo, size, h)
}

// 27, then 45, of the three records that go: the name in a directory of that size, then ".." and "." of directory e.
fn judge_drops(
    img: &[u8],
    geo: Geometry,
    size: u64,
    e: Spot,
    link: Hit,
    up: Hit,
    own: Hit,
) -> Result<(), Refusal>
    requires { Frame geo img.now × (e.at + 256 ≤ length img.now) × (own.block * 512 + 512 ≤ e.shape.size) }
    ensures { growth_out result ≡ and_then (drops_out drop_end geo img.now size e link up own) (λ _. drops_out drop_tail geo img.now size e link up own) }
{
    let shape = e.shape;
    let held = shape.size;
    let left = size_after(held, up);
    let last = own_after(img, geo, e, up, own);
    drop_end(geo, size, link)?;
    drop_end(geo, held, up)?;
    drop_end(geo, left, last)?;
    drop_tail(geo, size, link)?;
    drop_tail(geo, held, up)?;
    drop_tail(geo, left, last)
}

// Every record was found: 66, the counts, 27 and 45.
fn judge_hits(
    img: &[u8],
    geo: Geometry,
    size: u64,
    e: Spot,
    i: u32,
    link: Hit,
    up: Hit,
    own: Hit,
) -> Result<(), Refusal>
    requires { Frame geo img.now × (e.at + 256 ≤ length img.now) × (own.block * 512 + 512 ≤ e.shape.size) × Numbers geo i up.inr own.inr }
    ensures { growth_out result ≡ hits_out geo img.now size e i link up own }
{
    judge_empty(img, geo, e)?;
    judge_counts(img, geo, i, up.inr, own.inr)?;
    judge_drops(img, geo, size, e, link, up, own)
}

// e, the directory that is to go, in the directory s: the inodes of its own records, then the walks.
fn judge_dirs(
    img: &[u8],
    geo: Geometry,
    s: Spot,
    e: Spot,
    i: u32,
    name: &[u8],
) -> Result<(), Refusal>
    requires { Frame geo img.now × (s.at + 256 ≤ length img.now) × (e.at + 256 ≤ length img.now) × (i < geo.ncg * geo.ipg) }
    ensures { growth_out result ≡ dirs_out geo img.now s e i name.now }
{
    let shape = s.shape;
    let inner = e.shape;
    let link = dirwalk::find_dir(img, geo, s.at, shape.size, name);
    let up = dirwalk::find_dir(img, geo, e.at, inner.size, b"..");
    let own = dirwalk::find_dir(img, geo, e.at, inner.size, b".");
    if !own_ok(img, geo, i, up, own) {
        return Err(Refusal::Invalid);
    }
    let Some(v) = link? else {
        return Err(Refusal::Damaged);
    };
    if v.inr != i {
        return Err(Refusal::Damaged);
    }
    let Some(q) = up? else {
        return Err(Refusal::NoEntry);
    };
    let Some(c) = own? else {
        return Err(Refusal::NoEntry);
    };
    judge_hits(img, geo, shape.size, e, i, v, q, c)
}

// The inode that its name leads to: 22, then 20, before anything in it is read.
fn judge_found(img: &[u8], geo: Geometry, s: Spot, i: u32, name: &[u8]) -> Result<(), Refusal>
    requires { Frame geo img.now × (s.at + 256 ≤ length img.now) }
    ensures { growth_out result ≡ found_out geo img.now s i name.now }
{
    let e = dirfile::find_dir(img, geo, InodeNum(i))?;
    judge_dirs(img, geo, s, e, i, name)
}

// The name in the directory s, as lookup finds it.
fn judge_in(img: &[u8], geo: Geometry, s: Spot, name: &[u8]) -> Result<u32, Refusal>
    requires { Frame geo img.now × (s.at + 256 ≤ length img.now) }
    ensures { result ≡ removal_of (lookup_dir geo s.at s.shape.size img.now name.now) (gone_out geo img.now s name.now (lookup_dir geo s.at s.shape.size img.now name.now)) }
{
    let shape = s.shape;
    let Some(i) = dirwalk::lookup_dir(img, geo, s.at, shape.size, name)? else {
        return Err(Refusal::NoEntry);
    };
    judge_found(img, geo, s, i, name)?;
    Ok(i)
}

// All tests of rmdir.
pub fn judge_rmdir(img: &[u8], geo: Geometry, dinr: InodeNum, name: &[u8]) -> Result<u32, Refusal>
    requires { Frame geo img.now }
    ensures { result ≡ removal_of (gone_in geo img.now dinr.0 name.now) (in_order (rmdir_stages geo img.now dinr.0 name.now)) }
{
    if !dirnames::is_taken(name, true) {
        return Err(Refusal::Invalid);
    }
    if !dirnames::is_short(name) {
        return Err(Refusal::NameTooLong);
    }
    let s = dirfile::find_dir(img, geo, dinr)?;
    judge_in(img, geo, s, name)
}
