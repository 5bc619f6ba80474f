// dir.rs: rename, what linking and unlinking would meet: 27 and 45, in step order.
ghost use Rattle.std.specs.Prelude.{◌≡◌, ◌+◌, ◌*◌, ◌≤◌, ◌<◌, length};
ghost use Rattle.store.specs.Act.{got};
ghost use Rattle.sound.specs.Test.{Sized};
ghost use Rattle.frame.specs.Frame.{Frame};
ghost use Rattle.inode_grow.specs.Grow.{growth_out};
ghost use Rattle.dirwalk.specs.Walk.{seen_out, space_out};
ghost use Rattle.dirjudge.specs.Judge.{link_end, drop_end, drop_tail};
ghost use Rattle.unlink_judge.specs.Unlink.{on_hit};
ghost use Rattle.rename_judge.specs.Rename.{rooms_but, room_but, room_then, size_then, link_ends, tail_after, tail_left, link_tails, ends_out, tails_out, room_out, Holds};

use dirwalk::Hit;
use inode_run::Spot;
use refusal::{Damage, Refusal};
use volume::Geometry;

// ---- 27 and 45

fn block_but(
    img: &[u8],
    geo: Geometry,
    at: usize,
    size: u64,
    n: u8,
    j: u64,
    k: u64,
) -> Result<Option<u64>, Damage>
    requires { Frame geo img.now × (at + 256 ≤ length img.now) × (k * 512 + 512 ≤ size) }
    ensures { space_out result ≡ rooms_but geo at size img.now n j k }
{
    if k == j {
        return Ok(None);
    }
    dirwalk::room_block(img, geo, at, size, k, n)
}

// The blocks upward, but block j, up to the first with room for a name of n bytes.
fn room_but(
    img: &[u8],
    geo: Geometry,
    at: usize,
    size: u64,
    n: u8,
    j: u64,
) -> Result<Option<u64>, Damage>
    requires { Frame geo img.now × (at + 256 ≤ length img.now) }
    ensures { space_out result ≡ room_but geo at size img.now n j }
{
    if !(size % 512 == 0) {
        return Err(Damage);
    }
    for k in 0..size / 512 {
        if let Some(b) = block_but(img, geo, at, size, n, j, k)? {
            return Ok(Some(b));
        }
    }
    Ok(None)
}

// Room for the new name, once the record in the way went.
fn room_then(
    img: &[u8],
    geo: Geometry,
    s: Spot,
    n: u8,
    target: Result<Option<Hit>, Damage>,
) -> Result<Option<u64>, Damage>
    requires { Frame geo img.now × (s.at + 256 ≤ length img.now) }
    ensures { space_out result ≡ room_then geo s img.now n (seen_out target) }
{
    let shape = s.shape;
    let Ok(Some(h)) = target else {
        return dirwalk::room_dir(img, geo, s.at, shape.size, n);
    };
    if h.alone {
        return room_but(img, geo, s.at, shape.size, n, h.block);
    }
    Ok(Some(h.block))
}

// The size of the directory, once the record in the way went.
fn size_then(size: u64, target: Result<Option<Hit>, Damage>) -> u64
    requires { Holds size (seen_out target) }
    ensures { result ≡ size_then size (seen_out target) }
{
    let Ok(Some(h)) = target else {
        return size;
    };
    if h.alone {
        return size - 512;
    }
    size
}

fn drop_ends(geo: Geometry, size: u64, s: Result<Option<Hit>, Damage>) -> Result<(), Refusal>
    requires { Sized geo × Holds size (seen_out s) }
    ensures { growth_out result ≡ on_hit (seen_out s) (drop_end geo size) }
{
    let Ok(Some(h)) = s else {
        return Ok(());
    };
    dirjudge::drop_end(geo, size, h)
}

fn drop_tails(geo: Geometry, size: u64, s: Result<Option<Hit>, Damage>) -> Result<(), Refusal>
    requires { Sized geo × Holds size (seen_out s) }
    ensures { growth_out result ≡ on_hit (seen_out s) (drop_tail geo size) }
{
    let Ok(Some(h)) = s else {
        return Ok(());
    };
    dirjudge::drop_tail(geo, size, h)
}

// 27: the name in the way goes, then the new one is linked.
fn link_ends(
    geo: Geometry,
    size: u64,
    target: Result<Option<Hit>, Damage>,
    room: Result<Option<u64>, Damage>,
) -> Result<(), Refusal>
    requires { Sized geo × Holds size (seen_out target) }
    ensures { growth_out result ≡ link_ends geo size (seen_out target) (space_out room) }
{
    drop_ends(geo, size, target)?;
    dirjudge::link_end(geo, size_then(size, target), room)
}

// 27 of all steps: the old name goes last.
fn ends_out(
    geo: Geometry,
    size: u64,
    old: u64,
    source: Result<Option<Hit>, Damage>,
    target: Result<Option<Hit>, Damage>,
    room: Result<Option<u64>, Damage>,
) -> Result<(), Refusal>
    requires { Sized geo × Holds size (seen_out target) × Holds old (seen_out source) }
    ensures { growth_out result ≡ ends_out geo size old (seen_out source) (seen_out target) (space_out room) }
{
    link_ends(geo, size, target, room)?;
    drop_ends(geo, old, source)
}

// The tail of a directory that lost its block, where the new name finds no room in the others.
fn tail_after(
    geo: Geometry,
    size: u64,
    alone: bool,
    room: Result<Option<u64>, Damage>,
) -> Result<(), Refusal>
    requires { Sized geo × (512 ≤ size) }
    ensures { growth_out result ≡ tail_after geo size alone (space_out room) }
{
    if !alone {
        return Ok(());
    }
    let Ok(None) = room else {
        return Ok(());
    };
    if inode_grow::tail_short(geo, size - 512, size) {
        return Err(Refusal::NotSupported);
    }
    Ok(())
}

fn tail_left(
    img: &[u8],
    geo: Geometry,
    s: Spot,
    target: Result<Option<Hit>, Damage>,
    room: Result<Option<u64>, Damage>,
) -> Result<(), Refusal>
    requires { Frame geo img.now × (s.at + 256 ≤ length img.now) × Holds s.shape.size (seen_out target) × (link_end geo (size_then s.shape.size (seen_out target)) (space_out room) ≡ got (tt {0})) }
    ensures { growth_out result ≡ tail_left geo s img.now (seen_out target) (space_out room) }
{
    let shape = s.shape;
    let Ok(Some(h)) = target else {
        return dirjudge::link_tail(img, geo, s, room);
    };
    tail_after(geo, shape.size, h.alone, room)
}

// 45, in the same order.
fn link_tails(
    img: &[u8],
    geo: Geometry,
    s: Spot,
    target: Result<Option<Hit>, Damage>,
    room: Result<Option<u64>, Damage>,
) -> Result<(), Refusal>
    requires { Frame geo img.now × (s.at + 256 ≤ length img.now) × Holds s.shape.size (seen_out target) × (link_end geo (size_then s.shape.size (seen_out target)) (space_out room) ≡ got (tt {0})) }
    ensures { growth_out result ≡ link_tails geo s img.now (seen_out target) (space_out room) }
{
    let shape = s.shape;
    drop_tails(geo, shape.size, target)?;
    tail_left(img, geo, s, target, room)
}

fn tails_out(
    img: &[u8],
    geo: Geometry,
    to: Spot,
    old: u64,
    source: Result<Option<Hit>, Damage>,
    target: Result<Option<Hit>, Damage>,
    room: Result<Option<u64>, Damage>,
) -> Result<(), Refusal>
    requires { Frame geo img.now × (to.at + 256 ≤ length img.now) × Holds to.shape.size (seen_out target) × Holds old (seen_out source) × (link_end geo (size_then to.shape.size (seen_out target)) (space_out room) ≡ got (tt {0})) }
    ensures { growth_out result ≡ tails_out geo img.now to old (seen_out source) (seen_out target) (space_out room) }
{
    link_tails(img, geo, to, target, room)?;
    drop_tails(geo, old, source)
}

// 27 over all steps, then 45 over all steps; room is looked for once.
pub fn room_out(
    img: &[u8],
    geo: Geometry,
    to: Spot,
    old: u64,
    n: u8,
    source: Result<Option<Hit>, Damage>,
    target: Result<Option<Hit>, Damage>,
) -> Result<(), Refusal>
    requires { Frame geo img.now × (to.at + 256 ≤ length img.now) × Holds to.shape.size (seen_out target) × Holds old (seen_out source) }
    ensures { growth_out result ≡ room_out geo img.now to old n (seen_out source) (seen_out target) }
{
    let shape = to.shape;
    let room = room_then(img, geo, to, n, target);
    ends_out(geo, shape.size, old, source, target, room)?;
    tails_out(img, geo, to, old, source, target, room)
}
