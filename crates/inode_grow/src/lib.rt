// Whether a file may grow: the port gives no tail more fragments.
#![tactic(auto)]

ghost use Rattle.std.specs.Prelude.{◌≡◌, ◌&&◌, not, ◌+◌, ◌≤◌, ◌<◌, length};
ghost use Rattle.sound.specs.Test.{Sized};
ghost use Rattle.frame.specs.Frame.{Frame};
ghost use Rattle.inode.specs.Shape.{sized, in_place};
ghost use Rattle.inode_grow.specs.Grow.{zones_bytes, tail_then, tail_short, grow_rule, growth_out};

use inode::Shape;
use mapping::Mapped;
use refusal::Refusal;
use volume::{BlockIdx, Geometry};

// The first byte past the triple zone.
pub fn zones_bytes(geo: Geometry) -> u64
    requires { geo.bsize ≤ 65536 }
    ensures { result ≡ zones_bytes geo }
{
    let p = mapping::per_list(geo);
    let end = 12 + mapping::span(p, 1) + mapping::span(p, 2) + mapping::span(p, 3);
    end * geo.bsize as u64
}

// How many fragments the last block of a file of that size holds once the file has grown.
fn tail_then(geo: Geometry, size: u64, new: u64) -> u64
    requires { Sized geo }
    ensures { result ≡ tail_then geo size new }
{
    let e = inode::size_in(geo, size);
    let n = inode::size_in(geo, new);
    if e.blocks < n.blocks {
        return geo.frag as u64;
    }
    n.frags
}

// Whether growing asks more fragments of a tail.
pub fn tail_short(geo: Geometry, size: u64, new: u64) -> bool
    requires { Sized geo }
    ensures { result ≡ tail_short geo size new }
{
    let e = inode::size_in(geo, size);
    (size < new)
        & (0 < e.frags)
        & (e.frags < geo.frag as u64)
        & (e.frags < tail_then(geo, size, new))
}

fn asks_more(geo: Geometry, s: Shape, new: u64) -> bool
    requires { Sized geo }
    ensures { result ≡ (sized s && not (in_place s) && tail_short geo s.size new) }
{
    inode::is_sized(s) & !inode::is_in_place(s) & tail_short(geo, s.size, new)
}

// 45 for a tail that is held and must grow.
pub fn grow_rule(img: &[u8], geo: Geometry, at: usize, s: Shape, new: u64) -> Result<(), Refusal>
    requires { Frame geo img.now × (at + 256 ≤ length img.now) }
    ensures { growth_out result ≡ grow_rule geo at s new img.now }
{
    if !asks_more(geo, s, new) {
        return Ok(());
    }
    let e = inode::size_in(geo, s.size);
    match mapping::resolve_block(img, geo, at, BlockIdx(e.blocks)) {
        Mapped::At(_) => Err(Refusal::NotSupported),
        Mapped::Hole => Ok(()),
        Mapped::Bad => Err(Refusal::Damaged),
        Mapped::Past => Err(Refusal::Damaged),
    }
}
