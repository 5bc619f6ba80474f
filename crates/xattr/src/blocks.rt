// xattr.rs: iter_xattr, the gathering. Where an inode's attribute area lies, and its bytes copied out.
ghost use Rattle.std.specs.Prelude.{◌≡◌, ◌+◌, ◌-◌, ◌/◌, ◌≤◌, ◌<◌, length};
ghost use Rattle.field.specs.Field.{part, put};
ghost use Rattle.frame.specs.Frame.{Frame};
ghost use Rattle.xattr.specs.Area.{block_at, area_sized, area_of, gathered, Inside};

use crate::Area;
use refusal::Damage;
use volume::{FragNum, Geometry};

// How many fragments n bytes fill.
fn frags_of(geo: Geometry, n: usize) -> u64
    requires { (n < 131072) × (0 < geo.fsize) }
    ensures { result ≡ (n + (geo.fsize - 1)) / geo.fsize }
{
    let fs = geo.fsize as u64;
    (n as u64 + (fs - 1)) / fs
}

// Where the n needed bytes of the j-th block begin.
fn block_at(img: &[u8], geo: Geometry, at: usize, j: u64, n: usize) -> Result<usize, Damage>
    requires { Frame geo img.now × (at + 256 ≤ length img.now) × (j < 2) × (n < 131072) }
    ensures { result ≡ block_at geo at img.now j n }
{
    if n == 0 {
        return Ok(0);
    }
    let o = geo.order;
    let a = FragNum(inode::read_extb(img, o, at, j));
    if a.0 == 0 {
        return Err(Damage);
    }
    if frame::run_ok(img, geo, a, frags_of(geo, n)) {
        return Ok(volume::address_at(geo, a));
    }
    Err(Damage)
}

// An area of that size.
fn area_sized(img: &[u8], geo: Geometry, at: usize, size: usize) -> Result<Area, Damage>
    requires { Frame geo img.now × (at + 256 ≤ length img.now) }
    ensures { result ≡ area_sized geo at img.now size }
{
    let bs = geo.bsize as usize;
    if 2 * bs <= size {
        return Err(Damage);
    }
    // how many of the bytes lie in the first block
    let split = size.min(bs);
    let first = block_at(img, geo, at, 0, split)?;
    let second = block_at(img, geo, at, 1, size - split)?;
    Ok(Area {
        size,
        split,
        first,
        second,
    })
}

// The area of the inode whose record is at `at`.
pub fn area_of(img: &[u8], geo: Geometry, at: usize) -> Result<Area, Damage>
    requires { Frame geo img.now × (at + 256 ≤ length img.now) }
    ensures { result ≡ area_of geo at img.now }
{
    let o = geo.order;
    area_sized(img, geo, at, inode::read_extsize(img, o, at) as usize)
}

// n bytes of the area from `from` on, written to dst from `at`.
pub fn gather(img: &[u8], a: Area, from: usize, dst: &mut [u8], at: usize, n: usize)
    requires { Inside a img.now × (from + n ≤ a.size) × (at + n ≤ length dst.old) }
    ensures { dst.new ≡ put at (part n from (gathered a img.now)) dst.old }
{
    let split = a.split;
    if split <= from {
        field::copy_bytes(dst, at, img, a.second + (from - split), n);
        return;
    }
    if from + n <= split {
        field::copy_bytes(dst, at, img, a.first + from, n);
        return;
    }
    let m = split - from;
    field::copy_bytes(dst, at, img, a.first + from, m);
    field::copy_bytes(dst, at + m, img, a.second, n - m);
}
