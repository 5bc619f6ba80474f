// balloc.rs, blk_free: whether blocks and fragments may be taken back.
#![tactic(auto)]

ghost use Rattle.std.specs.Prelude.{◌≡◌, ◌+◌, ◌-◌, ◌/◌, ◌%◌, ◌<◌, ◌≤◌, true, false, length, Ok};
ghost use Rattle.refusal.specs.declared.Refusal.TheVariants.{Damaged};
ghost use Rattle.volume.specs.Volume.{cg_at, counts_of};
ghost use Rattle.bits.specs.Bits.{bits_are};
ghost use Rattle.sound.specs.Sound.{group_at, free_at};
ghost use Rattle.frame.specs.Frame.{Frame};
ghost use Rattle.balloc_take.specs.Take.{good_size, in_block, whole_then, counts_fit, ask, take_test};
ghost use Rattle.balloc_take.specs.Run.{BackRun};

use refusal::Refusal;
use volume::{Counts, FragNum, Geometry};

pub mod fits;

// A positive multiple of fsize up to bsize.
pub fn good_size(geo: Geometry, size: u64) -> bool
    requires { 0 < geo.fsize }
    ensures { result ≡ good_size geo size }
{
    (0 < size) & (size % geo.fsize as u64 == 0) & (size <= geo.bsize as u64)
}

// fs.h, fragnum: an address' fragment in its block.
fn fragnum(geo: Geometry, a: FragNum) -> u64
    requires { 0 < geo.frag }
    ensures { result ≡ a.0 % geo.frag }
{
    a.0 % geo.frag as u64
}

// Whether n fragments from a lie inside one block.
fn in_block(geo: Geometry, a: FragNum, n: u64) -> bool
    requires { 0 < geo.frag }
    ensures { result ≡ in_block geo a.0 n }
{
    n <= geo.frag as u64 - fragnum(geo, a)
}

// A group's counts.
pub fn counts_at(img: &[u8], geo: Geometry, g: u32) -> Counts
    requires { Frame geo img.now × (g < geo.ncg) }
    ensures { result ≡ counts_of geo.order (cg_at geo g) img.now }
{
    let o = geo.order;
    volume::read_counts(img, o, frame::cg_addr(img, geo, g))
}

// Where the free map of group g begins.
fn free_at(img: &[u8], geo: Geometry, g: u32) -> usize
    requires { Frame geo img.now × (g < geo.ncg) }
    ensures { (result ≡ free_at geo g img.now) × (result + ((group_at geo g img.now).ndblk + 7) / 8 ≤ length img.now) }
{
    let r = frame::group_at(img, geo, g);
    frame::cg_addr(img, geo, g) + r.freeoff as usize
}

// Where the map byte of fragment f of group g lies.
pub fn map_at(img: &[u8], geo: Geometry, g: u32, f: u32) -> usize
    requires { Frame geo img.now × (g < geo.ncg) × (f < (group_at geo g img.now).ndblk) }
    ensures { (result ≡ free_at geo g img.now + f / 8) × (result < length img.now) }
{
    free_at(img, geo, g) + (f / 8) as usize
}

// Whether the block is wholly free once the run is back: from its one map byte.
pub fn whole_then(img: &[u8], geo: Geometry, g: u32, f: u32, n: u32) -> bool
    requires { BackRun geo img.now g f n }
    ensures { result ≡ whole_then geo g f n img.now }
{
    let at = map_at(img, geo, g, f);
    let s = (f % 8) as usize;
    let frag = geo.frag as usize;
    let byte = bits::put_bits(img[at], s, n as usize, true);
    bits::all_free(byte, s - s % frag, frag)
}

// Whether no count that is computed on the way leaves its type.
fn counts_fit(img: &[u8], geo: Geometry, g: u32, f: u32, n: u32) -> bool
    requires { BackRun geo img.now g f n }
    ensures { result ≡ counts_fit geo g f n img.now }
{
    let o = geo.order;
    let c = counts_at(img, geo, g);
    let t = volume::read_totals(img, o);
    if n == geo.frag {
        return fits::block_fits(c, t);
    }
    if !fits::frags_fit(c, t, n) {
        return false;
    }
    if whole_then(img, geo, g, f, n) {
        fits::loose_fit(c, t, n, geo.frag) & fits::block_fits(c, t)
    } else {
        true
    }
}

// Whether all bits of a run that has its place are 0, and the counts have room.
fn run_test(img: &[u8], geo: Geometry, g: u32, f: u32, n: u32) -> Result<(), Refusal>
    requires { BackRun geo img.now g f n }
    ensures { result ≡ ask (bits_are 0 img.now (free_at geo g img.now) f n) Damaged (ask (counts_fit geo g f n img.now) Damaged (Ok tt)) }
{
    if !bits::clear_bits(img, free_at(img, geo, g), f as usize, n as usize) {
        return Err(Refusal::Damaged);
    }
    if !counts_fit(img, geo, g, f, n) {
        return Err(Refusal::Damaged);
    }
    Ok(())
}

// fs.h, dtog and dtogd: an address' group, and its fragment there.
pub fn dtog(geo: Geometry, a: FragNum) -> u32
    requires { (0 < geo.fpg) × (a.0 / geo.fpg < geo.ncg) }
    ensures { result ≡ a.0 / geo.fpg }
{
    (a.0 / geo.fpg as u64) as u32
}

pub fn dtogd(geo: Geometry, a: FragNum) -> u32
    requires { 0 < geo.fpg }
    ensures { result ≡ a.0 % geo.fpg }
{
    (a.0 % geo.fpg as u64) as u32
}

// fs.h, numfrags: a good size in fragments.
pub fn numfrags(geo: Geometry, size: u64) -> u32
    requires { (0 < geo.fsize) × (size ≤ geo.bsize) }
    ensures { result ≡ size / geo.fsize }
{
    (size / geo.fsize as u64) as u32
}

// Whether the run from the address a, whatever it and the size are, may be taken back.
pub fn take_test(img: &[u8], geo: Geometry, a: FragNum, size: u64) -> Result<(), Refusal>
    requires { Frame geo img.now }
    ensures { result ≡ take_test geo a.0 size img.now }
{
    if !good_size(geo, size) {
        return Err(Refusal::Invalid);
    }
    let n = numfrags(geo, size);
    if !in_block(geo, a, n as u64) {
        return Err(Refusal::Invalid);
    }
    if !frame::run_ok(img, geo, a, n as u64) {
        return Err(Refusal::Damaged);
    }
    run_test(img, geo, dtog(geo, a), dtogd(geo, a), n)
}
