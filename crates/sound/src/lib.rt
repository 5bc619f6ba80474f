// ufs/mod.rs (check): whether an image is a volume that is taken, tested first by every public call.
#![tactic(auto)]

ghost use Rattle.std.specs.Prelude.{◌≡◌, true, ◌+◌, ◌/◌, ◌≤◌, length};
ghost use Rattle.volume.specs.Volume.{geometry_of, byte_at, group_of};
ghost use Rattle.bits.specs.Bits.{is_frag};
ghost use Rattle.sound.specs.Clauses.{is_block_size, sizes_ok, places_ok, header_ok, within, counts_ok, totals_ok, super_ok, reserved_from, map_ok, body_ok, group_ok, groups_ok, zero_ok, soundb};
ghost use Rattle.sound.specs.Test.{Laid, Placed, Headed, taken_of, opened};

use field::Order;
use refusal::{Damage, Refusal};
use volume::{Count, Geometry, Group, Volume};

fn is_block_size(b: u32) -> bool
    ensures { result ≡ is_block_size b }
{
    (b == 4096) | (b == 8192) | (b == 16384) | (b == 32768) | (b == 65536)
}

fn is_frag(f: u32) -> bool
    ensures { result ≡ is_frag f }
{
    (f == 1) | (f == 2) | (f == 4) | (f == 8)
}

fn sizes_ok(g: Geometry) -> bool
    ensures { result ≡ sizes_ok g }
{
    is_block_size(g.bsize)
        & is_frag(g.frag)
        & (volume::product(g.fsize, g.frag) == g.bsize as usize)
        & (1 <= g.ncg)
        & (1 <= g.ipg)
        & g.ipg.is_multiple_of(8)
        & (1 <= g.fpg)
        & (g.fpg < 2147483648)
        & g.fpg.is_multiple_of(g.frag)
        & (volume::product(g.ncg, g.ipg) < 4294967296)
}

fn places_ok(g: Geometry) -> bool
    requires { g.fsize ≤ 65536 }
    ensures { result ≡ places_ok g }
{
    (66912 <= volume::bytes_of(g.cblkno, g.fsize))
        & (g.sblkno <= g.cblkno)
        & (g.cblkno < g.iblkno)
        & (volume::bytes_of(g.iblkno, g.fsize) + volume::bytes_of(g.ipg, 256)
            <= volume::bytes_of(g.dblkno, g.fsize))
}

// Counted in fragments, of which the image holds `frags`, so that nothing overflows.
fn header_ok(geo: Geometry, frags: usize, g: u32, r: Group) -> bool
    requires { (geo.fsize ≤ 65536) × (geo.cblkno ≤ geo.iblkno) }
    ensures { result ≡ header_ok geo frags g r }
{
    (1 <= r.ndblk)
        & (r.ndblk <= geo.fpg)
        & (volume::product(g, geo.fpg) + r.ndblk as usize <= frags)
        & (geo.dblkno <= r.ndblk)
        & (168 <= r.iusedoff)
        & (r.iusedoff as usize + geo.ipg as usize / 8 <= r.freeoff as usize)
        & (r.freeoff as usize + (r.ndblk as usize + 7) / 8
            <= volume::bytes_of(geo.iblkno - geo.cblkno, geo.fsize))
}

fn count_within(x: u32) -> bool
    ensures { result ≡ within 2147483639 4294967296 x }
{
    (x <= 2147483639) | (2147483657 <= x)
}

fn total_within(x: u64) -> bool
    ensures { result ≡ within 4611686018427387904 18446744073709551616 x }
{
    (x <= 4611686018427387904) | (13835058055282163712 <= x)
}

fn counts_ok(img: &[u8], o: Order, at: usize) -> bool
    requires { at + 168 ≤ length img.now }
    ensures { result ≡ counts_ok o at img.now }
{
    count_within(volume::read_count(img, o, at, Count::Nbfree))
        & count_within(volume::read_count(img, o, at, Count::Nifree))
        & count_within(volume::read_count(img, o, at, Count::Nffree))
}

fn totals_ok(img: &[u8], o: Order) -> bool
    requires { 66912 ≤ length img.now }
    ensures { result ≡ totals_ok o img.now }
{
    total_within(volume::read_total(img, o, Count::Nbfree))
        & total_within(volume::read_total(img, o, Count::Nifree))
        & total_within(volume::read_total(img, o, Count::Nffree))
}

fn super_ok(img: &[u8]) -> bool
    requires { 66912 ≤ length img.now }
    ensures { result ≡ super_ok img.now }
{
    (volume::magic(img, Order::Little, 65536) == 0x19540119) & totals_ok(img, Order::Little)
}

// The first of a group's reserved fragments.
pub fn reserved_from(geo: Geometry, g: u32) -> u32
    ensures { result ≡ reserved_from geo g }
{
    if g == 0 { 0 } else { geo.sblkno }
}

fn map_ok(img: &[u8], geo: Geometry, g: u32, at: usize, ndblk: u32) -> bool
    requires { (at + (ndblk + 7) / 8 ≤ length img.now) × (geo.dblkno ≤ ndblk) × (geo.sblkno ≤ geo.dblkno) × (ndblk ≤ 1073741824) }
    ensures { result ≡ map_ok geo g at ndblk img.now }
{
    let n = ndblk as usize;
    let end = (n + 7) / 8 * 8;
    let first = reserved_from(geo, g) as usize;
    bits::clear_bits(img, at, n, end - n)
        & bits::clear_bits(img, at, first, geo.dblkno as usize - first)
}

// What is asked of a group whose header is right.
fn body_ok(img: &[u8], geo: Geometry, g: u32, r: Group) -> bool
    requires { Laid geo (length img.now) × Placed geo g (length img.now) × Headed geo (length img.now / geo.fsize) g r }
    ensures { result ≡ body_ok img.now geo g r }
{
    let o = geo.order;
    let at = volume::frag_at(geo, g, geo.cblkno);
    let copy = volume::frag_at(geo, g, geo.sblkno);
    (volume::magic(img, o, copy) == 0x19540119)
        & (volume::group_magic(img, o, at) == 0x090255)
        & counts_ok(img, o, at)
        & map_ok(img, geo, g, at + r.freeoff as usize, r.ndblk)
}

// A group whose reserved fragments lie in the image.
fn record_ok(img: &[u8], geo: Geometry, g: u32) -> bool
    requires { Laid geo (length img.now) × Placed geo g (length img.now) }
    ensures { result ≡ group_ok img.now geo g }
{
    let frags = img.len() / (geo.fsize as usize);
    let o = geo.order;
    let r = volume::read_group(img, o, volume::frag_at(geo, g, geo.cblkno));
    if !header_ok(geo, frags, g, r) {
        return false;
    }
    body_ok(img, geo, g, r)
}

fn group_ok(img: &[u8], geo: Geometry, g: u32) -> bool
    requires { Laid geo (length img.now) }
    ensures { result ≡ group_ok img.now geo g }
{
    let frags = img.len() / (geo.fsize as usize);
    if frags < volume::product(g, geo.fpg) + geo.dblkno as usize {
        return false;
    }
    record_ok(img, geo, g)
}

fn groups_ok(img: &[u8], geo: Geometry) -> bool
    requires { Laid geo (length img.now) }
    ensures { result ≡ groups_ok img.now geo }
{
    for g in 0..geo.ncg {
        if !group_ok(img, geo, g) {
            return false;
        }
    }
    true
}

// Whether inode 0 is marked used.
fn zero_ok(img: &[u8], geo: Geometry) -> bool
    requires { Laid geo (length img.now) × Placed geo 0 (length img.now) × Headed geo (length img.now / geo.fsize) 0 (group_of geo.order (byte_at geo 0 geo.cblkno) img.now) }
    ensures { result ≡ zero_ok img.now geo }
{
    let o = geo.order;
    let at = volume::frag_at(geo, 0, geo.cblkno);
    let r = volume::read_group(img, o, at);
    bits::isfreefrag(img, at + r.iusedoff as usize, 0)
}

// Whether the image is a sound volume, of every length and content.
pub fn sound(img: &[u8]) -> bool
    ensures { result ≡ soundb img.now }
{
    let n = img.len();
    if n < 66912 {
        return false;
    }
    if 1073741824 < n {
        return false;
    }
    let geo = volume::read_geometry(img);
    if !sizes_ok(geo) {
        return false;
    }
    if !places_ok(geo) {
        return false;
    }
    if !super_ok(img) {
        return false;
    }
    if !groups_ok(img, geo) {
        return false;
    }
    zero_ok(img, geo)
}

fn geometry_of_sound(img: &[u8]) -> Geometry
    requires { soundb img.now ≡ true }
    ensures { result ≡ geometry_of img.now }
{
    volume::read_geometry(img)
}

// The test that every public call makes first.
pub fn take_volume(img: &[u8]) -> Result<Geometry, Damage>
    ensures { result ≡ taken_of img.now }
{
    if !sound(img) {
        return Err(Damage);
    }
    Ok(geometry_of_sound(img))
}

// Ufs::new: the volume, to be read, or written too.
pub fn open(img: &[u8], writable: bool) -> Result<Volume, Refusal>
    ensures { result ≡ opened img.now writable }
{
    if !sound(img) {
        return Err(Refusal::Damaged);
    }
    Ok(Volume { writable })
}
