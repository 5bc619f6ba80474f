// data.rs, ufs/mod.rs: the kinds of number, the open volume, and the records of superblock and group.
#![tactic(auto)]

ghost use Rattle.std.specs.Prelude.{◌≡◌, ◌+◌, ◌*◌, ◌/◌, ◌%◌, ◌≤◌, ◌<◌, length};
ghost use Rattle.volume.specs.Volume.{geometry_of, byte_at, cg_at, inode_at, magic_at, group_magic_at, group_of, count_at, put_count, counts_of, total_at, put_total, totals_of, count_place, total_place};

use field::{Number, Order};

// An inode's number.
#[derive(Clone, Copy)]
pub struct InodeNum(pub u32);

// The number of a fragment of the disk, an address.
#[derive(Clone, Copy)]
pub struct FragNum(pub u64);

// The index of a block in its file.
#[derive(Clone, Copy)]
pub struct BlockIdx(pub u64);

impl InodeNum {
    // The root directory of a volume.
    pub const ROOT: u32 = 2;
}

// A volume as it was opened.
#[derive(Clone, Copy)]
pub struct Volume {
    pub writable: bool,
}

// What the superblock says of where things lie. The order is that of every number on the volume.
#[derive(Clone, Copy)]
pub struct Geometry {
    pub order: Order,
    pub sblkno: u32,
    pub cblkno: u32,
    pub iblkno: u32,
    pub dblkno: u32,
    pub ncg: u32,
    pub bsize: u32,
    pub fsize: u32,
    pub frag: u32,
    pub ipg: u32,
    pub fpg: u32,
}

// The part of a group's record that no call changes.
#[derive(Clone, Copy)]
pub struct Group {
    pub ndblk: u32,
    pub iusedoff: u32,
    pub freeoff: u32,
}

// Which of the counts: free blocks, free inodes, or free fragments outside of free blocks.
#[derive(Clone, Copy)]
pub enum Count {
    Nbfree,
    Nifree,
    Nffree,
}

// A group's counts. They are signed on the disk and kept here modulo 2^32.
#[derive(Clone, Copy)]
pub struct Counts {
    pub nbfree: u32,
    pub nifree: u32,
    pub nffree: u32,
}

// The superblock's counts, kept modulo 2^64.
#[derive(Clone, Copy)]
pub struct Totals {
    pub nbfree: u64,
    pub nifree: u64,
    pub nffree: u64,
}

// The whole product of two 32-bit numbers, to which two more can be added.
pub fn product(a: u32, b: u32) -> usize
    ensures { (result ≡ a * b) × (result + 8589934590 < 18446744073709551616) }
{
    (a as usize) * (b as usize)
}

// n units of at most 65,536 bytes, in bytes.
pub fn bytes_of(n: u32, unit: u32) -> usize
    requires { unit ≤ 65536 }
    ensures { (result ≡ n * unit) × (result < 281474976710656) }
{
    (n as usize) * (unit as usize)
}

// The superblock's part that says where things lie.
pub fn read_geometry(img: &[u8]) -> Geometry
    requires { 66912 ≤ length img.now }
    ensures { result ≡ geometry_of img.now }
{
    Geometry {
        order: Order::Little,
        sblkno: u32::get(Order::Little, img, 65536 + 8),
        cblkno: u32::get(Order::Little, img, 65536 + 12),
        iblkno: u32::get(Order::Little, img, 65536 + 16),
        dblkno: u32::get(Order::Little, img, 65536 + 20),
        ncg: u32::get(Order::Little, img, 65536 + 44),
        bsize: u32::get(Order::Little, img, 65536 + 48),
        fsize: u32::get(Order::Little, img, 65536 + 52),
        frag: u32::get(Order::Little, img, 65536 + 56),
        ipg: u32::get(Order::Little, img, 65536 + 184),
        fpg: u32::get(Order::Little, img, 65536 + 188),
    }
}

// Where fragment f of group g begins.
pub fn frag_at(geo: Geometry, g: u32, f: u32) -> usize
    requires { byte_at geo g f ≤ 1073741824 }
    ensures { result ≡ byte_at geo g f }
{
    (product(g, geo.fpg) + f as usize) * (geo.fsize as usize)
}

// Where a fragment of the disk begins.
pub fn address_at(geo: Geometry, a: FragNum) -> usize
    requires { a.0 * geo.fsize ≤ 1073741824 }
    ensures { result ≡ a.0 * geo.fsize }
{
    (a.0 as usize) * (geo.fsize as usize)
}

// ino_to_cg: the group of an inode.
pub fn ino_to_cg(geo: Geometry, inr: InodeNum) -> u32
    requires { 0 < geo.ipg }
    ensures { result ≡ inr.0 / geo.ipg }
{
    inr.0 / geo.ipg
}

// ino_to_fso: where an inode's record begins.
pub fn ino_to_fso(geo: Geometry, inr: InodeNum) -> usize
    requires { (0 < geo.ipg) × (inode_at geo inr.0 ≤ 1073741824) }
    ensures { result ≡ inode_at geo inr.0 }
{
    let i = inr.0;
    let ipg = geo.ipg;
    frag_at(geo, ino_to_cg(geo, inr), geo.iblkno) + (i % ipg) as usize * 256
}

// The magic number of the superblock, or of a copy of it, at `at`.
pub fn magic(img: &[u8], o: Order, at: usize) -> u32
    requires { at + 1376 ≤ length img.now }
    ensures { result ≡ magic_at o at img.now }
{
    u32::get(o, img, at + 1372)
}

// The magic number of the group record at `at`.
pub fn group_magic(img: &[u8], o: Order, at: usize) -> u32
    requires { at + 168 ≤ length img.now }
    ensures { result ≡ group_magic_at o at img.now }
{
    u32::get(o, img, at + 4)
}

// The fixed part of the group record at `at`.
pub fn read_group(img: &[u8], o: Order, at: usize) -> Group
    requires { at + 168 ≤ length img.now }
    ensures { result ≡ group_of o at img.now }
{
    Group {
        ndblk: u32::get(o, img, at + 20),
        iusedoff: u32::get(o, img, at + 92),
        freeoff: u32::get(o, img, at + 96),
    }
}

// Where a count stands in the group record.
#[tactic(auto, unfolding(crate::specs::Volume::count_place))]
pub fn count_place(c: Count) -> usize
    ensures { (result ≡ count_place c) × (result ≤ 36) }
{
    match c {
        Count::Nbfree => 28,
        Count::Nifree => 32,
        Count::Nffree => 36,
    }
}

// A count of the group record at `at`.
pub fn read_count(img: &[u8], o: Order, at: usize, c: Count) -> u32
    requires { at + 168 ≤ length img.now }
    ensures { result ≡ count_at o c at img.now }
{
    u32::get(o, img, at + count_place(c))
}

// All counts of the group record at `at`.
pub fn read_counts(img: &[u8], o: Order, at: usize) -> Counts
    requires { at + 168 ≤ length img.now }
    ensures { result ≡ counts_of o at img.now }
{
    Counts {
        nbfree: read_count(img, o, at, Count::Nbfree),
        nifree: read_count(img, o, at, Count::Nifree),
        nffree: read_count(img, o, at, Count::Nffree),
    }
}

// A count of the group record at `at`, written.
pub fn put_count(img: &mut [u8], o: Order, at: usize, c: Count, v: u32)
    requires { at + 168 ≤ length img.old }
    ensures { img.new ≡ put_count o c at v img.old }
{
    v.put(o, img, at + count_place(c));
}

// Where a total stands in the superblock.
#[tactic(auto, unfolding(crate::specs::Volume::total_place))]
pub fn total_place(c: Count) -> usize
    ensures { (result ≡ total_place c) × (result ≤ 1032) }
{
    match c {
        Count::Nbfree => 1016,
        Count::Nifree => 1024,
        Count::Nffree => 1032,
    }
}

// A total of the superblock.
pub fn read_total(img: &[u8], o: Order, c: Count) -> u64
    requires { 66912 ≤ length img.now }
    ensures { result ≡ total_at o c img.now }
{
    u64::get(o, img, 65536 + total_place(c))
}

// All totals of the superblock.
pub fn read_totals(img: &[u8], o: Order) -> Totals
    requires { 66912 ≤ length img.now }
    ensures { result ≡ totals_of o img.now }
{
    Totals {
        nbfree: read_total(img, o, Count::Nbfree),
        nifree: read_total(img, o, Count::Nifree),
        nffree: read_total(img, o, Count::Nffree),
    }
}

// A total of the superblock, written.
pub fn put_total(img: &mut [u8], o: Order, c: Count, v: u64)
    requires { 66912 ≤ length img.old }
    ensures { img.new ≡ put_total o c v img.old }
{
    v.put(o, img, 65536 + total_place(c));
}
