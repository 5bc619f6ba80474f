// inode.rs, data.rs: the inode's record, its constants, and its size in blocks and fragments.
#![tactic(auto)]

ghost use Rattle.std.specs.Prelude.{◌≡◌, ◌+◌, ◌*◌, ◌≤◌, ◌<◌, length, [], ◌∷◌};
ghost use Rattle.inode.specs.Size.{size_in, extent_of, held_at};
ghost use Rattle.inode.specs.Shape.{shape_of, address_at, type_of, is_dir, sized, in_place};
ghost use Rattle.sound.specs.Test.{Sized};
ghost use Rattle.store.specs.Store.{apply};
ghost use Rattle.inode.specs.Places.{nlink_at, nlink_write, size_at, size_write, blocks_at, blocks_write, address_write, generation_at, extsize_at, extb_at};
ghost use Rattle.inode.specs.Kind.{type_number, kind_of, attr_of};

use field::{Number, Order};
use volume::{BlockIdx, FragNum, Geometry, InodeNum};

// A file's whole blocks, and the fragments of its tail.
#[derive(Clone, Copy)]
pub struct Extent {
    pub blocks: u64,
    pub frags: u64,
}

// What a record says of how the data lie.
#[derive(Clone, Copy)]
pub struct Shape {
    pub mode: u16,
    pub size: u64,
    pub blocks: u64,
}

// When the data were read, when they and the record were changed, and when the inode was made. Signed on the disk, kept modulo 2^64 and 2^32.
#[derive(Clone, Copy)]
pub struct Times {
    pub atime: u64,
    pub mtime: u64,
    pub ctime: u64,
    pub birthtime: u64,
    pub mtimensec: u32,
    pub atimensec: u32,
    pub ctimensec: u32,
    pub birthnsec: u32,
}

// data.rs: Inode. The record whole.
#[derive(Clone, Copy)]
pub struct Inode {
    pub mode: u16,
    pub nlink: u16,
    pub uid: u32,
    pub gid: u32,
    pub blksize: u32,
    pub size: u64,
    pub blocks: u64,
    pub times: Times,
    pub generation: u32,
    pub kernflags: u32,
    pub flags: u32,
    pub extsize: u32,
    pub extb: [u64; 2],
    pub direct: [u64; 12],
    pub indirect: [u64; 3],
    pub modrev: u64,
    pub ignored: u32,
    pub ckhash: u32,
    pub spare: [u32; 2],
}

// data.rs: InodeType.
#[derive(Clone, Copy)]
pub enum InodeType {
    NamedPipe = 1,
    CharDevice = 2,
    Directory = 4,
    BlockDevice = 6,
    RegularFile = 8,
    Symlink = 10,
    Socket = 12,
}

// data.rs: InodeAttr. What is told of an inode.
#[derive(Clone, Copy)]
pub struct InodeAttr {
    pub inr: InodeNum,
    pub perm: u16,
    pub kind: InodeType,
    pub size: u64,
    pub blocks: u64,
    pub times: Times,
    pub nlink: u16,
    pub uid: u32,
    pub gid: u32,
    pub generation: u32,
    pub blksize: u32,
    pub flags: u32,
    pub kernflags: u32,
    pub extsize: u32,
}

impl Inode {
    // The bytes of a record.
    pub const RECORD: usize = 256;

    // How many addresses are direct, and how many lead to lists.
    pub const DIRECT: u64 = 12;

    pub const INDIRECT: u64 = 3;

    // inode_size: the number of blocks and fragments that a size needs.
    pub fn inode_size(bs: u64, fs: u64, size: u64) -> Extent
        requires { (0 < bs) × (0 < fs) × (bs ≤ 65536) × (fs ≤ 65536) }
        ensures { result ≡ size_in bs fs size }
    {
        Extent {
            blocks: size / bs,
            frags: (size % bs + (fs - 1)) / fs,
        }
    }
}

// The blocks and fragments of a size on this volume.
pub fn size_in(geo: Geometry, size: u64) -> Extent
    requires { Sized geo }
    ensures { (result ≡ extent_of geo size) × (result.frags * geo.fsize ≤ geo.bsize) × (geo.bsize ≤ 65536) }
{
    Inode::inode_size(geo.bsize as u64, geo.fsize as u64, size)
}

// inode_get_block_size: how many bytes the block at an index holds.
pub fn get_block_size(geo: Geometry, size: u64, i: BlockIdx) -> Option<u64>
    requires { Sized geo }
    ensures { result ≡ held_at geo size i.0 }
{
    let e = size_in(geo, size);
    let n = i.0;
    if n < e.blocks {
        return Some(geo.bsize as u64);
    }
    if n - e.blocks < e.frags {
        return Some(e.frags * geo.fsize as u64);
    }
    None
}

// What the record at `at` says of how the data lie.
pub fn read_shape(img: &[u8], o: Order, at: usize) -> Shape
    requires { at + 256 ≤ length img.now }
    ensures { result ≡ shape_of o at img.now }
{
    Shape {
        mode: u16::get(o, img, at + 0),
        size: u64::get(o, img, at + 16),
        blocks: u64::get(o, img, at + 24),
    }
}

// The k-th of the record's addresses: those past the direct ones lead to lists.
pub fn read_address(img: &[u8], o: Order, at: usize, k: u64) -> FragNum
    requires { (at + 256 ≤ length img.now) × (k < 15) }
    ensures { result.0 ≡ address_at o at k img.now }
{
    FragNum(u64::get(o, img, at + 112 + k as usize * 8))
}

// The kind's number, as a directory record has it.
pub fn type_of(mode: u16) -> u16
    ensures { result ≡ type_of mode }
{
    mode / 4096
}

pub fn is_dir(s: Shape) -> bool
    ensures { result ≡ is_dir s }
{
    type_of(s.mode) == 4
}

// Whether the inode's kind has a size.
pub fn is_sized(s: Shape) -> bool
    ensures { result ≡ sized s }
{
    let t = type_of(s.mode);
    (t == 8) | (t == 4) | (t == 10)
}

// Whether it is a link whose text stands in the record, in place of addresses.
pub fn is_in_place(s: Shape) -> bool
    ensures { result ≡ in_place s }
{
    let link = type_of(s.mode) == 10;
    link & ((s.size < 120) | (s.blocks == 0))
}

// ---- single numbers of the record at `at`

pub fn read_nlink(img: &[u8], o: Order, at: usize) -> u16
    requires { at + 256 ≤ length img.now }
    ensures { result ≡ nlink_at o at img.now }
{
    u16::get(o, img, at + 2)
}

pub fn put_nlink(img: &mut [u8], o: Order, at: usize, v: u16)
    requires { at + 256 ≤ length img.old }
    ensures { img.new ≡ apply (nlink_write o at v ∷ []) img.old }
{
    v.put(o, img, at + 2);
}

pub fn read_size(img: &[u8], o: Order, at: usize) -> u64
    requires { at + 256 ≤ length img.now }
    ensures { result ≡ size_at o at img.now }
{
    u64::get(o, img, at + 16)
}

pub fn put_size(img: &mut [u8], o: Order, at: usize, v: u64)
    requires { at + 256 ≤ length img.old }
    ensures { img.new ≡ apply (size_write o at v ∷ []) img.old }
{
    v.put(o, img, at + 16);
}

pub fn read_blocks(img: &[u8], o: Order, at: usize) -> u64
    requires { at + 256 ≤ length img.now }
    ensures { result ≡ blocks_at o at img.now }
{
    u64::get(o, img, at + 24)
}

pub fn put_blocks(img: &mut [u8], o: Order, at: usize, v: u64)
    requires { at + 256 ≤ length img.old }
    ensures { img.new ≡ apply (blocks_write o at v ∷ []) img.old }
{
    v.put(o, img, at + 24);
}

pub fn put_address(img: &mut [u8], o: Order, at: usize, k: u64, v: FragNum)
    requires { (at + 256 ≤ length img.old) × (k < 15) }
    ensures { img.new ≡ apply (address_write o at k v.0 ∷ []) img.old }
{
    v.0.put(o, img, at + 112 + k as usize * 8);
}

pub fn read_generation(img: &[u8], o: Order, at: usize) -> u32
    requires { at + 256 ≤ length img.now }
    ensures { result ≡ generation_at o at img.now }
{
    u32::get(o, img, at + 80)
}

pub fn read_extsize(img: &[u8], o: Order, at: usize) -> u32
    requires { at + 256 ≤ length img.now }
    ensures { result ≡ extsize_at o at img.now }
{
    u32::get(o, img, at + 92)
}

pub fn read_extb(img: &[u8], o: Order, at: usize, j: u64) -> u64
    requires { (at + 256 ≤ length img.now) × (j < 2) }
    ensures { result ≡ extb_at o at j img.now }
{
    u64::get(o, img, at + 96 + j as usize * 8)
}

// ---- kinds

#[tactic(auto, unfolding(crate::specs::Kind::type_number))]
pub fn type_number(k: InodeType) -> u8
    ensures { result ≡ type_number k }
{
    k as u8
}

pub fn kind_of(mode: u16) -> Option<InodeType>
    ensures { result ≡ kind_of (type_of mode) }
{
    match type_of(mode) {
        1 => Some(InodeType::NamedPipe),
        2 => Some(InodeType::CharDevice),
        4 => Some(InodeType::Directory),
        6 => Some(InodeType::BlockDevice),
        8 => Some(InodeType::RegularFile),
        10 => Some(InodeType::Symlink),
        12 => Some(InodeType::Socket),
        _ => None,
    }
}

// inode.rs: as_attr.
pub fn as_attr(inr: InodeNum, kind: InodeType, ino: Inode) -> InodeAttr
    ensures { result ≡ attr_of inr.0 kind ino }
{
    let times = ino.times;
    InodeAttr {
        inr,
        perm: ino.mode % 4096,
        kind,
        size: ino.size,
        blocks: ino.blocks,
        times,
        nlink: ino.nlink,
        uid: ino.uid,
        gid: ino.gid,
        generation: ino.generation,
        blksize: ino.blksize,
        flags: ino.flags,
        kernflags: ino.kernflags,
        extsize: ino.extsize,
    }
}
