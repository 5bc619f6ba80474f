// xattr.rs: the extended attributes of an inode, listed and read.
#![tactic(auto)]

ghost use Rattle.std.specs.Prelude.{◌≡◌, ◌+◌, ◌≤◌, length};
ghost use Rattle.frame.specs.Frame.{Frame};
ghost use Rattle.attrrec.specs.Record.{gap, value_len};
ghost use Rattle.xattr.specs.Area.{area_of};
ghost use Rattle.xattr.specs.Calls.{hit_at, read_xattr, xattr_list_len, xattr_len, xattr_read, list_lies, xattr_list};

use attrrec::Entry;
use refusal::Refusal;
use volume::{Geometry, InodeNum};

pub mod blocks;
pub mod list;
pub mod walk;

// The attribute area of an inode: how many bytes, how many of them lie in the first block, and where the two parts begin.
#[derive(Clone, Copy)]
pub struct Area {
    pub size: usize,
    pub split: usize,
    pub first: usize,
    pub second: usize,
}

// xattr_list_len: the size of the attribute area.
pub fn xattr_list_len(img: &[u8], inr: InodeNum) -> Result<u32, Refusal>
    ensures { result ≡ xattr_list_len img.now inr.0 }
{
    let (geo, s) = inode_read::know_inode(img, inr)?;
    let o = geo.order;
    Ok(inode::read_extsize(img, o, s.at))
}

// read_xattr: the first attribute of that text, of the inode whose record is at `at`.
fn hit_at(
    img: &[u8],
    geo: Geometry,
    at: usize,
    name: &[u8],
) -> Result<(Area, usize, Entry), Refusal>
    requires { Frame geo img.now × (at + 256 ≤ length img.now) }
    ensures { result ≡ hit_at geo at img.now name.now }
{
    let o = geo.order;
    let a = blocks::area_of(img, geo, at)?;
    // Not a `?`, so that a must-fail edit can change what is answered here.
    let Ok(found) = walk::find_in(img, o, a, name) else {
        return Err(Refusal::Damaged); // what is behind it may have the name
    };
    let (b, e) = found.ok_or(Refusal::NoAttribute)?;
    Ok((a, b, e))
}

// The tests of the calls that name an attribute.
fn read_xattr(img: &[u8], inr: InodeNum, name: &[u8]) -> Result<(Area, usize, Entry), Refusal>
    ensures { result ≡ read_xattr img.now inr.0 name.now }
{
    let (geo, s) = inode_read::know_inode(img, inr)?;
    hit_at(img, geo, s.at, name)
}

// How long the value of the attribute e at b is.
fn value_len(b: usize, e: Entry) -> u32
    requires { gap b e.namelen + e.pad ≤ e.len }
    ensures { (result ≡ value_len b e) × (result ≤ e.len) }
{
    let skip = attrrec::gap_of(b, e.namelen);
    e.len - skip as u32 - e.pad as u32
}

// xattr_len: how long the value of an attribute is.
pub fn xattr_len(img: &[u8], inr: InodeNum, name: &[u8]) -> Result<u32, Refusal>
    ensures { result ≡ xattr_len img.now inr.0 name.now }
{
    let (_, b, e) = read_xattr(img, inr, name)?;
    Ok(value_len(b, e))
}

// xattr_read: the area is gathered into the buffer, and the value is the part of it that begins and ends there.
pub fn xattr_read(
    img: &[u8],
    inr: InodeNum,
    name: &[u8],
    buf: &mut [u8],
) -> Result<(usize, usize), Refusal>
    ensures { (buf.new, result) ≡ xattr_read img.now inr.0 name.now buf.old }
{
    let (a, b, e) = read_xattr(img, inr, name)?;
    let n = a.size;
    if buf.len() < n {
        return Err(Refusal::BufferTooSmall);
    }
    blocks::gather(img, a, 0, buf, 0, n);
    let from = b + attrrec::gap_of(b, e.namelen);
    Ok((from, from + value_len(b, e) as usize))
}

// xattr_list, of the inode whose record is at `at`.
fn list_at(img: &[u8], geo: Geometry, at: usize, out: &mut [u8]) -> Result<u32, Refusal>
    requires { Frame geo img.now × (at + 256 ≤ length img.now) }
    ensures { (out.new, result) ≡ list_lies geo img.now out.old (area_of geo at img.now) }
{
    let o = geo.order;
    let a = blocks::area_of(img, geo, at)?;
    let n = list::measure(img, o, a)?;
    if out.len() < n as usize {
        return Err(Refusal::BufferTooSmall);
    }
    list::write_texts(img, o, a, out);
    Ok(n)
}

// xattr_list: the text of each attribute and a NUL.
pub fn xattr_list(img: &[u8], inr: InodeNum, out: &mut [u8]) -> Result<u32, Refusal>
    ensures { (out.new, result) ≡ xattr_list img.now inr.0 out.old }
{
    let (geo, s) = inode_read::know_inode(img, inr)?;
    list_at(img, geo, s.at, out)
}
