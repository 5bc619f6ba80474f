// dir.rs: dir_iter, as a cursor: each call tells one record, its name a part of the lent buffer.
#![tactic(auto)]

ghost use Rattle.std.specs.Prelude.{◌≡◌, is_ok, ◌+◌, ◌*◌, ◌≤◌, ◌<◌, length};
ghost use Rattle.frame.specs.Frame.{Frame};
ghost use Rattle.dirfile.specs.Block.{dir_block};
ghost use Rattle.inode.specs.Kind.{kind_of};
ghost use Rattle.dirnext.specs.Next.{listed_from, told_as, next_among, next_from, next_found, dir_next, next_of, next_answer, fetched, entry_name};

use dirblock::{Entry, Spot};
use dirblock_search::{is_listed, search_from};
use field::Order;
use inode::InodeType;
use inode_run::Spot as Place;
use refusal::{Damage, Refusal};
use volume::{Geometry, InodeNum};

// A record of a directory: its inode, which is not judged, its kind, where its name lies in the buffer, and the cursor behind it.
#[derive(Clone, Copy)]
pub struct DirEntry {
    pub inr: u32,
    pub kind: InodeType,
    pub from: usize,
    pub len: usize,
    pub next: u64,
}

// The first record of a block, from pos on, that is listed.
fn listed_from(o: Order, block: &[u8], from: usize) -> Result<Option<Spot>, Damage>
    ensures { result ≡ listed_from o block.now from }
{
    // Not the search's answer as it is, so that a must-fail edit can change what is answered here.
    let Ok(found) = search_from(o, block, from, |_, e| is_listed(e)) else {
        return Err(Damage); // not the end of the block
    };
    Ok(found)
}

// Block k read into the buffer, which is left as it was where the block cannot be read.
fn fetch(
    img: &[u8],
    geo: Geometry,
    at: usize,
    size: u64,
    k: u64,
    buf: &mut [u8],
) -> Result<(), Damage>
    requires { Frame geo img.now × (at + 256 ≤ length img.now) × (k * 512 + 512 ≤ size) × (512 ≤ length buf.old) }
    ensures { (buf.new, is_ok result) ≡ fetched buf.old (dir_block geo at size img.now k) }
{
    dirfile::read_block(img, geo, at, size, k, &mut buf[..512])
}

// The record at pos of block k, told.
fn tell(k: u64, pos: usize, e: Entry) -> Result<Option<DirEntry>, Refusal>
    requires { (k * 512 + pos + e.reclen ≤ 18446744073709551615) × (pos ≤ 512) × (e.kind < 16) }
    ensures { result ≡ next_of (told_as k pos e.inr e.reclen e.namelen (kind_of e.kind)) }
{
    let kind = inode::kind_of(e.kind as u16 * 4096).ok_or(Refusal::Damaged)?;
    Ok(Some(DirEntry {
        inr: e.inr,
        kind,
        from: pos + 8,
        len: e.namelen as usize,
        next: k * 512 + pos as u64 + e.reclen as u64,
    }))
}

// The blocks upward from the cursor's, up to the first record that is listed.
fn next_from(
    img: &[u8],
    geo: Geometry,
    at: usize,
    size: u64,
    cur: u64,
    buf: &mut [u8],
) -> Result<Option<DirEntry>, Refusal>
    requires { Frame geo img.now × (at + 256 ≤ length img.now) × (512 ≤ length buf.old) }
    ensures { (buf.new, result) ≡ next_answer (next_from geo at size img.now cur buf.old) }
{
    let o = geo.order;
    let n = size / 512;
    let mut pos = (cur % 512) as usize;
    for k in cur / 512..n {
        fetch(img, geo, at, size, k, buf)?;
        if let Some(s) = listed_from(o, &buf[0..512], pos)? {
            return tell(k, s.pos, s.entry);
        }
        pos = 0;
    }
    Ok(None)
}

// The call on an inode that is found.
fn next_found(
    img: &[u8],
    geo: Geometry,
    s: Place,
    cur: u64,
    buf: &mut [u8],
) -> Result<Option<DirEntry>, Refusal>
    requires { Frame geo img.now × (s.at + 256 ≤ length img.now) }
    ensures { (buf.new, result) ≡ next_answer (next_found geo s img.now cur buf.old) }
{
    let shape = s.shape;
    if !inode::is_dir(shape) {
        return Err(Refusal::NotDirectory);
    }
    if !(shape.size % 512 == 0) {
        return Err(Refusal::Damaged);
    }
    if buf.len() < 512 {
        return Err(Refusal::BufferTooSmall);
    }
    next_from(img, geo, s.at, shape.size, cur, buf)
}

// dir_next: the first listed record from the cursor on; dir_iter's records are those from cursor 0 on.
pub fn dir_next(
    img: &[u8],
    inr: InodeNum,
    cur: u64,
    buf: &mut [u8],
) -> Result<Option<DirEntry>, Refusal>
    ensures { (buf.new, result) ≡ next_answer (dir_next img.now inr.0 cur buf.old) }
{
    let (geo, s) = inode_read::know_inode(img, inr)?;
    next_found(img, geo, s, cur, buf)
}

// The name that an entry tells of, a part of the buffer that the call filled.
pub fn entry_name(buf: &[u8], e: DirEntry) -> &[u8]
    ensures { result.now ≡ entry_name buf.now e }
{
    let from = e.from;
    let len = e.len;
    if buf.len() < from {
        return &buf[0..0];
    }
    if buf.len() - from < len {
        return &buf[0..0];
    }
    let to = from + len;
    &buf[from..to]
}
