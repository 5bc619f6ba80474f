// inode.rs: reading a file.
#![tactic(auto)]

ghost use Rattle.std.specs.Prelude.{is_ok, ◌≡◌, ◌+◌, ◌≤◌, ◌<◌, length};
ghost use Rattle.field.specs.Field.{put};
ghost use Rattle.frame.specs.Frame.{Frame};
ghost use Rattle.inode_run.specs.Run.{readable};
ghost use Rattle.inode_read.specs.Read.{read_at, piece_of, Reaches};
ghost use Rattle.inode_read.specs.Calls.{place_in, known_of, asked, read_out, inode_read, read_answer};

use inode_run::{Run, Spot};
use refusal::{Damage, Refusal};
use volume::{BlockIdx, Geometry, InodeNum};

// The tests that every reading call begins with: the volume's, and the inode's.
pub fn know_inode(img: &[u8], inr: InodeNum) -> Result<(Geometry, Spot), Refusal>
    ensures { result ≡ known_of (place_in img.now inr.0) }
{
    let geo = sound::take_volume(img)?;
    let s = inode_run::find_inode(img, geo, inr)?;
    Ok((geo, s))
}

// n bytes of one block, from its byte `from` on, written to the buffer from `at`; none of one that cannot be read.
fn read_piece(
    img: &[u8],
    geo: Geometry,
    r: Run,
    from: usize,
    buf: &mut [u8],
    at: usize,
    n: usize,
) -> Result<(), Damage>
    requires { Reaches geo img.now r (from + n) × (at + n ≤ length buf.old) × (length img.now ≤ 1073741824) }
    ensures { (is_ok result ≡ readable r) × (buf.new ≡ put at (piece_of geo img.now r from n) buf.old) }
{
    match r {
        Run::At(a, m) => {
            field::copy_bytes(buf, at, img, volume::address_at(geo, a) + from, n);
            Ok(())
        }
        Run::Hole(m) => {
            field::zero_bytes(buf, at, n);
            Ok(())
        }
        Run::Past => Err(Damage),
        Run::Bad => Err(Damage),
    }
}

// n bytes of the file from `off` on, block by block.
fn read_at(
    img: &[u8],
    geo: Geometry,
    at: usize,
    size: u64,
    off: u64,
    buf: &mut [u8],
    n: usize,
) -> Result<u64, Refusal>
    requires { Frame geo img.now × (at + 256 ≤ length img.now) × (0 < n) × (n ≤ length buf.old) × (off + n ≤ size) }
    ensures { (buf.new, result) ≡ read_answer (read_at geo at size img.now off n buf.old) }
{
    let bs = geo.bsize as u64;
    let mut i = off / bs;
    let mut from = (off % bs) as usize;
    let mut done = 0;
    // not a `for`: the step is the piece's length, and `done`, `from` and `i` move together
    while done < n {
        let num = (geo.bsize as usize - from).min(n - done);
        let r = inode_run::run_of(img, geo, at, size, BlockIdx(i));
        read_piece(img, geo, r, from, buf, done, num)?;
        done += num;
        from = 0;
        i += 1;
    }
    Ok(n as u64)
}

// How many bytes are asked for: no more than the buffer has room for, and none past the size.
fn asked(room: usize, size: u64, off: u64) -> usize
    ensures { result ≡ asked room size off }
{
    size.saturating_sub(off).min(room as u64) as usize
}

// Reading an inode that is found.
fn read_found(img: &[u8], geo: Geometry, s: Spot, off: u64, buf: &mut [u8]) -> Result<u64, Refusal>
    requires { Frame geo img.now × (s.at + 256 ≤ length img.now) }
    ensures { (buf.new, result) ≡ read_answer (read_out geo s img.now off (asked (length buf.old) s.shape.size off) buf.old) }
{
    let shape = s.shape;
    let n = asked(buf.len(), shape.size, off);
    if n == 0 {
        return Ok(0);
    }
    if inode::is_in_place(shape) {
        return Err(Refusal::TextInInode);
    }
    if !inode::is_sized(shape) {
        return Err(Refusal::Damaged);
    }
    read_at(img, geo, s.at, shape.size, off, buf, n)
}

// inode_read: the file's bytes from `off` on, as many as the buffer has room for and the file has left.
pub fn inode_read(img: &[u8], inr: InodeNum, off: u64, buf: &mut [u8]) -> Result<u64, Refusal>
    ensures { (buf.new, result) ≡ read_answer (inode_read img.now inr.0 off buf.old) }
{
    let (geo, s) = know_inode(img, inr)?;
    read_found(img, geo, s, off, buf)
}
