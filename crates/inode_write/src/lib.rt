// inode.rs (inode_write, inode_write_block), ialloc.rs (inode_alloc_block): writing a file.
#![tactic(auto)]

ghost use Rattle.std.specs.Prelude.{◌≡◌, ◌+◌, ◌*◌, ◌≤◌, ◌<◌, leb, length};
ghost use Rattle.field.specs.Field.{part};
ghost use Rattle.store.specs.Store.{apply};
ghost use Rattle.store.specs.Act.{leaves};
ghost use Rattle.frame.specs.Frame.{Frame, RunOk};
ghost use Rattle.inode_grow.specs.Grow.{growth_out};
ghost use Rattle.inode_setblock.specs.Set.{InTable, written_out};
ghost use Rattle.inode_write.specs.Write.{fresh_store, fill_given, fill_hole, write_block, write_blocks, write_at, counted_out};
ghost use Rattle.inode_write.specs.Calls.{limit_of, write_judged, write_found, inode_write, wrote_out, wrote_answer};

use inode_run::{Run, Spot};
use refusal::Refusal;
use volume::{BlockIdx, FragNum, Geometry, InodeNum, Volume};

// The n bytes of a new block: zeros, with a piece of the buffer in its place.
fn put_fresh(
    img: &mut [u8],
    geo: Geometry,
    a: FragNum,
    n: u64,
    from: usize,
    buf: &[u8],
    done: usize,
    num: usize,
)
    requires { (a.0 * geo.fsize + n ≤ length img.old) × (length img.old ≤ 1073741824) × (from + num ≤ n) × (done + num ≤ length buf.now) }
    ensures { img.new ≡ apply (fresh_store geo a.0 n from (part num done buf.now)) img.old }
{
    let place = volume::address_at(geo, a);
    field::zero_bytes(img, place, n as usize);
    field::copy_bytes(img, place + from, buf, done, num);
}

// The block at a, given out for index i: its address is set, then its bytes are stored. The answer is the units of 512 bytes then held.
fn fill_given(
    img: &mut [u8],
    geo: Geometry,
    at: usize,
    i: BlockIdx,
    n: u64,
    from: usize,
    buf: &[u8],
    done: usize,
    num: usize,
    held: u64,
    a: FragNum,
) -> Result<u64, Refusal>
    requires { Frame geo img.old × (at + 256 ≤ length img.old) × InTable geo at × RunOk geo img.old a.0 geo.frag × (n ≤ geo.bsize) × (from + num ≤ n) × (done + num ≤ length buf.now) }
    ensures { (img.new, counted_out result) ≡ leaves (fill_given geo at i.0 n from (part num done buf.now) held a.0) img.old }
{
    let more = geo.bsize as u64 / 512;
    if u64::MAX - more < held {
        return Err(Refusal::Damaged);
    }
    let all = held + more;
    inode_setblock::set_block(img, geo, at, i, a, all)?;
    put_fresh(img, geo, a, n, from, buf, done, num);
    Ok(all)
}

// inode_alloc_block: a hole is given a block.
fn fill_hole(
    img: &mut [u8],
    geo: Geometry,
    at: usize,
    i: BlockIdx,
    n: u64,
    from: usize,
    buf: &[u8],
    done: usize,
    num: usize,
    held: u64,
) -> Result<u64, Refusal>
    requires { Frame geo img.old × (at + 256 ≤ length img.old) × InTable geo at × (n ≤ geo.bsize) × (from + num ≤ n) × (done + num ≤ length buf.now) }
    ensures { (img.new, counted_out result) ≡ leaves (fill_hole geo at i.0 n from (part num done buf.now) held) img.old }
{
    let (a, _) = balloc_give::blk_alloc_full(img, geo, u64::MAX)?;
    fill_given(img, geo, at, i, n, from, buf, done, num, held, a)
}

// inode_write_block: `num` bytes of the buffer, from `done` on, go to block i from its byte `from` on.
fn write_block(
    img: &mut [u8],
    geo: Geometry,
    at: usize,
    size: u64,
    i: BlockIdx,
    from: usize,
    buf: &[u8],
    done: usize,
    num: usize,
    held: u64,
) -> Result<u64, Refusal>
    requires { Frame geo img.old × (at + 256 ≤ length img.old) × InTable geo at × (0 < num) × (from + num ≤ geo.bsize) × (i.0 * geo.bsize + (from + num) ≤ size) × (done + num ≤ length buf.now) }
    ensures { (img.new, counted_out result) ≡ leaves (write_block geo at size i.0 from (part num done buf.now) held) img.old }
{
    match inode_run::run_of(img, geo, at, size, i) {
        Run::At(a, _) => {
            field::copy_bytes(img, volume::address_at(geo, a) + from, buf, done, num);
            Ok(held)
        }
        Run::Hole(n) => fill_hole(img, geo, at, i, n, from, buf, done, num, held),
        Run::Past => Err(Refusal::Damaged),
        Run::Bad => Err(Refusal::Damaged),
    }
}

// The buffer's bytes, block by block from `off` on.
fn write_blocks(
    img: &mut [u8],
    geo: Geometry,
    at: usize,
    size: u64,
    off: u64,
    buf: &[u8],
    held: u64,
) -> Result<u64, Refusal>
    requires { Frame geo img.old × (at + 256 ≤ length img.old) × InTable geo at × (0 < length buf.now) × (off + length buf.now ≤ size) }
    ensures { (img.new, counted_out result) ≡ leaves (write_blocks geo at size off buf.now held) img.old }
{
    let bs = geo.bsize as u64;
    let n = buf.len();
    let mut i = off / bs;
    let mut from = (off % bs) as usize;
    let mut done = 0;
    let mut all = held;
    // not a `for`: the step is the piece's length
    while done < n {
        let num = (geo.bsize as usize - from).min(n - done);
        all = write_block(img, geo, at, size, BlockIdx(i), from, buf, done, num, all)?;
        done += num;
        from = 0;
        i += 1;
    }
    Ok(all)
}

// The buffer's bytes from `off` on, of a file of that size until then: the size first, then block by block.
pub fn write_at(
    img: &mut [u8],
    geo: Geometry,
    at: usize,
    size: u64,
    off: u64,
    buf: &[u8],
) -> Result<(), Refusal>
    requires { Frame geo img.old × (at + 256 ≤ length img.old) × InTable geo at × (off + length buf.now < 18446744073709551616) }
    ensures { (img.new, written_out result) ≡ leaves (write_at geo at size off buf.now) img.old }
{
    let o = geo.order;
    let new = size.max(off + buf.len() as u64);
    inode::put_size(img, o, at, new);
    if buf.len() == 0 {
        return Ok(());
    }
    let held = inode::read_blocks(img, o, at);
    write_blocks(img, geo, at, new, off, buf, held)?;
    Ok(())
}

// Whether n bytes from `off` on end where the triple zone ends, or before.
fn in_limit(geo: Geometry, off: u64, n: usize) -> bool
    requires { geo.bsize ≤ 65536 }
    ensures { result ≡ leb (off + n) (limit_of geo) }
{
    let blocks = 12
        + mapping::span_of(geo, 1)
        + mapping::span_of(geo, 2)
        + mapping::span_of(geo, 3);
    let limit = blocks * geo.bsize as u64;
    if limit < n as u64 {
        return false;
    }
    off <= limit - n as u64
}

// What is judged before the first store.
fn judge_write(img: &[u8], geo: Geometry, s: Spot, off: u64, n: usize) -> Result<(), Refusal>
    requires { Frame geo img.now × (s.at + 256 ≤ length img.now) }
    ensures { growth_out result ≡ write_judged geo s off n img.now }
{
    let shape = s.shape;
    if (0 < n) & inode::is_in_place(shape) {
        return Err(Refusal::TextInInode);
    }
    if (0 < n) & !inode::is_sized(shape) {
        return Err(Refusal::Damaged);
    }
    if !in_limit(geo, off, n) {
        return Err(Refusal::TooBig);
    }
    inode_grow::grow_rule(img, geo, s.at, shape, shape.size.max(off + n as u64))
}

// Writing to an inode that is found.
fn write_found(img: &mut [u8], geo: Geometry, s: Spot, off: u64, buf: &[u8]) -> Result<u64, Refusal>
    requires { Frame geo img.old × (s.at + 256 ≤ length img.old) × InTable geo s.at }
    ensures { (img.new, wrote_out result) ≡ leaves (write_found geo s off buf.now) img.old }
{
    judge_write(img, geo, s, off, buf.len())?;
    write_at(img, geo, s.at, s.shape.size, off, buf)?;
    Ok(buf.len() as u64)
}

// inode_write: the buffer's bytes go to the file from `off` on.
pub fn inode_write(
    img: &mut [u8],
    vol: Volume,
    inr: InodeNum,
    off: u64,
    buf: &[u8],
) -> Result<u64, Refusal>
    ensures { (img.new, result) ≡ wrote_answer (leaves (inode_write vol inr.0 off buf.now) img.old) }
{
    let geo = sound::take_volume(img)?;
    if !vol.writable {
        return Err(Refusal::ReadOnly);
    }
    let s = inode_run::find_inode(img, geo, inr)?;
    write_found(img, geo, s, off, buf)
}
