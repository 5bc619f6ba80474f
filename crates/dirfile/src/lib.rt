// dir.rs and inode.rs (inode_read of 512 bytes): a directory found by its number, and one of its blocks of 512 bytes.
#![tactic(auto)]

ghost use Rattle.std.specs.Prelude.{◌≡◌, false, is_ok, ◌+◌, ◌*◌, ◌≤◌, length};
ghost use Rattle.frame.specs.Frame.{Frame};
ghost use Rattle.inode_run.specs.Find.{found_of};
ghost use Rattle.inode_read.specs.Read.{Reaches};
ghost use Rattle.dirfile.specs.Block.{dir_of, piece_out, dir_block, bytes_at, InImage, read_into};

use inode_run::{Run, Spot};
use refusal::{Damage, Refusal};
use volume::{BlockIdx, Geometry, InodeNum};

// read_inode and assert_dir: the directory that a number names.
pub fn find_dir(img: &[u8], geo: Geometry, inr: InodeNum) -> Result<Spot, Refusal>
    requires { Frame geo img.now }
    ensures { result ≡ found_of (dir_of geo img.now inr.0) }
{
    let s = inode_run::find_inode(img, geo, inr)?;
    if inode::is_dir(s.shape) {
        return Ok(s);
    }
    Err(Refusal::NotDirectory)
}

// The place of the 512 bytes from byte `from` of a run, or a hole.
fn place_in(img: &[u8], geo: Geometry, r: Run, from: usize) -> Result<Option<usize>, Damage>
    requires { Reaches geo img.now r (from + 512) × (length img.now ≤ 1073741824) }
    ensures { (piece_out geo img.now r from ≡ bytes_at img.now result) × InImage img.now result }
{
    match r {
        Run::At(a, m) => Ok(Some(volume::address_at(geo, a) + from)),
        Run::Hole(m) => Ok(None),
        Run::Past => Err(Damage),
        Run::Bad => Err(Damage),
    }
}

// Block k of the directory of that size whose record is at `at`: where it stands in the image, or a hole, which is zeros.
pub fn block_at(
    img: &[u8],
    geo: Geometry,
    at: usize,
    size: u64,
    k: u64,
) -> Result<Option<usize>, Damage>
    requires { Frame geo img.now × (at + 256 ≤ length img.now) × (k * 512 + 512 ≤ size) }
    ensures { (dir_block geo at size img.now k ≡ bytes_at img.now result) × InImage img.now result }
{
    let off = k * 512;
    let bs = geo.bsize as u64;
    let r = inode_run::run_of(img, geo, at, size, BlockIdx(off / bs));
    place_in(img, geo, r, (off % bs) as usize)
}

// Block k copied into a buffer, which is left as it was where the block cannot be read.
pub fn read_block(
    img: &[u8],
    geo: Geometry,
    at: usize,
    size: u64,
    k: u64,
    block: &mut [u8],
) -> Result<(), Damage>
    requires { Frame geo img.now × (at + 256 ≤ length img.now) × (k * 512 + 512 ≤ size) × (length block.old ≡ 512) }
    ensures { (dir_block geo at size img.now k ≡ read_into (is_ok result) block.new) × (is_ok result ≡ false → block.new ≡ block.old) }
{
    match block_at(img, geo, at, size, k)? {
        Some(p) => {
            field::copy_bytes(block, 0, img, p, 512);
            Ok(())
        }
        None => {
            field::zero_bytes(block, 0, 512);
            Ok(())
        }
    }
}
