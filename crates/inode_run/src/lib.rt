// inode.rs (read_inode, inode_find_block): the inode that a number names, and the run of fragments that a block of it is.
#![tactic(auto)]

ghost use Rattle.std.specs.Prelude.{◌≡◌, ◌+◌, ◌≤◌, length, Some};
ghost use Rattle.frame.specs.Frame.{Frame};
ghost use Rattle.inode_run.specs.Find.{number_ok, find_inode, found_of};
ghost use Rattle.inode_run.specs.Run.{run_for, run_at};

use inode::Shape;
use mapping::Mapped;
use refusal::Refusal;
use volume::{BlockIdx, FragNum, Geometry, InodeNum};

// Where an inode's record stands, and what it says of how the data lie.
#[derive(Clone, Copy)]
pub struct Spot {
    pub at: usize,
    pub shape: Shape,
}

// A block of a file: the address of its run, or a hole, and how many bytes it holds.
#[derive(Clone, Copy)]
pub enum Run {
    At(FragNum, u64),
    Hole(u64),
    Past,
    Bad,
}

// Whether an inode number is one of the volume's.
pub fn number_ok(geo: Geometry, inr: InodeNum) -> bool
    ensures { result ≡ number_ok geo inr.0 }
{
    let i = inr.0;
    (0 < i) & ((i as usize) < volume::product(geo.ncg, geo.ipg))
}

// read_inode: the record of an inode that has a type.
pub fn find_inode(img: &[u8], geo: Geometry, inr: InodeNum) -> Result<Spot, Refusal>
    requires { Frame geo img.now }
    ensures { result ≡ found_of (find_inode geo img.now inr.0) }
{
    if !number_ok(geo, inr) {
        return Err(Refusal::Invalid);
    }
    let at = frame::inode_spot(img, geo, inr);
    let o = geo.order;
    let s = inode::read_shape(img, o, at);
    if inode::type_of(s.mode) == 0 {
        return Err(Refusal::Invalid);
    }
    Ok(Spot { at: at, shape: s })
}

// The run of n bytes that the mapping leads to.
fn run_held(img: &[u8], geo: Geometry, m: Mapped, n: u64) -> Run
    requires { Frame geo img.now }
    ensures { result ≡ run_for geo img.now (Some n) m }
{
    match m {
        Mapped::At(a) => {
            if frame::run_ok(img, geo, a, n / geo.fsize as u64) {
                Run::At(a, n)
            } else {
                Run::Bad
            }
        }
        Mapped::Hole => Run::Hole(n),
        Mapped::Bad => Run::Bad,
        Mapped::Past => Run::Bad,
    }
}

// inode_find_block: the run of the block at an index, of an inode whose record is at `at`.
pub fn run_of(img: &[u8], geo: Geometry, at: usize, size: u64, i: BlockIdx) -> Run
    requires { Frame geo img.now × (at + 256 ≤ length img.now) }
    ensures { result ≡ run_at geo at size img.now i.0 }
{
    match inode::get_block_size(geo, size, i) {
        Some(n) => run_held(img, geo, mapping::resolve_block(img, geo, at, i), n),
        None => Run::Past,
    }
}
