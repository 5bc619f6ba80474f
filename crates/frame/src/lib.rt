// ufs/mod.rs (cg_addr): places of a sound volume, handed out with what is known of them.
#![tactic(auto)]

ghost use Rattle.std.specs.Prelude.{◌≡◌, ◌*◌, ◌<◌, [], ◌∷◌};
ghost use Rattle.volume.specs.Volume.{cg_at, count_at};
ghost use Rattle.frame.specs.Frame.{Frame, Spots, place_okb, run_okb, GroupIs, InodeIs};
ghost use Rattle.store.specs.Store.{apply_if};
ghost use Rattle.frame.specs.Writes.{count_write, total_write};

use volume::{Count, FragNum, Geometry, Group, InodeNum};

// Where group g's record begins.
pub fn cg_addr(img: &[u8], geo: Geometry, g: u32) -> usize
    requires { Frame geo img.now × (g < geo.ncg) }
    ensures { (result ≡ cg_at geo g) × Spots geo img.now g }
{
    volume::frag_at(geo, g, geo.cblkno)
}

// The fixed part of group g's record.
pub fn group_at(img: &[u8], geo: Geometry, g: u32) -> Group
    requires { Frame geo img.now × (g < geo.ncg) }
    ensures { GroupIs geo img.now g result }
{
    let o = geo.order;
    volume::read_group(img, o, cg_addr(img, geo, g))
}

// A count of group g.
pub fn group_count(img: &[u8], geo: Geometry, g: u32, c: Count) -> u32
    requires { Frame geo img.now × (g < geo.ncg) }
    ensures { result ≡ count_at geo.order c (cg_at geo g) img.now }
{
    let o = geo.order;
    volume::read_count(img, o, cg_addr(img, geo, g), c)
}

// Whether the n fragments from f of group g lie within its ndblk, and none is reserved.
pub fn place_ok(img: &[u8], geo: Geometry, g: u32, f: u64, n: u64) -> bool
    requires { Frame geo img.now × (g < geo.ncg) × (f < geo.fpg) }
    ensures { result ≡ place_okb geo img.now g f n }
{
    let r = group_at(img, geo, g);
    let first = sound::reserved_from(geo, g) as u64;
    let end = r.ndblk as u64;
    if end < f {
        return false;
    }
    if end - f < n {
        return false;
    }
    (f + n <= first) | (geo.dblkno as u64 <= f)
}

// Whether the n fragments from the address a, whatever it is, are a run.
pub fn run_ok(img: &[u8], geo: Geometry, a: FragNum, n: u64) -> bool
    requires { Frame geo img.now }
    ensures { result ≡ run_okb geo img.now a.0 n }
{
    let at = a.0;
    let fpg = geo.fpg as u64;
    let place = at / fpg;
    if geo.ncg as u64 <= place {
        return false;
    }
    place_ok(img, geo, place as u32, at % fpg, n)
}

// Where inode i's record begins.
pub fn inode_spot(img: &[u8], geo: Geometry, inr: InodeNum) -> usize
    requires { Frame geo img.now × (inr.0 < geo.ncg * geo.ipg) }
    ensures { InodeIs geo img.now inr.0 result }
{
    volume::ino_to_fso(geo, inr)
}

// A count of group g stored, if it is to be made.
pub fn put_count_if(img: &mut [u8], go: bool, geo: Geometry, g: u32, c: Count, v: u32)
    requires { Frame geo img.old × (g < geo.ncg) }
    ensures { img.new ≡ apply_if go (count_write geo g c v ∷ []) img.old }
{
    let o = geo.order;
    let at = cg_addr(img, geo, g);
    store::put_if(img, go, o, at + volume::count_place(c), v);
}

// A total stored, if it is to be made.
pub fn put_total_if(img: &mut [u8], go: bool, geo: Geometry, c: Count, v: u64)
    requires { Frame geo img.old }
    ensures { img.new ≡ apply_if go (total_write geo c v ∷ []) img.old }
{
    let o = geo.order;
    store::put_if(img, go, o, 65536 + volume::total_place(c), v);
}
