// balloc.rs: the recount, which writes the counts of the free map anew. The port adds it.
#![tactic(auto)]

ghost use Rattle.std.specs.Prelude.{◌≡◌, ◌<◌};
ghost use Rattle.store.specs.Store.{apply};
ghost use Rattle.store.specs.Act.{got, leaves};
ghost use Rattle.frame.specs.Frame.{Frame};
ghost use Rattle.balloc_count.specs.Recount.{blocks_of, loose_of, group_store, recount_all};

use volume::{Count, Geometry};

// A fresh count: of the wholly free blocks, and of the free fragments in none of these.
#[derive(Clone, Copy)]
pub struct Fresh {
    pub nbfree: u64,
    pub nffree: u64,
}

// Group g's fresh count, from its map.
fn count_group(img: &[u8], geo: Geometry, g: u32) -> Fresh
    requires { Frame geo img.now × (g < geo.ncg) }
    ensures { (result.nbfree ≡ blocks_of geo g img.now) × (result.nffree ≡ loose_of geo g img.now) }
{
    let r = frame::group_at(img, geo, g);
    let at = frame::cg_addr(img, geo, g) + r.freeoff as usize;
    let frag = geo.frag;
    let found = bits_count::count_map(img, at, frag, r.ndblk as usize);
    let in_blocks = (frag as usize) * found.blocks;
    Fresh {
        nbfree: found.blocks as u64,
        nffree: (found.frags - in_blocks) as u64,
    }
}

// Group g's counts, set together to its fresh count.
fn recount_group(img: &mut [u8], geo: Geometry, g: u32) -> Fresh
    requires { Frame geo img.old × (g < geo.ncg) }
    ensures { (img.new ≡ apply (group_store geo g img.old) img.old) × (result.nbfree ≡ blocks_of geo g img.old) × (result.nffree ≡ loose_of geo g img.old) }
{
    let fresh = count_group(img, geo, g);
    let o = geo.order;
    let at = frame::cg_addr(img, geo, g);
    volume::put_count(img, o, at, Count::Nbfree, fresh.nbfree as u32);
    volume::put_count(img, o, at, Count::Nffree, fresh.nffree as u32);
    fresh
}

// The counts of every group, and then the totals, set to the fresh ones.
pub fn recount_all(img: &mut [u8], geo: Geometry) -> Fresh
    requires { Frame geo img.old }
    ensures { (img.new, got result) ≡ leaves (recount_all geo) img.old }
{
    let mut nbfree: u64 = 0;
    let mut nffree: u64 = 0;
    for g in 0..geo.ncg {
        let fresh = recount_group(img, geo, g);
        nbfree += fresh.nbfree;
        nffree += fresh.nffree;
    }
    let o = geo.order;
    volume::put_total(img, o, Count::Nbfree, nbfree);
    volume::put_total(img, o, Count::Nffree, nffree);
    Fresh { nbfree, nffree }
}
