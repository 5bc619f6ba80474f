// balloc.rs, blk_free: the stores that take back a block or fragments. A call takes the number k of stores after which it stops.
#![tactic(auto)]

ghost use Rattle.std.specs.Prelude.{◌≡◌, ◌-◌, ◌<◌, ◌≤◌, min, true, false, [], ◌∷◌, length};
ghost use Rattle.store.specs.Store.{apply_if, cut};
ghost use Rattle.store.specs.Act.{cut_leaves};
ghost use Rattle.volume.specs.declared.Count.TheVariants.{Nbfree, Nffree};
ghost use Rattle.frame.specs.Frame.{Frame};
ghost use Rattle.frame.specs.Writes.{map_write, count_write, total_write};
ghost use Rattle.balloc_take.specs.Take.{block_stores, frag_maps, count_stores, frag_stores, take_back, took_out, took_made};
ghost use Rattle.balloc_take.specs.Run.{BackRun};

use refusal::Refusal;
use volume::{Count, Counts, FragNum, Geometry, Totals};

// Two totals stored together, if they are to be.
fn put_totals_if(img: &mut [u8], go: bool, geo: Geometry, t: Totals)
    requires { Frame geo img.old }
    ensures { img.new ≡ apply_if go (total_write geo Nffree t.nffree ∷ total_write geo Nbfree t.nbfree ∷ []) img.old }
{
    frame::put_total_if(img, go, geo, Count::Nffree, t.nffree);
    frame::put_total_if(img, go, geo, Count::Nbfree, t.nbfree);
}

// Two counts of group g stored together, if they are to be.
fn put_counts_if(img: &mut [u8], go: bool, geo: Geometry, g: u32, c: Counts)
    requires { Frame geo img.old × (g < geo.ncg) }
    ensures { img.new ≡ apply_if go (count_write geo g Nffree c.nffree ∷ count_write geo g Nbfree c.nbfree ∷ []) img.old }
{
    frame::put_count_if(img, go, geo, g, Count::Nffree, c.nffree);
    frame::put_count_if(img, go, geo, g, Count::Nbfree, c.nbfree);
}

// The map byte of a run stored with the run's bits made 1, if it is to be.
fn put_map_if(img: &mut [u8], go: bool, geo: Geometry, g: u32, f: u32, n: u32)
    requires { BackRun geo img.old g f n }
    ensures { img.new ≡ apply_if go (map_write 1 geo g f n img.old ∷ []) img.old }
{
    let o = geo.order;
    let at = balloc_take::map_at(img, geo, g, f);
    let byte = bits::put_bits(img[at], (f % 8) as usize, n as usize, true);
    store::put_if(img, go, o, at, byte);
}

// A block taken back: map byte; total nbfree; group nbfree.
fn store_block(img: &mut [u8], geo: Geometry, g: u32, f: u32, k: u64) -> u64
    requires { BackRun geo img.old g f geo.frag }
    ensures { (img.new ≡ cut k (block_stores geo g f img.old) img.old) × (result ≡ min k (length (block_stores geo g f img.old))) }
{
    let o = geo.order;
    let c = balloc_take::counts_at(img, geo, g);
    let t = totals::totals_after(
        volume::read_totals(img, o),
        Totals {
            nbfree: 1,
            nifree: 0,
            nffree: 0,
        },
    );
    put_map_if(img, 0 < k, geo, g, f, geo.frag);
    frame::put_total_if(img, 1 < k, geo, Count::Nbfree, t.nbfree);
    frame::put_count_if(
        img,
        2 < k,
        geo,
        g,
        Count::Nbfree,
        std::num::wrapping_add_u32(c.nbfree, 1),
    );
    k.min(3)
}

// The n map stores of a run, lowest fragment first.
fn store_maps(img: &mut [u8], geo: Geometry, g: u32, f: u32, n: u32, k: u64)
    requires { BackRun geo img.old g f n }
    ensures { img.new ≡ cut k (frag_maps geo g f img.old n) img.old }
{
    let at = balloc_take::map_at(img, geo, g, f);
    let x = img[at];
    let s = (f % 8) as usize;
    for i in 0..n {
        let o = geo.order;
        let byte = bits::put_bits(x, s, i as usize + 1, true);
        store::put_if(img, (i as u64) < k, o, at, byte);
    }
}

// The counts' stores where the block is not whole.
fn put_part(img: &mut [u8], geo: Geometry, g: u32, n: u32, c: Counts, t: Totals, k: u64)
    requires { Frame geo img.old × (g < geo.ncg) }
    ensures { img.new ≡ cut k (count_stores geo g n c t false) img.old }
{
    let total = balloc_take::fits::totals_more(t, n);
    frame::put_total_if(img, 0 < k, geo, Count::Nffree, total.nffree);
    put_counts_if(img, 1 < k, geo, g, balloc_take::fits::counts_more(c, n));
}

// The counts' stores where the block is now whole.
fn put_whole(img: &mut [u8], geo: Geometry, g: u32, n: u32, c: Counts, t: Totals, k: u64)
    requires { Frame geo img.old × (g < geo.ncg) }
    ensures { img.new ≡ cut k (count_stores geo g n c t true) img.old }
{
    let total = balloc_take::fits::totals_more(t, n);
    let count = balloc_take::fits::counts_whole(balloc_take::fits::counts_more(c, n), geo.frag);
    frame::put_total_if(img, 0 < k, geo, Count::Nffree, total.nffree);
    put_totals_if(
        img,
        1 < k,
        geo,
        balloc_take::fits::totals_whole(total, geo.frag),
    );
    put_counts_if(img, 2 < k, geo, g, count);
}

// The counts' stores, and how many they are.
fn store_counts(
    img: &mut [u8],
    geo: Geometry,
    g: u32,
    n: u32,
    c: Counts,
    t: Totals,
    whole: bool,
    k: u64,
) -> u64
    requires { Frame geo img.old × (g < geo.ncg) }
    ensures { (img.new ≡ cut k (count_stores geo g n c t whole) img.old) × (result ≡ length (count_stores geo g n c t whole)) × (result ≤ 3) }
{
    if whole {
        put_whole(img, geo, g, n, c, t, k);
        3
    } else {
        put_part(img, geo, g, n, c, t, k);
        2
    }
}

// n fragments taken back: n map bytes, lowest fragment first; then the counts.
fn store_frags(img: &mut [u8], geo: Geometry, g: u32, f: u32, n: u32, k: u64) -> u64
    requires { BackRun geo img.old g f n }
    ensures { (img.new ≡ cut k (frag_stores geo g f n img.old) img.old) × (result ≡ min k (length (frag_stores geo g f n img.old))) }
{
    let whole = balloc_take::whole_then(img, geo, g, f, n);
    let o = geo.order;
    let c = balloc_take::counts_at(img, geo, g);
    let t = volume::read_totals(img, o);
    store_maps(img, geo, g, f, n, k);
    let made = n as u64;
    let tail = store_counts(img, geo, g, n, c, t, whole, k.saturating_sub(made));
    k.min(made + tail)
}

// balloc.rs: blk_free, for calls that have judged the volume: the number of stores made. Address 0 is nothing to take back.
pub fn blk_take(
    img: &mut [u8],
    geo: Geometry,
    a: FragNum,
    size: u64,
    k: u64,
) -> Result<u64, Refusal>
    requires { Frame geo img.old }
    ensures { (img.new, took_out result, took_made result) ≡ cut_leaves k (take_back geo a.0 size) img.old }
{
    if a.0 == 0 {
        return Ok(0);
    }
    balloc_take::take_test(img, geo, a, size)?;
    let g = balloc_take::dtog(geo, a);
    let f = balloc_take::dtogd(geo, a);
    let n = balloc_take::numfrags(geo, size);
    if n == geo.frag {
        Ok(store_block(img, geo, g, f, k))
    } else {
        Ok(store_frags(img, geo, g, f, n, k))
    }
}
