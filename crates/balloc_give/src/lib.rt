// balloc.rs (blk_alloc_full): a whole block is given out.
#![tactic(auto)]

ghost use Rattle.std.specs.Prelude.{◌≡◌, ◌<◌};
ghost use Rattle.store.specs.Store.{cut};
ghost use Rattle.store.specs.Act.{cut_leaves, leaves};
ghost use Rattle.frame.specs.Frame.{Frame};
ghost use Rattle.balloc_give.specs.Give.{blocks_in, in_group, chosen, give_stores, give_block, gave_out, gave_made, Values, give_zeroed, zeroed_out};

use refusal::Refusal;
use volume::{Count, FragNum, Geometry, Totals};

// The first free block of group g, if the group counts one.
fn blk_in_group(img: &[u8], geo: Geometry, g: u32) -> Option<usize>
    requires { Frame geo img.now × (g < geo.ncg) }
    ensures { result ≡ in_group geo img.now g }
{
    let n = frame::group_count(img, geo, g, Count::Nbfree);
    if (0 < n) & (n < 2147483648) {
        let r = frame::group_at(img, geo, g);
        let at = frame::cg_addr(img, geo, g) + r.freeoff as usize;
        let nb = r.ndblk / geo.frag;
        return bits_find::first_free_block(img, at, geo.frag, nb as usize);
    }
    None
}

// The first free block of the first group that counts one and has one.
pub fn blk_choose(img: &[u8], geo: Geometry) -> Option<(u32, usize)>
    requires { Frame geo img.now }
    ensures { result ≡ chosen geo img.now }
{
    for g in 0..geo.ncg {
        if let Some(h) = blk_in_group(img, geo, g) {
            return Some((g, h));
        }
    }
    None
}

// What giving out block h of group g stores: the map byte and its place, the group's count, the total.
#[derive(Clone, Copy)]
struct Giving {
    place: usize,
    byte: u8,
    count: u32,
    total: u64,
}

fn give_values(img: &[u8], geo: Geometry, g: u32, h: usize) -> Giving
    requires { Frame geo img.now × (g < geo.ncg) × (h < blocks_in geo g img.now) }
    ensures { Values geo img.now g h result }
{
    let o = geo.order;
    let r = frame::group_at(img, geo, g);
    let at = frame::cg_addr(img, geo, g) + r.freeoff as usize;
    let less = Totals {
        nbfree: 18446744073709551615,
        nifree: 0,
        nffree: 0,
    };
    let t = totals::totals_after(volume::read_totals(img, o), less);
    Giving {
        place: at + bits::map_byte(geo.frag, h),
        byte: bits::block_byte(img, at, geo.frag, h, false),
        count: std::num::wrapping_add_u32(
            frame::group_count(img, geo, g, Count::Nbfree),
            4294967295,
        ),
        total: t.nbfree,
    }
}

// The first k stores of giving out block h of group g.
fn store_give(img: &mut [u8], geo: Geometry, g: u32, h: usize, k: u64)
    requires { Frame geo img.old × (g < geo.ncg) × (h < blocks_in geo g img.old) }
    ensures { img.new ≡ cut k (give_stores geo img.old g h) img.old }
{
    let v = give_values(img, geo, g, h);
    let o = geo.order;
    store::put_if(img, 0 < k, o, v.place, v.byte);
    frame::put_count_if(img, 1 < k, geo, g, Count::Nbfree, v.count);
    frame::put_total_if(img, 2 < k, geo, Count::Nbfree, v.total);
}

// A block given out, as far as the first k stores: its address, and the number of stores made.
pub fn blk_alloc_full(img: &mut [u8], geo: Geometry, k: u64) -> Result<(FragNum, u64), Refusal>
    requires { Frame geo img.old }
    ensures { (img.new, gave_out result, gave_made result) ≡ cut_leaves k (give_block geo) img.old }
{
    let (g, h) = blk_choose(img, geo).ok_or(Refusal::NoSpace)?;
    store_give(img, geo, g, h, k);
    let a = volume::product(g, geo.fpg) + geo.frag as usize * h;
    Ok((FragNum(a as u64), k.min(3)))
}

// blk_alloc_full_zeroed: a block given out, and zeros stored in it.
pub fn blk_alloc_full_zeroed(img: &mut [u8], geo: Geometry) -> Result<FragNum, Refusal>
    requires { Frame geo img.old }
    ensures { (img.new, zeroed_out result) ≡ leaves (give_zeroed geo) img.old }
{
    let (a, _) = blk_alloc_full(img, geo, u64::MAX)?;
    field::zero_bytes(img, volume::address_at(geo, a), geo.bsize as usize);
    Ok(a)
}
