// balloc.rs: the public calls that give out and take back blocks, and the recount. Each tests the volume first.
#![tactic(auto)]

ghost use Rattle.std.specs.Prelude.{◌≡◌};
ghost use Rattle.balloc.specs.Calls.{alloc_cut, alloc_plain, free_cut, free_plain, recount_plain};

use refusal::Refusal;
use volume::{FragNum, Volume};

// blk_alloc, made to stop after k stores: the address, the size, and the number of stores made.
pub fn blk_alloc_cut(
    img: &mut [u8],
    vol: Volume,
    size: u64,
    k: u64,
) -> Result<(FragNum, u64, u64, Volume), Refusal>
    ensures { (img.new, result) ≡ alloc_cut vol size k img.old }
{
    let geo = sound::take_volume(img)?;
    if !vol.writable {
        return Err(Refusal::ReadOnly); // 30 before 22
    }
    if !balloc_take::good_size(geo, size) {
        return Err(Refusal::Invalid);
    }
    let (a, n) = balloc_give::blk_alloc_full(img, geo, k)?;
    Ok((a, geo.bsize as u64, n, vol))
}

// blk_alloc: a whole block, whatever part of one is asked for.
pub fn blk_alloc(
    img: &mut [u8],
    vol: Volume,
    size: u64,
) -> Result<(FragNum, u64, u64, Volume), Refusal>
    ensures { (img.new, result) ≡ alloc_plain vol size img.old }
{
    blk_alloc_cut(img, vol, size, u64::MAX)
}

// blk_free, made to stop after k stores: the number of stores made.
pub fn blk_free_cut(
    img: &mut [u8],
    vol: Volume,
    a: FragNum,
    size: u64,
    k: u64,
) -> Result<(u64, Volume), Refusal>
    ensures { (img.new, result) ≡ free_cut vol a.0 size k img.old }
{
    // Not a `?`, so that a must-fail edit can change what is answered here.
    let Ok(geo) = sound::take_volume(img) else {
        return Err(Refusal::Damaged); // 97, even for address 0
    };
    if !vol.writable {
        return Err(Refusal::ReadOnly); // 30, even for address 0
    }
    let n = balloc_back::blk_take(img, geo, a, size, k)?;
    Ok((n, vol))
}

// blk_free: a whole block, or fragments of one.
pub fn blk_free(
    img: &mut [u8],
    vol: Volume,
    a: FragNum,
    size: u64,
) -> Result<(u64, Volume), Refusal>
    ensures { (img.new, result) ≡ free_plain vol a.0 size img.old }
{
    blk_free_cut(img, vol, a, size, u64::MAX)
}

// The totals counted anew from the maps: nbfree and nffree.
pub fn recount(img: &mut [u8], vol: Volume) -> Result<(u64, u64, Volume), Refusal>
    ensures { (img.new, result) ≡ recount_plain vol img.old }
{
    let geo = sound::take_volume(img)?;
    if !vol.writable {
        return Err(Refusal::ReadOnly); // 30 before any count is stored
    }
    let f = balloc_count::recount_all(img, geo);
    Ok((f.nbfree, f.nffree, vol))
}
