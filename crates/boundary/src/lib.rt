// The public calls for C and Rust to link: each returns 0 or the refusal's number, and writes what else it answers.
#![tactic(auto)]

ghost use Rattle.std.specs.Prelude.{◌≡◌};
ghost use Rattle.sound.specs.Test.{opened};
ghost use Rattle.balloc.specs.Calls.{alloc_cut, alloc_plain, free_cut, free_plain, recount_plain};
ghost use Rattle.boundary.specs.Words.{opened_word, given_words, freed_words, recounted_words, beside};

use refusal::Refusal;
use volume::{FragNum, Volume};

#[unsafe(no_mangle)]
pub extern "C" fn hitchsnow_open(img: &[u8], writable: bool) -> u32
    ensures { result ≡ opened_word (opened img.now writable) }
{
    let o = sound::open(img, writable);
    match o {
        Ok(_) => 0,
        Err(e) => refusal::number(e),
    }
}

// Writes what giving out answered.
fn put_given(
    g: Result<(FragNum, u64, u64, Volume), Refusal>,
    address: &mut u64,
    given: &mut u64,
    made: &mut u64,
) -> u32
    ensures { (result, (address.new, (given.new, made.new))) ≡ given_words g }
{
    match g {
        Ok((a, size, n, _)) => {
            *address = a.0;
            *given = size;
            *made = n;
            0
        }
        Err(e) => {
            *address = 0;
            *given = 0;
            *made = 0;
            refusal::number(e)
        }
    }
}

#[unsafe(no_mangle)]
pub extern "C" fn hitchsnow_blk_alloc(
    img: &mut [u8],
    writable: bool,
    size: u64,
    address: &mut u64,
    given: &mut u64,
    made: &mut u64,
) -> u32
    ensures { (img.new, (result, (address.new, (given.new, made.new)))) ≡ beside given_words (alloc_plain (record { writable = writable }) size img.old) }
{
    let g = balloc::blk_alloc(img, Volume { writable }, size);
    put_given(g, address, given, made)
}

#[unsafe(no_mangle)]
pub extern "C" fn hitchsnow_blk_alloc_cut(
    img: &mut [u8],
    writable: bool,
    size: u64,
    k: u64,
    address: &mut u64,
    given: &mut u64,
    made: &mut u64,
) -> u32
    ensures { (img.new, (result, (address.new, (given.new, made.new)))) ≡ beside given_words (alloc_cut (record { writable = writable }) size k img.old) }
{
    let g = balloc::blk_alloc_cut(img, Volume { writable }, size, k);
    put_given(g, address, given, made)
}

// Writes what taking back answered.
fn put_freed(f: Result<(u64, Volume), Refusal>, made: &mut u64) -> u32
    ensures { (result, made.new) ≡ freed_words f }
{
    match f {
        Ok((n, _)) => {
            *made = n;
            0
        }
        Err(e) => {
            *made = 0;
            refusal::number(e)
        }
    }
}

#[unsafe(no_mangle)]
pub extern "C" fn hitchsnow_blk_free(
    img: &mut [u8],
    writable: bool,
    address: u64,
    size: u64,
    made: &mut u64,
) -> u32
    ensures { (img.new, (result, made.new)) ≡ beside freed_words (free_plain (record { writable = writable }) address size img.old) }
{
    let f = balloc::blk_free(img, Volume { writable }, FragNum(address), size);
    put_freed(f, made)
}

#[unsafe(no_mangle)]
pub extern "C" fn hitchsnow_blk_free_cut(
    img: &mut [u8],
    writable: bool,
    address: u64,
    size: u64,
    k: u64,
    made: &mut u64,
) -> u32
    ensures { (img.new, (result, made.new)) ≡ beside freed_words (free_cut (record { writable = writable }) address size k img.old) }
{
    let f = balloc::blk_free_cut(img, Volume { writable }, FragNum(address), size, k);
    put_freed(f, made)
}

// Writes the totals that were counted.
fn put_recounted(t: Result<(u64, u64, Volume), Refusal>, nbfree: &mut u64, nffree: &mut u64) -> u32
    ensures { (result, (nbfree.new, nffree.new)) ≡ recounted_words t }
{
    match t {
        Ok((b, f, _)) => {
            *nbfree = b;
            *nffree = f;
            0
        }
        Err(e) => {
            *nbfree = 0;
            *nffree = 0;
            refusal::number(e)
        }
    }
}

#[unsafe(no_mangle)]
pub extern "C" fn hitchsnow_recount(
    img: &mut [u8],
    writable: bool,
    nbfree: &mut u64,
    nffree: &mut u64,
) -> u32
    ensures { (img.new, (result, (nbfree.new, nffree.new))) ≡ beside recounted_words (recount_plain (record { writable = writable }) img.old) }
{
    let t = balloc::recount(img, Volume { writable });
    put_recounted(t, nbfree, nffree)
}
