// Counts that change, modulo 2^32 and 2^64, and whether each stays within its signed type.
ghost use Rattle.std.specs.Prelude.{◌≡◌, ◌<◌, ◌&&◌};
ghost use Rattle.frame.specs.Writes.{up, down};
ghost use Rattle.balloc_take.specs.Take.{rises, falls};

use volume::{Counts, Totals};

// Whether a group's count can rise by d, and fall by d, within its type.
fn rises_count(x: u32, d: u32) -> bool
    ensures { result ≡ rises 4 x d }
{
    if 2147483648 <= x {
        true
    } else {
        d < 2147483648 - x
    }
}

fn falls_count(x: u32, d: u32) -> bool
    ensures { result ≡ falls 4 x d }
{
    if x < 2147483648 {
        true
    } else {
        d <= x - 2147483648
    }
}

// The same of a total.
fn rises_total(x: u64, d: u64) -> bool
    ensures { result ≡ rises 8 x d }
{
    if 9223372036854775808 <= x {
        true
    } else {
        d < 9223372036854775808 - x
    }
}

fn falls_total(x: u64, d: u64) -> bool
    ensures { result ≡ falls 8 x d }
{
    if x < 9223372036854775808 {
        true
    } else {
        d <= x - 9223372036854775808
    }
}

// Whether the counts of free blocks can rise by one.
pub fn block_fits(c: Counts, t: Totals) -> bool
    ensures { result ≡ (rises 4 c.nbfree 1 && rises 8 t.nbfree 1) }
{
    rises_count(c.nbfree, 1) & rises_total(t.nbfree, 1)
}

// Whether the counts of free fragments can rise by n.
pub fn frags_fit(c: Counts, t: Totals, n: u32) -> bool
    ensures { result ≡ (rises 4 c.nffree n && rises 8 t.nffree n) }
{
    rises_count(c.nffree, n) & rises_total(t.nffree, n as u64)
}

// A group's counts with n loose fragments more.
pub fn counts_more(c: Counts, n: u32) -> Counts
    ensures { (result.nffree ≡ up 4 c.nffree n) × (result.nbfree ≡ c.nbfree) }
{
    Counts {
        nbfree: c.nbfree,
        nifree: c.nifree,
        nffree: std::num::wrapping_add_u32(c.nffree, n),
    }
}

// A group's counts with a block more, whose fragments are loose no more: u32::MAX - (frag - 1) is 2^32 - frag.
pub fn counts_whole(c: Counts, frag: u32) -> Counts
    requires { 0 < frag }
    ensures { (result.nffree ≡ down 4 c.nffree frag) × (result.nbfree ≡ up 4 c.nbfree 1) }
{
    Counts {
        nbfree: std::num::wrapping_add_u32(c.nbfree, 1),
        nifree: c.nifree,
        nffree: std::num::wrapping_add_u32(c.nffree, u32::MAX - (frag - 1)),
    }
}

// The same of the totals.
pub fn totals_more(t: Totals, n: u32) -> Totals
    ensures { (result.nffree ≡ up 8 t.nffree n) × (result.nbfree ≡ t.nbfree) }
{
    totals::totals_after(
        t,
        Totals {
            nbfree: 0,
            nifree: 0,
            nffree: n as u64,
        },
    )
}

pub fn totals_whole(t: Totals, frag: u32) -> Totals
    requires { 0 < frag }
    ensures { (result.nffree ≡ down 8 t.nffree frag) × (result.nbfree ≡ up 8 t.nbfree 1) }
{
    totals::totals_after(
        t,
        Totals {
            nbfree: 1,
            nifree: 0,
            nffree: u64::MAX - (frag - 1) as u64,
        },
    )
}

// Whether, n higher, they can fall by a block's fragments.
pub fn loose_fit(c: Counts, t: Totals, n: u32, frag: u32) -> bool
    ensures { result ≡ (falls 4 (up 4 c.nffree n) frag && falls 8 (up 8 t.nffree n) frag) }
{
    let count = counts_more(c, n);
    let total = totals_more(t, n);
    falls_count(count.nffree, frag) & falls_total(total.nffree, frag as u64)
}
