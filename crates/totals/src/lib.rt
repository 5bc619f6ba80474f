// ufs/mod.rs, update_sb: the superblock's totals are lent, and changed where they stand.
#![tactic(auto)]

ghost use Rattle.std.specs.Prelude.{◌≡◌};
ghost use Rattle.totals.specs.Changed.{changed};

use volume::Totals;

// By value: each total changed by the change's, modulo 2^64 (a change down by k is 2^64 - k).
pub fn plus(t: Totals, d: Totals) -> Totals
    ensures { result ≡ changed t d }
{
    Totals {
        nbfree: std::num::wrapping_add_u64(t.nbfree, d.nbfree),
        nifree: std::num::wrapping_add_u64(t.nifree, d.nifree),
        nffree: std::num::wrapping_add_u64(t.nffree, d.nffree),
    }
}

// The totals record is lent, and changed where it stands.
pub fn update_sb(t: &mut Totals, d: Totals)
    ensures { t.new ≡ changed t.old d }
{
    *t = plus(*t, d);
}

// By value in, lent to update_sb, and by value out: whoever calls this one needs no walk.
pub fn totals_after(before: Totals, d: Totals) -> Totals
    ensures { result ≡ changed before d }
{
    let mut t = before;
    update_sb(&mut t, d);
    t
}
