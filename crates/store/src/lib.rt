// Number fields stored only while the number of stores allows it: for calls that stop after a given number of stores.
#![tactic(auto)]

ghost use Rattle.std.specs.Prelude.{◌≡◌, [], ◌∷◌, ◌+◌, ◌≤◌, length};
ghost use Rattle.store.specs.Store.{number, apply_if};

use field::{Number, Order};

// A number, stored where `go` says so.
pub fn put_if<T: Number>(img: &mut [u8], go: bool, o: Order, at: usize, v: T)
    requires { at + T.BYTES ≤ length img.old }
    ensures { img.new ≡ apply_if go (number o T.BYTES at (T.number v) ∷ []) img.old }
{
    if go {
        v.put(o, img, at);
    }
}
