// dir.rs (rmdir's walk of the directory that is to go): whether it holds any record but its "." and "..".
#![tactic(auto)]

ghost use Rattle.std.specs.Prelude.{◌≡◌, ◌+◌, ◌*◌, ◌≤◌, length};
ghost use Rattle.frame.specs.Frame.{Frame};
ghost use Rattle.dirblock.specs.Record.{name_at};
ghost use Rattle.dirfile.specs.Block.{dir_block};
ghost use Rattle.dirfile.specs.Seek.{in_block};
ghost use Rattle.dirother.specs.Other.{dots, stays, other_in, stayed_in, others_dir, others_out};

use dirblock::{Entry, Spot};
use field::Order;
use refusal::Damage;
use volume::Geometry;

// Whether the record at pos is named "." or "..".
fn is_dots(block: &[u8], pos: usize, e: Entry) -> bool
    requires { pos + 8 + e.namelen ≤ length block.now }
    ensures { result ≡ dots (name_at block.now pos e) }
{
    if e.namelen == 1 {
        return block[pos + 8] == 46;
    }
    if e.namelen == 2 {
        return (block[pos + 8] == 46) & (block[pos + 9] == 46);
    }
    false
}

// A listed record that is no directory, or is not named "." or "..".
fn is_other(block: &[u8], pos: usize, e: Entry) -> bool
    requires { pos + 8 + e.namelen ≤ length block.now }
    ensures { result ≡ stays block.now (record { pos = pos; entry = e }) }
{
    dirblock_search::is_listed(e) & !((e.kind == 4) & is_dots(block, pos, e))
}

// The first record of a block that is neither.
fn other_in(o: Order, block: &[u8]) -> Result<Option<Spot>, Damage>
    ensures { result ≡ other_in o block.now }
{
    dirblock_search::search_from(o, block, 0, |pos, e| is_other(block, pos, e))
}

// The search in block k.
fn other_block(img: &[u8], geo: Geometry, at: usize, size: u64, k: u64) -> Result<bool, Damage>
    requires { Frame geo img.now × (at + 256 ≤ length img.now) × (k * 512 + 512 ≤ size) }
    ensures { others_out result ≡ in_block (dir_block geo at size img.now k) (λ b. stayed_in (other_in geo.order b)) }
{
    let o = geo.order;
    let Some(p) = dirfile::block_at(img, geo, at, size, k)? else {
        return Ok(false);
    };
    let other = other_in(o, &img[p..p + 512])?;
    Ok(other.is_some())
}

// rmdir's test, whether there is another record: the blocks upward, up to the first that holds one.
pub fn others_dir(img: &[u8], geo: Geometry, at: usize, size: u64) -> Result<bool, Damage>
    requires { Frame geo img.now × (at + 256 ≤ length img.now) }
    ensures { others_out result ≡ others_dir geo at size img.now }
{
    if !(size % 512 == 0) {
        return Err(Damage);
    }
    let n = size / 512;
    for k in 0..n {
        if other_block(img, geo, at, size, k)? {
            return Ok(true);
        }
    }
    Ok(false)
}
