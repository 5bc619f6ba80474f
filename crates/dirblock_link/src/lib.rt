// dir.rs: newlink_block and unlink_block. A name linked into a block, and one unlinked from it.
#![tactic(auto)]

ghost use Rattle.std.specs.Prelude.{◌≡◌, ◌+◌, ◌≤◌, ◌<◌, length};
ghost use Rattle.dirblock.specs.declared.Rec.TheVariants.{Used};
ghost use Rattle.dirblock.specs.Record.{smallest_new, entry_at, name_at, rec_at, slack, shrunk, absorb};
ghost use Rattle.dirblock.specs.Write.{put_rec, Fits};
ghost use Rattle.dirblock.specs.Link.{link_at, link_in, unlink_later, unlink_first, unlink_in, Behind};

use dirblock::{Entry, Linked, Rec, Unlinked};
use field::Order;
use refusal::Damage;

// A record cut down to its smallest length.
fn shrink(e: Entry) -> Entry
    ensures { result ≡ shrunk e }
{
    Entry {
        reclen: dirblock::smallest_read(e.namelen),
        ..e
    }
}

// A record that is n bytes longer.
fn lengthen(e: Entry, n: u16) -> Entry
    requires { e.reclen + n < 65536 }
    ensures { result ≡ absorb n e }
{
    Entry {
        reclen: e.reclen + n,
        ..e
    }
}

// The record e at pos gives what it has beyond its smallest length to a new one.
fn link_at(o: Order, block: &mut [u8], pos: usize, e: Entry, inr: u32, kind: u8, name: &[u8])
    requires { (rec_at o block.old pos ≡ Used e) × (smallest_new (length name.now) ≤ slack e) × (length name.now < 256) }
    ensures { block.new ≡ link_at o block.old pos e inr kind name.now }
{
    let old = shrink(e);
    let new = Entry {
        inr,
        reclen: dirblock::slack_of(e),
        kind,
        namelen: name.len() as u8,
    };
    dirblock_write::put_again(o, block, pos, old);
    dirblock_write::put_rec(o, block, pos + old.reclen as usize, new, name);
}

// dir.rs: newlink_block. The name is linked into the first record with room.
pub fn link_in(
    o: Order,
    block: &mut [u8],
    inr: u32,
    kind: u8,
    name: &[u8],
) -> Result<Linked, Damage>
    requires { length name.now < 256 }
    ensures { (block.new, result) ≡ link_in o block.old inr kind name.now }
{
    let Some((pos, e)) = dirblock_search::room_in(o, block, name.len() as u8)? else {
        return Ok(Linked::Full);
    };
    link_at(o, block, pos, e, inr, kind, name);
    Ok(Linked::Done)
}

// The record before the one at pos absorbs it.
fn unlink_later(o: Order, block: &mut [u8], prev: usize, e: Entry) -> Result<Unlinked, Damage>
    requires { (length block.old ≡ 512) × Behind block.old prev (entry_at o prev block.old) e }
    ensures { (block.new, result) ≡ unlink_later o block.old prev e }
{
    let p = dirblock::entry_at(o, block, prev);
    dirblock_write::put_again(o, block, prev, lengthen(p, e.reclen));
    Ok(Unlinked::Done(e.inr))
}

// The record e, whose name stands behind `from`, is written at the start; its name is read first.
fn put_first(o: Order, block: &mut [u8], from: usize, e: Entry)
    requires { Fits (length block.old) 0 e × (from + 8 + e.namelen ≤ length block.old) }
    ensures { block.new ≡ put_rec o 0 e (name_at block.old from e) block.old }
{
    let mut name = [0u8; 256];
    let n = e.namelen as usize;
    field::copy_bytes(&mut name, 0, block, from + 8, n);
    dirblock_write::put_rec(o, block, 0, e, &name[0..n]);
}

// The record behind the first absorbs it; alone, nothing is written.
fn unlink_first(o: Order, block: &mut [u8], e: Entry) -> Result<Unlinked, Damage>
    requires { (length block.old ≡ 512) × (rec_at o block.old 0 ≡ Used e) }
    ensures { (block.new, result) ≡ unlink_first o block.old e }
{
    let at = e.reclen as usize;
    let rec = dirblock::rec_at(o, block, at);
    match rec {
        Rec::Used(next) => {
            put_first(o, block, at, lengthen(next, e.reclen));
            Ok(Unlinked::Done(e.inr))
        }
        Rec::Unused(next) => {
            put_first(o, block, at, lengthen(next, e.reclen));
            Ok(Unlinked::Done(e.inr))
        }
        Rec::End => Ok(Unlinked::Alone(e.inr)),
        Rec::Bad => Err(Damage),
    }
}

// dir.rs: unlink_block. The first record of that name, whiteouts too, is taken out.
pub fn unlink_in(o: Order, block: &mut [u8], name: &[u8]) -> Result<Unlinked, Damage>
    requires { length block.old ≡ 512 }
    ensures { (block.new, result) ≡ unlink_in o block.old name.now }
{
    let Some(s) = dirblock_search::find_in(o, block, name, true)? else {
        return Ok(Unlinked::Absent);
    };
    if s.pos == 0 {
        return unlink_first(o, block, s.entry);
    }
    unlink_later(o, block, s.prev, s.entry)
}
