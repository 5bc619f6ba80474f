// ialloc.rs (inode_set_block): a block's address set in its inode, or in the list that holds it.
#![tactic(auto)]

ghost use Rattle.std.specs.Prelude.{◌≡◌, true, [], ◌∷◌, ◌+◌, ◌*◌, ◌^◌, ◌≤◌, ◌<◌, length};
ghost use Rattle.field.specs.Field.{part};
ghost use Rattle.store.specs.Store.{apply};
ghost use Rattle.store.specs.Act.{leaves};
ghost use Rattle.frame.specs.Frame.{Frame};
ghost use Rattle.mapping.specs.Mapping.{per_list, list_ok};
ghost use Rattle.balloc_give.specs.Give.{zeroed_out};
ghost use Rattle.inode_setblock.specs.Set.{entry_write, list_store, record_store, next_list, set_in, set_root, set_under, set_block, written_out};

use field::Number;
use mapping::Place;
use refusal::Refusal;
use volume::{BlockIdx, FragNum, Geometry};

// An address of the list at r.
fn put_entry(img: &mut [u8], geo: Geometry, r: FragNum, slot: u64, a: FragNum)
    requires { Frame geo img.old × (list_ok geo img.old r.0 ≡ true) × (slot < per_list geo) }
    ensures { img.new ≡ apply (entry_write geo r.0 slot a.0 ∷ []) img.old }
{
    let o = geo.order;
    let at = volume::address_at(geo, r) + slot as usize * 8;
    a.0.put(o, img, at);
}

// The list at r, as it stands, kept beside the image.
fn keep_list(list: &mut [u8; 65536], img: &[u8], geo: Geometry, r: FragNum)
    requires { Frame geo img.now × (list_ok geo img.now r.0 ≡ true) }
    ensures { part geo.bsize 0 list.new ≡ part geo.bsize (r.0 * geo.fsize) img.now }
{
    field::copy_bytes(list, 0, img, volume::address_at(geo, r), geo.bsize as usize);
}

// The list that was kept, stored whole with one address changed.
fn put_list(img: &mut [u8], geo: Geometry, r: FragNum, list: &[u8; 65536], slot: u64, a: FragNum)
    requires { Frame geo img.old × (list_ok geo img.old r.0 ≡ true) × (slot < per_list geo) }
    ensures { img.new ≡ apply (list_store geo (part geo.bsize 0 list.now) r.0 slot a.0) img.old }
{
    let o = geo.order;
    let at = volume::address_at(geo, r);
    field::copy_bytes(img, at, list, 0, geo.bsize as usize);
    a.0.put(o, img, at + slot as usize * 8);
}

// One of the record's 15 addresses, and how much the data hold.
fn put_record(img: &mut [u8], geo: Geometry, at: usize, root: u64, a: FragNum, held: u64)
    requires { (at + 256 ≤ length img.old) × (root < 15) }
    ensures { img.new ≡ apply (record_store geo at root a.0 held) img.old }
{
    let o = geo.order;
    inode::put_address(img, o, at, root, a);
    inode::put_blocks(img, o, at, held);
}

// The list that an address of the list at r leads to; where there is none, one is given out.
fn next_list(img: &mut [u8], geo: Geometry, r: FragNum, slot: u64) -> Result<FragNum, Refusal>
    requires { Frame geo img.old × (list_ok geo img.old r.0 ≡ true) × (slot < per_list geo) }
    ensures { (img.new, zeroed_out result) ≡ leaves (next_list geo r.0 slot) img.old }
{
    let next = mapping::entry(img, geo, r, slot);
    if next.0 != 0 {
        return Ok(next);
    }
    let mut list = [0u8; 65536];
    keep_list(&mut list, img, geo, r);
    let e = balloc_give::blk_alloc_full_zeroed(img, geo)?;
    put_list(img, geo, r, &list, slot, e);
    Ok(e)
}

// Down from the list at r, which is `below` lists above the one that holds the address.
fn set_in(
    img: &mut [u8],
    geo: Geometry,
    below: u32,
    r: FragNum,
    rest: BlockIdx,
    a: FragNum,
) -> Result<(), Refusal>
    requires { Frame geo img.old × (below ≤ 2) × (rest.0 < per_list geo ^ (below + 1)) }
    ensures { (img.new, written_out result) ≡ leaves (set_in geo below r.0 rest.0 a.0) img.old }
{
    if !frame::run_ok(img, geo, r, geo.frag as u64) {
        return Err(Refusal::Damaged);
    }
    if below == 0 {
        put_entry(img, geo, r, rest.0, a);
        return Ok(());
    }
    let each = mapping::span_of(geo, below);
    let e = next_list(img, geo, r, rest.0 / each)?;
    set_in(img, geo, below - 1, e, BlockIdx(rest.0 % each), a)
}

// Under a root that is not yet there: it is given out first, and stored last.
fn set_root(
    img: &mut [u8],
    geo: Geometry,
    at: usize,
    root: u64,
    below: u32,
    rest: BlockIdx,
    a: FragNum,
    held: u64,
) -> Result<(), Refusal>
    requires { Frame geo img.old × (at + 256 ≤ length img.old) × (root < 15) × (below ≤ 2) × (rest.0 < per_list geo ^ (below + 1)) }
    ensures { (img.new, written_out result) ≡ leaves (set_root geo at root below rest.0 a.0 held) img.old }
{
    let r = balloc_give::blk_alloc_full_zeroed(img, geo)?;
    set_in(img, geo, below, r, rest, a)?;
    put_record(img, geo, at, root, r, held);
    Ok(())
}

// Under one of the record's addresses, `level` lists above the block.
fn set_under(
    img: &mut [u8],
    geo: Geometry,
    at: usize,
    root: u64,
    level: u32,
    rest: BlockIdx,
    a: FragNum,
    held: u64,
) -> Result<(), Refusal>
    requires { Frame geo img.old × (at + 256 ≤ length img.old) × (root < 15) × (level ≤ 3) × (rest.0 < per_list geo ^ level) }
    ensures { (img.new, written_out result) ≡ leaves (set_under geo at root level rest.0 a.0 held) img.old }
{
    if level == 0 {
        put_record(img, geo, at, root, a, held);
        return Ok(());
    }
    let o = geo.order;
    let r = inode::read_address(img, o, at, root);
    if r.0 == 0 {
        return set_root(img, geo, at, root, level - 1, rest, a, held);
    }
    set_in(img, geo, level - 1, r, rest, a)
}

// inode_set_block: the address of a block of the inode whose record is at `at`.
pub fn set_block(
    img: &mut [u8],
    geo: Geometry,
    at: usize,
    i: BlockIdx,
    a: FragNum,
    held: u64,
) -> Result<(), Refusal>
    requires { Frame geo img.old × (at + 256 ≤ length img.old) }
    ensures { (img.new, written_out result) ≡ leaves (set_block geo at i.0 a.0 held) img.old }
{
    match mapping::place_of(mapping::per_list(geo), i) {
        Place::Under { root, level, rest } => set_under(img, geo, at, root, level, rest, a, held),
        Place::Past => Err(Refusal::Damaged),
    }
}
