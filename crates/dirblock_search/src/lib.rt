// dir.rs: readdir_block, and the searches of newlink_block and unlink_block. The first record of a block that is asked for.
#![tactic(auto)]

ghost use Rattle.std.specs.Prelude.{◌≡◌, Bool, cond, ◌+◌, ◌≤◌, length};
ghost use Rattle.dirblock.specs.Record.{listed, findable, name_at};
ghost use Rattle.dirblock.specs.Walk.{Item};
ghost use Rattle.dirblock.specs.Search.{same_name, named, search_from, find_in, room_in};
ghost use Rattle.dirblock_search.specs.Wanted.{MayAsk, Tells};

use dirblock::{Entry, Rec, Spot};
use field::Order;
use refusal::Damage;

pub fn is_listed(e: Entry) -> bool
    ensures { result ≡ listed e }
{
    !(e.kind == 14)
}

// Which records a search by name looks at.
fn looked_at(e: Entry, whiteouts: bool) -> bool
    ensures { result ≡ cond whiteouts (findable e) (listed e) }
{
    if whiteouts {
        return true;
    }
    is_listed(e)
}

// Whether the record at pos has that name.
fn has_name(block: &[u8], pos: usize, e: Entry, name: &[u8]) -> bool
    requires { pos + 8 + e.namelen ≤ length block.now }
    ensures { result ≡ same_name (name_at block.now pos e) name.now }
{
    if e.namelen as usize == name.len() {
        return field::same_bytes(block, pos + 8, name);
    }
    false
}

fn is_named(block: &[u8], pos: usize, e: Entry, name: &[u8], whiteouts: bool) -> bool
    requires { pos + 8 + e.namelen ≤ length block.now }
    ensures { result ≡ named block.now name.now whiteouts (record { pos = pos; entry = e }) }
{
    looked_at(e, whiteouts) & has_name(block, pos, e, name)
}

// The first record, from `from` on, that is wanted.
pub fn search_from<W: Fn(usize, Entry) -> bool>(
    o: Order,
    block: &[u8],
    from: usize,
    wanted: W,
) -> Result<Option<Spot>, Damage>
    requires { MayAsk o block.now (W.pre wanted) }
    ensures { (p : Item → Bool) → Tells o block.now (W.post wanted) p → result ≡ search_from p o block.now from from }
{
    let mut prev = from;
    let mut pos = from;
    // Not a `for`: the step is the record's length.
    loop {
        match dirblock::rec_at(o, block, pos) {
            Rec::Used(entry) => {
                if wanted(pos, entry) {
                    return Ok(Some(Spot { pos, prev, entry }));
                }
                prev = pos;
                pos += entry.reclen as usize;
            }
            Rec::Unused(entry) => {
                pos += entry.reclen as usize;
            }
            Rec::End => {
                return Ok(None);
            }
            Rec::Bad => {
                return Err(Damage);
            }
        }
    }
}

// The first record of that name, and whether whiteouts count.
pub fn find_in(o: Order, block: &[u8], name: &[u8], whiteouts: bool) -> Result<Option<Spot>, Damage>
    ensures { result ≡ find_in o block.now name.now whiteouts }
{
    search_from(
        o,
        block,
        0,
        |pos, e| is_named(block, pos, e, name, whiteouts),
    )
}

// The first record with room for a name of n bytes.
pub fn room_in(o: Order, block: &[u8], n: u8) -> Result<Option<(usize, Entry)>, Damage>
    ensures { result ≡ room_in o block.now n }
{
    let wanted = dirblock::smallest_new(n);
    let found = search_from(o, block, 0, |pos, e| wanted <= dirblock::slack_of(e))?;
    Ok(found.map(|s| (s.pos, s.entry)))
}
