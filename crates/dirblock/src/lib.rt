// dir.rs, the part on blocks: one directory block and its records, walked by a cursor.
#![tactic(auto)]

ghost use Rattle.std.specs.Prelude.{◌≡◌, ◌+◌, ◌≤◌, ◌<◌, length};
ghost use Rattle.dirblock.specs.Record.{smallest_read, smallest_new, kind_known, entry_at, name_at, judged, rec_at, slack};

use field::{Number, Order};

// dir.rs: Header, struct direct without its name, which is a part of the block.
#[derive(Clone, Copy)]
pub struct Entry {
    pub inr: u32,
    pub reclen: u16,
    pub kind: u8,
    pub namelen: u8,
}

// What stands at a place of a block: a record, a record that no file uses, the end of the walk, damage.
#[derive(Clone, Copy)]
pub enum Rec {
    Used(Entry),
    Unused(Entry),
    End,
    Bad,
}

// A record that a search found, its place, and the place of the record before it: its own where it is the first.
#[derive(Clone, Copy)]
pub struct Spot {
    pub pos: usize,
    pub prev: usize,
    pub entry: Entry,
}

// What linking answers: no room is no refusal, the next block is asked.
#[derive(Clone, Copy)]
pub enum Linked {
    Done,
    Full,
}

// What unlinking answers: the inode, and whether its record stood alone and the block goes.
#[derive(Clone, Copy)]
pub enum Unlinked {
    Done(u32),
    Alone(u32),
    Absent,
}

// dir.rs: Header::minlen.
pub fn smallest_read(n: u8) -> u16
    ensures { (result ≡ smallest_read n) × (8 + n ≤ result) × (result ≤ n + 11) }
{
    (8 + n as u16 + 3) / 4 * 4
}

pub fn smallest_new(n: u8) -> u16
    ensures { (result ≡ smallest_new n) × (8 + n ≤ result) × (result ≤ n + 11) }
{
    (n as u16 + 11) / 4 * 4
}

// What a record has beyond its smallest length.
pub fn slack_of(e: Entry) -> u16
    requires { smallest_read e.namelen ≤ e.reclen }
    ensures { result ≡ slack e }
{
    e.reclen - smallest_read(e.namelen)
}

fn kind_known(k: u8) -> bool
    ensures { result ≡ kind_known k }
{
    (k == 1) | (k == 2) | (k == 4) | (k == 6) | (k == 8) | (k == 10) | (k == 12) | (k == 14)
}

// dir.rs: Header::parse, the fields.
pub fn entry_at(o: Order, block: &[u8], pos: usize) -> Entry
    requires { pos + 8 ≤ length block.now }
    ensures { result ≡ entry_at o pos block.now }
{
    Entry {
        inr: u32::get(o, block, pos),
        reclen: u16::get(o, block, pos + 4),
        kind: u8::get(o, block, pos + 6),
        namelen: u8::get(o, block, pos + 7),
    }
}

// dir.rs: Header::parse, the tests.
fn judge(left: usize, e: Entry) -> Rec
    requires { 8 ≤ left }
    ensures { result ≡ judged left e }
{
    if e.reclen == 0 {
        return Rec::End;
    }
    if e.reclen < smallest_read(e.namelen) {
        return Rec::Bad;
    }
    if left < e.reclen as usize {
        return Rec::Bad;
    }
    if e.inr == 0 {
        return Rec::End;
    }
    if kind_known(e.kind) {
        return Rec::Used(e);
    }
    Rec::Bad
}

// dir.rs: Header::parse. What stands at pos of a block of any length.
pub fn rec_at(o: Order, block: &[u8], pos: usize) -> Rec
    ensures { result ≡ rec_at o block.now pos }
{
    let left = block.len().saturating_sub(pos);
    if left < 8 {
        return Rec::End;
    }
    judge(left, entry_at(o, block, pos))
}

// The name of the record e at pos, a part of the lent block.
pub fn name_at(block: &[u8], pos: usize, e: Entry) -> &[u8]
    requires { pos + 8 + e.namelen ≤ length block.now }
    ensures { result.now ≡ name_at block.now pos e }
{
    let from = pos + 8;
    let to = from + e.namelen as usize;
    &block[from..to]
}
