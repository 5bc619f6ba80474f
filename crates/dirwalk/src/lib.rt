// dir.rs (dir_lookup, and the searches of dir_unlink and dir_newlink): a directory searched block by block.
#![tactic(auto)]

ghost use Rattle.std.specs.Prelude.{◌≡◌, false, ◌+◌, ◌*◌, ◌≤◌, ◌<◌, length};
ghost use Rattle.frame.specs.Frame.{Frame};
ghost use Rattle.dirblock.specs.Search.{find_in, room_in};
ghost use Rattle.dirblock.specs.Link.{unlink_in};
ghost use Rattle.dirfile.specs.Block.{dir_block};
ghost use Rattle.dirfile.specs.Seek.{in_block};
ghost use Rattle.dirwalk.specs.Walk.{looked_in, lookup_dir, looked_out, seen_in, find_dir, seen_out, roomy_in, room_dir, space_out};

use dirblock::{Rec, Unlinked};
use field::Order;
use refusal::Damage;
use volume::Geometry;

// A record that is to go: its block, its inode, and whether it stands alone in its block.
#[derive(Clone, Copy)]
pub struct Hit {
    pub block: u64,
    pub inr: u32,
    pub alone: bool,
}

// The lookup in block k.
fn look_block(
    img: &[u8],
    geo: Geometry,
    at: usize,
    size: u64,
    k: u64,
    name: &[u8],
) -> Result<Option<u32>, Damage>
    requires { Frame geo img.now × (at + 256 ≤ length img.now) × (k * 512 + 512 ≤ size) }
    ensures { looked_out result ≡ in_block (dir_block geo at size img.now k) (λ b. looked_in (find_in geo.order b name.now false)) }
{
    let o = geo.order;
    let Some(p) = dirfile::block_at(img, geo, at, size, k)? else {
        return Ok(None); // a hole holds no name
    };
    let found = dirblock_search::find_in(o, &img[p..p + 512], name, false)?;
    Ok(found.map(|s| s.entry.inr))
}

// dir_lookup: the blocks upward, up to the first listed record of that name; its inode's number is not judged.
pub fn lookup_dir(
    img: &[u8],
    geo: Geometry,
    at: usize,
    size: u64,
    name: &[u8],
) -> Result<Option<u32>, Damage>
    requires { Frame geo img.now × (at + 256 ≤ length img.now) }
    ensures { looked_out result ≡ lookup_dir geo at size img.now name.now }
{
    if !(size % 512 == 0) {
        return Err(Damage);
    }
    let n = size / 512;
    for k in 0..n {
        if let Some(i) = look_block(img, geo, at, size, k, name)? {
            return Ok(Some(i));
        }
    }
    Ok(None)
}

// unlink_block's search, with nothing written: what unlinking the name would answer.
fn unlinked_in(o: Order, block: &[u8], name: &[u8]) -> Result<Unlinked, Damage>
    ensures { result ≡ (unlink_in o block.now name.now).1 }
{
    let Some(s) = dirblock_search::find_in(o, block, name, true)? else {
        return Ok(Unlinked::Absent);
    };
    if s.pos == 0 {
        return match dirblock::rec_at(o, block, s.entry.reclen as usize) {
            Rec::Used(next) => Ok(Unlinked::Done(s.entry.inr)),
            Rec::Unused(next) => Ok(Unlinked::Done(s.entry.inr)),
            Rec::End => Ok(Unlinked::Alone(s.entry.inr)),
            Rec::Bad => Err(Damage),
        };
    }
    Ok(Unlinked::Done(s.entry.inr))
}

// The search for a record to be unlinked, in block k.
fn find_block(
    img: &[u8],
    geo: Geometry,
    at: usize,
    size: u64,
    k: u64,
    name: &[u8],
) -> Result<Option<Hit>, Damage>
    requires { Frame geo img.now × (at + 256 ≤ length img.now) × (k * 512 + 512 ≤ size) }
    ensures { seen_out result ≡ in_block (dir_block geo at size img.now k) (λ b. seen_in k (unlink_in geo.order b name.now).1) }
{
    let o = geo.order;
    let Some(p) = dirfile::block_at(img, geo, at, size, k)? else {
        return Ok(None); // a hole holds no record
    };
    // Not a `?`, so that a must-fail edit can change what is answered here.
    let Ok(found) = unlinked_in(o, &img[p..p + 512], name) else {
        return Err(Damage); // the search stops here
    };
    match found {
        Unlinked::Done(inr) => Ok(Some(Hit {
            block: k,
            inr,
            alone: false,
        })),
        Unlinked::Alone(inr) => Ok(Some(Hit {
            block: k,
            inr,
            alone: true,
        })),
        Unlinked::Absent => Ok(None),
    }
}

// dir_unlink's search: the blocks upward, up to the first record of that name, whiteouts too.
pub fn find_dir(
    img: &[u8],
    geo: Geometry,
    at: usize,
    size: u64,
    name: &[u8],
) -> Result<Option<Hit>, Damage>
    requires { Frame geo img.now × (at + 256 ≤ length img.now) }
    ensures { seen_out result ≡ find_dir geo at size img.now name.now }
{
    if !(size % 512 == 0) {
        return Err(Damage);
    }
    let n = size / 512;
    for k in 0..n {
        if let Some(h) = find_block(img, geo, at, size, k, name)? {
            return Ok(Some(h));
        }
    }
    Ok(None)
}

// The search for room in block k.
pub fn room_block(
    img: &[u8],
    geo: Geometry,
    at: usize,
    size: u64,
    k: u64,
    n: u8,
) -> Result<Option<u64>, Damage>
    requires { Frame geo img.now × (at + 256 ≤ length img.now) × (k * 512 + 512 ≤ size) }
    ensures { space_out result ≡ in_block (dir_block geo at size img.now k) (λ b. roomy_in k (room_in geo.order b n)) }
{
    let o = geo.order;
    let Some(p) = dirfile::block_at(img, geo, at, size, k)? else {
        return Ok(None); // a hole has no room
    };
    let room = dirblock_search::room_in(o, &img[p..p + 512], n)?;
    Ok(room.map(|_| k))
}

// dir_newlink's search: the blocks upward, up to the first with room for a name of n bytes.
pub fn room_dir(
    img: &[u8],
    geo: Geometry,
    at: usize,
    size: u64,
    n: u8,
) -> Result<Option<u64>, Damage>
    requires { Frame geo img.now × (at + 256 ≤ length img.now) }
    ensures { space_out result ≡ room_dir geo at size img.now n }
{
    if !(size % 512 == 0) {
        return Err(Damage);
    }
    let blocks = size / 512;
    for k in 0..blocks {
        if let Some(b) = room_block(img, geo, at, size, k, n)? {
            return Ok(Some(b));
        }
    }
    Ok(None)
}
