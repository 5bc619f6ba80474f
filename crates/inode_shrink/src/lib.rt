// ialloc.rs (inode_shrink): a list, and a list of lists, of which the first addresses stay.
#![tactic(auto)]

ghost use Rattle.std.specs.Prelude.{◌≡◌, true, [], ◌∷◌, ◌+◌, ◌-◌, ◌*◌, ◌≤◌, ◌<◌, length};
ghost use Rattle.field.specs.Field.{part, put, zeros};
ghost use Rattle.store.specs.Store.{apply};
ghost use Rattle.store.specs.Act.{leaves};
ghost use Rattle.frame.specs.Frame.{Frame};
ghost use Rattle.mapping.specs.Mapping.{per_list, list_ok};
ghost use Rattle.ialloc_tree.specs.Tree.{freed_out};
ghost use Rattle.inode_shrink.specs.Shrink.{free_rest, rest_write, shrink_list, free_lists, entry_in, Copied, shrink_from, shrink_lists};

use field::Number;
use inode::Shape;
use refusal::Refusal;
use volume::{BlockIdx, FragNum, Geometry};

// The addresses of the list at a from place u on, each block at the file's own index: the units of 512 bytes that stay.
fn free_rest(
    img: &mut [u8],
    geo: Geometry,
    s: Shape,
    a: FragNum,
    base: u64,
    u: u64,
    held: u64,
) -> Result<u64, Refusal>
    requires { Frame geo img.old × (list_ok geo img.old a.0 ≡ true) × (base ≤ 1099511627776) }
    ensures { (img.new, freed_out result) ≡ leaves (free_rest geo s a.0 base u held) img.old }
{
    let per = mapping::per_list(geo);
    let mut left = held;
    for i in u..per {
        let next = mapping::entry(img, geo, a, i);
        left = ialloc_tree::free_address(img, geo, s, 0, next, BlockIdx(base + i), left)?;
    }
    Ok(left)
}

// The places of the list at a from u on made 0.
fn zero_rest(img: &mut [u8], geo: Geometry, a: FragNum, u: u64)
    requires { Frame geo img.old × (list_ok geo img.old a.0 ≡ true) × (u ≤ per_list geo) }
    ensures { img.new ≡ apply (rest_write geo a.0 u ∷ []) img.old }
{
    let per = mapping::per_list(geo);
    field::zero_bytes(
        img,
        volume::address_at(geo, a) + u as usize * 8,
        (per - u) as usize * 8,
    );
}

// A list of which the first u addresses stay.
pub fn shrink_list(
    img: &mut [u8],
    geo: Geometry,
    s: Shape,
    a: FragNum,
    base: u64,
    u: u64,
    held: u64,
) -> Result<u64, Refusal>
    requires { Frame geo img.old × (base ≤ 1099511627776) × (u ≤ per_list geo) }
    ensures { (img.new, freed_out result) ≡ leaves (shrink_list geo s a.0 base u held) img.old }
{
    if a.0 == 0 {
        return Ok(held);
    }
    if !frame::run_ok(img, geo, a, geo.frag as u64) {
        return Err(Refusal::Damaged);
    }
    let n = free_rest(img, geo, s, a, base, u, held)?;
    zero_rest(img, geo, a, u);
    Ok(n)
}

// An address of a list that is at hand.
fn entry_in(geo: Geometry, root: &[u8], i: u64) -> FragNum
    requires { i * 8 + 8 ≤ length root.now }
    ensures { result.0 ≡ entry_in geo root.now i }
{
    let o = geo.order;
    FragNum(u64::get(o, root, i as usize * 8))
}

// The lists from place u on of a root that is at hand.
fn free_lists(
    img: &mut [u8],
    geo: Geometry,
    s: Shape,
    root: &[u8],
    u: u64,
    held: u64,
) -> Result<u64, Refusal>
    requires { Frame geo img.old × (geo.bsize ≤ length root.now) }
    ensures { (img.new, freed_out result) ≡ leaves (free_lists geo s (entry_in geo root.now) u held) img.old }
{
    let per = mapping::per_list(geo);
    let mut left = held;
    for i in u..per {
        let next = entry_in(geo, root, i);
        left = ialloc_tree::free_address(img, geo, s, 1, next, BlockIdx(i), left)?;
    }
    Ok(left)
}

// The root stored as it is at hand, its places from u on made 0.
fn put_root(img: &mut [u8], geo: Geometry, a: FragNum, root: &[u8], u: u64)
    requires { Frame geo img.old × (list_ok geo img.old a.0 ≡ true) × (geo.bsize ≤ length root.now) × (u ≤ per_list geo) }
    ensures { img.new ≡ put (a.0 * geo.fsize + u * 8) (zeros ((per_list geo - u) * 8)) (put (a.0 * geo.fsize) (part (u * 8) 0 root.now) img.old) }
{
    let per = mapping::per_list(geo);
    let at = volume::address_at(geo, a);
    field::copy_bytes(img, at, root, 0, u as usize * 8);
    field::zero_bytes(img, at + u as usize * 8, (per - u) as usize * 8);
}

// Of a root that was copied to `root` the lists before place `high` stay, and of that one the first `low` addresses.
fn shrink_from(
    img: &mut [u8],
    geo: Geometry,
    s: Shape,
    a: FragNum,
    first: u64,
    high: u64,
    low: u64,
    held: u64,
    root: &[u8; 65536],
) -> Result<u64, Refusal>
    requires { Frame geo img.old × (list_ok geo img.old a.0 ≡ true) × (first ≤ 1099511627776) × (high < per_list geo) × (low ≤ per_list geo) × Copied geo img.old a.0 root.now }
    ensures { (img.new, freed_out result) ≡ leaves (shrink_from geo s a.0 first high low held img.old) img.old }
{
    let n = shrink_list(img, geo, s, entry_in(geo, root, high), first, low, held)?;
    let m = free_lists(img, geo, s, root, high + 1, n)?;
    put_root(img, geo, a, root, high + 1);
    Ok(m)
}

// The list at a, copied.
fn copy_root(root: &mut [u8; 65536], img: &[u8], geo: Geometry, a: FragNum)
    requires { Frame geo img.now × (list_ok geo img.now a.0 ≡ true) }
    ensures { Copied geo img.now a.0 root.new }
{
    field::copy_bytes(root, 0, img, volume::address_at(geo, a), geo.bsize as usize);
}

// A list of lists of which the first u blocks stay.
pub fn shrink_lists(
    img: &mut [u8],
    geo: Geometry,
    s: Shape,
    a: FragNum,
    base: u64,
    u: u64,
    held: u64,
) -> Result<u64, Refusal>
    requires { Frame geo img.old × (base ≤ 549755813888) × (u < per_list geo * per_list geo) }
    ensures { (img.new, freed_out result) ≡ leaves (shrink_lists geo s a.0 base u held) img.old }
{
    if a.0 == 0 {
        return Ok(held);
    }
    if !frame::run_ok(img, geo, a, geo.frag as u64) {
        return Err(Refusal::Damaged);
    }
    let per = mapping::per_list(geo);
    let high = u / per;
    let mut root = [0u8; 65536];
    copy_root(&mut root, img, geo, a);
    shrink_from(
        img,
        geo,
        s,
        a,
        base + high * per,
        high,
        u % per,
        held,
        &root,
    )
}
