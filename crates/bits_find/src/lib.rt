// Scans of a map: byte by byte, and within a byte block by block or bit by bit.
#![tactic(auto)]

ghost use Rattle.std.specs.Prelude.{◌≡◌, true, ◌+◌, ◌-◌, ◌*◌, ◌/◌, ◌%◌, ◌^◌, ◌<◌, ◌≤◌, length};
ghost use Rattle.bits.specs.Upto.{first};
ghost use Rattle.bits.specs.Bits.{is_frag, block_free, is_clear, first_free, first_clear, InByte};

// The first free block of those from `from` to `to`.
fn first_free_in(img: &[u8], at: usize, frag: u32, from: usize, to: usize) -> Option<usize>
    requires { (is_frag frag ≡ true) × (at + (frag * to + 7) / 8 ≤ length img.now) × (from ≤ to) }
    ensures { result ≡ first (block_free frag img.now at) from (to - from) }
{
    for h in from..to {
        if bits::isfreeblock(img, at, frag, h) {
            return Some(h);
        }
    }
    None
}

// The same where these blocks stand in map byte i: none is free in a byte of 0.
fn first_in_byte(
    img: &[u8],
    at: usize,
    frag: u32,
    i: usize,
    from: usize,
    to: usize,
) -> Option<usize>
    requires { InByte frag at i from to (length img.now) }
    ensures { result ≡ first (block_free frag img.now at) from (to - from) }
{
    if img[at + i] == 0 {
        return None;
    }
    first_free_in(img, at, frag, from, to)
}

// balloc.rs: blk_alloc_full, the scan of one group. The first of nb blocks that is free.
pub fn first_free_block(img: &[u8], at: usize, frag: u32, nb: usize) -> Option<usize>
    requires { (is_frag frag ≡ true) × (at + (frag * nb + 7) / 8 ≤ length img.now) × (nb < 2 ^ 32) }
    ensures { result ≡ first_free frag img.now at nb }
{
    let per = bits::per_byte(frag);
    let mut i = 0;
    let mut h = 0;
    // Not a `for`: the step is the number of blocks in a byte, and i goes along with h.
    while h < nb {
        let to = (h + per).min(nb);
        if let Some(k) = first_in_byte(img, at, frag, i, h, to) {
            return Some(k);
        }
        h = to;
        i += 1;
    }
    None
}

// The first clear bit of those from `from` to `to`.
fn first_clear_in(img: &[u8], at: usize, from: usize, to: usize) -> Option<usize>
    requires { (at + (to + 7) / 8 ≤ length img.now) × (from ≤ to) }
    ensures { result ≡ first (is_clear img.now at) from (to - from) }
{
    for f in from..to {
        if !bits::isfreefrag(img, at, f) {
            return Some(f);
        }
    }
    None
}

// The same where these bits stand in one byte: none is clear in a byte of 255.
fn clear_in_byte(img: &[u8], at: usize, from: usize, to: usize) -> Option<usize>
    requires { (from % 8 ≡ 0) × (from < to) × (to ≤ from + 8) × (at + (to + 7) / 8 ≤ length img.now) }
    ensures { result ≡ first (is_clear img.now at) from (to - from) }
{
    if img[at + from / 8] == 255 {
        return None;
    }
    first_clear_in(img, at, from, to)
}

// ialloc.rs: inode_alloc, the scan of one group. The first of n bits that is clear.
pub fn first_clear_bit(img: &[u8], at: usize, n: usize) -> Option<usize>
    requires { (at + (n + 7) / 8 ≤ length img.now) × (n < 2 ^ 32) }
    ensures { result ≡ first_clear img.now at n }
{
    let mut f = 0;
    // Not a `for`: the step is a byte of 8 bits.
    while f < n {
        let to = (f + 8).min(n);
        if let Some(k) = clear_in_byte(img, at, f, to) {
            return Some(k);
        }
        f = to;
    }
    None
}
