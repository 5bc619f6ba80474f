// Counts over a map: byte by byte, and within a byte block by block.
#![tactic(auto)]

ghost use Rattle.std.specs.Prelude.{◌≡◌, true, ◌+◌, ◌*◌, ◌/◌, ◌^◌, ◌<◌, ◌≤◌, length};
ghost use Rattle.bits.specs.Bits.{is_frag, free_blocks, free_frags, InByte};

// The free fragments among the first m of map byte i.
fn frags_in_byte(img: &[u8], at: usize, i: usize, m: usize) -> usize
    requires { (at + i < length img.now) × (m ≤ 8) }
    ensures { free_frags img.now at (8 * i) + result ≡ free_frags img.now at (8 * i + m) }
{
    let low = bits::wide(img[at + i]) % bits::two_to(m);
    usize::count_ones(low) as usize
}

// The free fragments of the first n.
pub fn count_free(img: &[u8], at: usize, n: usize) -> usize
    requires { at + (n + 7) / 8 ≤ length img.now }
    ensures { result ≡ free_frags img.now at n }
{
    let whole = n / 8;
    let rest = n % 8;
    let mut total: usize = 0;
    for i in 0..whole {
        total += frags_in_byte(img, at, i, 8);
    }
    if rest == 0 {
        return total;
    }
    total + frags_in_byte(img, at, whole, rest)
}

// The free blocks of those from `from` to `to`.
fn blocks_in(img: &[u8], at: usize, frag: u32, from: usize, to: usize) -> usize
    requires { (is_frag frag ≡ true) × (at + (frag * to + 7) / 8 ≤ length img.now) × (from ≤ to) }
    ensures { free_blocks frag img.now at from + result ≡ free_blocks frag img.now at to }
{
    let mut n: usize = 0;
    for h in from..to {
        n += bits::as_bit(bits::isfreeblock(img, at, frag, h));
    }
    n
}

// The same where these blocks stand in map byte i: none is free in a byte of 0, and each in a byte of 255.
fn blocks_in_byte(img: &[u8], at: usize, frag: u32, i: usize, from: usize, to: usize) -> usize
    requires { InByte frag at i from to (length img.now) }
    ensures { free_blocks frag img.now at from + result ≡ free_blocks frag img.now at to }
{
    let x = img[at + i];
    if x == 0 {
        return 0;
    }
    if x == 255 {
        return to - from;
    }
    blocks_in(img, at, frag, from, to)
}

// The free blocks of the first nb.
pub fn count_blocks(img: &[u8], at: usize, frag: u32, nb: usize) -> usize
    requires { (is_frag frag ≡ true) × (at + (frag * nb + 7) / 8 ≤ length img.now) × (nb < 2 ^ 32) }
    ensures { result ≡ free_blocks frag img.now at nb }
{
    let per = bits::per_byte(frag);
    let mut total: usize = 0;
    let mut i = 0;
    let mut h = 0;
    // Not a `for`: the step is the number of blocks in a byte, and i goes along with h.
    while h < nb {
        let to = (h + per).min(nb);
        total += blocks_in_byte(img, at, frag, i, h, to);
        h = to;
        i += 1;
    }
    total
}

// What one pass over a map counts.
#[derive(Clone, Copy)]
pub struct MapCount {
    pub blocks: usize,
    pub frags: usize,
}

// The free blocks and the free fragments of the first n fragments, in one pass over the map's bytes.
pub fn count_map(img: &[u8], at: usize, frag: u32, n: usize) -> MapCount
    requires { (is_frag frag ≡ true) × (at + (n + 7) / 8 ≤ length img.now) × (n < 2 ^ 32) }
    ensures { (result.blocks ≡ free_blocks frag img.now at (n / frag)) × (result.frags ≡ free_frags img.now at n) × (frag * result.blocks ≤ result.frags) }
{
    let per = bits::per_byte(frag);
    let nb = n / (frag as usize);
    let bytes = (n + 7) / 8;
    let mut blocks: usize = 0;
    let mut frags: usize = 0;
    for i in 0..bytes {
        let to = (per * i + per).min(nb);
        blocks += blocks_in_byte(img, at, frag, i, per * i, to);
        frags += frags_in_byte(img, at, i, (n - 8 * i).min(8));
    }
    MapCount { blocks, frags }
}
