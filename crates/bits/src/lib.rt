// balloc.rs, cg_*: the rules of the free map and of the inode map, which are bytes of a lent slice that begin at `at`.
#![tactic(auto)]

ghost use Rattle.std.specs.Prelude.{◌≡◌, true, ◌+◌, ◌-◌, ◌*◌, ◌/◌, ◌%◌, ◌^◌, ◌<◌, ◌≤◌, eqb, length, get_or};
ghost use Rattle.bits.specs.Upto.{as_bit};
ghost use Rattle.bits.specs.Bits.{is_frag, frag_free, bits_are, block_free, block_full, put_bits, put_bits_at};

// balloc.rs: cg_isfreefrag.
pub fn isfreefrag(img: &[u8], at: usize, f: usize) -> bool
    requires { at + f / 8 < length img.now }
    ensures { result ≡ frag_free img.now at f }
{
    (img[at + f / 8] >> (f % 8)) % 2 == 1
}

// balloc.rs: cg_isfreeblock.
pub fn isfreeblock(img: &[u8], at: usize, frag: u32, h: usize) -> bool
    requires { (is_frag frag ≡ true) × (at + frag * h / 8 < length img.now) }
    ensures { result ≡ block_free frag img.now at h }
{
    match frag {
        8 => img[at + h] == 255,
        4 => (img[at + h / 2] >> (h % 2 * 4)) % 16 == 15,
        2 => (img[at + h / 4] >> (h % 4 * 2)) % 4 == 3,
        _ => (img[at + h / 8] >> (h % 8)) % 2 == 1,
    }
}

// balloc.rs: cg_isfullblock.
pub fn isfullblock(img: &[u8], at: usize, frag: u32, h: usize) -> bool
    requires { (is_frag frag ≡ true) × (at + frag * h / 8 < length img.now) }
    ensures { result ≡ block_full frag img.now at h }
{
    match frag {
        8 => img[at + h] == 0,
        4 => (img[at + h / 2] >> (h % 2 * 4)) % 16 == 0,
        2 => (img[at + h / 4] >> (h % 4 * 2)) % 4 == 0,
        _ => (img[at + h / 8] >> (h % 8)) % 2 == 0,
    }
}

pub fn wide(x: u8) -> usize
    ensures { result ≡ x }
{
    x as usize
}

pub fn two_to(n: usize) -> usize
    requires { n ≤ 8 }
    ensures { (result ≡ 2 ^ n) × (1 ≤ result) × (result ≤ 256) }
{
    1usize << n
}

pub fn as_bit(free: bool) -> usize
    ensures { (result ≡ as_bit free) × (result < 2) }
{
    usize::from(free)
}

// The byte x with its n bits from s made free or not.
pub fn put_bits(x: u8, s: usize, n: usize, free: bool) -> u8
    requires { s + n ≤ 8 }
    ensures { result ≡ put_bits (as_bit free) n s x }
{
    let y = x as usize;
    let above = two_to(s + n);
    let below = two_to(s);
    let v = as_bit(free);
    (y / above * above + v * ((two_to(n) - 1) * below) + y % below) as u8
}

// The byte that setfrag stores.
pub fn frag_byte(img: &[u8], at: usize, f: usize, free: bool) -> u8
    requires { at + f / 8 < length img.now }
    ensures { result ≡ put_bits (as_bit free) 1 (f % 8) (get_or img.now (at + f / 8) 0) }
{
    put_bits(img[at + f / 8], f % 8, 1, free)
}

// The byte that setblock stores.
pub fn block_byte(img: &[u8], at: usize, frag: u32, h: usize, free: bool) -> u8
    requires { (is_frag frag ≡ true) × (at + frag * h / 8 < length img.now) }
    ensures { result ≡ put_bits (as_bit free) frag (frag * h % 8) (get_or img.now (at + frag * h / 8) 0) }
{
    match frag {
        8 => put_bits(img[at + h], 0, 8, free),
        4 => put_bits(img[at + h / 2], h % 2 * 4, 4, free),
        2 => put_bits(img[at + h / 4], h % 4 * 2, 2, free),
        _ => put_bits(img[at + h / 8], h % 8, 1, free),
    }
}

// The map byte in which block h stands.
pub fn map_byte(frag: u32, h: usize) -> usize
    requires { is_frag frag ≡ true }
    ensures { result ≡ frag * h / 8 }
{
    match frag {
        8 => h,
        4 => h / 2,
        2 => h / 4,
        _ => h / 8,
    }
}

// balloc.rs: cg_setfrag.
pub fn setfrag(img: &mut [u8], at: usize, f: usize, free: bool)
    requires { at + f / 8 < length img.old }
    ensures { img.new ≡ put_bits_at (as_bit free) img.old at f 1 }
{
    let b = frag_byte(img, at, f, free);
    img[at + f / 8] = b;
}

// balloc.rs: cg_setblock.
pub fn setblock(img: &mut [u8], at: usize, frag: u32, h: usize, free: bool)
    requires { (is_frag frag ≡ true) × (at + frag * h / 8 < length img.old) }
    ensures { img.new ≡ put_bits_at (as_bit free) img.old at (frag * h) frag }
{
    let b = block_byte(img, at, frag, h, free);
    let k = map_byte(frag, h);
    img[at + k] = b;
}

// Whether the n bits from f, which stand in one byte, are 0.
fn run_clear(img: &[u8], at: usize, f: usize, n: usize) -> bool
    requires { (f % 8 + n ≤ 8) × (at + (f + n + 7) / 8 ≤ length img.now) }
    ensures { result ≡ bits_are 0 img.now at f n }
{
    if n == 0 {
        return true;
    }
    wide(img[at + f / 8] >> (f % 8)) % two_to(n) == 0
}

// Whether the bits of n map bytes, from byte i, are 0.
fn bytes_clear(img: &[u8], at: usize, i: usize, n: usize) -> bool
    requires { at + i + n ≤ length img.now }
    ensures { result ≡ bits_are 0 img.now at (8 * i) (8 * n) }
{
    let from = at + i;
    img[from..from + n].iter().all(|b| *b == 0)
}

// Whether the n bits from `from` are 0: whole bytes at once, and bits before and after them.
pub fn clear_bits(img: &[u8], at: usize, from: usize, n: usize) -> bool
    requires { (at + (from + n + 7) / 8 ≤ length img.now) × (from + n < 2 ^ 32) }
    ensures { result ≡ bits_are 0 img.now at from n }
{
    let end = from + n;
    let first = (from + 7) / 8;
    let last = end / 8;
    if last < first {
        return run_clear(img, at, from, n);
    }
    if !run_clear(img, at, from, 8 * first - from) {
        return false;
    }
    if !bytes_clear(img, at, first, last - first) {
        return false;
    }
    let done = 8 * last;
    run_clear(img, at, done, end - done)
}

// Whether the n bits from s of the byte x are all 1.
pub fn all_free(x: u8, s: usize, n: usize) -> bool
    requires { (s < 8) × (s + n ≤ 8) }
    ensures { result ≡ eqb (x / 2 ^ s % 2 ^ n) (2 ^ n - 1) }
{
    let run = two_to(n);
    wide(x >> s) % run == run - 1
}

// How many blocks stand in a byte.
pub fn per_byte(frag: u32) -> usize
    requires { is_frag frag ≡ true }
    ensures { (frag * result ≡ 8) × (1 ≤ result) × (result ≤ 8) }
{
    8 / (frag as usize)
}
