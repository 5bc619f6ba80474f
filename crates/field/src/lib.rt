// decoder.rs: numbers of 1, 2, 4 and 8 bytes and byte runs at an offset of a lent slice, in either byte order.
#![tactic(auto)]

ghost use Rattle.std.specs.Prelude.{◌≡◌, ◌+◌, ◌*◌, ◌/◌, ◌%◌, ◌^◌, ◌≤◌, ℕ, length, true, false};
ghost use Rattle.field.specs.Field.{num, put_num, part, put, zeros};

// Which byte of a number stands first: the low one or the high one.
#[derive(Clone, Copy)]
pub enum Order {
    Little,
    Big,
}

// A number that fields hold, in either byte order.
pub trait Number: Copy {
    // What it says, and how many bytes it fills.
    ghost number: { Self → ℕ };

    ghost BYTES: { ℕ };

    const BYTES: usize;

    fn get(o: Order, img: &[u8], at: usize) -> Self
        requires { at + BYTES ≤ length img.now }
        ensures { number result ≡ num o BYTES at img.now };

    fn put(self, o: Order, img: &mut [u8], at: usize)
        requires { at + BYTES ≤ length img.old }
        ensures { img.new ≡ put_num o BYTES at (number self) img.old };
}

// A number, joined of its low and its high half: the join is in each arm, so that the bytes are read at once.
fn joined<T: Number, W, J: Fn(T, T) -> W>(o: Order, img: &[u8], at: usize, join: J) -> W
    requires room { at + T.BYTES + T.BYTES ≤ length img.now }
    requires may { (low : T) (high : T) → J.pre join low high }
    ensures { (low : T) × (high : T) × J.post join low high result × (num o (T.BYTES + T.BYTES) at img.now ≡ T.number low + 256 ^ T.BYTES * T.number high) }
{
    match o {
        Order::Little => {
            let low = T::get(Order::Little, img, at);
            let high = T::get(Order::Little, img, at + T::BYTES);
            join(low, high)
        }
        Order::Big => {
            let high = T::get(Order::Big, img, at);
            let low = T::get(Order::Big, img, at + T::BYTES);
            join(low, high)
        }
    }
}

// A number's low and high half, written.
fn put_halves<T: Number>(o: Order, img: &mut [u8], at: usize, low: T, high: T)
    requires { at + T.BYTES + T.BYTES ≤ length img.old }
    ensures { (v : ℕ) → T.number low ≡ v % 256 ^ T.BYTES → T.number high ≡ v / 256 ^ T.BYTES → img.new ≡ put_num o (T.BYTES + T.BYTES) at v img.old }
{
    match o {
        Order::Little => {
            low.put(o, img, at);
            high.put(o, img, at + T::BYTES);
        }
        Order::Big => {
            high.put(o, img, at);
            low.put(o, img, at + T::BYTES);
        }
    }
}

impl Number for u8 {
    ghost number = { λ v. v };

    ghost BYTES = { 1 };

    const BYTES: usize = 1;

    fn get(o: Order, img: &[u8], at: usize) -> u8 {
        img[at]
    }

    fn put(self, o: Order, img: &mut [u8], at: usize) {
        img[at] = self;
    }
}

impl Number for u16 {
    ghost number = { λ v. v };

    ghost BYTES = { 2 };

    const BYTES: usize = 2;

    fn get(o: Order, img: &[u8], at: usize) -> u16 {
        joined(
            o,
            img,
            at,
            |low: u8, high: u8| low as u16 + high as u16 * 256,
        )
    }

    fn put(self, o: Order, img: &mut [u8], at: usize) {
        put_halves::<u8>(o, img, at, (self % 256) as u8, (self / 256) as u8);
    }
}

impl Number for u32 {
    ghost number = { λ v. v };

    ghost BYTES = { 4 };

    const BYTES: usize = 4;

    fn get(o: Order, img: &[u8], at: usize) -> u32 {
        joined(
            o,
            img,
            at,
            |low: u16, high: u16| low as u32 + high as u32 * 65536,
        )
    }

    fn put(self, o: Order, img: &mut [u8], at: usize) {
        put_halves::<u16>(o, img, at, (self % 65536) as u16, (self / 65536) as u16);
    }
}

impl Number for u64 {
    ghost number = { λ v. v };

    ghost BYTES = { 8 };

    const BYTES: usize = 8;

    fn get(o: Order, img: &[u8], at: usize) -> u64 {
        joined(
            o,
            img,
            at,
            |low: u32, high: u32| low as u64 + high as u64 * 4294967296,
        )
    }

    fn put(self, o: Order, img: &mut [u8], at: usize) {
        put_halves::<u32>(
            o,
            img,
            at,
            (self % 4294967296) as u32,
            (self / 4294967296) as u32,
        );
    }
}

// The n bytes of src from `from`, written to dst from `at`.
pub fn copy_bytes(dst: &mut [u8], at: usize, src: &[u8], from: usize, n: usize)
    requires { (at + n ≤ length dst.old) × (from + n ≤ length src.now) }
    ensures { dst.new ≡ put at (part n from src.now) dst.old }
{
    // Not `copy_from_slice`, which needs `memmove` from outside the archives for C.
    for i in 0..n {
        dst[at + i] = src[from + i];
    }
}

// n zeros, written to dst from `at`.
pub fn zero_bytes(dst: &mut [u8], at: usize, n: usize)
    requires { at + n ≤ length dst.old }
    ensures { dst.new ≡ put at (zeros n) dst.old }
{
    dst[at..at + n].fill(0);
}

// Whether the bytes at `at` are those of src.
pub fn same_bytes(img: &[u8], at: usize, src: &[u8]) -> bool
    requires { at + length src.now ≤ length img.now }
    ensures yes { result ≡ true → part (length src.now) at img.now ≡ src.now }
    ensures no { result ≡ false → part (length src.now) at img.now ≡ src.now → ⊥ }
{
    // Not `==` of slices, a call that is not inlined: names are short, and a search compares many.
    for i in 0..src.len() {
        if img[at + i] != src[i] {
            return false;
        }
    }
    true
}
