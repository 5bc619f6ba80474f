// xattr.rs, the part on bytes: one extended attribute, judged, named and written.
#![tactic(auto)]

ghost use Rattle.std.specs.Prelude.{◌≡◌, ◌&&◌, [], ◌∷◌, ◌++◌, ◌+◌, ◌-◌, ◌≤◌, ◌<◌, length};
ghost use Rattle.dirblock.specs.Search.{same_name};
ghost use Rattle.field.specs.Field.{put};
ghost use Rattle.attrrec.specs.Record.{entry_at, gap, judged, attr_at};
ghost use Rattle.attrrec.specs.Text.{known, prefix, text_of, shown_len};

use field::{Number, Order};
use refusal::Damage;

// data.rs: ExtattrHeader, struct extattr without its name.
#[derive(Clone, Copy)]
pub struct Entry {
    pub len: u32,
    pub namespace: u8,
    pub pad: u8,
    pub namelen: u8,
}

// decode::<ExtattrHeader>: the fields.
pub fn entry_at(o: Order, s: &[u8], at: usize) -> Entry
    requires { at + 7 ≤ length s.now }
    ensures { result ≡ entry_at o at s.now }
{
    Entry {
        len: u32::get(o, s, at),
        namespace: u8::get(o, s, at + 4),
        pad: u8::get(o, s, at + 5),
        namelen: u8::get(o, s, at + 6),
    }
}

// align_to(8): how far behind b the value of an attribute begins whose name is n bytes long.
pub fn gap_of(b: usize, n: u8) -> usize
    ensures { (result ≡ gap b n) × (7 + n ≤ result) × (result ≤ 14 + n) }
{
    let over = b % 8;
    (over + n as usize + 14) / 8 * 8 - over
}

// iter_xattr: the tests, with `left` bytes of the area from b on.
pub fn judge(b: usize, left: usize, e: Entry) -> Result<Option<Entry>, Damage>
    ensures { result ≡ judged b left e }
{
    if left < 7 {
        return Ok(None);
    }
    if e.namelen == 0 {
        return Ok(None);
    }
    if 64 < e.namelen {
        return Ok(None);
    }
    if left < 7 + e.namelen as usize {
        return Err(Damage);
    }
    let skip = gap_of(b, e.namelen);
    let len = e.len as usize;
    if len < skip {
        return Err(Damage);
    }
    if left < len {
        return Err(Damage);
    }
    if len - skip < e.pad as usize {
        return Err(Damage);
    }
    Ok(Some(e))
}

// The bytes of n from b on.
pub fn left_of(n: usize, b: usize) -> usize
    ensures { result ≡ n - b }
{
    n.saturating_sub(b)
}

// What stands at b of an area of any length.
pub fn attr_at(o: Order, area: &[u8], b: usize) -> Result<Option<Entry>, Damage>
    ensures { result ≡ attr_at o area.now b }
{
    let left = left_of(area.len(), b);
    if left < 7 {
        return Ok(None);
    }
    judge(b, left, entry_at(o, area, b))
}

// ExtattrNamespace::with_name: whether `asked` is a prefix and a name.
fn is_text(prefix: &[u8], name: &[u8], asked: &[u8]) -> bool
    requires { length prefix.now + length name.now < 256 }
    ensures { result ≡ same_name (prefix.now ++ name.now) asked.now }
{
    let n = prefix.len();
    if asked.len() == n + name.len() {
        return field::same_bytes(asked, 0, prefix) & field::same_bytes(asked, n, name);
    }
    false
}

// Whether an attribute of that namespace and name has the text asked for.
pub fn has_text(ns: u8, name: &[u8], asked: &[u8]) -> bool
    requires { length name.now ≤ 64 }
    ensures { result ≡ known ns && same_name (text_of ns name.now) asked.now }
{
    if ns == 0 {
        return is_text(b"", name, asked);
    }
    if ns == 1 {
        return is_text(b"user.", name, asked);
    }
    if ns == 2 {
        return is_text(b"system.", name, asked);
    }
    false
}

pub fn namespace_known(ns: u8) -> bool
    ensures { result ≡ known ns }
{
    ns < 3
}

// A prefix, a name and a NUL, written from `at`.
fn put_parts(out: &mut [u8], at: usize, prefix: &[u8], name: &[u8]) -> usize
    requires { (at + length prefix.now + length name.now + 1 ≤ length out.old) × (length prefix.now + length name.now < 256) }
    ensures { (out.new ≡ put at ((prefix.now ++ name.now) ++ (0 ∷ [])) out.old) × (result ≡ length (prefix.now ++ name.now) + 1) }
{
    let n = prefix.len();
    let m = name.len();
    field::copy_bytes(out, at, prefix, 0, n);
    field::copy_bytes(out, at + n, name, 0, m);
    field::zero_bytes(out, at + n + m, 1);
    n + m + 1
}

// How long a namespace's prefix is.
pub fn prefix_len(ns: u8) -> usize
    ensures { (result ≡ length (prefix ns)) × (result ≤ 7) }
{
    if ns == 0 {
        return 0;
    }
    if ns == 1 {
        return 5;
    }
    7
}

// The text of an attribute and a NUL, written from `at`: how many bytes.
pub fn put_text(out: &mut [u8], at: usize, ns: u8, name: &[u8]) -> usize
    requires { (at + length (text_of ns name.now) + 1 ≤ length out.old) × (length name.now ≤ 64) }
    ensures { (out.new ≡ put at (text_of ns name.now ++ (0 ∷ [])) out.old) × (result ≡ length (text_of ns name.now) + 1) }
{
    if ns == 0 {
        return put_parts(out, at, b"", name);
    }
    if ns == 1 {
        return put_parts(out, at, b"user.", name);
    }
    put_parts(out, at, b"system.", name)
}

// How many bytes an attribute adds to the list: its text and a NUL, or none.
pub fn text_len(e: Entry) -> u32
    ensures { (result ≡ shown_len e) × (result ≤ 8 + e.namelen) }
{
    if namespace_known(e.namespace) {
        return prefix_len(e.namespace) as u32 + e.namelen as u32 + 1;
    }
    0
}
