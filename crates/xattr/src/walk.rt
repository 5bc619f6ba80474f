// xattr.rs: iter_xattr and read_xattr. The attributes of an area of the image, walked and searched.
ghost use Rattle.std.specs.Prelude.{◌≡◌, ◌+◌, ◌≤◌};
ghost use Rattle.attrrec.specs.Record.{attr_at};
ghost use Rattle.attrrec.specs.Search.{named, find_in};
ghost use Rattle.xattr.specs.Area.{gathered, Inside};

use crate::Area;
use attrrec::Entry;
use field::Order;
use refusal::Damage;

// What stands at b of the area: its header is copied out and judged.
pub fn attr_in(img: &[u8], o: Order, a: Area, b: usize) -> Result<Option<Entry>, Damage>
    requires { Inside a img.now }
    ensures { result ≡ attr_at o (gathered a img.now) b }
{
    let left = attrrec::left_of(a.size, b);
    if left < 7 {
        return Ok(None);
    }
    let mut head = [0u8; 7];
    crate::blocks::gather(img, a, b, &mut head, 0, 7);
    attrrec::judge(b, left, attrrec::entry_at(o, &head, 0))
}

// Whether the attribute e at b has the text asked for: its name is copied out and compared.
fn is_named(img: &[u8], a: Area, b: usize, e: Entry, name: &[u8]) -> bool
    requires { Inside a img.now × (b + 7 + e.namelen ≤ a.size) × (e.namelen ≤ 64) }
    ensures { result ≡ named (gathered a img.now) name.now (record { pos = b; entry = e }) }
{
    let mut text = [0u8; 64];
    let n = e.namelen as usize;
    crate::blocks::gather(img, a, b + 7, &mut text, 0, n);
    attrrec::has_text(e.namespace, &text[0..n], name)
}

// The first attribute that has the text asked for.
pub fn find_in(img: &[u8], o: Order, a: Area, name: &[u8]) -> Result<Option<(usize, Entry)>, Damage>
    requires { Inside a img.now }
    ensures { result ≡ find_in o (gathered a img.now) name.now }
{
    let mut b = 0;
    // not a `for`: the step is the record's length
    while let Some(e) = attr_in(img, o, a, b)? {
        if is_named(img, a, b, e, name) {
            return Ok(Some((b, e)));
        }
        b += e.len as usize;
    }
    Ok(None)
}
