// xattr.rs: xattr_list. The texts of an area's attributes, measured and written.
ghost use Rattle.std.specs.Prelude.{◌≡◌, ◌+◌, ◌≤◌, length};
ghost use Rattle.field.specs.Field.{put};
ghost use Rattle.attrrec.specs.Text.{shown_text};
ghost use Rattle.attrrec.specs.Search.{texts, list_in, all_texts};
ghost use Rattle.xattr.specs.Area.{gathered, Inside};
ghost use Rattle.xattr.specs.Calls.{measured};

use crate::Area;
use attrrec::Entry;
use field::Order;
use refusal::Refusal;

// How long the list is.
pub fn measure(img: &[u8], o: Order, a: Area) -> Result<u32, Refusal>
    requires { Inside a img.now }
    ensures { result ≡ measured (list_in o (gathered a img.now)) }
{
    let mut n = 0;
    let mut b = 0;
    // not a `for`: the step is the record's length
    while let Some(e) = crate::walk::attr_in(img, o, a, b)? {
        n += attrrec::text_len(e);
        b += e.len as usize;
    }
    Ok(n)
}

// What the attribute e at b adds to the list, written from n on: how many bytes.
fn write_text(img: &[u8], a: Area, b: usize, e: Entry, out: &mut [u8], n: usize) -> usize
    requires { Inside a img.now × (b + 7 + e.namelen ≤ a.size) × (e.namelen ≤ 64) × (n + length (shown_text (gathered a img.now) (record { pos = b; entry = e })) ≤ length out.old) }
    ensures { (out.new ≡ put n (shown_text (gathered a img.now) (record { pos = b; entry = e })) out.old) × (result ≡ length (shown_text (gathered a img.now) (record { pos = b; entry = e }))) }
{
    if !attrrec::namespace_known(e.namespace) {
        return 0;
    }
    let mut name = [0u8; 64];
    let m = e.namelen as usize;
    crate::blocks::gather(img, a, b + 7, &mut name, 0, m);
    attrrec::put_text(out, n, e.namespace, &name[0..m])
}

// The list written, where it is known to end and to fit.
pub fn write_texts(img: &[u8], o: Order, a: Area, out: &mut [u8])
    requires { Inside a img.now × (list_in o (gathered a img.now) ≡ texts (all_texts o (gathered a img.now))) × (length (all_texts o (gathered a img.now)) ≤ length out.old) }
    ensures { out.new ≡ put 0 (all_texts o (gathered a img.now)) out.old }
{
    let mut n = 0;
    let mut b = 0;
    // not a `for`: the step is the record's length; no damage is met, as required
    while let Some(e) = crate::walk::attr_in(img, o, a, b).unwrap_or(None) {
        n += write_text(img, a, b, e, out, n);
        b += e.len as usize;
    }
}
