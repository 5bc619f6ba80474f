// What the program dirlist prints of a directory block, written into a lent buffer.
#![tactic(auto)]

ghost use Rattle.std.specs.Prelude.{◌≡◌, [], ◌∷◌, ◌++◌, ◌+◌, ◌*◌, ◌≤◌, ◌<◌, length};
ghost use Rattle.field.specs.Field.{part};
ghost use Rattle.dirblock.specs.Record.{name_at};
ghost use Rattle.dirblock.specs.Walk.{walk_from};
ghost use Rattle.dirtext.specs.Text.{decimal_text, glyph_of, hex_text, name_text, spaced, line_text, walk_text, dirlist_text, wrote};

use dirblock::{Entry, Rec};
use field::Order;

fn put_byte(out: &mut [u8], at: usize, b: u8) -> usize
    requires { at < length out.old }
    ensures { (out.new, result) ≡ wrote at (b ∷ []) out.old }
{
    out[at] = b;
    at + 1
}

// A text written whole.
fn put_text(out: &mut [u8], at: usize, text: &[u8]) -> usize
    requires { at + length text.now ≤ length out.old }
    ensures { (out.new, result) ≡ wrote at text.now out.old }
{
    field::copy_bytes(out, at, text, 0, text.len());
    at + text.len()
}

// The digits before the last first, as decimals are read.
fn put_decimal(out: &mut [u8], at: usize, n: u32) -> usize
    requires { at + 10 ≤ length out.old }
    ensures { (out.new, result) ≡ wrote at (decimal_text n) out.old }
{
    if n < 10 {
        return put_byte(out, at, 48 + n as u8);
    }
    let last = put_decimal(out, at, n / 10);
    put_byte(out, last, 48 + (n % 10) as u8)
}

fn put_spaced(out: &mut [u8], at: usize, n: u32) -> usize
    requires { at + 11 ≤ length out.old }
    ensures { ((out.new, result) ≡ wrote at (spaced n) out.old) × (result ≤ at + 11) }
{
    let end = put_decimal(out, at, n);
    put_byte(out, end, b' ')
}

fn glyph(d: u8) -> u8
    requires { d < 16 }
    ensures { result ≡ glyph_of d }
{
    if d < 10 { 48 + d } else { 87 + d }
}

// n bytes of a block in hex.
fn put_hex(out: &mut [u8], at: usize, block: &[u8], from: usize, n: usize) -> usize
    requires { (at + 2 * n ≤ length out.old) × (from + n ≤ length block.now) }
    ensures { (out.new, result) ≡ wrote at (hex_text (part n from block.now)) out.old }
{
    let mut end = at;
    for i in 0..n {
        let b = block[from + i];
        let high = put_byte(out, end, glyph(b / 16));
        end = put_byte(out, high, glyph(b % 16));
    }
    end
}

// A record's name, or a dash.
fn put_name(out: &mut [u8], at: usize, block: &[u8], pos: usize, e: Entry) -> usize
    requires { (at + 2 * e.namelen + 1 ≤ length out.old) × (pos + 8 + e.namelen ≤ length block.now) }
    ensures { ((out.new, result) ≡ wrote at (name_text (name_at block.now pos e)) out.old) × (result ≤ at + 2 * e.namelen + 1) }
{
    if e.namelen == 0 {
        return put_byte(out, at, b'-');
    }
    put_hex(out, at, block, pos + 8, e.namelen as usize)
}

// A record's line.
fn put_line(out: &mut [u8], at: usize, block: &[u8], pos: usize, e: Entry) -> usize
    requires { (at + 46 + 2 * e.namelen ≤ length out.old) × (pos + 8 + e.namelen ≤ length block.now) × (pos < 4294967296) }
    ensures { ((out.new, result) ≡ wrote at (line_text block.now pos e) out.old) × (result ≤ at + 46 + 2 * e.namelen) }
{
    let inr = put_spaced(out, at, pos as u32);
    let reclen = put_spaced(out, inr, e.inr);
    let kind = put_spaced(out, reclen, e.reclen as u32);
    let name = put_spaced(out, kind, e.kind as u32);
    let end = put_name(out, name, block, pos, e);
    put_byte(out, end, b'\n')
}

// The last line: a word, and where the walk stopped.
fn put_stop(out: &mut [u8], at: usize, word: &[u8], pos: usize) -> usize
    requires { (at + length word.now + 11 ≤ length out.old) × (pos < 4294967296) }
    ensures { (out.new, result) ≡ wrote at (word.now ++ (decimal_text pos ++ (10 ∷ []))) out.old }
{
    let number = put_text(out, at, word);
    let end = put_decimal(out, number, pos as u32);
    put_byte(out, end, b'\n')
}

// The lines of a block's records, and the last line.
fn list_block(o: Order, block: &[u8], out: &mut [u8]) -> usize
    requires { (length block.now ≡ 512) × (4096 ≤ length out.old) }
    ensures { (out.new, result) ≡ wrote 0 (walk_text block.now (walk_from o block.now 0)) out.old }
{
    let mut at = 0;
    let mut pos = 0;
    // Not a `for`: the step is the record's length.
    loop {
        let rec = dirblock::rec_at(o, block, pos);
        match rec {
            Rec::Used(e) => {
                at = put_line(out, at, block, pos, e);
                pos += e.reclen as usize;
            }
            Rec::Unused(e) => {
                pos += e.reclen as usize;
            }
            Rec::End => {
                return put_stop(out, at, b"end ", pos);
            }
            Rec::Bad => {
                return put_stop(out, at, b"refused 97 ", pos);
            }
        }
    }
}

// What dirlist prints of its input, at the start of out; how long that is.
pub fn dirlist(o: Order, input: &[u8], out: &mut [u8; 4096]) -> usize
    ensures { ((out.new, result) ≡ wrote 0 (dirlist_text o input.now) out.old) × (4096 ≡ length out.new) }
{
    if input.len() == 512 {
        return list_block(o, input, out);
    }
    put_text(out, 0, b"refused 22\n")
}
