// dir.rs: Header::write and newdir. Records written into a lent block.
#![tactic(auto)]

ghost use Rattle.std.specs.Prelude.{◌≡◌, ◌+◌, ◌≤◌, length};
ghost use Rattle.dirblock.specs.Record.{name_at};
ghost use Rattle.dirblock.specs.Write.{put_header, put_rec, Fits, newdir_block};

use dirblock::Entry;
use field::{Number, Order};

fn put_header(o: Order, block: &mut [u8], pos: usize, e: Entry)
    requires { pos + 8 ≤ length block.old }
    ensures { block.new ≡ put_header o pos e block.old }
{
    e.inr.put(o, block, pos);
    e.reclen.put(o, block, pos + 4);
    e.kind.put(o, block, pos + 6);
    e.namelen.put(o, block, pos + 7);
}

// A record with its name, and zeros to its length.
pub fn put_rec(o: Order, block: &mut [u8], pos: usize, e: Entry, name: &[u8])
    requires { Fits (length block.old) pos e × (length name.now ≡ e.namelen) }
    ensures { block.new ≡ put_rec o pos e name.now block.old }
{
    put_header(o, block, pos, e);
    let n = name.len();
    field::copy_bytes(block, pos + 8, name, 0, n);
    field::zero_bytes(block, pos + 8 + n, e.reclen as usize - (8 + n));
}

// The same where the name already stands there.
pub fn put_again(o: Order, block: &mut [u8], pos: usize, e: Entry)
    requires { Fits (length block.old) pos e }
    ensures { block.new ≡ put_rec o pos e (name_at block.old pos e) block.old }
{
    put_header(o, block, pos, e);
    let n = e.namelen as usize;
    field::zero_bytes(block, pos + 8 + n, e.reclen as usize - (8 + n));
}

// dir.rs: newdir. The first block of a directory.
pub fn newdir(o: Order, inr: u32, parent: u32) -> [u8; 512]
    ensures { result ≡ newdir_block o inr parent }
{
    let mut block = [0u8; 512];
    put_rec(
        o,
        &mut block,
        0,
        Entry {
            inr,
            reclen: 264,
            kind: 4,
            namelen: 1,
        },
        b".",
    );
    put_rec(
        o,
        &mut block,
        264,
        Entry {
            inr: parent,
            reclen: 248,
            kind: 4,
            namelen: 2,
        },
        b"..",
    );
    block
}
