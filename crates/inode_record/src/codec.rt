// data.rs, decoder.rs: the parts of an inode's record, read and stored.
ghost use Rattle.std.specs.Prelude.{◌≡◌, ◌+◌, ◌≤◌, length};
ghost use Rattle.store.specs.Store.{apply};
ghost use Rattle.inode.specs.Shape.{address_at};
ghost use Rattle.inode.specs.Places.{extb_at};
ghost use Rattle.inode_record.specs.Record.{listed, spare_at, times_of, written, owner_slots, size_slots, second_slots, nanosecond_slots, time_slots, flag_slots, extb_slots, direct_slots, indirect_slots, address_slots, last_slots};

use field::{Number, Order};
use inode::{Inode, Times};

pub fn read_times(img: &[u8], o: Order, at: usize) -> Times
    requires { at + 256 ≤ length img.now }
    ensures { result ≡ times_of o at img.now }
{
    Times {
        atime: u64::get(o, img, at + 32),
        mtime: u64::get(o, img, at + 40),
        ctime: u64::get(o, img, at + 48),
        birthtime: u64::get(o, img, at + 56),
        mtimensec: u32::get(o, img, at + 64),
        atimensec: u32::get(o, img, at + 68),
        ctimensec: u32::get(o, img, at + 72),
        birthnsec: u32::get(o, img, at + 76),
    }
}

pub fn all_extb(img: &[u8], o: Order, at: usize) -> [u64; 2]
    requires { at + 256 ≤ length img.now }
    ensures { result ≡ listed (λ j. extb_at o at j img.now) 0 2 }
{
    [
        inode::read_extb(img, o, at, 0),
        inode::read_extb(img, o, at, 1),
    ]
}

pub fn all_direct(img: &[u8], o: Order, at: usize) -> [u64; 12]
    requires { at + 256 ≤ length img.now }
    ensures { result ≡ listed (λ k. address_at o at k img.now) 0 12 }
{
    [
        inode::read_address(img, o, at, 0).0,
        inode::read_address(img, o, at, 1).0,
        inode::read_address(img, o, at, 2).0,
        inode::read_address(img, o, at, 3).0,
        inode::read_address(img, o, at, 4).0,
        inode::read_address(img, o, at, 5).0,
        inode::read_address(img, o, at, 6).0,
        inode::read_address(img, o, at, 7).0,
        inode::read_address(img, o, at, 8).0,
        inode::read_address(img, o, at, 9).0,
        inode::read_address(img, o, at, 10).0,
        inode::read_address(img, o, at, 11).0,
    ]
}

pub fn all_indirect(img: &[u8], o: Order, at: usize) -> [u64; 3]
    requires { at + 256 ≤ length img.now }
    ensures { result ≡ listed (λ k. address_at o at k img.now) 12 3 }
{
    [
        inode::read_address(img, o, at, 12).0,
        inode::read_address(img, o, at, 13).0,
        inode::read_address(img, o, at, 14).0,
    ]
}

pub fn all_spare(img: &[u8], o: Order, at: usize) -> [u32; 2]
    requires { at + 256 ≤ length img.now }
    ensures { result ≡ listed (λ j. spare_at o at j img.now) 0 2 }
{
    [
        u32::get(o, img, at + 248 + 0),
        u32::get(o, img, at + 248 + 4),
    ]
}

pub fn write_owner(img: &mut [u8], o: Order, at: usize, ino: Inode)
    requires { at + 256 ≤ length img.old }
    ensures { img.new ≡ apply (written o at (owner_slots ino)) img.old }
{
    ino.mode.put(o, img, at + 0);
    ino.nlink.put(o, img, at + 2);
    ino.uid.put(o, img, at + 4);
    ino.gid.put(o, img, at + 8);
    ino.blksize.put(o, img, at + 12);
}

pub fn write_size(img: &mut [u8], o: Order, at: usize, ino: Inode)
    requires { at + 256 ≤ length img.old }
    ensures { img.new ≡ apply (written o at (size_slots ino)) img.old }
{
    ino.size.put(o, img, at + 16);
    ino.blocks.put(o, img, at + 24);
}

pub fn write_seconds(img: &mut [u8], o: Order, at: usize, t: Times)
    requires { at + 256 ≤ length img.old }
    ensures { img.new ≡ apply (written o at (second_slots t)) img.old }
{
    t.atime.put(o, img, at + 32);
    t.mtime.put(o, img, at + 40);
    t.ctime.put(o, img, at + 48);
    t.birthtime.put(o, img, at + 56);
}

pub fn write_nanoseconds(img: &mut [u8], o: Order, at: usize, t: Times)
    requires { at + 256 ≤ length img.old }
    ensures { img.new ≡ apply (written o at (nanosecond_slots t)) img.old }
{
    t.mtimensec.put(o, img, at + 64);
    t.atimensec.put(o, img, at + 68);
    t.ctimensec.put(o, img, at + 72);
    t.birthnsec.put(o, img, at + 76);
}

pub fn write_times(img: &mut [u8], o: Order, at: usize, t: Times)
    requires { at + 256 ≤ length img.old }
    ensures { img.new ≡ apply (written o at (time_slots t)) img.old }
{
    write_seconds(img, o, at, t);
    write_nanoseconds(img, o, at, t);
}

pub fn write_flags(img: &mut [u8], o: Order, at: usize, ino: Inode)
    requires { at + 256 ≤ length img.old }
    ensures { img.new ≡ apply (written o at (flag_slots ino)) img.old }
{
    ino.generation.put(o, img, at + 80);
    ino.kernflags.put(o, img, at + 84);
    ino.flags.put(o, img, at + 88);
    ino.extsize.put(o, img, at + 92);
}

pub fn write_extb(img: &mut [u8], o: Order, at: usize, ino: Inode)
    requires { at + 256 ≤ length img.old }
    ensures { img.new ≡ apply (written o at (extb_slots ino)) img.old }
{
    let extb = ino.extb;
    extb[0].put(o, img, at + 96);
    extb[1].put(o, img, at + 104);
}

pub fn write_direct(img: &mut [u8], o: Order, at: usize, list: [u64; 12])
    requires { at + 256 ≤ length img.old }
    ensures { img.new ≡ apply (written o at (direct_slots list)) img.old }
{
    for (k, a) in list.iter().enumerate() {
        (*a).put(o, img, at + (112 + k * 8));
    }
}

pub fn write_indirect(img: &mut [u8], o: Order, at: usize, ino: Inode)
    requires { at + 256 ≤ length img.old }
    ensures { img.new ≡ apply (written o at (indirect_slots ino)) img.old }
{
    let indirect = ino.indirect;
    indirect[0].put(o, img, at + 208);
    indirect[1].put(o, img, at + 216);
    indirect[2].put(o, img, at + 224);
}

pub fn write_addresses(img: &mut [u8], o: Order, at: usize, ino: Inode)
    requires { at + 256 ≤ length img.old }
    ensures { img.new ≡ apply (written o at (address_slots ino)) img.old }
{
    write_extb(img, o, at, ino);
    let direct = ino.direct;
    write_direct(img, o, at, direct);
    write_indirect(img, o, at, ino);
}

pub fn write_last(img: &mut [u8], o: Order, at: usize, ino: Inode)
    requires { at + 256 ≤ length img.old }
    ensures { img.new ≡ apply (written o at (last_slots ino)) img.old }
{
    ino.modrev.put(o, img, at + 232);
    ino.ignored.put(o, img, at + 240);
    ino.ckhash.put(o, img, at + 244);
    let spare = ino.spare;
    spare[0].put(o, img, at + 248);
    spare[1].put(o, img, at + 252);
}
