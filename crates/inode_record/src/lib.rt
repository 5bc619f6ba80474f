// data.rs, ufs/inode.rs (read_inode, write_inode): an inode's record, read whole and stored whole.
#![tactic(auto)]

ghost use Rattle.std.specs.Prelude.{◌≡◌, ◌+◌, ◌≤◌, length};
ghost use Rattle.store.specs.Store.{apply};
ghost use Rattle.inode_record.specs.Record.{inode_of, inode_store};

use field::{Number, Order};
use inode::Inode;

pub mod codec;

pub fn read_inode(img: &[u8], o: Order, at: usize) -> Inode
    requires { at + 256 ≤ length img.now }
    ensures { result ≡ inode_of o at img.now }
{
    let times = codec::read_times(img, o, at);
    let extb = codec::all_extb(img, o, at);
    let direct = codec::all_direct(img, o, at);
    let indirect = codec::all_indirect(img, o, at);
    let spare = codec::all_spare(img, o, at);
    Inode {
        mode: u16::get(o, img, at + 0),
        nlink: u16::get(o, img, at + 2),
        uid: u32::get(o, img, at + 4),
        gid: u32::get(o, img, at + 8),
        blksize: u32::get(o, img, at + 12),
        size: u64::get(o, img, at + 16),
        blocks: u64::get(o, img, at + 24),
        times: times,
        generation: u32::get(o, img, at + 80),
        kernflags: u32::get(o, img, at + 84),
        flags: u32::get(o, img, at + 88),
        extsize: u32::get(o, img, at + 92),
        extb: extb,
        direct: direct,
        indirect: indirect,
        modrev: u64::get(o, img, at + 232),
        ignored: u32::get(o, img, at + 240),
        ckhash: u32::get(o, img, at + 244),
        spare: spare,
    }
}

pub fn write_inode(img: &mut [u8], o: Order, at: usize, ino: Inode)
    requires { at + 256 ≤ length img.old }
    ensures { img.new ≡ apply (inode_store o at ino) img.old }
{
    codec::write_owner(img, o, at, ino);
    codec::write_size(img, o, at, ino);
    let times = ino.times;
    codec::write_times(img, o, at, times);
    codec::write_flags(img, o, at, ino);
    codec::write_addresses(img, o, at, ino);
    codec::write_last(img, o, at, ino);
}
