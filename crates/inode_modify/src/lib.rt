// inode.rs: inode_modify. The wanted attributes stand in for the Rust's closure.
#![tactic(auto)]

ghost use Rattle.std.specs.Prelude.{◌≡◌, ◌+◌, ◌*◌, ◌/◌, ◌%◌, ◌≤◌, length};
ghost use Rattle.store.specs.Act.{got, leaves};
ghost use Rattle.inode_modify.specs.Modify.{changed, modify_at, inode_modify, modified_out};

use inode::{Inode, InodeAttr, InodeType};
use refusal::Refusal;
use volume::{Geometry, InodeNum, Volume};

// The type's bits of a mode, and the permission's of another.
fn mode_with(mode: u16, perm: u16) -> u16
    ensures { result ≡ mode / 4096 * 4096 + perm % 4096 }
{
    mode / 4096 * 4096 + perm % 4096
}

// The record with the wanted permission, owners, times and flags.
fn change(v: Inode, a: InodeAttr) -> Inode
    ensures { result ≡ changed v a }
{
    let times = a.times;
    let extb = v.extb;
    let direct = v.direct;
    let indirect = v.indirect;
    let spare = v.spare;
    Inode {
        mode: mode_with(v.mode, a.perm),
        nlink: v.nlink,
        uid: a.uid,
        gid: a.gid,
        blksize: v.blksize,
        size: v.size,
        blocks: v.blocks,
        times: times,
        generation: v.generation,
        kernflags: v.kernflags,
        flags: a.flags,
        extsize: v.extsize,
        extb: extb,
        direct: direct,
        indirect: indirect,
        modrev: v.modrev,
        ignored: v.ignored,
        ckhash: v.ckhash,
        spare: spare,
    }
}

// The call on the record at `at`.
fn modify_at(
    img: &mut [u8],
    geo: Geometry,
    inr: InodeNum,
    at: usize,
    k: InodeType,
    a: InodeAttr,
) -> InodeAttr
    requires { at + 256 ≤ length img.old }
    ensures { (img.new, got result) ≡ leaves (modify_at geo inr.0 at k a) img.old }
{
    let o = geo.order;
    let new = change(inode_record::read_inode(img, o, at), a);
    inode_record::write_inode(img, o, at, new);
    inode::as_attr(inr, k, new)
}

// inode_modify.
pub fn inode_modify(
    img: &mut [u8],
    vol: Volume,
    inr: InodeNum,
    a: InodeAttr,
) -> Result<InodeAttr, Refusal>
    ensures { (img.new, modified_out result) ≡ leaves (inode_modify vol inr.0 a) img.old }
{
    let geo = sound::take_volume(img)?;
    if !vol.writable {
        return Err(Refusal::ReadOnly);
    }
    let spot = inode_run::find_inode(img, geo, inr)?;
    let s = spot.shape;
    let k = inode::kind_of(s.mode).ok_or(Refusal::Damaged)?;
    Ok(modify_at(img, geo, inr, spot.at, k, a))
}
