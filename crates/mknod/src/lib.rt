// dir.rs: mknod and mkdir. A name that lookup finds is 17: without that test the outbox held a form twice,
// and a fitter was sent to a meter already changed.
#![tactic(auto)]

ghost use Rattle.std.specs.Prelude.{◌≡◌};
ghost use Rattle.store.specs.Act.{leaves};
ghost use Rattle.frame.specs.Frame.{Frame};
ghost use Rattle.dirmake.specs.Make.{made_out};
ghost use Rattle.mknod.specs.Make.{one_time, mknod_for, mkdir_for, mknod_call, mkdir_call};

use inode::{InodeAttr, InodeType, Times};
use refusal::Refusal;
use volume::{Geometry, InodeNum, Volume};

// One time for all four.
fn one_time(sec: u64, nsec: u32) -> Times
    ensures { result ≡ one_time sec nsec }
{
    Times {
        atime: sec,
        mtime: sec,
        ctime: sec,
        birthtime: sec,
        mtimensec: nsec,
        atimensec: nsec,
        ctimensec: nsec,
        birthnsec: nsec,
    }
}

// mknod on a sound, writable volume, over plain parameters.
fn mknod_in(
    img: &mut [u8],
    geo: Geometry,
    dinr: InodeNum,
    name: &[u8],
    kind: InodeType,
    perm: u16,
    uid: u32,
    gid: u32,
    times: Times,
) -> Result<InodeAttr, Refusal>
    requires { Frame geo img.old }
    ensures { (img.new, made_out result) ≡ leaves (mknod_for dinr.0 name.now kind perm uid gid times geo) img.old }
{
    mknod_judge::judge_make(img, geo, dinr, name, false)?;
    let new = ialloc_give::new_inode(geo, kind, perm, uid, gid, times);
    dirmake::make_node(img, geo, dinr, name, kind, new)
}

// mknod: a name with a new inode of that kind, or 17 where lookup finds the name.
pub fn mknod(
    img: &mut [u8],
    vol: Volume,
    dinr: InodeNum,
    name: &[u8],
    kind: InodeType,
    perm: u16,
    uid: u32,
    gid: u32,
    sec: u64,
    nsec: u32,
) -> Result<InodeAttr, Refusal>
    ensures { (img.new, made_out result) ≡ leaves (mknod_call vol dinr.0 name.now kind perm uid gid (one_time sec nsec)) img.old }
{
    let geo = sound::take_volume(img)?;
    if !vol.writable {
        return Err(Refusal::ReadOnly);
    }
    mknod_in(
        img,
        geo,
        dinr,
        name,
        kind,
        perm,
        uid,
        gid,
        one_time(sec, nsec),
    )
}

// mkdir on a sound, writable volume.
fn mkdir_in(
    img: &mut [u8],
    geo: Geometry,
    dinr: InodeNum,
    name: &[u8],
    perm: u16,
    uid: u32,
    gid: u32,
    times: Times,
) -> Result<InodeAttr, Refusal>
    requires { Frame geo img.old }
    ensures { (img.new, made_out result) ≡ leaves (mkdir_for dinr.0 name.now perm uid gid times geo) img.old }
{
    mknod_judge::judge_make(img, geo, dinr, name, true)?;
    let new = ialloc_give::new_inode(geo, InodeType::Directory, perm, uid, gid, times);
    dirmake::make_dir(img, geo, dinr, name, new)
}

// mkdir: a name with a new directory that holds its own name and its parent's.
pub fn mkdir(
    img: &mut [u8],
    vol: Volume,
    dinr: InodeNum,
    name: &[u8],
    perm: u16,
    uid: u32,
    gid: u32,
    sec: u64,
    nsec: u32,
) -> Result<InodeAttr, Refusal>
    ensures { (img.new, made_out result) ≡ leaves (mkdir_call vol dinr.0 name.now perm uid gid (one_time sec nsec)) img.old }
{
    let geo = sound::take_volume(img)?;
    if !vol.writable {
        return Err(Refusal::ReadOnly);
    }
    mkdir_in(img, geo, dinr, name, perm, uid, gid, one_time(sec, nsec))
}
