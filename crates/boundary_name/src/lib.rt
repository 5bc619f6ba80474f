// The public calls that change directories, for C and Rust to link: each returns 0 or the refusal's number, and writes what else it answers.
#![tactic(auto)]

ghost use Rattle.std.specs.Prelude.{◌≡◌};
ghost use Rattle.store.specs.Act.{leaves};
ghost use Rattle.inode.specs.Shape.{type_of};
ghost use Rattle.inode.specs.Kind.{kind_of};
ghost use Rattle.inode_setblock.specs.Set.{written_out};
ghost use Rattle.dirlink.specs.Link.{gone_out};
ghost use Rattle.dirmake.specs.Make.{made_out};
ghost use Rattle.mknod.specs.Make.{one_time, mkdir_call};
ghost use Rattle.unlink.specs.Unlink.{unlink_call};
ghost use Rattle.rmdir.specs.Rmdir.{rmdir_call};
ghost use Rattle.rename.specs.Rename.{rename_call};
ghost use Rattle.boundary.specs.Words.{beside};
ghost use Rattle.boundary_file.specs.Words.{changed_words, done_word};
ghost use Rattle.boundary_name.specs.Words.{node_by, gone_words};

use inode::InodeAttr;
use refusal::Refusal;
use volume::{InodeNum, Volume};

// mknod by a mode's type.
fn make_node(
    img: &mut [u8],
    vol: Volume,
    dinr: u32,
    name: &[u8],
    mode: u16,
    perm: u16,
    uid: u32,
    gid: u32,
    sec: u64,
    nsec: u32,
) -> Result<InodeAttr, Refusal>
    ensures { (img.new, made_out result) ≡ leaves (node_by vol dinr name.now perm uid gid (one_time sec nsec) (kind_of (type_of mode))) img.old }
{
    let k = inode::kind_of(mode).ok_or(Refusal::Invalid)?;
    mknod::mknod(img, vol, InodeNum(dinr), name, k, perm, uid, gid, sec, nsec)
}

#[unsafe(no_mangle)]
pub extern "C" fn hitchsnow_mknod(
    img: &mut [u8],
    writable: bool,
    dinr: u32,
    name: &[u8],
    mode: u16,
    perm: u16,
    uid: u32,
    gid: u32,
    sec: u64,
    nsec: u32,
    words: &mut [u64; 21],
) -> u32
    ensures { (img.new, (result, words.new)) ≡ beside changed_words (leaves (node_by (record { writable = writable }) dinr name.now perm uid gid (one_time sec nsec) (kind_of (type_of mode))) img.old) }
{
    let m = make_node(
        img,
        Volume { writable },
        dinr,
        name,
        mode,
        perm,
        uid,
        gid,
        sec,
        nsec,
    );
    boundary_inode::put_attr(m, words)
}

#[unsafe(no_mangle)]
pub extern "C" fn hitchsnow_mkdir(
    img: &mut [u8],
    writable: bool,
    dinr: u32,
    name: &[u8],
    perm: u16,
    uid: u32,
    gid: u32,
    sec: u64,
    nsec: u32,
    words: &mut [u64; 21],
) -> u32
    ensures { (img.new, (result, words.new)) ≡ beside changed_words (leaves (mkdir_call (record { writable = writable }) dinr name.now perm uid gid (one_time sec nsec)) img.old) }
{
    let m = mknod::mkdir(
        img,
        Volume { writable },
        InodeNum(dinr),
        name,
        perm,
        uid,
        gid,
        sec,
        nsec,
    );
    boundary_inode::put_attr(m, words)
}

fn done_number(w: Result<(), Refusal>) -> u32
    ensures { result ≡ done_word (written_out w) }
{
    match w {
        Ok(()) => 0,
        Err(e) => refusal::number(e),
    }
}

#[unsafe(no_mangle)]
pub extern "C" fn hitchsnow_unlink(img: &mut [u8], writable: bool, dinr: u32, name: &[u8]) -> u32
    ensures { (img.new, result) ≡ beside done_word (leaves (unlink_call (record { writable = writable }) dinr name.now) img.old) }
{
    let w = unlink::unlink(img, Volume { writable }, InodeNum(dinr), name);
    done_number(w)
}

#[unsafe(no_mangle)]
pub extern "C" fn hitchsnow_rmdir(img: &mut [u8], writable: bool, dinr: u32, name: &[u8]) -> u32
    ensures { (img.new, result) ≡ beside done_word (leaves (rmdir_call (record { writable = writable }) dinr name.now) img.old) }
{
    let w = rmdir::rmdir(img, Volume { writable }, InodeNum(dinr), name);
    done_number(w)
}

// Writes the inode that has the new name, or 0 beside a refusal.
fn put_gone(g: Result<u32, Refusal>, inr: &mut u64) -> u32
    ensures { (result, inr.new) ≡ gone_words (gone_out g) }
{
    match g {
        Ok(i) => {
            *inr = i as u64;
            0
        }
        Err(e) => {
            *inr = 0;
            refusal::number(e)
        }
    }
}

#[unsafe(no_mangle)]
pub extern "C" fn hitchsnow_rename(
    img: &mut [u8],
    writable: bool,
    ddinr: u32,
    dname: &[u8],
    sdinr: u32,
    sname: &[u8],
    replace: bool,
    inr: &mut u64,
) -> u32
    ensures { (img.new, (result, inr.new)) ≡ beside gone_words (leaves (rename_call (record { writable = writable }) (record { to = ddinr; new = dname.now; from = sdinr; old = sname.now; replace = replace })) img.old) }
{
    let g = rename::rename(
        img,
        Volume { writable },
        InodeNum(ddinr),
        dname,
        InodeNum(sdinr),
        sname,
        replace,
    );
    put_gone(g, inr)
}
