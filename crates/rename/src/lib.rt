// dir.rs: rename. Without replace the Rust looked up the source, and so always answered EEXIST; here it is the target.
#![tactic(auto)]

ghost use Rattle.std.specs.Prelude.{◌≡◌};
ghost use Rattle.store.specs.Act.{leaves};
ghost use Rattle.frame.specs.Frame.{Frame};
ghost use Rattle.dirlink.specs.Link.{gone_out};
ghost use Rattle.rename.specs.Rename.{rename_for, rename_call};

use refusal::Refusal;
use rename_judge::Verdict;
use volume::{Geometry, InodeNum, Volume};

// Judged, and then moved; onto itself a name stays.
fn rename_in(
    img: &mut [u8],
    geo: Geometry,
    ddinr: InodeNum,
    dname: &[u8],
    sdinr: InodeNum,
    sname: &[u8],
    replace: bool,
) -> Result<u32, Refusal>
    requires { Frame geo img.old }
    ensures { (img.new, gone_out result) ≡ leaves (rename_for (record { to = ddinr.0; new = dname.now; from = sdinr.0; old = sname.now; replace = replace }) geo) img.old }
{
    match rename_judge::judge_rename(img, geo, ddinr, dname, sdinr, sname, replace)? {
        Verdict::Same(i) => Ok(i),
        Verdict::Move(i, kind, clears) => dirmove::move_name(
            img, geo, ddinr, dname, sdinr, sname, clears, i, kind,
        ),
    }
}

// rename: the file with the old name gets the new one; with replace, what has that name goes first. The answer is the file's inode.
pub fn rename(
    img: &mut [u8],
    vol: Volume,
    ddinr: InodeNum,
    dname: &[u8],
    sdinr: InodeNum,
    sname: &[u8],
    replace: bool,
) -> Result<u32, Refusal>
    ensures { (img.new, gone_out result) ≡ leaves (rename_call vol (record { to = ddinr.0; new = dname.now; from = sdinr.0; old = sname.now; replace = replace })) img.old }
{
    let geo = sound::take_volume(img)?;
    if !vol.writable {
        return Err(Refusal::ReadOnly);
    }
    rename_in(img, geo, ddinr, dname, sdinr, sname, replace)
}
