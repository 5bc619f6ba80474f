// inode.rs: inode_attr, what an inode's record says of it.
#![tactic(auto)]

ghost use Rattle.std.specs.Prelude.{◌≡◌};
ghost use Rattle.inode_attr.specs.Attr.{inode_attr, attr_answer};

use inode::InodeAttr;
use refusal::Refusal;
use volume::InodeNum;

// inode_attr.
pub fn inode_attr(img: &[u8], inr: InodeNum) -> Result<InodeAttr, Refusal>
    ensures { result ≡ attr_answer (inode_attr img.now inr.0) }
{
    // Not a `?`, so that a must-fail edit can change what is answered here.
    let (geo, s) = match inode_read::know_inode(img, inr) {
        Ok(found) => found,
        Err(e) => return Err(e),
    };
    let o = geo.order;
    let shape = s.shape;
    let ino = inode_record::read_inode(img, o, s.at);
    let k = inode::kind_of(shape.mode).ok_or(Refusal::Damaged)?;
    Ok(inode::as_attr(inr, k, ino))
}
