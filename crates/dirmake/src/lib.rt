// dir.rs: the work of mknod and mkdir.
#![tactic(auto)]

ghost use Rattle.std.specs.Prelude.{◌≡◌, ◌*◌, ◌<◌, length};
ghost use Rattle.store.specs.Act.{leaves};
ghost use Rattle.frame.specs.Frame.{Frame};
ghost use Rattle.inode_setblock.specs.Set.{written_out};
ghost use Rattle.dirmake.specs.Make.{attr_now, make_node, first_size, first_block, fill_dir, make_dir, made_out};

use inode::{Inode, InodeAttr, InodeType};
use refusal::Refusal;
use volume::{Geometry, InodeNum};

// What the record of an inode of that kind says.
fn attr_now(img: &[u8], geo: Geometry, kind: InodeType, inr: InodeNum) -> InodeAttr
    requires { Frame geo img.now × (inr.0 < geo.ncg * geo.ipg) }
    ensures { result ≡ attr_now geo kind inr.0 img.now }
{
    let o = geo.order;
    let at = frame::inode_spot(img, geo, inr);
    inode::as_attr(inr, kind, inode_record::read_inode(img, o, at))
}

// An inode given out, told as it is then, and its name linked.
pub fn make_node(
    img: &mut [u8],
    geo: Geometry,
    dinr: InodeNum,
    name: &[u8],
    kind: InodeType,
    new: Inode,
) -> Result<InodeAttr, Refusal>
    requires { Frame geo img.old × (length name.now < 256) }
    ensures { (img.new, made_out result) ≡ leaves (make_node geo dinr.0 name.now kind new) img.old }
{
    let inr = ialloc_give::inode_alloc(img, geo, new)?;
    let a = attr_now(img, geo, kind, inr);
    dirlink::link_name(img, geo, dinr, inr.0, inode::type_number(kind), name)?;
    Ok(a)
}

// The new directory's first block: its own name and its parent's.
fn write_first(
    img: &mut [u8],
    geo: Geometry,
    dinr: InodeNum,
    inr: InodeNum,
) -> Result<InodeAttr, Refusal>
    requires { Frame geo img.old × (inr.0 < geo.ncg * geo.ipg) }
    ensures { (img.new, made_out result) ≡ leaves (first_block geo dinr.0 inr.0) img.old }
{
    let o = geo.order;
    let at = frame::inode_spot(img, geo, inr);
    let block = dirblock_write::newdir(o, inr.0, dinr.0);
    inode_write::write_at(img, geo, at, 512, 0, &block)?;
    Ok(attr_now(img, geo, InodeType::Directory, inr))
}

// The new directory's two links, and its size.
fn size_first(img: &mut [u8], geo: Geometry, inr: InodeNum) -> Result<(), Refusal>
    requires { Frame geo img.old × (inr.0 < geo.ncg * geo.ipg) }
    ensures { (img.new, written_out result) ≡ leaves (first_size geo inr.0) img.old }
{
    let o = geo.order;
    let at = frame::inode_spot(img, geo, inr);
    inode::put_nlink(img, o, at, 2);
    dirwrite::cut_to(img, geo, inr, 512)
}

// The parent has a link more; then the new directory is filled.
fn fill_dir(
    img: &mut [u8],
    geo: Geometry,
    dinr: InodeNum,
    inr: InodeNum,
) -> Result<InodeAttr, Refusal>
    requires { Frame geo img.old × (inr.0 < geo.ncg * geo.ipg) }
    ensures { (img.new, made_out result) ≡ leaves (fill_dir geo dinr.0 inr.0) img.old }
{
    dirwrite::bump_found(img, geo, dinr)?;
    size_first(img, geo, inr)?;
    write_first(img, geo, dinr, inr)
}

// An inode given out, its name linked, and its first block.
pub fn make_dir(
    img: &mut [u8],
    geo: Geometry,
    dinr: InodeNum,
    name: &[u8],
    new: Inode,
) -> Result<InodeAttr, Refusal>
    requires { Frame geo img.old × (length name.now < 256) }
    ensures { (img.new, made_out result) ≡ leaves (make_dir geo dinr.0 name.now new) img.old }
{
    let inr = ialloc_give::inode_alloc(img, geo, new)?;
    dirlink::link_name(img, geo, dinr, inr.0, 4, name)?;
    fill_dir(img, geo, dinr, inr)
}
