// The public calls that read inodes, for C and Rust to link: each returns 0 or the refusal's number, and writes what else it answers.
#![tactic(auto)]

ghost use Rattle.std.specs.Prelude.{◌≡◌};
ghost use Rattle.inode_attr.specs.Attr.{inode_attr, attr_answer};
ghost use Rattle.inode_read.specs.Calls.{inode_get_block_size, size_answer, inode_resolve_block, resolved_answer, inode_read, read_answer};
ghost use Rattle.boundary.specs.Words.{beside};
ghost use Rattle.boundary_inode.specs.Words.{attr_list, attr_words, size_words, resolved_words, read_words};

use inode::InodeAttr;
use refusal::Refusal;
use volume::{BlockIdx, InodeNum};

// data.rs: InodeAttr, number by number.
fn attr_list(a: InodeAttr) -> [u64; 21]
    ensures { result ≡ attr_list a }
{
    let times = a.times;
    let kind = a.kind;
    [
        a.inr.0 as u64,
        inode::type_number(kind) as u64,
        a.perm as u64,
        a.size,
        a.blocks,
        times.atime,
        times.atimensec as u64,
        times.mtime,
        times.mtimensec as u64,
        times.ctime,
        times.ctimensec as u64,
        times.birthtime,
        times.birthnsec as u64,
        a.nlink as u64,
        a.uid as u64,
        a.gid as u64,
        a.generation as u64,
        a.blksize as u64,
        a.flags as u64,
        a.kernflags as u64,
        a.extsize as u64,
    ]
}

// Writes the attributes, or zeros beside a refusal.
pub fn put_attr(a: Result<InodeAttr, Refusal>, words: &mut [u64; 21]) -> u32
    ensures { (result, words.new) ≡ attr_words a }
{
    match a {
        Ok(i) => {
            *words = attr_list(i);
            0
        }
        Err(e) => {
            *words = [0; 21];
            refusal::number(e)
        }
    }
}

#[unsafe(no_mangle)]
pub extern "C" fn hitchsnow_inode_attr(img: &[u8], inr: u32, words: &mut [u64; 21]) -> u32
    ensures { (result, words.new) ≡ attr_words (attr_answer (inode_attr img.now inr)) }
{
    let a = inode_attr::inode_attr(img, InodeNum(inr));
    put_attr(a, words)
}

#[unsafe(no_mangle)]
pub extern "C" fn hitchsnow_inode_get_block_size(
    img: &[u8],
    inr: u32,
    i: u64,
    size: &mut u64,
) -> u32
    ensures { (result, size.new) ≡ size_words (size_answer (inode_get_block_size img.now inr i)) }
{
    match inode_block::inode_get_block_size(img, InodeNum(inr), BlockIdx(i)) {
        Ok(n) => {
            *size = n;
            0
        }
        Err(e) => {
            *size = 0;
            refusal::number(e)
        }
    }
}

#[unsafe(no_mangle)]
pub extern "C" fn hitchsnow_inode_resolve_block(
    img: &[u8],
    inr: u32,
    i: u64,
    address: &mut u64,
) -> u32
    ensures { (result, address.new) ≡ resolved_words (resolved_answer (inode_resolve_block img.now inr i)) }
{
    match inode_block::inode_resolve_block(img, InodeNum(inr), BlockIdx(i)) {
        Ok(Some(a)) => {
            *address = a.0;
            0
        }
        Ok(None) => {
            *address = 0;
            0
        }
        Err(e) => {
            *address = 0;
            refusal::number(e)
        }
    }
}

// Writes how many bytes were read.
fn put_read(a: Result<u64, Refusal>, count: &mut u64) -> u32
    ensures { (result, count.new) ≡ read_words a }
{
    match a {
        Ok(n) => {
            *count = n;
            0
        }
        Err(e) => {
            *count = 0;
            refusal::number(e)
        }
    }
}

#[unsafe(no_mangle)]
pub extern "C" fn hitchsnow_inode_read(
    img: &[u8],
    inr: u32,
    off: u64,
    buf: &mut [u8],
    count: &mut u64,
) -> u32
    ensures { (buf.new, (result, count.new)) ≡ beside read_words (read_answer (inode_read img.now inr off buf.old)) }
{
    let a = inode_read::inode_read(img, InodeNum(inr), off, buf);
    put_read(a, count)
}
