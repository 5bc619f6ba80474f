// The public calls that change inodes and read attributes, for C and Rust to link: each returns 0 or the refusal's number, and writes what else it answers.
#![tactic(auto)]

ghost use Rattle.std.specs.Prelude.{◌≡◌};
ghost use Rattle.store.specs.Act.{leaves};
ghost use Rattle.inode_modify.specs.Modify.{inode_modify};
ghost use Rattle.inode_truncate.specs.Truncate.{truncated_out};
ghost use Rattle.truncate.specs.Call.{inode_truncate};
ghost use Rattle.inode_write.specs.Calls.{inode_write, wrote_answer};
ghost use Rattle.xattr.specs.Calls.{xattr_list_len, xattr_len, xattr_list, xattr_read};
ghost use Rattle.boundary.specs.Words.{beside};
ghost use Rattle.boundary_file.specs.Words.{times_of, wanted, changed_words, done_word, wrote_words, length_words, value_words};

use inode::{InodeAttr, InodeType, Times};
use refusal::Refusal;
use volume::{InodeNum, Volume};

// The times, each before its nanoseconds, in the order in which the attributes cross.
fn times_of(times: &[u64; 8]) -> Times
    ensures { result ≡ times_of times.now }
{
    Times {
        atime: times[0],
        mtime: times[2],
        ctime: times[4],
        birthtime: times[6],
        mtimensec: (times[3] % 4294967296) as u32,
        atimensec: (times[1] % 4294967296) as u32,
        ctimensec: (times[5] % 4294967296) as u32,
        birthnsec: (times[7] % 4294967296) as u32,
    }
}

// What `inode_modify` takes of the wanted attributes; it looks at no other.
fn wanted_attr(perm: u16, uid: u32, gid: u32, flags: u32, times: &[u64; 8]) -> InodeAttr
    ensures { result ≡ wanted perm uid gid flags times.now }
{
    InodeAttr {
        inr: InodeNum(0),
        perm,
        kind: InodeType::RegularFile,
        size: 0,
        blocks: 0,
        times: times_of(times),
        nlink: 0,
        uid,
        gid,
        generation: 0,
        blksize: 0,
        flags,
        kernflags: 0,
        extsize: 0,
    }
}

#[unsafe(no_mangle)]
pub extern "C" fn hitchsnow_inode_modify(
    img: &mut [u8],
    writable: bool,
    inr: u32,
    perm: u16,
    uid: u32,
    gid: u32,
    flags: u32,
    times: &[u64; 8],
    words: &mut [u64; 21],
) -> u32
    ensures { (img.new, (result, words.new)) ≡ beside changed_words (leaves (inode_modify (record { writable = writable }) inr (wanted perm uid gid flags times.now)) img.old) }
{
    let a = wanted_attr(perm, uid, gid, flags, times);
    let m = inode_modify::inode_modify(img, Volume { writable }, InodeNum(inr), a);
    boundary_inode::put_attr(m, words)
}

// The number of what setting a size answered.
fn done_number(t: Result<(), Refusal>) -> u32
    ensures { result ≡ done_word (truncated_out t) }
{
    match t {
        Ok(()) => 0,
        Err(e) => refusal::number(e),
    }
}

#[unsafe(no_mangle)]
pub extern "C" fn hitchsnow_inode_truncate(
    img: &mut [u8],
    writable: bool,
    inr: u32,
    size: u64,
) -> u32
    ensures { (img.new, result) ≡ beside done_word (leaves (inode_truncate (record { writable = writable }) inr size) img.old) }
{
    let t = truncate::inode_truncate(img, Volume { writable }, InodeNum(inr), size);
    done_number(t)
}

// Writes how many bytes were written.
fn put_wrote(w: Result<u64, Refusal>, count: &mut u64) -> u32
    ensures { (result, count.new) ≡ wrote_words w }
{
    match w {
        Ok(n) => {
            *count = n;
            0
        }
        Err(e) => {
            *count = 0;
            refusal::number(e)
        }
    }
}

#[unsafe(no_mangle)]
pub extern "C" fn hitchsnow_inode_write(
    img: &mut [u8],
    writable: bool,
    inr: u32,
    off: u64,
    bytes: &[u8],
    count: &mut u64,
) -> u32
    ensures { (img.new, (result, count.new)) ≡ beside wrote_words (wrote_answer (leaves (inode_write (record { writable = writable }) inr off bytes.now) img.old)) }
{
    let w = inode_write::inode_write(img, Volume { writable }, InodeNum(inr), off, bytes);
    put_wrote(w, count)
}

// Writes how many bytes.
fn put_length(l: Result<u32, Refusal>, len: &mut u64) -> u32
    ensures { (result, len.new) ≡ length_words l }
{
    match l {
        Ok(n) => {
            *len = n as u64;
            0
        }
        Err(e) => {
            *len = 0;
            refusal::number(e)
        }
    }
}

#[unsafe(no_mangle)]
pub extern "C" fn hitchsnow_xattr_list_len(img: &[u8], inr: u32, len: &mut u64) -> u32
    ensures { (result, len.new) ≡ length_words (xattr_list_len img.now inr) }
{
    let l = xattr::xattr_list_len(img, InodeNum(inr));
    put_length(l, len)
}

#[unsafe(no_mangle)]
pub extern "C" fn hitchsnow_xattr_len(img: &[u8], inr: u32, name: &[u8], len: &mut u64) -> u32
    ensures { (result, len.new) ≡ length_words (xattr_len img.now inr name.now) }
{
    let l = xattr::xattr_len(img, InodeNum(inr), name);
    put_length(l, len)
}

#[unsafe(no_mangle)]
pub extern "C" fn hitchsnow_xattr_list(img: &[u8], inr: u32, out: &mut [u8], len: &mut u64) -> u32
    ensures { (out.new, (result, len.new)) ≡ beside length_words (xattr_list img.now inr out.old) }
{
    let l = xattr::xattr_list(img, InodeNum(inr), out);
    put_length(l, len)
}

// Writes where the value begins and ends in the buffer.
fn put_value(v: Result<(usize, usize), Refusal>, begin: &mut u64, end: &mut u64) -> u32
    ensures { (result, (begin.new, end.new)) ≡ value_words v }
{
    match v {
        Ok((b, e)) => {
            *begin = b as u64;
            *end = e as u64;
            0
        }
        Err(e) => {
            *begin = 0;
            *end = 0;
            refusal::number(e)
        }
    }
}

#[unsafe(no_mangle)]
pub extern "C" fn hitchsnow_xattr_read(
    img: &[u8],
    inr: u32,
    name: &[u8],
    buf: &mut [u8],
    begin: &mut u64,
    end: &mut u64,
) -> u32
    ensures { (buf.new, (result, (begin.new, end.new))) ≡ beside value_words (xattr_read img.now inr name.now buf.old) }
{
    let v = xattr::xattr_read(img, InodeNum(inr), name, buf);
    put_value(v, begin, end)
}
