// The public calls on directories, for C and Rust to link: each returns 0 or the refusal's number, and writes what else it answers.
#![tactic(auto)]

ghost use Rattle.std.specs.Prelude.{◌≡◌};
ghost use Rattle.dirlookup.specs.Lookup.{dir_lookup, lookup_of};
ghost use Rattle.dirnext.specs.Next.{dir_next, next_answer};
ghost use Rattle.boundary.specs.Words.{beside};
ghost use Rattle.boundary_dir.specs.Words.{lookup_words, entry_list, next_words};

use dirnext::DirEntry;
use refusal::Refusal;
use volume::InodeNum;

#[unsafe(no_mangle)]
pub extern "C" fn hitchsnow_dir_lookup(img: &[u8], inr: u32, name: &[u8], found: &mut u64) -> u32
    ensures { (result, found.new) ≡ lookup_words (lookup_of (dir_lookup img.now inr name.now)) }
{
    match dirlookup::dir_lookup(img, InodeNum(inr), name) {
        Ok(i) => {
            *found = i as u64;
            0
        }
        Err(e) => {
            *found = 0;
            refusal::number(e)
        }
    }
}

// What is told of a record, number by number.
fn entry_list(e: DirEntry) -> [u64; 5]
    ensures { result ≡ entry_list e }
{
    let kind = e.kind;
    [
        e.inr as u64,
        inode::type_number(kind) as u64,
        e.from as u64,
        e.len as u64,
        e.next,
    ]
}

// Writes the record that is told, or zeros at the end and beside a refusal.
fn put_next(n: Result<Option<DirEntry>, Refusal>, words: &mut [u64; 5]) -> u32
    ensures { (result, words.new) ≡ next_words n }
{
    match n {
        Ok(Some(e)) => {
            *words = entry_list(e);
            0
        }
        Ok(None) => {
            *words = [0; 5];
            0
        }
        Err(e) => {
            *words = [0; 5];
            refusal::number(e)
        }
    }
}

#[unsafe(no_mangle)]
pub extern "C" fn hitchsnow_dir_next(
    img: &[u8],
    inr: u32,
    cur: u64,
    buf: &mut [u8],
    words: &mut [u64; 5],
) -> u32
    ensures { (buf.new, (result, words.new)) ≡ beside next_words (next_answer (dir_next img.now inr cur buf.old)) }
{
    let n = dirnext::dir_next(img, InodeNum(inr), cur, buf);
    put_next(n, words)
}
