// The listing of dirlist on many blocks: those of the real cards, 01's example, and damaged ones. `data/blocks` has a frame for
// each: the block's length, the label's length, the label in 32 bytes, the block in 1,024. `stdout` has what 01's rule gives.
#![tactic(auto)]

use field::{Number, Order};
use std::fs;
use std::io::{self, ErrorKind, Read};

fn write_part(rt: &impl Print, bytes: &[u8], from: usize, n: usize) -> io::Result<()> {
    if from <= bytes.len() {
        if n <= bytes.len() - from {
            let to = from + n;
            rt.write_all(&bytes[from..to])?;
        }
    }
    Ok(())
}

// What dirlist prints of a part of the frame.
fn write_listing(rt: &impl Print, frame: &[u8], from: usize, n: usize) -> io::Result<()> {
    if from <= frame.len() {
        if n <= frame.len() - from {
            let to = from + n;
            let mut out = [0u8; 4096];
            let end = dirtext::dirlist(Order::Little, &frame[from..to], &mut out);
            write_part(rt, &out, 0, end)?;
        }
    }
    Ok(())
}

// The next frame's listing; whether there was one.
fn list_next(rt: &impl Print, file: &mut impl Read) -> io::Result<bool> {
    let mut frame = [0u8; 1059];
    match file.read_exact(&mut frame) {
        Ok(()) => {}
        Err(e) if e.kind() == ErrorKind::UnexpectedEof => return Ok(false),
        Err(e) => return Err(e),
    }
    let n = u16::get(Order::Little, &frame, 0) as usize;
    let label = u8::get(Order::Little, &frame, 2) as usize;
    write_part(rt, &frame, 3, label)?;
    write_listing(rt, &frame, 35, n)?;
    Ok(true)
}

fn main(rt: HostRuntime) -> io::Result<()> {
    let path = "blocks";
    let mut file = fs::open(&rt, path)?;
    for _ in 0..1000 {
        if !list_next(&rt, &mut file)? {
            break;
        }
    }
    Ok(())
}
