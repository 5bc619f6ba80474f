// 01's worked numbers, run: the map lines, the one that is not starred among them, and the index past the last one.
#![tactic(auto)]

ghost use Rattle.std.specs.Prelude.{◌<◌};

use mapping::Place;
use std::io;
use volume::BlockIdx;

fn digit(n: u8) -> u8
    requires { n < 16 }
{
    if n < 10 { 48 + n } else { 87 + n }
}

fn write_byte(rt: &impl Print, b: u8) -> io::Result<()> {
    let text = [digit(b / 16), digit(b % 16)];
    rt.write_all(&text)
}

fn write_map(rt: &impl Print, map: &[u8; 2]) -> io::Result<()> {
    write_byte(rt, map[0])?;
    rt.write_all(b" ")?;
    write_byte(rt, map[1])?;
    rt.write_all(b"\n")
}

// A block given of a map with 8 fragments to a block, if there is one.
fn give(rt: &impl Print, map: &mut [u8; 2]) -> io::Result<()> {
    match bits_find::first_free_block(map, 0, 8, 2) {
        Some(h) => {
            if h < 2 {
                bits::setblock(map, 0, 8, h, false);
                rt.write_all(b"given ")?;
                write_byte(rt, (8 * h) as u8)?;
                rt.write_all(b": ")?;
                write_map(rt, map)?;
            }
        }
        None => {
            rt.write_all(b"28\n")?;
        }
    }
    Ok(())
}

// Fragment f of the map back.
fn back(rt: &impl Print, map: &mut [u8; 2], f: usize) -> io::Result<()>
    requires { f < 16 }
{
    bits::setfrag(map, 0, f, true);
    write_map(rt, map)
}

fn write_loose(rt: &impl Print, map: &[u8; 2]) -> io::Result<()> {
    let count = bits_count::count_map(map, 0, 8, 16);
    write_byte(rt, ((count.frags - 8 * count.blocks) % 256) as u8)?;
    rt.write_all(b"\n")
}

// A position in a list of 512.
fn write_position(rt: &impl Print, n: u64) -> io::Result<()> {
    let text = [
        digit((n / 100 % 10) as u8),
        digit((n / 10 % 10) as u8),
        digit((n % 10) as u8),
    ];
    rt.write_all(&text)
}

// The positions in the three lists above a block of the third zone.
fn write_third(rt: &impl Print, rest: u64) -> io::Result<()> {
    rt.write_all(b"third (")?;
    write_position(rt, rest / 262144)?;
    rt.write_all(b",")?;
    write_position(rt, rest / 512 % 512)?;
    rt.write_all(b",")?;
    write_position(rt, rest % 512)?;
    rt.write_all(b")\n")
}

// Where an index leads at bsize 4,096: in the third zone, or nowhere.
fn write_place(rt: &impl Print, i: BlockIdx) -> io::Result<()> {
    match mapping::place_of(512, i) {
        Place::Under { root, level, rest } => {
            if (root == 14) & (level == 3) {
                write_third(rt, rest.0)?;
            }
        }
        Place::Past => {
            rt.write_all(b"none\n")?;
        }
    }
    Ok(())
}

fn main(rt: HostRuntime) -> io::Result<()> {
    let mut map = [0u8, 255u8];
    give(&rt, &mut map)?;
    give(&rt, &mut map)?;
    rt.write_all(b"back 2 at 08, cut after one store: ")?;
    back(&rt, &mut map, 8)?;
    rt.write_all(b"recount nffree ")?;
    write_loose(&rt, &map)?;
    rt.write_all(b"back 2 at 08: ")?;
    back(&rt, &mut map, 9)?;
    rt.write_all(b"index 134,480,395: ")?;
    write_place(&rt, BlockIdx(134480395))?;
    rt.write_all(b"index 134,480,396: ")?;
    write_place(&rt, BlockIdx(134480396))
}
