// Runs the sound test over two small cards and over damaged copies of them: for each clause of 01's "A volume is sound when"
// what it just takes and what it just refuses. `stdout` has 01's answers.
#![tactic(auto)]

use field::{Number, Order};
use std::fs;
use std::io::{self, Read};
use std::rt::Files;

// The superblock's fields.
const SBLKNO: usize = 65536 + 8;

const CBLKNO: usize = 65536 + 12;

const IBLKNO: usize = 65536 + 16;

const DBLKNO: usize = 65536 + 20;

const NCG: usize = 65536 + 44;

const BSIZE: usize = 65536 + 48;

const FSIZE: usize = 65536 + 52;

const FRAG: usize = 65536 + 56;

const IPG: usize = 65536 + 184;

const FPG: usize = 65536 + 188;

const TOTAL_NBFREE: usize = 65536 + 1016;

const TOTAL_NIFREE: usize = 65536 + 1024;

const TOTAL_NFFREE: usize = 65536 + 1032;

const MAGIC: usize = 1372;

// Where the groups' records stand: three on the one card, the first of them also on the other.
const FIRST: usize = 160 * 512;

const SECOND: usize = (232 + 160) * 512;

const LAST: usize = (464 + 160) * 512;

// Where their copies of the superblock stand on the card of three.
const FIRST_COPY: usize = 144 * 512;

const SECOND_COPY: usize = (232 + 144) * 512;

const LAST_COPY: usize = (464 + 144) * 512;

// A group's fields, and where both cards have its maps.
const GROUP_MAGIC: usize = 4;

const NDBLK: usize = 20;

const NBFREE: usize = 28;

const NIFREE: usize = 32;

const NFFREE: usize = 36;

const IUSEDOFF: usize = 92;

const FREEOFF: usize = 96;

const USED: usize = 168;

const FREE: usize = 170;

// A card whole, the smaller one in the first bytes.
type Card = [u8; 331776];

fn put8(img: &mut Card, at: usize, v: u8) {
    if at < 331776 {
        v.put(Order::Little, img, at);
    }
}

fn put32(img: &mut Card, at: usize, v: u32) {
    if at < 331773 {
        v.put(Order::Little, img, at);
    }
}

fn put64(img: &mut Card, at: usize, v: u64) {
    if at < 331769 {
        v.put(Order::Little, img, at);
    }
}

// Reads a card, which undoes what was put into it.
fn load(rt: &impl Files, img: &mut Card, path: &str) -> io::Result<()> {
    let file = fs::open(rt, path)?;
    io::copy(&mut file.take(331776), &mut &mut img[..])?;
    Ok(())
}

// Prints what the sound test answers of an image.
fn tell(rt: &impl Print, img: &[u8], label: &[u8]) -> io::Result<()> {
    rt.write_all(label)?;
    if sound::sound(img) {
        rt.write_all(b": sound\n")?;
    } else {
        rt.write_all(b": 97\n")?;
    }
    Ok(())
}

// Tells of the first n bytes alone.
fn prefix(rt: &impl Print, img: &[u8], n: usize, label: &[u8]) -> io::Result<()> {
    if n <= img.len() {
        tell(rt, &img[0..n], label)?;
    }
    Ok(())
}

// A case of the card with three groups, which is then as it was.
fn three(rt: &(impl Files + Print), img: &mut Card, label: &[u8]) -> io::Result<()> {
    prefix(rt, img, 331776, label)?;
    load(rt, img, "t-4k-8-3g.img")
}

// The same with a number changed, or a byte.
fn number(
    rt: &(impl Files + Print),
    img: &mut Card,
    at: usize,
    v: u32,
    label: &[u8],
) -> io::Result<()> {
    put32(img, at, v);
    three(rt, img, label)
}

fn byte(
    rt: &(impl Files + Print),
    img: &mut Card,
    at: usize,
    v: u8,
    label: &[u8],
) -> io::Result<()> {
    put8(img, at, v);
    three(rt, img, label)
}

// A case of the card with one group.
fn single(rt: &(impl Files + Print), img: &mut Card, label: &[u8]) -> io::Result<()> {
    prefix(rt, img, 122880, label)?;
    load(rt, img, "t-4k-1.img")
}

// "the image holds 66,912 to 1,073,741,824 bytes"; no volume of fewer than 69,632 is sound, since a least group 0 ends there
fn lengths(rt: &impl Print, img: &Card) -> io::Result<()> {
    prefix(rt, img, 0, b"no byte")?;
    prefix(rt, img, 66911, b"66,911 bytes")?;
    prefix(rt, img, 66912, b"66,912 bytes, where no group fits")?;
    prefix(rt, img, 327679, b"a byte less than the last group's ndblk")?;
    prefix(rt, img, 327680, b"no byte past the last group's ndblk")
}

// "both magics are right in every group", and the superblock's own
fn magics(rt: &(impl Files + Print), img: &mut Card) -> io::Result<()> {
    number(rt, img, 65536 + MAGIC, 0x19540118, b"magic, superblock")?;
    number(rt, img, FIRST_COPY + MAGIC, 0x19540118, b"magic, copy 0")?;
    number(rt, img, SECOND_COPY + MAGIC, 0x19540118, b"magic, copy 1")?;
    number(rt, img, LAST_COPY + MAGIC, 0x19540118, b"magic, copy 2")?;
    number(rt, img, FIRST + GROUP_MAGIC, 0x090254, b"magic, group 0")?;
    number(rt, img, SECOND + GROUP_MAGIC, 0x090254, b"magic, group 1")?;
    number(rt, img, LAST + GROUP_MAGIC, 0x090254, b"magic, group 2")
}

// "bsize .. 4,096 to ..; fsize * frag = bsize; ncg >= 1"
fn products(rt: &(impl Files + Print), img: &mut Card) -> io::Result<()> {
    put32(img, BSIZE, 2048);
    number(rt, img, FRAG, 4, b"bsize 2,048 and frag 4")?;
    number(rt, img, FRAG, 4, b"frag 4 with an eighth of a block")?;
    number(rt, img, BSIZE, 8192, b"bsize 8,192 with eight times 512")?;
    number(rt, img, NCG, 0, b"ncg 0")?;
    number(rt, img, NCG, 1, b"ncg 1")?;
    number(rt, img, NCG, 4, b"ncg 4, past the image")
}

// "ipg is a positive multiple of 8; .. ncg * ipg fits 32 bits", which the image's length already asks
fn inodes(rt: &(impl Files + Print), img: &mut Card) -> io::Result<()> {
    number(rt, img, IPG, 0, b"ipg 0")?;
    number(rt, img, IPG, 8, b"ipg 8")?;
    number(rt, img, IPG, 12, b"ipg 12")?;
    number(
        rt,
        img,
        NCG,
        268435455,
        b"ncg * ipg 2^32 - 16, past the image",
    )?;
    number(rt, img, NCG, 268435456, b"ncg * ipg 2^32, past the image")
}

// One group, so that fpg moves nothing.
fn fpg(rt: &(impl Files + Print), img: &mut Card, v: u32, label: &[u8]) -> io::Result<()> {
    put32(img, NCG, 1);
    number(rt, img, FPG, v, label)
}

// "fpg a positive multiple of frag"; fs.h has it signed
fn groups(rt: &(impl Files + Print), img: &mut Card) -> io::Result<()> {
    fpg(rt, img, 240, b"fpg 240")?;
    fpg(rt, img, 236, b"fpg 236, no multiple of frag")?;
    fpg(rt, img, 0, b"fpg 0")?;
    fpg(rt, img, 2147483640, b"fpg 2^31 - 8")?;
    fpg(rt, img, 2147483648, b"fpg 2^31")
}

// "1 <= ndblk <= fpg"; "every group's ndblk fragments lie in the image"; "dblkno <= ndblk"
fn spans(rt: &(impl Files + Print), img: &mut Card) -> io::Result<()> {
    number(rt, img, FIRST + NDBLK, 0, b"ndblk 0")?;
    number(rt, img, FIRST + NDBLK, 232, b"ndblk fpg")?;
    number(rt, img, FIRST + NDBLK, 233, b"ndblk fpg + 1")?;
    put32(img, FIRST + NDBLK, 233);
    fpg(rt, img, 240, b"ndblk 233 and fpg 240")?;
    number(rt, img, LAST + NDBLK, 184, b"ndblk to the image's end")?;
    number(
        rt,
        img,
        LAST + NDBLK,
        185,
        b"ndblk a fragment past the image",
    )?;
    number(rt, img, LAST + NDBLK, 176, b"ndblk dblkno")?;
    number(rt, img, LAST + NDBLK, 175, b"ndblk dblkno - 1")
}

// A record of group 0, right in all.
fn record(img: &mut Card, at: usize) {
    if at < 131072 {
        put32(img, at + GROUP_MAGIC, 0x090255);
        put32(img, at + NDBLK, 232);
        put32(img, at + IUSEDOFF, 600);
        put32(img, at + FREEOFF, 602);
        put8(img, at + 600, 1);
    }
}

// One group with the superblock itself for its copy.
fn cblkno(rt: &(impl Files + Print), img: &mut Card, v: u32, label: &[u8]) -> io::Result<()> {
    put32(img, NCG, 1);
    put32(img, SBLKNO, 128);
    number(rt, img, CBLKNO, v, label)
}

// "66,912 <= cblkno * fsize"; fsize is a multiple of 512, so the nearest are 66,560 and 67,072
fn records(rt: &(impl Files + Print), img: &mut Card) -> io::Result<()> {
    record(img, 67072);
    cblkno(rt, img, 131, b"cblkno * fsize 67,072")?;
    record(img, 66560);
    cblkno(rt, img, 130, b"cblkno * fsize 66,560")
}

// One group with the magic where its copy stands.
fn sblkno(
    rt: &(impl Files + Print),
    img: &mut Card,
    v: u32,
    at: usize,
    label: &[u8],
) -> io::Result<()> {
    put32(img, NCG, 1);
    put32(img, at, 0x19540119);
    number(rt, img, SBLKNO, v, label)
}

// "0 <= sblkno <= cblkno"
fn copies(rt: &(impl Files + Print), img: &mut Card) -> io::Result<()> {
    sblkno(rt, img, 4294967295, MAGIC - 512, b"sblkno -1")?;
    sblkno(rt, img, 0, MAGIC, b"sblkno 0")?;
    sblkno(rt, img, 160, FIRST + MAGIC, b"sblkno cblkno")?;
    sblkno(rt, img, 161, FIRST + 512 + MAGIC, b"sblkno cblkno + 1")
}

// "cblkno < iblkno; iblkno * fsize + ipg * 256 <= dblkno * fsize"
fn tables(rt: &(impl Files + Print), img: &mut Card) -> io::Result<()> {
    number(rt, img, IBLKNO, 160, b"iblkno cblkno")?;
    number(rt, img, IBLKNO, 161, b"iblkno cblkno + 1")?;
    number(rt, img, IBLKNO, 168, b"inodes to dblkno")?;
    number(rt, img, IBLKNO, 169, b"inodes a fragment past dblkno")?;
    number(rt, img, DBLKNO, 175, b"dblkno before the inodes' end")
}

// "iusedoff >= 168; iusedoff + ipg / 8 <= freeoff", which is 170
fn used_maps(rt: &(impl Files + Print), img: &mut Card) -> io::Result<()> {
    number(rt, img, SECOND + IUSEDOFF, 167, b"iusedoff 167")?;
    number(rt, img, SECOND + IUSEDOFF, 168, b"iusedoff 168, to freeoff")?;
    number(
        rt,
        img,
        SECOND + IUSEDOFF,
        169,
        b"iusedoff 169, past freeoff",
    )?;
    put32(img, IPG, 8);
    number(rt, img, SECOND + IUSEDOFF, 169, b"iusedoff 169 and ipg 8")
}

fn free_map(
    rt: &(impl Files + Print),
    img: &mut Card,
    freeoff: u32,
    ndblk: u32,
    label: &[u8],
) -> io::Result<()> {
    put32(img, FIRST + FREEOFF, freeoff);
    number(rt, img, FIRST + NDBLK, ndblk, label)
}

// "freeoff + (ndblk / 8 rounded up) <= (iblkno - cblkno) * fsize", which is 4,096
fn free_maps(rt: &(impl Files + Print), img: &mut Card) -> io::Result<()> {
    free_map(rt, img, 4067, 232, b"map of 29 bytes to iblkno")?;
    free_map(rt, img, 4068, 232, b"map of 29 bytes past iblkno")?;
    free_map(rt, img, 4068, 225, b"map of 225 bits past iblkno")?;
    free_map(rt, img, 4068, 224, b"map of 224 bits to iblkno")
}

// The last byte of a map of 229 bits.
fn tail(rt: &(impl Files + Print), img: &mut Card, v: u8, label: &[u8]) -> io::Result<()> {
    put32(img, FIRST + NDBLK, 229);
    byte(rt, img, FIRST + FREE + 28, v, label)
}

// "map bits past ndblk are 0"; group 2's map has 22 bytes
fn tails(rt: &(impl Files + Print), img: &mut Card) -> io::Result<()> {
    tail(rt, img, 0x1f, b"ndblk 229, no bit past it")?;
    tail(rt, img, 0x3f, b"ndblk 229, bit 229 set")?;
    tail(rt, img, 0x9f, b"ndblk 229, bit 231 set")?;
    byte(
        rt,
        img,
        LAST + FREE + 22,
        1,
        b"bit after the map's last byte",
    )
}

// "fragments sblkno to dblkno - 1 of every group, and 0 to dblkno - 1 of group 0, are marked in use"
fn reserved(rt: &(impl Files + Print), img: &mut Card) -> io::Result<()> {
    byte(rt, img, FIRST + FREE, 1, b"group 0, fragment 0 free")?;
    byte(
        rt,
        img,
        FIRST + FREE + 17,
        0x80,
        b"group 0, sblkno - 1 free",
    )?;
    byte(rt, img, FIRST + FREE + 18, 1, b"group 0, sblkno free")?;
    byte(
        rt,
        img,
        FIRST + FREE + 21,
        0x80,
        b"group 0, dblkno - 1 free",
    )?;
    byte(rt, img, FIRST + FREE + 22, 1, b"group 0, dblkno free")
}

fn reserved_later(rt: &(impl Files + Print), img: &mut Card) -> io::Result<()> {
    byte(
        rt,
        img,
        SECOND + FREE + 17,
        0xff,
        b"group 1, sblkno - 1 free",
    )?;
    byte(
        rt,
        img,
        SECOND + FREE + 17,
        0,
        b"group 1, sblkno - 1 in use",
    )?;
    byte(rt, img, SECOND + FREE + 18, 1, b"group 1, sblkno free")?;
    byte(
        rt,
        img,
        SECOND + FREE + 21,
        0x80,
        b"group 1, dblkno - 1 free",
    )?;
    byte(rt, img, SECOND + FREE + 22, 0, b"group 1, dblkno in use")?;
    byte(rt, img, LAST + FREE + 21, 0x80, b"group 2, dblkno - 1 free")
}

// "inode 0's used bit is 1"
fn inode_zero(rt: &(impl Files + Print), img: &mut Card) -> io::Result<()> {
    byte(rt, img, FIRST + USED, 0xfe, b"inode 0 alone not used")?;
    byte(rt, img, FIRST + USED, 1, b"inode 0 alone used")?;
    byte(rt, img, SECOND + USED, 0, b"group 1, no inode used")
}

fn count(
    rt: &(impl Files + Print),
    img: &mut Card,
    at: usize,
    v: u32,
    name: &[u8],
    label: &[u8],
) -> io::Result<()> {
    rt.write_all(name)?;
    number(rt, img, at, v, label)
}

fn total(
    rt: &(impl Files + Print),
    img: &mut Card,
    at: usize,
    v: u64,
    name: &[u8],
    label: &[u8],
) -> io::Result<()> {
    rt.write_all(name)?;
    put64(img, at, v);
    three(rt, img, label)
}

// "group counts are within 2^31 - 9 of zero": one more of nbfree is what taking back a block would rightly store
fn group_counts(
    rt: &(impl Files + Print),
    img: &mut Card,
    at: usize,
    name: &[u8],
) -> io::Result<()> {
    count(rt, img, at, 2147483639, name, b"2^31 - 9")?;
    count(rt, img, at, 2147483640, name, b"2^31 - 8")?;
    count(rt, img, at, 2147483657, name, b"9 - 2^31")?;
    count(rt, img, at, 2147483656, name, b"8 - 2^31")
}

// "totals within 2^62 of zero"
fn totals(rt: &(impl Files + Print), img: &mut Card, at: usize, name: &[u8]) -> io::Result<()> {
    total(rt, img, at, 4611686018427387904, name, b"2^62")?;
    total(rt, img, at, 4611686018427387905, name, b"2^62 + 1")?;
    total(rt, img, at, 13835058055282163712, name, b"-2^62")?;
    total(rt, img, at, 13835058055282163711, name, b"-2^62 - 1")
}

fn counts(rt: &(impl Files + Print), img: &mut Card) -> io::Result<()> {
    group_counts(rt, img, FIRST + NBFREE, b"nbfree of group 0 ")?;
    group_counts(rt, img, FIRST + NIFREE, b"nifree of group 0 ")?;
    group_counts(rt, img, FIRST + NFFREE, b"nffree of group 0 ")?;
    group_counts(rt, img, LAST + NBFREE, b"nbfree of group 2 ")?;
    totals(rt, img, TOTAL_NBFREE, b"total nbfree ")?;
    totals(rt, img, TOTAL_NIFREE, b"total nifree ")?;
    totals(rt, img, TOTAL_NFFREE, b"total nffree ")
}

fn sizes(
    rt: &(impl Files + Print),
    img: &mut Card,
    bsize: u32,
    frag: u32,
    label: &[u8],
) -> io::Result<()> {
    put32(img, BSIZE, bsize);
    put32(img, FRAG, frag);
    single(rt, img, label)
}

// Places that have the card's group record at fragment cblkno.
fn places(img: &mut Card, fsize: u32, cblkno: u32, fpg: u32, ndblk: u32) {
    if cblkno < 100 {
        put32(img, FSIZE, fsize);
        put32(img, CBLKNO, cblkno);
        put32(img, IBLKNO, cblkno + 1);
        put32(img, DBLKNO, cblkno + 2);
        put32(img, FPG, fpg);
        put32(img, FIRST + NDBLK, ndblk);
    }
}

// "bsize is a power of two, 4,096 to 65,536": the fragments of 5,120 and of 16,384 bytes need other places
fn block_sizes(rt: &(impl Files + Print), img: &mut Card) -> io::Result<()> {
    sizes(rt, img, 8192, 2, b"bsize 8,192")?;
    places(img, 5120, 16, 24, 24);
    put32(img, SBLKNO, 16);
    put32(img, FIRST + MAGIC, 0x19540119);
    sizes(rt, img, 5120, 1, b"bsize 5,120, no power of two")?;
    places(img, 16384, 5, 8, 7);
    put32(img, SBLKNO, 4);
    sizes(rt, img, 65536, 4, b"bsize 65,536")?;
    places(img, 16384, 5, 8, 7);
    put32(img, SBLKNO, 4);
    sizes(rt, img, 131072, 8, b"bsize 131,072")
}

// "frag is 1, 2, 4 or 8"; fpg is made a multiple of 16
fn frags(rt: &(impl Files + Print), img: &mut Card) -> io::Result<()> {
    put32(img, FPG, 32);
    sizes(rt, img, 32768, 8, b"frag 8")?;
    put32(img, FPG, 32);
    sizes(rt, img, 65536, 16, b"frag 16")?;
    sizes(rt, img, 12288, 3, b"frag 3")?;
    sizes(rt, img, 0, 0, b"frag 0")
}

// The map of the card of one group, whose ndblk is 30 and dblkno 22.
fn single_map(rt: &(impl Files + Print), img: &mut Card) -> io::Result<()> {
    put8(img, FIRST + FREE + 3, 0x78);
    single(rt, img, b"ndblk 30, bit 30 set")?;
    put8(img, FIRST + FREE + 2, 0x20);
    single(rt, img, b"frag 1, dblkno - 1 free")?;
    put8(img, FIRST + FREE + 2, 0x40);
    single(rt, img, b"frag 1, dblkno free")
}

// A rightful store makes this sound volume unsound: sblkno is cblkno, the first byte, 0x19, of the copy's magic is the free map's
// last, and fragment 25 taken back sets bit 1 of it.
fn copy_in_map(rt: &(impl Files + Print), img: &mut Card) -> io::Result<()> {
    put32(img, SBLKNO, 20);
    put32(img, FIRST + FREEOFF, 1369);
    put32(img, FIRST + MAGIC, 0x19540119);
    prefix(rt, img, 122880, b"magic in the map")?;
    put8(img, FIRST + MAGIC, 0x1b);
    single(rt, img, b"magic in the map, fragment 25 taken back")
}

fn three_groups(rt: &(impl Files + Print), img: &mut Card) -> io::Result<()> {
    load(rt, img, "t-4k-8-3g.img")?;
    prefix(rt, img, 331776, b"three groups")?;
    lengths(rt, img)?;
    magics(rt, img)?;
    products(rt, img)?;
    inodes(rt, img)?;
    groups(rt, img)?;
    spans(rt, img)?;
    records(rt, img)?;
    copies(rt, img)?;
    tables(rt, img)?;
    used_maps(rt, img)?;
    free_maps(rt, img)?;
    tails(rt, img)?;
    reserved(rt, img)?;
    reserved_later(rt, img)?;
    inode_zero(rt, img)?;
    counts(rt, img)
}

fn one_group(rt: &(impl Files + Print), img: &mut Card) -> io::Result<()> {
    load(rt, img, "t-4k-1.img")?;
    prefix(rt, img, 122880, b"one group")?;
    block_sizes(rt, img)?;
    frags(rt, img)?;
    single_map(rt, img)?;
    copy_in_map(rt, img)
}

fn main(rt: HostRuntime) -> io::Result<()> {
    let mut img = [0u8; 331776];
    three_groups(&rt, &mut img)?;
    one_group(&rt, &mut img)
}
