// Runs of the block calls on two small cards, each cut after every store and before the first, and recounted: the answers, then what
// 01 asks of the card. `stdout` has what 01's words give on the same bytes.
#![tactic(auto)]

use field::{Number, Order};
use refusal::Refusal;
use std::fs;
use std::io::{self, Read};
use std::rt::Files;
use volume::{FragNum, Volume};

// The superblock's fields.
const SBLKNO: usize = 65536 + 8;

const FRAG: usize = 65536 + 56;

const TOTAL_NBFREE: usize = 65536 + 1016;

const TOTAL_NFFREE: usize = 65536 + 1032;

const MAGIC: usize = 1372;

// Where the groups' records stand: three on the one card, the first of them also on the other, which has zeros for the rest.
const FIRST: usize = 160 * 512;

const SECOND: usize = (232 + 160) * 512;

const LAST: usize = (464 + 160) * 512;

// A group's fields.
const NDBLK: usize = 20;

const NBFREE: usize = 28;

const NFFREE: usize = 36;

const FREEOFF: usize = 96;

// A card whole, the smaller one in the first bytes.
type Card = [u8; 331776];

// A call of a run: a block given, of so many bytes; a run of fragments back, its address and bytes, or its first fragment in the
// block given last and its bytes.
#[derive(Clone, Copy)]
enum Call {
    Give(u64),
    Back(u64, u64),
    BackGiven(u64, u64),
}

// Where a run is: the stores left and made, the calls made, the block given last.
#[derive(Clone, Copy)]
struct Walk {
    left: u64,
    made: u64,
    calls: u64,
    given: u64,
}

// A fresh count: free blocks, free fragments in none of them, and the free ones in a row in the block so far.
#[derive(Clone, Copy)]
struct Tally {
    row: u64,
    blocks: u64,
    loose: u64,
}

// ---- the card's bytes

// A place past the card where the sum would be too.
fn place(at: usize, field: usize) -> usize {
    if at < 331776 {
        if field < 331776 {
            return at + field;
        }
    }
    331776
}

fn get8(img: &Card, at: usize) -> u8 {
    if at < 331776 { img[at] } else { 0 }
}

fn get32(img: &Card, at: usize) -> u32 {
    if at < 331773 {
        return u32::get(Order::Little, img, at);
    }
    0
}

fn get64(img: &Card, at: usize) -> u64 {
    if at < 331769 {
        return u64::get(Order::Little, img, at);
    }
    0
}

fn put32(img: &mut Card, at: usize, v: u32) {
    if at < 331773 {
        v.put(Order::Little, img, at);
    }
}

fn load(rt: &impl Files, img: &mut Card, path: &str) -> io::Result<()> {
    let file = fs::open(rt, path)?;
    io::copy(&mut file.take(331776), &mut &mut img[..])?;
    Ok(())
}

// ---- what is printed

fn say(rt: &impl Print, text: &[u8]) -> io::Result<()> {
    rt.write_all(text)
}

fn say_number(rt: &impl Print, text: &[u8], n: u64) -> io::Result<()> {
    say(rt, text)?;
    rt.print(n)
}

fn say_truth(rt: &impl Print, b: bool) -> io::Result<()> {
    if b {
        say(rt, b" true")?;
    } else {
        say(rt, b" false")?;
    }
    Ok(())
}

fn say_refusal(rt: &impl Print, e: Refusal) -> io::Result<()> {
    say_number(rt, b" refused ", refusal::number(e) as u64)
}

// ---- the calls

// The walk after a call that made n stores.
fn walked(w: Walk, n: u64, given: u64) -> Walk {
    Walk {
        left: w.left.saturating_sub(n),
        made: w.made.wrapping_add(n),
        calls: w.calls.wrapping_add(1),
        given,
    }
}

fn give(rt: &impl Print, img: &mut Card, vol: Volume, size: u64, w: Walk) -> io::Result<Walk> {
    match balloc::blk_alloc_cut(img, vol, size, w.left) {
        Ok((a, got, n, _)) => {
            say_number(rt, b" given ", a.0)?;
            say_number(rt, b" of ", got)?;
            say_number(rt, b" by ", n)?;
            Ok(walked(w, n, a.0))
        }
        Err(e) => {
            say_refusal(rt, e)?;
            Ok(walked(w, 0, w.given))
        }
    }
}

fn back(
    rt: &impl Print,
    img: &mut Card,
    vol: Volume,
    a: u64,
    size: u64,
    w: Walk,
) -> io::Result<Walk> {
    match balloc::blk_free_cut(img, vol, FragNum(a), size, w.left) {
        Ok((n, _)) => {
            say_number(rt, b" back ", a)?;
            say_number(rt, b" by ", n)?;
            Ok(walked(w, n, w.given))
        }
        Err(e) => {
            say_refusal(rt, e)?;
            Ok(walked(w, 0, w.given))
        }
    }
}

fn make(rt: &impl Print, img: &mut Card, vol: Volume, c: Call, w: Walk) -> io::Result<Walk> {
    match c {
        Call::Give(size) => give(rt, img, vol, size, w),
        Call::Back(at, size) => back(rt, img, vol, at, size, w),
        Call::BackGiven(f, size) => back(rt, img, vol, w.given.wrapping_add(f), size, w),
    }
}

// The calls in order, while stores are left; the first in any case.
fn make_all(
    rt: &impl Print,
    img: &mut Card,
    vol: Volume,
    calls: &[Call],
    k: u64,
) -> io::Result<Walk> {
    let mut w = Walk {
        left: k,
        made: 0,
        calls: 0,
        given: 0,
    };
    for i in 0..calls.len() {
        if (i == 0) | (0 < w.left) {
            w = make(rt, img, vol, calls[i], w)?;
        }
    }
    Ok(w)
}

// ---- what is asked of the card

// Where the map of the group record at `at` begins.
fn map_at(img: &Card, at: usize) -> usize {
    place(at, get32(img, place(at, FREEOFF)) as usize)
}

fn ndblk(img: &Card, at: usize) -> u32 {
    get32(img, place(at, NDBLK))
}

fn map_bytes(ndblk: u32) -> usize {
    (ndblk as usize + 7) / 8
}

// The free fragments of a group, by its map's bytes.
fn free_frags(img: &Card, at: usize) -> u64 {
    let map = map_at(img, at);
    let n = map_bytes(ndblk(img, at));
    let mut sum: u64 = 0;
    for i in 0..n {
        sum = sum.wrapping_add(get8(img, place(map, i)).count_ones() as u64);
    }
    sum
}

fn is_free(img: &Card, map: usize, f: u32) -> bool {
    let byte = get8(img, place(map, (f / 8) as usize));
    (byte >> (f % 8)) % 2 == 1
}

// The count with fragment f: a block is free when as many in a row are as it has.
fn noted(t: Tally, f: u32, frag: u32, free: bool) -> Tally {
    if frag == 0 {
        return t;
    }
    let row = if f % frag == 0 { 0 } else { t.row };
    if !free {
        return Tally {
            row,
            blocks: t.blocks,
            loose: t.loose,
        };
    }
    let more = row.wrapping_add(1);
    let loose = t.loose.wrapping_add(1);
    if more == frag as u64 {
        return Tally {
            row: more,
            blocks: t.blocks.wrapping_add(1),
            loose: loose.saturating_sub(more),
        };
    }
    Tally {
        row: more,
        blocks: t.blocks,
        loose,
    }
}

// A group's fresh count.
fn counted(img: &Card, at: usize) -> Tally {
    let map = map_at(img, at);
    let n = ndblk(img, at);
    let frag = get32(img, FRAG);
    let mut t = Tally {
        row: 0,
        blocks: 0,
        loose: 0,
    };
    for f in 0..n {
        t = noted(t, f, frag, is_free(img, map, f));
    }
    t
}

// "They are true when": a group's counts, and the totals.
fn group_true(img: &Card, at: usize, t: Tally) -> bool {
    (get32(img, place(at, NBFREE)) as u64 == t.blocks)
        & (get32(img, place(at, NFFREE)) as u64 == t.loose)
}

fn sum(a: u64, b: u64, c: u64) -> u64 {
    a.wrapping_add(b).wrapping_add(c)
}

fn totals_true(img: &Card, a: Tally, b: Tally, c: Tally) -> bool {
    (get64(img, TOTAL_NBFREE) == sum(a.blocks, b.blocks, c.blocks))
        & (get64(img, TOTAL_NFFREE) == sum(a.loose, b.loose, c.loose))
}

// Whether byte i is one of the n from `at`.
fn within(i: usize, at: usize, n: usize) -> bool {
    (at <= i) && (i - at < n)
}

// Whether byte i is of the map, or of the two counts, of the group record at `at`.
fn in_record(kept: &Card, at: usize, i: usize) -> bool {
    let n = ndblk(kept, at);
    (0 < n)
        & (within(i, place(at, NBFREE), 4)
            | within(i, place(at, NFFREE), 4)
            | within(i, map_at(kept, at), map_bytes(n)))
}

fn may_change(kept: &Card, i: usize) -> bool {
    within(i, TOTAL_NBFREE, 8)
        | within(i, TOTAL_NFFREE, 8)
        | in_record(kept, FIRST, i)
        | in_record(kept, SECOND, i)
        | in_record(kept, LAST, i)
}

// Whether byte i differs and is none of these.
fn is_wrong(kept: &Card, img: &Card, i: usize) -> bool {
    !(get8(kept, i) == get8(img, i)) && !may_change(kept, i)
}

fn wrong_bytes(kept: &Card, img: &Card) -> u64 {
    let mut n: u64 = 0;
    for i in 0..331776 {
        if is_wrong(kept, img, i) {
            n = n.wrapping_add(1);
        }
    }
    n
}

// ---- a run and its cuts

fn tell_recount(rt: &impl Print, img: &mut Card, vol: Volume) -> io::Result<()> {
    say(rt, b"; recount")?;
    match balloc::recount(img, vol) {
        Ok((nbfree, nffree, _)) => {
            say_number(rt, b" nbfree ", nbfree)?;
            say_number(rt, b" nffree ", nffree)?;
        }
        Err(e) => {
            say_refusal(rt, e)?;
        }
    }
    Ok(())
}

fn tell_counts(rt: &impl Print, img: &Card) -> io::Result<()> {
    let a = counted(img, FIRST);
    let b = counted(img, SECOND);
    let c = counted(img, LAST);
    say(rt, b"; counts")?;
    say_truth(rt, group_true(img, FIRST, a))?;
    say_truth(rt, group_true(img, SECOND, b))?;
    say_truth(rt, group_true(img, LAST, c))?;
    say_truth(rt, totals_true(img, a, b, c))
}

fn tell_free(rt: &impl Print, img: &Card) -> io::Result<()> {
    let n = sum(
        free_frags(img, FIRST),
        free_frags(img, SECOND),
        free_frags(img, LAST),
    );
    say_number(rt, b"; free ", n)
}

// The run with k stores on a copy of the card, and the recount. Answers the number of stores made.
fn cut(rt: &impl Print, kept: &Card, vol: Volume, calls: &[Call], k: u64) -> io::Result<u64> {
    let mut img = *kept;
    let w = make_all(rt, &mut img, vol, calls, k)?;
    say_number(rt, b"; in call ", w.calls.saturating_sub(1))?;
    tell_recount(rt, &mut img, vol)?;
    tell_free(rt, &img)?;
    tell_counts(rt, &img)?;
    say_number(rt, b"; other bytes ", wrong_bytes(kept, &img))?;
    say(rt, b"\n")?;
    Ok(w.made)
}

fn cuts(
    rt: &impl Print,
    kept: &Card,
    vol: Volume,
    name: &[u8],
    calls: &[Call],
    end: u64,
) -> io::Result<()> {
    for k in 0..end {
        say(rt, name)?;
        say_number(rt, b", cut ", k)?;
        say(rt, b":")?;
        cut(rt, kept, vol, calls, k)?;
    }
    Ok(())
}

// The whole run, and then each cut of it, the last after all its stores.
fn run(rt: &impl Print, kept: &Card, name: &[u8], calls: &[Call]) -> io::Result<()> {
    say(rt, name)?;
    say(rt, b":")?;
    match sound::open(kept, true) {
        Ok(vol) => {
            let n = cut(rt, kept, vol, calls, u64::MAX)?;
            cuts(rt, kept, vol, name, calls, n.wrapping_add(1))?;
        }
        Err(e) => {
            say_refusal(rt, e)?;
            say(rt, b"\n")?;
        }
    }
    Ok(())
}

// ---- the runs

// Whole blocks, whatever part of one is asked for.
fn blocks(rt: &impl Print, card: &Card) -> io::Result<()> {
    run(rt, card, b"give", &[Call::Give(4096)])?;
    run(rt, card, b"give two", &[Call::Give(512), Call::Give(3584)])?;
    run(
        rt,
        card,
        b"give and back",
        &[Call::Give(4096), Call::BackGiven(0, 4096)],
    )
}

// Fragments: of a block given, which is then whole; and of the block of the card's own that has 5 in use, 176 to 180.
fn fragments(rt: &impl Print, card: &Card) -> io::Result<()> {
    run(
        rt,
        card,
        b"back in parts",
        &[
            Call::Give(4096),
            Call::BackGiven(0, 1536),
            Call::BackGiven(3, 2560),
        ],
    )?;
    run(
        rt,
        card,
        b"fragments",
        &[
            Call::Back(178, 1024),
            Call::Back(176, 1024),
            Call::Back(180, 512),
            Call::Give(512),
        ],
    )
}

// Past a block, no multiple of fsize, reserved, free already; then address 0 of any size.
fn refusals(rt: &impl Print, card: &Card) -> io::Result<()> {
    run(
        rt,
        card,
        b"refusals",
        &[
            Call::Give(4096),
            Call::BackGiven(4, 4096),
            Call::Give(100),
            Call::Back(160, 512),
            Call::Back(200, 512),
            Call::Give(4096),
        ],
    )?;
    run(
        rt,
        card,
        b"address 0",
        &[
            Call::Give(4096),
            Call::Back(0, 4096),
            Call::Back(0, 0),
            Call::BackGiven(7, 512),
        ],
    )
}

// Groups that count no block are passed, though they have some: group 0 alone, then all, the last by a count of -1.
fn passed(rt: &impl Print, card: &mut Card) -> io::Result<()> {
    put32(card, FIRST + NBFREE, 0);
    run(
        rt,
        card,
        b"group 0 passed",
        &[
            Call::Give(4096),
            Call::BackGiven(7, 512),
            Call::Give(4096),
            Call::Back(464, 512),
        ],
    )?;
    put32(card, SECOND + NBFREE, 0);
    put32(card, LAST + NBFREE, 4294967295);
    run(
        rt,
        card,
        b"all passed",
        &[
            Call::Back(180, 512),
            Call::Give(4096),
            Call::Back(176, 2048),
            Call::Give(4096),
            Call::Give(4096),
            Call::BackGiven(0, 512),
        ],
    )
}

fn three_groups(rt: &(impl Files + Print)) -> io::Result<()> {
    let mut card = [0u8; 331776];
    load(rt, &mut card, "t-4k-8-3g.img")?;
    blocks(rt, &card)?;
    fragments(rt, &card)?;
    refusals(rt, &card)?;
    passed(rt, &mut card)
}

// Blocks of one fragment, until there is none.
fn one_group(rt: &(impl Files + Print)) -> io::Result<()> {
    let mut card = [0u8; 331776];
    load(rt, &mut card, "t-4k-1.img")?;
    run(
        rt,
        &card,
        b"frag 1",
        &[
            Call::Give(4096),
            Call::Give(4096),
            Call::Give(4096),
            Call::Give(4096),
            Call::BackGiven(0, 4096),
        ],
    )?;
    copy_in_map(rt, &mut card)
}

// A rightful store makes this sound volume unsound: sblkno is cblkno, and the first byte, 0x19, of the copy's magic is the free
// map's last, which has fragments 24 to 29.
fn copy_in_map(rt: &impl Print, card: &mut Card) -> io::Result<()> {
    put32(card, SBLKNO, 20);
    put32(card, FIRST + FREEOFF, 1369);
    put32(card, FIRST + MAGIC, 0x19540119);
    run(
        rt,
        card,
        b"magic in the map, back",
        &[Call::Back(25, 4096), Call::Back(26, 4096)],
    )?;
    run(
        rt,
        card,
        b"magic in the map, give",
        &[Call::Give(4096), Call::Give(4096)],
    )
}

fn main(rt: HostRuntime) -> io::Result<()> {
    three_groups(&rt)?;
    one_group(&rt)
}
