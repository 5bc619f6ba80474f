// 01's program dirlist: reads a directory block and prints its records. `stdin` and `stdout` are 01's example.
#![tactic(auto)]

ghost use Rattle.std.specs.Io.{ReadsAtMost};

use field::Order;
use std::io::{self, Read};

// Reads until buf is full or the input ends; how many bytes that put at the start of buf.
fn read_full(from: &mut impl Read, buf: &mut [u8]) -> io::Result<usize>
    ensures { ReadsAtMost result buf.new }
{
    let mut done = 0;
    // Not a `for`: the step is what a read gives.
    while done < buf.len() {
        let n = from.read(&mut buf[done..])?;
        if n == 0 {
            break;
        }
        done += n;
    }
    Ok(done)
}

fn write_first(rt: &impl Print, out: &[u8], n: usize) -> io::Result<()> {
    if n <= out.len() {
        rt.write_all(&out[0..n])?;
    }
    Ok(())
}

fn main(rt: HostRuntime) -> io::Result<()> {
    let mut input = [0u8; 1024];
    let mut out = [0u8; 4096];
    let n = read_full(&mut rt.stdin(), &mut input)?;
    let end = dirtext::dirlist(Order::Little, &input[..n], &mut out);
    write_first(&rt, &out, end)
}
