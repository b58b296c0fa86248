// Checks the texts of a depot on standard input: settings first, then requests.
#![tactic(auto)]

ghost use Rattle.std.specs.Prelude.{◌≤◌, length, IfOk};

use checker::pieces::Pieces;
use checker::reports::Kind;
use std::io;
use std::io::{Read, Write};

// How much of the input is held; the rest is cut off.
const HELD: usize = 16384;

// Reads until the buffer is full or the input ends, and says how much it read.
fn fill(from: &mut impl Read, buffer: &mut [u8]) -> io::Result<usize>
    ensures { IfOk result (λ n. n ≤ length buffer.old) }
{
    let mut len: usize = 0;
    while len < buffer.len() {
        let got = from.read(&mut buffer[len..])?;
        if got == 0 {
            break;
        }
        len += got;
    }
    Ok(len)
}

// The report is made in the lent bytes.
fn print_report(out: &mut impl Write, kind: Kind, piece: &[u8], text: &mut [u8]) -> io::Result<()> {
    if let Some(end) = kind.report(piece, text) {
        out.write_all(&text[..end])?;
    }
    out.write_all(b"\n")
}

fn main(rt: HostRuntime) -> io::Result<()> {
    let mut input = [0u8; HELD];
    let len = fill(&mut rt.stdin(), &mut input)?;
    let mut pieces = Pieces::new(&input[..len]);
    let mut text = [0u8; 264];
    if let Some(settings) = pieces.next() {
        print_report(&mut rt.stdout(), Kind::Settings, settings, &mut text)?;
    }
    for request in pieces {
        print_report(&mut rt.stdout(), Kind::Request, request, &mut text)?;
    }
    Ok(())
}
