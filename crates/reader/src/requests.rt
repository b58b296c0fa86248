// Reading a request.
ghost use Rattle.std.specs.Prelude.{◌≡◌, ◌≤◌, length, IfOk};
ghost use Rattle.reader.specs.Faults.{Decided};
ghost use Rattle.reader.specs.RequestFaults.{RequestFault};
ghost use Rattle.reader.specs.Requests.{call_at, call_lines_at, slice_at, request_of};

use crate::items::{Item, NO_SLICE, all_items};
use crate::lines::Lines;
use crate::request::{Call, Request};
use crate::words::Operation;
use few::few::Few;
use identity::snssai::Snssai;
use identity::supi::Supi;
use identity::value::Value;
use refusal::Refusal;

// The lines of a call after its operation: a flag, a UE, and a number under a key of its own.
fn call_lines<F: Value, N: Value>(lines: &mut Lines, key: &[u8]) -> Result<(F, Supi, N), Refusal>
    ensures { (result, lines.new) ≡ call_lines_at F.written key.now N.written lines.old }
{
    let flag = lines.field(b"flag=")?;
    let ue = lines.field(b"ue=")?;
    let number = lines.field(key)?;
    Ok((flag, ue, number))
}

#[tactic(auto, unfolding(crate::specs::Requests::call_at))]
fn call(lines: &mut Lines) -> Result<(Call, Supi), Refusal>
    ensures { (result, lines.new) ≡ call_at lines.old }
{
    match lines.field(b"op=")? {
        Operation::Ue => {
            let (flag, ue, nf) = call_lines(lines, b"nf=")?;
            Ok((Call::Ue { flag, nf }, ue))
        }
        Operation::Pdu => {
            let (flag, ue, session) = call_lines(lines, b"session=")?;
            Ok((Call::Pdu { flag, session }, ue))
        }
    }
}

// A request has at most eight slices, each on a line of its own.
impl Item<(), 8> for Snssai {
    const FILLER: Snssai = NO_SLICE;

    ghost item_at = { λ given. slice_at };

    fn read(lines: &mut Lines, _before: &Few<Snssai, 8>, _given: ()) -> Result<Snssai, Refusal> {
        lines.field(b"slice=")
    }
}

// What a request's text says, or why and at which line it is refused: it is accepted exactly when no refusal fits.
#[tactic(auto, using(crate::proofs::RequestLaw::decided), unfolding(crate::specs::Requests::request_of, crate::specs::Requests::slices_at))]
pub fn read_request(text: &[u8]) -> Result<Request, Refusal>
    ensures reads { result ≡ request_of text.now }
    ensures decided { Decided (RequestFault text.now) result }
    ensures few { IfOk result (λ r. length r.slices ≤ 8) }
{
    let mut lines = Lines::new(text);
    let (call, ue) = call(&mut lines)?;
    let access = lines.field(b"access=")?;
    let slices = all_items(&mut lines, ())?;
    Ok(Request {
        call,
        ue,
        access,
        slices,
    })
}
