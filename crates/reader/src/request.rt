// A request as it was read.
use crate::words::{PduFlag, UeFlag};
use few::few::Few;
use identity::access::Access;
use identity::snssai::Snssai;
use identity::supi::Supi;

// What is asked for the UE: a registration at an AMF, or one of its PDU sessions.
#[derive(Clone, Copy, PartialEq, Eq, Debug)]
pub enum Call {
    Ue { flag: UeFlag, nf: u16 },
    Pdu { flag: PduFlag, session: u8 },
}

// One call for each slice, in order.
#[derive(Drop)]
pub struct Request {
    pub call: Call,
    pub ue: Supi,
    pub access: Access,
    pub slices: Few<Snssai, 8>,
}
