// The settings of a depot as they were read.
use crate::words::Counted;
use few::few::Few;
use identity::snssai::Snssai;

// How many keys each of the three stores can hold.
#[derive(Clone, Copy, PartialEq, Eq, Debug)]
pub struct Capacities {
    pub ues: usize,
    pub sessions: usize,
    pub subscriptions: usize,
}

// The settings of one slice.
#[derive(Clone, Copy, PartialEq, Eq, Debug)]
pub struct Block {
    pub slice: Snssai,
    // the most UEs that are counted at once
    pub ue_max: u32,
    // the UE entries that are reserved
    pub ue_entries: u32,
    // the most PDU sessions at once
    pub pdu_max: u32,
    pub counted: Counted,
}

// One block for each slice, in the order of the text.
#[derive(Drop)]
pub struct Settings {
    pub blocks: Few<Block, 16>,
}
