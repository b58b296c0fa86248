// A network slice by its S-NSSAI: a slice/service type and a slice differentiator of 24 bits.
ghost use Rattle.std.specs.Prelude.{◌<◌};

#[derive(Clone, Copy, PartialEq, Eq, PartialOrd, Ord, Debug)]
pub struct Snssai {
    pub sst: u8,
    // FFFFFF means that no differentiator is given.
    pub sd: u32,
    ghost bits: { sd < 16777216 },
}
