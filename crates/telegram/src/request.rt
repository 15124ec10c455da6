//! Requests, which the master of the cable sends.
ghost use Rattle.std.specs.Prelude.{◌<◌};

pub mod coding;
pub mod making;

/// What a request holds: control is 0 or 1, address and information are 0 to 31.
// Numbers all, and no truth value: a rule of the project gives control as 0 or 1, and text shows it so.
#[derive(Clone, Copy, PartialEq, Eq, Debug)]
pub struct Request {
    pub control: u8,
    pub address: u8,
    pub information: u8,
    ghost one: { control < 2 },
    ghost low: { address < 32 },
    ghost few: { information < 32 },
}
