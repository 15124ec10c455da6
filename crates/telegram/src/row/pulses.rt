//! The pulses of a row.
ghost use Rattle.std.specs.Prelude.{◌≡◌, ◌≤◌, OnSome};
ghost use Rattle.telegram.specs.Coding.{Coded, gap, held, slots};
ghost use Rattle.telegram.specs.Rows.{row_bits};

use crate::row::Row;
use line::event::Polarity;

// What the slot between the pulses of two neighbouring bits holds.
fn gap(a: bool, b: bool) -> Option<Polarity>
    ensures { result ≡ gap a b }
{
    if a == b {
        Some(Polarity::from(a).opposite())
    } else {
        None
    }
}

impl Row {
    /// What the slot of this number holds when the row is sent: a pulse of some polarity, or none. An even slot has the pulse
    /// of its bit, an odd one what the bits on both sides of it make.
    #[tactic(auto, using(crate::proofs::Coding::slots_bit, crate::proofs::Coding::slots_gap, crate::proofs::Coding::slots_past, crate::proofs::Coding::coded))]
    pub fn pulse_in(&self, slot: usize) -> Option<Polarity>
        ensures value { result ≡ held (slots (row_bits self.now)) slot }
        ensures coding { Coded (row_bits self.now) }
        ensures low { OnSome result (slot ≤ 26) }
    {
        let bits = self.as_slice();
        let bit = *bits.get(slot / 2)?;
        if slot % 2 == 0 {
            Some(Polarity::from(bit))
        } else {
            gap(bit, *bits.get(slot / 2 + 1)?)
        }
    }
}
