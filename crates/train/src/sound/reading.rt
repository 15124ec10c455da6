//! How a train that is over is read.
ghost use Rattle.std.specs.Prelude.{◌≡◌, ◌-◌, ◌*◌};
ghost use Rattle.train.specs.Laws.{Reads};
ghost use Rattle.train.specs.Sounds.{Rested, ToldAsKind};

use crate::fault::{Cause, Fault};
use crate::sound::Sound;
use telegram::kind::Kind;

// The only good last slot of a train of the kind `K`.
fn good_slot<K: Kind>() -> u16
    ensures { result ≡ 2 * K.Kind.BITS - 2 }
{
    2 * K::BITS as u16 - 2
}

impl Sound {
    // Checks whether the train, which is over now, is a telegram of the kind `K`, or why it is none.
    fn check_as<K: Kind>(&self) -> Result<(), Cause>
        ensures { Rested K.Kind.BITS self.now result }
    {
        self.check_rest(good_slot::<K>())
    }

    /// Reads the train, which is over now, as a telegram of the kind `K`, or answers its fault, which names the last pulse: 7
    /// length, 5 end bit, 6 parity, asked in this order.
    pub fn read<K: Kind>(&self) -> Result<K::Record, Fault>
        ensures value { ToldAsKind K.Kind.BITS K.Kind.record_of self.now result }
        ensures laws { Reads K.Kind.BITS K.Kind.row_of K.Kind.record_of }
    {
        self.check_as::<K>()
            .map_err(|cause| cause.at(self.count, self.t))?;
        Ok(K::record(&self.row))
    }
}
