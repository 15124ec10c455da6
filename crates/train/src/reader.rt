//! A whole train, and how it is read as one kind of telegram.
ghost use Rattle.train.specs.Bench.{Bench};
ghost use Rattle.train.specs.Faulted.{FaultLaws};
ghost use Rattle.train.specs.Laws.{Reads};
ghost use Rattle.train.specs.Sounds.{AsKind, Outcome};

use crate::fault::Fault;
use crate::pulse::TimedPulse;
use crate::sound::Sound;
use line::event::Polarity;
use std::marker::Model;
use telegram::kind::Kind;

/// A train: the polarity of its first pulse, and its later pulses in order, lent. They need not be what a listener hears as
/// one train: a pulse that comes before the one in front of it, or 72 ticks and more after it, is at fault too.
#[derive(Drop)]
pub struct Train<'a> {
    pub first: Polarity,
    pub later: &'a [TimedPulse],
}

impl<'a> Model for Train<'a> {
    ghost use Rattle.train.specs.Trains.{Train};

    ghost Value = { Train };

    ghost view = { λ u. record { first = u.first; later = u.later.now } };
}

impl<'a> Train<'a> {
    // Hears the whole train: answers what is kept of it, or its first fault.
    fn hear(&self) -> Result<Sound, Fault>
        ensures { Outcome self.now result }
    {
        let mut sound = Sound::begin(self.first)?;
        for pulse in self.later {
            sound = sound.later(*pulse)?;
        }
        Ok(sound)
    }

    /// Reads the train as a telegram of the kind `K`, or answers its first fault.
    #[tactic(auto, using(crate::proofs::Faulting::fault_laws))]
    pub fn read<K: Kind>(&self) -> Result<K::Record, Fault>
        ensures value { AsKind K.Kind.BITS K.Kind.record_of self.now result }
        ensures laws { Reads K.Kind.BITS K.Kind.row_of K.Kind.record_of }
        ensures faults { FaultLaws self.now }
        ensures bench { Bench }
    {
        self.hear()?.read::<K>()
    }
}
