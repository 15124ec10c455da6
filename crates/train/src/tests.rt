//! Examples at the edges of the rules.
ghost use Rattle.train.specs.Sounds.{Grows};

use crate::fault::{Cause, Fault};
use crate::pulse::TimedPulse;
use crate::reader::Train;
use crate::sound::Sound;
use crate::windows::slot_of;
use line::event::Event;
use line::event::Polarity::{self, Negative, Positive};
use line::line::Line;
use std::alloc::Global;
use std::process::Abort;
use std::test::Fail;
use telegram::answer::Answer;
use telegram::answer::coding::Answers;
use telegram::kind::Kind;
use telegram::request::Request;
use telegram::request::coding::Requests;
use telegram::row::Row;
use telegram::sender::Sender;

fn fault(cause: u16, pulse: u16, t: u16) -> Fault {
    Fault { cause, pulse, t }
}

fn pulse(t: u16, polarity: Polarity) -> TimedPulse {
    TimedPulse { t, polarity }
}

// The train of a negative pulse and these later ones.
fn train(later: &[TimedPulse]) -> Train {
    Train {
        first: Negative,
        later,
    }
}

// The later pulses of what the line hands over, as they are heard from its first pulse on.
fn hear<L: Line>(heap: Global, line: &mut L) -> Result<Vec<TimedPulse>, Fail> {
    let mut later = Vec::new(heap);
    let mut since_first: Option<u16> = None;
    for _ in 0..80 {
        match line.take()? {
            None => return Ok(later),
            Some(Event::Quiet(ticks)) => {
                let Some(t) = since_first else {
                    return Err(Fail::new("a quiet before the first pulse"));
                };
                since_first = Some(t.saturating_add(ticks.count().min(60000) as u16));
            }
            Some(Event::Pulse(polarity, _)) => match since_first {
                Some(t) => later.push(pulse(t, polarity))?,
                None => since_first = Some(0),
            },
        }
    }
    Err(Fail::new("a line too long for a sender"))
}

// What is read of a telegram that is sent.
fn sent_and_read<K: Kind>(
    heap: Global,
    telegram: K::Record,
    closing: u32,
) -> Result<Result<K::Record, Fault>, Fail> {
    let mut sender = Sender::<K>::new(telegram, 4000, closing)?;
    let later = hear(heap, &mut sender)?;
    Ok(train(&later).read::<K>())
}

#[test]
fn every_answer_through_sender_and_reader(rt: HostRuntime) -> Result<(), Fail> {
    for nibble in 0..16 {
        let answer = Answer::try_from(nibble)?;
        assert_eq!(rt;
            sent_and_read::<Answers>(rt.alloc(), answer, 72)?,
            Ok(answer)
        );
    }
    Ok(())
}

#[test]
fn every_request_through_sender_and_reader(rt: HostRuntime) -> Result<(), Fail> {
    for control in 0..2 {
        for address in 0..32 {
            for information in 0..32 {
                let request = Request::new(control, address, information)?;
                assert_eq!(rt;
                    sent_and_read::<Requests>(rt.alloc(), request, 4000)?,
                    Ok(request)
                );
            }
        }
    }
    Ok(())
}

#[test]
fn windows_at_both_edges(rt: HostRuntime) {
    for t in 0..20 {
        assert_eq!(rt; slot_of(t), None);
    }
    for n in 1..2730 {
        assert_eq!(rt; slot_of(24 * n - 5), None);
        assert_eq!(rt; slot_of(24 * n - 4), Some(n));
        assert_eq!(rt; slot_of(24 * n), Some(n));
        assert_eq!(rt; slot_of(24 * n + 8), Some(n));
        assert_eq!(rt; slot_of(24 * n + 9), None);
    }
    assert_eq!(rt; slot_of(65535), None);
}

// The later pulses of a row, each `shift - 4` ticks after its slot's tick.
fn shifted(heap: Global, row: &Row, shift: u16) -> Result<Vec<TimedPulse>, Fail> {
    let mut later = Vec::new(heap);
    for slot in 1..27u16 {
        if let Some(polarity) = row.pulse_in(slot as usize) {
            later.push(pulse((24 * slot - 4).saturating_add(shift), polarity))?;
        }
    }
    Ok(later)
}

// What is read of a row as the kind `K`, each later pulse `shift - 4` ticks after its slot's tick.
fn read_shifted<K: Kind>(
    heap: Global,
    row: &Row,
    shift: u16,
) -> Result<Result<K::Record, Fault>, Fail> {
    let later = shifted(heap, row, shift)?;
    Ok(train(&later).read::<K>())
}

#[test]
fn every_answer_anywhere_in_its_windows(rt: HostRuntime) -> Result<(), Fail> {
    for nibble in 0..16 {
        let answer = Answer::try_from(nibble)?;
        let row = Answers::row(&answer);
        for shift in 0..13 {
            assert_eq!(rt;
                read_shifted::<Answers>(rt.alloc(), &row, shift)?,
                Ok(answer)
            );
        }
    }
    Ok(())
}

#[test]
fn one_tick_outside_a_window(rt: HostRuntime) -> Result<(), Fail> {
    let row = Requests::row(&Request::new(1, 10, 21)?);
    for k in 0..27u16 {
        for shift in [0, 12] {
            let mut later = shifted(rt.alloc(), &row, shift)?;
            if let Some(moved) = later.get_mut(k as usize) {
                let off = if shift == 0 {
                    moved.t.saturating_sub(1)
                } else {
                    moved.t.saturating_add(1)
                };
                moved.t = off;
                assert_eq!(rt; train(&later).read::<Requests>(), Err(fault(2, k + 2, off)));
            }
        }
    }
    Ok(())
}

// A train that begins with a negative pulse has this fault, read as an answer.
fn answer_fault(rt: &impl Abort, later: &[TimedPulse], expected: Fault) {
    assert_eq!(rt; train(later).read::<Answers>(), Err(expected));
}

#[test]
fn faults_of_single_pulses(rt: HostRuntime) {
    for later in [&[][..], &[pulse(3, Positive)]] {
        let train = Train {
            first: Positive,
            later,
        };
        assert_eq!(rt; train.read::<Answers>(), Err(fault(1, 1, 0)));
    }
    for t in [0, 8, 19, 33, 640, 65535] {
        answer_fault(&rt, &[pulse(t, Positive)], fault(2, 2, t));
    }
    for t in [644, 65516] {
        answer_fault(&rt, &[pulse(t, Negative)], fault(7, 2, t));
    }
    for t in [24, 48, 96] {
        answer_fault(&rt, &[pulse(t, Negative)], fault(3, 2, t));
    }
    answer_fault(&rt, &[pulse(72, Positive)], fault(4, 2, 72));
}

#[test]
fn faults_after_a_fair_pulse(rt: HostRuntime) {
    let first = pulse(24, Positive);
    answer_fault(&rt, &[first, pulse(32, Negative)], fault(2, 3, 32));
    answer_fault(&rt, &[first, pulse(72, Negative)], fault(4, 3, 72));
    answer_fault(
        &rt,
        &[first, pulse(48, Negative), pulse(24, Positive)],
        fault(2, 4, 24),
    );
    answer_fault(
        &rt,
        &[
            pulse(27, Positive),
            pulse(54, Negative),
            pulse(81, Positive),
        ],
        fault(2, 4, 81),
    );
}

#[test]
fn the_first_fault_stays(rt: HostRuntime) {
    answer_fault(
        &rt,
        &[
            pulse(19, Positive),
            pulse(48, Negative),
            pulse(49, Negative),
        ],
        fault(2, 2, 19),
    );
    answer_fault(
        &rt,
        &[
            pulse(24, Positive),
            pulse(48, Positive),
            pulse(49, Negative),
        ],
        fault(3, 3, 48),
    );
}

// Two ways on from one train.
fn either_way(
    sound: Sound,
    one: TimedPulse,
    other: TimedPulse,
) -> (Result<Sound, Fault>, Result<Sound, Fault>)
    ensures one { Grows sound one result.0 }
    ensures other { Grows sound other result.1 }
{
    (sound.later(one), sound.later(other))
}

#[test]
fn a_train_is_copied(rt: HostRuntime) -> Result<(), Fail> {
    let Ok(sound) = Sound::begin(Negative) else {
        return Err(Fail::new("a negative first pulse"));
    };
    let (one, other) = either_way(sound, pulse(24, Positive), pulse(33, Positive));
    assert!(rt; one.is_ok());
    match other {
        Ok(_) => Err(Fail::new("a pulse in no slot")),
        Err(found) => {
            assert_eq!(rt; found, fault(2, 2, 33));
            Ok(())
        }
    }
}

#[test]
fn faults_at_the_rest(rt: HostRuntime) {
    answer_fault(&rt, &[], fault(7, 1, 0));
    answer_fault(&rt, &[pulse(20, Positive)], fault(7, 2, 20));
    answer_fault(&rt, &[pulse(32, Positive)], fault(7, 2, 32));
    // 0 0101 1 1
    let parity = [
        pulse(24, Positive),
        pulse(48, Negative),
        pulse(96, Positive),
        pulse(144, Negative),
        pulse(192, Positive),
        pulse(216, Negative),
        pulse(240, Positive),
        pulse(264, Negative),
        pulse(288, Positive),
    ];
    answer_fault(&rt, &parity, fault(6, 10, 288));
    // 0 0101 0 0
    let end = [
        pulse(24, Positive),
        pulse(48, Negative),
        pulse(96, Positive),
        pulse(144, Negative),
        pulse(192, Positive),
        pulse(240, Negative),
        pulse(264, Positive),
        pulse(288, Negative),
    ];
    answer_fault(&rt, &end, fault(5, 9, 288));
}

#[test]
fn a_train_of_the_other_kind(rt: HostRuntime) -> Result<(), Fail> {
    let answer = Answers::row(&Answer::try_from(5)?);
    assert_eq!(rt;
        read_shifted::<Requests>(rt.alloc(), &answer, 4)?,
        Err(fault(7, 8, 288))
    );
    let request = Requests::row(&Request::new(0, 5, 9)?);
    assert_eq!(rt;
        read_shifted::<Answers>(rt.alloc(), &request, 4)?,
        Err(fault(7, 18, 624))
    );
    Ok(())
}

#[test]
fn the_most_pulses_of_a_train(rt: HostRuntime) -> Result<(), Fail> {
    let mut zeros = Row::new();
    for _ in 0..14 {
        zeros.push(false)?;
    }
    let mut later = shifted(rt.alloc(), &zeros, 12)?;
    assert_eq!(rt; later.len(), 26);
    assert_eq!(rt; train(&later).read::<Requests>(), Err(fault(5, 27, 632)));
    later.push(pulse(703, Positive))?;
    assert_eq!(rt; train(&later).read::<Requests>(), Err(fault(7, 28, 703)));
    Ok(())
}

#[test]
fn numbers_of_causes(rt: HostRuntime) {
    let numbered = [
        (Cause::Start, 1),
        (Cause::Timing, 2),
        (Cause::Alternation, 3),
        (Cause::NoInformation, 4),
        (Cause::EndBit, 5),
        (Cause::Parity, 6),
        (Cause::Length, 7),
    ];
    for (cause, number) in numbered {
        assert_eq!(rt; cause.number(), number);
    }
    assert_eq!(rt; Cause::Timing.at(4, 81), fault(2, 4, 81));
}
