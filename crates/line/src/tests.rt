//! Examples at the edges of the rules.
use crate::ending::{Ending, LineFault};
use crate::event::{Event, Height, Polarity, Ticks};
use crate::gate::Gate;
use crate::line::Line;
use crate::recording::Recording;
use crate::refusal::Refusal;
use crate::threshold::Threshold;
use crate::turn::Turn;
use crate::{pile, words};
use std::process::Abort;
use std::test::Fail;

fn quiet(count: u32) -> Result<Event, Refusal> {
    Ok(Event::Quiet(Ticks::try_from(count)?))
}

fn pulse(polarity: Polarity, mv: u16) -> Result<Event, Refusal> {
    Ok(Event::Pulse(polarity, Height::try_from(mv)?))
}

// The line hands out just these events, and then the same ending twice.
fn hands_out<L: Line>(rt: &impl Abort, line: &mut L, events: &[Event], ending: Ending) {
    for event in events {
        assert_eq!(rt; line.take(), Ok(Some(*event)));
    }
    for _ in 0..2 {
        assert_eq!(rt; line.take(), ending.map(|()| None));
    }
}

// The words hand out just these events, and then the same ending twice.
fn reads(rt: &impl Abort, words: &[u32], events: &[Event], ending: Ending) {
    let mut recording = Recording::new(words);
    hands_out(rt, &mut recording, events, ending);
}

fn broken(cause: u32, place: u64) -> Ending {
    Err(LineFault { cause, place })
}

#[test]
fn limits(rt: HostRuntime) -> Result<(), Fail> {
    for mv in [0, 812, 8191] {
        assert_eq!(rt; Height::try_from(mv)?.mv(), mv);
    }
    for mv in [8192, 65535] {
        assert_eq!(rt; Height::try_from(mv).map_err(Refusal::number), Err(1));
    }
    for count in [1, 24, 1_073_741_823] {
        assert_eq!(rt; Ticks::try_from(count)?.count(), count);
    }
    for count in [0, 1_073_741_824, u32::MAX] {
        assert_eq!(rt; Ticks::try_from(count).map_err(Refusal::number), Err(2));
    }
    for mv in [8192, 65535] {
        assert_eq!(rt; Threshold::try_from(mv).map_err(Refusal::number), Err(1));
    }
    Ok(())
}

#[test]
fn words_and_their_events(rt: HostRuntime) -> Result<(), Fail> {
    let table = [
        (0x0000_0001, quiet(1)?),
        (0x0000_0018, quiet(24)?),
        (0x3fff_ffff, quiet(1_073_741_823)?),
        (0x4000_0000, pulse(Polarity::Negative, 0)?),
        (0x4000_0fa0, pulse(Polarity::Negative, 4000)?),
        (0x4000_1fff, pulse(Polarity::Negative, 8191)?),
        (0x6000_0000, pulse(Polarity::Positive, 0)?),
        (0x6000_032c, pulse(Polarity::Positive, 812)?),
        (0x6000_1fff, pulse(Polarity::Positive, 8191)?),
    ];
    for (word, event) in table {
        let words = [word, 0x8000_0001];
        reads(&rt, &words, &[event], Ok(()));
    }
    Ok(())
}

#[test]
fn flaws_at_every_place(rt: HostRuntime) -> Result<(), Fail> {
    let table = [
        (0xc000_0000, 4),
        (0xffff_ffff, 4),
        (0x0000_0000, 5),
        (0x4000_2000, 6),
        (0x5000_0fa0, 6),
        (0x7fff_ffff, 6),
        (0x8000_0004, 8),
        (0xbfff_ffff, 8),
    ];
    let event = quiet(24)?;
    for (word, cause) in table {
        for place in 0..4 {
            let mut words = [24; 4];
            words[place] = word;
            let before = [event; 4];
            let ending = broken(cause, place as u64);
            reads(&rt, &words, &before[0..place], ending);
        }
    }
    Ok(())
}

#[test]
fn ends_and_what_follows_them(rt: HostRuntime) -> Result<(), Fail> {
    let event = quiet(24)?;
    reads(&rt, &[], &[], broken(7, 0));
    let words = [24; 4];
    let events = [event; 4];
    for count in 0..5 {
        reads(
            &rt,
            &words[0..count],
            &events[0..count],
            broken(7, count as u64),
        );
    }
    reads(&rt, &[0x8000_0000], &[], Ok(()));
    reads(&rt, &[0x8000_0001, 24], &[], broken(8, 0));
    reads(&rt, &[24, 0x8000_0000], &[event], broken(8, 1));
    for rubbish in [
        0xffff_ffff,
        0,
        24,
        0x4000_2000,
        0x8000_0000,
        0x8000_0002,
        0x8000_0003,
    ] {
        let at_once = [0x8000_0000, rubbish, rubbish];
        reads(&rt, &at_once, &events[0..0], Ok(()));
        let after_one = [24, 0x8000_0001, rubbish];
        reads(&rt, &after_one, &events[0..1], Ok(()));
    }
    Ok(())
}

#[test]
fn gates_turns_and_piles(rt: HostRuntime) -> Result<(), Fail> {
    let words = [0x4000_0063, 24, 0x6000_0064, 48, 0x4000_0065, 0xc000_0000];
    let kept = [
        quiet(24)?,
        pulse(Polarity::Positive, 100)?,
        quiet(48)?,
        pulse(Polarity::Negative, 101)?,
    ];
    let mut gate = Gate::new(Recording::new(&words), Threshold::try_from(100)?);
    hands_out(&rt, &mut gate, &kept, broken(4, 5));
    let turned = [
        pulse(Polarity::Positive, 99)?,
        quiet(24)?,
        pulse(Polarity::Negative, 100)?,
        quiet(48)?,
        pulse(Polarity::Positive, 101)?,
    ];
    hands_out(
        &rt,
        &mut Turn::new(Recording::new(&words)),
        &turned,
        broken(4, 5),
    );
    let low = Gate::new(Recording::new(&words), Threshold::try_from(100)?);
    let mut high = Gate::new(Turn::new(low), Threshold::try_from(101)?);
    assert_eq!(rt; pile::take_piled(&mut high), Ok(Some(quiet(24)?)));
    let rest = [quiet(48)?, pulse(Polarity::Positive, 101)?];
    hands_out(&rt, &mut high, &rest, broken(4, 5));
    Ok(())
}

#[test]
fn gates_at_their_limits(rt: HostRuntime) -> Result<(), Fail> {
    let words = [0x4000_0000, 0x6000_1ffe, 0x4000_1fff, 1, 0x8000_0004];
    let all = [
        pulse(Polarity::Negative, 0)?,
        pulse(Polarity::Positive, 8190)?,
        pulse(Polarity::Negative, 8191)?,
        quiet(1)?,
    ];
    let mut open = Gate::new(Recording::new(&words), Threshold::try_from(0)?);
    hands_out(&rt, &mut open, &all, Ok(()));
    let mut shut = Gate::new(Recording::new(&words), Threshold::try_from(8191)?);
    hands_out(&rt, &mut shut, &all[2..4], Ok(()));
    let end = [0x8000_0000];
    let mut empty = Gate::new(Turn::new(Recording::new(&end)), Threshold::try_from(8191)?);
    hands_out(&rt, &mut empty, &[], Ok(()));
    Ok(())
}

#[test]
fn bytes_low_byte_first(rt: HostRuntime) {
    let bytes = [1, 2, 3, 4, 0xff, 0, 0, 0x80, 9, 9, 9];
    let mut room = [7; 3];
    assert_eq!(rt; words::from_bytes(&bytes, &mut room), 2);
    assert_eq!(rt; room, [0x0403_0201, 0x8000_00ff, 7]);
    let mut narrow = [7; 1];
    assert_eq!(rt; words::from_bytes(&bytes, &mut narrow), 1);
    assert_eq!(rt; narrow, [0x0403_0201]);
    assert_eq!(rt; words::from_bytes(&bytes[0..3], &mut narrow), 0);
    assert_eq!(rt; narrow, [0x0403_0201]);
}
