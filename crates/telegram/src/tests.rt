//! Examples at the edges of the rules.
ghost use Rattle.std.specs.Prelude.{◌≡◌, ◌≢◌, Some, false, length};
ghost use Rattle.telegram.specs.Rows.{row_bits};

use crate::answer::Answer;
use crate::answer::coding::Answers;
use crate::kind::Kind;
use crate::refusal::Refusal;
use crate::request::Request;
use crate::request::coding::Requests;
use crate::row::Row;
use crate::row::growing::Full;
use crate::sender::Sender;
use line::event::{Event, Height, Polarity, Ticks};
use line::line::Line;
use line::refusal::Refusal as EventRefusal;
use std::fmt::Debug;
use std::process::Abort;
use std::test::Fail;

// The bits of a row are just these.
fn has_bits(rt: &impl Abort, row: &Row, bits: &[bool]) {
    assert_eq!(rt; row.len(), bits.len());
    for (k, bit) in bits.iter().enumerate() {
        assert_eq!(rt; row.bit(k), *bit);
    }
    assert!(rt; !row.bit(bits.len()));
}

#[test]
fn records_in_their_ranges(rt: HostRuntime) -> Result<(), Fail> {
    for nibble in 0..16 {
        assert_eq!(rt; Answer::try_from(nibble)?.nibble as u16, nibble);
    }
    for control in 0..2 {
        for field in [0, 1, 16, 31] {
            let request = Request::new(control, field, 31 - field)?;
            assert_eq!(rt; request.control as u16, control);
            assert_eq!(rt; request.address as u16, field);
            assert_eq!(rt; request.information as u16, 31 - field);
        }
    }
    Ok(())
}

#[test]
fn records_out_of_their_ranges(rt: HostRuntime) -> Result<(), Fail> {
    for nibble in [16, 255, 256, 65535] {
        assert_eq!(rt; Answer::try_from(nibble).map_err(Refusal::number), Err(9));
    }
    for (control, address, information) in [
        (2, 0, 0),
        (0, 32, 0),
        (0, 0, 32),
        (256, 5, 9),
        (0, 65535, 9),
    ] {
        let made = Request::new(control, address, information);
        assert_eq!(rt; made.map_err(Refusal::number), Err(9));
    }
    Ok(())
}

// A refusal of ticks in another layer has the number 2; no refusal here has, by its type.
fn number_here(refusal: Refusal) -> u8
    ensures { result ≢ 2 }
{
    refusal.number()
}

#[test]
fn numbers_of_refusals(rt: HostRuntime) {
    for (refusal, number) in [
        (Refusal::HeightOutOfRange, 1),
        (Refusal::FieldOutOfRange, 9),
        (Refusal::ClosingOutOfRange, 10),
    ] {
        assert_eq!(rt; number_here(refusal), number);
    }
}

// No two refusals of `line` become the same one here: which it was can be told.
fn told_again(refusal: EventRefusal) -> Option<EventRefusal>
    ensures { result ≡ Some refusal }
{
    match Refusal::from(refusal) {
        Refusal::HeightOutOfRange => Some(EventRefusal::HeightOutOfRange),
        Refusal::FieldOutOfRange => None,
        Refusal::ClosingOutOfRange => Some(EventRefusal::TicksOutOfRange),
    }
}

#[test]
fn refusals_of_line_are_told_apart(rt: HostRuntime) {
    for refusal in [
        EventRefusal::HeightOutOfRange,
        EventRefusal::TicksOutOfRange,
    ] {
        assert_eq!(rt; told_again(refusal), Some(refusal));
    }
}

#[test]
fn rows_of_records(rt: HostRuntime) -> Result<(), Fail> {
    let five = Answers::row(&Answer::try_from(5)?);
    has_bits(&rt, &five, &[false, false, true, false, true, false, true]);
    let seven = Answers::row(&Answer::try_from(7)?);
    has_bits(&rt, &seven, &[false, false, true, true, true, true, true]);
    let request = Requests::row(&Request::new(1, 5, 9)?);
    let bits = [
        false, true, false, false, true, false, true, false, true, false, false, true, true, true,
    ];
    has_bits(&rt, &request, &bits);
    Ok(())
}

// The bits between the ends of a telegram's row have an even sum, and the row gives the telegram back.
fn comes_back<K: Kind>(rt: &impl Abort, telegram: K::Record)
where
    K::Record: PartialEq + Debug,
{
    let row = K::row(&telegram);
    assert!(rt; !row.odd_between());
    assert_eq!(rt; K::record(&row), telegram);
}

#[test]
fn every_answer_and_its_row(rt: HostRuntime) -> Result<(), Fail> {
    for nibble in 0..16 {
        comes_back::<Answers>(&rt, Answer::try_from(nibble)?);
    }
    Ok(())
}

#[test]
fn every_request_and_its_row(rt: HostRuntime) -> Result<(), Fail> {
    for control in 0..2 {
        for address in 0..32 {
            for information in 0..32 {
                comes_back::<Requests>(&rt, Request::new(control, address, information)?);
            }
        }
    }
    Ok(())
}

#[test]
fn a_row_grows_to_fourteen_bits(rt: HostRuntime) {
    let mut row = Row::new();
    assert_eq!(rt; row.len(), 0);
    assert!(rt; !row.odd_between());
    for k in 0..14 {
        assert_eq!(rt; row.push(k % 3 == 0), Ok(()));
    }
    assert_eq!(rt; row.push(true), Err(Full));
    assert_eq!(rt; row.len(), 14);
    assert!(rt; row.bit(12));
    assert!(rt; !row.bit(13));
    assert!(rt; !row.bit(14));
}

// No row has a bit past its fourteenth: its type says so.
fn bit_past_the_most(row: &Row) -> bool
    ensures { result ≡ false }
{
    row.bit(14)
}

// A value of a caller's that holds a row.
#[derive(Clone, Copy)]
struct Held {
    row: Row,
}

fn held_bits(held: Held) -> usize
    ensures { result ≡ length (row_bits held.row) }
{
    held.row.len()
}

#[test]
fn what_holds_a_row_is_copied(rt: HostRuntime) -> Result<(), Fail> {
    let mut row = Row::new();
    for _ in 0..14 {
        row.push(true)?;
    }
    assert!(rt; !bit_past_the_most(&row));
    let held = Held { row };
    assert_eq!(rt; held_bits(held) + held_bits(held), 28);
    let mut rows = [row, Row::new()];
    rows[1].push(false)?;
    assert_eq!(rt; (rows[0].len(), rows[1].len()), (14, 1));
    Ok(())
}

#[test]
fn a_row_too_short_for_its_fields(rt: HostRuntime) -> Result<(), Fail> {
    let mut row = Row::new();
    assert_eq!(rt; Answers::record(&row), Answer::try_from(0)?);
    assert_eq!(rt; row.push(true), Ok(()));
    assert_eq!(rt; row.push(true), Ok(()));
    assert_eq!(rt; Answers::record(&row), Answer::try_from(8)?);
    assert_eq!(rt; Requests::record(&row), Request::new(1, 0, 0)?);
    Ok(())
}

// The slots of all answers from 0 on, worked out by hand: `-` and `+` for pulses, `.` for none.
const ANSWERS: [[u8; 13]; 16] = [
    *b"-+-+-+-+-+-.+",
    *b"-+-+-+-.+-+-+",
    *b"-+-+-.+.-.+-+",
    *b"-+-+-.+-+.-.+",
    *b"-+-.+.-+-.+-+",
    *b"-+-.+.-.+.-.+",
    *b"-+-.+-+.-+-.+",
    *b"-+-.+-+-+-+-+",
    *b"-.+.-+-+-.+-+",
    *b"-.+.-+-.+.-.+",
    *b"-.+.-.+.-+-.+",
    *b"-.+.-.+-+-+-+",
    *b"-.+-+.-+-+-.+",
    *b"-.+-+.-.+-+-+",
    *b"-.+-+-+.-.+-+",
    *b"-.+-+-+-+.-.+",
];

// The slots of a row are as drawn, and all past them are empty.
fn looks(rt: &impl Abort, row: &Row, drawing: &[u8]) {
    for (slot, drawn) in drawing.iter().enumerate() {
        let shown = match row.pulse_in(slot) {
            None => b'.',
            Some(Polarity::Negative) => b'-',
            Some(Polarity::Positive) => b'+',
        };
        assert_eq!(rt; shown, *drawn);
    }
    assert_eq!(rt; row.pulse_in(drawing.len()), None);
    assert_eq!(rt; row.pulse_in(usize::MAX), None);
}

#[test]
fn all_answers_by_slot(rt: HostRuntime) -> Result<(), Fail> {
    for (nibble, drawing) in ANSWERS.iter().enumerate() {
        looks(
            &rt,
            &Answers::row(&Answer::try_from(nibble as u16)?),
            drawing,
        );
    }
    Ok(())
}

#[test]
fn requests_by_slot(rt: HostRuntime) -> Result<(), Fail> {
    looks(
        &rt,
        &Requests::row(&Request::new(0, 5, 9)?),
        b"-+-+-+-.+.-.+.-.+.-+-.+.-.+",
    );
    looks(
        &rt,
        &Requests::row(&Request::new(1, 31, 31)?),
        b"-.+-+-+-+-+-+-+-+-+-+-+-+-+",
    );
    looks(
        &rt,
        &Requests::row(&Request::new(0, 0, 0)?),
        b"-+-+-+-+-+-+-+-+-+-+-+-+-.+",
    );
    Ok(())
}

#[test]
fn what_a_sender_hands_over(rt: HostRuntime) -> Result<(), Fail> {
    let mut sender = Sender::<Answers>::new(Answer::try_from(5)?, 812, 100)?;
    let mut polarity = Polarity::Negative;
    for slots in [1, 1, 2, 2, 2, 2, 2] {
        assert_eq!(rt;
            sender.take(),
            Ok(Some(Event::Pulse(polarity, Height::try_from(812)?)))
        );
        assert_eq!(rt;
            sender.take(),
            Ok(Some(Event::Quiet(Ticks::try_from(24 * slots)?)))
        );
        polarity = polarity.opposite();
    }
    assert_eq!(rt;
        sender.take(),
        Ok(Some(Event::Pulse(Polarity::Positive, Height::try_from(812)?)))
    );
    assert_eq!(rt;
        sender.take(),
        Ok(Some(Event::Quiet(Ticks::try_from(100)?)))
    );
    assert_eq!(rt; sender.take(), Ok(None));
    assert_eq!(rt; sender.take(), Ok(None));
    Ok(())
}

// The number by which a sender of these limits is refused, if it is.
fn refused(mv: u16, closing: u32) -> Result<Option<u8>, Fail> {
    let made = Sender::<Answers>::new(Answer::try_from(0)?, mv, closing);
    Ok(made.err().map(Refusal::number))
}

#[test]
fn limits_of_a_sender(rt: HostRuntime) -> Result<(), Fail> {
    assert_eq!(rt; refused(8191, 72)?, None);
    assert_eq!(rt; refused(0, 4000)?, None);
    assert_eq!(rt; refused(8192, 72)?, Some(1));
    assert_eq!(rt; refused(8192, 71)?, Some(1));
    assert_eq!(rt; refused(8191, 71)?, Some(10));
    assert_eq!(rt; refused(0, 0)?, Some(10));
    assert_eq!(rt; refused(0, 4001)?, Some(10));
    assert_eq!(rt; refused(0, u32::MAX)?, Some(10));
    Ok(())
}
