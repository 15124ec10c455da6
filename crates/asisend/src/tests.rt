//! Examples of what the program reads and writes.
use crate::parsing::parse;
use crate::sending::send;
use std::alloc::Global;
use std::process::Abort;
use std::test::Fail;
use telegram::refusal::Refusal;

// Each line is refused by `number`, or is good where that is none.
fn all_refused(rt: &impl Abort, lines: &[&str], number: Option<u8>) {
    for line in lines {
        let refusal = parse(line.as_bytes()).err();
        assert_eq!(rt; refusal.map(Refusal::number), number, "{}", *line);
    }
}

#[test]
fn fields_at_the_corners(rt: HostRuntime) {
    all_refused(
        &rt,
        &[
            "request 0 0 0 72",
            "request 1 31 31 4000",
            "answer 0 72",
            "answer 15 4000",
        ],
        None,
    );
    all_refused(
        &rt,
        &[
            "request 2 0 0 72",
            "request 0 32 0 72",
            "request 0 0 32 72",
            "answer 16 72",
            "answer 65536 72",
            "answer 18446744073709551616 72",
        ],
        Some(9),
    );
}

#[test]
fn closing_quiet_at_the_edges(rt: HostRuntime) {
    all_refused(
        &rt,
        &[
            "answer 5 0",
            "answer 5 71",
            "answer 5 4001",
            "request 0 5 9 71",
            "request 0 5 9 4001",
            "answer 5 65535",
            "answer 5 65608",
            "answer 5 4294967368",
            "answer 5 18446744073709551688",
            "answer 5 340282366920938463463374607431768211528",
        ],
        Some(10),
    );
    all_refused(&rt, &["answer 16 71", "request 0 32 0 4001"], Some(9));
}

#[test]
fn only_plain_decimals(rt: HostRuntime) {
    all_refused(
        &rt,
        &[
            "answer 05 100",
            "answer 00 100",
            "answer 5 0100",
            "answer +5 100",
            "answer -0 100",
            "answer 5 1e2",
            "answer 0x5 100",
            "answer a 100",
            "answer 5 100.0",
        ],
        Some(9),
    );
}

#[test]
fn only_single_spaces(rt: HostRuntime) {
    all_refused(
        &rt,
        &[
            " answer 5 100",
            "answer  5 100",
            "answer 5  100",
            "answer 5 100 ",
            "answer\t5 100",
            "answer 5\t100",
            "answer 5 100\r",
        ],
        Some(9),
    );
}

#[test]
fn only_whole_lines(rt: HostRuntime) {
    all_refused(
        &rt,
        &[
            "",
            " ",
            "answer",
            "answer ",
            "answer 5",
            "answer 5 ",
            "answer 5 100 100",
            "request 0 5 9",
            "request 0 5 9 ",
            "request 0 5 9 176 1",
            "request",
            "requests 0 5 9 176",
            "Answer 5 100",
            "5 100",
        ],
        Some(9),
    );
}

// The text of the failure by which `text` is refused, or "done".
fn outcome(heap: Global, text: &[u8]) -> Result<String, Fail> {
    match send(heap, text) {
        Ok(_) => Ok(String::from_str(heap, "done")?),
        Err(failure) => Ok(format!(in heap; "{failure}")?),
    }
}

fn ends(rt: &(impl Abort + AllocGlobal), text: &str, expected: &str) -> Result<(), Fail> {
    let told = outcome(rt.alloc(), text.as_bytes())?;
    assert_eq!(rt; told.as_str(), expected, "{}", text);
    Ok(())
}

#[test]
fn the_first_bad_line_is_told(rt: HostRuntime) -> Result<(), Fail> {
    ends(&rt, "answer 5 100\nanswer 5 100", "done")?;
    ends(&rt, "\n", "line 1: refused by 9")?;
    ends(&rt, "answer 5 100\n\n", "line 2: refused by 9")?;
    ends(
        &rt,
        "answer 5 100\nanswer 5 71\nx\n",
        "line 2: refused by 10",
    )?;
    ends(&rt, "x\nanswer 5 71\n", "line 1: refused by 9")?;
    ends(&rt, "answer 5 100\r\n", "line 1: refused by 9")?;
    ends(&rt, "\nanswer 5 100\n", "line 1: refused by 9")
}

#[test]
fn no_telegrams_are_an_end_word(rt: HostRuntime) -> Result<(), Fail> {
    let bytes = send(rt.alloc(), b"")?;
    assert_eq!(rt; bytes.as_slice(), [0, 0, 0, 0x80].as_slice());
    Ok(())
}

// The row 0000001 has twelve pulses: one for each bit, and one between each two that are equal.
#[test]
fn an_answer_in_words(rt: HostRuntime) -> Result<(), Fail> {
    let words = send(rt.alloc(), b"answer 0 4000")?;
    let bytes = words.as_slice();
    assert!(rt; bytes.len() == 100);
    assert_eq!(rt; &bytes[0..8], [0xa0, 0x0f, 0, 0x40, 24, 0, 0, 0].as_slice());
    assert_eq!(rt;
        &bytes[92..100],
        [0xa0, 0x0f, 0, 0, 24, 0, 0, 0x80].as_slice()
    );
    Ok(())
}

#[test]
fn text_at_its_longest(rt: HostRuntime) -> Result<(), Fail> {
    let mut text = [b'\n'; 65537];
    let told = outcome(rt.alloc(), &text)?;
    assert_eq!(rt; told.as_str(), "input longer than 65536 bytes");
    text[0] = b'x';
    let told = outcome(rt.alloc(), &text[0..65536])?;
    assert_eq!(rt; told.as_str(), "line 1: refused by 9");
    Ok(())
}
