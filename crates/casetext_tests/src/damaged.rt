// Tables of damaged texts with the refusal of each, and texts too long for a table.
// A row is a text, the line of its refusal, and what is wrong with it. Where an entry is refused, the cause and the place stand before the line.
use crate::seen::*;
use std::process::Abort;

fn all_unread(rt: &impl Abort, cause: u8, table: &[(&[u8], u32, &str)]) {
    for (text, line, what) in table {
        assert!(rt; unread(text, cause, *line), "{what}");
    }
}

fn all_unentered(rt: &impl Abort, table: &[(&[u8], u8, u32, u32, &str)]) {
    for (text, cause, place, line, what) in table {
        assert!(rt; unentered(text, *cause, *place, *line), "{what}");
    }
}

const ENDS: [(&[u8], u32, &str); 9] = [
    (b"", 1, "empty"),
    (b"events 0\n", 2, "no count of ties"),
    (b"events 0\nties 0", 2, "no last newline"),
    (b"events 1\nties 0\n", 2, "a missing event line"),
    (b"events 0\nties 1\n", 3, "a missing tie line"),
    (b"events 0\nties 0\n\n", 3, "an empty line behind the end"),
    (b"events 0\nties 0\n ", 3, "a space behind the end"),
    (b"events 0\nW 1 once 1\nties 0\n", 2, "an extra event line"),
    (b"ties 0\nevents 0\n", 1, "sections swapped"),
];

#[test]
fn ends(rt: HostRuntime) {
    all_unread(&rt, 13, &ENDS);
}

const FIELDS: [(&[u8], u32, &str); 9] = [
    (b"events  0\nties 0\n", 1, "two spaces"),
    (b"events 0 \nties 0\n", 1, "a trailing space"),
    (b" events 0\nties 0\n", 1, "a space in front"),
    (b"events\t0\nties 0\n", 1, "a tab"),
    (b"events 0\r\nties 0\r\n", 1, "a carriage return"),
    (b"events \x80\nties 0\n", 1, "a byte above 127"),
    (b"events 0\xff\nties 0\n", 1, "byte 255"),
    (b"events 0\0\nties 0\n", 1, "a zero byte"),
    (b"events\nties 0\n", 1, "no number"),
];

#[test]
fn fields(rt: HostRuntime) {
    all_unread(&rt, 13, &FIELDS);
}

const NUMBERS: [(&[u8], u32, &str); 7] = [
    (b"events 00\nties 0\n", 1, "two zeros"),
    (b"events 01\nW 1 once 1\nties 0\n", 1, "a leading zero"),
    (b"events 100000\nties 0\n", 1, "six digits"),
    (b"events 000000\nties 0\n", 1, "six zeros"),
    (b"events +0\nties 0\n", 1, "a plus"),
    (b"events -0\nties 0\n", 1, "a minus"),
    (b"events 99999\nties 0\n", 2, "five digits"),
];

#[test]
fn numbers(rt: HostRuntime) {
    all_unread(&rt, 13, &NUMBERS);
}

const WORDS: [(&[u8], u32, &str); 10] = [
    (b"event 0\nties 0\n", 1, "an unknown word"),
    (b"Events 0\nties 0\n", 1, "a large letter"),
    (b"events 1\nX 1 once 1\nties 0\n", 2, "an unknown letter"),
    (b"events 1\nW 1 twice 1\nties 0\n", 2, "an unknown mark"),
    (
        b"events 1\nR 1 release 1\nties 0\n",
        2,
        "a mark of W behind R",
    ),
    (
        b"events 1\nW 1 acquire 1\nties 0\n",
        2,
        "a mark of R behind W",
    ),
    (b"events 1\nF 1 once\nties 0\n", 2, "a mark of W behind F"),
    (b"events 1\nF 1 mb 0\nties 0\n", 2, "a place behind a fence"),
    (
        b"events 1\nW 1 once\nties 0\n",
        2,
        "no place behind a write",
    ),
    (b"events 0\nties 1\npo 0 1\n", 3, "an unknown relation"),
];

#[test]
fn words(rt: HostRuntime) {
    all_unread(&rt, 13, &WORDS);
}

const ORDER: [(&[u8], u32, &str); 2] = [
    (
        b"events 3\nW 0 once 1\nW 1 once 1\nR 2 once 1\nties 2\nco 0 1\nrf 1 2\n",
        7,
        "ties out of order",
    ),
    (
        b"events 3\nW 0 once 1\nW 1 once 1\nR 2 once 1\nties 2\nrf 1 2\nrf 1 2\n",
        7,
        "a repeated tie",
    ),
];

#[test]
fn order(rt: HostRuntime) {
    all_unread(&rt, 14, &ORDER);
}

const ENTRIES: [(&[u8], u8, u32, u32, &str); 10] = [
    (b"events 1\nW 9 once 1\nties 0\n", 3, 0, 2, "thread 9"),
    (b"events 1\nW 1 once 17\nties 0\n", 3, 0, 2, "place 17"),
    (b"events 1\nW 257 once 1\nties 0\n", 3, 0, 2, "thread 257"),
    (b"events 1\nW 300 once 1\nties 0\n", 3, 0, 2, "thread 300"),
    (b"events 1\nW 1 once 257\nties 0\n", 3, 0, 2, "place 257"),
    (
        b"events 1\nR 0 once 1\nties 0\n",
        3,
        0,
        2,
        "a read in thread 0",
    ),
    (
        b"events 1\nW 0 once 1\nties 1\nrf 0 99999\n",
        4,
        99999,
        4,
        "event 99999",
    ),
    (
        b"events 1\nW 0 once 1\nties 1\nrf 256 0\n",
        4,
        256,
        4,
        "event 256",
    ),
    (
        b"events 1\nW 0 once 1\nties 1\nrf 0 0\n",
        6,
        0,
        4,
        "a tie that does not fit",
    ),
    (
        b"events 3\nW 0 once 1\nW 1 once 1\nR 2 once 1\nties 2\nrf 0 2\nrf 1 2\n",
        7,
        2,
        7,
        "a second rf tie",
    ),
];

#[test]
fn entries(rt: HostRuntime) {
    all_unentered(&rt, &ENTRIES);
}

#[test]
fn many(rt: HostRuntime) {
    let mut buffer = [0u8; 1000];
    let length = writes(&mut buffer, b"events 65\n", 65);
    assert!(rt; length <= 1000);
    assert!(rt; unentered(&buffer[0..length], 2, 64, 66), "65 events");
}

const LATER_LINES: [(&[u8], u32, &str); 4] = [
    (b"events 0\nties 0\nrf 0 0\n", 3, "an extra tie line"),
    (
        b"events 1\nW 01 once 1\nties 0\n",
        2,
        "a leading zero in a thread",
    ),
    (
        b"events 1\nW 1 once 100001\nties 0\n",
        2,
        "six digits in a place",
    ),
    (b"events 0\nties 1\nrf 0 +1\n", 3, "a sign in a tie"),
];

#[test]
fn later_lines(rt: HostRuntime) {
    all_unread(&rt, 13, &LATER_LINES);
}

#[test]
fn long(rt: HostRuntime) {
    let mut buffer = [b'0'; LONG];
    assert!(rt; unread(&buffer, 13, 1), "one line that does not end");
    buffer[LONG - 1] = b'\n';
    assert!(rt; unread(&buffer, 13, 1), "one long line");
    append(&mut buffer, 0, b"events 1");
    assert!(rt; unread(&buffer, 13, 1), "a count of very many digits");
    append(&mut buffer, 0, b"events 0\nties 0\n");
    assert!(rt; unread(&buffer, 13, 3), "a long line behind the end");
    assert!(rt; unread(&buffer[0..65536], 13, 3), "65,536 bytes");
    assert!(rt; is_read(&buffer[0..16]), "the text in front of them");
}

#[test]
fn blank_lines(rt: HostRuntime) {
    let mut buffer = [b'\n'; LONG];
    assert!(rt; unread(&buffer, 13, 1), "nothing but ends of lines");
    append(&mut buffer, 0, b"events 0\nties 0\n");
    assert!(rt; unread(&buffer, 13, 3), "very many lines behind the end");
}

// Longer than any text of a case.
const LONG: usize = 70000;

// A text with so many writes and no tie, behind a first line; its length.
fn writes(buffer: &mut [u8], first: &[u8], count: usize) -> usize {
    let mut at = append(buffer, 0, first);
    for _ in 0..count {
        at = append(buffer, at, b"W 1 once 1\n");
    }
    append(buffer, at, b"ties 0\n")
}

// Copies bytes to a place of a buffer as far as it goes, and answers the place behind them.
fn append(buffer: &mut [u8], at: usize, bytes: &[u8]) -> usize {
    for (to, from) in buffer.iter_mut().skip(at).zip(bytes) {
        *to = *from;
    }
    at.wrapping_add(bytes.len())
}
