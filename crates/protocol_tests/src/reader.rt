use crate::making::has_text;
use containers::Bytes;
use resp_read::{Limits, ReadError, Reader};
use resp_value::{PushKind, Value};
use std::alloc::{AllocError, Global};
use std::test::Fail;

/// Whether the answer is the value of that canonical text, or `none` or `parse`.
fn is_answer(
    alloc: Global,
    answer: &Result<Option<Value>, ReadError>,
    want: &str,
) -> Result<bool, AllocError> {
    match answer {
        Ok(Some(value)) => has_text(alloc, value, want.as_bytes()),
        Ok(None) => Ok(want == "none"),
        Err(ReadError::Parse) => Ok(want == "parse"),
        Err(ReadError::NoMemory) => Ok(false),
    }
}

/// Whether the next answer is that, and whether the reader says so afterwards.
fn answers(alloc: Global, reader: &mut Reader, want: &str) -> Result<bool, AllocError> {
    let answer = reader.next_value(alloc);
    let is_so = is_answer(alloc, &answer, want);
    drop(answer);
    Ok(is_so? && reader.is_malformed() == (want == "parse"))
}

/// Whether a piece more has that answer.
fn is_fed(
    alloc: Global,
    reader: &mut Reader,
    piece: &[u8],
    want: &str,
) -> Result<bool, AllocError> {
    reader.feed(piece)?;
    answers(alloc, reader, want)
}

/// Whether there is nothing more behind that answer.
fn ends(alloc: Global, reader: &mut Reader, want: &str) -> Result<bool, AllocError> {
    let after = if want == "parse" { "parse" } else { "none" };
    answers(alloc, reader, after)
}

/// Feeds two pieces. The answer comes with the first.
fn is_read_early(
    alloc: Global,
    reader: &mut Reader,
    pieces: (&[u8], &[u8]),
    want: &str,
) -> Result<bool, AllocError> {
    let early = is_fed(alloc, reader, pieces.0, want)?;
    reader.feed(pieces.1)?;
    Ok(early && ends(alloc, reader, want)?)
}

/// Feeds two pieces. The answer comes with the second, and none before.
fn is_read_late(
    alloc: Global,
    reader: &mut Reader,
    pieces: (&[u8], &[u8]),
    want: &str,
) -> Result<bool, AllocError> {
    let early = is_fed(alloc, reader, pieces.0, "none")?;
    let late = is_fed(alloc, reader, pieces.1, want)?;
    Ok(early && late && ends(alloc, reader, want)?)
}

/// Feeds the text in two pieces. The answer comes at byte `at`, and none before.
fn is_read(
    alloc: Global,
    text: &[u8],
    cut: usize,
    at: usize,
    want: &str,
) -> Result<bool, AllocError> {
    let pieces = text.split_at(cut.min(text.len()));
    let mut reader = Reader::new(alloc);
    if cut < at {
        is_read_late(alloc, &mut reader, pieces, want)
    } else {
        is_read_early(alloc, &mut reader, pieces, want)
    }
}

/// Feeds each byte to a reader. The answer comes at the last one, and none before.
fn takes_bytes(
    alloc: Global,
    reader: &mut Reader,
    text: &[u8],
    want: &str,
) -> Result<bool, AllocError> {
    for (i, byte) in text.iter().enumerate() {
        let due = if i + 1 == text.len() { want } else { "none" };
        if !is_fed(alloc, reader, [*byte].as_slice(), due)? {
            return Ok(false);
        }
    }
    Ok(true)
}

/// Feeds the text byte by byte. The answer comes at the last one, and none before.
fn is_read_by_bytes(alloc: Global, text: &[u8], want: &str) -> Result<bool, AllocError> {
    let mut reader = Reader::new(alloc);
    takes_bytes(alloc, &mut reader, text, want)
}

/// Whether the text is read so, cut at every place, and byte by byte. The answer comes at its last byte.
fn is_read_cut(alloc: Global, text: &str, want: &str) -> Result<bool, AllocError> {
    for cut in 0..text.len() + 1 {
        if !is_read(alloc, text.as_bytes(), cut, text.len(), want)? {
            return Ok(false);
        }
    }
    is_read_by_bytes(alloc, text.as_bytes(), want)
}

/// The first of some texts that isn't read so.
fn first_misread<'a>(
    alloc: Global,
    texts: &[&'a str],
    want: &str,
) -> Result<Option<&'a str>, AllocError> {
    for text in texts {
        if !is_read_cut(alloc, text, want)? {
            return Ok(Some(*text));
        }
    }
    Ok(None)
}

/// The first of some texts that isn't read as the canonical text beside it, or whose canonical text isn't read as itself.
fn first_other<'a>(alloc: Global, rows: &[(&'a str, &str)]) -> Result<Option<&'a str>, AllocError> {
    for (text, want) in rows {
        if !is_read_cut(alloc, text, want)? || !is_read_cut(alloc, want, want)? {
            return Ok(Some(*text));
        }
    }
    Ok(None)
}

/// Texts of the public page of the protocol, each its own canonical text.
const EXAMPLES: [&str; 27] = [
    "+OK\r\n",
    "-Error message\r\n",
    "-ERR unknown command 'asdf'\r\n",
    "-WRONGTYPE Operation against a key holding the wrong kind of value\r\n",
    ":0\r\n",
    ":1000\r\n",
    "$5\r\nhello\r\n",
    "$0\r\n\r\n",
    "*0\r\n",
    "*2\r\n$5\r\nhello\r\n$5\r\nworld\r\n",
    "*3\r\n:1\r\n:2\r\n:3\r\n",
    "*5\r\n:1\r\n:2\r\n:3\r\n:4\r\n$5\r\nhello\r\n",
    "*2\r\n*3\r\n:1\r\n:2\r\n:3\r\n*2\r\n+Hello\r\n-World\r\n",
    "_\r\n",
    "#t\r\n",
    "#f\r\n",
    ",1.23\r\n",
    ",10\r\n",
    ",inf\r\n",
    ",-inf\r\n",
    ",nan\r\n",
    "(3492890328409238509324850943850943825024385\r\n",
    "=15\r\ntxt:Some string\r\n",
    "%2\r\n+first\r\n:1\r\n+second\r\n:2\r\n",
    "~5\r\n+orange\r\n+apple\r\n#t\r\n:100\r\n:999\r\n",
    "|1\r\n+key-popularity\r\n%2\r\n$1\r\na\r\n,0.1923\r\n$1\r\nb\r\n,0.0012\r\n*2\r\n:2039123\r\n:9543892\r\n",
    "*3\r\n:1\r\n:2\r\n|1\r\n+ttl\r\n:3600\r\n:3\r\n",
];

/// Texts of that page whose canonical text is another.
const OTHER_SPELLINGS: [(&str, &str); 5] = [
    (
        ">4\r\n+pubsub\r\n+message\r\n+somechannel\r\n+this is the message\r\n",
        ">4\r\n$6\r\npubsub\r\n+message\r\n+somechannel\r\n+this is the message\r\n",
    ),
    ("$-1\r\n", "_\r\n"),
    ("*-1\r\n", "_\r\n"),
    (
        "*3\r\n$5\r\nhello\r\n$-1\r\n$5\r\nworld\r\n",
        "*3\r\n$5\r\nhello\r\n_\r\n$5\r\nworld\r\n",
    ),
    (
        "!21\r\nSYNTAX invalid syntax\r\n",
        "-SYNTAX invalid syntax\r\n",
    ),
];

#[test]
fn reads_the_examples_of_the_protocol_page(rt: HostRuntime) -> Result<(), Fail> {
    for text in &EXAMPLES {
        assert!(rt; is_read_cut(rt.alloc(), text, text)?, "{text:?}");
    }
    Ok(())
}

#[test]
fn reads_other_spellings_of_that_page(rt: HostRuntime) -> Result<(), Fail> {
    assert_eq!(rt; first_other(rt.alloc(), &OTHER_SPELLINGS)?, None);
    Ok(())
}

/// Texts and their canonical texts.
const FORMS: [(&str, &str); 32] = [
    (">1\r\n+OK\r\n", ">1\r\n$2\r\nOK\r\n"),
    (
        ">3\r\n$9\r\nsubscribe\r\n$1\r\na\r\n:1\r\n",
        ">3\r\n$9\r\nsubscribe\r\n$1\r\na\r\n:1\r\n",
    ),
    (">02\r\n+message\r\n:1\r\n", ">2\r\n$7\r\nmessage\r\n:1\r\n"),
    (
        ">1\r\n$13\r\ndisconnection\r\n",
        ">1\r\n$13\r\ndisconnection\r\n",
    ),
    ("|0\r\n>1\r\n$0\r\n\r\n", "|0\r\n>1\r\n$0\r\n\r\n"),
    ("+\r\n", "+\r\n"),
    ("+OK \r\n", "+OK \r\n"),
    ("+a\nb\r\n", "+a\nb\r\n"),
    ("-LOADING\r\n", "-LOADING\r\n"),
    ("-ERR x y\r\n", "-ERR x y\r\n"),
    ("- \r\n", "- \r\n"),
    (":+007\r\n", ":7\r\n"),
    (":-1\r\n", ":-1\r\n"),
    (":9223372036854775807\r\n", ":9223372036854775807\r\n"),
    (":-9223372036854775808\r\n", ":-9223372036854775808\r\n"),
    ("$003\r\nfoo\r\n", "$3\r\nfoo\r\n"),
    ("$2\r\n\r\n\r\n", "$2\r\n\r\n\r\n"),
    (",+1\r\n", ",+1\r\n"),
    (",-1.5e+10\r\n", ",-1.5e+10\r\n"),
    (",007.50E-7\r\n", ",007.50E-7\r\n"),
    (",1e5\r\n", ",1e5\r\n"),
    ("(-5\r\n", "(-5\r\n"),
    ("(+05\r\n", "(+05\r\n"),
    ("!0\r\n\r\n", "-\r\n"),
    ("!5\r\na\r\nb \r\n", "!5\r\na\r\nb \r\n"),
    ("=4\r\nmkd:\r\n", "=4\r\nmkd:\r\n"),
    ("=007\r\n\r\n\r:\n:\r\r\n", "=7\r\n\r\n\r:\n:\r\r\n"),
    ("*01\r\n*-1\r\n", "*1\r\n_\r\n"),
    ("%0\r\n", "%0\r\n"),
    (
        "%1\r\n%1\r\n_\r\n_\r\n*0\r\n",
        "%1\r\n%1\r\n_\r\n_\r\n*0\r\n",
    ),
    ("~0\r\n", "~0\r\n"),
    ("|0\r\n-A b\r\n", "|0\r\n-A b\r\n"),
];

#[test]
fn reads_each_form_cut_anywhere(rt: HostRuntime) -> Result<(), Fail> {
    assert_eq!(rt; first_other(rt.alloc(), &FORMS)?, None);
    Ok(())
}

/// Fronts of no value, each by its last byte.
const REFUSED: [&str; 88] = [
    ">?",
    ">-",
    ">0\r",
    ">00x",
    ">1\r\n:",
    ">1\r\n$-",
    ">1\r\n*",
    ">2147483648",
    ">2\r\n+a\r\n?",
    "?",
    "\r",
    "+a\rb",
    "-a\rb",
    ":\r",
    ":+\r",
    ":+-",
    ":12a",
    ":9223372036854775808",
    ":-9223372036854775809",
    "$-2",
    "$-1x",
    "$+",
    "$?",
    "$\r",
    "$3\r\nfooo",
    "$3\r\nfoo\rx",
    "$536870913",
    "_x",
    "_\rx",
    "#T",
    "#tt",
    "#\r",
    ",+i",
    ",-n",
    ",infx",
    ",in\r",
    ",i\r",
    ",.",
    ",1.\r",
    ",1.e",
    ",1e\r",
    ",1e+x",
    ",1e+\r",
    ",1e1.",
    ",\r",
    ",N",
    ",1.2.",
    ",--",
    ",nana",
    "(\r",
    "(-\r",
    "(1.",
    "(12a",
    "(--",
    "!-",
    "!?",
    "!3\r\nabcd",
    "!536870913",
    "=-",
    "=?",
    "=3\r",
    "=03\r",
    "=03x",
    "=4\r\ntxt;",
    "=5\r\ntxt:ab",
    "=\r",
    "=536870913",
    "*-2",
    "*-1x",
    "*+",
    "*?",
    "*\r",
    "*1\r\n?",
    "*2\r\n:1\r\n:x",
    "*2147483648",
    "%-",
    "%?",
    "%1\r\n+a\r\n?",
    "%2147483648",
    "~-",
    "~?",
    "~1\r\n!-",
    "~2147483648",
    "|-",
    "|?",
    "|1\r\n+a\r\n#x",
    "|0\r\n?",
    "|2147483648",
];

#[test]
fn refuses_at_the_first_byte_that_shows_it(rt: HostRuntime) -> Result<(), Fail> {
    assert_eq!(rt; first_misread(rt.alloc(), &REFUSED, "parse")?, None);
    Ok(())
}

/// Fronts of values.
const SHORT: [&str; 13] = [
    ">0",
    ">1\r\n",
    ">2147483647\r\n+a\r\n:1\r\n",
    "$536870912\r\nx",
    "!536870912\r\nx",
    "=536870912\r\ntxt:",
    "=000",
    "*2147483647\r\n:1\r\n",
    "%2147483647\r\n:1\r\n:2\r\n",
    "~2147483647\r\n:1\r\n",
    "|2147483647\r\n:1\r\n",
    "|0\r\n",
    "*1\r\n*1\r\n",
];

#[test]
fn waits_for_what_was_announced(rt: HostRuntime) -> Result<(), Fail> {
    assert_eq!(rt; first_misread(rt.alloc(), &SHORT, "none")?, None);
    Ok(())
}

/// Whether the answer comes behind all of these pieces.
fn is_fed_whole(
    alloc: Global,
    reader: &mut Reader,
    pieces: &[&[u8]],
    want: &str,
) -> Result<bool, AllocError> {
    for piece in pieces {
        reader.feed(piece)?;
    }
    answers(alloc, reader, want)
}

/// A mark, so many equal bytes, and an end.
fn is_long_read(
    alloc: Global,
    mark: u8,
    count: usize,
    byte: u8,
    end: &str,
    want: &str,
) -> Result<bool, AllocError> {
    let mut text = Vec::new(alloc);
    text.resize(count, byte)?;
    let mut reader = Reader::new(alloc);
    is_fed_whole(
        alloc,
        &mut reader,
        &[&[mark], text.as_slice(), end.as_bytes()],
        want,
    )
}

/// A mark, so many equal bytes, and an end; and the answer.
const LONG: [(u8, usize, u8, &str, &str); 19] = [
    (b'>', 1_048_575, b'0', "1\r\n+a\r\n", ">1\r\n$1\r\na\r\n"),
    (b'>', 1_048_576, b'0', "", "parse"),
    (b':', 1_048_576, b'0', "\r\n", ":0\r\n"),
    (b':', 1_048_576, b'0', "1", "parse"),
    (b'+', 1_048_576, b'a', "", "none"),
    (b'+', 1_048_576, b'a', "a", "parse"),
    (b'$', 1_048_575, b'0', "1\r\nx\r\n", "$1\r\nx\r\n"),
    (b'$', 1_048_576, b'0', "1", "parse"),
    (b',', 1_048_576, b'1', "\r", "none"),
    (b',', 1_048_576, b'1', "1", "parse"),
    (b',', 1_048_574, b'1', ".", "none"),
    (b',', 1_048_575, b'1', ".", "parse"),
    (b'(', 1_048_576, b'1', "", "none"),
    (b'(', 1_048_576, b'1', "1", "parse"),
    (b'!', 1_048_576, b'0', "\r\n\r\n", "-\r\n"),
    (b'=', 1_048_575, b'0', "4\r\ntxt:\r\n", "=4\r\ntxt:\r\n"),
    (b'=', 1_048_576, b'0', "", "parse"),
    (b'*', 1_048_576, b'0', "\r\n", "*0\r\n"),
    (b'*', 1_048_576, b'0', "0", "parse"),
];

#[test]
fn reads_lines_up_to_the_limit(rt: HostRuntime) -> Result<(), Fail> {
    for (mark, count, byte, end, want) in &LONG {
        let is_so = is_long_read(rt.alloc(), *mark, *count, *byte, end, want)?;
        assert!(rt; is_so, "{mark} and {count} times {byte}, then {end:?}");
    }
    Ok(())
}

/// One piece so many times, and an end. The canonical text is the pieces and `shown`.
fn is_deep_read(
    alloc: Global,
    piece: &str,
    count: usize,
    end: &str,
    shown: &str,
) -> Result<bool, AllocError> {
    let mut text = String::new(alloc);
    let mut want = String::new(alloc);
    for _ in 0..count {
        text.push_str(piece)?;
        want.push_str(piece)?;
    }
    text.push_str(end)?;
    want.push_str(shown)?;
    let want = if shown == "parse" {
        shown
    } else {
        want.as_str()
    };
    is_read(alloc, text.as_bytes(), 7, text.len(), want)
}

/// One piece so many times, and an end; and what is shown behind the pieces, or `parse`.
const DEEP: [(&str, usize, &str, &str); 14] = [
    (
        ">2\r\n$1\r\na\r\n",
        99,
        ">1\r\n$1\r\nb\r\n",
        ">1\r\n$1\r\nb\r\n",
    ),
    (">2\r\n$1\r\na\r\n", 100, ">", "parse"),
    ("*1\r\n", 100, ":1\r\n", ":1\r\n"),
    ("*1\r\n", 100, "*-1\r\n", "_\r\n"),
    ("*1\r\n", 100, "*-2", "parse"),
    ("*1\r\n", 100, "*1", "parse"),
    ("*1\r\n", 99, "*0\r\n", "*0\r\n"),
    ("*1\r\n", 100, "*0", "parse"),
    ("~1\r\n", 99, "~0\r\n", "~0\r\n"),
    ("~1\r\n", 100, "~", "parse"),
    ("%1\r\n+a\r\n", 99, "%0\r\n", "%0\r\n"),
    ("%1\r\n+a\r\n", 100, "%", "parse"),
    ("|0\r\n", 100, ":1\r\n", ":1\r\n"),
    ("|0\r\n", 100, "|", "parse"),
];

#[test]
fn reads_aggregates_up_to_the_depth(rt: HostRuntime) -> Result<(), Fail> {
    for (piece, count, end, shown) in &DEEP {
        let is_so = is_deep_read(rt.alloc(), piece, *count, end, shown)?;
        assert!(rt; is_so, "{count} times {piece:?}, then {end:?}");
    }
    Ok(())
}

fn is_read_within(
    alloc: Global,
    limits: Limits,
    text: &str,
    want: &str,
) -> Result<bool, AllocError> {
    let mut reader = Reader::with_limits(alloc, limits);
    is_fed(alloc, &mut reader, text.as_bytes(), want)
}

/// Texts, and the answer of a reader with the least limits and one aggregate: at each limit, and one past it.
const LEAST: [(&str, &str); 12] = [
    ("+0123456789abcdef0123456789abcdef", "none"),
    (
        "+0123456789abcdef0123456789abcdef\r\n",
        "+0123456789abcdef0123456789abcdef\r\n",
    ),
    ("+0123456789abcdef0123456789abcdef0", "parse"),
    ("$64\r\n", "none"),
    ("$65", "parse"),
    ("!64\r\n", "none"),
    ("!65", "parse"),
    ("*16\r\n", "none"),
    ("*17", "parse"),
    ("%17", "parse"),
    ("*1\r\n:1\r\n", "*1\r\n:1\r\n"),
    ("*1\r\n*0", "parse"),
];

#[test]
fn refuses_what_is_beyond_its_limits(rt: HostRuntime) -> Result<(), Fail> {
    let least = Limits {
        line: 0,
        bulk: 0,
        count: 0,
        depth: 1,
    };
    for (text, want) in &LEAST {
        let is_so = is_read_within(rt.alloc(), least, text, want)?;
        assert!(rt; is_so, "{text:?}");
    }
    Ok(())
}

/// Kinds of pushes by their texts, and whether they have a reply.
const KINDS: [(&[u8], bool); 12] = [
    (b"invalidate", false),
    (b"message", false),
    (b"pmessage", false),
    (b"smessage", false),
    (b"unsubscribe", true),
    (b"punsubscribe", true),
    (b"sunsubscribe", true),
    (b"subscribe", true),
    (b"psubscribe", true),
    (b"ssubscribe", true),
    (b"disconnection", false),
    (b"Subscribe", false),
];

/// Whether the kind of a text has a reply.
fn has_reply(alloc: Global, text: &[u8]) -> Result<bool, AllocError> {
    let kind = PushKind::of_text(Bytes::from_slice(alloc, text)?);
    let has_reply = kind.has_reply();
    drop(kind);
    Ok(has_reply)
}

#[test]
fn six_kinds_have_a_reply(rt: HostRuntime) -> Result<(), AllocError> {
    for (text, wanted) in &KINDS {
        assert!(rt; has_reply(rt.alloc(), text)? == *wanted);
    }
    Ok(())
}
