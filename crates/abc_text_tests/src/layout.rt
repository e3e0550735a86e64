//! Inputs cut into items as an independent program cuts them, and items at the bounds.
use abc_layout::*;
use std::alloc::{AllocError, Global};
use std::test::Fail;

/// Lines, and their items: for each line its indentation and the length of its text.
const ROWS: [(&[u8], &str); 16] = [
    (
        b"-:REPORT calc2 _\nIF 1 = 1:\n IF 1 = 1:\n  IF 1 = 1:\n   IF 1 = 1:\n    IF 1 = 1:",
        "0:16 0:9,1:9,2:9,3:9,4:9",
    ),
    (
        b"DELETE w[n1]\nHOW TO RETURN g3 x0:\n  SHARE a, n1, s\n  SHARE u\n  PUT 3 IN y1\n  PART4",
        "0:12 0:20,2:14,2:7,2:11,2:5",
    ),
    (
        b"  BAR:\n    IN: PASS\n  WRITE foo\n  bar:\n    PASS\nGO",
        "2:4,4:8,2:9,2:4,4:4 0:2",
    ),
    (
        b"  RETURN n1-y2\nHOW TO SHOW3:\n  SHARE c, m\n  HARE t, u\n  PASS\n  QUIT",
        "2:12 0:13,2:10,2:9,2:4,2:4",
    ),
    (
        b"IF 1 = 1:\n{}\nHOW TO RETURN x0 g1 x1:\n  SHARE b\n  SHARE l, s, t, u\n  WRITE t['~'] /",
        "0:9 0:2 0:23,2:7,2:16,2:14",
    ),
    (
        b"  PASS\n  PASS\n  PASS :\n  PASS\n  PASS\n  PASS",
        "2:4 2:4 2:6,2:4,2:4,2:4",
    ),
    (
        b"\t\n:NONE _\nHOW TO DO4:\n  SHARE c, w\n  PUT 3 IN y1\n  SELECT:",
        "0:7 0:11,2:10,2:11,2:7",
    ),
    (
        b"= a\n==\nHOW TO MOVE1 x0:\n PUT \"~\" IN y1\n WRITE r2 /\n IF q3: WRITE \"test\" /",
        "0:3 0:2 0:16,1:13,1:10,1:21",
    ),
    (
        b" WRITE //\n PUT 0 IN x0\n WHILE x0 < 5:\n   PUT x0+1 IN x0\n QUIT\n  \\ x",
        "1:8 1:11 1:13,3:14,1:4",
    ),
    (
        b"    PUT bar IN y\n  PUT 1 IN a\nIF ok: PASS\nHOW TO RETURN val:\n WRITE x y\n WRITE foo",
        "4:12 2:10 0:11 0:18,1:9,1:9",
    ),
    (
        b"DELETE z'[0.5]\nREAD v[b] RAW\n\ttab\nHOW TO RETURN is.ok2:\n  SHARE l, s\n  SHARE v",
        "0:14 0:13 8:3 0:21,2:10,2:7",
    ),
    (
        b"FAIL\nWRITE i\nGO 1\nHOW TO GO x:\n  CHECK bar\\x\n  IF foo: PASS",
        "0:4 0:7 0:4 0:12,2:11,2:12",
    ),
    (
        b"  IF 1 = 1:\n    FOO: PASS\nFOO x\n  PASS\n  WRITE x\n  bar: FAI",
        "2:9,4:9 0:5 2:4 2:7 2:8",
    ),
    (
        b"  PUT b+1 IN b\nINSERT s IN m\nHOW TO GO: P:ASS\nSHARE a, b\n1 = 1:\n IF 1 = 2:",
        "2:12 0:13 0:16 0:10 0:6,1:9",
    ),
    (
        b"  REPORT foo\n BAR\n PUT bar IN y\nIF ok 1: PASS\nHOW TO MOVE2x0:\n  SHARE b",
        "2:10 1:3 1:12 0:13 0:15,2:7",
    ),
    (
        b"  PASS\n  PASS\n  PASS\n  PASS\n  PASS\n  PASS",
        "2:4 2:4 2:4 2:4 2:4 2:4",
    ),
];

/// Items as a text, as they come out.
#[derive(Drop)]
struct Said {
    alloc: Global,
    text: String,
}

impl Said {
    fn add(&mut self, item: &ItemLines) -> Result<(), AllocError> {
        let mut separator = if self.text.is_empty() { "" } else { " " };
        for line in item.as_slice() {
            let indent = line.indent;
            let length = line.text.bytes().len();
            let shown = format!(in self.alloc; "{separator}{indent}:{length}")?;
            self.text.push_str(shown.as_str())?;
            separator = ",";
        }
        Ok(())
    }
}

/// Feeds a line, and once more where it was not taken. Gives out at most two items.
fn feed(splitter: &mut Splitter, said: &mut Said, line: &[u8]) -> Result<(), Fail> {
    if line.len() > 4_096 {
        return Ok(());
    }
    let fed = match splitter.feed_line(line, false)? {
        Fed::Before(item) => {
            said.add(&item)?;
            splitter.feed_line(line, false)?
        }
        fed => fed,
    };
    match fed {
        Fed::More => {}
        Fed::Whole(item) => said.add(&item)?,
        Fed::Before(_) => said.text.push_str(" twice")?,
    }
    Ok(())
}

// The items of an input. A line ends before its LF, and before a CR that stands there.
fn items_of(alloc: Global, input: &[u8]) -> Result<String, Fail> {
    let mut splitter = Splitter::new(alloc);
    let mut said = Said {
        alloc,
        text: String::new(alloc),
    };
    for line in input.split(|b| *b == b'\n') {
        let line = match line.split_last() {
            Some((b'\r', front)) => front,
            _ => line,
        };
        feed(&mut splitter, &mut said, line)?;
    }
    if let Some(item) = splitter.finish() {
        said.add(&item)?;
    }
    let Said { alloc: _, text } = said;
    Ok(text)
}

#[test]
fn inputs_are_cut_as_elsewhere(rt: HostRuntime) -> Result<(), Fail> {
    for (input, want) in ROWS {
        assert_eq!(rt; items_of(rt.alloc(), input)?.as_str(), want);
    }
    Ok(())
}

#[test]
fn a_last_line_needs_no_end(rt: HostRuntime) -> Result<(), Fail> {
    let rows: [(&[u8], &str); 8] = [
        (b"WRITE 1\nWRITE 2", "0:7 0:7"),
        (b"WRITE 1\r\nWRITE 2", "0:7 0:7"),
        (b"IF x:\r\n  PASS\r\n\r\nWRITE 1\r", "0:5,2:4 0:7"),
        (b"IF x:\n\n  PASS", "0:5,2:4"),
        (b" IF x:\n  PASS\n= x:\n\tPASS", "1:5,2:4 0:4 8:4"),
        (b"HOW TO X:\nPASS\nname:\n", "0:9 0:4 0:5"),
        (
            b"HOW TO X:\n PASS\nname:\n\\ a comment\n PASS",
            "0:9,1:4,0:5,1:4",
        ),
        (b"IF \"a:\n PASS", "0:6 1:4"),
    ];
    for (input, want) in rows {
        assert_eq!(rt; items_of(rt.alloc(), input)?.as_str(), want);
    }
    Ok(())
}

#[test]
fn a_long_line_of_spaces_is_an_item(rt: HostRuntime) -> Result<(), Fail> {
    let alloc = rt.alloc();
    let spaces = vec![in alloc; b' '; 4_096]?;
    assert_eq!(rt; spaces.len(), 4_096);
    let mut splitter = Splitter::new(alloc);
    assert!(rt; matches!(splitter.feed_line(&spaces, false)?, Fed::More));
    assert!(rt; splitter.finish().is_none());
    let Fed::Whole(item) = splitter.feed_line(&spaces, true)? else {
        panic!(rt; "no item")
    };
    assert!(rt;
        matches!(item.get(0), Some(line) if line.long && line.indent == 4_096 && line.text.bytes().is_empty())
    );
    Ok(())
}

#[test]
fn an_item_keeps_2001_lines(rt: HostRuntime) -> Result<(), Fail> {
    let alloc = rt.alloc();
    let mut splitter = Splitter::new(alloc);
    assert!(rt; matches!(splitter.feed_line(b"HOW TO WAIT:", false)?, Fed::More));
    for _ in 0..2_500u16 {
        assert!(rt; matches!(splitter.feed_line(b"  PASS", false)?, Fed::More));
    }
    let Fed::Before(item) = splitter.feed_line(b"WAIT", false)? else {
        panic!(rt; "no item")
    };
    assert_eq!(rt; item.len(), 2_001);
    whole_stays();
    Ok(())
}
