//! Words that are read, and words that are not.
use abc_words::{Request, WordsFault, read_words};
use std::alloc::Global;
use std::test::Fail;

/// Whether these words ask for nothing.
fn are_refused(alloc: Global, words: &[&str]) -> bool {
    read_words(alloc, words) == Err(WordsFault::Usage)
}

/// Whether these words ask for this.
fn ask(alloc: Global, words: &[&str], wanted: &Request) -> bool {
    match read_words(alloc, words) {
        Ok(request) => request == *wanted,
        Err(_) => false,
    }
}

#[test]
fn words_that_are_read(rt: HostRuntime) -> Result<(), Fail> {
    let alloc = rt.alloc();
    let plain = Request::Run {
        store: "s",
        input: None,
        steps: 10_000_000,
    };
    assert!(rt; ask(alloc, &["s"], &plain));
    let whole = Request::Run {
        store: "s",
        input: Some("f"),
        steps: 5,
    };
    assert!(rt; ask(alloc, &["s", "--from", "f", "--steps", "5"], &whole));
    assert!(rt; ask(alloc, &["--steps=5", "--from=f", "s"], &whole));
    let made = Request::Make {
        count: 3,
        steps: 10_000_000,
    };
    assert!(rt; ask(alloc, &["--make", "3"], &made));
    Ok(())
}

#[test]
fn words_that_are_refused(rt: HostRuntime) -> Result<(), Fail> {
    let alloc = rt.alloc();
    assert!(rt; are_refused(alloc, &[]));
    assert!(rt; are_refused(alloc, &["s", "t"]));
    assert!(rt; are_refused(alloc, &["s", "--steps"]));
    assert!(rt; are_refused(alloc, &["s", "--steps", "0"]));
    assert!(rt; are_refused(alloc, &["s", "--steps", "+5"]));
    assert!(rt; are_refused(alloc, &["s", "--steps", "1", "--steps", "2"]));
    assert!(rt; are_refused(alloc, &["s", "--make", "3"]));
    assert!(rt; are_refused(alloc, &["--from", "f"]));
    assert!(rt; are_refused(alloc, &["s", "--other"]));
    assert!(rt; are_refused(alloc, &["--make", "10001"]));
    assert!(rt; are_refused(alloc, &["--help"]));
    Ok(())
}
