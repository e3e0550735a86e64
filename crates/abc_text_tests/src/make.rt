//! A made input, and what is said of the replies to it.
use abc_make::{Tally, input_of, summary_of};
use std::test::Fail;

#[test]
fn three_values_are_put(rt: HostRuntime) -> Result<(), Fail> {
    let wanted =
        b"PUT {} IN t\nHOW TO RETURN half n: RETURN floor (n/2)\nPUT half 1 IN t[1 mod 64]\nPUT half 2 IN t[2 mod 64]\nPUT half 3 IN t[3 mod 64]\nWRITE #t\n";
    let input = input_of(rt.alloc(), 3).expect(&rt, "memory");
    assert!(rt; input.as_slice() == wanted.as_slice());
    Ok(())
}

#[test]
fn replies_are_counted(rt: HostRuntime) -> Result<(), Fail> {
    let mut tally = Tally::new();
    tally.add(b"[1] ok\n");
    tally.add(b"[2] unit RETURN half _\n");
    tally.add(b"[3] ok\n");
    tally.add(b"[4] ok\n");
    tally.add(b"[5] ok\n");
    tally.add(b"3\n[6] ok\n");
    let summary = summary_of(rt.alloc(), 3, &tally).expect(&rt, "memory");
    assert!(rt;
        summary.as_slice()
            == b"made 3: items 6, ok 5, units 1, faults 0, said 60 bytes\n".as_slice()
    );
    Ok(())
}

#[test]
fn the_line_that_ends_a_reply_counts(rt: HostRuntime) -> Result<(), Fail> {
    let mut tally = Tally::new();
    tally.add(b"[1] unit F\n[1] fault line 1: TypeFault\n");
    tally.add(b"unit\n\n[2] unit G waits for H\n");
    let summary = summary_of(rt.alloc(), 1, &tally).expect(&rt, "memory");
    assert!(rt;
        summary.as_slice()
            == b"made 1: items 2, ok 0, units 1, faults 1, said 68 bytes\n".as_slice()
    );
    Ok(())
}
