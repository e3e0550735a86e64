//! Inputs too long for a table, which tell by their time: many items over long units, and calls with a long list.
use crate::runs::{AMPLE, push_number, push_ok, ran};
use abc_session::COMPLETE;
use std::alloc::{AllocError, Global};
use std::test::Fail;

/// How many units there are, the lines below the heading of each, and the commands behind them.
const UNITS: u32 = 40;

const LINES: u32 = 1900;

const COMMANDS: u32 = 10_000;

/// What is read, and what is to be said to it.
#[derive(Drop)]
struct Script {
    input: Vec<u8>,
    said: Vec<u8>,
}

fn push_unit(script: &mut Script, k: u32) -> Result<(), AllocError> {
    script.input.extend_from_slice(b"HOW TO F")?;
    push_number(&mut script.input, k)?;
    script.input.extend_from_slice(b":\n")?;
    for _ in 0..LINES {
        script.input.extend_from_slice(b"  WRITE 1+1+1+1\n")?;
    }
    script.said.extend_from_slice(b"[")?;
    push_number(&mut script.said, k)?;
    script.said.extend_from_slice(b"] unit F")?;
    push_number(&mut script.said, k)?;
    script.said.push(b'\n')?;
    Ok(())
}

fn push_units(script: &mut Script) -> Result<(), AllocError> {
    for k in 1..=UNITS {
        push_unit(script, k)?;
    }
    Ok(())
}

fn push_commands(script: &mut Script) -> Result<(), AllocError> {
    for k in 1..=COMMANDS {
        script.input.extend_from_slice(b"WRITE 1\n")?;
        script.said.extend_from_slice(b"1\n")?;
        push_ok(&mut script.said, k.saturating_add(UNITS))?;
    }
    Ok(())
}

fn long_script(alloc: Global) -> Result<Script, AllocError> {
    let mut script = Script {
        input: Vec::new(alloc),
        said: Vec::new(alloc),
    };
    push_units(&mut script)?;
    push_commands(&mut script)?;
    Ok(script)
}

/// 76,000 lines of units, and 10,000 commands that call none of them: a session that went through all units at each command, or made
/// its checker anew, would take hours.
#[test]
fn commands_beside_long_units_are_quick(rt: HostRuntime) -> Result<(), Fail> {
    let script = long_script(rt.alloc())?;
    let left = ran(rt.alloc(), &[], &script.input, &AMPLE)?;
    assert_eq!(rt; left.status, COMPLETE);
    assert!(rt; left.said == script.said);
    Ok(())
}

/// 10,000 calls that each take a list of a million numbers: one that copied its elements would make 10^10 copies.
#[test]
fn calls_with_a_long_list_are_quick(rt: HostRuntime) -> Result<(), Fail> {
    let input =
        b"PUT {1..1000000} IN l\nHOW TO RETURN one x: RETURN x item 1\nFOR i IN {1..10000}: PUT one l IN a\nWRITE a\n";
    let left = ran(rt.alloc(), &[], input, &AMPLE)?;
    assert_eq!(rt; left.status, COMPLETE);
    assert_eq!(rt;
        left.said.as_slice(),
        "[1] ok\n[2] unit RETURN one _\n[3] ok\n1\n[4] ok\n".as_bytes()
    );
    Ok(())
}
