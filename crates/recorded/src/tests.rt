use crate::{number, replay};
use std::io::{BufRead, BufReader};
use std::test::Fail;

// Each command asks for its last word. One of the three answers that were recorded is another.
#[test]
fn counts(rt: HostRuntime) -> Result<(), Fail> {
    let alloc = rt.alloc();
    let input: &[u8] = b"say 7\n= 7\nsay 8\n= 9\nsay 1 2\n= 2\n";
    let tally = replay(
        alloc,
        BufReader::new(alloc, input)?.lines(alloc),
        |command| Ok(String::from_str(alloc, command.split_whitespace().last().unwrap_or(""))?),
        |_command, _ours| Ok(()),
    )?;
    assert_eq!(rt; tally.to_string(alloc)?.as_str(), "2 of 3");
    Ok(())
}

#[test]
fn numbers(rt: HostRuntime) -> Result<(), Fail> {
    assert_eq!(rt; number::<u32>("4294967295"), 4294967295);
    assert_eq!(rt; number::<u32>("4294967296"), 0);
    assert_eq!(rt; number::<i64>("-5"), -5);
    Ok(())
}
