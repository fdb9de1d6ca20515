use crate::answers::page_line;
use std::test::Fail;

// 0, 1, 0, 1, ..: the longest packed run is full at 504 keys, and the next key stands alone behind it.
#[test]
fn alternating(rt: HostRuntime) -> Result<(), Fail> {
    let alloc = rt.alloc();
    let mut keys: Vec<u32> = (0..504u32).map(|i| i % 2).collect(alloc)?;
    let groups = "AA".repeat(alloc, 63)?;
    let mut page = format!(in alloc; "keys :017F{groups}")?;
    assert!(rt; page_line(alloc, 1, &keys)?.as_str() == page.as_str());
    keys.push(0)?;
    page.push_str("0200")?;
    assert!(rt; page_line(alloc, 1, &keys)?.as_str() == page.as_str());
    Ok(())
}
