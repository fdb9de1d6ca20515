use crate::{
    Complaint, Hex, RequestError, Spaced, Wrong, push_hex, push_number, push_numbers, read_request,
};
use std::test::Fail;

#[test]
fn reads_and_writes(rt: HostRuntime) -> Result<(), Fail> {
    let request = read_request(rt.alloc(), b"page 8 3 :01FF02\nentries 2")?;
    let mut text = String::new(rt.alloc());
    push_number(&mut text, request.count)?;
    text.push_str(" :")?;
    push_hex(&mut text, request.bytes.as_slice())?;
    push_numbers(&mut text, &[0, 4294967295])?;
    assert_eq!(rt; text.as_str(), "3 :01FF02 0 4294967295");
    assert_eq!(rt; request.entries, 2);
    Ok(())
}

#[test]
fn refuses(rt: HostRuntime) -> Result<(), Fail> {
    let texts: [(&[u8], u64, Complaint); 6] = [
        (b"", 1, Complaint::NotPageLine),
        (b"page 8 03 :00\nentries 1\n", 1, Complaint::NotPageLine),
        (b"page 8 3 :0a\nentries 1\n", 1, Complaint::NotPageLine),
        (b"page 2 3 :0A\nentries 1\n", 1, Complaint::OtherEncoding),
        (b"page 8 0 :\n", 2, Complaint::NotEntriesLine),
        (b"page 8 0 :\nentries 0\n\n", 3, Complaint::LineTooMany),
    ];
    for (text, line, what) in texts {
        let Err(error) = read_request(rt.alloc(), text) else {
            return Err(Fail::new("accepted"));
        };
        assert_eq!(rt; error, RequestError::Wrong(Wrong { line, what }));
    }
    Ok(())
}

#[test]
fn prints(rt: HostRuntime) -> Result<(), Fail> {
    let mut text = format!(in rt.alloc(); "{}", Hex(b"foobar"))?;
    write!(text, "{}", Spaced(&[7, 10]))?;
    assert_eq!(rt; text.as_str(), "666F6F626172 7 10");
    let wrong = Wrong::from(Complaint::LineTooMany);
    let text = wrong.to_string(rt.alloc())?;
    assert_eq!(rt;
        text.as_str(),
        "line 3: nothing may follow the entries line"
    );
    Ok(())
}

// More than one piece of each.
#[test]
fn writes_pieces(rt: HostRuntime) -> Result<(), Fail> {
    let mut text = String::new(rt.alloc());
    push_hex(&mut text, &[0xA5; 33])?;
    push_numbers(&mut text, &[u32::MAX; 65])?;
    let mut expected = String::new(rt.alloc());
    for _ in 0..33 {
        expected.push_str("A5")?;
    }
    for _ in 0..65 {
        expected.push_str(" 4294967295")?;
    }
    assert_eq!(rt; text.as_str(), expected.as_str());
    Ok(())
}
