// Lines that no run of the gate may have, since they end the program with status 1.
use crate::session::Session;
use std::test::Fail;

// Answers one line on the start board.
fn told(rt: &HostRuntime, line: &[u8]) -> Result<Session, Fail> {
    let mut session = Session::new(rt.alloc());
    session.answer(rt.alloc(), line, 3)?;
    Ok(session)
}

#[test]
fn unknown_lines(rt: HostRuntime) -> Result<(), Fail> {
    let other = told(&rt, b"Q 31")?;
    assert!(rt; other.faulty);
    assert!(rt;
        other.out.as_str()
            == "E 3 expected 'S p WHITE BLACK', 'L ab', 'P ab ssd ..', a # line or an empty line\n"
    );
    assert!(rt; told(&rt, b"P 31 083 061 ")?.faulty);
    Ok(())
}

#[test]
fn known_lines(rt: HostRuntime) -> Result<(), Fail> {
    let comment = told(&rt, b"# any text")?;
    assert!(rt; !comment.faulty && comment.out.len() == 0);
    let refused = told(&rt, b"P 31 083")?;
    assert!(rt; refused.out.as_str() == "F 1 16 0 0 0 0\n");
    assert!(rt; !refused.faulty);
    Ok(())
}
