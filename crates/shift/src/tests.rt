// Lines that say a step, and lines that go wrong.
use crate::*;

#[test]
fn idle(rt: HostRuntime) {
    assert_eq!(rt; read_step(b""), Ok(Step::Nothing));
    assert_eq!(rt; read_step(b"# note"), Ok(Step::Nothing));
}

#[test]
fn steps(rt: HostRuntime) {
    assert_eq!(rt; read_step(b"pools 64 4096"), Ok(Step::Pools(64, 4096)));
    assert_eq!(rt; read_step(b"machine 7"), Ok(Step::Machine(7)));
    assert_eq!(rt; read_step(b"mark 0"), Ok(Step::Mark(0)));
    assert_eq!(rt; read_step(b"block 64 10"), Ok(Step::Block(64, 10)));
    assert_eq!(rt; read_step(b"unmark 262143"), Ok(Step::Unmark(262143)));
    assert_eq!(rt; read_step(b"ask 007"), Ok(Step::Ask(7)));
    assert_eq!(rt; read_step(b"cells 5"), Ok(Step::Cells(5)));
    assert_eq!(rt; read_step(b"shared 0"), Ok(Step::Shared(0)));
    assert_eq!(rt; read_step(b"lacking 9"), Ok(Step::Lacking(9)));
}

#[test]
fn largest(rt: HostRuntime) {
    assert_eq!(rt;
        read_step(b"mark 18446744073709551615"),
        Ok(Step::Mark(18446744073709551615))
    );
    assert_eq!(rt; read_step(b"mark 00000000000000000005"), Ok(Step::Mark(5)));
    assert_eq!(rt;
        read_step(b"mark 18446744073709551616"),
        Err(Expected::TooLarge)
    );
    assert_eq!(rt;
        read_step(b"mark 99999999999999999999"),
        Err(Expected::TooLarge)
    );
    assert_eq!(rt;
        read_step(b"mark 000000000000000000005"),
        Err(Expected::Number)
    );
}

#[test]
fn keywords(rt: HostRuntime) {
    assert_eq!(rt; read_step(b"Mark 5"), Err(Expected::Keyword));
    assert_eq!(rt; read_step(b"mark5"), Err(Expected::Keyword));
    assert_eq!(rt; read_step(b" mark 5"), Err(Expected::Keyword));
    assert_eq!(rt; read_step(b"mark\t5"), Err(Expected::Keyword));
}

#[test]
fn numbers(rt: HostRuntime) {
    assert_eq!(rt; read_step(b"mark"), Err(Expected::Number));
    assert_eq!(rt; read_step(b"mark "), Err(Expected::Number));
    assert_eq!(rt; read_step(b"mark  5"), Err(Expected::Number));
    assert_eq!(rt; read_step(b"mark 5x"), Err(Expected::Number));
    assert_eq!(rt; read_step(b"mark +5"), Err(Expected::Number));
    assert_eq!(rt; read_step(b"block 64"), Err(Expected::Number));
}

#[test]
fn ends(rt: HostRuntime) {
    assert_eq!(rt; read_step(b"mark 5 "), Err(Expected::End));
    assert_eq!(rt; read_step(b"mark 5 6"), Err(Expected::End));
    assert_eq!(rt; read_step(b"block 64 10 1"), Err(Expected::End));
}

#[test]
fn messages(rt: HostRuntime) {
    assert_eq!(rt;
        Expected::TooLarge.message(),
        "a number of at most 18446744073709551615"
    );
    assert_eq!(rt; Expected::End.message(), "nothing more on the line");
}
