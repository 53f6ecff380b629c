use super::*;
use std::test::Fail;

#[test]
fn texts_paths_and_codes(rt: HostRuntime) -> Result<(), Fail> {
    let alloc = rt.alloc();
    assert_eq!(rt; Text::of(alloc, "main")?.bytes(), "main".as_bytes());
    assert_eq!(rt;
        Text::of_bytes(alloc, &[0, 255])?.bytes(),
        [0, 255].as_slice()
    );
    let (outer, inner) = (Pos { line: 4, col: 2 }, Pos { line: 1, col: 9 });
    let path = Path::root(alloc).push(alloc, outer)?.push(alloc, inner)?;
    assert_eq!(rt; path.calls(), [outer, inner].as_slice());
    for (code, word) in [
        (Code::BadByte, "L1"),
        (Code::BadNumber, "L2"),
        (Code::OpenComment, "L3"),
        (Code::Directive, "L4"),
        (Code::Syntax, "S1"),
        (Code::Typing(24), "T24"),
        (Code::Unsupported, "U1"),
    ] {
        assert_eq!(rt; code.word(alloc)?.as_str(), word);
    }
    Ok(())
}
