//! The worked places of the lexical rules, and the limit on tokens.

use sa_base::Pos;
use sa_tokens::*;
use std::alloc::Global;
use std::test::Fail;

const MOST_BYTES: usize = 4_194_304;

fn read(alloc: Global, source: &[u8]) -> Result<Vec<Token>, TokenFault> {
    if source.len() > MOST_BYTES {
        return Err(TokenFault::TooManyTokens);
    }
    tokens(alloc, source)
}

const fn at(line: u32, col: u32) -> Pos {
    Pos { line, col }
}

#[test]
fn where_a_source_is_refused(rt: HostRuntime) -> Result<(), Fail> {
    let alloc = rt.alloc();
    let cases = [
        ("int x = 0x", TokenFault::BadNumber(at(1, 9))),
        ("int x = 1e5;", TokenFault::BadNumber(at(1, 9))),
        ("08", TokenFault::BadNumber(at(1, 1))),
        ("1lL", TokenFault::BadNumber(at(1, 1))),
        ("1uu", TokenFault::BadNumber(at(1, 1))),
        ("9223372036854775808", TokenFault::BadNumber(at(1, 1))),
        ("18446744073709551616u", TokenFault::BadNumber(at(1, 1))),
        ("0x10000000000000000", TokenFault::BadNumber(at(1, 1))),
        ("int x; /* abc", TokenFault::OpenComment(at(1, 8))),
        ("/*/ ;", TokenFault::OpenComment(at(1, 1))),
        ("; /* *\\\n/ */ ;", TokenFault::OpenComment(at(1, 3))),
        ("/* *??/ \r */", TokenFault::OpenComment(at(1, 1))),
        ("# line", TokenFault::Directive(at(1, 1))),
        ("#x", TokenFault::Directive(at(1, 1))),
        ("/* */ # 1", TokenFault::Directive(at(1, 7))),
        (";\n /*\n*/#1", TokenFault::Directive(at(3, 3))),
        ("#1 /* */", TokenFault::Directive(at(1, 1))),
        ("#1 \\\n", TokenFault::Directive(at(1, 1))),
        ("#1 \r x", TokenFault::Directive(at(1, 1))),
        ("// note \\\nx", TokenFault::BadByte(at(1, 9))),
        ("// note \r", TokenFault::BadByte(at(1, 9))),
        ("\r", TokenFault::BadByte(at(1, 1))),
        ("x\\ \t\r\ny", TokenFault::BadByte(at(1, 2))),
        ("'a'", TokenFault::BadByte(at(1, 1))),
        ("x = \"", TokenFault::BadByte(at(1, 5))),
        ("\u{e9}", TokenFault::BadByte(at(1, 1))),
        ("\0", TokenFault::BadByte(at(1, 1))),
        ("// reset \\\0\nx = 0;", TokenFault::BadByte(at(1, 10))),
        ("x??/\0 \0\r\ny", TokenFault::BadByte(at(1, 2))),
        (
            "/* *\\\0\n/ x = 1 / 0; /* */",
            TokenFault::OpenComment(at(1, 1)),
        ),
        ("#1 \\\0\n", TokenFault::Directive(at(1, 1))),
        ("#\0001", TokenFault::Directive(at(1, 1))),
    ];
    for (source, fault) in cases {
        match read(alloc, source.as_bytes()) {
            Ok(_) => assert!(rt; false, "{source}"),
            Err(e) => assert_eq!(rt; e, fault, "{source}"),
        }
    }
    Ok(())
}

#[test]
fn how_many_tokens_a_source_has(rt: HostRuntime) -> Result<(), Fail> {
    let alloc = rt.alloc();
    let cases = [
        ("", 0),
        (" \t\x0b\x0c\r\n", 0),
        ("1.5", 3),
        ("#1 x\n#linefoo\n # pragma\n", 99),
        ("#1 x\n#linefoo\n \t#  2", 0),
        ("#pragma x\\y\n;", 1),
        ("/* \\\n # ' */ ;", 1),
        ("// a \\ b\n;", 1),
        ("// a ??/ b\r\n;", 1),
        ("a<<=b>>=c->d", 7),
        ("a+++b---c", 7),
        ("x??/ y", 5),
        ("/* **/;/**/", 1),
        ("/* \0 \\\0\n */ ;", 1),
        ("// a \\ \0 b\n;", 1),
        ("a//b\n/c", 3),
    ];
    for (source, count) in cases {
        match read(alloc, source.as_bytes()) {
            Ok(tokens) => assert_eq!(rt; tokens.len(), count, "{source}"),
            Err(e) => assert_eq!(rt; count, 99, "{source} {e:?}"),
        }
    }
    Ok(())
}

#[test]
fn what_a_number_is(rt: HostRuntime) -> Result<(), Fail> {
    let alloc = rt.alloc();
    let cases = [
        ("0", (0, false, 0, false)),
        ("10", (10, false, 0, true)),
        ("017u", (15, true, 0, false)),
        ("0xFfUL", (255, true, 1, false)),
        ("0X0", (0, false, 0, false)),
        (
            "9223372036854775807LL",
            (9_223_372_036_854_775_807, false, 2, true),
        ),
        (
            "18446744073709551615llU",
            (18_446_744_073_709_551_615, true, 2, true),
        ),
        (
            "0xffffffffffffffff",
            (18_446_744_073_709_551_615, false, 0, false),
        ),
    ];
    for (source, number) in cases {
        let tokens = match read(alloc, source.as_bytes()) {
            Ok(tokens) => tokens,
            Err(_) => Vec::new(alloc),
        };
        for token in &tokens {
            match &token.word {
                Word::Number {
                    value,
                    unsigned,
                    longs,
                    decimal,
                } => assert_eq!(rt; (*value, *unsigned, *longs, *decimal), number, "{source}"),
                _ => assert!(rt; false, "{source}"),
            }
        }
        assert_eq!(rt; tokens.len(), 1, "{source}");
    }
    Ok(())
}

#[test]
fn names_keywords_marks_and_places(rt: HostRuntime) -> Result<(), Fail> {
    let alloc = rt.alloc();
    let source = b"_Bool\n if1 ->";
    let tokens = read(alloc, source).unwrap_or(Vec::new(alloc));
    for token in &tokens {
        match &token.word {
            Word::Key(key) => assert_eq!(rt; (*key, token.pos), (Keyword::Bool, at(1, 1))),
            Word::Name(name) => {
                assert_eq!(rt; name.bytes(), b"if1".as_slice());
                assert_eq!(rt; token.pos, at(2, 2));
            }
            Word::Mark(mark) => assert_eq!(rt; (*mark, token.pos), (Punct::Arrow, at(2, 6))),
            Word::Number { .. } => assert!(rt; false),
        }
    }
    assert_eq!(rt; tokens.len(), 3);
    assert_eq!(rt; end_of(source), at(2, 8));
    Ok(())
}

#[test]
fn more_tokens_than_the_limit(rt: HostRuntime) -> Result<(), Fail> {
    let alloc = rt.alloc();
    let mut source = Vec::new(alloc);
    for _ in 0..1_000_000 {
        source.push(b';')?;
    }
    assert_eq!(rt;
        read(alloc, &source).map(|tokens| tokens.len()),
        Ok(1_000_000)
    );
    source.push(b'$')?;
    assert_eq!(rt;
        read(alloc, &source).map(|tokens| tokens.len()),
        Err(TokenFault::BadByte(at(1, 1_000_001)))
    );
    source.pop();
    source.push(b';')?;
    assert_eq!(rt;
        read(alloc, &source).map(|tokens| tokens.len()),
        Err(TokenFault::TooManyTokens)
    );
    source.push(b'$')?;
    assert_eq!(rt;
        read(alloc, &source).map(|tokens| tokens.len()),
        Err(TokenFault::TooManyTokens)
    );
    Ok(())
}
