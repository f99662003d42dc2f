//! The tokens of bytes. Each is shown as its line, the first letter of its kind and its text; a fault by what is said of it.
ghost use Rattle.std.specs.Prelude.{◌≤◌, length};

use lps_lex::{Token, TokenKind, lex, number_value, tokens};
use std::alloc::{AllocError, Global};
use std::test::Fail;

fn letter(kind: TokenKind) -> u8 {
    match kind {
        TokenKind::Name => b'n',
        TokenKind::Reserved => b'r',
        TokenKind::Time => b't',
        TokenKind::Variable => b'v',
        TokenKind::Number => b'd',
        TokenKind::Sign => b's',
    }
}

fn show(out: &mut Vec<u8>, token: &Token, text: &[u8]) -> Result<(), AllocError> {
    out.push(b'0'.saturating_add((token.line % 10) as u8))?;
    out.push(letter(token.kind))?;
    out.extend_from_slice(text)?;
    out.push(b' ')?;
    Ok(())
}

fn shown(alloc: Global, bytes: &[u8]) -> Result<Vec<u8>, Fail>
    requires { length bytes.now ≤ 4294967294 }
{
    let found = lex(alloc, bytes)?;
    let mut out = Vec::new(alloc);
    for token in found.tokens.as_slice() {
        show(&mut out, token, token.text(bytes))?;
    }
    if let Some(fault) = found.fault {
        let said = format!(in alloc; "{fault}")?;
        out.extend_from_slice(said.as_str().as_bytes())?;
    }
    Ok(out)
}

const TOKENS: [(&[u8], &[u8]); 11] = [
    (b"", b""),
    (b"if iff IF _ _x aB_9", b"1rif 1niff 1vIF 1v_ 1v_x 1naB_9 "),
    (b"T T1 T01 Ta T1a t1", b"1tT 1tT1 1tT01 1vTa 1vT1a 1nt1 "),
    (b"12ab 007T9 1_", b"1d12 1nab 1d007 1tT9 1d1 1v_ "),
    (
        b"a=<b<=c>==d\\=e",
        b"1na 1s=< 1nb 1s< 1s= 1nc 1s>= 1s= 1nd 1s\\= 1ne ",
    ),
    (
        b"(),./+-*<=>:",
        b"1s( 1s) 1s, 1s. 1s/ 1s+ 1s- 1s* 1s< 1s= 1s> 1s: ",
    ),
    (b"a\n\r\tb % \x00?\x80 c\n\nd%", b"1na 2nb 4nd "),
    (b"a\n?b", b"1na text line 2: bad byte"),
    (b"X\\Y", b"1vX text line 1: bad byte"),
    (
        b"\n\n9223372036854775808 00009223372036854775808",
        b"3d9223372036854775808 3d00009223372036854775808 ",
    ),
    (
        b"a.\n9223372036854775809",
        b"1na 1s. text line 2: number too large",
    ),
];

#[test]
fn what_stands_in_bytes(rt: HostRuntime) -> Result<(), Fail> {
    for (bytes, want) in TOKENS {
        assert!(rt; bytes.len() <= 1000);
        let found = shown(rt.alloc(), bytes)?;
        assert_eq!(rt; found.as_slice(), want);
        let whole = tokens(rt.alloc(), bytes);
        assert_eq!(rt;
            whole.is_ok(),
            want.last() == Some(&b' ') || want.is_empty()
        );
    }
    Ok(())
}

#[test]
fn values_of_digits(rt: HostRuntime) {
    for (digits, value) in [
        (b"0".as_slice(), Some(0)),
        (b"0017", Some(17)),
        (b"9223372036854775808", Some(9223372036854775808)),
        (b"9223372036854775809", None),
        (b"10000000000000000000000", None),
    ] {
        assert_eq!(rt; number_value(digits), value);
    }
}
