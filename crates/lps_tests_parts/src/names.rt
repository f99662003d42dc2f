//! Names, and which of them a text may give.
use lps_terms::{Name, is_proper_name};
use std::test::Fail;

const LONGEST: &[u8] = b"a123456789012345678901234567890123456789012345678901234567890123";

const TOO_LONG: &[u8] = b"a1234567890123456789012345678901234567890123456789012345678901234";

/// Bytes, whether they are a name, and whether a text may give it.
const NAMES: [(&[u8], bool, bool); 9] = [
    (b"order2_A", true, true),
    (b"X1", true, false),
    (b"_", true, false),
    (b"7", true, false),
    (b"initiates", true, false),
    (b"a-b", false, false),
    (b"", false, false),
    (LONGEST, true, true),
    (TOO_LONG, false, false),
];

#[test]
fn names(rt: HostRuntime) -> Result<(), Fail> {
    for (bytes, is_name, is_proper) in NAMES {
        assert_eq!(rt; Name::new(rt.alloc(), bytes)?.is_some(), is_name);
        assert_eq!(rt; is_proper_name(bytes), is_proper);
    }
    Ok(())
}

#[test]
fn copies_of_names(rt: HostRuntime) -> Result<(), Fail> {
    let name = Name::new(rt.alloc(), b"spark")?.ok_or("no name")?;
    let copy = name.copy(rt.alloc())?;
    assert!(rt; name == copy && copy.bytes() == b"spark".as_slice());
    Ok(())
}
