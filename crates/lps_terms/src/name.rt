ghost use Rattle.std.specs.Prelude.{◌≡◌, IfOk, Some, if◌then◌else◌};
ghost use Rattle.std.specs.List.{list_any, list_all};
ghost use Rattle.std.specs.Str.{bytes_eq};
ghost use Rattle.lps_terms.specs.Names.{begins_low, is_lower_byte, is_name, is_proper_name, is_word_byte, name_cmp, name_eq, reserved};
ghost use Rattle.std.proofs.Common.{rules};
ghost use Rattle.std.specs.Cmp.Rules.{comparing, hashing};
ghost use Rattle.std.specs.Hash as fed;
ghost use Rattle.std.specs.Ordering.{as_partial_cmp};

use std::alloc::{AllocError, Global};
use std::cmp::Ordering;
use std::fmt;
use std::hash::{Hash, Hasher};
use std::marker::Model;

/// The name of a predicate, a constant, a function, a variable or a time. Contracts see it as its bytes.
#[derive(Debug, Drop)]
pub struct Name {
    bytes: Vec<u8>,
}

impl Model for Name {
    ghost use Rattle.std.specs.Prelude.{List, ℕ};

    ghost Value = { List ℕ };

    ghost view = { λ name. name.bytes.items };
}

impl Name {
    /// The name of these bytes, where they are 1 to 64 letters, digits and `_`; else none.
    pub fn new(alloc: Global, bytes: &[u8]) -> Result<Option<Name>, AllocError>
        ensures { IfOk result (λ found. found ≡ (if is_name bytes.now then Some bytes.now else None)) }
    {
        if !is_name(bytes) {
            return Ok(None);
        }
        let bytes = Vec::from_slice(alloc, bytes)?;
        Ok(Some(Name { bytes }))
    }

    /// The name as bytes.
    pub fn bytes(&self) -> &[u8]
        ensures { result.now ≡ self.now }
    {
        self.bytes.as_slice()
    }

    /// A name equal to this one.
    pub fn copy(&self, alloc: Global) -> Result<Name, AllocError>
        ensures { IfOk result (λ copy. copy ≡ self.now) }
    {
        let bytes = Vec::from_slice(alloc, self.bytes())?;
        Ok(Name { bytes })
    }
}

impl PartialEq for Name {
    ghost eq = { name_eq };

    ghost laws = { Prim.search (comparing, rules) };

    fn eq(&self, other: &Name) -> bool {
        self.bytes() == other.bytes()
    }
}

impl Eq for Name {
    ghost laws = { Prim.search (comparing, rules) };
}

impl PartialOrd for Name {
    ghost partial_cmp = { as_partial_cmp name_cmp };

    ghost laws = { Prim.search (comparing, rules) };

    fn partial_cmp(&self, other: &Name) -> Option<Ordering> {
        Some(self.cmp(other))
    }
}

impl Ord for Name {
    ghost cmp = { name_cmp };

    ghost total = { Prim.search (comparing, rules) };

    ghost matches_partial_cmp = { Prim.search (comparing, rules) };

    ghost matches_eq = { Prim.search (comparing, rules) };

    fn cmp(&self, other: &Name) -> Ordering {
        self.bytes().cmp(other.bytes())
    }
}

impl Hash for Name {
    ghost hash_input = { λ name. fed.slice fed.u8 name };

    ghost respects_eq = { Prim.search (hashing, rules) };

    fn hash<H: Hasher>(&self, state: &mut H) {
        self.bytes().hash(state);
    }
}

impl fmt::Display for Name {
    ghost output = { λ name. Some name };

    fn fmt<W: fmt::Write>(&self, f: &mut fmt::Formatter<W>) -> fmt::Result {
        match str::from_utf8(self.bytes()) {
            Ok(text) => f.write_str(text),
            Err(_) => Err(fmt::Error),
        }
    }
}

/// Whether the bytes are a name that a text may give: a lower-case letter, then letters, digits and `_`, at most 64
/// in all, and no word of the language.
#[tactic(auto, unfolding(crate::specs::Names::is_proper_name))]
pub fn is_proper_name(bytes: &[u8]) -> bool
    ensures { result ≡ is_proper_name bytes.now }
{
    begins_low(bytes) && bytes.len() <= 64 && all_word_bytes(bytes) && !is_reserved(bytes)
}

#[tactic(auto, unfolding(crate::specs::Names::is_name))]
fn is_name(bytes: &[u8]) -> bool
    ensures { result ≡ is_name bytes.now }
{
    bytes.len() > 0 && bytes.len() <= 64 && all_word_bytes(bytes)
}

fn all_word_bytes(bytes: &[u8]) -> bool
    ensures { result ≡ list_all is_word_byte bytes.now }
{
    bytes.iter().all(|byte| is_word_byte(*byte))
}

fn is_word_byte(byte: u8) -> bool
    ensures { result ≡ is_word_byte byte }
{
    is_lower_byte(byte)
        || (byte >= b'A' && byte <= b'Z')
        || (byte >= b'0' && byte <= b'9')
        || byte == b'_'
}

fn is_lower_byte(byte: u8) -> bool
    ensures { result ≡ is_lower_byte byte }
{
    byte >= b'a' && byte <= b'z'
}

fn begins_low(bytes: &[u8]) -> bool
    ensures { result ≡ begins_low bytes.now }
{
    match bytes {
        [first, ..] => is_lower_byte(*first),
        _ => false,
    }
}

#[tactic(auto, unfolding(crate::specs::Names::reserved))]
fn is_reserved(bytes: &[u8]) -> bool
    ensures { result ≡ list_any (bytes_eq bytes.now) reserved }
{
    bytes == b"if".as_slice()
        || bytes == b"then".as_slice()
        || bytes == b"or".as_slice()
        || bytes == b"not".as_slice()
        || bytes == b"false".as_slice()
        || bytes == b"fluent".as_slice()
        || bytes == b"event".as_slice()
        || bytes == b"action".as_slice()
        || bytes == b"timeless".as_slice()
        || bytes == b"derived".as_slice()
        || bytes == b"macro".as_slice()
        || bytes == b"initially".as_slice()
        || bytes == b"initiates".as_slice()
        || bytes == b"terminates".as_slice()
        || bytes == b"at".as_slice()
        || bytes == b"from".as_slice()
        || bytes == b"to".as_slice()
        || bytes == b"is".as_slice()
        || bytes == b"div".as_slice()
        || bytes == b"mod".as_slice()
}
