ghost use Rattle.std.specs.Prelude.{◌≡◌, ◌≤◌, ◌-◌, List, ℕ, Some, length, min, drop, is_ok, IsOk, IfOk};
ghost use Rattle.lps_outside.specs.Bytes.{CopiesAt};
ghost use Rattle.lps_outside.specs.Causes.{HasCause};
ghost use Rattle.lps_memworld.specs.Texts.{text_of, texts_of};

use crate::copy::copy_front;
use lps_outside::{Fault, Texts};
use std::marker::Model;

/// Texts by name, each read of which succeeds.
#[derive(Drop)]
pub struct SureTexts {
    texts: Vec<(String, Vec<u8>)>,
}

impl Model for SureTexts {
    ghost use Rattle.std.specs.Prelude.{List, ℕ};
    ghost use Rattle.lps_memworld.specs.Texts.{texts_of};

    ghost Value = { List (List ℕ × List ℕ) };

    ghost view = { λ it. texts_of it.texts.items };
}

impl SureTexts {
    /// The texts with their names. Of a name that is listed twice the first text counts.
    pub fn new(texts: Vec<(String, Vec<u8>)>) -> SureTexts
        ensures { result ≡ texts_of texts.items }
    {
        SureTexts { texts }
    }

    /// The text of a name; a name that is not listed has no bytes.
    fn text(&self, name: &str) -> &[u8]
        ensures { result.now ≡ text_of self.now name.now }
    {
        for (listed, bytes) in &self.texts {
            if listed.as_str() == name {
                return bytes.as_slice();
            }
        }
        &[]
    }

    /// Copies as many bytes of the named text from place `at` on as there is room for.
    pub(crate) fn copy(&self, name: &str, at: u64, into: &mut [u8]) -> usize
        ensures count { result ≡ min (length into.old) (length (text_of self.now name.now) - at) }
        ensures bytes { CopiesAt (text_of self.now name.now) at result (length into.old) into.new }
    {
        let text = self.text(name);
        let at = (at as usize).min(text.len());
        let (_, rest) = text.split_at(at);
        copy_front(rest, into.len(), into)
    }
}

impl Texts for SureTexts {
    ghost text = { λ texts name. Some (text_of texts name) };

    ghost faults = { λ texts name. 0 };

    /// Copies as many bytes as there is room for. It never fails.
    fn read(&mut self, name: &str, at: u64, into: &mut [u8]) -> Result<usize, Fault>
        ensures sure { IsOk result }
        ensures count { IfOk result (λ count. count ≡ min (length into.old) (length (text_of self.old name.now) - at)) }
        ensures kept { self.new ≡ self.old }
        ensures bound { IfOk result (λ count. count ≤ length into.old) }
        ensures bytes { IfOk result (λ count. (all : List ℕ) → Some (text_of self.old name.now) ≡ Some all →
            CopiesAt all at count (length into.old) into.new) }
        ensures same { (other : List ℕ) → Some (text_of self.new other) ≡ Some (text_of self.old other) }
        ensures cause { HasCause 0 0 result }
    {
        Ok(self.copy(name, at, into))
    }
}
