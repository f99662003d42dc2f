ghost use Rattle.std.specs.Prelude.{◌≡◌, ◌≤◌, ◌-◌, List, ℕ, Some, length, min, is_err, IfOk};
ghost use Rattle.lps_outside.specs.Bytes.{CopiesAt};
ghost use Rattle.lps_outside.specs.Causes.{HasCause};
ghost use Rattle.lps_memworld.specs.Calls.{counted, fails_next, no_calls};
ghost use Rattle.lps_memworld.specs.Texts.{FailingTexts, text_of, texts_of};

use crate::SureTexts;
use crate::calls::CallCounter;
use lps_outside::{Fault, Texts};
use std::marker::Model;

/// Texts by name, with calls that fail.
#[derive(Drop)]
pub struct MemTexts {
    texts: SureTexts,
    calls: CallCounter,
}

impl Model for MemTexts {
    ghost use Rattle.lps_memworld.specs.Texts.{FailingTexts};

    ghost Value = { FailingTexts };

    ghost view = { λ it. record { texts = it.texts; calls = it.calls } };
}

impl MemTexts {
    /// The texts with their names, and the numbers of the calls that fail, counted from 1.
    ///
    /// Of a name that is listed twice the first text counts. A name that is not listed reads as a text of no bytes.
    pub fn new(texts: Vec<(String, Vec<u8>)>, fails: Vec<u64>) -> MemTexts
        ensures texts { result.texts ≡ texts_of texts.items }
        ensures calls { result.calls ≡ no_calls fails.items }
    {
        MemTexts {
            texts: SureTexts::new(texts),
            calls: CallCounter::new(fails),
        }
    }
}

impl Texts for MemTexts {
    ghost text = { λ it name. Some (text_of it.texts name) };

    ghost faults = { λ it name. it.calls.faults };

    /// Fails exactly at the calls that are listed; another copies as many bytes as there is room for.
    fn read(&mut self, name: &str, at: u64, into: &mut [u8]) -> Result<usize, Fault>
        ensures fails { is_err result ≡ fails_next self.old.calls }
        ensures calls { self.new.calls ≡ counted self.old.calls (is_err result) }
        ensures texts { self.new.texts ≡ self.old.texts }
        ensures count { IfOk result (λ count.
            count ≡ min (length into.old) (length (text_of self.old.texts name.now) - at)) }
        ensures bound { IfOk result (λ count. count ≤ length into.old) }
        ensures bytes { IfOk result (λ count. (all : List ℕ) → Some (text_of self.old.texts name.now) ≡ Some all →
            CopiesAt all at count (length into.old) into.new) }
        ensures same { (other : List ℕ) → Some (text_of self.new.texts other) ≡ Some (text_of self.old.texts other) }
        ensures cause { HasCause self.old.calls.faults self.new.calls.faults result }
    {
        self.calls.count()?;
        Ok(self.texts.copy(name, at, into))
    }
}
