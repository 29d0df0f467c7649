//! Lines, one by one.

ghost use Rattle.std.specs.Prelude.{◌≡◌, ◌+◌, ◌*◌, ◌<◌, ◌^◌, ◌==◌, length, IfOk};
ghost use Rattle.std.specs.List.{list_all};
ghost use Rattle.graph_model.specs.declared.refused.Refused.TheVariants.{Fault};
ghost use Rattle.plan_text.specs.Lines.{fits, is_small};
ghost use Rattle.plan_text.specs.Reading.{ReadsLine, WantsLine};

use crate::fault::PlanFault;
use crate::number::numbers;
use crate::word::Word;
use graph_model::{List, Refused};
use std::alloc::{AllocError, Global};

/// Whether a number is below 2^32.
fn is_small(number: u64) -> bool
    ensures { result ≡ is_small number }
{
    number <= u32::MAX as u64
}

fn are_small(numbers: &[u64]) -> bool
    ensures { result ≡ list_all is_small numbers.now }
{
    numbers.iter().all(|number| *number <= u32::MAX as u64)
}

/// Whether the numbers may stand after the word.
fn is_fitting(word: Word, numbers: &[u64]) -> bool
    ensures { result ≡ fits word numbers.now }
{
    match word {
        Word::Plan => numbers.len() == 1 && numbers[0] == 1,
        Word::Latency | Word::Total | Word::Bound | Word::Peak => numbers.len() == 1,
        Word::Path | Word::Wave => are_small(numbers),
        Word::At | Word::Line => numbers.len() == 2 && is_small(numbers[0]),
        Word::Arc => numbers.len() == 3 && is_small(numbers[0]) && is_small(numbers[1]),
        Word::Home => numbers.len() == 3 && are_small(numbers),
        Word::Channels => numbers.len() == 1 && is_small(numbers[0]),
        Word::End => numbers.is_empty(),
    }
}

/// A text that is read line by line.
#[derive(Drop)]
pub(crate) struct Lines<'a> {
    /// What has not been read.
    pub rest: &'a [u8],
    /// How many lines have been read.
    pub count: u64,
}

impl Lines<'_> {
    /// The numbers of the next line, if it is one of the word; else nothing changes.
    pub fn next(&mut self, alloc: Global, word: Word) -> Result<Option<List<u64>>, AllocError>
        requires { 3 * self.old.count + length self.old.rest.now < 2 ^ 64 }
        ensures { IfOk result (λ o. ReadsLine word self.old.rest.now self.old.count self.new.rest.now self.new.count o) }
    {
        let Some(text) = self.rest.strip_prefix(word.text().as_bytes()) else {
            return Ok(None);
        };
        let Some((numbers, rest)) = numbers(alloc, text)? else {
            return Ok(None);
        };
        if !is_fitting(word, numbers.as_slice()) {
            return Ok(None);
        }
        self.rest = rest;
        self.count += 1;
        Ok(Some(numbers))
    }

    /// The numbers of the next line, which has to be one of the word.
    pub fn one(&mut self, alloc: Global, word: Word) -> Result<List<u64>, Refused<PlanFault>>
        requires { 3 * self.old.count + length self.old.rest.now < 2 ^ 64 }
        ensures { WantsLine word self.old.rest.now self.old.count self.new.rest.now self.new.count result }
    {
        match self.next(alloc, word)? {
            Some(numbers) => Ok(numbers),
            None => Err(self.bad()),
        }
    }

    /// Whether nothing is left.
    pub fn is_at_end(&self) -> bool
        ensures { result ≡ (length self.now.rest.now == 0) }
    {
        self.rest.is_empty()
    }

    /// That the next line is a bad one.
    pub fn bad(&self) -> Refused<PlanFault>
        requires { self.now.count + 1 < 2 ^ 64 }
        ensures { result ≡ Fault (record { line = self.now.count + 1 }) }
    {
        Refused::Fault(PlanFault {
            line: self.count + 1,
        })
    }
}
