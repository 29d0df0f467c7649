//! The lines that repeat, as the lists of a plan.

ghost use Rattle.std.specs.Prelude.{◌≡◌, ◌+◌, ◌*◌, ◌∷◌, [], ◌<◌, ◌^◌, true, length, map, IfOk};
ghost use Rattle.std.specs.List.{list_all};
ghost use Rattle.plan_text.specs.declared.word.Word.TheVariants as word;
ghost use Rattle.plan_text.specs.Lines.{fits, is_small, line};
ghost use Rattle.plan_text.specs.Reading.{ReadsMany};
ghost use Rattle.plan_text.specs.Texts.{arc_line, at_line, delay_line, home_line, names_of, wave_line};

use crate::line::Lines;
use crate::word::Word;
use graph_model::{List, Uid};
use plan_model::{At, Home, LineAt, Units, Wave};
use std::alloc::{AllocError, Global};

/// The one number of a line.
pub(crate) fn only(numbers: &[u64]) -> u64
    requires { length numbers.now ≡ 1 }
    ensures { numbers.now ≡ result ∷ [] }
{
    numbers[0]
}

/// A number below 2^32.
pub(crate) fn small(number: u64) -> u32
    requires { is_small number ≡ true }
    ensures { result ≡ number }
{
    number as u32
}

/// The nodes of these names.
pub(crate) fn nodes(alloc: Global, numbers: &[u64]) -> Result<List<Uid>, AllocError>
    requires { list_all is_small numbers.now ≡ true }
    ensures { IfOk result (λ nodes. names_of nodes ≡ numbers.now) }
{
    let mut nodes = List::new(alloc);
    for number in numbers {
        nodes.push(Uid(small(*number)))?;
    }
    Ok(nodes)
}

fn at_of(numbers: &[u64]) -> At
    requires { fits word.At numbers.now ≡ true }
    ensures { at_line result ≡ line word.At numbers.now }
{
    At {
        uid: Uid(small(numbers[0])),
        at: numbers[1],
    }
}

fn delay_of(numbers: &[u64]) -> LineAt
    requires { fits word.Line numbers.now ≡ true }
    ensures { delay_line result ≡ line word.Line numbers.now }
{
    LineAt {
        connection: small(numbers[0]),
        delay: numbers[1],
    }
}

fn arc_of(numbers: &[u64]) -> Units
    requires { fits word.Arc numbers.now ≡ true }
    ensures { arc_line result ≡ line word.Arc numbers.now }
{
    Units {
        tail: small(numbers[0]),
        head: small(numbers[1]),
        units: numbers[2],
    }
}

fn home_of(numbers: &[u64]) -> Home
    requires { fits word.Home numbers.now ≡ true }
    ensures { home_line result ≡ line word.Home numbers.now }
{
    Home {
        uid: Uid(small(numbers[0])),
        channel: small(numbers[1]),
        buffer: small(numbers[2]),
    }
}

fn wave_of(alloc: Global, numbers: &[u64]) -> Result<Wave, AllocError>
    requires { fits word.Wave numbers.now ≡ true }
    ensures { IfOk result (λ wave. wave_line wave ≡ line word.Wave numbers.now) }
{
    Ok(Wave {
        nodes: nodes(alloc, numbers)?,
    })
}

impl Lines<'_> {
    /// The positions of all the lines `at` that follow.
    pub fn positions(&mut self, alloc: Global) -> Result<List<At>, AllocError>
        requires { 3 * self.old.count + length self.old.rest.now < 2 ^ 64 }
        ensures { IfOk result
            (λ rows. ReadsMany word.At self.old.rest.now self.old.count self.new.rest.now self.new.count (map at_line rows)) }
    {
        let mut rows = List::new(alloc);
        while let Some(numbers) = self.next(alloc, Word::At)? {
            rows.push(at_of(numbers.as_slice()))?;
        }
        Ok(rows)
    }

    /// The delay lines of all the lines `line` that follow.
    pub fn delays(&mut self, alloc: Global) -> Result<List<LineAt>, AllocError>
        requires { 3 * self.old.count + length self.old.rest.now < 2 ^ 64 }
        ensures { IfOk result
            (λ rows. ReadsMany word.Line self.old.rest.now self.old.count self.new.rest.now self.new.count (map delay_line rows)) }
    {
        let mut rows = List::new(alloc);
        while let Some(numbers) = self.next(alloc, Word::Line)? {
            rows.push(delay_of(numbers.as_slice()))?;
        }
        Ok(rows)
    }

    /// The arcs of all the lines `arc` that follow.
    pub fn arcs(&mut self, alloc: Global) -> Result<List<Units>, AllocError>
        requires { 3 * self.old.count + length self.old.rest.now < 2 ^ 64 }
        ensures { IfOk result
            (λ rows. ReadsMany word.Arc self.old.rest.now self.old.count self.new.rest.now self.new.count (map arc_line rows)) }
    {
        let mut rows = List::new(alloc);
        while let Some(numbers) = self.next(alloc, Word::Arc)? {
            rows.push(arc_of(numbers.as_slice()))?;
        }
        Ok(rows)
    }

    /// The waves of all the lines `wave` that follow.
    pub fn waves(&mut self, alloc: Global) -> Result<List<Wave>, AllocError>
        requires { 3 * self.old.count + length self.old.rest.now < 2 ^ 64 }
        ensures { IfOk result
            (λ rows. ReadsMany word.Wave self.old.rest.now self.old.count self.new.rest.now self.new.count (map wave_line rows)) }
    {
        let mut rows = List::new(alloc);
        while let Some(numbers) = self.next(alloc, Word::Wave)? {
            rows.push(wave_of(alloc, numbers.as_slice())?)?;
        }
        Ok(rows)
    }

    /// The buffers of all the lines `home` that follow.
    pub fn homes(&mut self, alloc: Global) -> Result<List<Home>, AllocError>
        requires { 3 * self.old.count + length self.old.rest.now < 2 ^ 64 }
        ensures { IfOk result
            (λ rows. ReadsMany word.Home self.old.rest.now self.old.count self.new.rest.now self.new.count (map home_line rows)) }
    {
        let mut rows = List::new(alloc);
        while let Some(numbers) = self.next(alloc, Word::Home)? {
            rows.push(home_of(numbers.as_slice()))?;
        }
        Ok(rows)
    }
}
