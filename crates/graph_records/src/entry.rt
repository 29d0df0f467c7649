//! One record: an object of the text with its place, and the members that are read from it.

ghost use Rattle.std.specs.Prelude.{◌≡◌, ◌≤◌, IfOk, length, map, option_map, option_and_then};
ghost use Rattle.serde_json.specs.Find.{as_array, as_str, get};
ghost use Rattle.serde_json.specs.View.{view};
ghost use Rattle.graph_model.specs.Refusals.{Gives};
ghost use Rattle.graph_records.specs.Entries.{each_from, list_of};
ghost use Rattle.graph_records.specs.Numbers.{signed_in, unsigned_in, whole_of};

use crate::fault::{Part, Place, RecordFault};
use graph_model::{List, Member, Refused};
use serde_json::{Number, Value};
use std::alloc::Global;

/// The whole number that a value is, if it is one.
fn whole(value: Option<&Value>) -> Option<i128>
    ensures { result ≡ option_and_then whole_of (option_map (λ v. view v.now) value.entry) }
{
    match value {
        Some(value) => value.as_number().and_then(Number::as_i128),
        None => None,
    }
}

/// The values of an array.
fn items(value: &Value) -> Option<&[Value]>
    ensures { option_map (λ vs. map view vs.now) result
        ≡ option_map list_of (as_array (view value.now)) }
{
    match value.as_array() {
        Some(values) => Some(values.as_slice()),
        None => None,
    }
}

/// A number from 0 to `most`.
fn unsigned(found: Option<i128>, most: u64, place: Place) -> Result<u64, RecordFault>
    ensures exact { result ≡ unsigned_in most place found }
    ensures bound { IfOk result (λ n. n ≤ most) }
{
    match found {
        None => Err(RecordFault::Shape { place }),
        Some(got) if 0 <= got && got <= most as i128 => Ok(got as u64),
        Some(got) => Err(RecordFault::Limit { place, got }),
    }
}

/// A number of 32 bits with a sign.
fn signed(found: Option<i128>, place: Place) -> Result<i32, RecordFault>
    ensures { result ≡ signed_in place found }
{
    match found {
        None => Err(RecordFault::Shape { place }),
        Some(got) if i32::MIN as i128 <= got && got <= i32::MAX as i128 => Ok(got as i32),
        Some(got) => Err(RecordFault::Limit { place, got }),
    }
}

/// The values as numbers of 32 bits with a sign. The first fault has the place of the list.
fn numbers(alloc: Global, values: &[Value], place: Place) -> Result<List<i32>, Refused<RecordFault>>
    ensures { Gives (each_from (λ _ d. signed_in place (whole_of d)) 0 (map view values.now))
        result }
{
    let mut numbers = List::new(alloc);
    for value in values {
        let number = signed(whole(Some(value)), place)?;
        numbers.push(number)?;
    }
    Ok(numbers)
}

/// A value of the text that has to be a record, and where it stands.
#[derive(Clone, Copy, Drop)]
pub(crate) struct Entry<'a> {
    pub part: Part,
    pub index: u32,
    pub value: &'a Value,
}

impl<'a> Entry<'a> {
    ghost use Rattle.graph_model.specs.Members.{name_of};
    ghost use Rattle.graph_model.specs.Refusals.{mapped};
    ghost use Rattle.graph_records.specs.Entries.{array_at, i32_at, i32s_at, list_in, object_at, or_shape, place_of};
    ghost use Rattle.graph_records.specs.Entries.{record_of, u32_at, u64_at};
    ghost use Rattle.graph_records.specs.Rows.{kind_name};

    /// The place of a member.
    pub fn place(&self, member: Member) -> Place
        ensures { result ≡ place_of (record_of self.now) member }
    {
        Place {
            part: self.part,
            index: self.index,
            member,
        }
    }

    /// The value of a member.
    pub fn member(&self, member: Member) -> Option<&'a Value>
        ensures { option_map (λ v. view v.now) result
            ≡ get (name_of member) (view self.now.value.now) }
    {
        self.value.get(member.name())
    }

    /// Nothing, where the value is an object.
    pub fn object(&self) -> Result<(), RecordFault>
        ensures { result ≡ object_at (record_of self.now) }
    {
        match self.value.is_object() {
            true => Ok(()),
            false => Err(RecordFault::Shape {
                place: self.place(Member::Item),
            }),
        }
    }

    /// The name of a node's kind.
    pub fn kind(&self) -> Result<&'a str, RecordFault>
        ensures { mapped (λ s. s.now) result ≡ kind_name (record_of self.now) }
    {
        match self.member(Member::Kind).and_then(Value::as_str) {
            Some(text) => Ok(text),
            None => Err(RecordFault::Shape {
                place: self.place(Member::Kind),
            }),
        }
    }

    /// The values of an array.
    fn array(&self, member: Member) -> Result<&'a [Value], RecordFault>
        ensures { mapped (λ vs. map view vs.now) result ≡ array_at (record_of self.now) member }
    {
        match self.member(member).and_then(items) {
            Some(values) => Ok(values),
            None => Err(RecordFault::Shape {
                place: self.place(member),
            }),
        }
    }

    /// The values of an array of at most `most`.
    pub fn list(&self, member: Member, most: usize) -> Result<&'a [Value], RecordFault>
        ensures exact { mapped (λ vs. map view vs.now) result
            ≡ list_in most (record_of self.now) member }
        ensures bound { IfOk result (λ vs. length vs.now ≤ most) }
    {
        let values = self.array(member)?;
        if values.len() <= most {
            return Ok(values);
        }
        Err(RecordFault::Limit {
            place: self.place(member),
            got: values.len() as i128,
        })
    }

    /// A number of 32 bits without a sign.
    pub fn u32(&self, member: Member) -> Result<u32, RecordFault>
        ensures { result ≡ u32_at (record_of self.now) member }
    {
        let found = whole(self.member(member));
        Ok(unsigned(found, u32::MAX as u64, self.place(member))? as u32)
    }

    /// A number of 64 bits without a sign.
    pub fn u64(&self, member: Member) -> Result<u64, RecordFault>
        ensures { result ≡ u64_at (record_of self.now) member }
    {
        unsigned(whole(self.member(member)), u64::MAX, self.place(member))
    }

    /// A number of 32 bits with a sign.
    pub fn i32(&self, member: Member) -> Result<i32, RecordFault>
        ensures { result ≡ i32_at (record_of self.now) member }
    {
        signed(whole(self.member(member)), self.place(member))
    }

    /// A list of numbers of 32 bits with a sign.
    pub fn i32s(&self, alloc: Global, member: Member) -> Result<List<i32>, Refused<RecordFault>>
        ensures { Gives (i32s_at (record_of self.now) member) result }
    {
        let values = self.array(member)?;
        numbers(alloc, values, self.place(member))
    }
}
