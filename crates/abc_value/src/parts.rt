//! Making a value of its parts, and looking at them.
ghost use Rattle.std.specs.Prelude.{◌≡◌, ◌≤◌, length, IfOk, slice_get};
ghost use Rattle.std.specs.Option.{option_map};
ghost use Rattle.abc_value.specs.Tree.{text, compound, trees};
ghost use Rattle.abc_value.specs.Sizes.{length_of, IsMakingOf};
ghost use Rattle.abc_value.specs.Regular.{IsRegular, AreCharacters};
ghost use Rattle.abc_value.specs.Parts.{kind_of, number_of, codes_of, parts_of, keys_of};

use crate::sizes::sizes_of;
use crate::value::{Entry, Node};
use crate::{Kind, Value, ValueFault};
use abc_chunks::Chunks;
use abc_num::Num;
use abc_num::limits::MOST_ELEMENTS;
use std::alloc::Global;
use std::rc::Rc;

impl Value {
    /// The text of these characters. TooLong where there are too many.
    pub fn text(alloc: Global, b: &[u8]) -> Result<Value, ValueFault>
        requires { AreCharacters b.now }
        ensures value { IfOk result (λ v. v ≡ text b.now) }
        ensures sizes { IsMakingOf (text b.now) result }
    {
        if b.len() > MOST_ELEMENTS {
            return Err(ValueFault::TooLong);
        }
        Value::text_from(Vec::from_slice(alloc, b)?)
    }

    /// The text of these characters, which keeps the vector. TooLong where there are too many.
    pub fn text_from(codes: Vec<u8>) -> Result<Value, ValueFault>
        requires { AreCharacters codes.items }
        ensures value { IfOk result (λ v. v ≡ text codes.items) }
        ensures sizes { IsMakingOf (text codes.items) result }
    {
        let length = codes.len();
        if length > MOST_ELEMENTS {
            return Err(ValueFault::TooLong);
        }
        let alloc = *codes.allocator();
        Ok(Value {
            node: Node::Text(Rc::new(alloc, codes)?),
            height: 0,
            weight: length as u64 + 5,
        })
    }

    /// The compound of these fields, of which there are two or more. TooLong, TooDeep and TooLarge where a size of it is
    /// past its bound.
    pub fn compound(fields: Vec<Value>) -> Result<Value, ValueFault>
        requires { 2 ≤ length fields.items }
        ensures value { IfOk result (λ v. v ≡ compound (trees fields.items)) }
        ensures sizes { IsMakingOf (compound (trees fields.items)) result }
    {
        let parts = Chunks::from_vec(fields)?;
        let (height, weight) = sizes_of(&parts)?;
        Ok(Value {
            node: Node::Compound(parts),
            height,
            weight,
        })
    }

    /// How many characters, fields, elements or pairs there are; 0 for a number.
    pub fn len(&self) -> usize
        ensures length { result ≡ length_of self.now }
        ensures regular { IsRegular self.now }
    {
        match &self.node {
            Node::Number(_) => 0,
            Node::Text(codes) => codes.len(),
            Node::Compound(parts) => parts.len(),
            Node::List(parts) => parts.len(),
            Node::Table(entries) => entries.len(),
        }
    }

    /// The kind of the value.
    pub fn kind(&self) -> Kind
        ensures { result ≡ kind_of self.now }
    {
        match &self.node {
            Node::Number(_) => Kind::Number,
            Node::Text(_) => Kind::Text,
            Node::Compound(_) => Kind::Compound,
            Node::List(parts) if parts.items().is_empty() => Kind::Empty,
            Node::List(_) => Kind::List,
            Node::Table(_) => Kind::Table,
        }
    }

    /// The number that the value is, if it is one.
    pub fn as_number(&self) -> Option<&Num>
        ensures { option_map (λ n. n.now) result ≡ number_of self.now }
    {
        match &self.node {
            Node::Number(n) => Some(n),
            _ => None,
        }
    }

    /// The characters of a text, as one piece. Empty where the value is no text.
    pub fn codes(&self) -> &[u8]
        ensures codes { result.now ≡ codes_of self.now }
        ensures characters { AreCharacters result.now }
        ensures short { length result.now ≤ MOST_ELEMENTS }
    {
        match &self.node {
            Node::Text(codes) => codes.as_slice(),
            _ => &[],
        }
    }

    /// The character at place `i` of a text, counted from 0. None where the value is no text or has no such place.
    pub fn byte(&self, i: usize) -> Option<u8>
        ensures { result ≡ slice_get (codes_of self.now) i }
    {
        match &self.node {
            Node::Text(codes) => codes.get(i).copied(),
            _ => None,
        }
    }

    /// The field, element or associate at place `i`, counted from 0. None where the value is a number or a text, or has no
    /// such place.
    pub fn part(&self, i: usize) -> Option<&Value>
        ensures { option_map (λ v. v.now) result ≡ slice_get (parts_of self.now) i }
    {
        match &self.node {
            Node::Compound(parts) => nth(parts, i),
            Node::List(parts) => nth(parts.items(), i),
            Node::Table(entries) => nth_associate(entries.items(), i),
            _ => None,
        }
    }

    /// The key at place `i` of a table, counted from 0. None where the value is no table or has no such place.
    pub fn key(&self, i: usize) -> Option<&Value>
        ensures { option_map (λ v. v.now) result ≡ slice_get (keys_of self.now) i }
    {
        match &self.node {
            Node::Table(entries) => nth_key(entries.items(), i),
            _ => None,
        }
    }
}

fn nth(parts: &Chunks<Value>, i: usize) -> Option<&Value>
    ensures { option_map (λ v. v.now) result ≡ slice_get parts.now i }
{
    parts.get(i)
}

fn nth_key(entries: &Chunks<Entry>, i: usize) -> Option<&Value>
    ensures { option_map (λ v. v.now) result ≡ option_map (λ e. e.key) (slice_get entries.now i) }
{
    match entries.get(i) {
        Some(entry) => Some(&entry.key),
        None => None,
    }
}

fn nth_associate(entries: &Chunks<Entry>, i: usize) -> Option<&Value>
    ensures { option_map (λ v. v.now) result ≡ option_map (λ e. e.associate) (slice_get entries.now i) }
{
    match entries.get(i) {
        Some(entry) => Some(&entry.associate),
        None => None,
    }
}
