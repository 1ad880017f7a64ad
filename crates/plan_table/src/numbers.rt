// A list of numbers.
ghost use Rattle.std.specs.Prelude.{◌≡◌, ◌<◌, Some, length, map, pos, slice_get};
ghost use Rattle.std.specs.List.{list_any};
ghost use Rattle.std.specs.Ordering.{int_eq};
ghost use Rattle.toml.specs.View.{view};
ghost use Rattle.plan_table.specs.Lines.{line_kind};
ghost use Rattle.plan_table.specs.Values.{number_or};
ghost use Rattle.plan_table.specs.Seen.{numbers_in};

use crate::values::{item, number_or};
use otn_base::LineKind;
use toml::Value;

/// A list of numbers, where it stands.
#[derive(Clone, Copy)]
pub enum Numbers<'a> {
    /// The values of a TOML list, each a number.
    Values(&'a [Value]),
    /// Slots.
    Bytes(&'a [u8]),
    /// A pace.
    Words(&'a [u32]),
}

impl Numbers<'_> {
    /// The kind of a line, where these lines are OTU3.
    pub fn line_kind(&self, line: i64) -> LineKind
        ensures { result ≡ line_kind (numbers_in self.now) line }
    {
        if self.contains(line) {
            LineKind::Otu3
        } else {
            LineKind::Otu2
        }
    }

    /// Whether the number is one of them.
    #[tactic(auto, using(crate::proofs::Steps::anys))]
    pub fn contains(&self, number: i64) -> bool
        ensures { result ≡ list_any (int_eq number) (numbers_in self.now) }
    {
        for i in 0..self.len() {
            if is_equal(number, self.at(i)) {
                return true;
            }
        }
        false
    }

    /// How many numbers there are.
    pub fn len(&self) -> usize
        ensures { result ≡ length (numbers_in self.now) }
    {
        match self {
            Numbers::Values(values) => values.len(),
            Numbers::Bytes(bytes) => bytes.len(),
            Numbers::Words(words) => words.len(),
        }
    }

    /// The number at the index.
    #[tactic(auto, using(crate::proofs::Lists::number_known))]
    pub fn at(&self, index: usize) -> i64
        requires { index < length (numbers_in self.now) }
        ensures { slice_get (numbers_in self.now) index ≡ Some result }
    {
        match self {
            Numbers::Values(values) => number_of(item(values, index)),
            Numbers::Bytes(bytes) => byte_at(bytes, index),
            Numbers::Words(words) => word_at(words, index),
        }
    }
}

fn is_equal(number: i64, other: i64) -> bool
    ensures { result ≡ int_eq number other }
{
    number == other
}

fn number_of(value: &Value) -> i64
    ensures { result ≡ number_or (pos 0) (Some (view value.now)) }
{
    number_or(Some(value), 0)
}

fn byte_at(bytes: &[u8], index: usize) -> i64
    requires { index < length bytes.now }
    ensures { slice_get (map pos bytes.now) index ≡ Some result }
{
    i64::from(bytes[index])
}

fn word_at(words: &[u32], index: usize) -> i64
    requires { index < length words.now }
    ensures { slice_get (map pos words.now) index ≡ Some result }
{
    i64::from(words[index])
}
