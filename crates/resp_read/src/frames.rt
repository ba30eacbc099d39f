ghost use Rattle.std.specs.Prelude.{◌≡◌, ℕ, List, IfOk};
ghost use Rattle.resp_value.specs.Data.{Data};
ghost use Rattle.resp_value.specs.View.{data_of};
ghost use Rattle.resp_read.specs.Parser.{Found};
ghost use Rattle.resp_read.specs.Frames.{made, with_values, with_pairs, with_value, begun_as, IsAdded};

use resp_value::{Inner, Pairs, PushKind, Value, Values};
use std::alloc::{AllocError, Global};

/// What values one after another make.
#[derive(Drop)]
pub enum Sequence {
    Array,
    Set,
    Push(PushKind),
}

/// What pairs one after another make.
#[derive(Clone, Copy)]
pub enum Pairing {
    Map,
    /// The attributes of the value behind them.
    Attributes,
}

/// An aggregate begun and not whole: what it holds so far, and how many values or pairs follow the one that it waits for.
#[derive(Drop)]
pub enum Frame {
    /// The next value of a sequence.
    Item {
        of: Sequence,
        found: Values,
        more: u64,
    },
    /// The next key, or the value of that key.
    Entry {
        of: Pairing,
        found: Pairs,
        key: Option<Value>,
        more: u64,
    },
    /// The value that has these attributes.
    Attributed {
        attributes: Pairs,
    },
}

/// A value, or an aggregate that waits for its next value.
#[derive(Drop)]
pub enum Begun {
    Whole(Value),
    Within(Frame),
}

fn make(of: Sequence, values: Values) -> Value
    ensures { data_of result ≡ made of values }
{
    match of {
        Sequence::Array => Value::Array(values),
        Sequence::Set => Value::Set(values),
        Sequence::Push(kind) => Value::Push {
            kind,
            parts: values,
        },
    }
}

/// Where these values were found, and so many are to come.
pub fn sequence_of(of: Sequence, found: Values, count: u64) -> Begun
    ensures { (inside : List ℕ → Found Data) (bs : List ℕ)
        → with_values inside of found count bs ≡ begun_as inside result bs }
{
    if count == 0 {
        return Begun::Whole(make(of, found));
    }
    Begun::Within(Frame::Item {
        of,
        found,
        more: count - 1,
    })
}

/// Where these pairs were found, and so many are to come.
pub fn pairing_of(of: Pairing, found: Pairs, count: u64) -> Begun
    ensures { (inside : List ℕ → Found Data) (bs : List ℕ)
        → with_pairs inside of found count bs ≡ begun_as inside result bs }
{
    if count > 0 {
        return Begun::Within(Frame::Entry {
            of,
            found,
            key: None,
            more: count - 1,
        });
    }
    match of {
        Pairing::Map => Begun::Whole(Value::Map(found)),
        Pairing::Attributes => Begun::Within(Frame::Attributed { attributes: found }),
    }
}

impl Frame {
    /// Takes the value that it waits for, where it waits for more behind it. Otherwise hands the value back, and stays as it
    /// was.
    pub fn add(&mut self, value: Value) -> Result<Option<Value>, AllocError>
        ensures { IsAdded self.old value result self.new }
    {
        match self {
            Frame::Item { found, more, .. } => {
                if *more == 0 {
                    return Ok(Some(value));
                }
                found.push(value)?;
                *more -= 1;
                Ok(None)
            }
            Frame::Entry {
                found,
                key,
                more,
                ..
            } => match key.take() {
                None => {
                    drop(std::mem::replace(key, Some(value)));
                    Ok(None)
                }
                Some(first) => {
                    if *more == 0 {
                        drop(std::mem::replace(key, Some(first)));
                        return Ok(Some(value));
                    }
                    found.push(first, value)?;
                    *more -= 1;
                    Ok(None)
                }
            },
            Frame::Attributed { .. } => Ok(Some(value)),
        }
    }

    /// With the value that it waits for.
    pub fn put(self, alloc: Global, value: Value) -> Result<Begun, AllocError>
        ensures { IfOk result (λ b. (inside : List ℕ → Found Data) (bs : List ℕ)
            → with_value inside self (data_of value) bs ≡ begun_as inside b bs) }
    {
        match self {
            Frame::Item {
                of,
                mut found,
                more,
            } => {
                found.push(value)?;
                Ok(sequence_of(of, found, more))
            }
            Frame::Entry {
                of,
                mut found,
                key,
                more,
            } => match key {
                Some(first) => {
                    found.push(first, value)?;
                    Ok(pairing_of(of, found, more))
                }
                None => Ok(Begun::Within(Frame::Entry {
                    of,
                    found,
                    key: Some(value),
                    more,
                })),
            },
            Frame::Attributed { attributes } => Ok(Begun::Whole(Value::Attribute {
                inner: Inner::new(alloc, value)?,
                attributes,
            })),
        }
    }
}
