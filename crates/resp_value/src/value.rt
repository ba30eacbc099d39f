ghost use Rattle.std.specs.Prelude.{◌≡◌, IfOk};
ghost use Rattle.resp_value.specs.View.{data_of};
ghost use Rattle.resp_value.specs.declared.value.Value.TheVariants.{Attribute, Push, VerbatimString};

use crate::push_kind::PushKind;
use crate::server_error::ServerError;
use containers::Bytes;
use std::alloc::{AllocError, Global};
use std::marker::Model;

/// Values in order. Contracts see the list of them.
#[derive(Drop)]
#[cycle(value)]
pub struct Values {
    items: Vec<Value>,
}

impl Model for Values {
    ghost use Rattle.std.specs.Prelude.{List};
    ghost use Rattle.std.specs.Coded.{coded_list};
    ghost use Rattle.resp_value.specs.Data.{Data, list_weight};
    ghost use Rattle.resp_value.specs.Code.{data_code};

    ghost Value = { List Data };

    ghost coded = { coded_list data_code };

    ghost use Rattle.resp_value.specs.View.{list_view};

    ghost view = { λ b. list_view b.items.items };

    ghost size = { list_weight };

    ghost use Rattle.resp_value.specs.Falls.{list_falls};
    ghost use Rattle.std.proofs.Common.{arith};

    ghost size_decreases = { λ a h. omega (arith, list_falls a.items.items) };
}

/// Keys, each with its value, in order. Contracts see the list of them.
#[derive(Drop)]
#[cycle(value)]
pub struct Pairs {
    items: Vec<(Value, Value)>,
}

impl Model for Pairs {
    ghost use Rattle.std.specs.Prelude.{List};
    ghost use Rattle.std.specs.Coded.{coded_list, coded×};
    ghost use Rattle.resp_value.specs.Data.{Data, pairs_weight};
    ghost use Rattle.resp_value.specs.Code.{data_code};

    ghost Value = { List (Data × Data) };

    ghost coded = { coded_list (coded× data_code data_code) };

    ghost use Rattle.resp_value.specs.View.{pairs_view};

    ghost view = { λ b. pairs_view b.items.items };

    ghost size = { pairs_weight };

    ghost use Rattle.resp_value.specs.Falls.{pairs_falls};
    ghost use Rattle.std.proofs.Common.{arith};

    ghost size_decreases = { λ a h. Prim.grind (arith, pairs_falls a.items.items) };
}

/// One value, which another holds. Contracts see that value.
#[derive(Drop)]
#[cycle(value)]
pub struct Inner {
    value: Box<Value>,
}

impl Model for Inner {
    ghost use Rattle.resp_value.specs.Data.{Data, weight};
    ghost use Rattle.resp_value.specs.Code.{data_code};

    ghost Value = { Data };

    ghost coded = { data_code };

    ghost use Rattle.resp_value.specs.View.{data_of};

    ghost view = { λ b. data_of b.value.value };

    ghost size = { weight };
}

/// A value of RESP, of either protocol.
#[derive(Drop)]
#[cycle(value)]
pub enum Value {
    Nil,
    Int(i64),
    BulkString(Bytes),
    Array(Values),
    SimpleString(Bytes),
    Okay,
    Map(Pairs),
    Attribute { inner: Inner, attributes: Pairs },
    Set(Values),
    Double(Bytes),
    Boolean(bool),
    VerbatimString { format: Bytes, text: Bytes },
    BigNumber(Bytes),
    Push { kind: PushKind, parts: Values },
    ServerError(ServerError),
}

impl Values {
    ghost use Rattle.std.specs.Prelude.{◌≡◌, ◌==◌, ◌≤◌, ◌∷◌, [], ◌++◌, length, take, drop, IfOk, OnOk, OnErr, MatchOption};
    ghost use Rattle.resp_value.specs.View.{data_of, list_view};

    /// No values. Takes no memory.
    pub fn new(alloc: Global) -> Values
        ensures { result ≡ [] }
    {
        Values {
            items: Vec::new(alloc),
        }
    }

    /// The values of a vector, not copied.
    pub fn from_vec(items: Vec<Value>) -> Values
        ensures { result ≡ list_view items.items }
    {
        Values { items }
    }

    /// The vector of the values, not copied. Takes no memory.
    pub fn into_vec(self) -> Vec<Value>
        ensures { list_view result.items ≡ self }
    {
        self.items
    }

    pub fn as_slice(&self) -> &[Value]
        ensures { list_view result.now ≡ self.now }
    {
        self.items.as_slice()
    }

    pub fn len(&self) -> usize
        ensures { result ≡ length self.now }
    {
        self.items.len()
    }

    pub fn is_empty(&self) -> bool
        ensures { result ≡ (length self.now == 0) }
    {
        self.items.is_empty()
    }

    /// One more value at the end. An error leaves the values as they were.
    pub fn push(&mut self, value: Value) -> Result<(), AllocError>
        ensures ok { OnOk result (self.new ≡ self.old ++ data_of value ∷ []) }
        ensures err { OnErr result (self.new ≡ self.old) }
    {
        self.items.push(value)?;
        Ok(())
    }

    /// The first value, taken out. The values behind it are moved up, so that a list is taken apart by `into_vec`.
    pub fn pop_front(&mut self) -> Option<Value>
        ensures { MatchOption result
            ((self.old ≡ []) × (self.new ≡ []))
            (λ v. self.old ≡ data_of v ∷ self.new) }
    {
        if self.items.is_empty() {
            None
        } else {
            Some(self.items.remove(0))
        }
    }

    /// Moves the values from `at` on into values of their own. An error leaves these as they were.
    pub fn split_off(&mut self, at: usize) -> Result<Values, AllocError>
        requires { at ≤ length self.old }
        ensures front { OnOk result (self.new ≡ take at self.old) }
        ensures back { IfOk result (λ moved. moved ≡ drop at self.old) }
        ensures err { OnErr result (self.new ≡ self.old) }
    {
        let items = self.items.split_off(at)?;
        Ok(Values { items })
    }

    #[cycle(copy)]
    pub fn clone(&self, alloc: Global) -> Result<Values, AllocError>
        ensures { IfOk result (λ v. v ≡ self.now) }
    {
        let mut copies = Values::new(alloc);
        for item in self.as_slice() {
            copies.push(item.clone(alloc)?)?;
        }
        Ok(copies)
    }
}

impl Pairs {
    ghost use Rattle.std.specs.Prelude.{◌≡◌, ◌==◌, ◌∷◌, [], ◌++◌, length, IfOk, OnOk, OnErr};
    ghost use Rattle.resp_value.specs.View.{data_of, pairs_view};

    /// No pairs. Takes no memory.
    pub fn new(alloc: Global) -> Pairs
        ensures { result ≡ [] }
    {
        Pairs {
            items: Vec::new(alloc),
        }
    }

    /// The pairs of a vector, not copied.
    pub fn from_vec(items: Vec<(Value, Value)>) -> Pairs
        ensures { result ≡ pairs_view items.items }
    {
        Pairs { items }
    }

    /// The vector of the pairs, not copied. Takes no memory.
    pub fn into_vec(self) -> Vec<(Value, Value)>
        ensures { pairs_view result.items ≡ self }
    {
        self.items
    }

    pub fn as_slice(&self) -> &[(Value, Value)]
        ensures { pairs_view result.now ≡ self.now }
    {
        self.items.as_slice()
    }

    /// How many pairs there are.
    pub fn len(&self) -> usize
        ensures { result ≡ length self.now }
    {
        self.items.len()
    }

    pub fn is_empty(&self) -> bool
        ensures { result ≡ (length self.now == 0) }
    {
        self.items.is_empty()
    }

    /// One more pair at the end. An error leaves the pairs as they were.
    pub fn push(&mut self, key: Value, value: Value) -> Result<(), AllocError>
        ensures ok { OnOk result (self.new ≡ self.old ++ (data_of key, data_of value) ∷ []) }
        ensures err { OnErr result (self.new ≡ self.old) }
    {
        self.items.push((key, value))?;
        Ok(())
    }

    #[cycle(copy)]
    pub fn clone(&self, alloc: Global) -> Result<Pairs, AllocError>
        ensures { IfOk result (λ v. v ≡ self.now) }
    {
        let mut copies = Pairs::new(alloc);
        for item in self.as_slice() {
            let key = item.0.clone(alloc)?;
            match item.1.clone(alloc) {
                Ok(value) => copies.push(key, value)?,
                Err(error) => {
                    drop(key);
                    return Err(error);
                }
            }
        }
        Ok(copies)
    }
}

impl Inner {
    ghost use Rattle.std.specs.Prelude.{◌≡◌, IfOk};
    ghost use Rattle.resp_value.specs.View.{data_of};

    pub fn new(alloc: Global, value: Value) -> Result<Inner, AllocError>
        ensures { IfOk result (λ v. v ≡ data_of value) }
    {
        Ok(Inner {
            value: Box::new(alloc, value)?,
        })
    }

    pub fn get(&self) -> &Value
        ensures { data_of result.now ≡ self.now }
    {
        &self.value
    }

    /// The value, not copied. Takes no memory.
    pub fn into_value(self) -> Value
        ensures { data_of result ≡ self }
    {
        Box::into_inner(self.value)
    }
}

impl Value {
    ghost use Rattle.std.specs.Prelude.{◌≡◌, IfOk};
    ghost use Rattle.resp_value.specs.View.{data_of};

    #[cycle(copy)]
    pub fn clone(&self, alloc: Global) -> Result<Value, AllocError>
        ensures { IfOk result (λ v. v ≡ self.now) }
    {
        match self {
            Value::Nil => Ok(Value::Nil),
            Value::Int(n) => Ok(Value::Int(*n)),
            Value::BulkString(text) => text.clone(alloc).map(Value::BulkString),
            Value::Array(items) => items.clone(alloc).map(Value::Array),
            Value::SimpleString(text) => text.clone(alloc).map(Value::SimpleString),
            Value::Okay => Ok(Value::Okay),
            Value::Map(pairs) => pairs.clone(alloc).map(Value::Map),
            Value::Attribute { inner, attributes } => clone_attribute(alloc, inner, attributes),
            Value::Set(items) => items.clone(alloc).map(Value::Set),
            Value::Double(text) => text.clone(alloc).map(Value::Double),
            Value::Boolean(on) => Ok(Value::Boolean(*on)),
            Value::VerbatimString { format, text } => clone_verbatim(alloc, format, text),
            Value::BigNumber(text) => text.clone(alloc).map(Value::BigNumber),
            Value::Push { kind, parts } => clone_push(alloc, kind, parts),
            Value::ServerError(error) => error.clone(alloc).map(Value::ServerError),
        }
    }
}

/// An attribute of an equal value and equal pairs.
#[cycle(copy)]
fn clone_attribute(alloc: Global, inner: &Inner, attributes: &Pairs) -> Result<Value, AllocError>
    ensures { IfOk result (λ v. v ≡ Attribute inner.now attributes.now) }
{
    let attributes = attributes.clone(alloc)?;
    match inner.get().clone(alloc) {
        Ok(value) => with_attributes(alloc, value, attributes),
        Err(error) => {
            drop(attributes);
            Err(error)
        }
    }
}

/// An attribute of this value and these pairs.
fn with_attributes(alloc: Global, value: Value, attributes: Pairs) -> Result<Value, AllocError>
    ensures { IfOk result (λ v. v ≡ Attribute (data_of value) attributes) }
{
    match Inner::new(alloc, value) {
        Ok(inner) => Ok(Value::Attribute { inner, attributes }),
        Err(error) => {
            drop(attributes);
            Err(error)
        }
    }
}

/// A push of an equal kind and equal parts.
#[cycle(copy)]
fn clone_push(alloc: Global, kind: &PushKind, parts: &Values) -> Result<Value, AllocError>
    ensures { IfOk result (λ v. v ≡ Push kind.now parts.now) }
{
    let kind = kind.clone(alloc)?;
    match parts.clone(alloc) {
        Ok(parts) => Ok(Value::Push { kind, parts }),
        Err(error) => {
            drop(kind);
            Err(error)
        }
    }
}

/// A text of an equal format and equal bytes.
fn clone_verbatim(alloc: Global, format: &Bytes, text: &Bytes) -> Result<Value, AllocError>
    ensures { IfOk result (λ v. v ≡ VerbatimString format.now text.now) }
{
    let format = format.clone(alloc)?;
    match text.clone(alloc) {
        Ok(text) => Ok(Value::VerbatimString { format, text }),
        Err(error) => {
            drop(format);
            Err(error)
        }
    }
}
