ghost use Rattle.std.specs.Prelude.{◌≡◌, ◌↔◌, IsTrue, true};
ghost use Rattle.resp_value.specs.Data.{items_of, members_of, verbatim};
ghost use Rattle.resp_value.specs.View.{data_of, pair_of};
ghost use Rattle.resp_value.specs.Single.{is_single};
ghost use Rattle.resp_value.specs.Same.{same, same_error, same_items, same_kind, same_members, same_pair};

use crate::push_kind::PushKind;
use crate::server_error::ServerError;
use crate::value::{Pairs, Value, Values};
use containers::Bytes;

impl PartialEq for PushKind {
    ghost use Rattle.std.specs.Cmp.{partial_equiv_from_equiv};
    ghost use Rattle.resp_value.specs.Sameness.{kind_equivalence};

    ghost eq = { same_kind };

    ghost laws = { partial_equiv_from_equiv kind_equivalence };

    fn eq(&self, other: &PushKind) -> bool
        ensures test { result ≡ same_kind self.now other.now }
        ensures exact { IsTrue result ↔ (self.now ≡ other.now) }
    {
        same_kind(self, other)
    }
}

impl Eq for PushKind {
    ghost use Rattle.resp_value.specs.Sameness.{kind_equivalence};

    ghost laws = { kind_equivalence };
}

impl PartialEq for ServerError {
    ghost use Rattle.std.specs.Cmp.{partial_equiv_from_equiv};
    ghost use Rattle.resp_value.specs.Sameness.{error_equivalence};

    ghost eq = { same_error };

    ghost laws = { partial_equiv_from_equiv error_equivalence };

    fn eq(&self, other: &ServerError) -> bool
        ensures test { result ≡ same_error self.now other.now }
        ensures exact { IsTrue result ↔ (self.now ≡ other.now) }
    {
        self.code == other.code && self.detail == other.detail
    }
}

impl Eq for ServerError {
    ghost use Rattle.resp_value.specs.Sameness.{error_equivalence};

    ghost laws = { error_equivalence };
}

impl PartialEq for Value {
    ghost use Rattle.std.specs.Cmp.{partial_equiv_from_equiv};
    ghost use Rattle.resp_value.specs.Sameness.{value_equivalence};

    ghost eq = { λ a b. same (data_of a) (data_of b) };

    ghost laws = { partial_equiv_from_equiv value_equivalence };

    fn eq(&self, other: &Value) -> bool
        ensures test { result ≡ same (data_of self.now) (data_of other.now) }
        ensures exact { IsTrue result ↔ (self.now ≡ other.now) }
    {
        same(self, other)
    }
}

impl Eq for Value {
    ghost use Rattle.resp_value.specs.Sameness.{value_equivalence};

    ghost laws = { value_equivalence };
}

impl PartialEq for Values {
    ghost use Rattle.std.specs.Cmp.{partial_equiv_from_equiv};
    ghost use Rattle.resp_value.specs.Sameness.{list_equivalence};

    ghost eq = { λ a b. same_items (items_of a) (items_of b) };

    ghost laws = { partial_equiv_from_equiv list_equivalence };

    fn eq(&self, other: &Values) -> bool
        ensures test { result ≡ same_items (items_of self.now) (items_of other.now) }
        ensures exact { IsTrue result ↔ (self.now ≡ other.now) }
    {
        same_items(self, other)
    }
}

impl Eq for Values {
    ghost use Rattle.resp_value.specs.Sameness.{list_equivalence};

    ghost laws = { list_equivalence };
}

impl PartialEq for Pairs {
    ghost use Rattle.std.specs.Cmp.{partial_equiv_from_equiv};
    ghost use Rattle.resp_value.specs.Sameness.{pairs_equivalence};

    ghost eq = { λ a b. same_members (members_of a) (members_of b) };

    ghost laws = { partial_equiv_from_equiv pairs_equivalence };

    fn eq(&self, other: &Pairs) -> bool
        ensures test { result ≡ same_members (members_of self.now) (members_of other.now) }
        ensures exact { IsTrue result ↔ (self.now ≡ other.now) }
    {
        same_members(self, other)
    }
}

impl Eq for Pairs {
    ghost use Rattle.resp_value.specs.Sameness.{pairs_equivalence};

    ghost laws = { pairs_equivalence };
}

/// Whether two kinds of pushes are the same.
fn same_kind(one: &PushKind, other: &PushKind) -> bool
    ensures { result ≡ same_kind one.now other.now }
{
    match one {
        PushKind::Disconnection => matches!(other, PushKind::Disconnection),
        PushKind::Other(text) => match other {
            PushKind::Other(other) => text == other,
            _ => false,
        },
        PushKind::Invalidate => matches!(other, PushKind::Invalidate),
        PushKind::Message => matches!(other, PushKind::Message),
        PushKind::PMessage => matches!(other, PushKind::PMessage),
        PushKind::SMessage => matches!(other, PushKind::SMessage),
        PushKind::Unsubscribe => matches!(other, PushKind::Unsubscribe),
        PushKind::PUnsubscribe => matches!(other, PushKind::PUnsubscribe),
        PushKind::SUnsubscribe => matches!(other, PushKind::SUnsubscribe),
        PushKind::Subscribe => matches!(other, PushKind::Subscribe),
        PushKind::PSubscribe => matches!(other, PushKind::PSubscribe),
        PushKind::SSubscribe => matches!(other, PushKind::SSubscribe),
    }
}

/// Whether two values are the same.
#[cycle(same)]
fn same(one: &Value, other: &Value) -> bool
    ensures { result ≡ same (data_of one.now) (data_of other.now) }
{
    match one {
        Value::Array(items) => matches!(other, Value::Array(i) if same_items(items, i)),
        Value::Map(pairs) => matches!(other, Value::Map(p) if same_members(pairs, p)),
        Value::Attribute { inner, attributes } => match other {
            Value::Attribute {
                inner: value,
                attributes: others,
            } => same(inner.get(), value.get()) && same_members(attributes, others),
            _ => false,
        },
        Value::Set(items) => matches!(other, Value::Set(i) if same_items(items, i)),
        Value::Push { kind, parts } => match other {
            Value::Push { kind: k, parts: p } => same_kind(kind, k) && same_items(parts, p),
            _ => false,
        },
        _ => same_single(one, other),
    }
}

/// Whether two values are the same, of which the one holds no other.
fn same_single(one: &Value, other: &Value) -> bool
    requires { is_single one.now ≡ true }
    ensures { result ≡ same (data_of one.now) (data_of other.now) }
{
    match one {
        Value::Nil => matches!(other, Value::Nil),
        Value::Int(number) => matches!(other, Value::Int(n) if *number == *n),
        Value::BulkString(text) => match other {
            Value::BulkString(other) => *text == *other,
            _ => false,
        },
        Value::SimpleString(text) => match other {
            Value::SimpleString(other) => *text == *other,
            _ => false,
        },
        Value::Okay => matches!(other, Value::Okay),
        Value::Double(text) => match other {
            Value::Double(other) => *text == *other,
            _ => false,
        },
        Value::Boolean(on) => matches!(other, Value::Boolean(o) if *on == *o),
        Value::VerbatimString { format, text } => same_verbatim(format, text, other),
        Value::BigNumber(text) => match other {
            Value::BigNumber(other) => *text == *other,
            _ => false,
        },
        Value::ServerError(error) => matches!(other, Value::ServerError(e) if *error == *e),
        _ => unreachable!(),
    }
}

/// Whether a value is this text with this format.
fn same_verbatim(format: &Bytes, text: &Bytes, other: &Value) -> bool
    ensures { result ≡ same (verbatim format.now text.now) (data_of other.now) }
{
    match other {
        Value::VerbatimString { format: f, text: t } => *format == *f && *text == *t,
        _ => false,
    }
}

/// Whether two lists of values are the same.
#[cycle(same)]
fn same_items(one: &Values, other: &Values) -> bool
    ensures { result ≡ same_items (items_of one.now) (items_of other.now) }
{
    let mut others = other.as_slice().iter();
    for item in one.as_slice() {
        let Some(other) = others.next() else {
            return false;
        };
        if !same(item, other) {
            return false;
        }
    }
    others.next().is_none()
}

/// Whether two lists of keys and values are the same.
#[cycle(same)]
fn same_members(one: &Pairs, other: &Pairs) -> bool
    ensures { result ≡ same_members (members_of one.now) (members_of other.now) }
{
    let mut others = other.as_slice().iter();
    for pair in one.as_slice() {
        let Some(other) = others.next() else {
            return false;
        };
        if !same_pair(pair, other) {
            return false;
        }
    }
    others.next().is_none()
}

/// Whether two keys are the same, and their values.
#[cycle(same)]
fn same_pair(one: &(Value, Value), other: &(Value, Value)) -> bool
    ensures { result ≡ same_pair (pair_of one.now) (pair_of other.now) }
{
    same(&one.0, &other.0) && same(&one.1, &other.1)
}
