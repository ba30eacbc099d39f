ghost use Rattle.std.specs.Prelude.{◌≡◌, ◌∷◌, [], ◌<◌, ◌^◌, ◌++◌, OnOk, length, suc, true, false};
ghost use Rattle.std.specs.Str.{byte};
ghost use Rattle.resp_value.specs.Data.{array, push, items_of, list_of, members_of, pairs_of};
ghost use Rattle.resp_value.specs.View.{data_of};
ghost use Rattle.resp_write.specs.Pack.{bulk_string, number_line};
ghost use Rattle.resp_write.specs.Canonical.{canonical, each_item, each_member, kind_text};
ghost use Rattle.trace_text.specs.Groups.{has_items, is_single};
ghost use Rattle.trace_text.specs.Words.{following};
ghost use Rattle.trace_text.specs.Writer.{AddedEscaped, AddedWords};

use crate::writer::Writer;
use driver_model::PushInfo;
use resp_value::{Pairs, PushKind, Value, Values};
use std::alloc::AllocError;

/// How many values there are.
fn count_of(values: &Values) -> usize
    ensures count { result ≡ length (list_of (items_of values.now)) }
    ensures fits { result < 2 ^ 63 }
{
    values.as_slice().len()
}

/// How many pairs there are.
fn count_of_pairs(pairs: &Pairs) -> usize
    ensures { result ≡ length (pairs_of (members_of pairs.now)) }
{
    pairs.as_slice().len()
}

impl Writer {
    /// One more word: the canonical text of a value.
    pub fn value_word(&mut self, value: &Value) -> Result<(), AllocError>
        ensures before { self.new.before ≡ self.old.before }
        ensures ok { OnOk result
            (AddedWords self.old self.new (canonical (data_of value.now) ∷ [])) }
    {
        self.push(b" ")?;
        self.value(value)
    }

    /// One more word: the canonical text of an array of these values.
    pub fn list_word(&mut self, values: &Values) -> Result<(), AllocError>
        ensures before { self.new.before ≡ self.old.before }
        ensures ok { OnOk result
            (AddedWords self.old self.new (canonical (array (items_of values.now)) ∷ [])) }
    {
        self.push(b" ")?;
        self.list(values)
    }

    /// One more word: the canonical text of a push.
    pub fn push_value_word(&mut self, info: &PushInfo) -> Result<(), AllocError>
        ensures before { self.new.before ≡ self.old.before }
        ensures ok { OnOk result
            (AddedWords self.old self.new
            (canonical (push info.now.kind (items_of info.now.parts)) ∷ [])) }
    {
        self.push(b" ")?;
        self.push_value(&info.kind, &info.parts)
    }

    /// What stands before the items of an array: how many there are.
    fn array_front(&mut self, items: &Values) -> Result<(), AllocError>
        ensures before { self.new.before ≡ self.old.before }
        ensures ok { OnOk result
            (AddedEscaped self.old self.new
            (number_line (byte "*") (length (list_of (items_of items.now))))) }
    {
        self.number_line(b'*', count_of(items))
    }

    /// What stands before the items of a set: how many there are.
    fn set_front(&mut self, items: &Values) -> Result<(), AllocError>
        ensures before { self.new.before ≡ self.old.before }
        ensures ok { OnOk result
            (AddedEscaped self.old self.new
            (number_line (byte "~") (length (list_of (items_of items.now))))) }
    {
        self.number_line(b'~', count_of(items))
    }

    /// What stands before the pairs of a map: how many there are.
    fn map_front(&mut self, pairs: &Pairs) -> Result<(), AllocError>
        ensures before { self.new.before ≡ self.old.before }
        ensures ok { OnOk result
            (AddedEscaped self.old self.new
            (number_line (byte "%") (length (pairs_of (members_of pairs.now))))) }
    {
        self.number_line(b'%', count_of_pairs(pairs))
    }

    /// What stands before attributes: how many there are.
    fn attribute_front(&mut self, pairs: &Pairs) -> Result<(), AllocError>
        ensures before { self.new.before ≡ self.old.before }
        ensures ok { OnOk result
            (AddedEscaped self.old self.new
            (number_line (byte "|") (length (pairs_of (members_of pairs.now))))) }
    {
        self.number_line(b'|', count_of_pairs(pairs))
    }

    /// What stands before the parts of a push: how many items it has, and its kind.
    fn push_front(&mut self, kind: &PushKind, parts: &Values) -> Result<(), AllocError>
        ensures before { self.new.before ≡ self.old.before }
        ensures ok { OnOk result
            (AddedEscaped self.old self.new
            (number_line (byte ">") (suc (length (list_of (items_of parts.now))))
            ++ bulk_string (kind_text kind.now))) }
    {
        self.number_line(b'>', count_of(parts) + 1)?;
        self.bulk_string(kind.name())
    }

    /// The canonical text of a push of this kind, with these parts behind it, each byte as itself or as its escape.
    fn push_value(&mut self, kind: &PushKind, parts: &Values) -> Result<(), AllocError>
        ensures before { self.new.before ≡ self.old.before }
        ensures ok { OnOk result
            (AddedEscaped self.old self.new (canonical (push kind.now (items_of parts.now)))) }
    {
        self.push_front(kind, parts)?;
        self.values(parts)
    }

    /// The canonical text of an array of these values, each byte as itself or as its escape.
    fn list(&mut self, values: &Values) -> Result<(), AllocError>
        ensures before { self.new.before ≡ self.old.before }
        ensures ok { OnOk result
            (AddedEscaped self.old self.new (canonical (array (items_of values.now)))) }
    {
        self.array_front(values)?;
        self.values(values)
    }

    /// The canonical text of a value that holds no others, each byte as itself or as its escape.
    fn single(&mut self, value: &Value) -> Result<(), AllocError>
        requires { is_single (data_of value.now) ≡ true }
        ensures before { self.new.before ≡ self.old.before }
        ensures ok { OnOk result
            (AddedEscaped self.old self.new (canonical (data_of value.now))) }
    {
        match value {
            Value::Nil => self.text_line(b'_', b""),
            Value::Int(number) => self.int(*number),
            Value::BulkString(text) => self.bulk_string(text.as_slice()),
            Value::SimpleString(text) => self.text_line(b'+', text.as_slice()),
            Value::Okay => self.text_line(b'+', b"OK"),
            Value::Double(text) => self.text_line(b',', text.as_slice()),
            Value::Boolean(on) => self.boolean(*on),
            Value::VerbatimString { format, text } => {
                self.verbatim(format.as_slice(), text.as_slice())
            }
            Value::BigNumber(text) => self.text_line(b'(', text.as_slice()),
            Value::ServerError(error) => self.error_value(error),
            _ => unreachable!(),
        }
    }

    /// The canonical text of a value, each byte as itself or as its escape.
    #[cycle(text)]
    fn value(&mut self, value: &Value) -> Result<(), AllocError>
        ensures before { self.new.before ≡ self.old.before }
        ensures ok { OnOk result
            (AddedEscaped self.old self.new (canonical (data_of value.now))) }
    {
        match value {
            Value::Array(items) => {
                self.array_front(items)?;
                self.values(items)
            }
            Value::Set(items) => {
                self.set_front(items)?;
                self.values(items)
            }
            Value::Push { kind, parts } => {
                self.push_front(kind, parts)?;
                self.values(parts)
            }
            _ => self.paired(value),
        }
    }

    /// The canonical text of a value that is no list of values, each byte as itself or as its escape.
    #[cycle(text)]
    fn paired(&mut self, value: &Value) -> Result<(), AllocError>
        requires { has_items (data_of value.now) ≡ false }
        ensures before { self.new.before ≡ self.old.before }
        ensures ok { OnOk result
            (AddedEscaped self.old self.new (canonical (data_of value.now))) }
    {
        match value {
            Value::Map(pairs) => {
                self.map_front(pairs)?;
                self.pairs(pairs)
            }
            Value::Attribute { inner, attributes } => {
                self.attribute_front(attributes)?;
                self.pairs(attributes)?;
                self.value(inner.get())
            }
            _ => self.single(value),
        }
    }

    /// Values one after another.
    #[cycle(text)]
    fn values(&mut self, values: &Values) -> Result<(), AllocError>
        ensures before { self.new.before ≡ self.old.before }
        ensures ok { OnOk result (AddedEscaped self.old self.new (each_item (items_of values.now))) }
    {
        for value in values.as_slice() {
            self.value(value)?;
        }
        Ok(())
    }

    /// Keys, each followed by its value.
    #[cycle(text)]
    fn pairs(&mut self, pairs: &Pairs) -> Result<(), AllocError>
        ensures before { self.new.before ≡ self.old.before }
        ensures ok { OnOk result
            (AddedEscaped self.old self.new (each_member (members_of pairs.now))) }
    {
        for pair in pairs.as_slice() {
            self.value(&pair.0)?;
            self.value(&pair.1)?;
        }
        Ok(())
    }
}
