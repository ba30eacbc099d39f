ghost use Rattle.std.specs.Prelude.{◌≡◌, IfOk, None, Some, MatchOption};
ghost use Rattle.std.specs.List.{AllByRecursion};
ghost use Rattle.resp_value.specs.Data.{Data};
ghost use Rattle.resp_value.specs.View.{data_of, list_view};
ghost use Rattle.resp_convert.specs.Convert.{AreConverted, IsConverted, IsRead, IsReadEach, IsTold, told_by};
ghost use Rattle.resp_convert.specs.Types.{IsEach};
ghost use Rattle.resp_convert.specs.declared.convert.ConvertError.TheVariants.{NoMemory};

use crate::parts::bare;
use containers::Queue;
use resp_value::{ServerError, Value, Values};
use std::alloc::{AllocError, Global};
use std::fmt;
use thiserror::Error;

/// Why a value didn't become one of a type.
#[derive(Debug, Drop, Error)]
pub enum ConvertError {
    /// It isn't of the type, and is given back whole.
    #[error("{}", Refused(.value))]
    Convert { value: Value },
    #[error("out of memory")]
    NoMemory,
}

/// A value that isn't of a type, as people see it: the server's error, or the kind of value with what is in it.
#[derive(Clone, Copy)]
struct Refused<'a>(&'a Value);

impl fmt::Display for Refused<'_> {
    fn fmt<W: fmt::Write>(&self, f: &mut fmt::Formatter<W>) -> fmt::Result {
        match self.0 {
            Value::ServerError(error) => write!(f, "the server answered an error: {error}"),
            value => write!(f, "the value is of another type: {value:?}"),
        }
    }
}

impl ConvertError {
    /// The server's error, where the value that isn't of the type is one, or has attributes before one.
    pub fn server_error(&self) -> Option<&ServerError>
        ensures { MatchOption result
            (told_by self.now ≡ None)
            (λ e. told_by self.now ≡ Some e.now) }
    {
        match self {
            ConvertError::Convert { value } => match bare(value) {
                Value::ServerError(error) => Some(error),
                _ => None,
            },
            ConvertError::NoMemory => None,
        }
    }
}

impl From<AllocError> for ConvertError {
    ghost from_gives = { λ _ e. e ≡ NoMemory };

    fn from(_refused: AllocError) -> ConvertError {
        ConvertError::NoMemory
    }
}

/// What a look at a value tells of a type.
#[derive(Clone, Copy)]
pub enum Look {
    /// The value can be moved into one of the type.
    Fits,
    /// It is nothing of the type.
    Unfit,
    /// It isn't moved: it is read, if it is of the type.
    Untold,
}

/// A type that values are read as, or moved into: `reads` says which values are what of it, `fits` which can be taken, and
/// `moves` of which a look has to say so.
pub trait FromRedisValue: Sized {
    ghost reads: { Data → Self → Type 0 };

    ghost fits: { Data → Type 0 };

    ghost moves: { Data → Type 0 };

    /// What a value is as one of the type, if it is of the type.
    fn read_value(alloc: Global, value: &Value) -> Result<Option<Self>, AllocError>
        ensures { IfOk result (λ read. IsRead reads (data_of value.now) read) };

    /// What each of some values is as one of the type, in order, if each is of the type.
    fn read_values(alloc: Global, values: &[Value]) -> Result<Option<Vec<Self>>, AllocError>
    where
        Self: Drop,
        ensures { IfOk result (λ read. IsReadEach reads (Some (list_view values.now)) read) }
    {
        let mut read = Vec::new(alloc);
        for value in values {
            match Self::read_value(alloc, value)? {
                Some(item) => read.push(item)?,
                None => return Ok(None),
            }
        }
        Ok(Some(read))
    }

    /// Whether a value can be moved into one of the type.
    fn look(value: &Value) -> Look
        ensures { IsTold moves fits reads (data_of value.now) result };

    /// Whether each of some values can.
    fn look_at_values(values: &[Value]) -> Look
        ensures { IsTold (AllByRecursion moves) (AllByRecursion fits) (IsEach reads) (list_view values.now) result }
    {
        for value in values {
            match Self::look(value) {
                Look::Fits => {}
                Look::Unfit => return Look::Unfit,
                Look::Untold => return Look::Untold,
            }
        }
        Look::Fits
    }

    /// The value, moved into one of the type.
    fn take_value(alloc: Global, value: Value) -> Result<Self, AllocError>
        requires { fits (data_of value) }
        ensures { IfOk result (λ taken. reads (data_of value) taken) }
    {
        let read = Self::read_value(alloc, &value);
        drop(value);
        match read? {
            Some(read) => Ok(read),
            None => Err(AllocError),
        }
    }

    /// The values, each moved into one of the type, in order.
    fn take_values(alloc: Global, values: Values) -> Result<Vec<Self>, AllocError>
    where
        Self: Drop,
        requires { AllByRecursion fits values }
        ensures { IfOk result (λ taken. IsEach reads values taken.items) }
    {
        let mut taken = Vec::new(alloc);
        let mut rest = Queue::from_vec(values.into_vec());
        while let Some(value) = rest.pop_front() {
            taken.push(Self::take_value(alloc, value)?)?;
        }
        Ok(taken)
    }

    /// The value as one of the type. A value that isn't of the type is given back.
    fn from_redis_value(alloc: Global, value: Value) -> Result<Self, ConvertError>
        ensures { IsConverted reads value result }
    {
        match Self::look(&value) {
            Look::Fits => {
                return match Self::take_value(alloc, value) {
                    Ok(taken) => Ok(taken),
                    Err(_) => Err(ConvertError::NoMemory),
                };
            }
            Look::Unfit => return Err(ConvertError::Convert { value }),
            Look::Untold => {}
        }
        match Self::read_value(alloc, &value) {
            Ok(Some(read)) => {
                drop(value);
                Ok(read)
            }
            Ok(None) => Err(ConvertError::Convert { value }),
            Err(_) => {
                drop(value);
                Err(ConvertError::NoMemory)
            }
        }
    }

    /// Each of the values as one of the type, in order. Where one of them isn't of the type, all are given back.
    fn from_redis_values(
        alloc: Global,
        values: Values,
    ) -> Result<Result<Vec<Self>, Values>, AllocError>
    where
        Self: Drop,
        ensures { IfOk result (λ made. AreConverted reads values made) }
    {
        match Self::look_at_values(values.as_slice()) {
            Look::Fits => return Ok(Ok(Self::take_values(alloc, values)?)),
            Look::Unfit => return Ok(Err(values)),
            Look::Untold => {}
        }
        match Self::read_values(alloc, values.as_slice())? {
            Some(read) => {
                drop(values);
                Ok(Ok(read))
            }
            None => Ok(Err(values)),
        }
    }
}
