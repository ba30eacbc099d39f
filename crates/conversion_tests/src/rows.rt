use resp_convert::{ConvertError, FromRedisValue, KeyValues};
use resp_read::Reader;
use resp_value::Value;
use std::alloc::{AllocError, Global};
use std::fmt::Debug;

/// The text of a value, and how what it becomes is shown: what is read of it, or the value that is given back.
pub type Row = (&'static [u8], &'static str);

/// The value of a text.
pub fn value_of(alloc: Global, text: &[u8]) -> Result<Value, AllocError> {
    let mut reader = Reader::new(alloc);
    reader.feed(text)?;
    match reader.next_value(alloc) {
        Ok(Some(value)) => Ok(value),
        Ok(None) | Err(_) => Err(AllocError),
    }
}

/// How the value of a text is shown as a type.
fn shown<T: FromRedisValue + Debug + Drop>(
    alloc: Global,
    text: &[u8],
) -> Result<String, AllocError> {
    let value = value_of(alloc, text)?;
    let read = T::from_redis_value(alloc, value);
    let shown = format!(in alloc; "{read:?}");
    drop(read);
    shown
}

fn is<T: FromRedisValue + Debug + Drop>(
    alloc: Global,
    text: &[u8],
    wanted: &str,
) -> Result<bool, AllocError> {
    let shown = shown::<T>(alloc, text)?;
    Ok(shown.as_str() == wanted)
}

/// Whether each text becomes as a type what stands beside it.
pub fn are<T: FromRedisValue + Debug + Drop>(
    alloc: Global,
    rows: &[Row],
) -> Result<bool, AllocError> {
    for (text, wanted) in rows {
        if !is::<T>(alloc, text, wanted)? {
            return Ok(false);
        }
    }
    Ok(true)
}

/// How keys and values are shown, or the value that is given back.
fn shown_pairs<K: Debug + Drop, V: Debug + Drop>(
    alloc: Global,
    read: &Result<KeyValues<K, V>, ConvertError>,
) -> Result<String, AllocError> {
    match read {
        Ok(read) => format!(in alloc; "{:?}", &read.pairs),
        Err(error) => format!(in alloc; "{error:?}"),
    }
}

/// How the value of a text is shown as keys and values.
fn shown_as_pairs<K: FromRedisValue + Debug + Drop, V: FromRedisValue + Debug + Drop>(
    alloc: Global,
    text: &[u8],
) -> Result<String, AllocError> {
    let value = value_of(alloc, text)?;
    let read = KeyValues::<K, V>::from_redis_value(alloc, value);
    let shown = shown_pairs(alloc, &read);
    drop(read);
    shown
}

/// Whether a text becomes these keys and values, in their order.
pub fn are_pairs<K: FromRedisValue + Debug + Drop, V: FromRedisValue + Debug + Drop>(
    alloc: Global,
    text: &[u8],
    wanted: &str,
) -> Result<bool, AllocError> {
    let shown = shown_as_pairs::<K, V>(alloc, text)?;
    Ok(shown.as_str() == wanted)
}
