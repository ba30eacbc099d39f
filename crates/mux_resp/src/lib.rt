//! RESP: values, reading, and writing. It gives on the items of the crates that have them.
#![tactic(auto)]

pub use containers::{Bytes, Names, Seq};
pub use redis_error::{ConfigName, ErrorKind, FaultKind, RedisError, RouteNumbers};
pub use resp_convert::{
    ConvertError, FromRedisValue, KeyValues, Look, written_numbers_are_read_back,
};
pub use resp_read::{Limits, ReadError, Reader};
pub use resp_value::{
    Aborts, Inner, Pairs, PushKind, Redirection, RetryMethod, ServerError, ServerErrorKind, Value,
    Values,
};
pub use resp_write::{
    ArgsIter, Cmd, CmdIter, Pipeline, SubscriptionAction, ToRedisArgs, canonical_text, cmd, pipe,
};
