use crate::routing::{ResponsePolicy, SlotAddr};
use std::fmt;

/// What decides where a command goes.
#[derive(Clone, Copy, PartialEq, Eq)]
pub enum Form {
    AllPrimaries(ResponsePolicy),
    AllNodes(ResponsePolicy),
    /// Each argument is a key.
    EachKey(SlotAddr, ResponsePolicy),
    /// Each key is followed by its value.
    EachPair(SlotAddr, ResponsePolicy),
    Random,
    /// The second argument is how many keys there are, the third the first of them.
    CountedKey(SlotAddr),
    /// The key follows the argument STREAMS.
    AfterStreams(SlotAddr),
    /// The second argument is the key.
    SecondKey(SlotAddr),
    /// The first argument is the key.
    FirstKey(SlotAddr),
}

impl fmt::Debug for Form {
    fn fmt<W: fmt::Write>(&self, f: &mut fmt::Formatter<W>) -> fmt::Result {
        match self {
            Form::AllPrimaries(policy) => show(f, "AllPrimaries", policy),
            Form::AllNodes(policy) => show(f, "AllNodes", policy),
            Form::EachKey(addr, policy) => show_both(f, "EachKey", addr, policy),
            Form::EachPair(addr, policy) => show_both(f, "EachPair", addr, policy),
            Form::Random => f.write_str("Random"),
            Form::CountedKey(addr) => show(f, "CountedKey", addr),
            Form::AfterStreams(addr) => show(f, "AfterStreams", addr),
            Form::SecondKey(addr) => show(f, "SecondKey", addr),
            Form::FirstKey(addr) => show(f, "FirstKey", addr),
        }
    }
}

/// Shows a form of this name, with what it holds.
fn show<W: fmt::Write, T: fmt::Debug>(
    f: &mut fmt::Formatter<W>,
    name: &str,
    held: &T,
) -> fmt::Result {
    f.debug_tuple(name).field(held).finish()
}

/// Shows a form of this name, with the slot's address and the policy that it holds.
fn show_both<W: fmt::Write>(
    f: &mut fmt::Formatter<W>,
    name: &str,
    addr: &SlotAddr,
    policy: &ResponsePolicy,
) -> fmt::Result {
    f.debug_tuple(name).field(addr).field(policy).finish()
}

/// The commands of two words.
pub const TWO_WORD_COMMANDS: [(&[u8], &[u8], Form); 25] = [
    (
        b"SCRIPT",
        b"FLUSH",
        Form::AllPrimaries(ResponsePolicy::AllSucceeded),
    ),
    (
        b"SCRIPT",
        b"LOAD",
        Form::AllPrimaries(ResponsePolicy::AllSucceeded),
    ),
    (
        b"FUNCTION",
        b"LOAD",
        Form::AllPrimaries(ResponsePolicy::AllSucceeded),
    ),
    (
        b"FUNCTION",
        b"DELETE",
        Form::AllPrimaries(ResponsePolicy::AllSucceeded),
    ),
    (
        b"FUNCTION",
        b"FLUSH",
        Form::AllPrimaries(ResponsePolicy::AllSucceeded),
    ),
    (
        b"SCRIPT",
        b"EXISTS",
        Form::AllPrimaries(ResponsePolicy::And),
    ),
    (
        b"SCRIPT",
        b"KILL",
        Form::AllPrimaries(ResponsePolicy::OneSucceeded),
    ),
    (
        b"FUNCTION",
        b"KILL",
        Form::AllPrimaries(ResponsePolicy::OneSucceeded),
    ),
    (
        b"CONFIG",
        b"SET",
        Form::AllNodes(ResponsePolicy::AllSucceeded),
    ),
    (
        b"CONFIG",
        b"RESETSTAT",
        Form::AllNodes(ResponsePolicy::AllSucceeded),
    ),
    (
        b"CONFIG",
        b"REWRITE",
        Form::AllNodes(ResponsePolicy::AllSucceeded),
    ),
    (
        b"CLIENT",
        b"SETNAME",
        Form::AllNodes(ResponsePolicy::AllSucceeded),
    ),
    (
        b"SLOWLOG",
        b"RESET",
        Form::AllNodes(ResponsePolicy::AllSucceeded),
    ),
    (b"SLOWLOG", b"LEN", Form::AllNodes(ResponsePolicy::Sum)),
    (b"PUBSUB", b"NUMPAT", Form::AllNodes(ResponsePolicy::Sum)),
    (
        b"PUBSUB",
        b"CHANNELS",
        Form::AllNodes(ResponsePolicy::CombineArrays),
    ),
    (
        b"PUBSUB",
        b"SHARDCHANNELS",
        Form::AllNodes(ResponsePolicy::CombineArrays),
    ),
    (
        b"PUBSUB",
        b"NUMSUB",
        Form::AllNodes(ResponsePolicy::CombineMaps),
    ),
    (
        b"PUBSUB",
        b"SHARDNUMSUB",
        Form::AllNodes(ResponsePolicy::CombineMaps),
    ),
    (b"MEMORY", b"STATS", Form::AllNodes(ResponsePolicy::Special)),
    (b"SLOWLOG", b"GET", Form::AllNodes(ResponsePolicy::Special)),
    (b"CONFIG", b"GET", Form::Random),
    (b"CLIENT", b"GETNAME", Form::Random),
    (b"CLIENT", b"ID", Form::Random),
    (
        b"MEMORY",
        b"USAGE",
        Form::SecondKey(SlotAddr::ReplicaOptional),
    ),
];

/// The commands of one word. Of any other the first argument is the key, and it goes to the primary.
pub const ONE_WORD_COMMANDS: [(&[u8], Form); 80] = [
    (
        b"FLUSHALL",
        Form::AllPrimaries(ResponsePolicy::AllSucceeded),
    ),
    (b"FLUSHDB", Form::AllPrimaries(ResponsePolicy::AllSucceeded)),
    (b"PING", Form::AllPrimaries(ResponsePolicy::AllSucceeded)),
    (b"DBSIZE", Form::AllPrimaries(ResponsePolicy::Sum)),
    (b"WAIT", Form::AllPrimaries(ResponsePolicy::Min)),
    (b"KEYS", Form::AllPrimaries(ResponsePolicy::CombineArrays)),
    (
        b"RANDOMKEY",
        Form::AllPrimaries(ResponsePolicy::FirstSucceededNonEmptyOrAllEmpty),
    ),
    (b"INFO", Form::AllNodes(ResponsePolicy::Special)),
    (b"LASTSAVE", Form::AllNodes(ResponsePolicy::Special)),
    (
        b"MGET",
        Form::EachKey(SlotAddr::ReplicaOptional, ResponsePolicy::CombineArrays),
    ),
    (
        b"EXISTS",
        Form::EachKey(SlotAddr::ReplicaOptional, ResponsePolicy::Sum),
    ),
    (b"DEL", Form::EachKey(SlotAddr::Master, ResponsePolicy::Sum)),
    (
        b"UNLINK",
        Form::EachKey(SlotAddr::Master, ResponsePolicy::Sum),
    ),
    (
        b"TOUCH",
        Form::EachKey(SlotAddr::Master, ResponsePolicy::Sum),
    ),
    (
        b"MSET",
        Form::EachPair(SlotAddr::Master, ResponsePolicy::AllSucceeded),
    ),
    (b"ECHO", Form::Random),
    (b"DEBUG", Form::Random),
    (b"SUBSCRIBE", Form::Random),
    (b"PSUBSCRIBE", Form::Random),
    (b"UNSUBSCRIBE", Form::Random),
    (b"PUNSUBSCRIBE", Form::Random),
    (b"PUBLISH", Form::Random),
    (b"CLUSTER", Form::Random),
    (b"COMMAND", Form::Random),
    (b"TIME", Form::Random),
    (b"HELLO", Form::Random),
    (b"AUTH", Form::Random),
    (b"SELECT", Form::Random),
    (b"ASKING", Form::Random),
    (b"READONLY", Form::Random),
    (b"READWRITE", Form::Random),
    (b"MULTI", Form::Random),
    (b"EXEC", Form::Random),
    (b"DISCARD", Form::Random),
    (b"UNWATCH", Form::Random),
    (b"SCAN", Form::Random),
    (b"MONITOR", Form::Random),
    (b"ACL", Form::Random),
    (b"LATENCY", Form::Random),
    (b"EVAL", Form::CountedKey(SlotAddr::Master)),
    (b"EVALSHA", Form::CountedKey(SlotAddr::Master)),
    (b"FCALL", Form::CountedKey(SlotAddr::Master)),
    (b"EVAL_RO", Form::CountedKey(SlotAddr::ReplicaOptional)),
    (b"EVALSHA_RO", Form::CountedKey(SlotAddr::ReplicaOptional)),
    (b"FCALL_RO", Form::CountedKey(SlotAddr::ReplicaOptional)),
    (b"XREAD", Form::AfterStreams(SlotAddr::ReplicaOptional)),
    (b"XREADGROUP", Form::AfterStreams(SlotAddr::Master)),
    (b"OBJECT", Form::SecondKey(SlotAddr::ReplicaOptional)),
    (b"XINFO", Form::SecondKey(SlotAddr::ReplicaOptional)),
    (b"XGROUP", Form::SecondKey(SlotAddr::Master)),
    (b"BITOP", Form::SecondKey(SlotAddr::Master)),
    (b"GET", Form::FirstKey(SlotAddr::ReplicaOptional)),
    (b"STRLEN", Form::FirstKey(SlotAddr::ReplicaOptional)),
    (b"GETRANGE", Form::FirstKey(SlotAddr::ReplicaOptional)),
    (b"TTL", Form::FirstKey(SlotAddr::ReplicaOptional)),
    (b"PTTL", Form::FirstKey(SlotAddr::ReplicaOptional)),
    (b"TYPE", Form::FirstKey(SlotAddr::ReplicaOptional)),
    (b"HGET", Form::FirstKey(SlotAddr::ReplicaOptional)),
    (b"HGETALL", Form::FirstKey(SlotAddr::ReplicaOptional)),
    (b"HMGET", Form::FirstKey(SlotAddr::ReplicaOptional)),
    (b"HLEN", Form::FirstKey(SlotAddr::ReplicaOptional)),
    (b"HKEYS", Form::FirstKey(SlotAddr::ReplicaOptional)),
    (b"HVALS", Form::FirstKey(SlotAddr::ReplicaOptional)),
    (b"HEXISTS", Form::FirstKey(SlotAddr::ReplicaOptional)),
    (b"LRANGE", Form::FirstKey(SlotAddr::ReplicaOptional)),
    (b"LLEN", Form::FirstKey(SlotAddr::ReplicaOptional)),
    (b"LINDEX", Form::FirstKey(SlotAddr::ReplicaOptional)),
    (b"SCARD", Form::FirstKey(SlotAddr::ReplicaOptional)),
    (b"SMEMBERS", Form::FirstKey(SlotAddr::ReplicaOptional)),
    (b"SISMEMBER", Form::FirstKey(SlotAddr::ReplicaOptional)),
    (b"ZCARD", Form::FirstKey(SlotAddr::ReplicaOptional)),
    (b"ZSCORE", Form::FirstKey(SlotAddr::ReplicaOptional)),
    (b"ZRANGE", Form::FirstKey(SlotAddr::ReplicaOptional)),
    (b"ZRANK", Form::FirstKey(SlotAddr::ReplicaOptional)),
    (b"ZCOUNT", Form::FirstKey(SlotAddr::ReplicaOptional)),
    (b"XLEN", Form::FirstKey(SlotAddr::ReplicaOptional)),
    (b"XRANGE", Form::FirstKey(SlotAddr::ReplicaOptional)),
    (b"BITCOUNT", Form::FirstKey(SlotAddr::ReplicaOptional)),
    (b"GETBIT", Form::FirstKey(SlotAddr::ReplicaOptional)),
    (b"DUMP", Form::FirstKey(SlotAddr::ReplicaOptional)),
];
