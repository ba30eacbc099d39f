ghost use Rattle.std.specs.Prelude.{◌≡◌, ◌∷◌, [], OnOk, OnErr, codes, decimal, string_bytes, if◌then◌else◌};
ghost use Rattle.std.specs.Fmt.{signed_decimal};
ghost use Rattle.resp_write.specs.Arguments.{Arguments, IsFloatArgument, IsWritten, among, exactly, of_option};

use crate::command::Cmd;
use containers::{Bytes, Names};
use itoa::Buffer;
use std::alloc::{AllocError, Global};

/// What becomes arguments of a command: exactly those that the value determines, or some among those that stand for it.
pub trait ToRedisArgs {
    ghost args_of: { Arguments Self };

    /// Appends the arguments. An error leaves the command as it was.
    fn write_redis_args(&self, alloc: Global, cmd: &mut Cmd) -> Result<(), AllocError>
        ensures ok { OnOk result (IsWritten args_of self.now cmd.old cmd.new) }
        ensures err { OnErr result (cmd.new ≡ cmd.old) };
}

/// The bytes are one argument.
impl<'a> ToRedisArgs for &'a [u8] {
    ghost args_of = { exactly (λ bytes. bytes.now ∷ []) };

    fn write_redis_args(&self, alloc: Global, cmd: &mut Cmd) -> Result<(), AllocError> {
        cmd.arg(alloc, self)
    }
}

/// The text is one argument.
impl<'a> ToRedisArgs for &'a str {
    ghost args_of = { exactly (λ text. text.now ∷ []) };

    fn write_redis_args(&self, alloc: Global, cmd: &mut Cmd) -> Result<(), AllocError> {
        cmd.arg(alloc, self.as_bytes())
    }
}

/// The bytes are one argument.
impl ToRedisArgs for Bytes {
    ghost args_of = { exactly (λ bytes. bytes ∷ []) };

    fn write_redis_args(&self, alloc: Global, cmd: &mut Cmd) -> Result<(), AllocError> {
        cmd.arg(alloc, self.as_slice())
    }
}

/// The bytes are one argument.
impl ToRedisArgs for Vec<u8> {
    ghost args_of = { exactly (λ bytes. bytes.items ∷ []) };

    fn write_redis_args(&self, alloc: Global, cmd: &mut Cmd) -> Result<(), AllocError> {
        cmd.arg(alloc, self.as_slice())
    }
}

/// The text is one argument.
impl ToRedisArgs for String {
    ghost args_of = { exactly (λ text. string_bytes text ∷ []) };

    fn write_redis_args(&self, alloc: Global, cmd: &mut Cmd) -> Result<(), AllocError> {
        cmd.arg(alloc, self.as_bytes())
    }
}

/// A truth value is one argument, `1` or `0`.
impl ToRedisArgs for bool {
    ghost args_of = { exactly (λ on. (if on then codes "1" else codes "0") ∷ []) };

    fn write_redis_args(&self, alloc: Global, cmd: &mut Cmd) -> Result<(), AllocError> {
        if *self {
            cmd.arg(alloc, b"1")
        } else {
            cmd.arg(alloc, b"0")
        }
    }
}

/// None is no argument.
impl<T: ToRedisArgs> ToRedisArgs for Option<T> {
    ghost args_of = { of_option T.args_of };

    fn write_redis_args(&self, alloc: Global, cmd: &mut Cmd) -> Result<(), AllocError> {
        match self {
            Some(value) => value.write_redis_args(alloc, cmd),
            None => Ok(()),
        }
    }
}

/// A number is one argument, its decimal digits, with a sign where it is below 0.
impl ToRedisArgs for i8 {
    ghost args_of = { exactly (λ number. signed_decimal number ∷ []) };

    fn write_redis_args(&self, alloc: Global, cmd: &mut Cmd) -> Result<(), AllocError> {
        let mut digits = Buffer::new();
        cmd.arg(alloc, digits.format(*self).as_bytes())
    }
}

/// A number is one argument, its decimal digits, with a sign where it is below 0.
impl ToRedisArgs for i16 {
    ghost args_of = { exactly (λ number. signed_decimal number ∷ []) };

    fn write_redis_args(&self, alloc: Global, cmd: &mut Cmd) -> Result<(), AllocError> {
        let mut digits = Buffer::new();
        cmd.arg(alloc, digits.format(*self).as_bytes())
    }
}

/// A number is one argument, its decimal digits, with a sign where it is below 0.
impl ToRedisArgs for i32 {
    ghost args_of = { exactly (λ number. signed_decimal number ∷ []) };

    fn write_redis_args(&self, alloc: Global, cmd: &mut Cmd) -> Result<(), AllocError> {
        let mut digits = Buffer::new();
        cmd.arg(alloc, digits.format(*self).as_bytes())
    }
}

/// A number is one argument, its decimal digits, with a sign where it is below 0.
impl ToRedisArgs for i64 {
    ghost args_of = { exactly (λ number. signed_decimal number ∷ []) };

    fn write_redis_args(&self, alloc: Global, cmd: &mut Cmd) -> Result<(), AllocError> {
        let mut digits = Buffer::new();
        cmd.arg(alloc, digits.format(*self).as_bytes())
    }
}

/// A number is one argument, its decimal digits, with a sign where it is below 0.
impl ToRedisArgs for isize {
    ghost args_of = { exactly (λ number. signed_decimal number ∷ []) };

    fn write_redis_args(&self, alloc: Global, cmd: &mut Cmd) -> Result<(), AllocError> {
        let mut digits = Buffer::new();
        cmd.arg(alloc, digits.format(*self).as_bytes())
    }
}

/// A number is one argument, its decimal digits.
impl ToRedisArgs for u8 {
    ghost args_of = { exactly (λ number. decimal number ∷ []) };

    fn write_redis_args(&self, alloc: Global, cmd: &mut Cmd) -> Result<(), AllocError> {
        let mut digits = Buffer::new();
        cmd.arg(alloc, digits.format(*self).as_bytes())
    }
}

/// A number is one argument, its decimal digits.
impl ToRedisArgs for u16 {
    ghost args_of = { exactly (λ number. decimal number ∷ []) };

    fn write_redis_args(&self, alloc: Global, cmd: &mut Cmd) -> Result<(), AllocError> {
        let mut digits = Buffer::new();
        cmd.arg(alloc, digits.format(*self).as_bytes())
    }
}

/// A number is one argument, its decimal digits.
impl ToRedisArgs for u32 {
    ghost args_of = { exactly (λ number. decimal number ∷ []) };

    fn write_redis_args(&self, alloc: Global, cmd: &mut Cmd) -> Result<(), AllocError> {
        let mut digits = Buffer::new();
        cmd.arg(alloc, digits.format(*self).as_bytes())
    }
}

/// A number is one argument, its decimal digits.
impl ToRedisArgs for u64 {
    ghost args_of = { exactly (λ number. decimal number ∷ []) };

    fn write_redis_args(&self, alloc: Global, cmd: &mut Cmd) -> Result<(), AllocError> {
        let mut digits = Buffer::new();
        cmd.arg(alloc, digits.format(*self).as_bytes())
    }
}

/// A number is one argument, its decimal digits.
impl ToRedisArgs for usize {
    ghost args_of = { exactly (λ number. decimal number ∷ []) };

    fn write_redis_args(&self, alloc: Global, cmd: &mut Cmd) -> Result<(), AllocError> {
        let mut digits = Buffer::new();
        cmd.arg(alloc, digits.format(*self).as_bytes())
    }
}

/// A float is one argument, a short text that reads back as it, or `inf`, `-inf` or `NaN`.
impl ToRedisArgs for f64 {
    ghost args_of = { among IsFloatArgument };

    fn write_redis_args(&self, alloc: Global, cmd: &mut Cmd) -> Result<(), AllocError> {
        let mut digits = ryu::Buffer::new();
        cmd.arg(alloc, digits.format(*self).as_bytes())
    }
}

/// Each name is an argument, in order.
impl ToRedisArgs for Names {
    ghost args_of = { exactly (λ names. names) };

    fn write_redis_args(&self, alloc: Global, cmd: &mut Cmd) -> Result<(), AllocError> {
        cmd.append_args(alloc, self.as_slice())
    }
}
