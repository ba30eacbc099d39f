ghost use Rattle.std.specs.Prelude.{◌≡◌, ◌≤◌, ◌||◌, neg_ℤ, pos, is_some, IfSome};
ghost use Rattle.resp_read.specs.Grammar.{is_digit};
ghost use Rattle.resp_read.specs.Digits.{greatest, AreKept, digit_to, digits_step, digits_run, natural_in, number_in, is_bare, are_digits};

/// What stands before the digits.
#[derive(Clone, Copy)]
pub enum Sign {
    NoSign,
    Plus,
    Minus,
}

/// What was read of a number.
#[derive(Clone, Copy)]
pub enum Digits {
    /// Nothing.
    Empty,
    /// A sign, and no digit.
    Signed(Sign),
    /// Digits with this number.
    Number(Sign, u64),
    /// Digits whose number is above each that is wanted.
    Above,
    /// No number begins so.
    Never,
}

/// The greatest number that is kept: that of the least one of 64 bits, without its sign.
const GREATEST: u64 = 9_223_372_036_854_775_808;

/// `0` to `9`.
pub fn is_decimal(b: u8) -> bool
    ensures { result ≡ is_digit b }
{
    b >= b'0' && b <= b'9'
}

/// One digit behind those with this number.
fn digit_behind(sign: Sign, n: u64, b: u8) -> Digits
    requires { n ≤ greatest }
    ensures { result ≡ digit_to sign n b }
{
    if !is_decimal(b) {
        return Digits::Never;
    }
    if n > GREATEST / 10 {
        return Digits::Above;
    }
    let next = 10 * n + u64::from(b - b'0');
    if next <= GREATEST {
        Digits::Number(sign, next)
    } else {
        Digits::Above
    }
}

impl Digits {
    /// With one byte more.
    pub fn then(self, b: u8) -> Digits
        requires { AreKept self }
        ensures step { result ≡ digits_step self b }
        ensures kept { AreKept result }
    {
        match self {
            Digits::Empty => match b {
                b'-' => Digits::Signed(Sign::Minus),
                b'+' => Digits::Signed(Sign::Plus),
                _ => digit_behind(Sign::NoSign, 0, b),
            },
            Digits::Signed(sign) => digit_behind(sign, 0, b),
            Digits::Number(sign, n) => digit_behind(sign, n, b),
            Digits::Above => {
                if is_decimal(b) {
                    Digits::Above
                } else {
                    Digits::Never
                }
            }
            Digits::Never => Digits::Never,
        }
    }

    /// With these bytes more.
    pub fn through(self, bytes: &[u8]) -> Digits
        requires { AreKept self }
        ensures run { result ≡ digits_run self bytes.now }
        ensures kept { AreKept result }
    {
        let mut digits = self;
        for b in bytes {
            digits = digits.then(*b);
        }
        digits
    }

    /// The number of 64 bits.
    pub fn number(self) -> Option<i64>
        requires { AreKept self }
        ensures { result ≡ number_in self }
    {
        match self {
            Digits::Number(Sign::Minus, n) => Some(negated(n)),
            Digits::Number(Sign::NoSign | Sign::Plus, n) => {
                if n < GREATEST { Some(n as i64) } else { None }
            }
            _ => None,
        }
    }

    /// Whether a number of 64 bits begins so.
    pub fn can_be_number(self) -> bool
        requires { AreKept self }
        ensures { result ≡ (is_bare self || is_some (number_in self)) }
    {
        match self {
            Digits::Empty | Digits::Signed(_) => true,
            _ => self.number().is_some(),
        }
    }

    /// The number without a sign, if it is at most `most`.
    pub fn natural(self, most: u64) -> Option<u64>
        ensures is { result ≡ natural_in most self }
        ensures fits { IfSome result (λ n. n ≤ most) }
    {
        match self {
            Digits::Number(Sign::NoSign, n) => if n <= most { Some(n) } else { None },
            _ => None,
        }
    }

    /// Whether there are digits.
    pub fn are_some(self) -> bool
        ensures { result ≡ are_digits self }
    {
        matches!(self, Digits::Number(..) | Digits::Above)
    }

    /// Whether digits begin so.
    pub fn can_be_some(self) -> bool
        ensures { result ≡ (is_bare self || are_digits self) }
    {
        !matches!(self, Digits::Never)
    }
}

fn negated(n: u64) -> i64
    requires { n ≤ greatest }
    ensures { result ≡ neg_ℤ (pos n) }
{
    if n == GREATEST { i64::MIN } else { -(n as i64) }
}
