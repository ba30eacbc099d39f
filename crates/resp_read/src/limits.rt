ghost use Rattle.std.specs.Prelude.{◌≡◌};
ghost use Rattle.resp_read.specs.Grammar.{max_depth};
ghost use Rattle.resp_read.specs.Limits.{between, nearest_allowed, AreAllowed};

/// What a reader takes at most. Bytes that announce or hold more begin no value.
///
/// A reader has the nearest limits that are allowed: at least 32 bytes of a line, 64 of a bulk string and 16 values or
/// pairs, so that the head of each form fits, and none above the default ones.
#[derive(Clone, Copy, Debug, PartialEq, Eq)]
pub struct Limits {
    /// The bytes of a line, its CR LF not counted: by default 1,048,576.
    pub line: usize,
    /// The bytes of a bulk string, a bulk error or a verbatim string with its format: by default 536,870,912.
    pub bulk: usize,
    /// The values of an array, a set or a push, or the pairs of a map or of attributes: by default 2,147,483,647.
    pub count: usize,
    /// The aggregates and attributes that stand in one another: by default 100. Without any no aggregate is read but the
    /// array that is Nil.
    pub depth: usize,
}

fn most_depth() -> usize
    ensures { result ≡ max_depth }
{
    100
}

impl Default for Limits {
    ghost use Rattle.std.specs.Prelude.{◌≡◌};
    ghost use Rattle.resp_read.specs.Limits.{default_limits};

    ghost is_default = { λ limits. limits ≡ default_limits };

    fn default() -> Self {
        Limits {
            line: 1_048_576,
            bulk: 536_870_912,
            count: 2_147_483_647,
            depth: most_depth(),
        }
    }
}

fn nearest(least: usize, most: usize, wish: usize) -> usize
    ensures { result ≡ between least most wish }
{
    if wish < least {
        return least;
    }
    if wish > most { most } else { wish }
}

impl Limits {
    /// The allowed limits that are nearest to these: those that a reader has that is asked for these.
    pub fn nearest_allowed(self) -> Limits
        ensures nearest { result ≡ nearest_allowed self }
        ensures allowed { AreAllowed result }
    {
        let most = Limits::default();
        Limits {
            line: nearest(32, most.line, self.line),
            bulk: nearest(64, most.bulk, self.bulk),
            count: nearest(16, most.count, self.count),
            depth: nearest(0, most.depth, self.depth),
        }
    }
}
