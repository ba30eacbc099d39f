ghost use Rattle.std.specs.Prelude.{◌≡◌, ◌<◌, ◌^◌, ℕ, ℤ, List, decimal};
ghost use Rattle.std.specs.Float.{Float};
ghost use Rattle.std.specs.Fmt.{signed_decimal};
ghost use mir.Syntax.{w64};
ghost use mir.Val.{SFits};
ghost use Rattle.resp_value.specs.Data.{bulk};
ghost use Rattle.resp_write.specs.Arguments.{IsFloatText};
ghost use Rattle.resp_convert.specs.Types.{IsFloat, IsInteger, IsNatural};

/// Does nothing. Its contract: the argument of a command that a number of 64 bits is written as, an integer or a float, is
/// read back, as a text, as that number and no other.
pub fn written_numbers_are_read_back()
    ensures signed { (n : ℤ) → SFits w64 n → IsInteger w64 (bulk (signed_decimal n)) n }
    ensures no_other { (n m : ℤ) → SFits w64 n → IsInteger w64 (bulk (signed_decimal n)) m
        → m ≡ n }
    ensures unsigned { (n : ℕ) → n < 2 ^ 64 → IsNatural 64 (bulk (decimal n)) n }
    ensures no_other_natural { (n m : ℕ) → n < 2 ^ 64 → IsNatural 64 (bulk (decimal n)) m
        → m ≡ n }
    ensures float { (x : Float) (text : List ℕ) → IsFloatText x text → IsFloat (bulk text) x }
    ensures no_other_float { (x y : Float) (text : List ℕ) → IsFloatText x text
        → IsFloat (bulk text) y → y ≡ x }
{}
