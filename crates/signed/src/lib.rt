// Arithmetic of numbers with a sign: a sum with one more term, an amount with its sign turned, and the larger of two.
#![tactic(auto)]

ghost use Rattle.std.specs.Prelude.{◌<◌, ◌^◌, ◌≡◌, pos, neg_ℤ};
ghost use Rattle.signed.specs.Terms.{Addable, WithTerm};
ghost use Rattle.signed.specs.Larger.{IsLarger};

// A sum with one more term, weight times factor.
pub fn with_term(sum: i64, weight: usize, factor: i64) -> i64
    requires { Addable sum weight factor }
    ensures { WithTerm sum weight factor result }
{
    sum + weight as i64 * factor
}

// An amount with its sign turned.
pub fn minus(amount: usize) -> i64
    requires { amount < 2 ^ 32 }
    ensures { result ≡ neg_ℤ (pos amount) }
{
    -(amount as i64)
}

// The larger of two numbers.
pub fn larger(a: i64, b: i64) -> i64
    ensures { IsLarger a b result }
{
    a.max(b)
}
