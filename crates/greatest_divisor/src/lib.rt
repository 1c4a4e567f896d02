// The greatest common divisor of two numbers, by Euclid's way.
#![tactic(auto)]

ghost use Rattle.std.specs.Prelude.{◌≡◌};
ghost use Rattle.numbers.specs.definitions.Divisor as numbers;

pub fn divisor(a: usize, b: usize) -> usize
    ensures { result ≡ numbers.divisor a b }
{
    let mut high = a;
    let mut low = b;
    while 0 < low {
        let rest = high % low;
        high = low;
        low = rest;
    }
    high
}
