// The rate of a run: cycles by instruction starts, as a double and to two places.
#![tactic(auto)]

ghost use Rattle.std.specs.Prelude.{◌≡◌};
ghost use Rattle.rate.specs.Rate.{rate_of, pattern, rate_bits, hundredths};

// Each count is a double exactly; they are divided once.
pub fn rate_of(cycles: u32, starts: u32) -> Option<f64>
    ensures { result ≡ rate_of cycles starts }
{
    if starts == 0 {
        None
    } else {
        Some(f64::from(cycles) / f64::from(starts))
    }
}

// The bits of a double. A NaN, which no rate is, has none of its own: 0 stands for them.
fn pattern_of(value: f64) -> u64
    ensures { result ≡ pattern value }
{
    if value.is_nan() { 0 } else { value.to_bits() }
}

// The bits of a rate, 0 where there is none.
pub fn bits_of(rate: Option<f64>) -> u64
    ensures { result ≡ rate_bits rate }
{
    match rate {
        None => 0,
        Some(average) => pattern_of(average),
    }
}

// Cycles by starts in hundredths, half rounded up, from the counts themselves; 0 where nothing started.
pub fn count_hundredths(cycles: u32, starts: u32) -> u64
    ensures { result ≡ hundredths cycles starts }
{
    if starts == 0 {
        0
    } else {
        (u64::from(cycles) * 200 + u64::from(starts)) / (u64::from(starts) * 2)
    }
}
