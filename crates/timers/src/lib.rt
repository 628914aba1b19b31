// Timer values in two units that the type checker keeps apart: hundredths and 256ths of a second.
#![tactic(auto)]

ghost use Rattle.std.specs.Prelude.{◌≡◌};
ghost use Rattle.timers.specs.Timers.{to256ths, to_hundredths, ticks_answer, hundredths_answer};

// Hundredths of a second.
#[derive(Clone, Copy, Debug, PartialEq, Eq, PartialOrd, Ord)]
pub struct Hundredths(pub u32);

// 256ths of a second.
#[derive(Clone, Copy, Debug, PartialEq, Eq, PartialOrd, Ord)]
pub struct Ticks(pub u32);

// The value is past the last one that has a counterpart in the other unit (refusal 10).
#[derive(Clone, Copy, Debug, PartialEq, Eq)]
pub struct OutOfRange;

// From hundredths to 256ths, rounded down.
pub fn to_256ths(t: Hundredths) -> Result<Ticks, OutOfRange>
    ensures { ticks_answer result ≡ to256ths t.0 }
{
    let n = t.0;
    if 25599 < n {
        return Err(OutOfRange);
    }
    Ok(Ticks(256 * n / 100))
}

// From 256ths to hundredths, rounded up.
pub fn to_hundredths(t: Ticks) -> Result<Hundredths, OutOfRange>
    ensures { hundredths_answer result ≡ to_hundredths t.0 }
{
    let b = t.0;
    if 65535 < b {
        return Err(OutOfRange);
    }
    Ok(Hundredths((100 * b + 255) / 256))
}
