// Why a stream ends, or a batch.
ghost use Rattle.std.specs.Prelude.{◌≡◌};
ghost use Rattle.console.specs.Refusals.{number_of};

// A wrong header or inner length, a message length over 1,472, and octets after 64 frames.
#[derive(Clone, Copy, Debug, PartialEq, Eq)]
pub enum StreamRefused {
    HeaderWrong,
    LengthOver,
    TooManyFrames,
}

impl From<StreamRefused> for u32 {
    ghost from_gives = { λ refused number. number ≡ number_of refused };

    fn from(refused: StreamRefused) -> u32 {
        match refused {
            StreamRefused::HeaderWrong => 21,
            StreamRefused::LengthOver => 22,
            StreamRefused::TooManyFrames => 23,
        }
    }
}
