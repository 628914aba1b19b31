// The refusals of an event and of a report.
ghost use Rattle.std.specs.Prelude.{◌≡◌};
ghost use Rattle.tally.specs.Refusals.{number_of};

// Why an event changes nothing: the run is not legal or has ended, the event or its id is not known, the case may not start, or none is there to close.
#[derive(Clone, Copy, Debug, PartialEq, Eq)]
pub enum Refused {
    Run,
    Ended,
    Unknown,
    Start,
    Verdict,
}

impl From<Refused> for u32 {
    ghost from_gives = { λ refused number. number ≡ number_of refused };

    fn from(refused: Refused) -> u32 {
        match refused {
            Refused::Unknown => 11,
            Refused::Start => 12,
            Refused::Verdict => 13,
            Refused::Ended => 14,
            Refused::Run => 15,
        }
    }
}
