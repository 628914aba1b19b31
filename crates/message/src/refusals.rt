// The numbered refusals of a call and of what it reads.
ghost use Rattle.std.specs.Prelude.{◌≡◌};
ghost use Rattle.message.specs.Refusals.{number_of};

// Why a call, a message, a datagram or a walk is refused.
#[derive(Clone, Copy, Debug, PartialEq, Eq)]
pub enum Reason {
    RoomShort,
    RequestLong,
    BlockNotLegal,
    FieldCut,
    TagNotAllowed,
    LengthWrong,
    HeadWrong,
    TooManyBindings,
    SetUpRefused,
    TimerRange,
    DatagramBroken,
    VersionWrong,
    PduWrong,
    NoCounterpart,
    TooLong,
    NotAscending,
}

impl From<Reason> for u32 {
    ghost from_gives = { λ reason number. number ≡ number_of reason };

    fn from(reason: Reason) -> u32 {
        match reason {
            Reason::RoomShort => 1,
            Reason::RequestLong => 2,
            Reason::BlockNotLegal => 3,
            Reason::FieldCut => 4,
            Reason::TagNotAllowed => 5,
            Reason::LengthWrong => 6,
            Reason::HeadWrong => 7,
            Reason::TooManyBindings => 8,
            Reason::SetUpRefused => 9,
            Reason::TimerRange => 10,
            Reason::DatagramBroken => 16,
            Reason::VersionWrong => 17,
            Reason::PduWrong => 18,
            Reason::NoCounterpart => 19,
            Reason::TooLong => 20,
            Reason::NotAscending => 24,
        }
    }
}
