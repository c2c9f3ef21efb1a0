// Document 01, "Numbers of refusal": why a call refuses, and how the code makes a refusal.
#![tactic(auto)]

ghost use Rattle.std.specs.Prelude.{◌≡◌};
ghost use Rattle.model.specs.Refusals.{refusal, refuse_if};
ghost use Rattle.refusals.specs.Answers.{number_of, refusal_of, check_of, Numbers};

mod unlisted;

pub use unlisted::Unlisted;

// Why a call refuses: what document 01, or a request of document 02, numbers 1 to 19 in this order, or another number, which
// no call of this library gives.
#[derive(Clone, Copy, PartialEq, Eq)]
pub enum Reason {
    TooShort,
    BadCabinets,
    BadFaults,
    BadMethod,
    BadWindow,
    BadLength,
    NoRoom,
    BadMark,
    BadMissing,
    TooManyFaults,
    BadPlan,
    TargetMissed,
    BadTrace,
    BadRoles,
    RunStopped,
    BadSpread,
    BadInterval,
    NoInterval,
    BadPair,
    Other(Unlisted),
}

// A refusal: its reason, and the lowest entry at fault for 8 and 9, where a run stopped for 15, else 0.
#[derive(Clone, Copy, PartialEq, Eq)]
pub struct Refusal {
    pub reason: Reason,
    pub place: u32,
}

impl Reason {
    // The reason that has a number, whichever it is.
    pub fn numbered(number: u8) -> Reason
        ensures { number_of result ≡ number }
    {
        match Reason::try_from(number) {
            Ok(reason) => reason,
            Err(_) => Reason::Other(Unlisted { number }),
        }
    }

    // The number of document 01's check.
    pub fn number(self) -> u8
        ensures { result ≡ number_of self }
    {
        match self {
            Reason::TooShort => 1,
            Reason::BadCabinets => 2,
            Reason::BadFaults => 3,
            Reason::BadMethod => 4,
            Reason::BadWindow => 5,
            Reason::BadLength => 6,
            Reason::NoRoom => 7,
            Reason::BadMark => 8,
            Reason::BadMissing => 9,
            Reason::TooManyFaults => 10,
            Reason::BadPlan => 11,
            Reason::TargetMissed => 12,
            Reason::BadTrace => 13,
            Reason::BadRoles => 14,
            Reason::RunStopped => 15,
            Reason::BadSpread => 16,
            Reason::BadInterval => 17,
            Reason::NoInterval => 18,
            Reason::BadPair => 19,
            Reason::Other(unlisted) => unlisted.number,
        }
    }

    // The refusal for this reason at the lowest entry at fault.
    pub fn at(self, place: u32) -> Refusal
        ensures { refusal_of result ≡ refusal (number_of self) place }
    {
        Refusal {
            reason: self,
            place,
        }
    }
}

// The refusal for a reason that is of no entry.
impl From<Reason> for Refusal {
    ghost from_gives = { λ reason r. refusal_of r ≡ refusal (number_of reason) 0 };

    fn from(reason: Reason) -> Refusal {
        reason.at(0)
    }
}

impl Refusal {
    // The number of document 01's check.
    pub fn number(self) -> u8
        ensures { result ≡ (refusal_of self).number }
    {
        self.reason.number()
    }
}

// A number that is no reason's.
#[derive(Clone, Copy, PartialEq, Eq)]
pub struct UnknownNumber(pub u8);

impl TryFrom<u8> for Reason {
    type Error = UnknownNumber;

    ghost try_from_gives = { Numbers };

    fn try_from(number: u8) -> Result<Reason, UnknownNumber> {
        match number {
            1 => Ok(Reason::TooShort),
            2 => Ok(Reason::BadCabinets),
            3 => Ok(Reason::BadFaults),
            4 => Ok(Reason::BadMethod),
            5 => Ok(Reason::BadWindow),
            6 => Ok(Reason::BadLength),
            7 => Ok(Reason::NoRoom),
            8 => Ok(Reason::BadMark),
            9 => Ok(Reason::BadMissing),
            10 => Ok(Reason::TooManyFaults),
            11 => Ok(Reason::BadPlan),
            12 => Ok(Reason::TargetMissed),
            13 => Ok(Reason::BadTrace),
            14 => Ok(Reason::BadRoles),
            15 => Ok(Reason::RunStopped),
            16 => Ok(Reason::BadSpread),
            17 => Ok(Reason::BadInterval),
            18 => Ok(Reason::NoInterval),
            19 => Ok(Reason::BadPair),
            _ => Err(UnknownNumber(number)),
        }
    }
}

// A check whose place is 0.
pub fn refuse_if(fails: bool, reason: Reason) -> Result<(), Refusal>
    ensures { check_of result ≡ refuse_if fails (number_of reason) }
{
    if fails { Err(reason.into()) } else { Ok(()) }
}
