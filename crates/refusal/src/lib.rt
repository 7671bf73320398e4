// The refusals of the specification, "Refusal numbers", each by name. What each stands for is said in
// `specs/Refusal.antt`.
#![tactic(auto)]

ghost use Rattle.std.specs.Prelude.{◌≡◌, ℕ};
ghost use Rattle.refusal.specs.Refusal.{number, numbers};
ghost use Rattle.refusal.specs.RefusedBy.{number_or_0};

// Why something is refused. The note `OffAnsweredByOn` is no refusal: it is given with a changed state.
#[derive(Clone, Copy, PartialEq, Eq)]
pub enum Refusal {
    // Framing.
    CutShort = 1,
    Undoubled = 2,
    PayloadTooLong = 3,
    NoRoom = 4,
    PastTheEnd = 5,
    BadCommand = 6,
    NotWritable = 7,
    // Options. The last is the note.
    NotCarried = 10,
    AlreadySo = 11,
    UnderWay = 12,
    AlreadyQueued = 13,
    OffAnsweredByOn = 14,
    // Environment strings.
    NotIsOrInfo = 20,
    NoVariable = 21,
    BadEscape = 22,
    ValueInValue = 23,
    TooManyVariables = 24,
    RepeatedVariable = 25,
    BadVariableRecord = 27,
    // Profile table, token maker, sign-on and response records.
    BadTable = 30,
    BadProfile = 31,
    ProfilesNotAscending = 32,
    BadProfileName = 33,
    BadPassword = 34,
    BadServerSeed = 35,
    BadDeviceOrSystemName = 36,
    // Printer frames and the ledger.
    BadFrameLength = 40,
    BadRecordType = 41,
    BadDataFlow = 42,
    BadHeaderLength = 43,
    ReservedFlag = 44,
    BadOperation = 45,
    RecordHeld = 50,
    NoneHeld = 51,
    InboundFrame = 52,
}

impl Refusal {
    // The number of the specification's table.
    pub fn number(self) -> u8
        ensures { result ≡ number self }
    {
        self as u8
    }
}

// What a refusal can be told by: one of the table's by its name, or any number as it is. So a line and a writer's
// answer can be told of a refusal that has no name here.
pub trait Numbered: Copy {
    ghost number_of: { Self → ℕ };

    // The number that is told.
    fn told(self) -> u8
        ensures { result ≡ number_of self };
}

impl Numbered for Refusal {
    ghost number_of = { number };

    fn told(self) -> u8 {
        self.number()
    }
}

impl Numbered for u8 {
    ghost number_of = { λ n. n };

    fn told(self) -> u8 {
        self
    }
}

// The number of a refusal or a note that may be given with a state, or 0 where there is none.
pub fn number_or_0(refusal: Option<Refusal>) -> u8
    ensures { result ≡ number_or_0 refusal }
{
    refusal.map_or(0, |r| r.number())
}

// Every number, in the order of the specification's table.
pub fn table() -> [u8; 35]
    ensures { result ≡ numbers }
{
    [
        Refusal::CutShort,
        Refusal::Undoubled,
        Refusal::PayloadTooLong,
        Refusal::NoRoom,
        Refusal::PastTheEnd,
        Refusal::BadCommand,
        Refusal::NotWritable,
        Refusal::NotCarried,
        Refusal::AlreadySo,
        Refusal::UnderWay,
        Refusal::AlreadyQueued,
        Refusal::OffAnsweredByOn,
        Refusal::NotIsOrInfo,
        Refusal::NoVariable,
        Refusal::BadEscape,
        Refusal::ValueInValue,
        Refusal::TooManyVariables,
        Refusal::RepeatedVariable,
        Refusal::BadVariableRecord,
        Refusal::BadTable,
        Refusal::BadProfile,
        Refusal::ProfilesNotAscending,
        Refusal::BadProfileName,
        Refusal::BadPassword,
        Refusal::BadServerSeed,
        Refusal::BadDeviceOrSystemName,
        Refusal::BadFrameLength,
        Refusal::BadRecordType,
        Refusal::BadDataFlow,
        Refusal::BadHeaderLength,
        Refusal::ReservedFlag,
        Refusal::BadOperation,
        Refusal::RecordHeld,
        Refusal::NoneHeld,
        Refusal::InboundFrame,
    ]
    .map(|r| r.number())
}
