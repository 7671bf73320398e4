// Sign-on verdicts and their reasons: what is right, and the types of an answer. Start with `specs/Verdict.antt` and
// `specs/Reason.antt`; what is proved of them is in `specs/Theorems.antt` and `specs/ReasonTheorems.antt`.

#![tactic(auto)]

// A verdict (the specification's own term). C is given its number: 0002, 0003 and 0004 by their digits, PANEL before
// them and GRANT after them.
#[derive(Clone, Copy, PartialEq, Eq)]
pub enum Verdict {
    Panel = 1,
    NotKnown = 2,
    Disabled = 3,
    Failed = 4,
    Grant = 5,
}

// Why a sign-on is answered as it is (change request No. 1, in its words and order). The tens of a reason's number, which
// C is given, are the number of its verdict; there is room for later reasons between them.
#[derive(Clone, Copy, PartialEq, Eq)]
pub enum Reason {
    PanelAskedFor = 10,
    NoUser = 21,
    BadName = 22,
    NotInTheTable = 23,
    Disabled = 31,
    SeedVariableMissing = 41,
    SubstituteMissing = 42,
    SeedLength = 43,
    SubstituteLength = 45,
    DesNotAllowed = 46,
    ClearPasswordMalformed = 48,
    TokenDiffers = 49,
    Granted = 50,
}
