// Why a call says no. The rules number the refusals by the question that is answered no (01: "The questions, in order").
#![tactic(auto)]

ghost use Rattle.std.specs.Prelude.{◌≡◌};
ghost use Rattle.refusal.specs.Number.{number};

#[derive(Clone, Copy, PartialEq, Eq, Debug)]
pub enum Refusal {
    // the number of lines, this line or the number of items at opening
    Opening = 1,
    // the end holds what no calls leave
    Unsound = 2,
    // the bytes are no message
    NoMessage = 3,
    // the message does not belong on this line
    WrongLine = 4,
    // an edit that was taken already, and one that comes too early
    Repeated = 5,
    Early = 6,
    // it has seen fewer edits than were acknowledged, or more than were made
    SeenTooFew = 7,
    SeenTooMany = 8,
    // the edit does not fit the list
    Misfit = 9,
    // no more inserts of this client, and no more edits
    Inserts = 10,
    Edits = 11,
    // a line has no slot for one more pending edit
    Full = 12,
    // no pending edit has that number
    NotPending = 13,
    // the lent buffer is too short
    Room = 14,
    // a packet's length
    Length = 15,
    // the ranks at opening
    Ranks = 16,
    // there is nothing to take back
    NothingMade = 17,
    // the lent bytes are too few for an end
    TooShort = 18,
}

impl Refusal {
    // The number that the rules give it.
    pub fn number(self) -> u8
        ensures { result ≡ number self }
    {
        self as u8
    }
}
