// What a call of the bus comes to: how it was done or why it was refused, beside the state, and from it the answer with the number and
// the values of 01.
#![tactic(auto)]

ghost use Rattle.std.specs.Prelude.{◌≡◌};
ghost use Rattle.outcome.specs.Outcome.{refusal_number, answer_of};
ghost use Rattle.outcome.specs.Ended.{refused};

use bus_state::State;
use slots::Slot;

// The refusals of the bus, with their numbers.
#[derive(Clone, Copy, Debug, PartialEq, Eq)]
pub enum Refusal {
    WrongMemory = 1,
    BadNodeCount = 2,
    Invalid = 3,
    NotAttached = 4,
    BufferTooLong = 5,
    BadInjection = 6,
    FourPending = 8,
    QueueFull = 9,
    RoundsUsedUp = 10,
    RoomTooSmall = 11,
}

impl Refusal {
    // The number of 01.
    // Stays: a cast with a name; u32::from(refusal) would be no plainer (refusal_number).
    pub fn number(self) -> u32
        ensures { result ≡ refusal_number self }
    {
        self as u32
    }
}

// The ways in which a call is done.
#[derive(Clone, Copy, Debug, PartialEq, Eq)]
pub enum Done {
    Accepted,
    Idle,
    Carried {
        sender: u8,
        id: u32,
        errored: bool,
        age: u32,
    },
    Collected(u16),
}

pub type Outcome = Result<Done, Refusal>;

// An outcome with the state after it, and the four slots, from a position on, that are all it changes among the slots.
#[derive(Clone, Copy)]
pub struct Change {
    pub outcome: Outcome,
    pub state: State,
    pub at: usize,
    pub block: [Slot; 4],
}

impl Change {
    // Of a refusal: the four slots that are there are put back.
    pub fn refused(refusal: Refusal, state: State, at: usize, block: [Slot; 4]) -> Change
        ensures { result ≡ refused refusal state at block }
    {
        Change {
            outcome: Err(refusal),
            state,
            at,
            block,
        }
    }
}

// What a public call answers: the number of 01; of a round that is carried out sender, ID, whether errored, and age, or that it
// was idle; of a collect the length; and the state. What a call has no value for is 0.
// Stays: a number with flags and values beside it, as C has it (kf_round).
#[repr(C)]
#[derive(Clone, Copy)]
pub struct Answer {
    pub number: u32,
    pub id: u32,
    pub age: u32,
    pub length: u16,
    pub sender: u8,
    pub idle: u8,
    pub errored: u8,
    pub state: State,
}

// Stays: outcome and state make it together, and `From` takes one value (answer_of).
pub fn answer_of(outcome: Outcome, state: State) -> Answer
    ensures { result ≡ answer_of outcome state }
{
    let accepted = Answer {
        number: 0,
        id: 0,
        age: 0,
        length: 0,
        sender: 0,
        idle: 0,
        errored: 0,
        state,
    };
    match outcome {
        Err(refusal) => Answer {
            number: refusal.number(),
            ..accepted
        },
        Ok(Done::Accepted) => accepted,
        Ok(Done::Idle) => Answer {
            idle: 1,
            ..accepted
        },
        Ok(
            Done::Carried {
                sender,
                id,
                errored,
                age,
            },
        ) => Answer {
            id,
            age,
            sender,
            errored: errored as u8,
            ..accepted
        },
        Ok(Done::Collected(length)) => Answer { length, ..accepted },
    }
}
