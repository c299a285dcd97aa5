//! States of a message (SMPP 3.4, 5.2.28 and appendix B). One table has each state's number, word and finality; a
//! state is found by what stands there.
ghost use Rattle.std.specs.Prelude.{◌≡◌};
ghost use Rattle.smq_receipt.specs.Orders.{MessageStatesAreOrdered};
ghost use Rattle.smq_receipt.specs.States.{row_of, state_of_number, state_of_word};

use crate::text::same_letters;

/// All states, in the order of their numbers.
const STATES: [MessageState; 8] = [
    MessageState::Enroute,
    MessageState::Delivered,
    MessageState::Expired,
    MessageState::Deleted,
    MessageState::Undeliverable,
    MessageState::Accepted,
    MessageState::Unknown,
    MessageState::Rejected,
];

/// A state, in the order of its numbers 1 to 8 in message_state (SMPP 3.4, 5.2.28).
#[derive(Clone, Copy, Debug, PartialEq, Eq, PartialOrd, Ord)]
pub enum MessageState {
    Enroute,
    Delivered,
    Expired,
    Deleted,
    Undeliverable,
    Accepted,
    Unknown,
    Rejected,
}

/// What is said of a state: its number in message_state, its word in a text, and whether no other state follows it.
#[derive(Clone, Copy)]
struct Row {
    number: u8,
    word: &'static [u8],
    is_final: bool,
}

impl MessageState {
    ghost use Rattle.smq_receipt.specs.StateRows.{seen_row};

    /// The state of a number in message_state, where it has one.
    #[tactic(auto, unfolding(crate::specs::States::state_of_number))]
    pub fn from_number(number: u8) -> Option<MessageState>
        ensures { result ≡ state_of_number number }
    {
        STATES
            .iter()
            .copied()
            .find(|state| state.row().number == number)
    }

    /// The state of a word in a receipt's text, in any ASCII letter case.
    #[tactic(auto, unfolding(crate::specs::States::state_of_word))]
    pub(crate) fn from_word(word: &[u8]) -> Option<MessageState>
        ensures { result ≡ state_of_word word.now }
    {
        STATES
            .iter()
            .copied()
            .find(|state| same_letters(word, state.row().word))
    }

    /// Whether no other state follows. ENROUTE and ACCEPTED aren't final.
    pub fn is_final(self) -> bool
        ensures { result ≡ (row_of self).final }
    {
        self.row().is_final
    }

    /// The table of states.
    fn row(self) -> Row
        ensures { seen_row result ≡ row_of self }
    {
        let (number, word, is_final): (u8, &'static [u8], bool) = match self {
            MessageState::Enroute => (1, b"ENROUTE", false),
            MessageState::Delivered => (2, b"DELIVRD", true),
            MessageState::Expired => (3, b"EXPIRED", true),
            MessageState::Deleted => (4, b"DELETED", true),
            MessageState::Undeliverable => (5, b"UNDELIV", true),
            MessageState::Accepted => (6, b"ACCEPTD", false),
            MessageState::Unknown => (7, b"UNKNOWN", true),
            MessageState::Rejected => (8, b"REJECTD", true),
        };
        Row {
            number,
            word,
            is_final,
        }
    }
}

/// States are ordered by their numbers, and equal exactly where they are one.
pub fn message_states_are_ordered()
    ensures { MessageStatesAreOrdered }
{}
