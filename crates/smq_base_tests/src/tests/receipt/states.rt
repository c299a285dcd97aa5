//! States by their numbers.
use smq_receipt::MessageState;

/// A number, its state, and whether that is final.
const STATES: &[(u8, MessageState, bool)] = &[
    (1, MessageState::Enroute, false),
    (2, MessageState::Delivered, true),
    (6, MessageState::Accepted, false),
    (7, MessageState::Unknown, true),
];

fn is_state(number: u8, state: MessageState, is_final: bool) -> bool {
    MessageState::from_number(number) == Some(state) && state.is_final() == is_final
}

#[test]
fn states_have_their_numbers(rt: HostRuntime) {
    for (number, state, is_final) in STATES {
        assert!(rt; is_state(*number, *state, *is_final), "{number}");
    }
}
