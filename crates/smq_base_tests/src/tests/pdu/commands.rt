//! Which commands are requests and responses, and which response agrees with which request.
use crate::tests::pdu::SUBMIT_SM;
use smq_pdu::{agrees, is_request, is_response};

/// A command_id, whether it is a request, and whether it is a response.
const COMMANDS: &[(&str, u32, bool, bool)] = &[
    ("bind_transceiver", 0x0000_0009, true, false),
    ("outbind", 0x0000_000b, false, false),
    ("alert_notification", 0x0000_0102, false, false),
    ("enquire_link", 0x0000_0015, true, false),
    ("data_sm", 0x0000_0103, true, false),
    ("an unknown request", 0x0000_7777, true, false),
    ("generic_nack", 0x8000_0000, false, true),
    ("submit_sm_resp", 0x8000_0004, false, true),
    ("an unknown response", 0x8000_7777, false, true),
];

/// A command_id, and whether it agrees with a submit_sm.
const RESPONSES: &[(&str, u32, bool)] = &[
    ("its own response", 0x8000_0004, true),
    ("generic_nack", 0x8000_0000, true),
    ("the response of another command", 0x8000_0005, false),
    ("data_sm_resp", 0x8000_0103, false),
    ("a request", 0x0000_0004, false),
];

fn is_told_apart(command: u32, request: bool, response: bool) -> bool {
    is_request(command) == request && is_response(command) == response
}

#[test]
fn commands_are_told_apart(rt: HostRuntime) {
    for (message, command, request, response) in COMMANDS {
        assert!(rt; is_told_apart(*command, *request, *response), "{message}");
    }
}

#[test]
fn responses_agree_with_their_request(rt: HostRuntime) {
    for (message, response, expected) in RESPONSES {
        assert!(rt; agrees(SUBMIT_SM, *response) == *expected, "{message}");
    }
}
