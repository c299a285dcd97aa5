//! The lines for what a script leaves, as text.
use crate::tests::scripts::*;
use crate::tests::writers::Expecting;
use smq_book::Present;
use smq_kit::Form;
use smq_report::{write_messages, write_receipts};
use smq_scratch::{message_lines, receipt_lines};
use std::alloc::{AllocError, Global};

/// Ids are hexadecimal. Five messages: one that failed, two that share an id, one without a response, one that was refused; and five
/// receipts: two of the first before and after that which decides it, which comes in session 11, and one each of the ids of the others.
const SCRIPT: &[Step] = &[
    Step::Route(b"4477", 0, 3, b"23410"),
    Step::Forms(Form::Hexadecimal, Form::Hexadecimal),
    SUBMIT,
    Step::Client(10, 1000, Sent::Submit(2, NUMBER)),
    Step::Client(10, 1100, Sent::Submit(3, b"")),
    Step::Client(10, 1100, Sent::Submit(4, NUMBER)),
    Step::Client(10, 1100, Sent::Submit(5, NUMBER)),
    Step::Centre(10, 1200, Sent::Response(1, 0, b"a")),
    Step::Centre(10, 1200, Sent::Response(2, 0, b"b")),
    Step::Centre(10, 1200, Sent::Response(3, 0, b"b")),
    Step::Centre(10, 1200, Sent::Response(5, 8, b"c")),
    Step::Centre(10, 6000, Sent::Receipt(90, b"id:a stat:DELIVRD")),
    Step::Centre(11, 3000, Sent::Receipt(91, b"id:a stat:ENROUTE")),
    Step::Centre(
        11,
        5000,
        Sent::Receipt(
            92,
            b"id:a submit date:2502281234 done date:2502281235 stat:UNDELIV err:027",
        ),
    ),
    Step::Centre(11, 5000, Sent::Receipt(93, b"id:b stat:DELIVRD")),
    Step::Centre(11, 5000, Sent::Receipt(94, b"id:c stat:DELIVRD")),
];

/// A submit_sm to `NUMBER` has 49 octets and one to no number 37; a response with an id of one octet has 18.
const MESSAGES: &[u8] =
    b"link,session,offset,moment,number,route,network,outcome,error,id,response_offset,\
receipt_session,receipt_offset,receipt_moment,centre_delay,key,command,source,ton\n\
1,10,0,1000,447700900123,3,23410,failed,text:027,a,0,11,50,5000,60000,10,submit_sm,1000,0\n\
1,10,49,1000,447700900123,3,23410,ambiguous,,b,18,,,,,11,submit_sm,1000,0\n\
1,10,98,1100,,none,none,ambiguous,,b,36,,,,,11,submit_sm,1000,0\n\
1,10,135,1100,447700900123,3,23410,waiting,,,,,,,,,submit_sm,1000,0\n\
1,10,184,1100,447700900123,3,23410,refused,status:8,,54,,,,,,submit_sm,1000,0\n";

/// A deliver_sm has 33 octets and its text: 17 of it make 50, and 69 make 102.
const RECEIPTS: &[u8] =
    b"link,session,offset,moment,id,state,interim,error,standing,message_session,message_offset,key,command\n\
1,10,72,6000,a,delivered,no,unstated,extra,10,0,10,deliver_sm\n\
1,11,0,3000,a,enroute,no,unstated,noted,10,0,10,deliver_sm\n\
1,11,50,5000,a,undeliverable,no,text:027,deciding,10,0,10,deliver_sm\n\
1,11,152,5000,b,delivered,no,unstated,ambiguous,,,11,deliver_sm\n\
1,11,202,5000,c,delivered,no,unstated,stray,,,12,deliver_sm\n";

/// Whether the lines for messages read so.
fn has_messages(alloc: Global, present: &Present, text: &'static [u8]) -> Result<bool, AllocError> {
    let lines = message_lines(alloc, present)?;
    let mut writer = Expecting::of(text, usize::MAX);
    Ok(write_messages(alloc, lines.as_slice(), &mut writer).is_ok() && writer.has_all())
}

/// Whether those for delivery receipts do.
fn has_receipts(alloc: Global, present: &Present, text: &'static [u8]) -> Result<bool, AllocError> {
    let lines = receipt_lines(alloc, present)?;
    let mut writer = Expecting::of(text, usize::MAX);
    Ok(write_receipts(alloc, lines.as_slice(), &mut writer).is_ok() && writer.has_all())
}

#[test]
fn each_message_and_each_receipt_has_its_line(rt: HostRuntime) {
    let book = book_after(&rt, rt.alloc(), "lines", SCRIPT);
    let messages = has_messages(rt.alloc(), book.present(), MESSAGES);
    assert!(rt; messages == Ok(true), "messages");
    let receipts = has_receipts(rt.alloc(), book.present(), RECEIPTS);
    assert!(rt; receipts == Ok(true), "receipts");
}
