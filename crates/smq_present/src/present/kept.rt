//! What is kept of each PDU, and the only readers that know the cases of its content.
ghost use Rattle.std.specs.Prelude.{◌≡◌, ◌++◌, ◌+◌, ◌<◌, ◌≤◌, IfOk, OnOk, OnErr, length, map, option_copied, option_map, take, vec_capacity, vec_len};
ghost use Rattle.std.specs.Arc.{arc_value};
ghost use Rattle.smq_pdu.specs.Decoded.{body_view};
ghost use Rattle.smq_pdu.specs.Placed.{placed_pdu};
ghost use Rattle.smq_present.specs.present.Kept.{content_of_body, kept_pdu, submit_in, id_in, reading_in, is_undecodable, receipt_in, receipt_read, is_unreadable, is_unusable};
ghost use Rattle.smq_present.specs.within.Contents.{content_kept, reading_kept};

use smq_frame::Frame;
use smq_kit::{MessageId, Moment};
use smq_pdu::{Body, Pdu, Submit, decode};
use smq_receipt::{Reading, Receipt, read};
use std::alloc::{AllocError, Global};
use std::marker::Model;
use std::sync::Arc;

/// What is kept of what a deliver_sm or data_sm says as a delivery receipt. Copies share the receipt.
#[derive(Drop)]
enum StoredReading {
    Receipt(Arc<Receipt, Global>),
    /// A receipt without a usable id, whether or not it has a state.
    NoId,
    /// A receipt with an id and without a usable state.
    NoState,
    NotReceipt,
}

/// What is kept of a data_sm, which may be a message of a client or what a centre hands to one (SMPP 3.4, 4.7.1).
#[derive(Drop)]
struct KeptDataSm {
    submit: Arc<Submit, Global>,
    reading: StoredReading,
}

/// What is kept of a PDU's body, by its cases. Copies share what stands behind an `Arc`.
#[derive(Drop)]
enum StoredBody {
    /// A submit_sm, as it was decoded (SMPP 3.4, 4.4.1).
    Submit(Arc<Submit, Global>),
    /// A submit_sm_resp or data_sm_resp, with its message_id, where that has 1 to 64 octets.
    SubmitAnswer {
        message_id: Option<Arc<MessageId, Global>>,
    },
    /// A deliver_sm, as what it says as a delivery receipt.
    Deliver {
        reading: StoredReading,
    },
    /// A data_sm. It is rare, and would be the largest case.
    DataSm(Arc<KeptDataSm, Global>),
    /// Every other command.
    Other,
    /// A submit_sm, deliver_sm or data_sm whose mandatory fields don't fit.
    Undecodable,
}

/// What is kept of a PDU's body. A contract sees it as the definitions have it.
#[derive(Drop)]
pub struct Content {
    body: StoredBody,
}

impl Model for Content {
    ghost use Rattle.smq_present.specs.present.Content.{Content as ContentOf};

    ghost Value = { ContentOf };

    ghost use Rattle.smq_present.specs.within.Contents.{content_kept};

    ghost view = { λ c. content_kept c.body };
}

/// What is kept of a PDU: its place in its direction, its moment, its header and what its body says.
#[derive(Drop)]
pub struct StoredPdu {
    /// In octets from the direction's first.
    pub offset: u64,
    /// That of its last octet.
    pub moment: Moment,
    /// command_id (SMPP 3.4, 5.1.2).
    pub command: u32,
    /// command_status (5.1.3), 0 for success.
    pub status: u32,
    /// sequence_number (5.1.4).
    pub seq: u32,
    pub content: Content,
}

/// The same id, or none, with one owner more. It takes no memory.
pub fn shared(
    id: &Option<Arc<MessageId, Global>>,
) -> Result<Option<Arc<MessageId, Global>>, AllocError>
    ensures { IfOk result (λ shared. option_map arc_value shared ≡ option_map arc_value id.now) }
{
    match id {
        None => Ok(None),
        Some(id) => Ok(Some(Arc::try_clone(id)?)),
    }
}

impl StoredReading {
    /// What is kept of a reading.
    fn of(alloc: Global, reading: Reading) -> Result<StoredReading, AllocError>
        ensures { IfOk result (λ kept. reading_kept kept ≡ reading) }
    {
        match reading {
            Reading::Receipt(receipt) => Ok(StoredReading::Receipt(Arc::new(alloc, receipt)?)),
            Reading::NoId => Ok(StoredReading::NoId),
            Reading::NoState => Ok(StoredReading::NoState),
            Reading::NotReceipt => Ok(StoredReading::NotReceipt),
        }
    }

    /// The delivery receipt, where it has an id and a state.
    fn receipt(&self) -> Option<&Receipt>
        ensures { option_copied result ≡ receipt_read (reading_kept self.now) }
    {
        match self {
            StoredReading::Receipt(receipt) => Some(receipt),
            _ => None,
        }
    }

    /// Whether it is of a receipt without a usable id or state.
    fn is_unusable(&self) -> bool
        ensures { result ≡ is_unusable (reading_kept self.now) }
    {
        match self {
            StoredReading::NoId => true,
            StoredReading::NoState => true,
            _ => false,
        }
    }

    /// An equal reading, which shares the receipt. It takes no memory.
    fn copy(&self) -> Result<StoredReading, AllocError>
        ensures { IfOk result (λ kept. reading_kept kept ≡ reading_kept self.now) }
    {
        match self {
            StoredReading::Receipt(receipt) => Ok(StoredReading::Receipt(Arc::try_clone(receipt)?)),
            StoredReading::NoId => Ok(StoredReading::NoId),
            StoredReading::NoState => Ok(StoredReading::NoState),
            StoredReading::NotReceipt => Ok(StoredReading::NotReceipt),
        }
    }
}

impl StoredBody {
    /// What is kept of a body.
    fn of(alloc: Global, body: Body<'_>) -> Result<StoredBody, AllocError>
        ensures { IfOk result (λ kept. content_kept kept ≡ content_of_body (body_view body.entry)) }
    {
        match body {
            Body::Submit(submit) => Ok(StoredBody::Submit(Arc::new(alloc, submit)?)),
            Body::SubmitAnswer(answer) => Ok(StoredBody::SubmitAnswer {
                message_id: kept_id(alloc, answer.message_id)?,
            }),
            Body::Deliver(deliver) => Ok(StoredBody::Deliver {
                reading: StoredReading::of(alloc, read(&deliver))?,
            }),
            Body::DataSm(message) => {
                let both = KeptDataSm {
                    submit: Arc::new(alloc, message.submit())?,
                    reading: StoredReading::of(alloc, read(&message.deliver()))?,
                };
                Ok(StoredBody::DataSm(Arc::new(alloc, both)?))
            },
            Body::Other => Ok(StoredBody::Other),
            Body::Undecodable => Ok(StoredBody::Undecodable),
        }
    }

    /// An equal body, which shares what stands behind an `Arc`. It takes no memory.
    fn copy(&self) -> Result<StoredBody, AllocError>
        ensures { IfOk result (λ kept. content_kept kept ≡ content_kept self.now) }
    {
        match self {
            StoredBody::Submit(submit) => Ok(StoredBody::Submit(Arc::try_clone(submit)?)),
            StoredBody::SubmitAnswer { message_id } => Ok(StoredBody::SubmitAnswer {
                message_id: shared(message_id)?,
            }),
            StoredBody::Deliver { reading } => Ok(StoredBody::Deliver {
                reading: reading.copy()?,
            }),
            StoredBody::DataSm(both) => Ok(StoredBody::DataSm(Arc::try_clone(both)?)),
            StoredBody::Other => Ok(StoredBody::Other),
            StoredBody::Undecodable => Ok(StoredBody::Undecodable),
        }
    }
}

impl Content {
    /// The submit_sm or data_sm that it is, where it can be decoded.
    pub fn submit(&self) -> Option<&Submit>
        ensures { option_copied result ≡ submit_in self.now }
    {
        match &self.body {
            StoredBody::Submit(submit) => Some(submit),
            StoredBody::DataSm(both) => Some(&both.submit),
            _ => None,
        }
    }

    /// The same submit_sm or data_sm, with one owner more. It takes no memory.
    pub fn shared_submit(&self) -> Result<Option<Arc<Submit, Global>>, AllocError>
        ensures { IfOk result (λ submit. option_map arc_value submit ≡ submit_in self.now) }
    {
        match &self.body {
            StoredBody::Submit(submit) => Ok(Some(Arc::try_clone(submit)?)),
            StoredBody::DataSm(both) => Ok(Some(Arc::try_clone(&both.submit)?)),
            _ => Ok(None),
        }
    }

    /// The message id that a submit_sm_resp or data_sm_resp gives, where it gives one.
    pub fn message_id(&self) -> Option<&MessageId>
        ensures { option_copied result ≡ id_in self.now }
    {
        match &self.body {
            StoredBody::SubmitAnswer {
                message_id: Some(id),
            } => Some(id),
            _ => None,
        }
    }

    /// The same id, with one owner more. It takes no memory.
    pub fn shared_id(&self) -> Result<Option<Arc<MessageId, Global>>, AllocError>
        ensures { IfOk result (λ id. option_map arc_value id ≡ id_in self.now) }
    {
        match &self.body {
            StoredBody::SubmitAnswer { message_id } => shared(message_id),
            _ => Ok(None),
        }
    }

    /// What a deliver_sm or data_sm says as a delivery receipt.
    fn reading(&self) -> Option<&StoredReading>
        ensures { option_map reading_kept (option_copied result) ≡ reading_in self.now }
    {
        match &self.body {
            StoredBody::Deliver { reading } => Some(reading),
            StoredBody::DataSm(both) => Some(&both.reading),
            _ => None,
        }
    }

    /// The delivery receipt that it is, where it has an id and a state.
    pub fn receipt(&self) -> Option<&Receipt>
        ensures { option_copied result ≡ receipt_in self.now }
    {
        self.reading()?.receipt()
    }

    /// The same receipt, with one owner more. It takes no memory.
    pub fn shared_receipt(&self) -> Result<Option<Arc<Receipt, Global>>, AllocError>
        ensures { IfOk result (λ receipt. option_map arc_value receipt ≡ receipt_in self.now) }
    {
        match self.reading() {
            Some(StoredReading::Receipt(receipt)) => Ok(Some(Arc::try_clone(receipt)?)),
            _ => Ok(None),
        }
    }

    /// Whether it is a delivery receipt without a usable id or state (SMPP 3.4, 4.6.1, 4.7.1, appendix B).
    pub fn is_unreadable(&self) -> bool
        ensures { result ≡ is_unreadable self.now }
    {
        match self.reading() {
            Some(reading) => reading.is_unusable(),
            None => false,
        }
    }

    /// An equal content, which shares what stands behind an `Arc`. It takes no memory.
    fn copy(&self) -> Result<Content, AllocError>
        ensures { IfOk result (λ content. content ≡ self.now) }
    {
        Ok(Content {
            body: self.body.copy()?,
        })
    }

    /// Whether it is a submit_sm, deliver_sm or data_sm that can't be decoded.
    pub fn is_undecodable(&self) -> bool
        ensures { result ≡ is_undecodable self.now }
    {
        match &self.body {
            StoredBody::Undecodable => true,
            _ => false,
        }
    }
}

impl StoredPdu {
    /// An equal value, which shares what stands behind an `Arc`. It takes no memory.
    fn copy(&self) -> Result<StoredPdu, AllocError>
        ensures { IfOk result (λ pdu. pdu ≡ self.now) }
    {
        Ok(StoredPdu {
            offset: self.offset,
            moment: self.moment,
            command: self.command,
            status: self.status,
            seq: self.seq,
            content: self.content.copy()?,
        })
    }
}

/// What is kept of a message id, where there is one.
fn kept_id(
    alloc: Global,
    id: Option<MessageId>,
) -> Result<Option<Arc<MessageId, Global>>, AllocError>
    ensures { IfOk result (λ kept. option_map arc_value kept ≡ id) }
{
    match id {
        None => Ok(None),
        Some(id) => Ok(Some(Arc::new(alloc, id)?)),
    }
}

/// What is kept of a body.
fn content_of(alloc: Global, body: Body<'_>) -> Result<Content, AllocError>
    ensures { IfOk result (λ content. content ≡ content_of_body (body_view body.entry)) }
{
    Ok(Content {
        body: StoredBody::of(alloc, body)?,
    })
}

/// What is kept of the PDU that a frame is.
fn kept_of(alloc: Global, frame: &Frame) -> Result<StoredPdu, AllocError>
    ensures { IfOk result (λ pdu. pdu ≡ kept_pdu (placed_pdu frame.now)) }
{
    let Pdu {
        seq,
        command,
        status,
        body,
    } = decode(frame);
    Ok(StoredPdu {
        offset: frame.offset,
        moment: frame.moment,
        command,
        status,
        seq,
        content: content_of(alloc, body)?,
    })
}

/// What is kept of the PDUs that frames are, in order.
pub(crate) fn pdus_of(alloc: Global, frames: &[Frame]) -> Result<Vec<StoredPdu>, AllocError>
    ensures { IfOk result (λ pdus. pdus.items ≡ map kept_pdu (map placed_pdu frames.now)) }
{
    let mut pdus = Vec::with_capacity(alloc, frames.len())?;
    for frame in frames {
        pdus.push(kept_of(alloc, frame)?)?;
    }
    Ok(pdus)
}

/// Puts equal values after those that are there. An error changes nothing.
pub(crate) fn push_copies(to: &mut Vec<StoredPdu>, pdus: &[StoredPdu]) -> Result<(), AllocError>
    ensures ok { OnOk result (to.new.items ≡ to.old.items ++ pdus.now) }
    ensures err { OnErr result (to.new.items ≡ to.old.items) }
{
    let before = to.len();
    let pushed = push_each(to, pdus);
    if pushed.is_err() {
        to.truncate(before);
    }
    pushed
}

/// Puts equal values after those that are there, of which an error leaves some.
fn push_each(to: &mut Vec<StoredPdu>, pdus: &[StoredPdu]) -> Result<(), AllocError>
    ensures ok { OnOk result (to.new.items ≡ to.old.items ++ pdus.now) }
    ensures err { OnErr result (take (length to.old.items) to.new.items ≡ to.old.items) }
{
    make_room(to, pdus.len())?;
    for pdu in pdus {
        to.push_reserved(pdu.copy()?);
    }
    Ok(())
}

/// Makes room for so many more: where there is none, for an eighth of what is there at least, since a session stays for long.
pub(crate) fn make_room<T: Drop>(items: &mut Vec<T>, more: usize) -> Result<(), AllocError>
    ensures items { items.new.items ≡ items.old.items }
    ensures len { vec_len items.new ≡ vec_len items.old }
    ensures ok { OnOk result (vec_len items.new + more ≤ vec_capacity items.new) }
    ensures err { OnErr result (vec_capacity items.old < vec_len items.old + more) }
{
    if more <= items.capacity() - items.len() {
        return Ok(());
    }
    let eighth = items.len() / 8 + 3;
    items.reserve_exact(if more < eighth { eighth } else { more })
}
