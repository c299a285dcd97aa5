//! The mandatory fields of submit_sm and deliver_sm (SMPP 3.4, 4.4.1 and 4.6.1), read from left to right, and the optional parameters
//! after them (5.3).
ghost use Rattle.std.specs.Prelude.{◌≡◌, ◌<◌, option_map, position, ◌==◌};
ghost use Rattle.smq_pdu.specs.Readers.{octet_at, c_octet_at, octets_at, address_at, mandatory_at, number_at, tlv_at, tlvs_of};
ghost use Rattle.smq_pdu.specs.within.Parts.{front_at, middle_at, back_at};
ghost use Rattle.smq_pdu.specs.within.Views.{seen_number, seen_octets, seen_address, seen_front, seen_middle, seen_back, seen_mandatory, seen_tlv};
ghost use Rattle.smq_pdu.specs.Parameters as defined;
ghost use Rattle.smq_pdu.specs.Decoded.{seen};

pub(crate) const RECEIPTED_MESSAGE_ID: u16 = 0x001e;

pub(crate) const NETWORK_ERROR_CODE: u16 = 0x0423;

pub(crate) const MESSAGE_PAYLOAD: u16 = 0x0424;

pub(crate) const MESSAGE_STATE: u16 = 0x0427;

/// A type of number, a numbering plan and an address.
#[derive(Clone, Copy)]
pub struct Address<'a> {
    pub ton: u8,
    pub npi: u8,
    pub text: &'a [u8],
}

/// The fields up to the addresses.
#[derive(Clone, Copy)]
pub struct Front<'a> {
    pub service_type: &'a [u8],
    pub source: Address<'a>,
    pub destination: Address<'a>,
}

/// The fields from esm_class to the times.
#[derive(Clone, Copy)]
pub struct Middle<'a> {
    pub esm_class: u8,
    pub protocol_id: u8,
    pub priority_flag: u8,
    pub schedule_delivery_time: &'a [u8],
    pub validity_period: &'a [u8],
}

/// The fields from registered_delivery to the message.
#[derive(Clone, Copy)]
pub struct Back<'a> {
    pub registered_delivery: u8,
    pub replace_if_present_flag: u8,
    pub data_coding: u8,
    pub sm_default_msg_id: u8,
    pub short_message: &'a [u8],
}

/// The mandatory fields of a submit_sm or deliver_sm, in the standard's order.
#[derive(Clone, Copy)]
pub struct Mandatory<'a> {
    pub front: Front<'a>,
    pub middle: Middle<'a>,
    pub back: Back<'a>,
}

/// The mandatory fields at the front of a body, and what follows them.
pub fn read_mandatory(octets: &[u8]) -> Option<(Mandatory<'_>, &[u8])>
    ensures { option_map seen_mandatory result ≡ mandatory_at octets.now }
{
    let (front, rest) = read_front(octets)?;
    let (middle, rest) = read_middle(rest)?;
    let (back, rest) = read_back(rest)?;
    let fields = Mandatory {
        front,
        middle,
        back,
    };
    Some((fields, rest))
}

/// The fields up to the addresses, and what follows.
#[tactic(auto, unfolding(crate::specs::within::Parts::front_at))]
fn read_front(octets: &[u8]) -> Option<(Front<'_>, &[u8])>
    ensures { option_map seen_front result ≡ front_at octets.now }
{
    let (service_type, rest) = read_text(octets)?;
    let (source, rest) = read_address(rest)?;
    let (destination, rest) = read_address(rest)?;
    let front = Front {
        service_type,
        source,
        destination,
    };
    Some((front, rest))
}

/// The fields from esm_class to the times, and what follows.
#[tactic(auto, unfolding(crate::specs::within::Parts::middle_at))]
fn read_middle(octets: &[u8]) -> Option<(Middle<'_>, &[u8])>
    ensures { option_map seen_middle result ≡ middle_at octets.now }
{
    let (esm_class, rest) = read_octet(octets)?;
    let (protocol_id, rest) = read_octet(rest)?;
    let (priority_flag, rest) = read_octet(rest)?;
    let (schedule_delivery_time, rest) = read_text(rest)?;
    let (validity_period, rest) = read_text(rest)?;
    let middle = Middle {
        esm_class,
        protocol_id,
        priority_flag,
        schedule_delivery_time,
        validity_period,
    };
    Some((middle, rest))
}

/// The fields from registered_delivery to the message, and what follows.
#[tactic(auto, unfolding(crate::specs::within::Parts::back_at))]
fn read_back(octets: &[u8]) -> Option<(Back<'_>, &[u8])>
    ensures { option_map seen_back result ≡ back_at octets.now }
{
    let (registered_delivery, rest) = read_octet(octets)?;
    let (replace_if_present_flag, rest) = read_octet(rest)?;
    let (data_coding, rest) = read_octet(rest)?;
    let (sm_default_msg_id, rest) = read_octet(rest)?;
    let (sm_length, rest) = read_octet(rest)?;
    let (short_message, rest) = read_octets(sm_length as usize, rest)?;
    let back = Back {
        registered_delivery,
        replace_if_present_flag,
        data_coding,
        sm_default_msg_id,
        short_message,
    };
    Some((back, rest))
}

/// An address, and what follows.
#[tactic(auto, unfolding(crate::specs::Readers::address_at))]
pub(crate) fn read_address(octets: &[u8]) -> Option<(Address<'_>, &[u8])>
    ensures { option_map seen_address result ≡ address_at octets.now }
{
    let (ton, rest) = read_octet(octets)?;
    let (npi, rest) = read_octet(rest)?;
    let (text, rest) = read_text(rest)?;
    Some((Address { ton, npi, text }, rest))
}

/// A text up to the first zero octet, and what follows that.
#[tactic(auto, using(crate::proofs::Texts::c_octet_facts))]
pub(crate) fn read_text(octets: &[u8]) -> Option<(&[u8], &[u8])>
    ensures { option_map seen_octets result ≡ c_octet_at octets.now }
{
    let len = zero_place(octets)?;
    Some((&octets[..len], &octets[len + 1..]))
}

/// The place of the first zero octet.
pub(crate) fn zero_place(octets: &[u8]) -> Option<usize>
    ensures { result ≡ position (λ x. x == 0) octets.now }
{
    octets.iter().position(|x| *x == 0)
}

/// So many octets, and what follows.
#[tactic(auto, unfolding(crate::specs::Readers::octets_at))]
fn read_octets(len: usize, octets: &[u8]) -> Option<(&[u8], &[u8])>
    ensures { option_map seen_octets result ≡ octets_at len octets.now }
{
    if octets.len() < len {
        return None;
    }
    Some(octets.split_at(len))
}

/// The first octet, and what follows.
pub(crate) fn read_octet(octets: &[u8]) -> Option<(u8, &[u8])>
    ensures { option_map seen_number result ≡ octet_at octets.now }
{
    let (first, rest) = octets.split_first()?;
    Some((*first, rest))
}

/// An optional parameter.
#[derive(Clone, Copy)]
pub struct Tlv<'a> {
    pub tag: u16,
    pub value: &'a [u8],
}

/// The value of the first parameter with this tag among those that the octets begin with.
pub(crate) fn first_value(tag: u16, octets: &[u8]) -> Option<&[u8]>
    ensures { seen result ≡ defined.first_value tag (tlvs_of octets.now) }
{
    let mut rest = octets;
    while let Some((tlv, after)) = read_tlv(rest) {
        if tlv.tag == tag {
            return Some(tlv.value);
        }
        rest = after;
    }
    None
}

/// A whole parameter, and what follows.
#[tactic(auto, unfolding(crate::specs::Readers::tlv_at))]
fn read_tlv(octets: &[u8]) -> Option<(Tlv<'_>, &[u8])>
    ensures { option_map seen_tlv result ≡ tlv_at octets.now }
{
    let (tag, rest) = read_number(octets)?;
    let (len, rest) = read_number(rest)?;
    let (value, rest) = read_octets(len as usize, rest)?;
    Some((Tlv { tag, value }, rest))
}

/// A number of two octets, and what follows.
#[tactic(auto, unfolding(crate::specs::Readers::number_at))]
fn read_number(octets: &[u8]) -> Option<(u16, &[u8])>
    ensures { option_map seen_number result ≡ number_at octets.now }
{
    let (number, rest) = octets.split_first_chunk::<2>()?;
    Some((u16::from_be_bytes(*number), rest))
}
