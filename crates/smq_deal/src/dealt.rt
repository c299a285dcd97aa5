//! The parts to which PDUs are dealt, and the script of each.
ghost use Rattle.std.specs.Prelude.{◌≡◌, [], ◌∷◌, Bool, IfOk, None, OnOk, drop, map};
ghost use Rattle.std.specs.Io.KnownBytes.{Appends};
ghost use Rattle.smq_kit.specs.declared.link_key.LinkKey.{LinkKey};
ghost use Rattle.smq_deal.specs.Open.{is_open, last_known, settled_by, settled_clock};
ghost use Rattle.smq_deal.specs.Parts.{all_parts, by_key};
ghost use Rattle.smq_deal.specs.Texts.{both, clock_of, part_text, rows_of};

use crate::direction_rows::{Origin, write_direction};
use crate::head::Head;
use crate::keys::parts_of;
use crate::open::{BySettled, Open};
use crate::rule::{ByKey, Rule};
use smq_kit::{Dir, Moment};
use smq_present::{Direction, Present, Session, sessions_with_forms, sides_of};
use smq_report::ReportFault;
use std::alloc::{AllocError, Global};
use std::io::Write;

/// So many parts there may be.
pub const MOST_PARTS: u32 = 9_999;

/// The part of each PDU that is present, in the order of sessions, the client's first. No request is parted from its response, and no
/// accepted message or delivery receipt from another of its link that has its key.
#[derive(Drop)]
pub struct Dealt {
    /// Of each direction the parts of its PDUs, in order.
    directions: Vec<Vec<u32>>,
    /// The part of the octets behind the PDUs of a direction.
    ends: u32,
    /// The clock of the first part, where it isn't the script's.
    clock: Option<Moment>,
}

impl Dealt {
    /// Dealt by key to so many parts, one at least.
    pub fn by_key(alloc: Global, present: &Present, parts: u32) -> Result<Dealt, AllocError>
        ensures directions { IfOk result (λ dealt. map (λ parts. parts.items) dealt.directions.items
            ≡ all_parts (by_key parts) present.now) }
        ensures ends { IfOk result (λ dealt. dealt.ends ≡ 0) }
        ensures clock { IfOk result (λ dealt. dealt.clock ≡ None) }
    {
        let rule = ByKey { parts };
        Ok(Dealt {
            directions: directions_by(alloc, present, &rule)?,
            ends: 0,
            clock: None,
        })
    }

    /// Dealt to what is settled, which is the first part and has a clock at the last moment that is known, and the rest.
    pub fn by_settled(alloc: Global, present: &Present) -> Result<Dealt, AllocError>
        ensures directions { IfOk result (λ dealt. (unsettled : LinkKey → Bool)
            × ((key : LinkKey) → unsettled key ≡ is_open present.now key)
            × (map (λ parts. parts.items) dealt.directions.items
            ≡ all_parts (settled_by present.now.settings (last_known present.now) unsettled) present.now)) }
        ensures ends { IfOk result (λ dealt. dealt.ends ≡ 1) }
        ensures clock { IfOk result (λ dealt. dealt.clock ≡ settled_clock present.now) }
    {
        let open = Open::of(alloc, present)?;
        let rule = BySettled {
            settings: present.settings(),
            open: &open,
        };
        let now = open.moment();
        Ok(Dealt {
            directions: directions_by(alloc, present, &rule)?,
            ends: 1,
            clock: if now.milliseconds() > 0 {
                Some(now)
            } else {
                None
            },
        })
    }

    /// Writes the script of a part: the rows that set, and a row for each of its PDUs, in order. On an error a beginning of it
    /// has gone out.
    pub fn write<W: Write>(
        &self,
        alloc: Global,
        present: &Present,
        head: &Head,
        part: u32,
        writer: &mut W,
    ) -> Result<(), ReportFault>
        ensures { let parts = map (λ parts. parts.items) self.now.directions.items in
            OnOk result (Appends (W.contents writer.old) (W.contents writer.new)
            (part_text head.now self.now.clock present.now parts self.now.ends part)) }
    {
        head.write(alloc, self.clock_of(part), writer)?;
        let mut row = Vec::new(alloc);
        let mut left = self.directions.as_slice();
        for (number, session) in present.sessions() {
            left = self.write_session(alloc, *number, session, left, part, &mut row, writer)?;
        }
        Ok(())
    }

    /// The clock of a part, where it isn't the script's.
    fn clock_of(&self, part: u32) -> Option<Moment>
        ensures { result ≡ clock_of part self.now.clock }
    {
        if part == 0 { self.clock } else { None }
    }

    /// Writes the rows of both directions of a session, where these are the parts of their PDUs and of those behind; the latter.
    fn write_session<'a, W: Write>(
        &self,
        alloc: Global,
        number: u64,
        session: &Session,
        parts: &'a [Vec<u32>],
        part: u32,
        row: &mut Vec<u8>,
        writer: &mut W,
    ) -> Result<&'a [Vec<u32>], ReportFault>
        ensures left { IfOk result (λ left. left.now ≡ drop 2 parts.now) }
        ensures text { OnOk result (Appends (W.contents writer.old) (W.contents writer.new)
            (rows_of self.now.ends part (both (number, session.now)) (map (λ parts. parts.items) parts.now))) }
    {
        let origin = Origin::of(session, number, Dir::FromClient);
        let left = self.write_next(alloc, origin, &session.client, parts, part, row, writer)?;
        let origin = Origin::of(session, number, Dir::FromCentre);
        self.write_next(alloc, origin, &session.centre, left, part, row, writer)
    }

    /// Writes the rows of a direction, where these are the parts of its PDUs and of those behind; the latter.
    fn write_next<'a, W: Write>(
        &self,
        alloc: Global,
        origin: Origin,
        direction: &Direction,
        parts: &'a [Vec<u32>],
        part: u32,
        row: &mut Vec<u8>,
        writer: &mut W,
    ) -> Result<&'a [Vec<u32>], ReportFault>
        ensures left { IfOk result (λ left. left.now ≡ drop 1 parts.now) }
        ensures text { OnOk result (Appends (W.contents writer.old) (W.contents writer.new)
            (rows_of self.now.ends part ((origin, direction.now) ∷ []) (map (λ parts. parts.items) parts.now))) }
    {
        match parts.split_first() {
            Some((first, left)) => {
                let goes = first.as_slice();
                write_direction(alloc, origin, direction, goes, part, self.ends, row, writer)?;
                Ok(left)
            }
            None => Ok(parts),
        }
    }
}

/// Of each direction of each session, the client's first, the parts of its PDUs by a rule.
fn directions_by<R: Rule>(
    alloc: Global,
    present: &Present,
    rule: &R,
) -> Result<Vec<Vec<u32>>, AllocError>
    ensures { IfOk result (λ made. map (λ parts. parts.items) made.items ≡ all_parts (R.rule rule.now) present.now) }
{
    let mut directions = Vec::new(alloc);
    let sessions = sessions_with_forms(alloc, present)?;
    for view in sessions.as_slice() {
        let (client, centre) = sides_of(alloc, view.source.session, view.session)?;
        directions.push(parts_of(alloc, rule, view.source, &client)?)?;
        directions.push(parts_of(alloc, rule, view.source, &centre)?)?;
    }
    Ok(directions)
}
