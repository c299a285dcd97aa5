//! Gaps of a connection that are given up, and the sessions that begin behind them.
ghost use Rattle.std.specs.Prelude.{◌≡◌, List, IfOk, IfSome, OnOk, Ok, Some, None, false};
ghost use Rattle.smq_reassembly.specs.Octet.{Octet};
ghost use Rattle.smq_capture.specs.Flow.{FlowsIn, History, Stays, direction_of, with_direction, with_passed};
ghost use Rattle.smq_capture.specs.GoingOn.{BeginsWith, FindsNone, FollowsBehind, GoesOn, GoesOnAt, HasOctets, other_of, place_in};
ghost use Rattle.smq_capture.specs.Rows.{AreInOrder, AreSettledTo, Row};

use crate::connection::Connection;
use crate::connection::told::tell_gap;
use crate::fault::Fault;
use crate::notice::{Behind, Notice, Sender};
use crate::output::Output;
use crate::side::Side;
use crate::signs::Sought;
use crate::sink::{Loss, SessionLine, Sink};
use smq_packets::End;
use smq_streams::{Missing, Why};
use std::alloc::AllocError;

impl Connection {
    /// Goes on behind gaps that won't fill any more by a moment, or behind all where the connection ends.
    pub(crate) fn give_up<S: Sink>(
        &mut self,
        output: &mut Output<S>,
        moment: u64,
        why: Option<Why>,
    ) -> Result<(), Fault> {
        for _ in 0..u64::MAX {
            let Some((side, why)) = self.lost(moment, why) else {
                break;
            };
            self.give_up_one(output, side, moment, why)?;
        }
        self.write(output)
    }

    /// Goes on behind what has waited longest, as too much waits.
    pub(crate) fn give_up_oldest<S: Sink>(
        &mut self,
        output: &mut Output<S>,
        moment: u64,
    ) -> Result<(), Fault> {
        let client = self.stream(Side::Client).opened();
        let centre = self.stream(Side::Centre).opened();
        let side = match (client, centre) {
            (Some(one), Some(other)) if other < one => Side::Centre,
            (None, Some(_)) => Side::Centre,
            _ => Side::Client,
        };
        if output.is_strict {
            self.stop(output, side, moment, Why::Full)?;
        } else {
            self.give_up_one(output, side, moment, Why::Full)?;
        }
        self.write(output)
    }

    /// The direction in which something won't come any more, and why; where both have such, the one whose next packet came first.
    fn lost(&mut self, moment: u64, why: Option<Why>) -> Option<(Side, Why)> {
        let client = self.why_lost(Side::Client, moment, why);
        let centre = self.why_lost(Side::Centre, moment, why);
        match (client, centre) {
            (Some(one), Some(other)) => {
                let before = self.stream(Side::Client).first_packet();
                if self.stream(Side::Centre).first_packet() < before {
                    Some((Side::Centre, other))
                } else {
                    Some((Side::Client, one))
                }
            }
            (Some(one), None) => Some((Side::Client, one)),
            (None, Some(other)) => Some((Side::Centre, other)),
            (None, None) => None,
        }
    }

    /// Gives up what waits in a direction: where it isn't clear whether a PDU begins, none does; else the next gap, behind which the
    /// direction goes on with the first PDU.
    fn give_up_one<S: Sink>(
        &mut self,
        output: &mut Output<S>,
        side: Side,
        moment: u64,
        why: Why,
    ) -> Result<(), Fault> {
        if let Some(place) = self.go_on(output, side, true)? {
            self.tell_going_on(output, side, place)?;
            self.flow.watch_anew(side, moment);
            return Ok(());
        }
        if let Some(missing) = self.flow.skip_gap(side) {
            let is_end = why == Why::Ended || why == Why::End;
            let sender = self.note_missing(output, side, missing, moment, why)?;
            let behind = match self.go_on(output, side, is_end)? {
                Some(place) => {
                    self.signs.of_mut(side).sought = None;
                    Behind::At(place, self.last)
                }
                None if is_end => Behind::Nothing,
                None => {
                    self.signs.of_mut(side).sought = Some(Sought {
                        session: sender.session,
                    });
                    Behind::Sought
                }
            };
            tell_gap(output, sender, missing, behind)?;
            if let Behind::At(_, _) = behind {
                self.tell_passed(output, side)?;
            }
        }
        self.flow.watch_anew(side, moment);
        Ok(())
    }

    /// Counts octets that are missing in the last session.
    pub(crate) fn note_missing<S: Sink>(
        &mut self,
        output: &mut Output<S>,
        side: Side,
        missing: Missing,
        moment: u64,
        why: Why,
    ) -> Result<Sender, Fault> {
        let count = missing.until.saturating_sub(missing.from);
        if let Some(line) = self.lines.back_mut() {
            line.missing = line.missing.saturating_add(count);
        }
        output.note_loss(&Loss {
            session: self.last,
            sender: side,
            place: missing.from,
            missing: count,
            moment,
            why,
        })?;
        Ok(Sender {
            session: self.last,
            link: self.link,
            side,
        })
    }

    /// Writes nothing more of a direction that has a gap.
    fn stop<S: Sink>(
        &mut self,
        output: &mut Output<S>,
        side: Side,
        moment: u64,
        why: Why,
    ) -> Result<(), Fault> {
        if let Some(missing) = self.stream(side).missing_tail() {
            let sender = self.note_missing(output, side, missing, moment, why)?;
            tell_gap(output, sender, missing, Behind::Nothing)?;
        }
        self.flow.stop(side);
        Ok(())
    }

    /// Looks for a PDU in what follows in a direction, and begins with it. Its place, if there is one.
    pub(crate) fn go_on<S: Sink>(
        &mut self,
        output: &mut Output<S>,
        side: Side,
        is_end: bool,
    ) -> Result<Option<u64>, Fault>
        ensures goes_on { IfOk result (λ r. IfSome r (λ place. GoesOnAt side is_end self.old.has_rows self.old.last self.old.flow
            self.old.signs output.old.following place self.new.flow self.new.last)) }
        ensures none { result ≡ Ok None → (self.new ≡ record self.old { flow = self.new.flow })
            × ((s : History) (written : List Row) → FlowsIn s written side self.old.flow
            → (passed : List Octet) × FlowsIn (with_passed passed s) written side self.new.flow) }
        ensures idle { result ≡ Ok None → FindsNone side is_end self.old.flow self.new.flow }
        ensures rest { self.new ≡ record self.old {
          flow = self.new.flow;
          last = self.new.last;
          has_rows = self.new.has_rows;
          lines = self.new.lines;
        } }
    {
        let Some(found) = self.flow.search(side, is_end)? else {
            return Ok(None);
        };
        self.begin_with(output, side, found.number)?;
        self.flow.put_all(output.alloc, side)?;
        Ok(Some(found.place))
    }

    /// Begins with the next octets of a direction, which a packet brought: behind a gap as the next session.
    fn begin_with<S: Sink>(
        &mut self,
        output: &mut Output<S>,
        side: Side,
        number: u64,
    ) -> Result<(), AllocError>
        ensures begins { OnOk result (BeginsWith side number self.old.has_rows self.old.last self.old.flow self.old.signs
            output.old.following self.new.flow self.new.last) }
        ensures stays { Stays self.old.flow self.new.flow }
        ensures rest { self.new ≡ record self.old {
          flow = self.new.flow;
          last = self.new.last;
          has_rows = self.new.has_rows;
          lines = self.new.lines;
        } }
    {
        self.settle(side, None)?;
        if self.stream(side).is_behind_gap() {
            self.end_last(output, side, number)?;
        }
        self.flow.begin_session(side, self.last);
        Ok(())
    }

    /// Ends the last session behind a gap of a direction with octets that a packet brought: in the other direction with all octets that
    /// packets before that one have. A session without an octet goes on.
    fn end_last<S: Sink>(
        &mut self,
        output: &mut Output<S>,
        side: Side,
        number: u64,
    ) -> Result<(), AllocError>
        ensures ends { HasOctets self.old.has_rows self.old.last self.old.flow.rows self.new.flow.rows
            → OnOk result ((self.new.last ≡ output.old.following)
            × FollowsBehind (other_of side) number self.old.flow self.old.signs self.new.last self.new.flow) }
        ensures goes_on { (HasOctets self.old.has_rows self.old.last self.old.flow.rows self.new.flow.rows → ⊥)
            → OnOk result (GoesOn (other_of side) self.old.flow self.old.last self.new.flow self.new.last) }
        ensures below { AreInOrder (other_of side) self.old.flow.rows → OnOk result (AreSettledTo
            (Some (place_in (other_of side) number self.old.flow self.old.signs)) (other_of side) self.old.flow.rows
            self.new.flow.rows) }
        ensures own { direction_of side self.new.flow ≡ direction_of side self.old.flow }
        ensures none { OnOk result (self.new.has_rows ≡ false) }
        ensures stays { Stays self.old.flow self.new.flow }
        ensures rest { self.new ≡ record self.old {
          flow = self.new.flow;
          last = self.new.last;
          has_rows = self.new.has_rows;
          lines = self.new.lines;
        } }
    {
        let other = side.other();
        let top = self.stream(other).top();
        let place = self.signs.of(other).top_before(number, top);
        self.settle(other, Some(place))?;
        if self.has_rows {
            self.begin_session(output, other, number, place)?;
        }
        Ok(())
    }

    /// Begins the next session with a packet: a direction is in it from a place on.
    fn begin_session<S: Sink>(
        &mut self,
        output: &mut Output<S>,
        side: Side,
        number: u64,
        place: u64,
    ) -> Result<(), AllocError>
        ensures next { self.new.last ≡ output.old.following }
        ensures follows { self.new.flow ≡ with_direction side (record (direction_of side self.old.flow) {
          following = Some (record { session = self.new.last; place = place });
        }) self.old.flow }
        ensures stays { Stays self.old.flow self.new.flow }
        ensures rest { self.new ≡ record self.old {
          flow = self.new.flow;
          last = self.new.last;
          has_rows = false;
          lines = self.new.lines;
        } }
    {
        let session = output.next_session();
        self.last = session;
        self.has_rows = false;
        self.flow.follow(side, session, place);
        self.lines.push_back(SessionLine {
            session,
            link: self.link,
            client: self.client,
            centre: self.centre,
            first: number,
            last: number,
            has_syn: false,
            missing: 0,
        })?;
        Ok(())
    }

    /// Tells that a direction goes on with a PDU that was looked for.
    pub(crate) fn tell_going_on<S: Sink>(
        &mut self,
        output: &mut Output<S>,
        side: Side,
        place: u64,
    ) -> Result<(), Fault> {
        if let Some(sought) = self.signs.of(side).sought {
            self.signs.of_mut(side).sought = None;
            output.tell(Notice::GoesOn {
                sender: Sender {
                    session: sought.session,
                    link: self.link,
                    side,
                },
                session: self.last,
                place,
            })?;
        }
        self.tell_passed(output, side)
    }

    /// Tells how many octets were passed over.
    pub(crate) fn tell_passed<S: Sink>(
        &mut self,
        output: &mut Output<S>,
        side: Side,
    ) -> Result<(), Fault> {
        let count = self.flow.take_passed(side);
        if count > 0 {
            let sender = self.label(side);
            output.tell(Notice::Passed { sender, count })?;
        }
        Ok(())
    }

    /// Ends the search for the first PDU of a direction.
    pub(crate) fn end_search<S: Sink>(
        &mut self,
        output: &mut Output<S>,
        side: Side,
    ) -> Result<(), Fault> {
        if let Some(place) = self.go_on(output, side, true)? {
            self.tell_going_on(output, side, place)?;
        }
        Ok(())
    }

    /// Why what waits in a direction won't come any more, if it won't.
    fn why_lost(&mut self, side: Side, moment: u64, why: Option<Why>) -> Option<Why> {
        if !self.stream(side).is_open() {
            return None;
        }
        match why {
            Some(why) => Some(why),
            None => self.flow.is_lost(side, moment),
        }
    }
}
