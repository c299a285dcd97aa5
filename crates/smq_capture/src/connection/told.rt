//! What is told of a connection that ended.
use crate::connection::Connection;
use crate::fault::Fault;
use crate::notice::{About, Behind, Noted, Notice, Sender};
use crate::output::Output;
use crate::side::Side;
use crate::sink::Sink;
use crate::strays::MOST_SEGMENTS;
use smq_streams::{Missing, Why};

impl Connection {
    /// Gives up all that waits, writes all rows, and tells what is missing and was changed.
    pub(crate) fn finish<S: Sink>(
        &mut self,
        output: &mut Output<S>,
        moment: u64,
        why: Why,
    ) -> Result<(), Fault> {
        for _ in 0..MOST_SEGMENTS {
            self.pass_over_oldest();
        }
        if !output.is_strict {
            self.give_up(output, moment, Some(why))?;
            self.end_search(output, Side::Client)?;
            self.end_search(output, Side::Centre)?;
        }
        self.write(output)?;
        self.tell_side(output, Side::Client, moment, why)?;
        self.tell_side(output, Side::Centre, moment, why)?;
        self.tell_sessions(output, true)
    }

    /// Tells what is missing and was changed in a direction.
    fn tell_side<S: Sink>(
        &mut self,
        output: &mut Output<S>,
        side: Side,
        moment: u64,
        why: Why,
    ) -> Result<(), Fault> {
        let sender = self.label(side);
        if self.stream(side).first().is_none() && self.stream(side.other()).end() > 0 {
            output.tell(Notice::NoPacket(sender))?;
        }
        if let Some(missing) = self.stream(side).missing_tail() {
            let sender = self.note_missing(output, side, missing, moment, why)?;
            tell_gap(output, sender, missing, Behind::Nothing)?;
        }
        self.tell_passed(output, side)?;
        let outside = self.signs.of(side).outside;
        let cut = self.signs.of(side).cut;
        let raised = self.flow.of(side).raised;
        tell_packets(output, sender, About::Outside, outside)?;
        tell_packets(output, sender, About::Cut, cut)?;
        tell_packets(output, sender, About::Raised, raised)
    }

    /// Tells that it is forgotten, as it was quiet for long.
    pub(crate) fn tell_quiet<S: Sink>(&self, output: &mut Output<S>) -> Result<(), Fault> {
        output.tell(Notice::Quiet {
            session: self.last,
            link: self.link,
        })
    }
}

/// Tells something of packets, where there are any.
fn tell_packets<S: Sink>(
    output: &mut Output<S>,
    sender: Sender,
    about: About,
    noted: Noted,
) -> Result<(), Fault> {
    if noted.count > 0 {
        output.tell(Notice::Packets {
            sender,
            about,
            noted,
        })?;
    }
    Ok(())
}

/// Tells of octets that are missing.
pub(crate) fn tell_gap<S: Sink>(
    output: &mut Output<S>,
    sender: Sender,
    missing: Missing,
    behind: Behind,
) -> Result<(), Fault> {
    output.tell(Notice::Gap {
        sender,
        first: missing.from,
        last: missing.until.saturating_sub(1),
        behind,
    })
}
