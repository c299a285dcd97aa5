//! Packets of a capture, as their moments are believed.
use crate::capture::Capture;
use crate::clock::Doubted;
use crate::fault::Fault;
use crate::notice::Notice;
use crate::sink::Sink;
use smq_packets::{LinkType, Unread, read_segment};

impl<S: Sink + Drop> Capture<S> {
    /// Takes the next packet.
    pub(crate) fn take_packet(
        &mut self,
        link_type: LinkType,
        moment: u64,
        is_whole: bool,
        frame: &[u8],
    ) -> Result<(), Fault> {
        self.packets = self.packets.saturating_add(1);
        let number = self.packets;
        self.take_doubted(Some(moment))?;
        if self.clock.believes(moment) {
            self.tick(moment)?;
            self.take_frame(link_type, number, moment, is_whole, frame)
        } else {
            Ok(
                self.clock
                    .doubt(self.alloc, link_type, number, moment, is_whole, frame)?,
            )
        }
    }

    /// Takes the packet whose moment wasn't believed yet, where the next one's is this, if there is one.
    pub(crate) fn take_doubted(&mut self, next: Option<u64>) -> Result<(), Fault> {
        let Some(doubted) = self.clock.take_doubted() else {
            return Ok(());
        };
        let Doubted {
            link_type,
            number,
            moment,
            is_whole,
            frame,
        } = doubted;
        let before = self.clock.newest();
        let Some(given) = self.clock.settle(moment, next) else {
            return Err(Fault::Late(number));
        };
        if given != moment {
            let ahead = moment.saturating_sub(before.unwrap_or(given));
            self.sessions.output.tell(Notice::Moment { number, ahead })?;
        }
        self.tick(given)?;
        self.take_frame(link_type, number, given, is_whole, frame.as_slice())
    }

    /// Takes the frame of a packet. A segment whose datagram came in fragments is taken with the last of them.
    fn take_frame(
        &mut self,
        link_type: LinkType,
        number: u64,
        moment: u64,
        is_whole: bool,
        frame: &[u8],
    ) -> Result<(), Fault> {
        match read_segment(link_type, frame) {
            Ok(segment) => self.sessions.take(number, moment, &segment),
            Err(Unread::Fragment(fragment)) => {
                match self.fragments.take(self.alloc, moment, fragment, frame)? {
                    Some(whole) => match whole.read_segment() {
                        Ok(segment) => self.sessions.take(number, moment, &segment),
                        Err(why) => Ok(self.note_unread(number, is_whole, why)),
                    },
                    None => Ok(()),
                }
            }
            Err(why) => Ok(self.note_unread(number, is_whole, why)),
        }
    }

    /// Takes note of why a packet gives no segment.
    fn note_unread(&mut self, number: u64, is_whole: bool, why: Unread) {
        match why {
            Unread::CutOff if !is_whole => self.headers.add(number),
            Unread::Malformed | Unread::TooDeep => self.malformed.add(number),
            Unread::CutOff | Unread::OtherProtocol | Unread::Fragment(_) => {}
        }
    }
}
