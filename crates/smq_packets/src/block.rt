//! Blocks of a pcapng file (draft-ietf-opsawg-pcapng, 3 and 4).
ghost use Rattle.std.specs.Prelude.{◌≡◌, ◌≢◌, ◌+◌, ◌≤◌, ◌<◌, IfOk, IfErr, OnErr, IsTrue, [], Ok, Err, length, false, true};
ghost use Rattle.smq_packets.specs.Blocks.{block_of, content_of, describes_interface, ends_block, head_of_block, is_interface, is_kind_read, kind_of, order_of, section_after, section_behind, shortest_of, simple_packet_of, statistics_of, timed_packet_of, value_of_block};
ghost use Rattle.smq_packets.specs.declared.block.Kind.TheVariants as k;

use crate::file::MOST_CAPTURED;
use crate::interface::{Interface, read_interface};
use crate::link::LinkType;
use crate::octets::{four, four_of, little_four, range_of, two_of};
use crate::options::number_in;
use std::alloc::Global;
use std::marker::Model;

/// The most octets of a block that is read: a packet's 262,144, its head, and options.
pub const MOST_IN_BLOCK: u32 = 327_680;

/// The most interfaces of a section.
pub const MOST_INTERFACES: usize = 65_536;

/// The type of the first block of each section, and what tells the order of its numbers.
const SECTION: u32 = 0x0A0D_0D0A;

const ORDER: u32 = 0x1A2B_3C4D;

/// What a block holds.
#[derive(Clone, Copy, Debug, PartialEq, Eq)]
pub(crate) enum Kind {
    Section,
    Interface,
    Packet,
    OldPacket,
    SimplePacket,
    Statistics,
    Other,
}

/// The head of a block: what it holds, how many octets it has, and the order of its numbers.
#[derive(Clone, Copy)]
pub(crate) struct BlockHead {
    pub kind: Kind,
    pub size: usize,
    pub is_big: bool,
}

/// A section of a file: the order of its numbers, and its interfaces so far.
#[derive(Drop)]
pub struct Section {
    is_big: bool,
    interfaces: Vec<Interface>,
}

impl Model for Section {
    ghost use Rattle.smq_packets.specs.Blocks.{SectionValue};

    ghost Value = { SectionValue };

    ghost view = { λ s. record { is_big = s.is_big; interfaces = s.interfaces.items } };
}

/// What stands at the front of octets, and how many octets it has.
#[derive(Clone, Copy)]
pub enum Block<'a> {
    /// Neither a packet nor statistics. Its octets needn't all be there: skip them.
    Other {
        size: usize,
    },
    /// A packet.
    Packet {
        size: usize,
        /// How its frame begins, or the number of a link type that isn't read.
        link_type: Result<LinkType, u16>,
        /// In ms since 1970 in UTC, where it is told and not before.
        moment: Option<u64>,
        frame: &'a [u8],
    },
    /// What an interface lost since the capture began: packets that it dropped, and those that the
    /// system dropped, where they are told.
    Statistics {
        size: usize,
        interface: u32,
        dropped_by_interface: Option<u64>,
        dropped_by_system: Option<u64>,
    },
}

/// Why no block is read.
#[derive(Clone, Copy, Debug, PartialEq, Eq)]
pub enum NoBlock {
    /// It isn't whole yet.
    More,
    /// No section of version 1 begins there.
    NoCapture,
    /// The field so many octets behind the block's first can't be. No block is found behind it.
    Broken(usize),
    /// Memory ran out. The section is as it was.
    Memory,
}

impl Section {
    /// Before the first section.
    pub fn new(alloc: Global) -> Section
        ensures { result ≡ record { is_big = false; interfaces = [] } }
    {
        Section {
            is_big: false,
            interfaces: Vec::new(alloc),
        }
    }

    /// Reads the block at the front of octets.
    #[tactic(auto, unfolding(crate::specs::Blocks::block_of, crate::specs::Blocks::describes_interface, crate::specs::Blocks::section_after))]
    pub fn read_block<'a>(&mut self, octets: &'a [u8]) -> Result<Block<'a>, NoBlock>
        ensures ok { IfOk result (λ b. block_of self.old octets.now ≡ Ok (value_of_block b)) }
        ensures section { IfOk result (λ _. self.new ≡ section_after self.old octets.now) }
        ensures err { IfErr result (λ why. why ≢ NoBlock.Memory → block_of self.old octets.now ≡ Err why) }
        ensures memory { IfErr result (λ why. why ≡ NoBlock.Memory →
            describes_interface self.old octets.now ≡ true) }
        ensures same { OnErr result (self.new ≡ self.old) }
    {
        let head = read_head(self.is_big, octets)?;
        ends(head, octets)?;
        self.read_content(head, octets)
    }

    /// Reads what a block holds that is whole, where it is read.
    fn read_content<'a>(&mut self, head: BlockHead, octets: &'a [u8]) -> Result<Block<'a>, NoBlock>
        requires least { shortest_of head.kind ≤ head.size }
        requires whole { IsTrue (is_kind_read head.kind) → head.size ≤ length octets.now }
        ensures ok { IfOk result (λ b. content_of head.kind head self.old.interfaces octets.now ≡ Ok (value_of_block b)) }
        ensures section { IfOk result (λ _. self.new ≡ section_behind head.kind head self.old octets.now) }
        ensures err { IfErr result (λ why. why ≢ NoBlock.Memory →
            content_of head.kind head self.old.interfaces octets.now ≡ Err why) }
        ensures memory { IfErr result (λ why. why ≡ NoBlock.Memory → is_interface head.kind ≡ true) }
        ensures same { OnErr result (self.new ≡ self.old) }
    {
        match head.kind {
            Kind::Section => self.begin(head, octets),
            Kind::Interface => self.describe(head, octets),
            Kind::Packet => {
                let number = four_of(head.is_big, octets, 8) as usize;
                timed_packet(head, self.interfaces.get(number).copied(), octets)
            }
            Kind::OldPacket => {
                let number = two_of(head.is_big, octets, 8) as usize;
                timed_packet(head, self.interfaces.get(number).copied(), octets)
            }
            Kind::SimplePacket => simple_packet(head, self.interfaces.first().copied(), octets),
            Kind::Statistics => Ok(statistics(head, octets)),
            Kind::Other => Ok(Block::Other { size: head.size }),
        }
    }

    /// Begins a section of version 1.
    fn begin<'a>(&mut self, head: BlockHead, octets: &'a [u8]) -> Result<Block<'a>, NoBlock>
        requires least { 28 ≤ head.size }
        requires whole { head.size ≤ length octets.now }
        ensures ok { IfOk result (λ b. content_of k.Section head self.old.interfaces octets.now ≡ Ok (value_of_block b)) }
        ensures section { IfOk result (λ _. self.new ≡ section_behind k.Section head self.old octets.now) }
        ensures err { IfErr result (λ why. content_of k.Section head self.old.interfaces octets.now ≡ Err why) }
        ensures ready { IfErr result (λ why. why ≢ NoBlock.Memory) }
        ensures same { OnErr result (self.new ≡ self.old) }
    {
        if two_of(head.is_big, octets, 12) != 1 {
            return Err(NoBlock::NoCapture);
        }
        self.is_big = head.is_big;
        self.interfaces.clear();
        Ok(Block::Other { size: head.size })
    }

    /// Keeps the interface that a block describes.
    fn describe<'a>(&mut self, head: BlockHead, octets: &'a [u8]) -> Result<Block<'a>, NoBlock>
        requires least { 20 ≤ head.size }
        requires whole { head.size ≤ length octets.now }
        ensures ok { IfOk result (λ b. content_of k.Interface head self.old.interfaces octets.now ≡ Ok (value_of_block b)) }
        ensures section { IfOk result (λ _. self.new ≡ section_behind k.Interface head self.old octets.now) }
        ensures err { IfErr result (λ why. why ≢ NoBlock.Memory →
            content_of k.Interface head self.old.interfaces octets.now ≡ Err why) }
        ensures same { OnErr result (self.new ≡ self.old) }
    {
        if self.interfaces.len() >= MOST_INTERFACES {
            return Err(NoBlock::Broken(0));
        }
        if self.interfaces.push(read_interface(head, octets)).is_err() {
            return Err(NoBlock::Memory);
        }
        Ok(Block::Other { size: head.size })
    }
}

/// What a block of a type holds.
fn kind_numbered(number: u32) -> Kind
    ensures { result ≡ kind_of number }
{
    match number {
        SECTION => Kind::Section,
        1 => Kind::Interface,
        2 => Kind::OldPacket,
        3 => Kind::SimplePacket,
        5 => Kind::Statistics,
        6 => Kind::Packet,
        _ => Kind::Other,
    }
}

/// The fewest octets of a block.
fn shortest(kind: Kind) -> usize
    ensures { result ≡ shortest_of kind }
{
    match kind {
        Kind::Section => 28,
        Kind::Interface => 20,
        Kind::Packet | Kind::OldPacket => 32,
        Kind::SimplePacket => 16,
        Kind::Statistics => 24,
        Kind::Other => 12,
    }
}

/// Whether a block's content is read.
fn is_read(kind: Kind) -> bool
    ensures { result ≡ is_kind_read kind }
{
    !matches!(kind, Kind::Other)
}

/// The order of a block's numbers: a section tells its own, and others are in that of their section.
fn order(is_big: bool, octets: &[u8]) -> Result<bool, NoBlock>
    requires { 12 ≤ length octets.now }
    ensures value { result ≡ order_of is_big octets.now }
    ensures ready { IfErr result (λ why. why ≢ NoBlock.Memory) }
{
    if four(octets, 0) != SECTION {
        return Ok(is_big);
    }
    if four(octets, 8) == ORDER {
        return Ok(true);
    }
    if little_four(octets, 8) == ORDER {
        return Ok(false);
    }
    Err(NoBlock::NoCapture)
}

/// The head of the block at the front, in a section whose numbers stand so.
fn read_head(is_big: bool, octets: &[u8]) -> Result<BlockHead, NoBlock>
    ensures value { result ≡ head_of_block is_big octets.now }
    ensures least { IfOk result (λ head. shortest_of head.kind ≤ head.size) }
    ensures ready { IfErr result (λ why. why ≢ NoBlock.Memory) }
{
    if octets.len() < 12 {
        return Err(NoBlock::More);
    }
    let is_big = order(is_big, octets)?;
    let kind = kind_numbered(four_of(is_big, octets, 0));
    let size = four_of(is_big, octets, 4) as usize;
    if size % 4 != 0 || size < shortest(kind) || is_read(kind) && size > MOST_IN_BLOCK as usize {
        return Err(NoBlock::Broken(4));
    }
    Ok(BlockHead { kind, size, is_big })
}

/// Whether a block that is read is whole, and tells its length again at its end.
fn ends(head: BlockHead, octets: &[u8]) -> Result<(), NoBlock>
    requires { 12 ≤ head.size }
    ensures value { result ≡ ends_block head octets.now }
    ensures whole { IfOk result (λ _. IsTrue (is_kind_read head.kind) → head.size ≤ length octets.now) }
    ensures ready { IfErr result (λ why. why ≢ NoBlock.Memory) }
{
    if !is_read(head.kind) {
        return Ok(());
    }
    if octets.len() < head.size {
        return Err(NoBlock::More);
    }
    if four_of(head.is_big, octets, head.size - 4) as usize != head.size {
        return Err(NoBlock::Broken(head.size - 4));
    }
    Ok(())
}

/// The packet of a block with a moment, by its interface.
fn timed_packet(
    head: BlockHead,
    interface: Option<Interface>,
    octets: &[u8],
) -> Result<Block<'_>, NoBlock>
    requires least { 32 ≤ head.size }
    requires whole { head.size ≤ length octets.now }
    ensures ok { IfOk result (λ b. timed_packet_of head interface octets.now ≡ Ok (value_of_block b)) }
    ensures err { IfErr result (λ why. timed_packet_of head interface octets.now ≡ Err why) }
    ensures ready { IfErr result (λ why. why ≢ NoBlock.Memory) }
{
    let Some(interface) = interface else {
        return Err(NoBlock::Broken(8));
    };
    let captured = four_of(head.is_big, octets, 20) as usize;
    if captured > MOST_CAPTURED as usize || captured > head.size - 32 {
        return Err(NoBlock::Broken(20));
    }
    let high = four_of(head.is_big, octets, 12) as u64;
    let low = four_of(head.is_big, octets, 16) as u64;
    Ok(Block::Packet {
        size: head.size,
        link_type: interface.link_type,
        moment: interface.moment(high * 0x1_0000_0000 + low),
        frame: range_of(octets, 28, 28 + captured),
    })
}

/// The packet of a block without a moment, of the first interface.
fn simple_packet(
    head: BlockHead,
    interface: Option<Interface>,
    octets: &[u8],
) -> Result<Block<'_>, NoBlock>
    requires least { 16 ≤ head.size }
    requires whole { head.size ≤ length octets.now }
    ensures ok { IfOk result (λ b. simple_packet_of head interface octets.now ≡ Ok (value_of_block b)) }
    ensures err { IfErr result (λ why. simple_packet_of head interface octets.now ≡ Err why) }
    ensures ready { IfErr result (λ why. why ≢ NoBlock.Memory) }
{
    let Some(interface) = interface else {
        return Err(NoBlock::Broken(0));
    };
    let length = four_of(head.is_big, octets, 8);
    let captured = if interface.snap_length == 0 {
        length
    } else {
        length.min(interface.snap_length)
    } as usize;
    if captured > MOST_CAPTURED as usize || captured > head.size - 16 {
        return Err(NoBlock::Broken(8));
    }
    Ok(Block::Packet {
        size: head.size,
        link_type: interface.link_type,
        moment: None,
        frame: range_of(octets, 12, 12 + captured),
    })
}

/// What a block of statistics says.
fn statistics<'a>(head: BlockHead, octets: &[u8]) -> Block<'a>
    requires least { 24 ≤ head.size }
    requires whole { head.size ≤ length octets.now }
    ensures { value_of_block result ≡ statistics_of head octets.now }
{
    let options = range_of(octets, 20, head.size - 4);
    Block::Statistics {
        size: head.size,
        interface: four_of(head.is_big, octets, 8),
        dropped_by_interface: number_in(head.is_big, options, 5),
        dropped_by_system: number_in(head.is_big, options, 7),
    }
}
