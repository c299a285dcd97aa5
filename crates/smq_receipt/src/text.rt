//! Names and values in the text of a receipt (SMPP 3.4, appendix B). A name is told in any ASCII letter case, at the
//! start or after a space, and its value goes up to the next space; the message's own text, after ` text:`, is not
//! looked into. All names are looked for in one pass, from space to space.
ghost use Rattle.std.specs.Prelude.{◌≡◌, ◌+◌, ◌<◌, ◌≤◌, ◌==◌, length, take, slice_index, IsTrue, position};
ghost use Rattle.std.specs.List.{before_first};
ghost use Rattle.std.specs.Char.{to_ascii_lowercase};
ghost use Rattle.std.specs.Option.{option_copied};
ghost use Rattle.smq_receipt.specs.Places.{least_below};
ghost use Rattle.smq_receipt.specs.Texts.{same_letters, stands_at, is_opening, labels_at, text_mark, header_of, value_of};
ghost use Rattle.smq_receipt.specs.within.Offsets.{offsets_below, IsReadFrom};

/// What begins the message's own text.
const TEXT_MARK: &[u8] = b" text:";

/// The values in the header part of a text that tell what became of a message.
#[derive(Clone, Copy)]
pub(crate) struct Values<'a> {
    pub(crate) id: Option<&'a [u8]>,
    pub(crate) stat: Option<&'a [u8]>,
    pub(crate) err: Option<&'a [u8]>,
    pub(crate) submit_date: Option<&'a [u8]>,
    pub(crate) done_date: Option<&'a [u8]>,
}

/// The least offsets of these values' labels.
#[derive(Clone, Copy)]
struct Offsets {
    id: Option<usize>,
    stat: Option<usize>,
    err: Option<usize>,
    submit_date: Option<usize>,
    done_date: Option<usize>,
}

/// No offsets.
const NO_OFFSETS: Offsets = Offsets {
    id: None,
    stat: None,
    err: None,
    submit_date: None,
    done_date: None,
};

/// The values in the header part: what stands before the first ` text:` in any letter case, or the whole text.
#[tactic(auto, using(crate::proofs::LeastPlaces::all_fail_more, crate::proofs::Offsets::header_front, crate::proofs::Offsets::header_whole), unfolding(crate::specs::Places::least_below))]
pub(crate) fn values_in(text: &[u8]) -> Values<'_>
    ensures { IsReadFrom (header_of text.now) result }
{
    let mut offsets = NO_OFFSETS;
    offsets.add_at(text, 0);
    for (end, octet) in text.iter().enumerate() {
        if ends_header(*octet, text, end) {
            return values_by(&offsets, text, end);
        }
        offsets.add_behind(*octet, text, end);
    }
    values_by(&offsets, text, text.len())
}

/// Whether ` text:` stands at a place, which has this octet.
#[tactic(auto, using(crate::proofs::Offsets::mark_begins))]
fn ends_header(octet: u8, text: &[u8], end: usize) -> bool
    requires within { end < length text.now }
    requires octet { octet ≡ slice_index text.now end }
    ensures { result ≡ stands_at text_mark text.now end }
{
    octet == b' ' && stands_at(TEXT_MARK, text, end)
}

impl Offsets {
    ghost use Rattle.smq_receipt.specs.within.Offsets.{offsets_below};

    /// Adds those of labels that stand behind this place, which has this octet.
    #[tactic(auto, using(crate::proofs::Offsets::offsets_inside))]
    fn add_behind(&mut self, octet: u8, text: &[u8], end: usize)
        requires within { end < length text.now }
        requires octet { octet ≡ slice_index text.now end }
        requires earlier { self.old ≡ offsets_below text.now (end + 1) }
        ensures { self.new ≡ offsets_below text.now (end + 2) }
    {
        if octet == b' ' {
            self.add_at(text, end + 1);
        }
    }

    /// Adds those of labels that stand at this place, which is the start or follows a space.
    #[tactic(auto, using(crate::proofs::Offsets::offsets_end))]
    fn add_at(&mut self, text: &[u8], place: usize)
        requires within { place ≤ length text.now }
        requires opening { IsTrue (is_opening text.now place) }
        requires earlier { self.old ≡ offsets_below text.now place }
        ensures { self.new ≡ offsets_below text.now (place + 1) }
    {
        if place < text.len() {
            let first = text[place].to_ascii_lowercase();
            add_offset(&mut self.id, b"id:", first, text, place);
            add_offset(&mut self.stat, b"stat:", first, text, place);
            add_offset(&mut self.err, b"err:", first, text, place);
            add_offset(&mut self.submit_date, b"submit date:", first, text, place);
            add_offset(&mut self.done_date, b"done date:", first, text, place);
        }
    }
}

/// Sets the least offset of a label, where none is known, to this place where it stands here. The place is the start or
/// follows a space, and what is there is `first` in lower case.
#[tactic(auto, using(crate::proofs::Offsets::adding))]
fn add_offset(offset: &mut Option<usize>, label: &[u8], first: u8, text: &[u8], place: usize)
    requires some { 0 < length label.now }
    requires within { place < length text.now }
    requires opening { IsTrue (is_opening text.now place) }
    requires first { first ≡ to_ascii_lowercase (slice_index text.now place) }
    requires earlier { offset.old ≡ least_below (labels_at label.now text.now) place }
    ensures { offset.new ≡ least_below (labels_at label.now text.now) (place + 1) }
{
    if first == label[0].to_ascii_lowercase()
        && offset.is_none()
        && goes_on_at(label, text, place)
    {
        *offset = Some(place);
    }
}

/// Whether a label stands at a place whose octet is its first.
#[tactic(auto, using(crate::proofs::Offsets::stands_begun))]
fn goes_on_at(label: &[u8], text: &[u8], place: usize) -> bool
    requires some { 0 < length label.now }
    requires within { place < length text.now }
    requires first { to_ascii_lowercase (slice_index text.now place) ≡ to_ascii_lowercase (slice_index label.now 0) }
    ensures { result ≡ stands_at label.now text.now place }
{
    stands_at(&label[1..], text, place + 1)
}

/// The values in the header part that ends at this place.
fn values_by<'a>(offsets: &Offsets, text: &'a [u8], end: usize) -> Values<'a>
    requires within { end ≤ length text.now }
    requires offsets { offsets.now ≡ offsets_below text.now (end + 1) }
    ensures { IsReadFrom (take end text.now) result }
{
    Values {
        id: value_at(offsets.id, b"id:", text, end),
        stat: value_at(offsets.stat, b"stat:", text, end),
        err: value_at(offsets.err, b"err:", text, end),
        submit_date: value_at(offsets.submit_date, b"submit date:", text, end),
        done_date: value_at(offsets.done_date, b"done date:", text, end),
    }
}

/// What follows a label with this least offset in the header part, up to the next space or the end.
#[tactic(auto, using(crate::proofs::Offsets::value_none, crate::proofs::Offsets::value_past, crate::proofs::Offsets::value_here), unfolding(crate::specs::Texts::value_at))]
fn value_at<'a>(offset: Option<usize>, label: &[u8], text: &'a [u8], end: usize) -> Option<&'a [u8]>
    requires some { 0 < length label.now }
    requires within { end ≤ length text.now }
    requires offset { offset ≡ least_below (labels_at label.now text.now) (end + 1) }
    ensures { option_copied result ≡ value_of label.now (take end text.entry.now) }
{
    let from = offset? + label.len();
    if from > end {
        return None;
    }
    Some(up_to(b' ', &text[..end][from..]))
}

/// Whether a pattern stands at a place, in any ASCII letter case.
#[tactic(auto, using(crate::proofs::Values::stands_at_past), unfolding(crate::specs::Texts::stands_at))]
fn stands_at(pattern: &[u8], text: &[u8], place: usize) -> bool
    requires { place ≤ length text.now }
    ensures { result ≡ stands_at pattern.now text.now place }
{
    let rest = &text[place..];
    if rest.len() < pattern.len() {
        return false;
    }
    same_letters(&rest[..pattern.len()], pattern)
}

/// Whether two texts differ at most in the case of ASCII letters.
#[tactic(auto, unfolding(crate::specs::Texts::same_letters))]
pub(crate) fn same_letters(a: &[u8], b: &[u8]) -> bool
    ensures { result ≡ same_letters a.now b.now }
{
    a.eq_ignore_ascii_case(b)
}

/// What stands before the first octet of this kind, or all.
#[tactic(auto, using(crate::proofs::Values::before_facts))]
pub(crate) fn up_to(octet: u8, octets: &[u8]) -> &[u8]
    ensures { result.now ≡ before_first (λ x. x == octet) octets.now }
{
    match octet_place(octet, octets) {
        None => octets,
        Some(len) => &octets[..len],
    }
}

/// The place of the first octet of this kind.
fn octet_place(octet: u8, octets: &[u8]) -> Option<usize>
    ensures { result ≡ position (λ x. x == octet) octets.now }
{
    octets.iter().position(|x| *x == octet)
}
