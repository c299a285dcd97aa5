//! What the fields of a line say.
ghost use Rattle.std.specs.Prelude.{◌≡◌, IfNone, IfSome, true};
ghost use Rattle.smq_tally.specs.Names.{band_name, list_name, outcome_name, view_name};
ghost use Rattle.smq_report.specs.Values.{code_text, dir_text, error_text, value_text};
ghost use Rattle.smq_add.specs.Rows.{is_of_view};

use crate::text::{behind, number_of_8_bits, number_of_16_bits, number_of_32_bits, split_at};
use smq_kit::{Dir, ErrorCode, ErrorText, LinkId, Network, RouteId};
use smq_tally::{Band, List, Outcome, SubmitError, Value, View};

/// The view of a name.
pub(crate) fn view_named(name: &[u8]) -> Option<View>
    ensures { IfSome result (λ view. name.now ≡ view_name view) }
{
    View::all()
        .iter()
        .copied()
        .find(|view| view.name().as_bytes() == name)
}

/// The list of a name.
pub(crate) fn list_named(name: &[u8]) -> Option<List>
    ensures { IfSome result (λ list. name.now ≡ list_name list) }
{
    List::all()
        .iter()
        .copied()
        .find(|list| list.name().as_bytes() == name)
}

/// The outcomes, in their order.
pub(crate) static OUTCOMES: [Outcome; 10] = [
    Outcome::Waiting,
    Outcome::Mismatched,
    Outcome::Refused,
    Outcome::NoId,
    Outcome::Ambiguous,
    Outcome::Delivered,
    Outcome::Failed,
    Outcome::Unasked,
    Outcome::Lapsed,
    Outcome::Open,
];

/// The outcome of a name.
pub(crate) fn outcome_named(name: &[u8]) -> Option<Outcome>
    ensures { IfSome result (λ outcome. name.now ≡ outcome_name outcome) }
{
    OUTCOMES
        .iter()
        .copied()
        .find(|outcome| outcome.name().as_bytes() == name)
}

/// The bands, in their order.
static BANDS: [Band; 6] = [
    Band::Early,
    Band::Under5Seconds,
    Band::Under30Seconds,
    Band::Under5Minutes,
    Band::Under1Hour,
    Band::Over,
];

/// The band of a name.
fn band_named(name: &[u8]) -> Option<Band>
    ensures { IfSome result (λ band. name.now ≡ band_name band) }
{
    BANDS
        .iter()
        .copied()
        .find(|band| band.name().as_bytes() == name)
}

/// The direction of a word.
pub(crate) fn dir_named(name: &[u8]) -> Option<Dir>
    ensures found { IfSome result (λ dir. name.now ≡ dir_text dir) }
    ensures none { IfNone result ((dir : Dir) → name.now ≡ dir_text dir → ⊥) }
{
    if name == "client".as_bytes() {
        return Some(Dir::FromClient);
    }
    if name == "centre".as_bytes() {
        return Some(Dir::FromCentre);
    }
    None
}

/// The value that a view prints so.
pub(crate) fn value_of(view: View, text: &[u8]) -> Option<Value>
    ensures found { IfSome result (λ value. text.now ≡ value_text value) }
    ensures in_view { IfSome result (λ value. is_of_view view value ≡ true) }
{
    Some(match view {
        View::Link => Value::Link(LinkId(number_of_32_bits(text)?)),
        View::Route => route_of(text)?,
        View::Network => network_of(text)?,
        View::Error => Value::Error(error_of(text)?),
        View::LinkDelay | View::CentreDelay => Value::Band(band_named(text)?),
    })
}

/// The route that is printed so, or that there is none.
fn route_of(text: &[u8]) -> Option<Value>
    ensures found { IfSome result (λ value. text.now ≡ value_text value) }
    ensures in_view { IfSome result (λ value. is_of_view View.Route value ≡ true) }
{
    if text == "none".as_bytes() {
        return Some(Value::NoRoute);
    }
    Some(Value::Route(RouteId(number_of_32_bits(text)?)))
}

/// The network that is printed so, or that there is none.
fn network_of(text: &[u8]) -> Option<Value>
    ensures found { IfSome result (λ value. text.now ≡ value_text value) }
    ensures in_view { IfSome result (λ value. is_of_view View.Network value ≡ true) }
{
    if text == "none".as_bytes() {
        return Some(Value::NoNetwork);
    }
    match Network::parse(text) {
        Ok(network) => Some(Value::Network(network)),
        Err(_) => None,
    }
}

/// The error that is printed so.
fn error_of(text: &[u8]) -> Option<SubmitError>
    ensures { IfSome result (λ error. text.now ≡ error_text error) }
{
    if let Some(status) = behind(text, "status:".as_bytes()) {
        let status = number_of_32_bits(status)?;
        return Some(SubmitError::Refused { status });
    }
    Some(SubmitError::Failed(code_of(text)?))
}

/// The error of a receipt that is printed so.
fn code_of(text: &[u8]) -> Option<ErrorCode>
    ensures { IfSome result (λ code. text.now ≡ code_text code) }
{
    if let Some(code) = behind(text, "net:".as_bytes()) {
        let (kind, code) = split_at(code, b':')?;
        return Some(ErrorCode::Network {
            kind: number_of_8_bits(kind)?,
            code: number_of_16_bits(code)?,
        });
    }
    if let Some(octets) = behind(text, "text:".as_bytes()) {
        return Some(ErrorCode::Text(ErrorText::new(octets)?));
    }
    if text == "unstated".as_bytes() {
        return Some(ErrorCode::Unstated);
    }
    None
}
