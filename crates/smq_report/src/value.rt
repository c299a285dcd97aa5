//! What stands in the lines of a report: values, errors and directions.
ghost use Rattle.std.specs.Prelude.{◌≡◌, ◌++◌, OnOk, string_bytes};
ghost use Rattle.smq_report.specs.Csv.{IsPlain};
ghost use Rattle.smq_report.specs.Values.{code_text, dir_text, error_text, value_text};

use smq_kit::{Dir, ErrorCode, ErrorText, Network};
use smq_tally::{SubmitError, Value};
use std::alloc::AllocError;
use std::str;

/// Puts a value after the text, as reports print it. It needs no quotes in CSV.
pub fn push_value(text: &mut String, value: &Value) -> Result<(), AllocError>
    ensures ok { OnOk result
        (string_bytes text.new ≡ string_bytes text.old ++ value_text value.now) }
    ensures plain { OnOk result (IsPlain (value_text value.now)) }
{
    match value {
        Value::Link(link) => {
            let number = link.0;
            write!(text, "{number}")
        }
        Value::Route(route) => {
            let number = route.0;
            write!(text, "{number}")
        }
        Value::Network(network) => text.push_str(digits_of(network)),
        Value::NoRoute | Value::NoNetwork => text.push_str("none"),
        Value::Error(error) => push_error(text, error),
        Value::Band(band) => text.push_str(band.name()),
    }
}

/// Puts the error of a message after the text, as the view of errors prints it. It needs no quotes in CSV.
pub(crate) fn push_error(text: &mut String, error: &SubmitError) -> Result<(), AllocError>
    ensures ok { OnOk result
        (string_bytes text.new ≡ string_bytes text.old ++ error_text error.now) }
    ensures plain { OnOk result (IsPlain (error_text error.now)) }
{
    match error {
        SubmitError::Refused { status } => write!(text, "status:{status}"),
        SubmitError::Failed(code) => push_code(text, code),
    }
}

/// Puts the error of a receipt after the text, as the view of errors prints it. It needs no quotes in CSV.
pub(crate) fn push_code(text: &mut String, code: &ErrorCode) -> Result<(), AllocError>
    ensures ok { OnOk result
        (string_bytes text.new ≡ string_bytes text.old ++ code_text code.now) }
    ensures plain { OnOk result (IsPlain (code_text code.now)) }
{
    match code {
        ErrorCode::Network { kind, code } => write!(text, "net:{kind}:{code}"),
        ErrorCode::Text(error) => {
            let octets = text_of(error);
            write!(text, "text:{octets}")
        }
        ErrorCode::Unstated => text.push_str("unstated"),
    }
}

/// The word for a direction.
pub(crate) fn dir_name(dir: Dir) -> &'static str
    ensures value { result.now ≡ dir_text dir }
    ensures plain { IsPlain result.now }
{
    match dir {
        Dir::FromClient => "client",
        Dir::FromCentre => "centre",
    }
}

/// The digits of a network's code as text, which they always are.
fn digits_of(network: &Network) -> &str
    ensures value { result.now ≡ network.now }
    ensures plain { IsPlain result.now }
{
    str::from_utf8(network.as_slice()).unwrap()
}

/// The octets of an error text as text, which they always are.
fn text_of(error: &ErrorText) -> &str
    ensures value { result.now ≡ error.now }
    ensures plain { IsPlain result.now }
{
    str::from_utf8(error.as_slice()).unwrap()
}
