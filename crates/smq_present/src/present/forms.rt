//! How a link's centre writes message ids: in one form in responses, in another in receipts.
ghost use Rattle.std.specs.Prelude.{◌≡◌};
ghost use Rattle.smq_present.specs.present.Settings.{opening_forms};

use smq_kit::Form;

/// How a link's centre writes message ids.
#[derive(Clone, Copy, Debug, PartialEq, Eq)]
pub struct Forms {
    /// In submit_sm_resp and data_sm_resp.
    pub response: Form,
    /// In delivery receipts.
    pub receipt: Form,
}

impl Forms {
    /// Those of a link whose forms were never set: both verbatim.
    pub fn opening() -> Forms
        ensures { result ≡ opening_forms }
    {
        Forms {
            response: Form::Verbatim,
            receipt: Form::Verbatim,
        }
    }
}
