//! What views count messages by. Whoever adds one gives it its numbers in specs/Rows.antt; the laws of order say whether they
//! agree.
ghost use Rattle.std.specs.Prelude.{◌≡◌};

use crate::Band;
use smq_kit::{ErrorCode, LinkId, Network, RouteId};

/// Why a message failed.
#[derive(Debug, PartialEq, Eq, PartialOrd, Ord, Drop)]
pub enum SubmitError {
    /// By the command_status of its response (SMPP 3.4, 5.1.3).
    Refused { status: u32 },
    /// By the error that its deciding receipt gives (5.3.2.31, appendix B).
    Failed(ErrorCode),
}

impl SubmitError {
    /// An equal error. It takes no memory.
    pub fn copy(&self) -> SubmitError
        ensures { result ≡ self.now }
    {
        match self {
            SubmitError::Refused { status } => SubmitError::Refused { status: *status },
            SubmitError::Failed(error) => SubmitError::Failed(error.copy()),
        }
    }
}

/// What a view counts messages by.
#[derive(Debug, PartialEq, Eq, PartialOrd, Ord, Drop)]
pub enum Value {
    /// The link, by number.
    Link(LinkId),
    /// The route, by number.
    Route(RouteId),
    /// Its number has no route, or it has no number.
    NoRoute,
    /// The network, by the octets of its code.
    Network(Network),
    /// Its number has no network, or it has no number.
    NoNetwork,
    /// Why it failed.
    Error(SubmitError),
    /// The band of its delay.
    Band(Band),
}

impl Value {
    /// An equal value. It takes no memory.
    pub fn copy(&self) -> Value
        ensures { result ≡ self.now }
    {
        match self {
            Value::Link(link) => Value::Link(*link),
            Value::Route(route) => Value::Route(*route),
            Value::NoRoute => Value::NoRoute,
            Value::Network(network) => Value::Network(network.copy()),
            Value::NoNetwork => Value::NoNetwork,
            Value::Error(error) => Value::Error(error.copy()),
            Value::Band(band) => Value::Band(*band),
        }
    }
}
