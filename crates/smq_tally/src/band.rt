//! Bands of delays, declared in the order in which reports print them. Whoever adds one gives it its limit and its rank in
//! specs/Bands.antt and its name in Names.antt; the laws of order say whether they agree.
ghost use Rattle.std.specs.Prelude.{◌≡◌};

/// A band of a delay in milliseconds: of those that hold it is the first.
#[derive(Clone, Copy, Debug, PartialEq, Eq, PartialOrd, Ord)]
pub enum Band {
    /// Below 0: the receipt stands before what it is of.
    Early,
    /// Below 5,000 ms.
    Under5Seconds,
    /// Below 30,000 ms.
    Under30Seconds,
    /// Below 300,000 ms.
    Under5Minutes,
    /// Below 3,600,000 ms.
    Under1Hour,
    /// 3,600,000 ms and above.
    Over,
}

impl Band {
    ghost use Rattle.smq_tally.specs.Bands.{band_of};
    ghost use Rattle.smq_tally.specs.Names.{band_name};

    /// The band of a delay in milliseconds.
    pub fn of(milliseconds: i64) -> Band
        ensures { result ≡ band_of milliseconds }
    {
        if milliseconds < 0 {
            Band::Early
        } else if milliseconds < 5_000 {
            Band::Under5Seconds
        } else if milliseconds < 30_000 {
            Band::Under30Seconds
        } else if milliseconds < 300_000 {
            Band::Under5Minutes
        } else if milliseconds < 3_600_000 {
            Band::Under1Hour
        } else {
            Band::Over
        }
    }

    /// The name in reports.
    pub fn name(self) -> &'static str
        ensures { result.now ≡ band_name self }
    {
        match self {
            Band::Early => "early",
            Band::Under5Seconds => "under-5s",
            Band::Under30Seconds => "under-30s",
            Band::Under5Minutes => "under-5m",
            Band::Under1Hour => "under-1h",
            Band::Over => "over",
        }
    }
}
