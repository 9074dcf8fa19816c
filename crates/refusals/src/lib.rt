// Why a call, a row or a sheet is refused: one enum for the whole engine, whose numbers specs/Refusal.antt gives.
#![tactic(auto)]

ghost use Rattle.std.specs.Prelude.{◌≡◌};
ghost use Rattle.refusals.specs.Refusal.{number_of};

// Document 01's table of what stops a row or a sheet, and document 02's numbers from 18 on.
#[derive(Clone, Copy, Debug, PartialEq, Eq)]
pub enum Refusal {
    // The bytes end inside a count or a section.
    Cut,
    ChartsOver,
    QueriesOver,
    // Bytes follow the last query.
    Followed,
    // The output is too short.
    Short,
    // The row's chart index is not below the chart count.
    NoChart,
    // A chart's objects or holds are over the limit.
    ChartOver,
    // An unknown method, priority or classic.
    UnknownCode,
    // A missing field, or byte 6 or 7, holds a nonzero byte.
    LeftOver,
    // A count is over the cap.
    CountOver,
    AccOutside,
    // Closest: two counts are missing and the given ones are over remain.
    Overfull,
    AccMissing,
    // Nearest: no split exists.
    NoSplit,
    // Own weights that no league may set.
    WeightsUnfit,
    // Fast or Closest under own weights.
    OwnUnfit,
    // A relay of fewer than two or more than eight charts.
    RelayCount,
}

impl From<Refusal> for u32 {
    ghost from_gives = { λ r n. n ≡ number_of r };

    fn from(refusal: Refusal) -> u32 {
        match refusal {
            Refusal::Cut => 1,
            Refusal::ChartsOver => 2,
            Refusal::QueriesOver => 3,
            Refusal::Followed => 4,
            Refusal::Short => 5,
            Refusal::NoChart => 6,
            Refusal::ChartOver => 7,
            Refusal::UnknownCode => 8,
            Refusal::LeftOver => 9,
            Refusal::CountOver => 10,
            Refusal::AccOutside => 11,
            Refusal::Overfull => 12,
            Refusal::AccMissing => 13,
            Refusal::NoSplit => 14,
            Refusal::WeightsUnfit => 18,
            Refusal::OwnUnfit => 19,
            Refusal::RelayCount => 21,
        }
    }
}
