ghost use Rattle.std.specs.Prelude.{◌≡◌, ◌↔◌, ◌<◌, IsTrue};
ghost use Rattle.mms_types.specs.Moments.{milliseconds, IsDated};

/// A moment: so many milliseconds after the beginning of 1 January 1984 (ISO 9506-2, TimeOfDay).
#[derive(Clone, Copy, PartialEq, Eq, PartialOrd, Ord, Hash)]
pub struct Moment(pub u64);

impl Moment {
    /// The last millisecond of day 65,535, the last moment that the six octets of a time name.
    pub const LAST: Moment = Moment(5_662_310_399_999);

    /// The moment of a day, counted from 1 January 1984, and a number of milliseconds in it.
    pub fn of(day: u16, ms: u32) -> Moment
        requires { ms < 86400000 }
        ensures moment { result.0 ≡ milliseconds day ms }
        ensures dated { IsDated result }
    {
        Moment(u64::from(day) * 86_400_000 + u64::from(ms))
    }

    /// Whether the six octets of a time name the moment.
    pub fn is_dated(self) -> bool
        ensures { IsTrue result ↔ IsDated self }
    {
        self <= Moment::LAST
    }
}
