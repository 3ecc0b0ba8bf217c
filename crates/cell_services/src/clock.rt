//! The part of the clock.

ghost use Rattle.std.specs.Prelude.{◌≡◌, ◌+◌, ◌≤◌};
ghost use Rattle.mms_types.specs.Moments.{IsDated};
ghost use Rattle.cell_services.specs.Tables.{last_moment};

use mms_types::Moment;
use std::marker::Model;

/// The moment of the device, no later than the last millisecond of day 65,535 (ISO 9506-2, TimeOfDay). Contracts see
/// its milliseconds.
pub struct Clock {
    moment: Moment,
}

impl Model for Clock {
    ghost use Rattle.std.specs.Prelude.{ℕ, ◌≤◌};
    ghost use Rattle.cell_services.specs.Tables.{last_moment};

    ghost Value = { ℕ };

    ghost view = { λ clock. clock.moment.0 };

    ghost invariant = { λ clock. clock.moment.0 ≤ last_moment };
}

impl Clock {
    /// A clock at a moment.
    pub fn new(moment: Moment) -> Clock
        requires { IsDated moment }
        ensures { result ≡ moment.0 }
    {
        Clock { moment }
    }

    /// The moment.
    pub fn now(&self) -> Moment
        ensures moment { result.0 ≡ self.now }
        ensures dated { self.now ≤ last_moment }
    {
        self.moment
    }

    /// Lets so many milliseconds go by.
    pub fn advance(&mut self, ms: u32)
        requires { self.old + ms ≤ last_moment }
        ensures { self.new ≡ self.old + ms }
    {
        self.moment = Moment(self.moment.0 + u64::from(ms));
    }
}

impl Drop for Clock {
    fn drop(self) {
        let Clock { moment: _ } = self;
    }
}
