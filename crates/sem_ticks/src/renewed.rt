//! What has become of a table of semaphores.

ghost use Rattle.std.specs.Prelude.{◌≡◌, fold};
ghost use Rattle.sem_ticks.specs.Renewed.{put_at, renewed};

use mms_time::{SemaphoreRow, Semaphores};

/// What has become of a table of semaphores.
pub enum Renewed {
    /// At these places of the table, counted from 0, there are these semaphores; all else is as it was.
    Places(Vec<(usize, SemaphoreRow)>),
    /// All of it.
    All(Semaphores),
}

impl Drop for Renewed {
    fn drop(self) {
        match self {
            Renewed::Places(_places) => {}
            Renewed::All(_semaphores) => {}
        }
    }
}

/// Puts semaphores at their places.
fn put_places(semaphores: &mut Semaphores, places: Vec<(usize, SemaphoreRow)>)
    ensures { semaphores.new ≡ fold put_at semaphores.old places.items }
{
    for placed in places {
        let (place, row) = placed;
        if let Some(old) = semaphores.at_mut(place) {
            *old = row;
        }
    }
}

impl Renewed {
    /// Puts it into the table. It takes no memory.
    pub fn put(self, semaphores: &mut Semaphores)
        ensures { semaphores.new ≡ renewed self semaphores.old }
    {
        match self {
            Renewed::Places(places) => put_places(semaphores, places),
            Renewed::All(table) => *semaphores = table,
        }
    }
}
