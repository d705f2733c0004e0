ghost use Rattle.std.specs.Prelude.{◌≡◌, ◌+◌, ◌<◌, ◌^◌};
ghost use Rattle.page_worker.specs.DoorSteps.{failed_work, no_work, work_with};

use page_server::LinkEnd;

/// What a worker did.
#[derive(Clone, Copy, Debug, PartialEq, Eq)]
pub struct WorkEnd {
    /// How many links were served.
    pub links: u64,
    /// How many requests were answered on them. Those of the most links are too many for a `u64`.
    pub requests: u128,
    /// The number in the last reply on them, or 0 without one.
    pub last: u64,
    /// Whether the work ended because the door failed, which the door has counted.
    pub door_fault: bool,
}

impl WorkEnd {
    /// No link was served.
    pub(crate) fn new() -> WorkEnd
        ensures { result ≡ no_work }
    {
        WorkEnd {
            links: 0,
            requests: 0,
            last: 0,
            door_fault: false,
        }
    }

    /// Adds a link that was served.
    pub(crate) fn add(&mut self, link: LinkEnd)
        requires links { self.old.links + 1 < 2 ^ 64 }
        requires requests { self.old.requests + link.requests < 2 ^ 128 }
        ensures { self.new ≡ work_with self.old link }
    {
        self.links += 1;
        self.requests += u128::from(link.requests);
        if link.requests != 0 {
            self.last = link.last;
        }
    }

    /// The same where the door has failed.
    pub(crate) fn failed(self) -> WorkEnd
        ensures { result ≡ failed_work self }
    {
        WorkEnd {
            door_fault: true,
            ..self
        }
    }
}
