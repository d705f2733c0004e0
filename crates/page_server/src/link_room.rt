ghost use Rattle.std.specs.Prelude.{◌≡◌, []};
ghost use Rattle.page_server.specs.Held.{held_in};

use crate::buffer::Buffer;
use page_http::Routes;
use std::alloc::Global;

/// What a worker keeps from one link to the next, so that it is not made anew for each: the routes,
/// and the memory for the bytes that are read. No byte of a link is read as one of the next link.
///
/// A long request leaves the memory large: a request that is read takes at most 16 KiB and a body
/// of 1 MiB, so a room never has more than 4 MiB.
#[derive(Drop)]
pub struct LinkRoom {
    // Nothing before the first link, and where memory ran out for them.
    pub(crate) routes: Option<Routes>,
    pub(crate) buffer: Buffer,
}

impl LinkRoom {
    /// A room for links, which takes no memory before a link is served.
    pub fn new(alloc: Global) -> LinkRoom {
        LinkRoom {
            routes: None,
            buffer: Buffer::new(alloc),
        }
    }

    /// Makes it ready for a link: lets go of what was read from the link before, and makes the
    /// routes if there are none.
    pub(crate) fn begin(&mut self, alloc: Global)
        ensures { held_in self.new.buffer ≡ [] }
    {
        self.buffer.clear();
        if self.routes.is_none() {
            self.routes = Routes::new(alloc).ok();
        }
    }
}
