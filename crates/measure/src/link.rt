ghost use Rattle.std.specs.Prelude.{◌≡◌};

use crate::whole_page::one_file;
use page_datum::Pages;
use page_io::{Bytes, List, MemFolder, Memory, Text};
use page_net::SureLink;
use page_office::{Back, Office, OfficeClerk};
use page_server::{LinkEnd, LinkRoom, serve_link};
use page_set::{MakeRefused, PageSet};
use set_publisher::{Desk, Named, Told, Viewer};
use std::alloc::{AllocError, Global};
use std::marker::Brand;
use std::sync::Wait;

// The page that is asked for.
const PAGE: &str = "<p>{{.q}}</p>";

// The most bytes that one read of the link gives.
const STEP: u64 = 16_384;

/// What was answered on one link whose bytes are a text of requests.
pub fn link_counted<R: Wait + Sync>(
    rt: &R,
    alloc: Global,
    text: &str,
) -> Result<String, AllocError> {
    let bytes = text.len();
    match answered(rt, alloc, text) {
        Ok(Some(end)) => {
            let LinkEnd { requests, .. } = end;
            format!(in alloc; "{bytes} bytes, {requests} requests")
        }
        Ok(None) => format!(in alloc; "{bytes} bytes, refused"),
        Err(Memory) => Err(AllocError),
    }
}

// The end of such a link, or nothing where the set is refused.
fn answered<R: Wait + Sync>(rt: &R, alloc: Global, text: &str) -> Result<Option<LinkEnd>, Memory> {
    let link = SureLink::new(Bytes::copy_of(alloc, text.as_bytes())?, STEP);
    let set = match PageSet::make(alloc, one_file(alloc, PAGE)?) {
        Ok(set) => set,
        Err(MakeRefused::Memory) => return Err(Memory),
        Err(_) => return Ok(None),
    };
    let mut desk: Desk<PageSet, Told<PageSet>> = Desk::open(alloc, rt, set)?;
    let Ok(viewer) = desk.seat() else {
        desk.close(rt);
        return Err(Memory);
    };
    Ok(Some(served::<Brand, R>(rt, alloc, desk, viewer, link)))
}

// Serves the link, with the sets of a desk.
fn served<J: Named, R: Wait + Sync>(
    rt: &R,
    alloc: Global,
    desk: Desk<PageSet, Told<PageSet>>,
    mut viewer: Viewer<PageSet, Told<PageSet>>,
    mut link: SureLink,
) -> LinkEnd
    requires desk { desk.book ≡ J.desk }
    requires viewer { viewer.book ≡ J.desk }
{
    let folder = MemFolder::new(List::new(alloc), List::new(alloc));
    let back: Back<MemFolder, PageSet, Told<PageSet>, J> = Back::new(
        desk,
        folder,
        Text::new(alloc),
    );
    let office = Office::new(back);
    let mut clerk = OfficeClerk::new(&office);
    let mut room = LinkRoom::new(alloc);
    let end = serve_link(alloc, rt, &mut viewer, &mut clerk, &mut link, &mut room);
    let _folder = office.close(rt);
    end
}
