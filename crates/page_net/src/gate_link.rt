ghost use Rattle.std.specs.Prelude.{◌≡◌, length, drop, Some, IfOk};

use crate::link::Link;
use crate::sure_link::SureLink;
use page_io::{Failed, Memory};
use std::alloc::Global;
use std::sync::Arc;
use std::sync::atomic::{AtomicBool, Ordering};
use std::thread;

// What a link does at its gate.
#[derive(Clone, Copy, Debug)]
enum Side {
    // Its writes open the gate.
    Opens,
    // Its reads wait until the gate is open, for so many turns.
    Waits(u64),
}

/// A link of a test that is to see two threads at work at once. One link's reads wait until something was written to
/// another link, and fail after a stated number of turns. It tells nothing of what is written.
#[derive(Drop)]
pub struct GateLink {
    link: SureLink,
    gate: Arc<AtomicBool, Global>,
    side: Side,
    faults: u64,
}

impl GateLink {
    /// The link that others wait for, with a gate of its own, which is closed. Fails only if allocation fails.
    pub fn opening(alloc: Global, link: SureLink) -> Result<GateLink, Memory>
        ensures left { IfOk result (λ gated.
            ⟦<GateLink as Link>⟧.left gated ≡ ⟦<SureLink as Link>⟧.left link) }
        ensures faults { IfOk result (λ gated. ⟦<GateLink as Link>⟧.faults gated ≡ 0) }
    {
        Ok(GateLink {
            link,
            gate: Arc::new(alloc, AtomicBool::new(false))?,
            side: Side::Opens,
            faults: 0,
        })
    }

    /// A link whose reads wait until something was written to this one, each for at most `turns` turns, in which other
    /// threads may run. Fails only if this gate has as many links as it can have.
    pub fn waiting(&self, link: SureLink, turns: u64) -> Result<GateLink, Memory>
        ensures left { IfOk result (λ gated.
            ⟦<GateLink as Link>⟧.left gated ≡ ⟦<SureLink as Link>⟧.left link) }
        ensures faults { IfOk result (λ gated. ⟦<GateLink as Link>⟧.faults gated ≡ 0) }
    {
        Ok(GateLink {
            link,
            gate: Arc::try_clone(&self.gate)?,
            side: Side::Waits(turns),
            faults: 0,
        })
    }

    // Whether a read may go on.
    fn may_read(&self) -> bool {
        match self.side {
            Side::Opens => true,
            Side::Waits(turns) => self.opened_within(turns),
        }
    }

    // Whether the gate is open, or opens within so many turns.
    fn opened_within(&self, turns: u64) -> bool {
        for _ in 0..turns {
            if self.gate.load(Ordering::SeqCst) {
                return true;
            }
            thread::yield_now();
        }
        self.gate.load(Ordering::SeqCst)
    }
}

impl Link for GateLink {
    ghost use Rattle.std.specs.Prelude.{Some, None, drop};

    ghost left = { λ l. Some (drop l.link.at l.link.bytes) };

    ghost taken = { λ _. None };

    ghost faults = { λ l. l.faults };

    fn read(&mut self, buf: &mut [u8]) -> Result<usize, Failed> {
        if !self.may_read() {
            self.faults = self.faults.saturating_add(1);
            return Err(Failed);
        }
        self.link.read(buf)
    }

    fn write(&mut self, bytes: &[u8]) -> Result<usize, Failed> {
        let count = self.link.write(bytes)?;
        if let Side::Opens = self.side
            && count > 0
        {
            self.gate.store(true, Ordering::SeqCst);
        }
        Ok(count)
    }
}
