//! Which connections are made, as contracts see it.
use chip_sheet::event::ConnId;
use std::snapshot::Snapshot;

/// The connections that were made and not dropped. It takes no memory however many there are, since nothing reads it but
/// contracts.
#[derive(Drop)]
pub enum Made {
    /// None was made.
    Nothing,
    /// This one was made, after what was before.
    With(ConnId, Snapshot<Made>),
    /// This one was dropped, after what was before.
    Without(ConnId, Snapshot<Made>),
}

impl Made {
    ghost use Rattle.std.specs.Prelude.{◌≡◌, ◌&&◌, ◌||◌, not};
    ghost use Rattle.link_trait.specs.Calls.{same};
    ghost use Rattle.host_links.specs.Connections.{is_made};

    /// These, and this one.
    pub fn with(&self, c: ConnId) -> Made
        ensures { (d : ConnId) → is_made result d ≡ (same c d || is_made self.now d) }
    {
        Made::With(c, Snapshot::of(self))
    }

    /// These without this one.
    pub fn without(&self, c: ConnId) -> Made
        ensures { (d : ConnId) → is_made result d ≡ (not (same c d) && is_made self.now d) }
    {
        Made::Without(c, Snapshot::of(self))
    }
}
