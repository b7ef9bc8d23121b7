//! Managed resources: what is kept of them, and how they are shown.

use crate::{List, ResourceId, Text, ZoneName};

/// A managed resource.
#[derive(Drop)]
pub struct Resource {
    pub id: ResourceId,
    pub name: Text,
    /// The zones in which it runs.
    pub zones: List<ZoneName>,
    /// Whether zones in autoshift move its traffic away.
    pub autoshift: bool,
}

/// A resource as the list of resources shows it.
#[derive(Drop)]
pub struct ResourceItem {
    pub name: Text,
    pub resource: ResourceId,
}
