//! The zone in autoshift that moves a resource's traffic away.
ghost use Rattle.std.specs.Prelude.{◌≡◌, find};
ghost use Rattle.arc_plain.specs.Precedence.{autoshift_at};
ghost use Rattle.arc_plain.specs.Resources.{resource_of};
ghost use Rattle.arc_precedence.specs.Applied.{has_zone};

use arc_data::{ResourceId, ZoneName};
use arc_shift::Resources;

/// The first started autoshift whose zone the resource has, where autoshift is enabled for it.
#[tactic(auto, using(crate::proofs::Kept::unkept, crate::proofs::Kept::enabled, crate::proofs::Kept::disabled))]
pub fn autoshift_at(resources: &Resources, resource: ResourceId) -> Option<ZoneName>
    ensures { result ≡ autoshift_at (resource_of resources.now resource) resources.now.autoshifts }
{
    let Some(zones) = resources.zones_of(resource) else {
        return None;
    };
    match resources.autoshift_of(resource) {
        Some(true) => first_among(resources.autoshifts(), zones),
        _ => None,
    }
}

/// The first of these zones that is one of those.
#[tactic(auto, using(crate::proofs::Searched::find_past, crate::proofs::Searched::find_here))]
fn first_among(autoshifts: &[ZoneName], zones: &[ZoneName]) -> Option<ZoneName>
    ensures { result ≡ find (λ zone. has_zone zones.now zone) autoshifts.now }
{
    for zone in autoshifts {
        if has_zone(zones, *zone) {
            return Some(*zone);
        }
    }
    None
}

/// Whether a zone is one of these.
#[tactic(auto, unfolding(crate::specs::Applied::has_zone))]
fn has_zone(zones: &[ZoneName], zone: ZoneName) -> bool
    ensures { result ≡ has_zone zones.now zone }
{
    zones.iter().any(|z| z.as_str() == zone.as_str())
}
