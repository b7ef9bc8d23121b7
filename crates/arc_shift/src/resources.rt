//! Managed resources and the zones in autoshift, which contracts see as plain lists.
ghost use Rattle.std.specs.Prelude.{◌≡◌, ◌-◌, ◌<◌, ◌^◌, ◌==◌, IfOk, find, map, option_copied, option_map, position};
ghost use Rattle.std.specs.List.{list_any};
ghost use Rattle.std.specs.Str.{bytes_eq};
ghost use Rattle.arc_plain.specs.Part.{Does};
ghost use Rattle.arc_plain.specs.Resources.{autoshift_ended, autoshift_set, autoshift_started, item_of, items_of, next_resource, no_resources, registered, resource_of};

use arc_bytes::Memory;
use arc_data::{List, Named, PartEnd, Refusal, Resource, ResourceId, ResourceItem, Text, ZoneName};
use std::alloc::Global;
use std::marker::Model;

/// The most resources that are kept.
const MOST_RESOURCES: usize = 64;

/// The most zones that are in autoshift at once.
const MOST_AUTOSHIFTS: usize = 16;

/// The managed resources in order of registration, and the zones in autoshift in order of start.
#[derive(Drop)]
pub struct Resources {
    items: Vec<Resource>,
    drawn: u64,
    autoshifts: Vec<ZoneName>,
}

impl Model for Resources {
    ghost use Rattle.arc_plain.specs.Resources.{PlainResources, AreKeptResources};

    ghost Value = { PlainResources };

    ghost view = { λ r. record { items = r.items.items; drawn = r.drawn; autoshifts = r.autoshifts.items } };

    ghost invariant = { λ r. AreKeptResources (record { items = r.items.items; drawn = r.drawn; autoshifts = r.autoshifts.items }) };
}

impl Resources {
    /// No resource, and no zone in autoshift.
    pub fn fresh(alloc: Global) -> Result<Resources, Memory>
        ensures { IfOk result (λ resources. resources ≡ no_resources) }
    {
        Ok(Resources {
            items: Vec::new(alloc),
            drawn: 0,
            autoshifts: Vec::new(alloc),
        })
    }

    /// Registers a resource without autoshift, and draws its identifier. It is refused by `Limit` where so many are kept,
    /// and by `NameTaken` where another has the name.
    #[tactic(auto, using(arc_plain::proofs::Resources::kept_after_register), unfolding(arc_plain::specs::Resources::registered))]
    pub fn register(
        &mut self,
        alloc: Global,
        name: &Text,
        zones: &List<ZoneName>,
    ) -> Result<ResourceId, PartEnd>
        requires { self.old.drawn < 2 ^ 64 - 1 }
        ensures does { Does (registered self.old name.now zones.now) result self.old self.new }
        ensures draws { IfOk result (λ id. id ≡ next_resource self.old) }
    {
        if self.items.len() >= MOST_RESOURCES {
            return Err(PartEnd::Refused(Refusal::Limit {
                count: self.items.len() as u32,
            }));
        }
        if let Some(holder) = holder_of(self.items.as_slice(), name) {
            return Err(PartEnd::Refused(Refusal::NameTaken {
                id: Named::Resource(holder.id),
            }));
        }
        let id = ResourceId(self.drawn + 1);
        let name = name.copy(alloc)?;
        let zones = zones.copy(alloc)?;
        self.items.push(Resource {
            id,
            name,
            zones,
            autoshift: false,
        })?;
        self.drawn = id.0;
        Ok(id)
    }

    /// Sets whether zones in autoshift move a resource's traffic away. It is refused by `NotFound` where no such resource
    /// is kept.
    #[tactic(auto, using(arc_plain::proofs::Found::find_nowhere, arc_plain::proofs::Resources::kept_after_autoshift), unfolding(arc_plain::specs::Resources::autoshift_set))]
    pub fn set_autoshift(&mut self, resource: ResourceId, enabled: bool) -> Result<(), PartEnd>
        ensures { Does (autoshift_set self.old resource enabled) result self.old self.new }
    {
        let Some(place) = place_of(self.items.as_slice(), resource) else {
            return Err(PartEnd::Refused(Refusal::NotFound {
                id: Named::Resource(resource),
            }));
        };
        self.items[place].autoshift = enabled;
        Ok(())
    }

    /// Puts a zone into autoshift. It is refused by `Started` where it is, and by `Limit` where so many zones are.
    #[tactic(auto, unfolding(arc_plain::specs::Resources::autoshift_started))]
    pub fn start_autoshift(&mut self, zone: ZoneName) -> Result<(), PartEnd>
        ensures { Does (autoshift_started self.old zone) result self.old self.new }
    {
        if has_zone(self.autoshifts.as_slice(), zone) {
            return Err(PartEnd::Refused(Refusal::Started { zone }));
        }
        if self.autoshifts.len() >= MOST_AUTOSHIFTS {
            return Err(PartEnd::Refused(Refusal::Limit {
                count: self.autoshifts.len() as u32,
            }));
        }
        self.autoshifts.push(zone)?;
        Ok(())
    }

    /// Takes a zone out of autoshift. It is refused by `NotFound` where it isn't in autoshift.
    #[tactic(auto, unfolding(arc_plain::specs::Resources::autoshift_ended))]
    pub fn end_autoshift(&mut self, zone: ZoneName) -> Result<(), PartEnd>
        ensures { Does (autoshift_ended self.old zone) result self.old self.new }
    {
        if !has_zone(self.autoshifts.as_slice(), zone) {
            return Err(PartEnd::Refused(Refusal::NotFound {
                id: Named::Zone(zone),
            }));
        }
        self.autoshifts
            .retain(|kept| kept.as_str() != zone.as_str());
        Ok(())
    }

    /// A resource's name.
    pub fn name_of(&self, resource: ResourceId) -> Option<&Text>
        ensures { option_copied result ≡ option_map (λ r. r.name) (resource_of self.now resource) }
    {
        match resource_with(self.items.as_slice(), resource) {
            Some(found) => Some(&found.name),
            None => None,
        }
    }

    /// A resource's zones.
    pub fn zones_of(&self, resource: ResourceId) -> Option<&[ZoneName]>
        ensures { option_copied result ≡ option_map (λ r. r.zones) (resource_of self.now resource) }
    {
        match resource_with(self.items.as_slice(), resource) {
            Some(found) => Some(found.zones.as_slice()),
            None => None,
        }
    }

    /// Whether zones in autoshift move a resource's traffic away.
    pub fn autoshift_of(&self, resource: ResourceId) -> Option<bool>
        ensures { result ≡ option_map (λ r. r.autoshift) (resource_of self.now resource) }
    {
        match resource_with(self.items.as_slice(), resource) {
            Some(found) => Some(found.autoshift),
            None => None,
        }
    }

    /// The zones in autoshift, in order of start.
    pub fn autoshifts(&self) -> &[ZoneName]
        ensures { result.now ≡ self.now.autoshifts }
    {
        self.autoshifts.as_slice()
    }

    /// The resources as their list shows them, in order of registration.
    pub fn list(&self, alloc: Global) -> Result<List<ResourceItem>, Memory>
        ensures { IfOk result (λ items. items ≡ items_of self.now) }
    {
        list(alloc, self.items.as_slice())
    }
}

/// The resource with this identifier.
fn resource_with(items: &[Resource], id: ResourceId) -> Option<&Resource>
    ensures { option_copied result ≡ find (λ r. r.id.0 == id.0) items.now }
{
    items.iter().find(|r| r.id.0 == id.0)
}

/// The resource that has this name.
fn holder_of<'a>(items: &'a [Resource], name: &Text) -> Option<&'a Resource>
    ensures { option_copied result ≡ find (λ r. bytes_eq r.name name.now) items.now }
{
    items.iter().find(|r| r.name.as_str() == name.as_str())
}

/// Whether a zone is one of these.
fn has_zone(zones: &[ZoneName], zone: ZoneName) -> bool
    ensures { result ≡ list_any (λ z. bytes_eq z zone) zones.now }
{
    zones.iter().any(|z| z.as_str() == zone.as_str())
}

/// The place of a resource.
fn place_of(items: &[Resource], id: ResourceId) -> Option<usize>
    ensures { result ≡ position (λ r. r.id.0 == id.0) items.now }
{
    items.iter().position(|r| r.id.0 == id.0)
}

/// The resources as their list shows them.
fn list(alloc: Global, items: &[Resource]) -> Result<List<ResourceItem>, Memory>
    ensures { IfOk result (λ shown. shown ≡ map item_of items.now) }
{
    let mut shown = Vec::new(alloc);
    for item in items {
        shown.push(ResourceItem {
            name: item.name.copy(alloc)?,
            resource: item.id,
        })?;
    }
    Ok(List::of(shown))
}
