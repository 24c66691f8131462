//! What the provider attributes of a body ask for.

ghost use Rattle.std.specs.Prelude.{◌≡◌, IfOk, [], false};
ghost use Rattle.api_types.specs.Given.{value_of, value_or};
ghost use Rattle.api_ml2.specs.Segments as segments;

use api_types::{Given, NetworkForm, NetworkType, Segment};
use net_addr::{Copies, OutOfMemory, Text};
use std::alloc::Global;

/// The segment that a new network is to have, or none where any free number of vxlan will do.
pub type AskedSegment = Option<Segment>;

fn type_of(form: &NetworkForm) -> Option<NetworkType>
    ensures { result ≡ value_of form.now.provider_network_type }
{
    match &form.provider_network_type {
        Given::Is(kind) => Some(*kind),
        _ => None,
    }
}

fn number_of(form: &NetworkForm) -> Option<u32>
    ensures { result ≡ value_of form.now.provider_segmentation_id }
{
    match &form.provider_segmentation_id {
        Given::Is(number) => Some(*number),
        _ => None,
    }
}

/// Whether the body asks for a network on a physical network: a flat or a vlan one.
pub fn is_wired(form: &NetworkForm) -> bool
    ensures { result ≡ segments.is_wired (value_of form.now.provider_network_type) }
{
    match type_of(form) {
        Some(NetworkType::Flat) => true,
        Some(NetworkType::Vlan) => true,
        _ => false,
    }
}

/// Whether `provider:physical_network` is absent where the type needs it, or is there where the
/// type has none.
pub fn is_bad_physical(form: &NetworkForm) -> bool
    ensures { result ≡ segments.is_bad_physical form.now }
{
    let is_named = match &form.provider_physical_network {
        Given::Is(_) => true,
        _ => false,
    };
    if is_wired(form) { !is_named } else { is_named }
}

fn fits_type(kind: Option<NetworkType>, number: Option<u32>) -> bool
    ensures { result ≡ segments.fits_type kind number }
{
    match kind {
        Some(NetworkType::Vlan) => match number {
            Some(tag) => 1 <= tag && tag <= 4094,
            None => false,
        },
        Some(NetworkType::Vxlan) => match number {
            Some(number) => 1 <= number && number <= 16_777_215,
            None => true,
        },
        _ => number.is_none(),
    }
}

/// Whether `provider:segmentation_id` doesn't fit the type: a vlan has a tag from 1 to 4094, a
/// vxlan network a number from 1 to 16777215 or none, and no other type has one.
pub fn is_bad_number(form: &NetworkForm) -> bool
    ensures { result ≡ segments.is_bad_number form.now }
{
    !fits_type(type_of(form), number_of(form))
}

// A copy of the physical network that is named; the empty text where none is.
fn physical_of(alloc: Global, form: &NetworkForm) -> Result<Text, OutOfMemory>
    ensures { IfOk result (λ t. t ≡ value_or [] form.now.provider_physical_network) }
{
    match &form.provider_physical_network {
        Given::Is(physical) => physical.copy(alloc),
        _ => Ok(Text::new(alloc)),
    }
}

/// The segment that the provider attributes name (Neutron's `provider` extension). A vlan's tag has
/// been looked at before.
pub fn asked_segment(alloc: Global, form: &NetworkForm) -> Result<AskedSegment, OutOfMemory>
    requires fits { segments.is_bad_number form.now ≡ false }
    ensures { IfOk result (λ asked. asked ≡ segments.asked_segment form.now) }
{
    let Some(kind) = type_of(form) else {
        return Ok(None);
    };
    match kind {
        NetworkType::Local => Ok(Some(Segment::Local)),
        NetworkType::Flat => Ok(Some(Segment::Flat {
            physical: physical_of(alloc, form)?,
        })),
        NetworkType::Vlan => match number_of(form) {
            Some(tag) => Ok(Some(Segment::Vlan {
                physical: physical_of(alloc, form)?,
                tag: tag as u16,
            })),
            None => Ok(None),
        },
        NetworkType::Vxlan => match number_of(form) {
            Some(number) => Ok(Some(Segment::Vxlan { number })),
            None => Ok(None),
        },
    }
}
