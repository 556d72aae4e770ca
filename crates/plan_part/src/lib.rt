// The bytes of a chute's row, in a site plan and a house plan lent together, as a part of the plan that they came from (docs/RULES.md, 'Chute plan').
#![tactic(auto)]

ghost use Rattle.std.specs.Prelude.{◌≡◌};
ghost use Rattle.plan_part.specs.Part.{part_from, address_from, part_at, address_at, RowBytes};

use plan_pair::{RowLocation, Source};

// The bytes from a place on; none where they would run past the end.
fn part(bytes: &[u8], start: usize, length: usize) -> &[u8]
    ensures { (result.now ≡ part_from bytes.now start length) × (result.ref_ptr ≡ address_from bytes.entry start length) }
{
    // not `get`, which does not say where in memory the part stands, as `address_from` does
    if bytes.len() < start || bytes.len() - start < length {
        return &bytes[..0];
    }
    &bytes[start..start + length]
}

// The bytes at a location, as a part of the plan that it names; none where there is no location or it runs past the plan's end.
pub fn row_part<'a>(site: &'a [u8], house: &'a [u8], location: Option<RowLocation>) -> &'a [u8]
    ensures { (result.now ≡ part_at site.now house.now location) × (result.ref_ptr ≡ address_at site.entry house.entry location) }
{
    let Some(found) = location else {
        return &site[..0];
    };
    match found.source {
        Source::Site => part(site, found.start, found.length),
        Source::House => part(house, found.start, found.length),
    }
}

// The bytes of a chute's row, as a part of the plan it came from. A row has one to three bytes, so the part is empty exactly on a refusal (specs/Parts.antt),
// which `row_location` tells: nothing is lent to be written, so a refusal writes nothing.
pub fn row_bytes<'a>(site: &'a [u8], house: &'a [u8], chute: u64) -> &'a [u8]
    ensures { RowBytes site.entry house.entry chute result }
{
    let location = plan_pair::row_location(site, house, chute).ok();
    row_part(site, house, location)
}
