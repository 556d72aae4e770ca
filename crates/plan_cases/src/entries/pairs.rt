// The entries on two plans, each asked for one case.
use c_plan::CRow;
use std::io;

// Where the row of a chute is, which plan is malformed, and the row's bytes: returned at once, and cut at their location.
pub fn row(rt: &impl Print, site: &[u8], house: &[u8], chute: u64) -> io::Result<()> {
    let location = plan_pair::row_location(site, house, chute);
    let found = CRow::from(location);
    super::fields(rt, found.number, u64::from(found.source), found.place)?;
    super::field(rt, u64::from(found.malformed))?;
    super::field(rt, found.start as u64)?;
    super::field(rt, found.length as u64)?;
    printing::print_bytes(rt, plan_part::row_bytes(site, house, chute))?;
    printing::print_bytes(rt, plan_part::row_part(site, house, location.ok()))
}
