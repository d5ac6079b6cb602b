// The formulas of two layouts on plain numbers, to compare with; None where there is no chunk, or none of the members has data.
use crate::rounds::summed;
use std::num::NonZeroU64;

pub fn striped_places(members: u64, chunk: u64, depth: u64, rounds: u64) -> Option<u64> {
    let capacity = depth.saturating_mul(members);
    let members = NonZeroU64::new(members)?;
    let chunk = NonZeroU64::new(chunk)?;
    Some(summed(rounds, capacity, |sector| {
        let number = sector / chunk;
        let offset = (number / members)
            .wrapping_mul(chunk.get())
            .wrapping_add(sector % chunk);
        (number % members).wrapping_add(offset)
    }))
}

pub fn left_places(members: u64, chunk: u64, depth: u64, rounds: u64) -> Option<u64> {
    let data = NonZeroU64::new(members.checked_sub(1)?)?;
    let capacity = depth.saturating_mul(data.get());
    let members = NonZeroU64::new(members)?;
    let chunk = NonZeroU64::new(chunk)?;
    Some(summed(rounds, capacity, |sector| {
        let number = sector / chunk;
        let row = number / data;
        let parity = data.get().wrapping_sub(row % members);
        let member = parity.wrapping_add(1).wrapping_add(number % data) % members;
        let offset = row.wrapping_mul(chunk.get()).wrapping_add(sector % chunk);
        member.wrapping_add(offset)
    }))
}
