//! What the service rows of the master schedule require of a part.

ghost use Rattle.std.specs.Prelude.{◌≡◌, ◌==◌, ◌∷◌, ◌++◌, [], ℕ, List, filter, if◌then◌else◌, map, OnOk};
ghost use Rattle.mrp_peg.specs.declared.matching.Requirement.{Requirement};
ghost use Rattle.mrp_peg.specs.Placed.{AreCounted, ArePut};
ghost use Rattle.mrp_peg.specs.Rows.{service_requirement};

use crate::matching::Requirement;
use crate::peg::{Need, NeedKind};
use crate::placing::{count_one, put};
use mrp_item::Due;
use mrp_qty::NoMemory;

// The requirement of a service row.
fn requirement_of(item: usize, service: &Due) -> Requirement
    ensures { result ≡ service_requirement item service.now }
{
    let need = Need {
        item,
        week: service.week,
        kind: NeedKind::Service(service.number),
    };
    let quantity = service.quantity;
    Requirement { need, quantity }
}

// Adds the requirement of a service row, if it is of the week.
fn add_service_in(
    needs: &mut Vec<Requirement>,
    item: usize,
    week: u16,
    service: &Due,
) -> Result<(), NoMemory>
    ensures { OnOk result (needs.new.items ≡ needs.old.items ++ (if service.now.week == week then service_requirement item service.now ∷ [] else [])) }
{
    if service.week == week {
        needs.push(requirement_of(item, service))?;
    }
    Ok(())
}

// Adds the requirements of the service rows of a week.
pub fn add_services_in(
    needs: &mut Vec<Requirement>,
    item: usize,
    week: u16,
    services: &[Due],
) -> Result<(), NoMemory>
    ensures { OnOk result (needs.new.items ≡ needs.old.items ++ filter (λ requirement. requirement.need.week == week) (map (service_requirement item) services.now)) }
{
    for service in services {
        add_service_in(needs, item, week, service)?;
    }
    Ok(())
}

// Counts the requirements of all service rows.
pub fn count_services(counts: &mut [usize], services: &[Due]) -> Result<(), NoMemory>
    ensures { OnOk result ((count item : ℕ) (counted : List Requirement) → AreCounted count counted counts.old
        → AreCounted count (counted ++ map (service_requirement item) services.now) counts.new) }
{
    for service in services {
        count_one(counts, service.week)?;
    }
    Ok(())
}

// Puts the requirements of all service rows at their places.
pub fn put_services(needs: &mut [Requirement], next: &mut [usize], item: usize, services: &[Due])
    ensures { (count : ℕ) (placed rest : List Requirement)
        → ArePut count placed (map (service_requirement item) services.now ++ rest) next.old needs.old
        → ArePut count (placed ++ map (service_requirement item) services.now) rest next.new needs.new }
{
    for service in services {
        put(needs, next, requirement_of(item, service));
    }
}
